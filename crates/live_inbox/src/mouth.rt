use crate::rule::Place;
use std::marker::Model;

/// The right to take values out of one inbox. It may go to another thread.
#[derive(Drop)]
pub struct Mouth<T> {
    pub(crate) place: Place<T>,
}

// Its inbox, what it has taken, and what stood in the inbox then.
impl<T> Model for Mouth<T> {
    ghost use Rattle.std.specs.Prelude.{◌≡◌, []};
    ghost use Rattle.live_inbox.specs.Knowledge.{IsOpen};
    ghost use Rattle.live_inbox.specs.Ends.{MouthView};

    ghost Value = { MouthView T };

    ghost view = { λ m. record {
      inbox = m.place.table_id;
      ports = m.place.me.0.client.ports;
      taken = m.place.me.0.client.taken;
      waiting = m.place.me.0.client.waiting;
    } };

    ghost invariant = { λ m. (m.place.me.1 ≡ []) × IsOpen m.place.me.0.client };
}

use crate::rule::Place;
use std::marker::Model;

/// A right to put values into one inbox. It may go to another thread.
#[derive(Drop)]
pub struct Port<T> {
    pub(crate) number: usize,
    pub(crate) place: Place<T>,
}

// Its inbox and number, and what it has put.
impl<T> Model for Port<T> {
    ghost use Rattle.std.specs.Prelude.{◌≡◌, []};
    ghost use Rattle.live_inbox.specs.Knowledge.{port_knows};
    ghost use Rattle.live_inbox.specs.Ends.{PortView};

    ghost Value = { PortView T };

    ghost view = { λ p. record {
      inbox = p.place.table_id;
      number = p.number;
      ports = p.place.me.0.client.ports;
      put = p.place.me.0.client.put;
    } };

    ghost invariant = { λ p. (p.place.me.1 ≡ [])
        × (p.place.me.0.client ≡ port_knows p.number p.place.me.0.client.ports p.place.me.0.client.put) };
}

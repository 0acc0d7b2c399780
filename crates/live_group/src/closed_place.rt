ghost use Rattle.std.specs.Prelude.{◌≡◌, ◌≤◌, length, IfOk};
ghost use Rattle.live_member.specs.Lives.{IsLive};
ghost use Rattle.live_group.specs.Seats.{IsSeat};
ghost use Rattle.live_group.specs.Desks.{HasEnded};
ghost use Rattle.live_group.specs.Outs.{IsOut};

use crate::run::Run;
use live_member::Live;
use repo_member::Group;
use repo_object::Object;
use std::alloc::{AllocError, Global};
use std::marker::Model;

/// What lay under the lock of a member's place, with the number of tickets that its actors didn't spend.
#[derive(Drop)]
pub struct ClosedPlace<L: Run> {
    number: u32,
    draw: u32,
    objects: Vec<Object>,
    live: Live<L, 900000>,
    left: u64,
}

impl<L: Run> Model for ClosedPlace<L> {
    ghost use Rattle.live_member.specs.Lives.{IsLive};
    ghost use Rattle.live_group.specs.Seats.{IsSeat};
    ghost use Rattle.live_group.specs.Desks.{HasEnded};
    ghost use Rattle.live_group.specs.Outs.{OutView};

    ghost Value = { OutView };

    ghost view = { λ o. record { number = o.number; live = o.live; left = o.left } };

    ghost invariant = { λ o. IsSeat L.meaning o.number o.draw o.objects.items × HasEnded L.turns o.live o.left };
}

impl<L: Run> ClosedPlace<L> {
    pub fn new(
        number: u32,
        draw: u32,
        objects: Vec<Object>,
        live: Live<L, 900000>,
        left: u64,
    ) -> ClosedPlace<L>
        requires seat { IsSeat L.meaning number draw objects.items }
        requires ended { HasEnded L.turns live left }
        ensures { result ≡ record { number = number; live = live; left = left } }
    {
        ClosedPlace {
            number,
            draw,
            objects,
            live,
            left,
        }
    }

    /// The member of the place. Of what a lock held only the type is known, and so the member's number is compared with
    /// that of the place: where it is another, the member is made anew.
    pub fn placed(self, alloc: Global, g: &Group) -> Result<Live<L, 1000000>, AllocError>
        requires group { g.now ≡ L.meaning.group }
        requires none_left { self.left ≡ 0 }
        ensures number { IfOk result (λ live. live.state.number ≡ self.number) }
        ensures live { IfOk result (λ live. IsLive L.meaning 1000000 live) }
        ensures room { IfOk result (λ live. length live.journal ≤ 900000) }
        ensures out { IfOk result (IsOut L.meaning L.turns) }
    {
        let ClosedPlace {
            number,
            draw,
            objects,
            live,
            ..
        } = self;
        let live = live.widen();
        if live.number() == number {
            return Ok(live);
        }
        Live::new(alloc, g, number, objects, draw)
    }
}

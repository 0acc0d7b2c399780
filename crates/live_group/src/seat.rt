ghost use Rattle.std.specs.Prelude.{◌≡◌, ◌+◌, IfOk};
ghost use Rattle.live_group.specs.Seats.{IsSeat};
ghost use Rattle.live_group.specs.Desks.{tickets_each};

use crate::closed_place::ClosedPlace;
use crate::locked_member::LockedMember;
use crate::run::Run;
use live_member::Live;
use repo_member::Group;
use repo_object::Object;
use std::alloc::{AllocError, Global};
use std::marker::Model;
use std::sync::Mutex;
use std::sync::ledger::Share;

/// A member's place: its lock, and a second copy of its list.
#[derive(Drop)]
pub struct Seat<L: Run> {
    number: u32,
    draw: u32,
    objects: Vec<Object>,
    lock: Mutex<LockedMember<L>>,
}

// A place is seen as its number. No contract can say what lies under the lock.
impl<L: Run> Model for Seat<L> {
    ghost use Rattle.std.specs.Prelude.{ℕ};
    ghost use Rattle.live_group.specs.Seats.{IsSeat};

    ghost Value = { ℕ };

    ghost view = { λ s. s.number };

    ghost invariant = { λ s. IsSeat L.meaning s.number s.draw s.objects.items };
}

impl<L: Run> Seat<L> {
    pub fn new(
        alloc: Global,
        g: &Group,
        number: u32,
        objects: Vec<Object>,
        draw: u32,
        turns: u32,
        spent: Share<L>,
    ) -> Result<Seat<L>, AllocError>
        requires group { g.now ≡ L.meaning.group }
        requires seat { IsSeat L.meaning number draw objects.items }
        requires turns { turns ≡ L.turns }
        requires parts { spent.parts ≡ 1 }
        requires none { spent.amount ≡ 0 }
        ensures { IfOk result (λ seat. seat ≡ number) }
    {
        Ok(Seat {
            number,
            draw,
            objects: copied(alloc, objects.as_slice())?,
            lock: Mutex::new(LockedMember::new(
                Live::new(alloc, g, number, objects, draw)?,
                turns,
                spent,
            )),
        })
    }

    pub fn lock(&self) -> &Mutex<LockedMember<L>> {
        &self.lock
    }

    /// What lay under the lock. The tickets that were spent on it are given back to `all`, and the number of the others
    /// is in the result.
    pub fn out(self, all: &mut Share<L>) -> ClosedPlace<L>
        ensures number { result.number ≡ self }
        ensures parts { all.new.parts ≡ all.old.parts + 1 }
        ensures amount { all.new.amount + result.left ≡ all.old.amount + tickets_each L.turns }
    {
        let Seat {
            number,
            draw,
            objects,
            lock,
        } = self;
        let (live, left, spent) = lock.into_inner().into_parts();
        all.merge(spent);
        ClosedPlace::new(number, draw, objects, live, left)
    }
}

// A second copy of these objects.
fn copied(alloc: Global, objects: &[Object]) -> Result<Vec<Object>, AllocError>
    ensures { IfOk result (λ copies. copies.items ≡ objects.now) }
{
    let mut copies = Vec::with_capacity(alloc, objects.len())?;
    for object in objects {
        copies.push(Object::new(alloc, object.name(), object.contents())?)?;
    }
    Ok(copies)
}

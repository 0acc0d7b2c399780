ghost use Rattle.std.specs.Prelude.{◌≡◌, ◌+◌, ◌<◌, ◌==◌, false, not, is_some, IfSome, OnOk, OnErr};
ghost use Rattle.repo_plan.specs.Plan.{holds, claims_part_in, attempts_of, after_hold, after_hide, with_attempts};
ghost use Rattle.repo_plan.specs.Plan.{with_room, uses_room};
ghost use Rattle.repo_plan.specs.Parts.{IsShape};
ghost use Rattle.repo_plan.specs.Sound.{CanBeHeld};

use super::Plan;
use super::whole::{note_held, note_shape};
use crate::part::Part;
use crate::shape::{Shape, last_known_part, listed_by};
use sorted_lists::table;
use std::alloc::AllocError;

impl Plan {
    /// Reserves capacity for `n` calls that end in `_reserved`, unless there is as much already.
    ///
    /// Such a call does what the call without this ending does, allocates nothing, and uses up capacity for one, also
    /// where it finds nothing to do. What is spare stays so in all other calls.
    pub fn reserve(&mut self, n: usize) -> Result<(), AllocError>
        ensures ok { OnOk result (self.new ≡ with_room n self.old) }
        ensures err { OnErr result (self.new ≡ self.old) }
    {
        if self.spare < n {
            self.done.reserve(n)?;
            self.held.reserve(n)?;
            self.shapes.reserve(n)?;
            table::reserve(&mut self.attempts, n)?;
            self.spare = n;
        }
        Ok(())
    }

    // Makes the capacity greater by one.
    pub(super) fn reserve_one_more(&mut self) -> Result<(), AllocError>
        ensures ok { OnOk result (self.new ≡ with_room (self.old.spare + 1) self.old) }
        ensures err { OnErr result (self.new ≡ self.old) }
    {
        let Some(room) = self.spare.checked_add(1) else {
            return Err(AllocError);
        };
        self.reserve(room)
    }

    /// The part is held from now on, and no more wanted, as after `hold`.
    ///
    /// The answer is `false` where the part was held already.
    pub fn hold_reserved(&mut self, part: Part, shape: Option<Shape>) -> bool
        requires spare { 0 < self.old.spare }
        requires shape { is_some shape ≡ (part.part == 0) }
        requires sized { IfSome shape IsShape }
        requires free { CanBeHeld self.old part }
        ensures fresh { result ≡ not (holds self.old part) }
        ensures new { self.new ≡ uses_room (after_hold part shape self.old) }
    {
        let held = self.holds(part);
        self.spare -= 1;
        if held {
            return false;
        }
        let publication = (part.publisher, part.seq);
        note_shape(&mut self.shapes, publication, shape);
        let shape = self.shapes.get(publication);
        note_held(
            &mut self.done,
            &mut self.held,
            (publication, part.part),
            last_known_part(shape),
        );
        self.held_count += 1;
        self.wanted_count = self.wanted_count - 1 + u64::from(listed_by(shape, part.part));
        true
    }

    /// The publication is hidden, as after `hide`.
    pub fn hide_reserved(&mut self, publisher: u32, seq: u16)
        requires spare { 0 < self.old.spare }
        requires not_claimed { claims_part_in self.old (publisher, seq) ≡ false }
        ensures { self.new ≡ uses_room (after_hide (publisher, seq) self.old) }
    {
        let publication = (publisher, seq);
        let held = self.held_in(publisher, seq);
        let wanted = self.wanted_in(publisher, seq, held);
        self.spare -= 1;
        self.held_count -= u64::from(held);
        self.wanted_count -= u64::from(wanted);
        self.held.remove_all(publication);
        self.shapes.remove(publication);
        self.done.insert(publication);
    }

    /// The part was tried so often more, as after `add_attempts`.
    pub fn add_attempts_reserved(&mut self, part: Part, n: u32)
        requires spare { 0 < self.old.spare }
        requires few { attempts_of self.old part + n < 2097152 }
        ensures { self.new ≡ uses_room (with_attempts part n self.old) }
    {
        let tried = self.attempts(part) + n;
        self.spare -= 1;
        if n > 0 {
            table::set_value(&mut self.attempts, part, tried);
        }
    }
}

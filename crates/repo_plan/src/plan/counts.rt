ghost use Rattle.std.specs.Prelude.{◌≡◌, ◌+◌, ◌-◌, ◌≤◌, ◌<◌, true, false, not, length, slice_index, Some};
ghost use Rattle.std.specs.List.{filter};
ghost use Rattle.sorted_lists.specs.Runs.{has_number};
ghost use Rattle.repo_plan.specs.Parts.{IsShape, last_part, part_of};
ghost use Rattle.repo_plan.specs.Plan.{wanted, is_in, may_be_asked_for, is_done, shape_of, knows};
ghost use Rattle.repo_plan.specs.Counts.{how_many};

use super::Plan;
use crate::part::Part;
use crate::shape::Shape;
use sorted_lists::Runs;

impl Plan {
    /// How many parts are held. Takes no look-up.
    pub fn held_count(&self) -> u64
        ensures { result ≡ length self.now.held }
    {
        self.held_count
    }

    /// How many parts are wanted, those that fetchers claim among them. Takes no look-up.
    pub fn wanted_count(&self) -> u64
        ensures { result ≡ length (wanted self.now) }
    {
        self.wanted_count
    }

    // How many parts of the publication are held.
    pub(super) fn held_in(&self, publisher: u32, seq: u16) -> u32
        ensures { result ≡ length (filter (is_in (publisher, seq)) self.now.held) }
    {
        let publication = (publisher, seq);
        match self.shape(publisher, seq) {
            None => 0,
            Some(shape) if self.done.contains(publication) => shape.last_part() + 1,
            Some(shape) => count_in(&self.held, publication, 0, shape.last_part() + 1),
        }
    }

    // How many parts of the publication, of which `held` are held, are wanted.
    pub(super) fn wanted_in(&self, publisher: u32, seq: u16, held: u32) -> u32
        requires { held ≡ length (filter (is_in (publisher, seq)) self.now.held) }
        ensures { result ≡ length (filter (is_in (publisher, seq)) (wanted self.now)) }
    {
        let publication = (publisher, seq);
        if !self.is_known(publisher, seq) || self.done.contains(publication) {
            return 0;
        }
        match self.shape(publisher, seq) {
            None => 1,
            Some(shape) => self.listed_in(publication, shape) - held,
        }
    }

    // How many parts of a publication can be asked for or are held. Looks up each part that lists others, and no
    // other.
    fn listed_in(&self, publication: (u32, u16), shape: Shape) -> u32
        requires known { knows self.now publication ≡ true }
        requires shape { shape_of self.now publication ≡ Some shape }
        requires sized { IsShape shape }
        ensures { result ≡ how_many (λ x. may_be_asked_for self.now (part_of publication x)) 0 (last_part shape + 1) }
    {
        self.cite_soundness();
        let last_number = shape.last_part();
        let mut count = 0;
        let mut passed = 0;
        while passed <= last_number {
            let part = Part {
                publisher: publication.0,
                seq: publication.1,
                part: passed as u16,
            };
            let end = shape.end_of_list(part.part);
            if self.is_listed(part, shape) {
                count += end - passed;
            }
            passed = end;
        }
        count
    }

    // How many of the publisher's publications after one number, up to another, are not done.
    pub(super) fn undone_in(&self, publisher: u32, after: u16, last: u16) -> u32
        requires { after ≤ last }
        ensures { result
            ≡ how_many (λ seq. not (is_done self.now (publisher, seq))) (after + 1) (last - after) }
    {
        let first = u32::from(after) + 1;
        u32::from(last - after) - count_in(&self.done, publisher, first, u32::from(last) + 1)
    }
}

// How many numbers of a thing, from `first` on and less than `end`, the set has. Three look-ups for each run.
fn count_in<P: Ord + Copy>(set: &Runs<P>, thing: P, first: u32, end: u32) -> u32
    requires { end ≤ 65536 }
    ensures { result ≡ how_many (λ n. has_number P.cmp set.now (thing, n)) first (end - first) }
{
    let mut count = 0;
    let mut passed = first;
    while passed < end {
        let Some(number) = set.number_from((thing, passed as u16)) else {
            return count;
        };
        if u32::from(number) >= end {
            return count;
        }
        let gap = set.gap_from((thing, number)).min(end);
        count += gap - u32::from(number);
        passed = gap;
    }
    count
}

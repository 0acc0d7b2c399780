ghost use Rattle.std.specs.Prelude.{ℕ, ◌≡◌, ◌<◌, ◌≤◌, true, false, take, length, slice_index, Some, None, IfOk};
ghost use Rattle.std.specs.List.{list_any, filter, flat_map};
ghost use Rattle.repo_plan.specs.declared.part.Part.{Part};
ghost use Rattle.repo_plan.specs.Parts.{IsShape, pair_of, record_of, part_of, parent};
ghost use Rattle.repo_plan.specs.Plan.{knows, holds, hides, may_be_asked_for, is_claim_of, is_done, unclaimed, first};
ghost use Rattle.repo_plan.specs.Plan.{is_after};
ghost use Rattle.repo_plan.specs.Plan.{is_next, parts_known, pairs_of, shape_of};

use super::Plan;
use crate::part::Part;
use crate::shape::Shape;
use std::alloc::{AllocError, Global};

impl Plan {
    /// The least wanted parts that no fetcher claims and that are greater than `after`, in order, at most `most` of
    /// them.
    pub fn wanted_after(
        &self,
        alloc: Global,
        after: Option<Part>,
        most: usize,
    ) -> Result<Vec<Part>, AllocError>
        ensures { IfOk result (λ parts.
            parts.items ≡ take most (filter (is_after after) (unclaimed self.now))) }
    {
        let mut parts = Vec::new(alloc);
        let mut last = after;
        while parts.len() < most {
            let Some(part) = self.next_unclaimed(last) else {
                return Ok(parts);
            };
            parts.push(part)?;
            last = Some(part);
        }
        Ok(parts)
    }

    // The least wanted part that no fetcher claims and that is greater than `after`.
    pub(super) fn next_unclaimed(&self, after: Option<Part>) -> Option<Part>
        ensures { result ≡ first (filter (is_after after) (unclaimed self.now)) }
    {
        for p in passed_publishers(after)..self.known.len() {
            let last = self.known[p];
            if last > 0 {
                let found = self.next_of_publisher(p as u32, last, after);
                if found.is_some() {
                    return found;
                }
            }
        }
        None
    }

    // The same among the publications of one publisher.
    fn next_of_publisher(&self, publisher: u32, last: u16, after: Option<Part>) -> Option<Part>
        requires publisher { publisher < length self.now.known }
        requires last { last ≡ slice_index self.now.known publisher }
        ensures { result ≡ first (filter (is_next self.now after)
            (flat_map (parts_known self.now) (pairs_of publisher 1 last))) }
    {
        let mut passed = passed_numbers(publisher, after);
        while passed < last {
            // The next publication that is not done.
            let seq = self.done.gap_from((publisher, passed + 1));
            if seq > u32::from(last) {
                return None;
            }
            let found = self.next_of_publication(publisher, seq as u16, after);
            if found.is_some() {
                return found;
            }
            passed = seq as u16;
        }
        None
    }

    // The same among the parts of one publication.
    fn next_of_publication(&self, publisher: u32, seq: u16, after: Option<Part>) -> Option<Part>
        requires known { knows self.now (publisher, seq) ≡ true }
        requires undone { is_done self.now (publisher, seq) ≡ false }
        ensures { result ≡ first (filter (is_next self.now after)
            (parts_known self.now (publisher, seq))) }
    {
        let publication = (publisher, seq);
        match self.shape(publisher, seq) {
            Some(shape) => self.next_listed(publication, shape, after),
            None => self.next_record(publication, after),
        }
    }

    // The same of a publication whose record is not held.
    fn next_record(&self, publication: (u32, u16), after: Option<Part>) -> Option<Part>
        requires known { knows self.now publication ≡ true }
        requires undone { is_done self.now publication ≡ false }
        requires shape { shape_of self.now publication ≡ None }
        ensures { result ≡ first (filter (is_next self.now after)
            (parts_known self.now publication)) }
    {
        let part = Part {
            publisher: publication.0,
            seq: publication.1,
            part: 0,
        };
        self.is_next(part, after).then_some(part)
    }

    // The same of a publication whose record is held.
    fn next_listed(
        &self,
        publication: (u32, u16),
        shape: Shape,
        after: Option<Part>,
    ) -> Option<Part>
        requires known { knows self.now publication ≡ true }
        requires undone { is_done self.now publication ≡ false }
        requires shape { shape_of self.now publication ≡ Some shape }
        requires sized { IsShape shape }
        ensures { result ≡ first (filter (is_next self.now after)
            (parts_known self.now publication)) }
    {
        let last_number = shape.last_part();
        let mut passed = passed_parts(publication, after);
        while passed <= last_number {
            // The next part that is not held.
            let x = self.held.gap_from((publication, passed as u16));
            if x > last_number {
                return None;
            }
            let part = Part {
                publisher: publication.0,
                seq: publication.1,
                part: x as u16,
            };
            if !self.is_listed(part, shape) {
                passed = shape.after_listed_with(part.part);
            } else if self.is_next(part, after) {
                return Some(part);
            } else {
                passed = x + 1;
            }
        }
        None
    }

    // Whether the part that lists this one is held, of a publication whose record is.
    pub(super) fn is_listed(&self, part: Part, shape: Shape) -> bool
        requires record { holds self.now (record_of part) ≡ true }
        ensures { result ≡ holds self.now (parent shape part) }
    {
        let parent = shape.parent(part.part);
        parent == 0
            || self.holds(Part {
                part: parent,
                ..part
            })
    }

    // Whether a part that is asked for and not held is greater than `after` and claimed by no fetcher.
    fn is_next(&self, part: Part, after: Option<Part>) -> bool
        requires asked { may_be_asked_for self.now part ≡ true }
        requires not_held { holds self.now part ≡ false }
        requires not_hidden { hides self.now (pair_of part) ≡ false }
        ensures { result ≡ is_next self.now after part }
    {
        is_past(part, after) && !is_claimed(&self.claims, part)
    }
}

// How many publishers have no part greater than `after`.
fn passed_publishers(after: Option<Part>) -> usize
    ensures { (t : Part) → t.publisher < result → is_after after t ≡ false }
{
    match after {
        Some(part) => part.publisher as usize,
        None => 0,
    }
}

// Up to which number the publisher's publications have no part greater than `after`.
fn passed_numbers(publisher: u32, after: Option<Part>) -> u16
    ensures { (t : Part) → t.publisher ≡ publisher → 1 ≤ t.seq → t.seq ≤ result
        → is_after after t ≡ false }
{
    match after {
        Some(part) if part.publisher == publisher => part.seq.saturating_sub(1),
        _ => 0,
    }
}

// How many parts of the publication, from its record on, are not greater than `after`.
fn passed_parts(publication: (u32, u16), after: Option<Part>) -> u32
    ensures { (x : ℕ) → x < result → is_after after (part_of publication x) ≡ false }
{
    match after {
        Some(part) if (part.publisher, part.seq) == publication => u32::from(part.part) + 1,
        _ => 0,
    }
}

// Whether the part is greater than `after`.
fn is_past(part: Part, after: Option<Part>) -> bool
    ensures { result ≡ is_after after part }
{
    match after {
        Some(other) => other < part,
        None => true,
    }
}

// Whether a fetcher claims the part.
pub(super) fn is_claimed(claims: &[Option<Part>], part: Part) -> bool
    ensures { result ≡ list_any (is_claim_of part) claims.now }
{
    for claim in claims {
        if let Some(other) = claim {
            if part.cmp(other).is_eq() {
                return true;
            }
        }
    }
    false
}

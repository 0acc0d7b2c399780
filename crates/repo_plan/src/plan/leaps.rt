ghost use Rattle.std.specs.Prelude.{◌≡◌, ◌&&◌, not, take, IfOk};
ghost use Rattle.std.specs.List.{filter};
ghost use Rattle.sorted_lists.specs.Least.{lesser_by};
ghost use Rattle.repo_plan.specs.declared.part.Part.{Part};
ghost use Rattle.repo_plan.specs.Parts.{pair_of, part_cmp};
ghost use Rattle.repo_plan.specs.Plan.{knows, holds, hides, is_listed_part, shape_of, is_unclaimed, unclaimed, first};
ghost use Rattle.repo_plan.specs.Plan.{is_after, is_claim_of};
ghost use Rattle.repo_plan.specs.Leaps.{is_from, some_holds, IsLeastFrom, IsHeldHere, IsNextKnown, IsLeastLater};

use super::Plan;
use super::wanted::is_claimed;
use crate::part::Part;
use std::alloc::{AllocError, Global};

/// Whoever holds parts that a plan may want: another plan, or a value that keeps one.
pub trait HasParts {
    ghost use Rattle.std.specs.Prelude.{Bool};
    ghost use Rattle.repo_plan.specs.declared.part.Part.{Part};

    ghost has: { Self → Part → Bool };

    /// The least part that it holds and that is not below this one.
    fn least_from(&self, part: Part) -> Option<Part>
        ensures { IsLeastFrom (has self.now) part result };
}

impl HasParts for Plan {
    ghost has = { holds };

    fn least_from(&self, part: Part) -> Option<Part> {
        self.held_from(part)
    }
}

impl Plan {
    /// The least held part that is not below this one. Takes a few look-ups, however many parts are held.
    pub fn held_from(&self, part: Part) -> Option<Part>
        ensures list { result ≡ first (filter (is_from part) self.now.held) }
        ensures least { IsLeastFrom (holds self.now) part result }
    {
        self.cite_soundness();
        let here = self.held_here(part);
        if here.is_some() {
            here
        } else {
            self.record_after(part)
        }
    }

    /// The least wanted parts that no fetcher claims, that are greater than `after` and that one of the others holds,
    /// in order, at most `most` of them.
    ///
    /// Takes look-ups for each part that it lists and for each run that it passes, of its own parts and of theirs, and
    /// none for each part that nobody holds.
    pub fn wanted_held_after<H: HasParts>(
        &self,
        alloc: Global,
        others: &[H],
        after: Option<Part>,
        most: usize,
    ) -> Result<Vec<Part>, AllocError>
        ensures { IfOk result (λ parts. parts.items
            ≡ take most (filter (some_holds H.has others.now) (filter (is_after after) (unclaimed self.now)))) }
    {
        let mut parts = Vec::new(alloc);
        let mut last = after;
        while parts.len() < most {
            let Some(part) = self.next_held_by(others, last) else {
                return Ok(parts);
            };
            parts.push(part)?;
            last = Some(part);
        }
        Ok(parts)
    }

    // The least wanted part that no fetcher claims, that is greater than `after` and that one of the others holds.
    //
    // From the next wanted part it leaps to the next that one of them holds, and from there to the next wanted one.
    fn next_held_by<H: HasParts>(&self, others: &[H], after: Option<Part>) -> Option<Part>
        ensures { result
            ≡ first (filter (some_holds H.has others.now) (filter (is_after after) (unclaimed self.now))) }
    {
        let mut passed = after;
        while let Some(wanted) = self.next_unclaimed(passed) {
            let Some(held) = least_of_some(others, wanted) else {
                return None;
            };
            if self.is_unclaimed(held) {
                return Some(held);
            }
            passed = Some(held);
        }
        None
    }

    // Whether the part is wanted and claimed by no fetcher.
    fn is_unclaimed(&self, part: Part) -> bool
        ensures { result ≡ is_unclaimed self.now part }
    {
        self.is_known(part.publisher, part.seq)
            && self.is_open(part)
            && !is_claimed(&self.claims, part)
    }

    // Whether the publication's number is known.
    pub(super) fn is_known(&self, publisher: u32, seq: u16) -> bool
        ensures { result ≡ knows self.now (publisher, seq) }
    {
        match self.known.get(publisher as usize) {
            Some(last) => 1 <= seq && seq <= *last,
            None => false,
        }
    }

    // Whether the part could be asked for where its number is known, and is neither held nor of a hidden publication.
    fn is_open(&self, part: Part) -> bool
        ensures { result ≡ (is_listed_part self.now.held (shape_of self.now (pair_of part)) part
            && (not (holds self.now part) && not (hides self.now (pair_of part)))) }
    {
        match self.shape(part.publisher, part.seq) {
            Some(shape) => {
                u32::from(part.part) <= shape.last_part()
                    && self.is_listed(part, shape)
                    && !self.holds(part)
            }
            None => part.part == 0 && !self.done.contains((part.publisher, part.seq)),
        }
    }

    // The least held part of the part's publication that is not below it.
    fn held_here(&self, part: Part) -> Option<Part>
        ensures { IsHeldHere self.now part result }
    {
        let publication = (part.publisher, part.seq);
        match self.shape(part.publisher, part.seq) {
            Some(shape) if u32::from(part.part) <= shape.last_part() => {
                if self.done.contains(publication) {
                    return Some(part);
                }
                match self.held.number_from((publication, part.part)) {
                    Some(x) => Some(Part { part: x, ..part }),
                    None => None,
                }
            }
            _ => None,
        }
    }

    // The least held part of a later publication than the part's, which is a record.
    fn record_after(&self, part: Part) -> Option<Part>
        ensures { IsLeastLater self.now part result }
    {
        self.cite_soundness();
        let Some(next) = self.next_known(part.publisher, part.seq) else {
            return None;
        };
        match self.shapes.first_from(next) {
            Some(((publisher, seq), _)) => Some(Part {
                publisher,
                seq,
                part: 0,
            }),
            None => None,
        }
    }

    // A publication after this one, with no known one between them; none where no known one is after this one.
    fn next_known(&self, publisher: u32, seq: u16) -> Option<(u32, u16)>
        ensures { IsNextKnown self.now (publisher, seq) result }
    {
        match self.known.get(publisher as usize) {
            Some(last) if seq < *last => Some((publisher, seq + 1)),
            Some(_) if publisher < u32::MAX => Some((publisher + 1, 0)),
            _ => None,
        }
    }
}

/// The least part that one of these holds and that is not below this one.
///
/// For a value that has the parts of several others. The first that holds this one ends the search.
pub fn least_of_some<H: HasParts>(others: &[H], part: Part) -> Option<Part>
    ensures { IsLeastFrom (some_holds H.has others.now) part result }
{
    let mut least = None;
    for other in others {
        let held = other.least_from(part);
        if is_same(held, part) {
            return held;
        }
        least = lesser(least, held);
    }
    least
}

// Whether this is the part.
fn is_same(a: Option<Part>, part: Part) -> bool
    ensures { result ≡ is_claim_of part a }
{
    match a {
        Some(other) => part.cmp(&other).is_eq(),
        None => false,
    }
}

// The lesser of two parts.
fn lesser(a: Option<Part>, b: Option<Part>) -> Option<Part>
    ensures { result ≡ lesser_by part_cmp (λ t. t) a b }
{
    match (a, b) {
        (Some(x), Some(y)) => { if x > y { Some(y) } else { Some(x) } }
        (None, other) => other,
        (some, None) => some,
    }
}

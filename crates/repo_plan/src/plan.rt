ghost use Rattle.std.specs.Prelude.{◌≡◌, ◌+◌, ◌<◌, ◌==◌, false, not, length, is_some, IfSome, IfOk, OnOk, OnErr};
ghost use Rattle.repo_plan.specs.Plan.{initial_plan, holds, claims_part_in, shape_of, attempts_of, is_complete};
ghost use Rattle.repo_plan.specs.Plan.{run_ends, raises, after_hold, after_hide, with_attempts};
ghost use Rattle.repo_plan.specs.Parts.{IsShape};
ghost use Rattle.repo_plan.specs.Sound.{PlanIsSound, CanBeHeld};

mod claims;
mod counts;
mod leaps;
mod reserved;
mod wanted;
mod whole;

use crate::part::Part;
use crate::shape::Shape;
pub use claims::{FetcherBusy, FetcherIdle};
pub use leaps::{HasParts, least_of_some};
use sorted_lists::{Runs, SortedMap, table};
use std::alloc::{AllocError, Global};
use std::collections::HashMap;
use std::marker::Model;

/// What a member knows of, holds, hides and claims.
///
/// A part is wanted where its publication's number is known, it is a record or is counted by the held record and listed
/// by a part that is held, it is not held, and its publication is not hidden. Sixteen fetchers, numbered from 1, claim
/// wanted parts, each at most one.
#[derive(Debug)]
pub struct Plan {
    known: Vec<u16>,
    // By publisher, the numbers of the publications of which no part is wanted any more. A search passes them run by
    // run.
    done: Runs<u32>,
    // By publication, the numbers of the held parts of those that are not done.
    held: Runs<(u32, u16)>,
    // What each held record says. A publication that is done and has no entry is hidden.
    shapes: SortedMap<(u32, u16), Shape>,
    claims: [Option<Part>; 16],
    attempts: HashMap<Part, u32>,
    // How many parts are held, and how many are wanted.
    held_count: u64,
    wanted_count: u64,
    // How many more parts there is capacity for in each of the four.
    spare: usize,
}

// A plan is dropped by one call, which is proved once, and not field by field wherever one is left.
impl Drop for Plan {
    fn drop(self) {
        let Plan {
            known: _,
            done: _,
            held: _,
            shapes: _,
            claims: _,
            attempts: _,
            held_count: _,
            wanted_count: _,
            spare: _,
        } = self;
    }
}

impl Model for Plan {
    ghost use Rattle.repo_plan.specs.Plan.{PlanState};

    ghost Value = { PlanState };

    ghost use Rattle.repo_plan.specs.PlanFields.{holdings, IsPlan};

    ghost view = { holdings };

    ghost invariant = { IsPlan };
}

impl Plan {
    /// A plan for a group of `members` members, which knows of no publication.
    pub fn new(alloc: Global, members: usize) -> Result<Plan, AllocError>
        ensures { IfOk result (λ plan. plan ≡ initial_plan members) }
    {
        Ok(Plan {
            known: vec![in alloc; 0; members]?,
            done: Runs::new(alloc),
            held: Runs::new(alloc),
            shapes: SortedMap::new(alloc),
            claims: [None; 16],
            attempts: HashMap::new(alloc),
            held_count: 0,
            wanted_count: 0,
            spare: 0,
        })
    }

    /// The publisher's publications up to number `seq` are known, besides those that are known already.
    pub fn raise(&mut self, publisher: u32, seq: u16)
        requires { publisher < length self.old.known }
        ensures { self.new ≡ raises publisher seq self.old }
    {
        let known = self.known[publisher as usize];
        let last = seq.max(known);
        let undone = self.undone_in(publisher, known, last);
        self.known[publisher as usize] = last;
        self.wanted_count += u64::from(undone);
    }

    /// The part is held from now on, and no more wanted. `shape` is what a record says of its publication.
    ///
    /// The answer is `false` where the part was held already.
    pub fn hold(&mut self, part: Part, shape: Option<Shape>) -> Result<bool, AllocError>
        requires shape { is_some shape ≡ (part.part == 0) }
        requires sized { IfSome shape IsShape }
        requires free { CanBeHeld self.old part }
        ensures fresh { IfOk result (λ fresh. fresh ≡ not (holds self.old part)) }
        ensures ok { OnOk result (self.new ≡ after_hold part shape self.old) }
        ensures err { OnErr result (self.new ≡ self.old) }
    {
        self.reserve_one_more()?;
        Ok(self.hold_reserved(part, shape))
    }

    /// What holds of every plan. Costs nothing, and is called for its clause.
    pub fn cite_soundness(&self)
        ensures { PlanIsSound self.now }
    {
        let _ = &self.claims;
    }

    /// Whether the part is held.
    pub fn holds(&self, part: Part) -> bool
        ensures { result ≡ holds self.now part }
    {
        let publication = (part.publisher, part.seq);
        match self.shape(part.publisher, part.seq) {
            Some(shape) if u32::from(part.part) <= shape.last_part() => {
                self.done.contains(publication) || self.held.contains((publication, part.part))
            }
            _ => false,
        }
    }

    /// What the held record of a publication says of its parts, or `None` where its record is not held.
    pub fn shape(&self, publisher: u32, seq: u16) -> Option<Shape>
        ensures shape { result ≡ shape_of self.now (publisher, seq) }
        ensures sized { IfSome result IsShape }
    {
        self.shapes.get((publisher, seq))
    }

    /// Whether the record of a publication and every other part of it are held.
    pub fn complete(&self, publisher: u32, seq: u16) -> bool
        ensures { result ≡ is_complete self.now (publisher, seq) }
    {
        self.shape(publisher, seq).is_some() && self.done.contains((publisher, seq))
    }

    /// How many runs there are, over all publishers, of numbers that follow one another and whose publications are
    /// hidden or held whole, each run as long as can be.
    pub fn runs(&self) -> usize
        ensures { result ≡ length (run_ends self.now) }
    {
        self.done.count()
    }

    /// The publication is hidden: its held parts are forgotten, and none of its parts is wanted from now on.
    ///
    /// The attempts of its parts stay.
    pub fn hide(&mut self, publisher: u32, seq: u16) -> Result<(), AllocError>
        requires { claims_part_in self.old (publisher, seq) ≡ false }
        ensures ok { OnOk result (self.new ≡ after_hide (publisher, seq) self.old) }
        ensures err { OnErr result (self.new ≡ self.old) }
    {
        self.reserve_one_more()?;
        self.hide_reserved(publisher, seq);
        Ok(())
    }

    /// How often the part was tried.
    pub fn attempts(&self, part: Part) -> u32
        ensures { result ≡ attempts_of self.now part }
    {
        table::value_of(&self.attempts, part).unwrap_or(0)
    }

    /// The part was tried so often more.
    pub fn add_attempts(&mut self, part: Part, n: u32) -> Result<(), AllocError>
        requires { attempts_of self.old part + n < 2097152 }
        ensures ok { OnOk result (self.new ≡ with_attempts part n self.old) }
        ensures err { OnErr result (self.new ≡ self.old) }
    {
        self.reserve_one_more()?;
        self.add_attempts_reserved(part, n);
        Ok(())
    }
}

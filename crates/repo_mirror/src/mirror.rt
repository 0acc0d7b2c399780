ghost use Rattle.std.specs.Prelude.{◌≡◌, ◌≤◌, true, length, IfOk};
ghost use Rattle.std.specs.List.{All};
ghost use Rattle.svs_vector.specs.Vectors.{join};
ghost use Rattle.repo_plan.specs.Leaps.{some_holds};
ghost use Rattle.repo_holdings.specs.Listed.{member_catalogue};
ghost use Rattle.repo_holdings.specs.Wanting.{AreShortNames};
ghost use Rattle.repo_mirror.specs.Mirrors.{is_entry_accepted};
ghost use Rattle.repo_mirror.specs.PacketsFor.{ArePacketsFor};
ghost use Rattle.repo_mirror.specs.MirrorState.{initial_mirror};
ghost use Rattle.repo_mirror.specs.MirrorOutcomes.{planned_jobs, planned_jobs_that};
ghost use Rattle.repo_mirror.specs.WantedAlone.{WantsThose};

mod counts;
mod outcome;
mod parts;

use crate::learning::learn;
use ndn_name::Name;
use repo_catalog::Catalogue;
use repo_holdings::Holdings;
use repo_object::Job;
use repo_plan::{HasParts, Part};
use repo_watch::Pattern;
use std::alloc::{AllocError, Global};
use std::marker::Model;
use svs_vector::{Roster, Vector};

/// A mirror: its pattern, its vector, and what it holds of what its pattern accepts.
///
/// A record whose object its pattern isn't for is passed over: its packet isn't kept, and no part of that publication
/// is wanted any more. The records of withdrawals are kept, since they take objects out of the catalogue.
///
/// A call that is refused, or that runs out of memory, has changed nothing.
pub struct Mirror {
    alloc: Global,
    pattern: Pattern,
    vector: Vector,
    held: Holdings,
}

// A mirror is dropped by one call, which is proved once, and not field by field wherever one goes out of scope.
impl Drop for Mirror {
    fn drop(self) {
        let Mirror {
            alloc: _,
            pattern: _,
            vector: _,
            held: _,
        } = self;
    }
}

// Contracts see a mirror as its `MirrorState`. What it wants and what it lists follow from that.
impl Model for Mirror {
    ghost use Rattle.repo_mirror.specs.MirrorState.{MirrorState};

    ghost Value = { MirrorState };

    ghost use Rattle.repo_mirror.specs.MirrorFields.{mirror_state, IsMirror};

    ghost view = { mirror_state };

    ghost invariant = { IsMirror };
}

impl Mirror {
    /// A mirror of a group of `members` members, which knows of nothing.
    pub fn new(alloc: Global, members: usize, pattern: Pattern) -> Result<Mirror, AllocError>
        requires { members ≤ 16 }
        ensures { IfOk result (λ mirror. mirror ≡ initial_mirror pattern members) }
    {
        Ok(Mirror {
            alloc,
            pattern,
            vector: Vector::new(alloc, members)?,
            held: Holdings::new(alloc, members)?,
        })
    }

    /// Joins `received` to the mirror's vector. It allocates nothing.
    pub fn learn(&mut self, received: &Vector)
        requires { length received.now ≡ length self.old.known }
        ensures { self.new ≡ record self.old { known = join self.old.known received.now } }
    {
        learn(
            self.pattern.publisher,
            &mut self.vector,
            &mut self.held,
            received,
        );
    }

    /// The jobs of the least wanted parts that are greater than `after`, at most `most` of them. Their attempts go on
    /// from those that were made. `group` is the name of the group of the publishers.
    pub fn plan(
        &self,
        alloc: Global,
        publishers: &Roster,
        group: &Name,
        after: Option<Part>,
        most: usize,
    ) -> Result<Vec<Job>, AllocError>
        requires width { length publishers.now ≡ length self.now.known }
        requires names { AreShortNames publishers.now group.now }
        ensures { IfOk result (λ jobs. jobs.items
            ≡ planned_jobs publishers.now group.now self.now after most) }
    {
        self.held.jobs(alloc, publishers, group, after, most)
    }

    /// The jobs of the least wanted parts that one of `others` holds and that are greater than `after`, at most `most`
    /// of them. Takes no look-up for a part that none of `others` holds.
    pub fn plan_held<H: HasParts>(
        &self,
        alloc: Global,
        publishers: &Roster,
        group: &Name,
        others: &[H],
        after: Option<Part>,
        most: usize,
    ) -> Result<Vec<Job>, AllocError>
        requires width { length publishers.now ≡ length self.now.known }
        requires names { AreShortNames publishers.now group.now }
        ensures { IfOk result (λ jobs. jobs.items
            ≡ planned_jobs_that (some_holds H.has others.now) publishers.now group.now self.now after most) }
    {
        self.held
            .held_jobs(alloc, publishers, group, others, after, most)
    }

    /// The mirror's vector.
    pub fn vector(&self) -> &Vector
        ensures { result.now ≡ self.now.known }
    {
        &self.vector
    }

    /// The objects that the mirror's pattern accepts of which it holds every part, and no withdrawal.
    pub fn catalogue(&self) -> &Catalogue
        ensures whole { result.now.entries ≡ member_catalogue self.now.store }
        ensures accepted { All (λ e. is_entry_accepted self.now.pattern e ≡ true) result.now.entries }
    {
        self.held.catalogue()
    }

    /// What holds of every mirror: each packet that it stores passed its checks and is none that it passes over, and it
    /// wants just the parts that a mirror with its pattern is to want. Costs nothing, and is called for its clauses.
    pub fn cite_soundness(&self)
        ensures packets { ArePacketsFor self.now.pattern self.now.store }
        ensures wants { WantsThose self.now }
    {
        self.held.cite_soundness();
    }
}

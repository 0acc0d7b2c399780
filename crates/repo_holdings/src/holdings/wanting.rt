ghost use Rattle.std.specs.Prelude.{◌≡◌, true, length, map, take, IfOk};
ghost use Rattle.std.specs.List.{All, filter};
ghost use Rattle.repo_plan.specs.Plan.{may_be_asked_for, is_after, unclaimed};
ghost use Rattle.repo_plan.specs.Leaps.{some_holds};
ghost use Rattle.repo_holdings.specs.HoldingsState.{held_plan};
ghost use Rattle.repo_holdings.specs.StoredParents.{lists_at};
ghost use Rattle.repo_holdings.specs.Wanting.{want_at, job_at, CanBeWanted, AreShortNames};

use super::Holdings;
use super::stored_parent::StoredParent;
use ndn_name::Name;
use repo_object::{Expected, Job, Want};
use repo_plan::{HasParts, Part};
use std::alloc::{AllocError, Global};
use svs_vector::Roster;

impl HasParts for Holdings {
    ghost use Rattle.repo_plan.specs.Plan.{holds};
    ghost use Rattle.repo_holdings.specs.HoldingsState.{held_plan};

    ghost has = { λ h t. holds (held_plan h) t };

    fn least_from(&self, part: Part) -> Option<Part> {
        self.stock.plan.held_from(part)
    }
}

impl Holdings {
    /// The least parts that are wanted, that no fetcher claims and that are greater than `after`, at most `most` of
    /// them, as jobs whose attempts go on from those that were made. `group` is the name of the group of the
    /// publishers.
    pub fn jobs(
        &self,
        alloc: Global,
        publishers: &Roster,
        group: &Name,
        after: Option<Part>,
        most: usize,
    ) -> Result<Vec<Job>, AllocError>
        requires width { length publishers.now ≡ length self.now.known }
        requires names { AreShortNames publishers.now group.now }
        ensures { IfOk result (λ jobs. jobs.items ≡ map (job_at publishers.now group.now self.now)
            (take most (filter (is_after after) (unclaimed (held_plan self.now))))) }
    {
        let parts = self.stock.plan.wanted_after(alloc, after, most)?;
        self.jobs_of(alloc, publishers, group, &parts)
    }

    /// The least parts that are wanted, that no fetcher claims, that one of `others` holds and that are greater than
    /// `after`, at most `most` of them, as jobs like those of `jobs`. Takes no look-up for a part that none of `others`
    /// holds.
    pub fn held_jobs<H: HasParts>(
        &self,
        alloc: Global,
        publishers: &Roster,
        group: &Name,
        others: &[H],
        after: Option<Part>,
        most: usize,
    ) -> Result<Vec<Job>, AllocError>
        requires width { length publishers.now ≡ length self.now.known }
        requires names { AreShortNames publishers.now group.now }
        ensures { IfOk result (λ jobs. jobs.items ≡ map (job_at publishers.now group.now self.now)
            (take most (filter (some_holds H.has others.now)
            (filter (is_after after) (unclaimed (held_plan self.now)))))) }
    {
        let parts = self
            .stock
            .plan
            .wanted_held_after(alloc, others, after, most)?;
        self.jobs_of(alloc, publishers, group, &parts)
    }

    // The jobs of these parts.
    fn jobs_of(
        &self,
        alloc: Global,
        publishers: &Roster,
        group: &Name,
        parts: &[Part],
    ) -> Result<Vec<Job>, AllocError>
        requires width { length publishers.now ≡ length self.now.known }
        requires names { AreShortNames publishers.now group.now }
        requires asked { All (λ part. may_be_asked_for (held_plan self.now) part ≡ true) parts.now }
        ensures { IfOk result (λ jobs. jobs.items ≡ map (job_at publishers.now group.now self.now) parts.now) }
    {
        let mut jobs = Vec::with_capacity(alloc, parts.len())?;
        let mut stored = None;
        for part in parts {
            stored = self.parent_for(*part, stored);
            let want = self.want(alloc, publishers, group, *part, stored.as_ref())?;
            let base = self.stock.plan.attempts(*part);
            jobs.push(Job { want, base })?;
        }
        Ok(jobs)
    }

    /// The want of a part that is asked for, and that `stored` lists, unless it is a record.
    pub fn want(
        &self,
        alloc: Global,
        publishers: &Roster,
        group: &Name,
        part: Part,
        stored: Option<&StoredParent<'_>>,
    ) -> Result<Want, AllocError>
        requires width { length publishers.now ≡ length self.now.known }
        requires names { AreShortNames publishers.now group.now }
        requires wanted { CanBeWanted self.now part stored }
        ensures want { IfOk result (λ want. want ≡ want_at publishers.now group.now self.now.store part) }
        ensures lists { IfOk result (λ want. want.lists ≡ lists_at self.now.store part) }
    {
        self.expected(publishers, group, part, stored)
            .to_want(alloc)
    }

    /// What the packet must be of a part that is asked for, and that `stored` lists, unless it is a record. It takes no
    /// memory.
    pub fn expected<'w>(
        &'w self,
        publishers: &'w Roster,
        group: &'w Name,
        part: Part,
        stored: Option<&'w StoredParent<'_>>,
    ) -> Expected<'w>
        requires width { length publishers.now ≡ length self.now.known }
        requires names { AreShortNames publishers.now group.now }
        requires wanted { CanBeWanted self.now part stored }
        ensures expected { result ≡ want_at publishers.now group.now self.now.store part }
        ensures lists { result.lists ≡ lists_at self.now.store part }
    {
        let node = publishers.name(part.publisher);
        match stored {
            None => Expected::record(part, node, group),
            Some(parent) if part.part <= parent.shape.index => {
                parent.listing.index(part, node, group)
            }
            Some(parent) => parent.listing.segment(part, self.digest_of(part, parent)),
        }
    }
}

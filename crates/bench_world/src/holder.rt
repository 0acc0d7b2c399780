// Holders of parts, which fetch more of them.
ghost use Rattle.std.specs.Prelude.{◌≡◌, ◌≤◌, length, map, IfOk, OnOk, OnErr};
ghost use Rattle.std.specs.List.{All, sum_by};
ghost use Rattle.std.specs.Thread.{IsSync};
ghost use Rattle.repo_plan.specs.Leaps.{some_holds};
ghost use Rattle.repo_holdings.specs.Contents.{IsDigestIn};
ghost use Rattle.repo_holdings.specs.Taking.{PartsDiffer, with_fetched_for};
ghost use Rattle.group_model.specs.Steps.{job_limit};
ghost use Rattle.repo_member.specs.Outcomes.{IsOutcomeOf, jobs_of, outcome_of, octets_in};
ghost use Rattle.bench_world.specs.Counts.{AreCountsOf};
ghost use Rattle.bench_world.specs.Holders.{HolderPredicates, AreHolders, jobs_that};
ghost use Rattle.bench_world.specs.Touching.{lend_touched};

use crate::lenders::Lenders;
use fetch_work::{digest_workers, digests};
use repo_holdings::ContentsDigest;
use repo_member::{FetchCounts, Group, Member};
use repo_mirror::Mirror;
use repo_object::{Checked, Job};
use repo_plan::Part;
use repo_watch::Filter;
use std::alloc::{AllocError, Global};
use std::thread::Threads;

/// A holder of parts of a group's publications, which plans jobs for more of them: a member or a mirror.
pub(crate) trait Holder {
    ghost words: { HolderPredicates Self };

    /// The least parts that the holder wants, that no fetcher claims and that are greater than `after`, at most `most`
    /// of them, as jobs whose attempts go on from those that were made.
    fn jobs(
        &self,
        alloc: Global,
        g: &Group,
        after: Option<Part>,
        most: usize,
    ) -> Result<Vec<Job>, AllocError>
        requires { length g.now.members.names ≡ length (words.holdings self.now).known }
        ensures { IfOk result (λ jobs. jobs.items ≡ jobs_of g.now (words.holdings self.now) after most) };

    /// The jobs of the least parts that the holder wants, that no fetcher claims, that are greater than `after` and
    /// that `lenders` lend, at most `most` of them.
    fn held_jobs(
        &self,
        alloc: Global,
        g: &Group,
        lenders: &[Lenders<'_>],
        after: Option<Part>,
        most: usize,
    ) -> Result<Vec<Job>, AllocError>
        requires { length g.now.members.names ≡ length (words.holdings self.now).known }
        ensures { IfOk result (λ jobs. jobs.items
            ≡ jobs_that (some_holds (λ l. lend_touched l.members.now l.touched.now) lenders.now) g.now
            (words.holdings self.now) after most) };

    /// Takes the results of jobs that the holder planned: for each job its packet, if any, and how often it was tried.
    /// Where there are several workers and many octets were received, the workers make the digests over the contents of
    /// objects that become whole.
    //
    // That threads may share the handle is a condition, since the bounds of a trait's method don't say it to its proof.
    fn take<R: Threads + Sync>(
        &mut self,
        rt: &R,
        alloc: Global,
        g: &Group,
        workers: u32,
        jobs: &[Job],
        parts: &[Option<Checked<'_>>],
        attempts: &[u32],
    ) -> Result<FetchCounts, AllocError>
        requires shared { IsSync R.row }
        requires workers { (1 ≤ workers) × (workers ≤ 16) }
        requires group { length g.now.members.names ≡ length (words.holdings self.old).known }
        requires outcome { IsOutcomeOf g.now (words.holdings self.old) jobs.now parts.now attempts.now }
        requires few { length jobs.now ≤ job_limit }
        ensures ok { OnOk result (self.new ≡ words.takes (outcome_of jobs.now parts.now attempts.now) self.old) }
        ensures counts { IfOk result (AreCountsOf parts.now) }
        ensures err { OnErr result (self.new ≡ self.old) };

    ghost are_holders: { AreHolders words };
}

impl Holder for Member {
    ghost use Rattle.bench_world.specs.MemberWords.{member_words};
    ghost use Rattle.bench_world.specs.MembersHold.{members_hold};

    ghost words = { member_words };

    fn jobs(
        &self,
        alloc: Global,
        g: &Group,
        after: Option<Part>,
        most: usize,
    ) -> Result<Vec<Job>, AllocError> {
        self.plan(alloc, g, after, most)
    }

    fn held_jobs(
        &self,
        alloc: Global,
        g: &Group,
        lenders: &[Lenders<'_>],
        after: Option<Part>,
        most: usize,
    ) -> Result<Vec<Job>, AllocError> {
        self.plan_held(alloc, g, lenders, after, most)
    }

    fn take<R: Threads + Sync>(
        &mut self,
        rt: &R,
        alloc: Global,
        g: &Group,
        workers: u32,
        jobs: &[Job],
        parts: &[Option<Checked<'_>>],
        attempts: &[u32],
    ) -> Result<FetchCounts, AllocError> {
        let workers = digest_workers(fetched_octets(parts), workers);
        if workers == 1 {
            return self.take_digested(g, jobs, parts, attempts, &[]);
        }
        let digests = digests_with(rt, alloc, self, workers, jobs, parts)?;
        self.take_digested(g, jobs, parts, attempts, &digests)
    }

    ghost are_holders = { members_hold };
}

// The digests over the contents of objects that become whole in the member by the results of jobs, made by `workers`
// workers.
fn digests_with<R: Threads + Sync>(
    rt: &R,
    alloc: Global,
    member: &Member,
    workers: u32,
    jobs: &[Job],
    parts: &[Option<Checked<'_>>],
) -> Result<Vec<ContentsDigest>, AllocError>
    requires workers { (1 ≤ workers) × (workers ≤ 16) }
    requires apart { PartsDiffer (map (λ job. job.want.part) jobs.now) }
    ensures { IfOk result
        (λ digests. All (IsDigestIn (with_fetched_for jobs.now parts.now member.now.store)) digests.items) }
{
    let whole = member.whole_with(alloc, jobs, parts)?;
    digests(rt, alloc, &whole, workers)
}

/// A mirror, with the rule by which its pattern accepts objects.
#[derive(Drop)]
pub(crate) struct Filtering<'f> {
    pub(crate) mirror: Mirror,
    pub(crate) filter: &'f Filter,
}

impl<'f> Holder for Filtering<'f> {
    ghost use Rattle.bench_world.specs.MirrorWords.{mirror_words};
    ghost use Rattle.bench_world.specs.MirrorsHold.{mirrors_hold};

    ghost words = { mirror_words };

    fn jobs(
        &self,
        alloc: Global,
        g: &Group,
        after: Option<Part>,
        most: usize,
    ) -> Result<Vec<Job>, AllocError> {
        g.cite_soundness();
        self.mirror.plan(alloc, g.roster(), g.name(), after, most)
    }

    fn held_jobs(
        &self,
        alloc: Global,
        g: &Group,
        lenders: &[Lenders<'_>],
        after: Option<Part>,
        most: usize,
    ) -> Result<Vec<Job>, AllocError> {
        g.cite_soundness();
        self.mirror
            .plan_held(alloc, g.roster(), g.name(), lenders, after, most)
    }

    fn take<R: Threads + Sync>(
        &mut self,
        _rt: &R,
        _alloc: Global,
        _g: &Group,
        _workers: u32,
        jobs: &[Job],
        parts: &[Option<Checked<'_>>],
        attempts: &[u32],
    ) -> Result<FetchCounts, AllocError> {
        let kept = self
            .mirror
            .take_outcome(self.filter, jobs, parts, attempts)?;
        Ok(FetchCounts {
            parts: kept,
            octets: fetched_octets(parts),
        })
    }

    ghost are_holders = { mirrors_hold };
}

// How many octets the packets have that were received.
fn fetched_octets(parts: &[Option<Checked<'_>>]) -> u64
    requires { length parts.now ≤ job_limit }
    ensures { result ≡ sum_by octets_in parts.now }
{
    let mut octets = 0;
    for part in parts {
        if let Some(checked) = part {
            octets += checked.octets().len() as u64;
        }
    }
    octets
}

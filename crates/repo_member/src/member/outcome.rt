ghost use Rattle.std.specs.Prelude.{◌≡◌, ◌<◌, ◌^◌, count_by, sum_by, is_some, IfOk, OnOk, OnErr, map, vec_len};
ghost use Rattle.std.specs.List.{All};
ghost use Rattle.repo_member.specs.MemberState.{IsOfGroup, member_plan, member_takes};
ghost use Rattle.repo_holdings.specs.Taking.{came, arrival_octets, with_fetched_for, AreTakable, PartsDiffer};
ghost use Rattle.repo_holdings.specs.Contents.{IsDigestIn};
ghost use Rattle.repo_holdings.specs.WholeContents.{IsWholeIn};
ghost use Rattle.repo_member.specs.Outcomes.{IsOutcome, outcome_of, octets_in};

use super::Member;
use super::fetching::arrived;
use crate::group::Group;
use repo_holdings::{ContentsDigest, Taken, Tried, Whole};
use repo_object::{Checked, Job};
use std::alloc::{AllocError, Global};

/// What a member took of a fetch: the parts that it holds from now on and did not hold, and the octets of their
/// packets.
#[derive(Clone, Copy, Debug, PartialEq, Eq)]
pub struct FetchCounts {
    pub parts: u32,
    pub octets: u64,
}

impl Member {
    /// Takes the result of a fetch that was planned: for each job its packet, if any, and how often it was tried.
    ///
    /// The answer is how many parts the member holds from now on and did not hold. There is no memory for more than a
    /// `u32` counts.
    pub fn take_outcome(
        &mut self,
        g: &Group,
        jobs: &[Job],
        parts: &[Option<Checked<'_>>],
        attempts: &[u32],
    ) -> Result<u32, AllocError>
        requires group { IsOfGroup g.now self.old }
        requires outcome { IsOutcome g.now self.old jobs.now parts.now attempts.now }
        ensures ok { OnOk result (self.new ≡ member_takes (outcome_of jobs.now parts.now attempts.now) self.old) }
        ensures parts { IfOk result (λ held. held ≡ count_by is_some parts.now) }
        ensures err { OnErr result (self.new ≡ self.old) }
    {
        let kept = self.take_digested(g, jobs, parts, attempts, &[])?;
        Ok(kept.parts)
    }

    /// Publications that become whole by the result of a fetch, with their contents borrowed, not copied. Their digests
    /// can be made before the packets are taken.
    pub fn whole_with<'a>(
        &'a self,
        alloc: Global,
        jobs: &[Job],
        parts: &[Option<Checked<'a>>],
    ) -> Result<Vec<Whole<'a>>, AllocError>
        requires { PartsDiffer (map (λ job. job.want.part) jobs.now) }
        ensures { IfOk result
            (λ whole. All (IsWholeIn (with_fetched_for jobs.now parts.now self.now.store)) whole.items) }
    {
        self.held.whole_with(alloc, jobs, parts)
    }

    /// Takes the result of a fetch, as `take_outcome` does. Digests over contents that are given, in order of their
    /// publications, aren't made again.
    pub fn take_digested(
        &mut self,
        g: &Group,
        jobs: &[Job],
        parts: &[Option<Checked<'_>>],
        attempts: &[u32],
        digests: &[ContentsDigest],
    ) -> Result<FetchCounts, AllocError>
        requires group { IsOfGroup g.now self.old }
        requires outcome { IsOutcome g.now self.old jobs.now parts.now attempts.now }
        requires digests { All (IsDigestIn (with_fetched_for jobs.now parts.now self.old.store)) digests.now }
        ensures ok { OnOk result (self.new ≡ member_takes (outcome_of jobs.now parts.now attempts.now) self.old) }
        ensures parts { IfOk result (λ kept. kept.parts ≡ count_by is_some parts.now) }
        ensures octets { IfOk result (λ kept. kept.octets ≡ sum_by octets_in parts.now) }
        ensures err { OnErr result (self.new ≡ self.old) }
    {
        let all = self.tried(g, jobs, parts, attempts)?;
        self.held.reserve(all.len())?;
        let Taken { parts, octets } = self.held.take(all, digests);
        Ok(FetchCounts { parts, octets })
    }

    // The result of a fetch that was planned, with its packets as the member stores them.
    fn tried(
        &self,
        g: &Group,
        jobs: &[Job],
        parts: &[Option<Checked<'_>>],
        attempts: &[u32],
    ) -> Result<Vec<Tried>, AllocError>
        requires group { IsOfGroup g.now self.now }
        requires outcome { IsOutcome g.now self.now jobs.now parts.now attempts.now }
        ensures came { IfOk result (λ all. map came all.items ≡ outcome_of jobs.now parts.now attempts.now) }
        ensures takable { IfOk result (λ all. AreTakable (member_plan self.now) self.now.store all.items) }
        ensures few { IfOk result (λ all. vec_len all < 2 ^ 32) }
        ensures parts { IfOk result (λ all. count_by (λ x. is_some x.arrival) all.items ≡ count_by is_some parts.now) }
        ensures octets { IfOk result (λ all. sum_by arrival_octets all.items ≡ sum_by octets_in parts.now) }
    {
        let Ok(_) = u32::try_from(jobs.len()) else {
            return Err(AllocError);
        };
        let alloc = *self.log.allocator();
        let mut all = Vec::with_capacity(alloc, jobs.len())?;
        for ((job, checked), tries) in jobs.iter().zip(parts).zip(attempts) {
            let arrival = match checked {
                Some(checked) => Some(arrived(alloc, checked)?),
                None => None,
            };
            all.push(Tried {
                part: job.want.part(),
                attempts: *tries,
                arrival,
            })?;
        }
        Ok(all)
    }
}

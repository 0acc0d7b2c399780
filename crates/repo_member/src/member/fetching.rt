ghost use Rattle.std.specs.Prelude.{◌≡◌, ◌⊎◌, ◌↔◌, Ok, Err, Some, None, IsOk, IsErr, IsSomeAnd, IfSome, IfOk, IfErr};
ghost use Rattle.std.specs.Prelude.{OnOk, OnErr, true, map, take, List};
ghost use Rattle.std.specs.List.{filter};
ghost use Rattle.repo_plan.specs.Plan.{claim_of, unclaimed, first, is_after, may_be_asked_for, is_wanted};
ghost use Rattle.repo_plan.specs.Leaps.{some_holds};
ghost use Rattle.repo_plan.specs.Calls.{IsFetcher};
ghost use Rattle.repo_object.specs.Verdict.{ring_verdict};
ghost use Rattle.repo_member.specs.MemberState.{IsOfGroup, member_plan, member_claims, want_of, member_accepts};
ghost use Rattle.repo_member.specs.Verdicts.{passed, accept_verdict};
ghost use Rattle.repo_holdings.specs.Records.{Packet as Stored};
ghost use Rattle.repo_holdings.specs.StoredParents.{lists_at};
ghost use Rattle.repo_holdings.specs.Gaining.{IsArrival};
ghost use Rattle.repo_member.specs.Outcomes.{job_for, IsCheckedFor};

use super::Member;
use crate::group::Group;
use crate::refusals::{AcceptRefusal, WantFault};
use repo_holdings::Arrival;
use repo_object::{Checked, Job, Packet, Want};
use repo_plan::{FetcherBusy, FetcherIdle, HasParts, Part};
use std::alloc::{AllocError, Global};

impl HasParts for Member {
    ghost use Rattle.repo_plan.specs.Plan.{holds};
    ghost use Rattle.repo_member.specs.MemberState.{member_plan};

    ghost has = { λ a t. holds (member_plan a) t };

    fn least_from(&self, part: Part) -> Option<Part> {
        self.held.least_from(part)
    }
}

impl Member {
    /// The fetcher claims the least part that is wanted and that no fetcher claims, or none where there is none. It
    /// allocates nothing.
    pub fn claim(&mut self, f: u8) -> Result<Option<Part>, FetcherBusy>
        requires { IsFetcher f }
        ensures idle { IsOk result ↔ (claim_of (member_plan self.old) f ≡ None) }
        ensures busy { IfErr result (λ e. claim_of (member_plan self.old) f ≡ Some e.part) }
        ensures part { IfOk result (λ claim. claim ≡ first (unclaimed (member_plan self.old))) }
        ensures new { IfOk result (λ claim. self.new ≡ member_claims f claim self.old) }
        ensures err { OnErr result (self.new ≡ self.old) }
    {
        self.held.claim(f)
    }

    /// The fetcher's claim ends, and its part can be claimed again. It allocates nothing.
    pub fn lose(&mut self, f: u8) -> Result<Part, FetcherIdle>
        requires { IsFetcher f }
        ensures busy { IfOk result (λ part. claim_of (member_plan self.old) f ≡ Some part) }
        ensures idle { IsErr result ↔ (claim_of (member_plan self.old) f ≡ None) }
        ensures ok { OnOk result (self.new ≡ member_claims f None self.old) }
        ensures err { OnErr result (self.new ≡ self.old) }
    {
        self.held.release(f)
    }

    /// The part that the fetcher claims, if it claims one. It allocates nothing.
    pub fn claimed(&self, f: u8) -> Option<Part>
        requires { IsFetcher f }
        ensures { result ≡ claim_of (member_plan self.now) f }
    {
        self.held.claimed(f)
    }

    /// The want of the fetcher's part, with the Interest that asks for it.
    pub fn want(&self, alloc: Global, g: &Group, f: u8) -> Result<Want, WantFault>
        requires fetcher { IsFetcher f }
        requires group { IsOfGroup g.now self.now }
        ensures want { IfOk result (λ want. IsSomeAnd (claim_of (member_plan self.now) f)
            (λ part. want ≡ want_of g.now self.now.store part)) }
        ensures idle { (result ≡ Err WantFault.FetcherIdle) ↔ (claim_of (member_plan self.now) f ≡ None) }
    {
        let Some(part) = self.held.claimed(f) else {
            return Err(WantFault::FetcherIdle);
        };
        let stored = self.held.parent_for(part, None);
        g.cite_soundness();
        Ok(
            self.held
                .want(alloc, g.roster(), g.name(), part, stored.as_ref())?,
        )
    }

    /// The octets are taken for the part that the fetcher claims, if they pass for it: the part is held from now on,
    /// the claim is over, and the catalogue changes by it: an object is listed where no part of it is missing any more,
    /// unless it is withdrawn, and what a withdrawal withdraws is removed.
    pub fn accept(&mut self, g: &Group, f: u8, octets: &[u8]) -> Result<Part, AcceptRefusal>
        requires fetcher { IsFetcher f }
        requires group { IsOfGroup g.now self.old }
        ensures part { IfOk result (λ part. accept_verdict g.now self.old f octets.now ≡ Ok part) }
        ensures ok { IfOk result (λ part. self.new ≡ member_accepts f part octets.now self.old) }
        ensures idle { (result ≡ Err AcceptRefusal.FetcherIdle) ↔ (claim_of (member_plan self.old) f ≡ None) }
        ensures refused { IfErr result (λ refusal. (refusal ≡ AcceptRefusal.NoMemory)
            ⊎ (accept_verdict g.now self.old f octets.now ≡ Err refusal)) }
        ensures memory { result ≡ Err AcceptRefusal.NoMemory → IsOk (accept_verdict g.now self.old f octets.now) }
        ensures err { OnErr result (self.new ≡ self.old) }
    {
        let Some(part) = self.held.claimed(f) else {
            return Err(AcceptRefusal::FetcherIdle);
        };
        let arrival = self.arrival(g, part, octets)?;
        self.gain_claimed(f, part, arrival)?;
        Ok(part)
    }

    /// A packet that the caller has checked for the member's want of the part that the fetcher claims is taken, as
    /// `accept` takes it.
    pub fn accept_checked(
        &mut self,
        g: &Group,
        f: u8,
        checked: &Checked<'_>,
    ) -> Result<Part, AcceptRefusal>
        requires fetcher { IsFetcher f }
        requires group { IsOfGroup g.now self.old }
        requires checked { IfSome (claim_of (member_plan self.old) f)
            (λ part. IsCheckedFor g.now (want_of g.now self.old.store part) checked.now) }
        ensures part { IfOk result (λ part. claim_of (member_plan self.old) f ≡ Some part) }
        ensures ok { IfOk result (λ part. self.new ≡ member_accepts f part checked.now.octets self.old) }
        ensures idle { (result ≡ Err AcceptRefusal.FetcherIdle) ↔ (claim_of (member_plan self.old) f ≡ None) }
        ensures refused { IfErr result (λ refusal. (refusal ≡ AcceptRefusal.NoMemory)
            ⊎ (refusal ≡ AcceptRefusal.FetcherIdle)) }
        ensures err { OnErr result (self.new ≡ self.old) }
    {
        let Some(part) = self.held.claimed(f) else {
            return Err(AcceptRefusal::FetcherIdle);
        };
        let arrival = arrived(*self.log.allocator(), checked)?;
        self.gain_claimed(f, part, arrival)?;
        Ok(part)
    }

    // The packet that was received for the part that the fetcher claims is held from now on, and the claim is over.
    fn gain_claimed(&mut self, f: u8, part: Part, arrival: Arrival) -> Result<(), AllocError>
        requires fetcher { IsFetcher f }
        requires claimed { claim_of (member_plan self.old) f ≡ Some part }
        requires wanted { is_wanted (member_plan self.old) part ≡ true }
        requires arrival { IsArrival self.old.store part arrival.packet arrival.summary }
        ensures ok { OnOk result (self.new ≡ member_accepts f part arrival.packet self.old) }
        ensures err { OnErr result (self.new ≡ self.old) }
    {
        self.held.reserve(1)?;
        let _ = self.held.release(f);
        self.held.gain(part, arrival);
        Ok(())
    }

    /// The jobs of the least parts that are wanted, that no fetcher claims and that are greater than `after`, at most
    /// `most` of them. Their attempts go on from those that were made.
    pub fn plan(
        &self,
        alloc: Global,
        g: &Group,
        after: Option<Part>,
        most: usize,
    ) -> Result<Vec<Job>, AllocError>
        requires { IsOfGroup g.now self.now }
        ensures { IfOk result (λ jobs. jobs.items ≡ map (job_for g.now self.now)
            (take most (filter (is_after after) (unclaimed (member_plan self.now))))) }
    {
        g.cite_soundness();
        self.held.jobs(alloc, g.roster(), g.name(), after, most)
    }

    /// The jobs of the least parts that one of `others` holds, that are wanted, that no fetcher claims and that are
    /// greater than `after`, at most `most` of them. Takes no look-up for a part that none of `others` holds.
    pub fn plan_held<H: HasParts>(
        &self,
        alloc: Global,
        g: &Group,
        others: &[H],
        after: Option<Part>,
        most: usize,
    ) -> Result<Vec<Job>, AllocError>
        requires { IsOfGroup g.now self.now }
        ensures { IfOk result (λ jobs. jobs.items ≡ map (job_for g.now self.now)
            (take most (filter (some_holds H.has others.now)
            (filter (is_after after) (unclaimed (member_plan self.now)))))) }
    {
        g.cite_soundness();
        self.held
            .held_jobs(alloc, g.roster(), g.name(), others, after, most)
    }

    // The packet that was received for a part, if the octets pass for it. Memory is taken for it last.
    fn arrival(&self, g: &Group, part: Part, octets: &[u8]) -> Result<Arrival, AcceptRefusal>
        requires group { IsOfGroup g.now self.now }
        requires asked { may_be_asked_for (member_plan self.now) part ≡ true }
        ensures passed { IfOk result (λ _. passed part (ring_verdict (want_of g.now self.now.store part)
            g.now.members.ring octets.now) ≡ Ok part) }
        ensures octets { IfOk result (λ arrival. arrival.packet ≡ octets.now) }
        ensures arrival { IfOk result (λ arrival.
            IsArrival self.now.store part arrival.packet arrival.summary) }
        ensures refused { IfErr result (λ refusal. (refusal ≡ AcceptRefusal.NoMemory)
            ⊎ (passed part (ring_verdict (want_of g.now self.now.store part)
            g.now.members.ring octets.now) ≡ Err refusal)) }
        ensures memory { result ≡ Err AcceptRefusal.NoMemory → IsOk (passed part
            (ring_verdict (want_of g.now self.now.store part) g.now.members.ring octets.now)) }
    {
        let alloc = *self.log.allocator();
        let stored = self.held.parent_for(part, None);
        g.cite_soundness();
        let expected = self
            .held
            .expected(g.roster(), g.name(), part, stored.as_ref());
        expected.check(octets, g.members())?;
        let packet = Packet::new(alloc, octets.to_vec(alloc)?, expected.digest())?;
        Ok(Arrival::new(alloc, part, packet)?)
    }
}

// The packet that was checked for the want of a part, as an `Arrival` for that part.
pub(super) fn arrived(alloc: Global, checked: &Checked<'_>) -> Result<Arrival, AllocError>
    ensures octets { IfOk result (λ arrival. arrival.packet ≡ checked.now.octets) }
    ensures arrival { IfOk result (λ arrival. (packets : List Stored)
        → checked.now.want.lists ≡ lists_at packets checked.now.want.part
        → IsArrival packets checked.now.want.part arrival.packet arrival.summary) }
{
    Arrival::new(alloc, checked.part(), checked.to_packet(alloc)?)
}

// The result of a fetch that a mirror planned.
ghost use Rattle.std.specs.Prelude.{◌≡◌, ◌<◌, ◌^◌, length, vec_len};
ghost use Rattle.std.specs.Prelude.{map, count_by, is_some, List, max};
ghost use Rattle.std.specs.Prelude.{IfOk, IfSome, OnOk, OnErr, option_map};
ghost use Rattle.std.specs.List.{All};
ghost use Rattle.std.specs.List.Sorted.{IsSearchInRange, IsBinarySearchResult};
ghost use Rattle.sorted_lists.specs.SortedList.{Rises, insert_key};
ghost use Rattle.repo_plan.specs.Parts.{pair_cmp};
ghost use Rattle.repo_plan.specs.Plan.{no_claims};
ghost use Rattle.repo_object.specs.Verdict.{IsChecked};
ghost use Rattle.repo_holdings.specs.Records.{Packet};
ghost use Rattle.repo_holdings.specs.StoredParents.{lists_at};
ghost use Rattle.repo_holdings.specs.Gaining.{summary_in, IsArrival};
ghost use Rattle.repo_holdings.specs.Hiding.{with_hidden};
ghost use Rattle.repo_holdings.specs.HoldingsState.{held_plan};
ghost use Rattle.repo_holdings.specs.Taking.{came, after_outcome, AreTakable};
ghost use Rattle.repo_member.specs.Outcomes.{outcome_of};
ghost use Rattle.repo_mirror.specs.PacketsFor.{IsCheckedFetch};
ghost use Rattle.repo_mirror.specs.MirrorState.{fetch_plan};
ghost use Rattle.repo_mirror.specs.Passing.{is_fetch_for, fetches_for, passed_over, mirror_takes, ArePassedOver};
ghost use Rattle.repo_mirror.specs.MirrorOutcomes.{IsMirrorOutcome};

use super::Mirror;
use repo_holdings::{Arrival, Holdings, RecordSummary, Tried};
use repo_object::{Checked, Job};
use repo_watch::{Filter, Pattern};
use std::alloc::{AllocError, Global};

// The results of jobs: what is kept, and the publications that are passed over, in order.
#[derive(Drop)]
struct Sorted {
    kept: Vec<Tried>,
    passed: Vec<(u32, u16)>,
}

impl Mirror {
    /// Takes the result of a fetch that was planned: for each job its packet, if any, and how often it was tried. The
    /// answer is how many parts were received. Those are held from now on, except the records of objects that the
    /// mirror's pattern doesn't accept, which are passed over. There is no memory for more jobs than a `u32` counts.
    pub fn take_outcome(
        &mut self,
        filter: &Filter,
        jobs: &[Job],
        parts: &[Option<Checked<'_>>],
        attempts: &[u32],
    ) -> Result<u32, AllocError>
        requires outcome { IsMirrorOutcome self.old jobs.now parts.now attempts.now }
        ensures ok { OnOk result (self.new ≡ mirror_takes (outcome_of jobs.now parts.now attempts.now) self.old) }
        ensures parts { IfOk result (λ came. came ≡ count_by is_some parts.now) }
        ensures err { OnErr result (self.new ≡ self.old) }
    {
        let Ok(_) = u32::try_from(jobs.len()) else {
            return Err(AllocError);
        };
        let Sorted { kept, passed } = self.sorted(filter, jobs, parts, attempts)?;
        take_sorted(&mut self.held, kept, &passed)?;
        Ok(number_that_came(parts))
    }

    // The results of jobs, with their packets as the mirror stores them, sorted into what is kept and what is passed
    // over.
    fn sorted(
        &self,
        filter: &Filter,
        jobs: &[Job],
        parts: &[Option<Checked<'_>>],
        attempts: &[u32],
    ) -> Result<Sorted, AllocError>
        requires outcome { IsMirrorOutcome self.now jobs.now parts.now attempts.now }
        requires few { length jobs.now < 2 ^ 32 }
        ensures kept { IfOk result (λ sorted. map came sorted.kept.items
            ≡ fetches_for self.now.pattern (outcome_of jobs.now parts.now attempts.now)) }
        ensures passed { IfOk result (λ sorted. sorted.passed.items
            ≡ passed_over self.now.pattern (outcome_of jobs.now parts.now attempts.now)) }
        ensures checked { IfOk result (λ sorted. All IsCheckedFetch (map came sorted.kept.items)) }
        ensures takable { IfOk result (λ sorted. AreTakable (fetch_plan self.now) self.now.store sorted.kept.items) }
        ensures few { IfOk result (λ sorted. vec_len sorted.kept < 2 ^ 32) }
        ensures apart { IfOk result (λ sorted.
            ArePassedOver (fetch_plan self.now) sorted.kept.items sorted.passed.items) }
    {
        self.held.cite_soundness();
        let mut kept = Vec::with_capacity(self.alloc, jobs.len())?;
        let mut passed = Vec::new(self.alloc);
        for ((job, checked), tries) in jobs.iter().zip(parts).zip(attempts) {
            let tried = tried(self.alloc, job, checked.as_ref(), *tries)?;
            if is_for(filter, &self.pattern, &tried) {
                kept.push(tried)?;
            } else {
                let part = tried.part;
                put_in_order(&mut passed, (part.publisher, part.seq))?;
            }
        }
        Ok(Sorted { kept, passed })
    }
}

// How many packets were received.
fn number_that_came(parts: &[Option<Checked<'_>>]) -> u32
    requires { length parts.now < 2 ^ 32 }
    ensures { result ≡ count_by is_some parts.now }
{
    parts.iter().filter(|part| part.is_some()).count() as u32
}

// The result of a job, with its packet as the mirror stores it.
fn tried(
    alloc: Global,
    job: &Job,
    checked: Option<&Checked<'_>>,
    attempts: u32,
) -> Result<Tried, AllocError>
    requires checked { IfSome checked (λ checked. checked.now.want ≡ job.now.want) }
    ensures part { IfOk result (λ tried. tried.part ≡ job.now.want.part) }
    ensures attempts { IfOk result (λ tried. tried.attempts ≡ attempts) }
    ensures packet { IfOk result (λ tried.
        option_map (λ a. a.packet) tried.arrival ≡ option_map (λ c. c.now.octets) checked.entry) }
    ensures arrival { IfOk result (λ tried. (packets : List Packet)
        → job.now.want.lists ≡ lists_at packets job.now.want.part
        → IfSome tried.arrival (λ a. IsArrival packets tried.part a.packet a.summary)) }
    ensures received { IfOk result (λ tried. IfSome tried.arrival (λ a. a.summary ≡ summary_in tried.part a.packet)) }
    ensures checked { IfOk result (λ tried. IsCheckedFetch (came tried)) }
{
    let arrival = match checked {
        Some(checked) => Some(arrived(alloc, checked)?),
        None => None,
    };
    Ok(Tried {
        part: job.want.part(),
        attempts,
        arrival,
    })
}

// The packet that was checked for the want of a part, as an `Arrival` for that part.
fn arrived(alloc: Global, checked: &Checked<'_>) -> Result<Arrival, AllocError>
    ensures octets { IfOk result (λ arrival. arrival.packet ≡ checked.now.octets) }
    ensures received { IfOk result (λ arrival. arrival.summary ≡ summary_in checked.now.want.part arrival.packet) }
    ensures passed { OnOk result (IsChecked checked.now) }
    ensures arrival { IfOk result (λ arrival. (packets : List Packet)
        → checked.now.want.lists ≡ lists_at packets checked.now.want.part
        → IsArrival packets checked.now.want.part arrival.packet arrival.summary) }
{
    let packet = checked.to_packet(alloc)?;
    Arrival::new(alloc, checked.part(), packet)
}

// Whether a result is kept: all but the record of an object that the pattern doesn't accept.
fn is_for(filter: &Filter, pattern: &Pattern, tried: &Tried) -> bool
    requires { IfSome tried.now.arrival (λ a. a.summary ≡ summary_in tried.now.part a.packet) }
    ensures { result ≡ is_fetch_for pattern.now (came tried.now) }
{
    let Some(arrival) = &tried.arrival else {
        return true;
    };
    match &arrival.summary {
        Some(RecordSummary::Object { name, .. }) => filter.wants(
            pattern,
            tried.part.publisher,
            name,
        ),
        _ => true,
    }
}

// Adds a publication to others, in order, unless it is there.
fn put_in_order(passed: &mut Vec<(u32, u16)>, publication: (u32, u16)) -> Result<(), AllocError>
    requires { Rises pair_cmp passed.old.items }
    ensures { OnOk result (passed.new.items ≡ insert_key pair_cmp publication passed.old.items) }
{
    if let Err(place) = place(passed, publication) {
        passed.insert(place, publication)?;
    }
    Ok(())
}

// Where the publication stands, or else would stand.
fn place(passed: &[(u32, u16)], publication: (u32, u16)) -> Result<usize, usize>
    ensures bound { IsSearchInRange result (length passed.now) }
    ensures position { IsBinarySearchResult (λ one. pair_cmp one publication) passed.now result }
{
    passed.binary_search_by_key(&publication, |&one| one)
}

// Hides the publications that are passed over, and takes what is kept.
fn take_sorted(
    held: &mut Holdings,
    kept: Vec<Tried>,
    passed: &[(u32, u16)],
) -> Result<(), AllocError>
    requires claims { held.old.claims ≡ no_claims }
    requires kept { AreTakable (held_plan held.old) held.old.store kept.items }
    requires few { vec_len kept < 2 ^ 32 }
    requires in_order { Rises pair_cmp passed.now }
    requires apart { ArePassedOver (held_plan held.old) kept.items passed.now }
    ensures ok { OnOk result (held.new ≡ after_outcome (map came kept.items) (record held.old {
      hidden = with_hidden passed.now held.old.hidden;
      spare = max held.old.spare (vec_len kept);
    })) }
    ensures err { OnErr result (held.new ≡ record held.old { spare = held.new.spare }) }
{
    held.reserve(kept.len())?;
    held.hide_all(passed)?;
    held.take(kept, &[]);
    Ok(())
}

// The parts that a holder, a member or a mirror, gathers from members in a settle.
ghost use Rattle.std.specs.Prelude.{◌≡◌, None, IfOk, OnOk, OnErr, length};
ghost use Rattle.std.specs.List.{sum_by};
ghost use Rattle.group_model.specs.Publications.{Logs};
ghost use Rattle.bench_world.specs.Sizes.{size_of};
ghost use Rattle.bench_world.specs.Conditions.{CanFetchAll};
ghost use Rattle.bench_world.specs.Gathering.{next_lent, lent_all, one_each, Counts, IsPlaceIn, GainsParts};
ghost use Rattle.bench_world.specs.Gathering.{NothingLeft};
ghost use Rattle.bench_world.specs.Holders.{lent_jobs};
ghost use Rattle.bench_world.specs.Touching.{LacksOnlyTouched};
ghost use Rattle.bench_world.specs.Worlds.{logs_around};

use crate::holder::Holder;
use crate::lenders::Lenders;
use crate::lending::MemberLink;
use crate::touched::Touched;
use bench_net::Net;
use fetch_work::phase;
use repo_member::{FetchCounts, Group, Member};
use repo_object::Job;
use repo_plan::Part;
use std::alloc::{AllocError, Global};
use std::thread::Threads;

/// How many parts a phase asks for at most.
pub(crate) const PHASE_LIMIT: usize = 4096;

// The counts where nothing was received.
const NOTHING: FetchCounts = FetchCounts {
    parts: 0,
    octets: 0,
};

// The jobs of a phase. Of publications that weren't touched the holder has all that the others lend, so only touched
// ones are searched.
fn jobs_of_touched<H: Holder>(
    alloc: Global,
    g: &Group,
    others: &[Member],
    touched: &Touched,
    holder: &H,
    after: Option<Part>,
) -> Result<Vec<Job>, AllocError>
    requires group { length g.now.members.names ≡ length (H.words.holdings holder.now).known }
    requires lacks { LacksOnlyTouched H.words touched.now others.now holder.now }
    ensures { IfOk result
        (λ jobs. jobs.items ≡ lent_jobs g.now others.now (H.words.holdings holder.now) after 4096) }
{
    let lenders = [Lenders {
        members: others,
        touched,
    }];
    holder.held_jobs(alloc, g, &lenders, after, PHASE_LIMIT)
}

// One phase, for parts after `after` that the others lend: the last part that was asked for, if one was, and the counts
// of what was received.
fn fetch_phase<N: Net + Sync, R: Threads + Sync, H: Holder>(
    rt: &R,
    alloc: Global,
    g: &Group,
    link: &MemberLink<'_, N>,
    workers: u32,
    touched: &Touched,
    holder: &mut H,
    after: Option<Part>,
) -> Result<(Option<Part>, FetchCounts), AllocError>
    ghost logs: { Logs }
    requires { CanFetchAll H.words g.now logs workers touched.now link.now.others.now link.now.loss holder.old }
    ensures new { OnOk result (holder.new ≡ H.words.takes (lent_all link.now.others.now
        (next_lent link.now.others.now after (H.words.holdings holder.old))) holder.old) }
    ensures place { IfOk result (λ r.
        IsPlaceIn (next_lent link.now.others.now after (H.words.holdings holder.old)) r.0) }
    ensures parts { IfOk result (λ r. r.1.parts
        ≡ length (next_lent link.now.others.now after (H.words.holdings holder.old))) }
    ensures octets { IfOk result (λ r. r.1.octets ≡ sum_by (size_of g.now logs)
        (next_lent link.now.others.now after (H.words.holdings holder.old))) }
    ensures err { OnErr result (holder.new ≡ holder.old) }
{
    let jobs = jobs_of_touched(alloc, g, link.others, touched, holder, after)?;
    let Some(last) = jobs.last() else {
        return Ok((None, NOTHING));
    };
    let place = last.want.part();
    let outcome = phase(rt, alloc, &*link, &jobs, g.members(), 1, workers)?;
    // A settle counts no attempt.
    let attempts = vec![in alloc; 0; jobs.len()]?;
    let kept = holder.take(rt, alloc, g, workers, &jobs, &outcome.parts, &attempts)?;
    Ok((Some(place), kept))
}

// One round: phases from the first wanted part that the others lend to the last. The result counts what was received.
fn fetch_round<N: Net + Sync, R: Threads + Sync, H: Holder>(
    rt: &R,
    alloc: Global,
    g: &Group,
    link: &MemberLink<'_, N>,
    workers: u32,
    touched: &Touched,
    holder: &mut H,
) -> Result<FetchCounts, AllocError>
    ghost logs: { Logs }
    requires { CanFetchAll H.words g.now logs workers touched.now link.now.others.now link.now.loss holder.old }
    ensures gains { GainsParts H.words g.now logs link.now.others.now holder.old holder.new }
    ensures parts { IfOk result (λ kept. Counts H.words one_each kept.parts holder.old holder.new) }
    ensures octets { IfOk result (λ kept. Counts H.words (size_of g.now logs) kept.octets holder.old holder.new) }
    ensures left { IfOk result (λ kept. kept.parts ≡ 0 → NothingLeft H.words link.now.others.now holder.new) }
{
    let mut kept = NOTHING;
    let mut after = None;
    'phases: loop {
        let (place, came) = fetch_phase(rt, alloc, g, link, workers, touched, holder, after)?;
        kept.parts += came.parts;
        kept.octets += came.octets;
        let Some(last) = place else {
            return Ok(kept);
        };
        after = Some(last);
    }
}

/// Rounds until one gains nothing. The result counts what was received.
pub(crate) fn fetch_all<N: Net + Sync, R: Threads + Sync, H: Holder>(
    rt: &R,
    alloc: Global,
    g: &Group,
    link: &MemberLink<'_, N>,
    workers: u32,
    touched: &Touched,
    holder: &mut H,
) -> Result<FetchCounts, AllocError>
    ghost logs: { Logs }
    requires { CanFetchAll H.words g.now logs workers touched.now link.now.others.now link.now.loss holder.old }
    ensures gains { GainsParts H.words g.now logs link.now.others.now holder.old holder.new }
    ensures parts { IfOk result (λ kept. Counts H.words one_each kept.parts holder.old holder.new) }
    ensures octets { IfOk result (λ kept. Counts H.words (size_of g.now logs) kept.octets holder.old holder.new) }
    ensures left { OnOk result (NothingLeft H.words link.now.others.now holder.new) }
{
    let mut kept = NOTHING;
    'rounds: loop {
        let came = fetch_round(rt, alloc, g, link, workers, touched, holder)?;
        kept.parts += came.parts;
        kept.octets += came.octets;
        if came.parts == 0 {
            return Ok(kept);
        }
    }
}

/// Rounds by a mirror, which asks all members, until one gains nothing: how many parts were received.
pub(crate) fn fetch_from_all<N: Net + Sync, R: Threads + Sync, H: Holder>(
    rt: &R,
    alloc: Global,
    g: &Group,
    link: &MemberLink<'_, N>,
    workers: u32,
    touched: &Touched,
    holder: &mut H,
) -> Result<u32, AllocError>
    requires { CanFetchAll H.words
        g.now (logs_around link.now.others.now) workers touched.now link.now.others.now link.now.loss holder.old }
    ensures gains { GainsParts H.words
        g.now (logs_around link.now.others.now) link.now.others.now holder.old holder.new }
    ensures parts { IfOk result (λ parts. Counts H.words one_each parts holder.old holder.new) }
    ensures left { OnOk result (NothingLeft H.words link.now.others.now holder.new) }
{
    let kept = fetch_all(rt, alloc, g, link, workers, touched, holder)?;
    Ok(kept.parts)
}

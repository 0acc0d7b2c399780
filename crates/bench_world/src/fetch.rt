// What a holder of parts, a member or a mirror, fetches from members.
ghost use Rattle.std.specs.Prelude.{◌≡◌, ◌≤◌, None, length, map, sum, IfOk, OnOk, OnErr};
ghost use Rattle.std.specs.List.{sum_by};
ghost use Rattle.group_model.specs.Publications.{Logs};
ghost use Rattle.repo_member.specs.InGroup.{parts_fetched};
ghost use Rattle.bench_world.specs.Lending.{attempt_passes};
ghost use Rattle.bench_world.specs.Sizes.{size_of};
ghost use Rattle.bench_world.specs.Conditions.{CanFetch};
ghost use Rattle.bench_world.specs.Gathering.{next_parts};
ghost use Rattle.bench_world.specs.Fetching.{fetched_all};
ghost use Rattle.bench_world.specs.Worlds.{logs_around};

use crate::fetch_all::PHASE_LIMIT;
use crate::holder::Holder;
use crate::lending::MemberLink;
use bench_net::Net;
use fetch_work::phase;
use repo_member::{FetchCounts, Group};
use std::alloc::{AllocError, Global};
use std::thread::Threads;

/// The result of a fetch: how many parts were asked for, how many were received, and how many attempts were made.
#[derive(Clone, Copy, Debug)]
pub(crate) struct FetchReport {
    pub(crate) planned: usize,
    pub(crate) kept: FetchCounts,
    pub(crate) attempts: u64,
}

/// One phase of a fetch: for the least parts that the holder wants and that no fetcher claims.
pub(crate) fn fetch<N: Net + Sync, R: Threads + Sync, H: Holder>(
    rt: &R,
    alloc: Global,
    g: &Group,
    link: &MemberLink<'_, N>,
    workers: u32,
    tries: u32,
    holder: &mut H,
) -> Result<FetchReport, AllocError>
    ghost logs: { Logs }
    requires { CanFetch H.words g.now logs workers tries link.now.others.now holder.old }
    ensures new { OnOk result (holder.new ≡ H.words.takes (fetched_all
        (attempt_passes (N.passes link.now.net.now) link.now.asker link.now.loss) link.now.others.now tries
        (H.words.holdings holder.old) (next_parts None (H.words.holdings holder.old))) holder.old) }
    ensures planned { IfOk result (λ r. r.planned ≡ length (next_parts None (H.words.holdings holder.old))) }
    ensures parts { IfOk result (λ r. r.kept.parts ≡ length (parts_fetched (fetched_all
        (attempt_passes (N.passes link.now.net.now) link.now.asker link.now.loss) link.now.others.now tries
        (H.words.holdings holder.old) (next_parts None (H.words.holdings holder.old))))) }
    ensures octets { IfOk result (λ r. r.kept.octets ≡ sum_by (size_of g.now logs) (parts_fetched (fetched_all
        (attempt_passes (N.passes link.now.net.now) link.now.asker link.now.loss) link.now.others.now tries
        (H.words.holdings holder.old) (next_parts None (H.words.holdings holder.old))))) }
    ensures attempts { IfOk result (λ r. r.attempts ≡ sum (map (λ x. x.attempts) (fetched_all
        (attempt_passes (N.passes link.now.net.now) link.now.asker link.now.loss) link.now.others.now tries
        (H.words.holdings holder.old) (next_parts None (H.words.holdings holder.old))))) }
    ensures err { OnErr result (holder.new ≡ holder.old) }
{
    let jobs = holder.jobs(alloc, g, None, PHASE_LIMIT)?;
    let outcome = phase(rt, alloc, &*link, &jobs, g.members(), tries, workers)?;
    let kept = holder.take(
        rt,
        alloc,
        g,
        workers,
        &jobs,
        &outcome.parts,
        &outcome.attempts,
    )?;
    Ok(FetchReport {
        planned: jobs.len(),
        kept,
        attempts: total(&outcome.attempts),
    })
}

/// One phase of a fetch from all members, by a mirror: how many parts were asked for, how many were received, and how
/// many attempts were made.
pub(crate) fn fetch_of_all<N: Net + Sync, R: Threads + Sync, H: Holder>(
    rt: &R,
    alloc: Global,
    g: &Group,
    link: &MemberLink<'_, N>,
    workers: u32,
    tries: u32,
    holder: &mut H,
) -> Result<(u32, u32, u64), AllocError>
    requires { CanFetch H.words g.now (logs_around link.now.others.now) workers tries link.now.others.now holder.old }
    ensures new { OnOk result (holder.new ≡ H.words.takes (fetched_all
        (attempt_passes (N.passes link.now.net.now) link.now.asker link.now.loss) link.now.others.now tries
        (H.words.holdings holder.old) (next_parts None (H.words.holdings holder.old))) holder.old) }
    ensures planned { IfOk result (λ r. r.0 ≡ length (next_parts None (H.words.holdings holder.old))) }
    ensures parts { IfOk result (λ r. r.1 ≡ length (parts_fetched (fetched_all
        (attempt_passes (N.passes link.now.net.now) link.now.asker link.now.loss) link.now.others.now tries
        (H.words.holdings holder.old) (next_parts None (H.words.holdings holder.old))))) }
    ensures attempts { IfOk result (λ r. r.2 ≡ sum (map (λ x. x.attempts) (fetched_all
        (attempt_passes (N.passes link.now.net.now) link.now.asker link.now.loss) link.now.others.now tries
        (H.words.holdings holder.old) (next_parts None (H.words.holdings holder.old))))) }
    ensures err { OnErr result (holder.new ≡ holder.old) }
{
    let counts = fetch(rt, alloc, g, link, workers, tries, holder)?;
    Ok((counts.planned as u32, counts.kept.parts, counts.attempts))
}

// The sum of numbers.
fn total(numbers: &[u32]) -> u64
    requires { length numbers.now ≤ 4096 }
    ensures { result ≡ sum numbers.now }
{
    let mut total = 0;
    for n in numbers {
        total += u64::from(*n);
    }
    total
}

ghost use Rattle.std.specs.Prelude.{◌≤◌, length, All, IfOk};
ghost use Rattle.fetch_work.specs.Attempts.{CanBeTried};
ghost use Rattle.fetch_work.specs.Phases.{AreFirst};

use crate::link::Link;
use crate::link_trial::LinkTrial;
use crate::outcome::PhaseOutcome;
use crate::team;
use ndn_sign::KeyRing;
use repo_object::Job;
use std::alloc::{AllocError, Global};
use std::thread::Threads;

// One more thread is worth its start where each has about this many jobs.
const WORTH: usize = 64;

// At most this many jobs are done by one worker.
const FEW: usize = 3;

/// Tries each job until its packet is received, at most `tries` times, by at most `workers` workers in threads.
///
/// The answer is that of one worker that tries one job after another, whatever the number of workers and their turns.
/// Where a thread can't be started, the others do its work.
pub fn phase<'p, L: Link + Sync, R: Threads + Sync>(
    rt: &R,
    alloc: Global,
    link: &'p L,
    jobs: &'p [Job],
    ring: &'p KeyRing,
    tries: u32,
    workers: u32,
) -> Result<PhaseOutcome<'p>, AllocError>
    requires few { length jobs.now ≤ 4096 }
    requires jobs { All (λ job. CanBeTried (length ring.now) tries job) jobs.now }
    requires tries { (1 ≤ tries) × (tries ≤ 16) }
    requires workers { (1 ≤ workers) × (workers ≤ 16) }
    ensures first { IfOk result (λ o.
        AreFirst (L.answer link.now) ring.now tries jobs.now o.parts.items o.attempts.items) }
{
    let workers = workers.min(worthwhile(jobs.len(), link.may_wait()));
    let trial = LinkTrial { link, jobs, ring };
    let outcome = team::run(rt, alloc, &trial, jobs.len(), tries, workers)?;
    Ok(PhaseOutcome {
        parts: outcome.values,
        attempts: outcome.attempts,
    })
}

// How many workers `jobs` jobs are worth. Where answers may be long in coming, there are at least two for more than
// `FEW` jobs, so that one asks while the other waits. Else there is more than one only where each has `WORTH` jobs.
fn worthwhile(jobs: usize, may_wait: bool) -> u32
    requires { jobs ≤ 4096 }
    ensures { 1 ≤ result }
{
    let least = if may_wait && jobs > FEW { 2 } else { 1 };
    (jobs / WORTH).max(least) as u32
}

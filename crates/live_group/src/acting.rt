ghost use Rattle.std.specs.Prelude.{◌≡◌, All, length, vec_len, IfOk};
ghost use Rattle.live_group.specs.Jobs.{CanBeDone};

use crate::gate::Gate;
use crate::handle::Handle;
use crate::run::Run;
use crate::seat::Seat;
use crate::ticketed::{Done, TicketedActor};
use live_actors::act;
use repo_member::Group;
use std::alloc::{AllocError, Global};
use std::sync::Wait;
use std::thread;
use std::thread::Threads;

/// Carries out the jobs of all actors, each in a thread of its own. Where no thread can be started the caller does the
/// actor's work.
pub fn act_all<L: Run + Send + Sync, R: Threads + Wait + Sync, G: Gate + Sync>(
    rt: &R,
    alloc: Global,
    g: &Group,
    seats: &[Seat<L>],
    gate: &G,
    jobs: Vec<TicketedActor<L>>,
) -> Result<Vec<Done<L>>, AllocError>
    requires group { g.now ≡ L.meaning.group }
    requires jobs { All (λ t. CanBeDone (length seats.now) (length L.meaning.lists) t.job) jobs.items }
    ensures { IfOk result (λ done. vec_len done ≡ vec_len jobs) }
{
    let ends = thread::map_vec(
        rt,
        jobs,
        &|job: TicketedActor<L>| -> Result<Done<L>, AllocError>
            requires group { g.now ≡ L.meaning.group }
            requires job { CanBeDone (length seats.now) (length L.meaning.lists) job.job }
        { act_one(rt, alloc, g, seats, gate, job) },
    )?;
    let mut done = Vec::with_capacity(alloc, ends.len())?;
    for end in ends {
        done.push(end?)?;
    }
    Ok(done)
}

// Carries out the job of one actor, in its thread.
fn act_one<L: Run, R: Wait, G: Gate>(
    rt: &R,
    alloc: Global,
    g: &Group,
    seats: &[Seat<L>],
    gate: &G,
    ticketed: TicketedActor<L>,
) -> Result<Done<L>, AllocError>
    requires group { g.now ≡ L.meaning.group }
    requires job { CanBeDone (length seats.now) (length L.meaning.lists) ticketed.job }
{
    let TicketedActor {
        job,
        turns,
        tickets,
    } = ticketed;
    let actor = job.actor();
    let mut handle = Handle::new(rt, alloc, g, seats, gate, job.into_ends(alloc), tickets);
    act(rt, &mut handle, seats.len() as u32, turns, actor)?;
    Ok(Done::new(handle.into_tickets()))
}

ghost use Rattle.std.specs.Prelude.{◌≡◌, ◌<◌, ◌≤◌, ◌+◌, map, length, vec_len, IfOk, OnOk};
ghost use Rattle.live_actors.specs.ActorCalls.{tickets_of};
ghost use Rattle.live_group.specs.Jobs.{actor_of, all_tickets};

use crate::actor_job::Job;
use crate::run::Run;
use live_actors::Actor;
use std::alloc::{AllocError, Global};
use std::sync::ledger::Share;

/// An actor, with its tickets: one for each claim that it is to make, or one for its last look for a publication.
#[derive(Drop)]
pub struct TicketedActor<L: Run> {
    pub job: Job<L>,
    pub turns: u32,
    pub tickets: Share<L>,
    pub ghost one_part: { tickets.parts ≡ 1 },
    pub ghost funded: { tickets.amount ≡ tickets_of (actor_of job) turns },
}

impl<L: Run> TicketedActor<L> {
    fn new(job: Job<L>, turns: u32, tickets: Share<L>) -> TicketedActor<L>
        requires parts { tickets.parts ≡ 1 }
        requires funded { tickets.amount ≡ tickets_of (actor_of job) turns }
        ensures job { result.job ≡ job }
        ensures turns { result.turns ≡ turns }
    {
        TicketedActor {
            job,
            turns,
            tickets,
        }
    }
}

/// What an actor returns: its share, in which no ticket is left.
#[derive(Drop)]
pub struct Done<L: Run> {
    pub tickets: Share<L>,
    pub ghost one_part: { tickets.parts ≡ 1 },
    pub ghost none_left: { tickets.amount ≡ 0 },
}

impl<L: Run> Done<L> {
    pub fn new(tickets: Share<L>) -> Done<L>
        requires parts { tickets.parts ≡ 1 }
        requires none { tickets.amount ≡ 0 }
    {
        Done { tickets }
    }
}

/// These actors with their tickets.
pub fn all_ticketed<L: Run>(
    alloc: Global,
    all: &mut Share<L>,
    jobs: Vec<Job<L>>,
    turns: u32,
) -> Result<Vec<TicketedActor<L>>, AllocError>
    requires parts { length jobs.items < all.old.parts }
    requires tickets { all_tickets turns (map actor_of jobs.items) ≤ all.old.amount }
    ensures jobs { IfOk result (λ ticketed. map (λ t. t.job) ticketed.items ≡ jobs.items) }
    ensures parts { OnOk result (all.new.parts + length jobs.items ≡ all.old.parts) }
    ensures amount { OnOk result (all.new.amount + all_tickets turns (map actor_of jobs.items) ≡ all.old.amount) }
{
    let mut ticketed = Vec::with_capacity(alloc, jobs.len())?;
    for job in jobs {
        let tickets = all.split_off(1, ticket_count(job.actor(), turns));
        ticketed.push(TicketedActor::new(job, turns, tickets))?;
    }
    Ok(ticketed)
}

// The number of tickets of an actor.
fn ticket_count(actor: Actor, turns: u32) -> u64
    ensures { result ≡ tickets_of actor turns }
{
    match actor {
        Actor::Publish { .. } => 1,
        Actor::First { .. } | Actor::Second { .. } => u64::from(turns),
    }
}

/// The shares of these actors are given back to `all`. No ticket is left in them.
pub fn give_back<L: Run>(all: &mut Share<L>, done: Vec<Done<L>>)
    ensures parts { all.new.parts ≡ all.old.parts + vec_len done }
    ensures amount { all.new.amount ≡ all.old.amount }
{
    for one in done {
        let Done { tickets } = one;
        all.merge(tickets);
    }
}

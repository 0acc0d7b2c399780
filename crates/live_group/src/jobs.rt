ghost use Rattle.std.specs.Prelude.{◌≡◌, ◌≤◌, IfOk};
ghost use Rattle.live_group.specs.Jobs.{AreJobs};

use crate::actor_job::{Job, PublisherEnds};
use crate::opened::{all_inboxes, sender_to_each};
use live_member::Lists;
use std::alloc::{AllocError, Global};

/// Three actors for each of `members` members: one that publishes and hears, and two that fetch.
pub fn all_jobs<L: Lists>(alloc: Global, members: usize) -> Result<Vec<Job<L>>, AllocError>
    requires { members ≤ 16 }
    ensures { IfOk result (λ jobs. AreJobs members jobs.items) }
{
    let (mut inboxes, ears) = all_inboxes(alloc, members)?;
    let mut jobs = Vec::new(alloc);
    let mut member = 0;
    for receiver in ears {
        let senders = sender_to_each(alloc, inboxes.as_mut_slice())?;
        jobs.push(Job::Publish(PublisherEnds {
            member,
            senders,
            receiver,
        }))?;
        jobs.push(Job::First { member })?;
        jobs.push(Job::Second { member })?;
        member += 1;
    }
    Ok(jobs)
}

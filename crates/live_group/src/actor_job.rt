ghost use Rattle.std.specs.Prelude.{◌≡◌, length};
ghost use Rattle.live_group.specs.Jobs.{actor_of, HasSenders};

use crate::ends::Ends;
use crate::sender::{Receiver, Sender};
use live_actors::Actor;
use live_member::Lists;
use std::alloc::Global;

/// What the first actor of a member has: a line to each member, in order of their numbers, and the member's own inbox.
#[derive(Drop)]
pub struct PublisherEnds<L: Lists> {
    pub member: u32,
    pub senders: Vec<Sender<L>>,
    pub receiver: Receiver<L>,
}

/// An actor of a member.
#[derive(Drop)]
pub enum Job<L: Lists> {
    /// It publishes the member's list, and hears.
    Publish(PublisherEnds<L>),
    /// It fetches, as fetcher 1 or 2 of the member.
    First { member: u32 },
    Second { member: u32 },
}

impl<L: Lists> Job<L> {
    pub fn actor(&self) -> Actor
        ensures { result ≡ actor_of self.now }
    {
        match self {
            Job::Publish(publisher) => Actor::Publish {
                member: publisher.member,
            },
            Job::First { member } => Actor::First { member: *member },
            Job::Second { member } => Actor::Second { member: *member },
        }
    }

    /// Its ends of the inboxes.
    pub fn into_ends(self, alloc: Global) -> Ends<L>
        ensures { HasSenders (length result.senders.items) self }
    {
        match self {
            Job::Publish(publisher) => {
                let PublisherEnds {
                    senders,
                    receiver,
                    ..
                } = publisher;
                Ends {
                    senders,
                    receiver: Some(receiver),
                }
            }
            Job::First { .. } | Job::Second { .. } => Ends {
                senders: Vec::new(alloc),
                receiver: None,
            },
        }
    }
}

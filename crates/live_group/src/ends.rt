ghost use Rattle.std.specs.Prelude.{◌≡◌};

use crate::sender::{Receiver, Sender};
use live_member::{Lists, Told};
use std::sync::Wait;

/// An actor's ends of the inboxes: a line to each member, in order of their numbers, and the member's own inbox. A
/// fetcher has none.
#[derive(Drop)]
pub struct Ends<L: Lists> {
    pub senders: Vec<Sender<L>>,
    pub receiver: Option<Receiver<L>>,
}

impl<L: Lists> Ends<L> {
    /// The first value in the inbox that wasn't taken yet, if there is one.
    pub fn next<R: Wait>(&mut self, rt: &R) -> Option<Told<L>>
        ensures { self.new.senders ≡ self.old.senders }
    {
        let Ends { receiver, .. } = self;
        match receiver {
            Some(receiver) => receiver.next(rt),
            None => None,
        }
    }
}

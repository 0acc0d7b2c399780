ghost use Rattle.std.specs.Prelude.{ℕ, ◌≡◌, ◌≤◌, ◌+◌, ◌<◌, All, map, length, vec_len, IfOk, OnOk};
ghost use Rattle.live_group.specs.Senders.{HavePorts, HaveCapacity, inbox_capacity};

use crate::sender::{Receiver, Sender, Shared};
use live_inbox::{Inbox, Port};
use live_member::{Lists, Told};
use std::alloc::{AllocError, Global};
use std::marker::Model;
use std::sync::Arc;

/// The most sync Interests that an inbox holds.
const INBOX_CAPACITY: usize = 8;

/// A member's inbox, with its ports that nobody has yet.
#[derive(Drop)]
pub struct Opened<L: Lists> {
    inbox: Shared<L>,
    ports: Vec<Port<Told<L>>>,
}

impl<L: Lists> Model for Opened<L> {
    ghost use Rattle.std.specs.Arc.{arc_value};
    ghost use Rattle.std.specs.List.{All};
    ghost use Rattle.live_inbox.specs.Ends.{IsPortOf};
    ghost use Rattle.live_group.specs.Senders.{OpenedView};

    ghost Value = { OpenedView };

    ghost view = { λ o. record { inbox = arc_value o.inbox; ports = o.ports.items } };

    ghost invariant = { λ o. All (IsPortOf (arc_value o.inbox)) o.ports.items };
}

impl<L: Lists> Opened<L> {
    // An inbox for one member, with a port for each member.
    fn new(alloc: Global, members: usize) -> Result<(Opened<L>, Receiver<L>), AllocError>
        requires some { 1 ≤ members }
        requires few { members ≤ 16 }
        ensures inbox { IfOk result (λ r. r.0.inbox ≡ r.1.inbox) }
        ensures capacity { IfOk result (λ r. r.0.inbox.capacity ≡ inbox_capacity) }
        ensures ports { IfOk result (λ r. length r.0.ports ≡ members) }
    {
        let (inbox, ports, mouth) = Inbox::new(alloc, INBOX_CAPACITY, members)?;
        let inbox = Arc::new(alloc, inbox)?;
        let receiver = Receiver::new(Arc::try_clone(&inbox)?, mouth);
        Ok((Opened { inbox, ports }, receiver))
    }

    // A line to this inbox.
    fn sender(&mut self) -> Result<Sender<L>, AllocError>
        requires { 0 < length self.old.ports }
        ensures sender { IfOk result (λ sender. sender.inbox ≡ self.old.inbox) }
        ensures inbox { OnOk result (self.new.inbox ≡ self.old.inbox) }
        ensures ports { OnOk result (length self.new.ports + 1 ≡ length self.old.ports) }
    {
        let inbox = Arc::try_clone(&self.inbox)?;
        let Some(port) = self.ports.pop() else {
            unreachable!()
        };
        Ok(Sender::new(inbox, port))
    }
}

/// An inbox for each of `members` members, each with a port for each member.
pub fn all_inboxes<L: Lists>(
    alloc: Global,
    members: usize,
) -> Result<(Vec<Opened<L>>, Vec<Receiver<L>>), AllocError>
    requires { members ≤ 16 }
    ensures members { IfOk result (λ r. length r.0.items ≡ members) }
    ensures inboxes { IfOk result (λ r. map (λ e. e.inbox) r.1.items ≡ map (λ o. o.inbox) r.0.items) }
    ensures capacity { IfOk result (λ r. HaveCapacity inbox_capacity (map (λ o. o.inbox) r.0.items)) }
    ensures ports { IfOk result (λ r. HavePorts members r.0.items) }
{
    let mut inboxes = Vec::with_capacity(alloc, members)?;
    let mut ears = Vec::with_capacity(alloc, members)?;
    for _member in 0..members {
        let (opened, receiver) = Opened::new(alloc, members)?;
        inboxes.push(opened)?;
        ears.push(receiver)?;
    }
    Ok((inboxes, ears))
}

/// A line to each of these inboxes, in order.
pub fn sender_to_each<L: Lists>(
    alloc: Global,
    inboxes: &mut [Opened<L>],
) -> Result<Vec<Sender<L>>, AllocError>
    requires { All (λ o. 0 < length o.ports) inboxes.old }
    ensures senders { IfOk result (λ senders.
        map (λ l. l.inbox) senders.items ≡ map (λ o. o.inbox) inboxes.old) }
    ensures inboxes { OnOk result (map (λ o. o.inbox) inboxes.new ≡ map (λ o. o.inbox) inboxes.old) }
    ensures ports { OnOk result ((n : ℕ) → HavePorts (n + 1) inboxes.old → HavePorts n inboxes.new) }
{
    let mut senders = Vec::with_capacity(alloc, inboxes.len())?;
    for i in 0..inboxes.len() {
        senders.push(inboxes[i].sender()?)?;
    }
    Ok(senders)
}

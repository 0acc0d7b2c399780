ghost use Rattle.std.specs.Prelude.{◌≡◌, IfSome, IfNone};
ghost use Rattle.std.specs.Arc.{arc_value};
ghost use Rattle.crossbeam_queue.specs.Fifo.{Held};
ghost use Rattle.live_inbox.specs.Ends.{IsPortOf, IsMouthOf, HasTaken, HeldBefore};
ghost use Rattle.live_group.specs.Senders.{Tells};

use live_inbox::{Inbox, Mouth, Port};
use live_member::{Lists, Told};
use std::alloc::Global;
use std::marker::Model;
use std::sync::{Arc, Wait};

/// A member's inbox. All that put values into it share it.
pub type Shared<L> = Arc<Inbox<Told<L>>, Global>;

/// An inbox of a member, with a port of it.
#[derive(Drop)]
pub struct Sender<L: Lists> {
    inbox: Shared<L>,
    port: Port<Told<L>>,
}

impl<L: Lists> Model for Sender<L> {
    ghost use Rattle.std.specs.Arc.{arc_value};
    ghost use Rattle.live_inbox.specs.Ends.{IsPortOf};
    ghost use Rattle.live_group.specs.Senders.{SenderView};

    ghost Value = { SenderView };

    ghost view = { λ l. record { inbox = arc_value l.inbox; port = l.port } };

    ghost invariant = { λ l. IsPortOf (arc_value l.inbox) l.port };
}

impl<L: Lists> Sender<L> {
    pub fn new(inbox: Shared<L>, port: Port<Told<L>>) -> Sender<L>
        requires { IsPortOf (arc_value inbox) port }
        ensures { result ≡ record { inbox = arc_value inbox; port = port } }
    {
        Sender { inbox, port }
    }

    /// Puts the value into the member's inbox. Where the inbox is full the member isn't informed.
    pub fn tell<R: Wait>(&mut self, rt: &R, told: Told<L>)
        ensures { Tells told self.old self.new }
    {
        let _lost = self.inbox.put(rt, &mut self.port, told);
    }
}

/// A member's own inbox, with its mouth.
#[derive(Drop)]
pub struct Receiver<L: Lists> {
    inbox: Shared<L>,
    mouth: Mouth<Told<L>>,
}

impl<L: Lists> Model for Receiver<L> {
    ghost use Rattle.std.specs.Arc.{arc_value};
    ghost use Rattle.live_inbox.specs.Ends.{IsMouthOf};
    ghost use Rattle.live_group.specs.Senders.{ReceiverView};

    ghost Value = { ReceiverView };

    ghost view = { λ e. record { inbox = arc_value e.inbox; mouth = e.mouth } };

    ghost invariant = { λ e. IsMouthOf (arc_value e.inbox) e.mouth };
}

impl<L: Lists> Receiver<L> {
    pub fn new(inbox: Shared<L>, mouth: Mouth<Told<L>>) -> Receiver<L>
        requires { IsMouthOf (arc_value inbox) mouth }
        ensures { result ≡ record { inbox = arc_value inbox; mouth = mouth } }
    {
        Receiver { inbox, mouth }
    }

    /// The first value in the inbox that wasn't taken yet, if there is one.
    pub fn next<R: Wait>(&mut self, rt: &R) -> Option<Told<L>>
        ensures inbox { self.new.inbox ≡ self.old.inbox }
        ensures told { IfSome result (λ told. HasTaken self.old.mouth told self.new.mouth) }
        ensures same { IfNone result (self.new ≡ self.old) }
        ensures empty { IfNone result (Held 0 (HeldBefore self.old.mouth)) }
    {
        self.inbox.take(rt, &mut self.mouth)
    }
}

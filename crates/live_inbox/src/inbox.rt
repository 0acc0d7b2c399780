ghost use Rattle.std.specs.Prelude.{◌≡◌, ◌≤◌, All, IfOk, IfErr, OnOk, IfSome, IfNone};
ghost use Rattle.crossbeam_queue.specs.Fifo.{Held};
ghost use Rattle.live_inbox.specs.Ends.{IsPortOf, IsMouthOf, fresh_ports, fresh_mouth, puts};
ghost use Rattle.live_inbox.specs.Ends.{HeldOf, HeldBefore, HasTaken, AreLeft};

use crate::close::{taken_back, values_left};
use crate::knowledge::Sent;
use crate::mouth::Mouth;
use crate::open::deal;
use crate::port::Port;
use crate::rule::Queue;
use crate::steps::{Puts, Takes};
use crossbeam_queue::RuledArrayQueue;
use std::alloc::{AllocError, Global};
use std::marker::{Brand, Model};
use std::sync::Wait;

/// A bounded queue that threads share. Who has a port puts values into it, and who has the mouth takes
/// them.
#[derive(Drop)]
pub struct Inbox<T> {
    queue: Queue<T>,
}

// What is fixed of it. Many threads change what it holds, so no contract can say what that is.
impl<T> Model for Inbox<T> {
    ghost use Rattle.crossbeam_queue.specs.Passes.{ruled_capacity};
    ghost use Rattle.live_inbox.specs.Ends.{InboxView};

    ghost Value = { InboxView };

    ghost view = { λ i. record { inbox = i.queue.table.shared.table_id; capacity = ruled_capacity i.queue } };
}

impl<T: Drop> Inbox<T> {
    /// An empty inbox with its ports, numbered from 0, and its mouth.
    pub fn new(
        alloc: Global,
        capacity: usize,
        ports: usize,
    ) -> Result<(Inbox<T>, Vec<Port<T>>, Mouth<T>), AllocError>
        requires capacity { (1 ≤ capacity) × (capacity ≤ 64) }
        requires ports { (1 ≤ ports) × (ports ≤ 16) }
        ensures capacity { IfOk result (λ r. r.0.capacity ≡ capacity) }
        ensures ports { IfOk result (λ r. r.1.items ≡ fresh_ports r.0.inbox ports ports) }
        ensures own { IfOk result (λ r. All (λ port. IsPortOf r.0 port) r.1.items) }
        ensures mouth { IfOk result (λ r. r.2 ≡ fresh_mouth r.0.inbox ports) }
    {
        let (queue, mut place) = RuledArrayQueue::ruled(alloc, capacity)?;
        let ports = deal::<Brand, T>(alloc, &queue, &mut place, ports)?;
        Ok((Inbox { queue }, ports, Mouth { place }))
    }

    /// Puts a value after all others. A full inbox hands it back.
    pub fn put<R: Wait>(&self, rt: &R, port: &mut Port<T>, value: T) -> Result<(), T>
        requires port { IsPortOf self.now port.old }
        ensures port { IsPortOf self.now port.new }
        ensures put { OnOk result (port.new ≡ puts value port.old) }
        ensures back { IfErr result (λ back. (back ≡ value) × (port.new ≡ port.old)) }
        ensures full { IfErr result (λ back. Held self.now.capacity (HeldOf port.old)) }
    {
        let sent = Sent {
            port: port.number,
            value,
        };
        match self.queue.push_as::<Puts, R>(rt, &mut port.place, sent) {
            Ok(()) => Ok(()),
            Err(sent) => Err(sent.value),
        }
    }

    /// Takes the first value. An empty inbox has none.
    pub fn take<R: Wait>(&self, rt: &R, mouth: &mut Mouth<T>) -> Option<T>
        requires mouth { IsMouthOf self.now mouth.old }
        ensures mouth { IsMouthOf self.now mouth.new }
        ensures taken { IfSome result (λ value. HasTaken mouth.old value mouth.new) }
        ensures same { IfNone result (mouth.new ≡ mouth.old) }
        ensures empty { IfNone result (Held 0 (HeldBefore mouth.old)) }
    {
        match self.queue.pop_as::<Takes, R>(rt, &mut mouth.place) {
            Some(sent) => Some(sent.value),
            None => None,
        }
    }

    /// The values left, the first put first. Where memory runs out they are dropped with the inbox.
    pub fn close<R: Wait>(
        self,
        rt: &R,
        alloc: Global,
        ports: Vec<Port<T>>,
        mouth: Mouth<T>,
    ) -> Result<Vec<T>, AllocError>
        requires ports { All (λ port. IsPortOf self port) ports.items }
        requires mouth { IsMouthOf self mouth }
        ensures left { IfOk result (λ values. AreLeft ports.items mouth values.items) }
    {
        let Inbox { queue } = self;
        let Mouth { place } = mouth;
        let place = taken_back(&queue, place, ports);
        values_left(rt, alloc, &queue, place)
    }
}

use crate::knowledge::{Knowledge, Sent};
use crossbeam_queue::protocol::Protocol;
use crossbeam_queue::{Pass, RuledArrayQueue};

/// The rule of an inbox: what each port has put is what was taken of it and then what the queue holds
/// of it.
pub struct InOrder;

impl<T> Protocol<Sent<T>, Knowledge<T>> for InOrder {
    ghost use Rattle.std.specs.Prelude.{[]};
    ghost use Rattle.live_inbox.specs.Knowledge.{mouth_knows};
    ghost use Rattle.live_inbox.specs.Delivery.{Delivers};

    ghost holds = { Delivers };

    ghost first = { mouth_knows 0 0 [] [] [] };
}

pub type Queue<T> = RuledArrayQueue<Sent<T>, Knowledge<T>, InOrder>;

/// A place at the queue, with what is known there. It has no bytes.
pub type Place<T> = Pass<Sent<T>, Knowledge<T>>;

//! What is known after each step at the queue: a put, a take, a port that is dealt out, one that is taken back.
use crate::knowledge::{Knowledge, Sent};
use crossbeam_queue::protocol::{Join, Lesson, Outcome, Split};
use std::marker::{Brand, PhantomData};

/// How many ports an inbox has. Each call that makes one picks it.
pub trait PortCount {
    ghost use Rattle.std.specs.Prelude.{ℕ};

    ghost count: { ℕ };
}

impl PortCount for Brand {
    ghost count = { 0 };
}

/// The mouth deals out the next of its `N` ports.
pub struct Deals<N> {
    count: PhantomData<N>,
}

impl<N: PortCount, T> Split<Knowledge<T>> for Deals<N> {
    ghost use Rattle.std.specs.Prelude.{◌+◌, []};
    ghost use Rattle.live_inbox.specs.Knowledge.{port_knows, mouth_knows};

    ghost left = { λ v. mouth_knows N.count (v.dealt + 1) v.taken v.waiting v.returned };

    ghost right = { λ v. port_knows v.dealt N.count [] };
}

/// The mouth takes a port back.
pub struct TakesBack;

impl<T> Join<Knowledge<T>> for TakesBack {
    ghost use Rattle.live_inbox.specs.Knowledge.{took_back, knows_nothing};

    ghost both = { λ v w. took_back w v };

    ghost spent = { knows_nothing };
}

/// A port puts a value. Where it couldn't, the queue was full.
pub struct Puts;

impl<T> Outcome<Sent<T>, Knowledge<T>> for Puts {
    ghost use Rattle.std.specs.Prelude.{◌≡◌};
    ghost use Rattle.live_inbox.specs.Knowledge.{has_put};

    ghost then = { λ v x w. w ≡ has_put x.value v };
}

impl<T> Lesson<Sent<T>, Knowledge<T>> for Puts {
    ghost use Rattle.live_inbox.specs.Knowledge.{StandsAfter};

    ghost fact = { λ v items. StandsAfter v.port v.ports v.put items };
}

/// The mouth takes the first value. Where there was none, the queue was empty.
pub struct Takes;

impl<T> Outcome<Sent<T>, Knowledge<T>> for Takes {
    ghost use Rattle.live_inbox.specs.Knowledge.{TakesFirst};

    ghost then = { TakesFirst };
}

impl<T> Lesson<Sent<T>, Knowledge<T>> for Takes {
    ghost use Rattle.live_inbox.specs.Knowledge.{StandsBefore};
    ghost use Rattle.live_inbox.specs.Delivery.{AllThere};

    ghost fact = { λ v items. StandsBefore v.waiting items × AllThere v.ports v.taken v.returned items };
}

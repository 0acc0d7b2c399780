ghost use Rattle.std.specs.Prelude.{◌≡◌, ◌+◌, ◌^◌, ◌<◌, None, length, IfOk};
ghost use Rattle.svs_sync.specs.Suppression.{mode_of, periodic, suppression};
ghost use Rattle.svs_sync.specs.SyncStates.{becomes_steady, after_hearing, when_fired, state_after_firing};

use crate::fired::Fired;
use crate::mode::Mode;
use std::alloc::{AllocError, Global};
use std::marker::Model;
use svs_vector::Vector;

/// When a member sends its state vector, and when it is suppressed (the suppression of State Vector Sync).
///
/// Times are in milliseconds, on any clock that doesn't go back. The caller passes the draw of the number
/// `next_draw` with each call that may use one. Only `new` takes memory.
#[derive(Debug, Drop)]
pub struct Machine {
    mode: Mode,
    // The join of the vectors heard since the member was last Steady. It means nothing while it is.
    heard: Vector,
    deadline: u64,
    draws: u64,
}

// Contracts see a sync state as its `SyncState`.
impl Model for Machine {
    ghost use Rattle.svs_sync.specs.SyncStates.{SyncState};

    ghost Value = { SyncState };

    ghost use Rattle.svs_sync.specs.Fields.{keeper};

    ghost view = { keeper };
}

impl Machine {
    /// The sync state of a member that begins Steady, with its first draw.
    pub fn new(alloc: Global, members: usize, now: u64, draw: u32) -> Result<Machine, AllocError>
        requires { now < 2 ^ 62 }
        ensures { IfOk result (λ machine. machine ≡ record {
          members = members;
          heard = None;
          deadline = now + periodic draw;
          draws = 1;
        }) }
    {
        Ok(Machine {
            mode: Mode::Steady,
            heard: Vector::new(alloc, members)?,
            deadline: now + periodic(draw),
            draws: 1,
        })
    }

    /// The member published.
    pub fn published(&mut self, now: u64, draw: u32)
        requires early { now < 2 ^ 62 }
        requires few { self.old.draws < 2 ^ 62 }
        ensures { self.new ≡ becomes_steady now draw self.old }
    {
        self.settle(now, draw);
    }

    /// The member starts again, or has settled with the others.
    pub fn reset(&mut self, now: u64, draw: u32)
        requires early { now < 2 ^ 62 }
        requires few { self.old.draws < 2 ^ 62 }
        ensures { self.new ≡ becomes_steady now draw self.old }
    {
        self.settle(now, draw);
    }

    /// The member heard the vector `received`, while `known` was its own vector.
    pub fn heard(&mut self, now: u64, received: &Vector, known: &Vector, draw: u32) -> Mode
        requires early { now < 2 ^ 62 }
        requires few { self.old.draws < 2 ^ 62 }
        requires received { length received.now ≡ self.old.members }
        requires known { length known.now ≡ self.old.members }
        ensures kept { self.new ≡ after_hearing now received.now known.now draw self.old self.old.heard }
        ensures mode { result ≡ mode_of self.new.heard }
    {
        match self.mode {
            Mode::Suppressed => {
                self.heard.join(received);
            }
            Mode::Steady if received.covers(known) => self.settle(now, draw),
            Mode::Steady => {
                self.mode = Mode::Suppressed;
                self.heard.copy_from(received);
                self.deadline = now + suppression(draw);
                self.draws += 1;
            }
        }
        self.mode
    }

    /// What the member does now, where `known` is its own vector.
    pub fn fired(&mut self, now: u64, known: &Vector, draw: u32) -> Fired
        requires early { now < 2 ^ 62 }
        requires few { self.old.draws < 2 ^ 62 }
        requires known { length known.now ≡ self.old.members }
        ensures fired { result ≡ when_fired now known.now self.old }
        ensures kept { self.new ≡ state_after_firing now draw self.old }
    {
        let fired = self.fires(now, known);
        if now >= self.deadline {
            self.settle(now, draw);
        }
        fired
    }

    /// What the member would do now, as `fired` answers. Nothing is done.
    pub fn fires(&self, now: u64, known: &Vector) -> Fired
        requires { length known.now ≡ self.now.members }
        ensures { result ≡ when_fired now known.now self.now }
    {
        if now < self.deadline {
            return Fired::Early;
        }
        match self.mode {
            Mode::Suppressed if self.heard.covers(known) => Fired::Quiet,
            _ => Fired::Send,
        }
    }

    /// Whether the member is Steady or Suppressed.
    pub fn mode(&self) -> Mode
        ensures { result ≡ mode_of self.now.heard }
    {
        self.mode
    }

    /// The time from which on the member is due.
    pub fn deadline(&self) -> u64
        ensures { result ≡ self.now.deadline }
    {
        self.deadline
    }

    /// How many draws were used, which is the number of the next one.
    pub fn next_draw(&self) -> u64
        ensures { result ≡ self.now.draws }
    {
        self.draws
    }

    // Makes the member Steady, with a new periodic deadline.
    fn settle(&mut self, now: u64, draw: u32)
        requires early { now < 2 ^ 62 }
        requires few { self.old.draws < 2 ^ 62 }
        ensures { self.new ≡ becomes_steady now draw self.old }
    {
        self.mode = Mode::Steady;
        self.deadline = now + periodic(draw);
        self.draws += 1;
    }
}

// How long a steady member waits.
fn periodic(draw: u32) -> u64
    ensures exact { result ≡ periodic draw }
    ensures short { result < 33001 }
{
    27_000 + u64::from(draw) % 6_001
}

// How long a member is suppressed that heard an older vector.
fn suppression(draw: u32) -> u64
    ensures exact { result ≡ suppression draw }
    ensures short { result < 201 }
{
    u64::from(draw) % 201
}

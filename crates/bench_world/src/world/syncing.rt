// The sync Interests of members, and their timers.
ghost use Rattle.std.specs.Prelude.{◌≡◌, ◌+◌, ◌<◌, ◌≤◌, length};
ghost use Rattle.bench_world.specs.Worlds.{drawing};
ghost use Rattle.bench_world.specs.Timers.{after_firing, fire_report};
ghost use Rattle.bench_world.specs.EventValues.{EventValue, report_value, delivered_report};
ghost use Rattle.bench_world.specs.Runs.{IsStep};

use super::World;
use crate::event::{EventError, Happened};
use crate::numbers::{numbers, vector_of};
use bench_net::{Draws, Sent};
use repo_member::Fire;
use svs_sync::Mode;

impl World {
    /// A member hears a sync Interest that was sent, by its number.
    pub(crate) fn deliver<D: Draws>(
        &mut self,
        k: u32,
        m: u32,
        draws: &D,
    ) -> Result<Happened, EventError>
        requires there { m < length self.old.members }
        requires few { self.old.steps < 100000 }
        ensures { IsStep (drawing (D.draw draws.now)) (EventValue.Deliver k m) self.old result self.new }
    {
        let Some(numbers) = self.sent.vector(k) else {
            return Err(EventError::NoSuchPacket);
        };
        let received = vector_of(self.alloc, numbers)?;
        let member = &mut self.members[m as usize];
        let draw = draws.draw(m, member.next_draw());
        // A member sent the vector, so it reports only publications that exist.
        let mode = member.hear_vector(&received, self.time, draw);
        self.delivered += 1;
        self.steps += 1;
        Ok(delivered(u64::from(k), m, mode))
    }

    /// The octets of a sync Interest that was sent, by its number.
    pub(crate) fn sync(&mut self, k: u32) -> Result<Happened, EventError>
        requires few { self.old.steps < 100000 }
        ensures { IsStep (drawing (λ _ _. 0)) (EventValue.Sync k) self.old result self.new }
    {
        let Some(octets) = self.sent.octets(k) else {
            return Err(EventError::NoSuchPacket);
        };
        let octets = octets.to_vec(self.alloc)?;
        self.steps += 1;
        Ok(Happened::Sync {
            k: u64::from(k),
            octets,
        })
    }

    /// The time moves on.
    pub(crate) fn advance(&mut self, ms: u64) -> Happened
        requires short { ms ≤ 1000000000 }
        requires few { self.old.steps < 100000 }
        ensures { IsStep (drawing (λ _ _. 0)) (EventValue.Advance ms) self.old (Ok result) self.new }
    {
        self.time += ms;
        self.steps += 1;
        Happened::Advance { now: self.time }
    }

    /// A member's timer fires.
    pub(crate) fn fire<D: Draws>(&mut self, m: u32, draws: &D) -> Result<Happened, EventError>
        requires there { m < length self.old.members }
        requires few { self.old.steps < 100000 }
        ensures { IsStep (drawing (D.draw draws.now)) (EventValue.Fire m) self.old result self.new }
    {
        self.sent.reserve(1)?;
        let member = &mut self.members[m as usize];
        let vector = numbers(self.alloc, member.vector())?;
        let draw = draws.draw(m, member.next_draw());
        let Ok(fire) = member.fire(&self.group, self.time, draw) else {
            return Err(EventError::NoMemory);
        };
        let happened = send_fired(&mut self.sent, m, vector, fire);
        self.steps += 1;
        Ok(happened)
    }

    /// A member starts again: its claims end, and its sync state is reset.
    pub(crate) fn restart<D: Draws>(&mut self, m: u32, draws: &D) -> Happened
        requires there { m < length self.old.members }
        requires few { self.old.steps < 100000 }
        ensures { IsStep (drawing (D.draw draws.now)) (EventValue.Restart m) self.old (Ok result) self.new }
    {
        let member = &mut self.members[m as usize];
        let draw = draws.draw(m, member.next_draw());
        member.restart(self.time, draw);
        self.steps += 1;
        Happened::Restart { m }
    }
}

// The report of a delivery, by the mode of the member afterwards.
fn delivered(k: u64, m: u32, mode: Mode) -> Happened
    ensures { report_value result ≡ delivered_report k m mode }
{
    match mode {
        Mode::Steady => Happened::DeliverSteady { k, m },
        Mode::Suppressed => Happened::DeliverSuppressed { k, m },
    }
}

// Sends the sync Interest of a member that fired, if there is one. Capacity was reserved for it.
fn send_fired(sent: &mut Sent, m: u32, vector: Vec<u16>, fire: Fire) -> Happened
    requires room { 0 < sent.old.spare }
    requires few { length sent.old.packets < 4294967295 }
    ensures sent { sent.new.packets ≡ after_firing m vector.items fire sent.old.packets }
    ensures report { report_value result ≡ fire_report m (length sent.old.packets + 1) fire }
{
    match fire {
        Fire::Early => Happened::FireEarly { m },
        Fire::Quiet => Happened::FireQuiet { m },
        Fire::Sent(sync) => Happened::FireSent {
            m,
            k: u64::from(sent.add_reserved(m, vector, sync)),
        },
    }
}

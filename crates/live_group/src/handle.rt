ghost use Rattle.std.specs.Prelude.{◌≡◌, length};

use crate::ends::Ends;
use crate::gate::Gate;
use crate::run::Run;
use crate::seat::Seat;
use live_actors::{Noted, Places};
use live_member::{Lent, LiveReply, Told};
use repo_member::Group;
use repo_plan::Part;
use std::alloc::{AllocError, Global};
use std::snapshot::Snapshot;
use std::sync::Wait;
use std::sync::ledger::Share;

/// A run, as the actor of one thread sees it: the members' places, its ends of the inboxes, its tickets, and the calls
/// that it made, which take no bytes.
#[derive(Drop)]
pub struct Handle<'a, L: Run, R: Wait, G: Gate> {
    rt: &'a R,
    alloc: Global,
    g: &'a Group,
    seats: &'a [Seat<L>],
    gate: &'a G,
    ends: Ends<L>,
    tickets: Share<L>,
    calls: Vec<Snapshot<Noted<L>>>,
    ghost one_part: { tickets.parts ≡ 1 },
    ghost group: { g.now ≡ L.meaning.group },
    ghost members: { length seats.now ≡ length L.meaning.lists },
}

impl<'a, L: Run, R: Wait, G: Gate> Handle<'a, L, R, G> {
    pub fn new(
        rt: &'a R,
        alloc: Global,
        g: &'a Group,
        seats: &'a [Seat<L>],
        gate: &'a G,
        ends: Ends<L>,
        tickets: Share<L>,
    ) -> Handle<'a, L, R, G>
        requires parts { tickets.parts ≡ 1 }
        requires group { g.now ≡ L.meaning.group }
        requires members { length seats.now ≡ length L.meaning.lists }
        ensures tickets { result.tickets ≡ tickets }
        ensures seats { length result.seats.now ≡ length L.meaning.lists }
        ensures senders { length result.ends.senders.items ≡ length ends.senders.items }
    {
        Handle {
            rt,
            alloc,
            g,
            seats,
            gate,
            ends,
            tickets,
            calls: Vec::new(alloc),
        }
    }

    pub fn into_tickets(self) -> Share<L>
        ensures { result ≡ self.entry.tickets }
    {
        self.tickets
    }
}

impl<'a, L: Run, R: Wait, G: Gate> Places<L> for Handle<'a, L, R, G> {
    ghost use Rattle.std.specs.Prelude.{map, length};
    ghost use Rattle.live_actors.specs.ActorCalls.{Progress};
    ghost use Rattle.live_actors.specs.Noting.{call_of};

    ghost progress = { λ h. record {
      members = length h.seats.now;
      senders = length h.ends.senders.items;
      calls = map (λ c. call_of c.value) h.calls.items;
      left = h.tickets.amount;
    } };

    fn pass(&mut self, member: u32, actor: u8) -> Result<(), AllocError> {
        self.gate.at(member, u32::from(actor));
        self.calls
            .push(Snapshot::of(&Noted::Pass { member, actor }))?;
        Ok(())
    }

    fn publish_next(&mut self, member: u32) -> Result<Option<Told<L>>, AllocError> {
        let told = self.seats[member as usize]
            .lock()
            .lock(self.rt)
            .publish_next(self.g, &mut self.tickets)?;
        self.calls.push(Snapshot::of(&Noted::Publish {
            member,
            told: Snapshot::of(&told),
        }))?;
        Ok(told)
    }

    fn tell(&mut self, other: u32, told: &Told<L>) -> Result<(), AllocError> {
        self.ends.senders[other as usize].tell(self.rt, told.copy(self.alloc)?);
        self.calls.push(Snapshot::of(&Noted::Tell {
            other,
            told: Snapshot::of(told),
        }))?;
        Ok(())
    }

    fn take(&mut self) -> Result<Option<Told<L>>, AllocError> {
        let told = self.ends.next(self.rt);
        self.calls.push(Snapshot::of(&Noted::Take {
            told: Snapshot::of(&told),
        }))?;
        Ok(told)
    }

    fn hear(&mut self, member: u32, told: &Told<L>) -> Result<LiveReply, AllocError> {
        let replied = self.seats[member as usize]
            .lock()
            .lock(self.rt)
            .hear(self.g, told)?;
        self.calls.push(Snapshot::of(&Noted::Hear {
            member,
            told: Snapshot::of(told),
            replied,
        }))?;
        Ok(replied)
    }

    fn claim(&mut self, member: u32, f: u8) -> Result<LiveReply, AllocError> {
        let claimed = self.seats[member as usize]
            .lock()
            .lock(self.rt)
            .claim(self.g, f, &mut self.tickets)?;
        self.calls
            .push(Snapshot::of(&Noted::Claim { member, f, claimed }))?;
        Ok(claimed)
    }

    fn lend(&mut self, publisher: u32, part: Part) -> Result<Option<Lent<L>>, AllocError> {
        let lent = self.seats[publisher as usize]
            .lock()
            .lock(self.rt)
            .lend(self.alloc, part)?;
        self.calls.push(Snapshot::of(&Noted::Lend {
            publisher,
            part,
            lent: Snapshot::of(&lent),
        }))?;
        Ok(lent)
    }

    fn accept(&mut self, member: u32, f: u8, lent: &Lent<L>) -> Result<LiveReply, AllocError> {
        let ended = self.seats[member as usize]
            .lock()
            .lock(self.rt)
            .accept(self.g, f, lent)?;
        self.calls.push(Snapshot::of(&Noted::Accept {
            member,
            f,
            lent: Snapshot::of(lent),
            ended,
        }))?;
        Ok(ended)
    }

    fn lose(&mut self, member: u32, f: u8) -> Result<LiveReply, AllocError> {
        let ended = self.seats[member as usize]
            .lock()
            .lock(self.rt)
            .lose(self.g, f)?;
        self.calls
            .push(Snapshot::of(&Noted::Lose { member, f, ended }))?;
        Ok(ended)
    }
}

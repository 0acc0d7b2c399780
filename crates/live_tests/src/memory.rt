// A group as one actor sees it, in memory, without threads and locks: its answers are given beforehand, the next one
// last, and each call is written down.
ghost use Rattle.std.specs.Prelude.{◌≡◌, vec_len};

use live_actors::{Noted, Places};
use live_member::{Lent, Lists, LiveReply, Told};
use repo_plan::Part;
use std::alloc::{AllocError, Global};
use std::snapshot::Snapshot;

// A call as tests compare it. Packets are distinguished by a mark of their octets.
#[derive(Clone, Copy, PartialEq, Eq)]
pub(crate) enum Seen {
    Pass(u32, u8),
    Publish(u32, Option<u64>),
    Tell(u32, u64),
    Take(Option<u64>),
    Hear(u32, u64),
    Claim(u32, u8, LiveReply),
    Lend(u32, Part, Option<u64>),
    Accept(u32, u8, u64),
    Lose(u32, u8),
}

pub(crate) fn mark(octets: &[u8]) -> u64 {
    let mut sum = 0u64;
    for octet in octets {
        sum = sum.wrapping_mul(31).wrapping_add(u64::from(*octet));
    }
    sum
}

fn mark_of<L: Lists>(told: &Option<Told<L>>) -> Option<u64> {
    match told {
        Some(told) => Some(mark(told.octets())),
        None => None,
    }
}

#[derive(Drop)]
pub(crate) struct Memory<L: Lists> {
    pub members: u32,
    pub left: u32,
    pub objects: Vec<Told<L>>,
    pub inbox: Vec<Told<L>>,
    pub replies: Vec<LiveReply>,
    pub packets: Vec<Option<Lent<L>>>,
    pub seen: Vec<Seen>,
    calls: Vec<Snapshot<Noted<L>>>,
}

impl<L: Lists> Memory<L> {
    // A group that has no answers.
    pub(crate) fn new(alloc: Global, members: u32, tickets: u32) -> Memory<L>
        ensures members { result.members ≡ members }
        ensures tickets { result.left ≡ tickets }
    {
        Memory {
            members,
            left: tickets,
            objects: Vec::new(alloc),
            inbox: Vec::new(alloc),
            replies: Vec::new(alloc),
            packets: Vec::new(alloc),
            seen: Vec::new(alloc),
            calls: Vec::new(alloc),
        }
    }
}

impl<L: Lists> Places<L> for Memory<L> {
    ghost use Rattle.std.specs.Prelude.{map};
    ghost use Rattle.live_actors.specs.ActorCalls.{Progress};
    ghost use Rattle.live_actors.specs.Noting.{call_of};

    ghost progress = { λ m. record {
      members = m.members;
      senders = m.members;
      calls = map (λ c. call_of c.value) m.calls.items;
      left = m.left;
    } };

    fn pass(&mut self, member: u32, actor: u8) -> Result<(), AllocError> {
        self.seen.push(Seen::Pass(member, actor))?;
        self.calls
            .push(Snapshot::of(&Noted::Pass { member, actor }))?;
        Ok(())
    }

    fn publish_next(&mut self, member: u32) -> Result<Option<Told<L>>, AllocError> {
        let told = self.objects.pop();
        self.seen.push(Seen::Publish(member, mark_of(&told)))?;
        self.calls.push(Snapshot::of(&Noted::Publish {
            member,
            told: Snapshot::of(&told),
        }))?;
        if told.is_none() {
            self.left -= 1;
        }
        Ok(told)
    }

    fn tell(&mut self, other: u32, told: &Told<L>) -> Result<(), AllocError> {
        self.seen.push(Seen::Tell(other, mark(told.octets())))?;
        self.calls.push(Snapshot::of(&Noted::Tell {
            other,
            told: Snapshot::of(told),
        }))?;
        Ok(())
    }

    fn take(&mut self) -> Result<Option<Told<L>>, AllocError> {
        let told = self.inbox.pop();
        self.seen.push(Seen::Take(mark_of(&told)))?;
        self.calls.push(Snapshot::of(&Noted::Take {
            told: Snapshot::of(&told),
        }))?;
        Ok(told)
    }

    fn hear(&mut self, member: u32, told: &Told<L>) -> Result<LiveReply, AllocError> {
        let replied = LiveReply::Steady;
        self.seen.push(Seen::Hear(member, mark(told.octets())))?;
        self.calls.push(Snapshot::of(&Noted::Hear {
            member,
            told: Snapshot::of(told),
            replied,
        }))?;
        Ok(replied)
    }

    fn claim(&mut self, member: u32, f: u8) -> Result<LiveReply, AllocError> {
        let claimed = match self.replies.pop() {
            Some(LiveReply::Claimed { part }) if part.publisher < self.members => {
                LiveReply::Claimed { part }
            }
            _ => LiveReply::NoPart,
        };
        self.seen.push(Seen::Claim(member, f, claimed))?;
        self.calls
            .push(Snapshot::of(&Noted::Claim { member, f, claimed }))?;
        self.left -= 1;
        Ok(claimed)
    }

    fn lend(&mut self, publisher: u32, part: Part) -> Result<Option<Lent<L>>, AllocError> {
        let lent = match self.packets.pop() {
            Some(lent) => lent,
            None => None,
        };
        let octets = match &lent {
            Some(lent) => Some(mark(lent.octets())),
            None => None,
        };
        self.seen.push(Seen::Lend(publisher, part, octets))?;
        self.calls.push(Snapshot::of(&Noted::Lend {
            publisher,
            part,
            lent: Snapshot::of(&lent),
        }))?;
        Ok(lent)
    }

    fn accept(&mut self, member: u32, f: u8, lent: &Lent<L>) -> Result<LiveReply, AllocError> {
        let ended = LiveReply::Kept;
        self.seen
            .push(Seen::Accept(member, f, mark(lent.octets())))?;
        self.calls.push(Snapshot::of(&Noted::Accept {
            member,
            f,
            lent: Snapshot::of(lent),
            ended,
        }))?;
        Ok(ended)
    }

    fn lose(&mut self, member: u32, f: u8) -> Result<LiveReply, AllocError> {
        let ended = LiveReply::Refused;
        self.seen.push(Seen::Lose(member, f))?;
        self.calls
            .push(Snapshot::of(&Noted::Lose { member, f, ended }))?;
        Ok(ended)
    }
}

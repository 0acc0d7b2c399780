// What members publish.
ghost use Rattle.std.specs.Prelude.{◌≡◌, ◌⊎◌, ◌<◌, ◌≤◌, Some, IsTrue, IfOk, IfErr, OnErr, length, map};
ghost use Rattle.std.specs.List.{All};
ghost use Rattle.repo_object.specs.Objects.{is_object_name, IsContent};
ghost use Rattle.repo_object.specs.Cuts.{pieces};
ghost use Rattle.group_model.specs.Events.{Event};
ghost use Rattle.group_model.specs.Refusals.{Refusal, refusal};
ghost use Rattle.bench_world.specs.Worlds.{world_of, drawing};
ghost use Rattle.bench_world.specs.EventValues.{EventValue};
ghost use Rattle.bench_world.specs.Runs.{IsStep};
ghost use Rattle.bench_world.specs.Publishing.{IsObjectPublished};
ghost use Rattle.bench_world.specs.Withdrawing.{withdraw_fault};

use super::World;
use crate::event::{EventError, Happened};
use crate::numbers::numbers;
use bench_net::Draws;
use ndn_name::Name;
use repo_member::{PublishRefusal, WithdrawRefusal};
use repo_object::cut;

impl World {
    /// A member publishes a content in segments of `size` octets under its next number, and its sync Interest is sent.
    pub(crate) fn publish<D: Draws>(
        &mut self,
        m: u32,
        name: &Name,
        size: u32,
        content: &[u8],
        draws: &D,
    ) -> Result<Happened, EventError>
        requires there { m < length self.old.members }
        requires name { IsTrue (is_object_name name.now) }
        requires size { (1 ≤ size) × (size ≤ 8000) }
        requires segments { length (pieces size content.now) ≤ 20000 }
        requires few { self.old.steps < 100000 }
        ensures { IsStep (drawing (D.draw draws.now)) (EventValue.Publish m name.now size content.now)
            self.old result self.new }
    {
        // There are few enough segments, so only memory can run out.
        let Ok(contents) = cut(self.alloc, content, size as usize) else {
            return Err(EventError::NoMemory);
        };
        let segments = contents.len() as u64;
        match self.publish_contents(m, name, &contents, draws) {
            Ok((seq, sync)) => Ok(Happened::Publish {
                m,
                seq: u64::from(seq),
                segments,
                sync: u64::from(sync),
            }),
            Err(PublishRefusal::NumbersSpent { .. }) => Err(EventError::NumbersSpent),
            Err(PublishRefusal::NoMemory) => Err(EventError::NoMemory),
        }
    }

    // A member publishes an object under its next number, and its sync Interest is sent: the number of the publication,
    // and that of the sync Interest.
    fn publish_contents<D: Draws>(
        &mut self,
        m: u32,
        name: &Name,
        contents: &[Vec<u8>],
        draws: &D,
    ) -> Result<(u16, u32), PublishRefusal>
        requires there { m < length self.old.members }
        requires name { IsTrue (is_object_name name.now) }
        requires segments { length contents.now ≤ 20000 }
        requires contents { All (λ c. IsContent c.items) contents.now }
        requires few { self.old.steps < 100000 }
        ensures published { IfOk result (IsObjectPublished (drawing (D.draw draws.now)) self.old m
            (record { name = name.now; contents = map (λ c. c.items) contents.now }) self.new) }
        ensures refused { IfErr result (λ e. (e ≡ PublishRefusal.NoMemory)
            ⊎ (refusal (drawing (D.draw draws.now)) (world_of self.old) (Event.Publish m
            (record { name = name.now; contents = map (λ c. c.items) contents.now })) ≡ Some Refusal.NumbersSpent)) }
        ensures err { OnErr result (self.new ≡ self.old) }
    {
        self.sent.reserve(1)?;
        let member = &mut self.members[m as usize];
        let mut vector = numbers(self.alloc, member.vector())?;
        let draw = draws.draw(m, member.next_draw());
        let published = member.publish(&self.group, name, contents, self.time, draw)?;
        vector[m as usize] = published.seq;
        self.unsettled.note(m, published.seq);
        let k = self.sent.add_reserved(m, vector, published.sync);
        self.steps += 1;
        Ok((published.seq, k))
    }

    /// A member withdraws its object of the number `s` by a publication under its next number, and its sync Interest is
    /// sent.
    pub(crate) fn withdraw<D: Draws>(
        &mut self,
        m: u32,
        s: u32,
        draws: &D,
    ) -> Result<Happened, EventError>
        requires there { m < length self.old.members }
        requires small { s < 65536 }
        requires few { self.old.steps < 100000 }
        ensures { IsStep (drawing (D.draw draws.now)) (EventValue.Withdraw m s) self.old result self.new }
    {
        self.sent.reserve(1)?;
        let member = &mut self.members[m as usize];
        let mut vector = numbers(self.alloc, member.vector())?;
        let draw = draws.draw(m, member.next_draw());
        let published = match member.withdraw(&self.group, s as u16, self.time, draw) {
            Ok(published) => published,
            Err(refusal) => return Err(fault_of(refusal)),
        };
        vector[m as usize] = published.seq;
        self.unsettled.note(m, published.seq);
        let sync = self.sent.add_reserved(m, vector, published.sync);
        self.steps += 1;
        Ok(Happened::Withdraw {
            m,
            seq: u64::from(published.seq),
            withdrawn: u64::from(s),
            sync: u64::from(sync),
        })
    }
}

// Why a withdrawal is not carried out.
fn fault_of(refusal: WithdrawRefusal) -> EventError
    ensures { result ≡ withdraw_fault refusal }
{
    match refusal {
        WithdrawRefusal::NoSuchNumber { .. } => EventError::NoSuchNumber,
        WithdrawRefusal::NumbersSpent { .. } => EventError::NumbersSpent,
        WithdrawRefusal::NoMemory => EventError::NoMemory,
    }
}

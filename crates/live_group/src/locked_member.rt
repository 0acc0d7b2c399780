ghost use Rattle.std.specs.Prelude.{◌≡◌, ◌<◌, ◌≤◌, ◌+◌, length, IfOk, OnOk};
ghost use Rattle.repo_plan.specs.Calls.{IsFetcher};
ghost use Rattle.live_actors.specs.ActorCalls.{last_look, IsOfMember};
ghost use Rattle.live_group.specs.Desks.{IsDesk, HasBegun, HasEnded, tickets_each};

use crate::run::Run;
use live_member::{Lent, Live, LiveReply, NextTold, Told};
use repo_member::Group;
use repo_plan::Part;
use std::alloc::{AllocError, Global};
use std::sync::ledger::Share;

/// What lies under a member's lock: the member, how many claims of fetchers 1 and 2 and how many last looks for a
/// publication are still to be made, and the tickets that were spent.
#[derive(Drop)]
pub struct LockedMember<L: Run> {
    live: Live<L, 900000>,
    first: u32,
    second: u32,
    look: u32,
    spent: Share<L>,
    ghost one_part: { spent.parts ≡ 1 },
    ghost kept: { IsDesk L.turns live first second look spent.amount },
}

impl<L: Run> LockedMember<L> {
    pub fn new(live: Live<L, 900000>, turns: u32, spent: Share<L>) -> LockedMember<L>
        requires begun { HasBegun live }
        requires turns { turns ≡ L.turns }
        requires parts { spent.parts ≡ 1 }
        requires none { spent.amount ≡ 0 }
    {
        LockedMember {
            live,
            first: turns,
            second: turns,
            look: 1,
            spent,
        }
    }

    /// The member publishes its next object. `None` where its whole list is published, or where the journal is full:
    /// this spends a ticket. An actor that publishes looks once in vain, so no run asks for a second such look.
    pub fn publish_next(
        &mut self,
        g: &Group,
        tickets: &mut Share<L>,
    ) -> Result<Option<Told<L>>, AllocError>
        requires group { g.now ≡ L.meaning.group }
        requires part { 0 < tickets.old.parts }
        requires ticket { 0 < tickets.old.amount }
        ensures parts { tickets.new.parts ≡ tickets.old.parts }
        ensures spent { IfOk result (λ told. tickets.new.amount + last_look told ≡ tickets.old.amount) }
    {
        if self.look == 0 {
            return Err(AllocError);
        }
        let LockedMember {
            live,
            look,
            spent,
            ..
        } = self;
        if let NextTold::Told(told) = live.publish_next(g)? {
            return Ok(Some(told));
        }
        tickets.transfer(spent, 1);
        *look -= 1;
        Ok(None)
    }

    pub fn hear(&mut self, g: &Group, told: &Told<L>) -> Result<LiveReply, AllocError>
        requires { g.now ≡ L.meaning.group }
    {
        let LockedMember { live, .. } = self;
        live.hear(g, told)
    }

    /// A fetcher claims a part, and spends a ticket. It has no more claims than turns, so no run asks for one more.
    pub fn claim(
        &mut self,
        g: &Group,
        f: u8,
        tickets: &mut Share<L>,
    ) -> Result<LiveReply, AllocError>
        requires fetcher { IsFetcher f }
        requires two { f ≤ 2 }
        requires part { 0 < tickets.old.parts }
        requires ticket { 0 < tickets.old.amount }
        ensures parts { tickets.new.parts ≡ tickets.old.parts }
        ensures spent { OnOk result (tickets.new.amount + 1 ≡ tickets.old.amount) }
        ensures publisher { IfOk result (IsOfMember (length L.meaning.lists)) }
    {
        let left = if f == 1 { self.first } else { self.second };
        if left == 0 {
            return Err(AllocError);
        }
        let LockedMember {
            live,
            first,
            second,
            spent,
            ..
        } = self;
        let reply = live.claim(g, f)?;
        tickets.transfer(spent, 1);
        if f == 1 {
            *first -= 1;
        } else {
            *second -= 1;
        }
        Ok(reply)
    }

    pub fn lend(&self, alloc: Global, part: Part) -> Result<Option<Lent<L>>, AllocError> {
        self.live.lend(alloc, part)
    }

    pub fn accept(&mut self, g: &Group, f: u8, lent: &Lent<L>) -> Result<LiveReply, AllocError>
        requires group { g.now ≡ L.meaning.group }
        requires fetcher { IsFetcher f }
    {
        let LockedMember { live, .. } = self;
        live.accept(g, f, lent)
    }

    pub fn lose(&mut self, g: &Group, f: u8) -> Result<LiveReply, AllocError>
        requires { IsFetcher f }
    {
        let LockedMember { live, .. } = self;
        live.lose(g, f)
    }

    /// The member, the number of tickets that its actors didn't spend, and those that they spent.
    pub fn into_parts(self) -> (Live<L, 900000>, u64, Share<L>)
        ensures parts { result.2.parts ≡ 1 }
        ensures amount { result.2.amount + result.1 ≡ tickets_each L.turns }
        ensures ended { HasEnded L.turns result.0 result.1 }
    {
        let LockedMember {
            live,
            first,
            second,
            look,
            spent,
        } = self;
        (
            live,
            u64::from(first) + u64::from(second) + u64::from(look),
            spent,
        )
    }
}

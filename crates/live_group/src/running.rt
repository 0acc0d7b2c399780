ghost use Rattle.std.specs.Prelude.{◌≡◌, ◌≤◌, ◌<◌, ◌+◌, ◌*◌, All, map, length, IfOk, OnOk};
ghost use Rattle.live_member.specs.Meanings.{meaning_of, IsWithinLimits};
ghost use Rattle.live_member.specs.Lives.{IsLive};
ghost use Rattle.live_settle.specs.Rans.{numbers_below, AreRans};
ghost use Rattle.live_group.specs.Desks.{AreTokens, tickets_each};
ghost use Rattle.live_group.specs.Outs.{IsOut, HasRun, all_left, turns_of};

use crate::acting::act_all;
use crate::closed_place::ClosedPlace;
use crate::gate::Gate;
use crate::jobs::all_jobs;
use crate::run::Run;
use crate::seat::Seat;
use crate::ticketed::{all_ticketed, give_back};
use live_member::{Live, count_parts};
use live_settle::{Ran, settle};
use repo_member::Group;
use repo_object::Object;
use std::alloc::{AllocError, Global};
use std::marker::Brand;
use std::sync::Wait;
use std::sync::ledger::{Blank, Share};
use std::thread::Threads;

/// Runs a group in threads: each member publishes its list, informs the others, hears them, and fetches what it wants,
/// all at once. Then the rest of each list is published, and a settle is made.
///
/// There is one list and one draw for each member of the group, in order of their numbers. Each member's journal
/// replays to it, and its catalogue is the join of all lists.
pub fn run_group<R: Threads + Wait + Sync, G: Gate + Sync>(
    rt: &R,
    alloc: Global,
    g: &Group,
    lists: Vec<Vec<Object>>,
    draws: &[u32],
    gate: &G,
) -> Result<Vec<Ran>, AllocError>
    requires draws { length draws.now ≡ length lists.items }
    requires within { IsWithinLimits (meaning_of g.now (map (λ l. l.items) lists.items) draws.now) }
    ensures rans { IfOk result (λ rans.
        AreRans (meaning_of g.now (map (λ l. l.items) lists.items) draws.now) rans.items) }
    ensures acted { IfOk result (λ rans. All
        (HasRun (meaning_of g.now (map (λ l. l.items) lists.items) draws.now)
        (turns_of (meaning_of g.now (map (λ l. l.items) lists.items) draws.now))) rans.items) }
{
    let turns = count_parts(lists.as_slice()) * 2;
    let tokens = Blank::new(lists.len() as u64 * 4 + 1);
    run_named::<Brand, R, G>(rt, alloc, g, lists, draws, gate, tokens, turns)
}

fn run_named<L: Run + Send + Sync, R: Threads + Wait + Sync, G: Gate + Sync>(
    rt: &R,
    alloc: Global,
    g: &Group,
    lists: Vec<Vec<Object>>,
    draws: &[u32],
    gate: &G,
    tokens: Blank,
    turns: u32,
) -> Result<Vec<Ran>, AllocError>
    requires meaning { meaning_of g.now (map (λ l. l.items) lists.items) draws.now ≡ L.meaning }
    requires draws { length draws.now ≡ length lists.items }
    requires within { IsWithinLimits L.meaning }
    requires tokens { AreTokens tokens.name tokens.parts L.name L.parts (length lists.items) }
    requires turns { turns ≡ L.turns }
    ensures rans { IfOk result (λ rans. AreRans L.meaning rans.items) }
    ensures acted { IfOk result (λ rans. All (HasRun L.meaning L.turns) rans.items) }
{
    let members = lists.len();
    let (mut book, mut all) = tokens.open::<L>();
    book.add(&mut all, members as u64 * (turns as u64 * 2 + 1));
    let jobs = all_jobs::<L>(alloc, members)?;
    let jobs = all_ticketed(alloc, &mut all, jobs, turns)?;
    let seats = all_seats::<L>(alloc, g, lists, draws, &mut all, turns)?;
    let done = act_all(rt, alloc, g, seats.as_slice(), gate, jobs)?;
    give_back(&mut all, done);
    let outs = all_out(alloc, seats, &mut all)?;
    book.audit(&mut all);
    let lives = all_placed(alloc, g, outs)?;
    settle::<L>(alloc, g, lives)
}

fn all_seats<L: Run>(
    alloc: Global,
    g: &Group,
    lists: Vec<Vec<Object>>,
    draws: &[u32],
    all: &mut Share<L>,
    turns: u32,
) -> Result<Vec<Seat<L>>, AllocError>
    requires meaning { meaning_of g.now (map (λ l. l.items) lists.items) draws.now ≡ L.meaning }
    requires draws { length draws.now ≡ length lists.items }
    requires within { IsWithinLimits L.meaning }
    requires parts { length lists.items < all.old.parts }
    requires turns { turns ≡ L.turns }
    ensures seats { IfOk result (λ seats. seats.items ≡ numbers_below (length L.meaning.lists)) }
    ensures parts { OnOk result (all.new.parts + length lists.items ≡ all.old.parts) }
    ensures amount { OnOk result (all.new.amount ≡ all.old.amount) }
{
    let mut seats = Vec::with_capacity(alloc, lists.len())?;
    for objects in lists {
        let number = seats.len();
        let spent = all.split_off(1, 0);
        seats.push(Seat::new(
            alloc,
            g,
            number as u32,
            objects,
            draws[number],
            turns,
            spent,
        )?)?;
    }
    Ok(seats)
}

// What lay under the lock of each place.
fn all_out<L: Run>(
    alloc: Global,
    seats: Vec<Seat<L>>,
    all: &mut Share<L>,
) -> Result<Vec<ClosedPlace<L>>, AllocError>
    ensures numbers { IfOk result (λ outs. map (λ o. o.number) outs.items ≡ seats.items) }
    ensures parts { OnOk result (all.new.parts ≡ all.old.parts + length seats.items) }
    ensures amount { IfOk result (λ outs.
        all.new.amount + all_left outs.items ≡ all.old.amount + length seats.items * tickets_each L.turns) }
{
    let mut outs = Vec::with_capacity(alloc, seats.len())?;
    for seat in seats {
        outs.push(seat.out(all))?;
    }
    Ok(outs)
}

// The members, each at its place.
fn all_placed<L: Run>(
    alloc: Global,
    g: &Group,
    outs: Vec<ClosedPlace<L>>,
) -> Result<Vec<Live<L, 1000000>>, AllocError>
    requires group { g.now ≡ L.meaning.group }
    requires none_left { All (λ o. o.left ≡ 0) outs.items }
    ensures numbers { IfOk result (λ lives. map (λ l. l.state.number) lives.items ≡ map (λ o. o.number) outs.items) }
    ensures live { IfOk result (λ lives. All (IsLive L.meaning 1000000) lives.items) }
    ensures room { IfOk result (λ lives. All (λ l. length l.journal ≤ 900000) lives.items) }
    ensures outs { IfOk result (λ lives. All (IsOut L.meaning L.turns) lives.items) }
{
    let mut lives = Vec::with_capacity(alloc, outs.len())?;
    for out in outs {
        lives.push(out.placed(alloc, g)?)?;
    }
    Ok(lives)
}

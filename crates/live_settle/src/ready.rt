ghost use Rattle.std.specs.Prelude.{◌≡◌, ◌<◌, ◌≤◌, length, [], OnOk};
ghost use Rattle.repo_plan.specs.Calls.{IsFetcher};
ghost use Rattle.live_member.specs.Lives.{IsLive};
ghost use Rattle.live_settle.specs.Ready.{AreLive, ArePlaced, AreReady, HasRoom, Loses, MakesReady};
ghost use Rattle.live_settle.specs.Ready.{Continues, KeepPrefixes};

use live_member::{Lists, Live, NextTold};
use repo_member::Group;
use std::alloc::AllocError;

const LAST_FETCHER: u8 = 16;

/// The rest of each list is published, and each claim ends.
pub fn all_ready<L: Lists>(g: &Group, lives: &mut [Live<L, 1000000>]) -> Result<(), AllocError>
    requires group { g.now ≡ L.meaning.group }
    requires placed { ArePlaced L.meaning lives.old }
    requires live { AreLive L.meaning lives.old }
    requires room { HasRoom 0 900000 lives.old }
    ensures ready { OnOk result (AreReady L.meaning lives.new) }
    ensures room { OnOk result (HasRoom 0 900216 lives.new) }
    ensures prefixes { OnOk result (KeepPrefixes lives.old lives.new) }
{
    for j in 0..lives.len() {
        ready(g, &mut lives[j])?;
    }
    Ok(())
}

// The rest of a member's list is published, and each of its claims ends.
fn ready<L: Lists>(g: &Group, live: &mut Live<L, 1000000>) -> Result<(), AllocError>
    requires group { g.now ≡ L.meaning.group }
    requires live { IsLive L.meaning 1000000 live.old }
    requires room { length live.old.journal ≤ 900000 }
    ensures { OnOk result (MakesReady L.meaning 900216 live.old live.new) }
{
    publish_rest(g, live)?;
    lose_claims(g, live)
}

// The rest of the list is published.
fn publish_rest<L: Lists>(g: &Group, live: &mut Live<L, 1000000>) -> Result<(), AllocError>
    requires group { g.now ≡ L.meaning.group }
    requires live { IsLive L.meaning 1000000 live.old }
    requires room { length live.old.journal ≤ 900000 }
    ensures live { OnOk result (IsLive L.meaning 1000000 live.new) }
    ensures unpublished { OnOk result (live.new.unpublished ≡ []) }
    ensures number { OnOk result (live.new.state.number ≡ live.old.state.number) }
    ensures entries { OnOk result (length live.new.journal ≤ 900200) }
    ensures prefix { OnOk result (Continues live.old.journal live.new.journal) }
{
    while let NextTold::Told(_) = live.publish_next(g)? {}
    Ok(())
}

// The claim of each fetcher ends, if it has one.
fn lose_claims<L: Lists>(g: &Group, live: &mut Live<L, 1000000>) -> Result<(), AllocError>
    requires live { IsLive L.meaning 1000000 live.old }
    requires unpublished { live.old.unpublished ≡ [] }
    requires room { length live.old.journal ≤ 900200 }
    ensures { OnOk result (MakesReady L.meaning 900216 live.old live.new) }
{
    for earlier in 0..LAST_FETCHER {
        lose_claim(g, live, earlier + 1)?;
    }
    Ok(())
}

// The claim of a fetcher ends, if it has one.
#[tactic(auto, using(crate::proofs::Prefixes::continues_lost, crate::proofs::Prefixes::continues_itself))]
fn lose_claim<L: Lists>(g: &Group, live: &mut Live<L, 1000000>, f: u8) -> Result<(), AllocError>
    requires fetcher { IsFetcher f }
    requires live { IsLive L.meaning 1000000 live.old }
    requires room { length live.old.journal < 1000000 }
    ensures { OnOk result (Loses L.meaning f live.old live.new) }
{
    if live.member().claimed(f).is_none() {
        return Ok(());
    }
    live.lose(g, f)?;
    Ok(())
}

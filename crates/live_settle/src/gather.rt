ghost use Rattle.std.specs.Prelude.{◌≡◌, ◌≤◌, length, IfOk, OnOk};
ghost use Rattle.live_settle.specs.Ready.{at, AreReady, HasRoom, AreGathering, CanGather, AreJoined, Joins};
ghost use Rattle.live_settle.specs.Ready.{AfterTurn, EntersTurn, KeepPrefixes};

use live_member::{Lists, Live, LiveReply};
use repo_member::Group;
use std::alloc::{AllocError, Global};

/// Each member fetches all that it wants.
pub fn all_gather<L: Lists>(
    alloc: Global,
    g: &Group,
    lives: &mut [Live<L, 1000000>],
) -> Result<(), AllocError>
    requires group { g.now ≡ L.meaning.group }
    requires ready { AreReady L.meaning lives.old }
    requires gathering { AreGathering L.meaning lives.old }
    requires room { HasRoom 0 900232 lives.old }
    ensures ready { OnOk result (AreReady L.meaning lives.new) }
    ensures joined { OnOk result (AreJoined L.meaning lives.new) }
    ensures prefixes { OnOk result (KeepPrefixes lives.old lives.new) }
{
    for j in 0..lives.len() {
        gather(alloc, g, lives, j)?;
    }
    Ok(())
}

// Fetcher 1 of a member claims and takes parts until nothing is to be claimed.
fn gather<L: Lists>(
    alloc: Global,
    g: &Group,
    lives: &mut [Live<L, 1000000>],
    j: usize,
) -> Result<(), AllocError>
    requires group { g.now ≡ L.meaning.group }
    requires can { CanGather L.meaning j lives.old }
    requires room { length (at lives.old j).journal ≤ 900232 }
    ensures { OnOk result (Joins L.meaning j lives.old lives.new) }
{
    while turn(alloc, g, lives, j)? {}
    Ok(())
}

// Fetcher 1 of a member claims a part and takes its publisher's packet; false where nothing is to be claimed.
fn turn<L: Lists>(
    alloc: Global,
    g: &Group,
    lives: &mut [Live<L, 1000000>],
    j: usize,
) -> Result<bool, AllocError>
    requires group { g.now ≡ L.meaning.group }
    requires can { CanGather L.meaning j lives.old }
    requires room { length (at lives.old j).journal ≤ 999000 }
    ensures turned { IfOk result (AfterTurn L.meaning j lives.old lives.new) }
    ensures entries { IfOk result (EntersTurn (at lives.old j) (at lives.new j)) }
{
    let LiveReply::Claimed { part } = lives[j].claim(g, 1)? else {
        return Ok(false);
    };
    if let Some(lent) = lives[part.publisher as usize].lend(alloc, part)? {
        lives[j].accept(g, 1, &lent)?;
    }
    Ok(true)
}

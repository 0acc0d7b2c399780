ghost use Rattle.std.specs.Prelude.{◌≡◌, ◌≤◌, All, map, length, IfOk};
ghost use Rattle.live_member.specs.Lives.{IsLive};
ghost use Rattle.live_settle.specs.Ready.{IsJoined};
ghost use Rattle.live_settle.specs.Rans.{numbers_below, IsRan, AreRans, AreContinued};

use crate::gather::all_gather;
use crate::hearing::all_hear;
use crate::ran::Ran;
use crate::ready::all_ready;
use live_member::{Lists, Live};
use repo_member::Group;
use std::alloc::{AllocError, Global};

/// Publishes the rest of each list, and settles: each claim ends, each member hears all others, and then each fetches
/// what it wants. The members stand in order of their numbers, each with capacity for 100,000 entries.
///
/// Where memory runs out the members are dropped.
pub fn settle<L: Lists>(
    alloc: Global,
    g: &Group,
    mut lives: Vec<Live<L, 1000000>>,
) -> Result<Vec<Ran>, AllocError>
    requires group { g.now ≡ L.meaning.group }
    requires numbers { map (λ l. l.state.number) lives.items ≡ numbers_below (length L.meaning.lists) }
    requires live { All (IsLive L.meaning 1000000) lives.items }
    requires room { All (λ l. length l.journal ≤ 900000) lives.items }
    ensures rans { IfOk result (λ rans. AreRans L.meaning rans.items) }
    ensures prefixes { IfOk result (λ rans. AreContinued lives.items rans.items) }
{
    all_ready(g, lives.as_mut_slice())?;
    all_hear(alloc, g, lives.as_mut_slice())?;
    all_gather(alloc, g, lives.as_mut_slice())?;
    all_ran(alloc, lives)
}

// The journal and the member of each place.
fn all_ran<L: Lists>(alloc: Global, lives: Vec<Live<L, 1000000>>) -> Result<Vec<Ran>, AllocError>
    requires numbers { map (λ l. l.state.number) lives.items ≡ numbers_below (length L.meaning.lists) }
    requires joined { All (IsJoined L.meaning) lives.items }
    ensures journals { IfOk result (λ rans. map (λ r. r.journal.items) rans.items ≡ map (λ l. l.journal) lives.items) }
    ensures members { IfOk result (λ rans. map (λ r. r.member) rans.items ≡ map (λ l. l.state) lives.items) }
    ensures rans { IfOk result (λ rans. AreRans L.meaning rans.items) }
{
    let mut rans = Vec::with_capacity(alloc, lives.len())?;
    for live in lives {
        rans.push(ran(live))?;
    }
    Ok(rans)
}

fn ran<L: Lists>(live: Live<L, 1000000>) -> Ran
    requires { IsJoined L.meaning live }
    ensures journal { result.journal.items ≡ live.journal }
    ensures member { result.member ≡ live.state }
    ensures ran { IsRan L.meaning result }
{
    let (journal, member) = live.into_parts();
    Ran { journal, member }
}

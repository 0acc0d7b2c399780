ghost use Rattle.std.specs.Prelude.{◌≡◌, ◌<◌, ◌≤◌, ◌+◌, length, OnOk};
ghost use Rattle.live_member.specs.Meanings.{whole_logs};
ghost use Rattle.live_settle.specs.Ready.{at, AreReady, AreGathering, HasRoom, KeepPrefixes, KnowsThose, Hears};
ghost use Rattle.live_settle.specs.Hearings.{HearsOther, HearsFirst};

use live_member::{Lists, Live};
use repo_member::Group;
use std::alloc::{AllocError, Global};

/// Each member hears all others.
pub fn all_hear<L: Lists>(
    alloc: Global,
    g: &Group,
    lives: &mut [Live<L, 1000000>],
) -> Result<(), AllocError>
    requires group { g.now ≡ L.meaning.group }
    requires ready { AreReady L.meaning lives.old }
    requires room { HasRoom 0 900216 lives.old }
    ensures ready { OnOk result (AreReady L.meaning lives.new) }
    ensures gathering { OnOk result (AreGathering L.meaning lives.new) }
    ensures room { OnOk result (HasRoom 0 900232 lives.new) }
    ensures prefixes { OnOk result (KeepPrefixes lives.old lives.new) }
{
    for j in 0..lives.len() {
        hear_others(alloc, g, lives, j)?;
    }
    Ok(())
}

// A member hears all others, in order.
fn hear_others<L: Lists>(
    alloc: Global,
    g: &Group,
    lives: &mut [Live<L, 1000000>],
    j: usize,
) -> Result<(), AllocError>
    requires group { g.now ≡ L.meaning.group }
    requires ready { AreReady L.meaning lives.old }
    requires there { j < length lives.old }
    requires room { length (at lives.old j).journal ≤ 900216 }
    ensures hears { OnOk result (Hears L.meaning j (length L.meaning.lists) 16 lives.old lives.new) }
    ensures heard { OnOk result (HearsFirst L.meaning j (length lives.old) lives.old lives.new) }
{
    for p in 0..lives.len() {
        hear_one(alloc, g, lives, j, p)?;
    }
    Ok(())
}

// A member hears one other, and not itself.
fn hear_one<L: Lists>(
    alloc: Global,
    g: &Group,
    lives: &mut [Live<L, 1000000>],
    j: usize,
    p: usize,
) -> Result<(), AllocError>
    requires group { g.now ≡ L.meaning.group }
    requires ready { AreReady L.meaning lives.old }
    requires there { j < length lives.old }
    requires other { p < length lives.old }
    requires room { length (at lives.old j).journal < 1000000 }
    requires knows { KnowsThose (whole_logs L.meaning) p (at lives.old j).state.known }
    ensures hears { OnOk result (Hears L.meaning j (p + 1) 1 lives.old lives.new) }
    ensures heard { OnOk result (HearsOther L.meaning j p lives.old lives.new) }
{
    if p == j {
        return Ok(());
    }
    let told = lives[p].tell(alloc, g)?;
    lives[j].hear(g, &told)?;
    Ok(())
}

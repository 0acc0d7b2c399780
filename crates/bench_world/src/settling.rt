// What a settle makes of all members.
ghost use Rattle.std.specs.Prelude.{◌≡◌, ◌+◌, ◌++◌, ◌≤◌, ◌<◌, ◌^◌, ℕ, length, map, IfOk, OnOk, OnErr, vec_len};
ghost use Rattle.group_model.specs.World.{World, logs};
ghost use Rattle.group_model.specs.Steps.{settled_member, settle_new_parts};
ghost use Rattle.repo_member.specs.MemberState.{member_resets};
ghost use Rattle.bench_world.specs.Sizes.{size_of};
ghost use Rattle.bench_world.specs.Conditions.{CanSettle};
ghost use Rattle.bench_world.specs.Worlds.{state_at, in_groups, tells};
ghost use Rattle.bench_world.specs.Settling.{sent_sync, new_parts_sum, StayConsistent, ArePartlySettled};

use crate::member_fetches::fetch_all_for_members;
use crate::sync_exchange::{MemberSync, all_known, learn_all, tell_all};
use crate::touched::Touched;
use bench_net::{Draws, Net, Sent};
use repo_member::{Group, Member};
use std::alloc::{AllocError, Global};
use std::thread::Threads;

/// All claims end. Each member announces its vector, joins all vectors to its own, and gathers parts that the others
/// store.
///
/// The result has the sync Interests of all members, how many parts were received, and how many octets.
pub(crate) fn settle_members<N: Net + Sync, R: Threads + Sync>(
    rt: &R,
    alloc: Global,
    g: &Group,
    net: &N,
    workers: u32,
    touched: &Touched,
    members: &mut Vec<Member>,
) -> Result<(Vec<MemberSync>, u64, u64), AllocError>
    ghost begun: { World }
    requires { CanSettle g.now begun workers touched.now members.old.items }
    ensures syncs { IfOk result (λ r. map sent_sync r.0.items ≡ map (tells g.now) members.old.items) }
    ensures parts { IfOk result (λ r. r.1 ≡ settle_new_parts begun) }
    ensures octets { IfOk result (λ r. r.2 ≡ new_parts_sum (size_of g.now (logs begun)) begun begun.members) }
    ensures members { OnOk result (in_groups members.new.items ≡ map (settled_member begun) begun.members) }
    ensures stay { StayConsistent g.now (logs begun) members.old.items members.new.items }
    // After running out of memory each member is partly settled.
    ensures err { OnErr result (ArePartlySettled begun (in_groups members.new.items)) }
{
    let syncs = tell_all(alloc, g, members.as_slice())?;
    let known = all_known(alloc, members.as_slice())?;
    learn_all(&known, members);
    let (parts, octets) = fetch_all_for_members(rt, alloc, g, net, workers, touched, members)?;
    Ok((syncs, parts, octets))
}

/// Sends the members' sync Interests, for which capacity was reserved.
pub(crate) fn send_all(sent: &mut Sent, syncs: Vec<MemberSync>)
    requires room { vec_len syncs ≤ sent.old.spare }
    requires few { length sent.old.packets + vec_len syncs < 4294967295 }
    ensures { sent.new.packets ≡ sent.old.packets ++ map sent_sync syncs.items }
{
    for one in syncs {
        sent.add_reserved(one.sender, one.vector, one.octets);
    }
}

/// Each sync state starts again, with its member's next draw.
pub(crate) fn reset_all<D: Draws>(members: &mut Vec<Member>, time: u64, draws: &D)
    requires few { length members.old.items ≤ 16 }
    requires early { time < 2 ^ 62 }
    requires draws { (j : ℕ) → (state_at members.old.items j).machine.draws < 2 ^ 62 }
    ensures len { length members.new.items ≡ length members.old.items }
    ensures each { (j : ℕ) → j < length members.old.items → state_at members.new.items j
        ≡ member_resets time (D.draw draws.now j (state_at members.old.items j).machine.draws)
        (state_at members.old.items j) }
{
    for (j, member) in members.iter_mut().enumerate() {
        let draw = draws.draw(j as u32, member.next_draw());
        member.reset(time, draw);
    }
}

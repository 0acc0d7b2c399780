// The parts that members gather from each other in a settle.
ghost use Rattle.std.specs.Prelude.{◌≡◌, map, slice_set, IfOk, OnOk, OnErr};
ghost use Rattle.group_model.specs.Publications.{Logs};
ghost use Rattle.group_model.specs.World.{World, logs};
ghost use Rattle.group_model.specs.Steps.{settled_member, settle_new_parts};
ghost use Rattle.bench_world.specs.Gathering.{one_each, Counts, GainsParts, NothingLeft};
ghost use Rattle.bench_world.specs.MemberWords.{member_words};
ghost use Rattle.bench_world.specs.Settling.{new_parts_sum, StayConsistent, ArePartlySettled};
ghost use Rattle.bench_world.specs.Sizes.{size_of};
ghost use Rattle.bench_world.specs.Conditions.{CanFetchAllAt, CanGatherAll};
ghost use Rattle.bench_world.specs.Worlds.{state_at, others_than, in_groups};

use crate::fetch_all::fetch_all;
use crate::lending::MemberLink;
use crate::others::put_back;
use crate::touched::Touched;
use bench_net::Net;
use repo_member::{FetchCounts, Group, Member};
use std::alloc::{AllocError, Global};
use std::thread::Threads;

// Member `j` gathers parts from the others. The result counts what it received.
fn fetch_all_at<N: Net + Sync, R: Threads + Sync>(
    rt: &R,
    alloc: Global,
    g: &Group,
    net: &N,
    workers: u32,
    touched: &Touched,
    members: &mut Vec<Member>,
    j: u32,
) -> Result<FetchCounts, AllocError>
    ghost logs: { Logs }
    requires { CanFetchAllAt g.now logs workers j touched.now members.old.items }
    ensures others { members.new.items ≡ slice_set members.old.items j (state_at members.new.items j) }
    ensures gains { GainsParts member_words g.now logs (others_than j members.old.items)
        (state_at members.old.items j) (state_at members.new.items j) }
    ensures parts { IfOk result (λ kept.
        Counts member_words one_each kept.parts (state_at members.old.items j) (state_at members.new.items j)) }
    ensures octets { IfOk result (λ kept. Counts member_words (size_of g.now logs) kept.octets
        (state_at members.old.items j) (state_at members.new.items j)) }
    ensures left { OnOk result
        (NothingLeft member_words (others_than j members.old.items) (state_at members.new.items j)) }
{
    let mut member = members.remove(j as usize);
    let link = MemberLink {
        others: members.as_slice(),
        net,
        asker: j,
        loss: None,
    };
    let kept = fetch_all(rt, alloc, g, &link, workers, touched, &mut member);
    put_back(members, j, member);
    kept
}

/// Each member gathers parts from the others, one after another: how many parts were received, and how many octets.
pub(crate) fn fetch_all_for_members<N: Net + Sync, R: Threads + Sync>(
    rt: &R,
    alloc: Global,
    g: &Group,
    net: &N,
    workers: u32,
    touched: &Touched,
    members: &mut Vec<Member>,
) -> Result<(u64, u64), AllocError>
    ghost begun: { World }
    requires { CanGatherAll g.now begun workers touched.now members.old.items }
    ensures parts { IfOk result (λ r. r.0 ≡ settle_new_parts begun) }
    ensures octets { IfOk result (λ r. r.1 ≡ new_parts_sum (size_of g.now (logs begun)) begun begun.members) }
    ensures members { OnOk result (in_groups members.new.items ≡ map (settled_member begun) begun.members) }
    ensures stay { StayConsistent g.now (logs begun) members.old.items members.new.items }
    ensures err { OnErr result (ArePartlySettled begun (in_groups members.new.items)) }
{
    let count = members.len() as u32;
    let mut parts = 0;
    let mut octets = 0;
    for j in 0..count {
        let came = fetch_all_at(rt, alloc, g, net, workers, touched, members, j)?;
        parts += u64::from(came.parts);
        octets += came.octets;
    }
    Ok((parts, octets))
}

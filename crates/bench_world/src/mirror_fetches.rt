// The parts that mirrors gather from members in a settle.
ghost use Rattle.std.specs.Prelude.{◌≡◌, ◌+◌, ◌<◌, ℕ, length, slice_set, IfOk, OnOk};
ghost use Rattle.repo_mirror.specs.ConsistentMirrors.{IsConsistentMirror};
ghost use Rattle.bench_world.specs.Conditions.{CanFetchAllFor, CanFetchAllForMirrors};
ghost use Rattle.bench_world.specs.MirrorSteps.{mirror_at};
ghost use Rattle.bench_world.specs.MirrorSettles.{HasSettled, HaveSettled, IsPartlySettledMirror};
ghost use Rattle.bench_world.specs.MirrorSettles.{ArePartlySettledMirrors, held_by, held_by_all};
ghost use Rattle.bench_world.specs.Worlds.{logs_around, only_members};

use crate::fetch_all::fetch_from_all;
use crate::holder::Filtering;
use crate::lending::MemberLink;
use crate::others::put_back;
use crate::touched::Touched;
use bench_net::OpenNet;
use repo_member::{Group, Member};
use repo_mirror::Mirror;
use repo_watch::Filter;
use std::alloc::{AllocError, Global};
use std::thread::Threads;
use svs_vector::Vector;

// Mirror `i` joins the vector `known` to its own, and gathers parts that members store: how many were received.
fn fetch_all_for<R: Threads + Sync>(
    rt: &R,
    alloc: Global,
    g: &Group,
    workers: u32,
    members: &[Member],
    touched: &Touched,
    known: &Vector,
    mirrors: &mut Vec<Mirror>,
    filter: &Filter,
    i: u32,
) -> Result<u32, AllocError>
    requires { CanFetchAllFor g.now workers i members.now touched.now known.now mirrors.old.items }
    ensures others { mirrors.new.items ≡ slice_set mirrors.old.items i (mirror_at mirrors.new.items i) }
    ensures consistent { IsConsistentMirror g.now (logs_around members.now) (mirror_at mirrors.new.items i) }
    ensures settled { OnOk result
        (HasSettled (only_members members.now) (mirror_at mirrors.old.items i) (mirror_at mirrors.new.items i)) }
    ensures parts { IfOk result (λ parts. parts + held_by (mirror_at mirrors.old.items i)
        ≡ held_by (mirror_at mirrors.new.items i)) }
    ensures partly { IsPartlySettledMirror
        (only_members members.now) (mirror_at mirrors.old.items i) (mirror_at mirrors.new.items i) }
{
    let mut mirror = mirrors.remove(i as usize);
    mirror.learn(known);
    let mut asking = Filtering { mirror, filter };
    // Nothing is lost in a settle, so the network isn't asked.
    let net = OpenNet::new();
    let link = MemberLink {
        others: members,
        net: &net,
        asker: 16 + i,
        loss: None,
    };
    let came = fetch_from_all(rt, alloc, g, &link, workers, touched, &mut asking);
    let Filtering { mirror, .. } = asking;
    put_back(mirrors, i, mirror);
    came
}

/// Each mirror joins the vector `known` to its own, and gathers parts that members store: how many all received.
pub(crate) fn fetch_all_for_mirrors<R: Threads + Sync>(
    rt: &R,
    alloc: Global,
    g: &Group,
    workers: u32,
    members: &[Member],
    touched: &Touched,
    known: &Vector,
    mirrors: &mut Vec<Mirror>,
    filter: &Filter,
) -> Result<u64, AllocError>
    requires { CanFetchAllForMirrors g.now workers members.now touched.now known.now mirrors.old.items }
    ensures len { length mirrors.new.items ≡ length mirrors.old.items }
    ensures consistent { (i : ℕ) → i < length mirrors.new.items
        → IsConsistentMirror g.now (logs_around members.now) (mirror_at mirrors.new.items i) }
    ensures settled { OnOk result (HaveSettled (only_members members.now) mirrors.old.items mirrors.new.items) }
    ensures parts { IfOk result (λ n. n + held_by_all mirrors.old.items ≡ held_by_all mirrors.new.items) }
    ensures partly { ArePartlySettledMirrors (only_members members.now) mirrors.old.items mirrors.new.items }
{
    let count = mirrors.len() as u32;
    let mut parts = 0;
    for i in 0..count {
        let came = fetch_all_for(
            rt, alloc, g, workers, members, touched, known, mirrors, filter, i,
        )?;
        parts += u64::from(came);
    }
    Ok(parts)
}

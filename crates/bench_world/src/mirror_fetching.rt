// What a mirror fetches from members.
ghost use Rattle.std.specs.Prelude.{◌≡◌, None, length, map, sum, slice_set, IfOk, OnOk, OnErr};
ghost use Rattle.repo_member.specs.InGroup.{parts_fetched};
ghost use Rattle.repo_mirror.specs.MirrorState.{mirror_holdings};
ghost use Rattle.bench_world.specs.Conditions.{CanFetchFor};
ghost use Rattle.bench_world.specs.Gathering.{next_parts};
ghost use Rattle.bench_world.specs.MirrorSteps.{mirror_at, mirror_fetched, mirror_fetches};

use crate::fetch::fetch_of_all;
use crate::holder::Filtering;
use crate::lending::MemberLink;
use crate::others::put_back;
use bench_net::Net;
use repo_member::{Group, Member};
use repo_mirror::Mirror;
use repo_watch::Filter;
use std::alloc::{AllocError, Global};
use std::thread::Threads;

/// Mirror `i` fetches parts from members: how many were asked for, how many were received, and how many attempts were
/// made. To the network the mirror has the number 16 + `i`.
pub(crate) fn fetch_for<N: Net + Sync, R: Threads + Sync>(
    rt: &R,
    alloc: Global,
    g: &Group,
    net: &N,
    workers: u32,
    members: &[Member],
    mirrors: &mut Vec<Mirror>,
    filter: &Filter,
    i: u32,
    tries: u32,
    loss: u32,
) -> Result<(u32, u32, u64), AllocError>
    requires { CanFetchFor g.now workers tries i members.now mirrors.old.items }
    ensures ok { OnOk result (mirrors.new.items ≡ slice_set mirrors.old.items i
        (mirror_fetches (N.passes net.now) members.now i tries loss (mirror_at mirrors.old.items i))) }
    ensures planned { IfOk result
        (λ r. r.0 ≡ length (next_parts None (mirror_holdings (mirror_at mirrors.old.items i)))) }
    ensures parts { IfOk result (λ r. r.1 ≡ length (parts_fetched
        (mirror_fetched (N.passes net.now) members.now i tries loss (mirror_at mirrors.old.items i)))) }
    ensures attempts { IfOk result (λ r. r.2 ≡ sum (map (λ x. x.attempts)
        (mirror_fetched (N.passes net.now) members.now i tries loss (mirror_at mirrors.old.items i)))) }
    ensures err { OnErr result (mirrors.new.items ≡ mirrors.old.items) }
{
    let mirror = mirrors.remove(i as usize);
    let mut asking = Filtering { mirror, filter };
    let link = MemberLink {
        others: members,
        net,
        asker: 16 + i,
        loss: Some(loss),
    };
    let fetched = fetch_of_all(rt, alloc, g, &link, workers, tries, &mut asking);
    let Filtering { mirror, .. } = asking;
    put_back(mirrors, i, mirror);
    fetched
}

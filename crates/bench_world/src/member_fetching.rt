// What a member fetches from the others.
ghost use Rattle.std.specs.Prelude.{◌≡◌, length, IfOk, OnOk, OnErr};
ghost use Rattle.group_model.specs.World.{World, logs};
ghost use Rattle.group_model.specs.Steps.{after_fetch};
ghost use Rattle.bench_world.specs.Serving.{environment};
ghost use Rattle.bench_world.specs.Counts.{AreFetchCounts};
ghost use Rattle.bench_world.specs.Conditions.{CanFetchAt};
ghost use Rattle.bench_world.specs.Worlds.{in_groups};
ghost use Rattle.bench_world.specs.Worlds.{AreConsistentMembers, MembersAreNumbered};

use crate::fetch::{FetchReport, fetch};
use crate::lending::MemberLink;
use crate::others::put_back;
use bench_net::Net;
use repo_member::{Group, Member};
use std::alloc::{AllocError, Global};
use std::thread::Threads;

/// Member `j` fetches parts from the others.
pub(crate) fn fetch_at<N: Net + Sync, R: Threads + Sync>(
    rt: &R,
    alloc: Global,
    g: &Group,
    net: &N,
    workers: u32,
    members: &mut Vec<Member>,
    j: u32,
    tries: u32,
    loss: u32,
) -> Result<FetchReport, AllocError>
    ghost begun: { World }
    requires { CanFetchAt g.now begun workers tries j members.old.items }
    ensures members { OnOk result (in_groups members.new.items
        ≡ (after_fetch (environment g.now (λ _ _. 0) (N.passes net.now)) begun j tries loss).members) }
    ensures counts { IfOk result
        (AreFetchCounts g.now (environment g.now (λ _ _. 0) (N.passes net.now)) begun j tries loss) }
    ensures len { length members.new.items ≡ length members.old.items }
    ensures consistent { AreConsistentMembers g.now (logs begun) members.new.items }
    ensures numbers { MembersAreNumbered members.new.items }
    ensures err { OnErr result (members.new.items ≡ members.old.items) }
{
    let mut member = members.remove(j as usize);
    let link = MemberLink {
        others: members.as_slice(),
        net,
        asker: j,
        loss: Some(loss),
    };
    let fetched = fetch(rt, alloc, g, &link, workers, tries, &mut member);
    put_back(members, j, member);
    fetched
}

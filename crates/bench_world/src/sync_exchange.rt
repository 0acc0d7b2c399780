// The sync Interests that members exchange in a settle.
ghost use Rattle.std.specs.Prelude.{◌≡◌, ◌≤◌, ◌<◌, ℕ, length, map, slice_index, IfOk};
ghost use Rattle.svs_vector.specs.Vectors.{join_all};
ghost use Rattle.group_model.specs.Publications.{Logs};
ghost use Rattle.repo_member.specs.MemberState.{member_learns, member_ends_claims};
ghost use Rattle.bench_world.specs.Conditions.{CanTell};
ghost use Rattle.bench_world.specs.Worlds.{state_at, tells};
ghost use Rattle.bench_world.specs.Settling.{sent_sync};

use crate::numbers::numbers;
use repo_member::{Group, Member};
use std::alloc::{AllocError, Global};
use svs_vector::Vector;

/// A member's sync Interest, with its vector.
#[derive(Drop)]
pub(crate) struct MemberSync {
    pub(crate) sender: u32,
    pub(crate) vector: Vec<u16>,
    pub(crate) octets: Vec<u8>,
}

/// The sync Interest of each member now, with its vector.
pub(crate) fn tell_all(
    alloc: Global,
    g: &Group,
    members: &[Member],
) -> Result<Vec<MemberSync>, AllocError>
    ghost logs: { Logs }
    requires { CanTell g.now logs members.now }
    ensures { IfOk result (λ syncs. map sent_sync syncs.items ≡ map (tells g.now) members.now) }
{
    let mut syncs = Vec::with_capacity(alloc, members.len())?;
    let mut sender = 0;
    for member in members {
        let vector = numbers(alloc, member.vector())?;
        let octets = member.sync(alloc, g)?;
        syncs.push(MemberSync {
            sender,
            vector,
            octets,
        })?;
        sender += 1;
    }
    Ok(syncs)
}

/// The join of all members' vectors.
pub(crate) fn all_known(alloc: Global, members: &[Member]) -> Result<Vector, AllocError>
    requires { (j : ℕ) → j < length members.now → length (state_at members.now j).known ≡ length members.now }
    ensures { IfOk result (λ all. all ≡ join_all (map (λ a. a.known) members.now)) }
{
    let mut all = Vector::new(alloc, members.len())?;
    for member in members {
        all.join(member.vector());
    }
    Ok(all)
}

/// All claims end, and every member joins the vector `known` to its own. It allocates nothing.
pub(crate) fn learn_all(known: &Vector, members: &mut Vec<Member>)
    requires few { length known.now ≤ 16 }
    requires width { (j : ℕ) → j < length members.old.items
        → length (state_at members.old.items j).known ≡ length known.now }
    requires own { (j : ℕ) → j < length members.old.items
        → slice_index known.now (state_at members.old.items j).number ≤ length (state_at members.old.items j).log }
    ensures len { length members.new.items ≡ length members.old.items }
    ensures each { (j : ℕ) → j < length members.old.items
        → state_at members.new.items j ≡ member_learns known.now (member_ends_claims (state_at members.old.items j)) }
{
    for member in members.iter_mut() {
        member.end_claims();
        // The vector `known` reports no publication of a member that the member didn't make.
        member.join_vector(known);
    }
}

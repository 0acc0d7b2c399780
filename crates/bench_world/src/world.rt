ghost use Rattle.std.specs.Prelude.{◌≡◌, ◌+◌, ◌<◌, length, [], IfOk};
ghost use Rattle.group_model.specs.World.{initial_world, member, catalogue_at};
ghost use Rattle.group_model.specs.Sound.{IsSoundGroup};
ghost use Rattle.repo_member.specs.Listed.{member_catalogue};
ghost use Rattle.bench_world.specs.Worlds.{world_of, state_at, drawing, begun_all, IsConsistentState};

mod blocks;
mod claiming;
mod commanding;
mod fetching;
mod mirror_settling;
mod mirrors;
mod publishing;
mod reading;
mod serving;
mod settling;
mod showing;
mod syncing;

use crate::issued::IssuedCommands;
use crate::unsettled::Unsettled;
use bench_net::{Draws, Sent, Tally};
pub use mirrors::MirrorFault;
use repo_member::{Group, Member};
use repo_mirror::Mirror;
use std::alloc::{AllocError, Global};
use std::marker::Model;

/// All members of a group and its mirrors, with what was sent between members, the time, and what was counted.
///
/// A step that is refused or runs out of memory has changed nothing, except a settle that ran out of memory.
pub struct World {
    alloc: Global,
    group: Group,
    members: Vec<Member>,
    sent: Sent,
    time: u64,
    issued: IssuedCommands,
    delivered: u64,
    attempts: u64,
    parts: u64,
    octets: u64,
    steps: u32,
    mirrors: Vec<Mirror>,
    unsettled: Unsettled,
}

// A world is dropped by one call, which is proved once, and not field by field wherever one goes out of scope.
impl Drop for World {
    fn drop(self) {
        let World {
            alloc: _,
            group: _,
            members: _,
            sent: _,
            time: _,
            issued: _,
            delivered: _,
            attempts: _,
            parts: _,
            octets: _,
            steps: _,
            mirrors: _,
            unsettled: _,
        } = self;
    }
}

// Contracts see a world as its members by themselves and what was sent (`GroupState`). `world_of` makes the model's
// world of that.
impl Model for World {
    ghost use Rattle.bench_world.specs.Worlds.{GroupState};

    ghost Value = { GroupState };

    ghost use Rattle.bench_world.specs.Kept.{world_state, IsWorld};

    ghost view = { world_state };

    ghost invariant = { IsWorld };
}

impl World {
    /// The members of a group before anything has happened, each with its first draw. The time is 0.
    pub fn new<D: Draws>(alloc: Global, group: Group, draws: &D) -> Result<World, AllocError>
        ensures world { IfOk result (λ world.
            world_of world ≡ initial_world (drawing (D.draw draws.now)) (length group.members.names)) }
        ensures keys { IfOk result (λ world. world.keys ≡ group) }
        ensures steps { IfOk result (λ world. world.steps ≡ 0) }
        ensures mirrors { IfOk result (λ world. world.mirrors ≡ []) }
    {
        let members = begin_all(alloc, &group, draws)?;
        group.cite_soundness();
        Ok(World {
            alloc,
            group,
            members,
            sent: Sent::new(alloc),
            time: 0,
            issued: IssuedCommands::new(alloc),
            delivered: 0,
            attempts: 0,
            parts: 0,
            octets: 0,
            steps: 0,
            mirrors: Vec::new(alloc),
            unsettled: Unsettled::all(alloc),
        })
    }

    /// How many steps were made, and settles begun.
    pub fn steps(&self) -> u32
        ensures { result ≡ self.now.steps }
    {
        self.steps
    }

    /// A member, whose catalogue is the group's catalogue of it.
    pub fn member(&self, m: u32) -> &Member
        requires there { m < length self.now.members }
        ensures same { result.now ≡ state_at self.now.members m }
        ensures catalogue { member_catalogue result.now.store ≡ catalogue_at (world_of self.now) m }
    {
        &self.members[m as usize]
    }

    pub fn group(&self) -> &Group
        ensures { result.now ≡ self.now.keys }
    {
        &self.group
    }

    /// The time, in milliseconds.
    pub fn now(&self) -> u64
        ensures { result ≡ self.now.time }
    {
        self.time
    }

    pub fn tally(&self) -> Tally
        ensures syncs { result.syncs ≡ length self.now.sent }
        ensures delivered { result.delivered ≡ self.now.tally.delivered }
        ensures attempts { result.attempts ≡ self.now.tally.attempts }
        ensures parts { result.parts ≡ self.now.tally.parts }
        ensures octets { result.octets ≡ self.now.tally.octets }
    {
        Tally {
            syncs: self.sent.len() as u64,
            delivered: self.delivered,
            attempts: self.attempts,
            parts: self.parts,
            octets: self.octets,
        }
    }

    /// How often a member has published, objects and withdrawals.
    pub fn published(&self, m: u32) -> u32
        requires there { m < length self.now.members }
        ensures { result ≡ length (member (world_of self.now) m).log }
    {
        self.members[m as usize].log_len()
    }

    // Counts one step more, and changes nothing else.
    fn count(&mut self)
        requires { self.old.steps < 100000 }
        ensures world { world_of self.new ≡ world_of self.old }
        ensures steps { self.new.steps ≡ self.old.steps + 1 }
        ensures keys { self.new.keys ≡ self.old.keys }
        ensures mirrors { self.new.mirrors ≡ self.old.mirrors }
    {
        self.steps += 1;
    }

    /// What holds of every world. Costs nothing, and is called for its clauses.
    pub fn cite_soundness(&self)
        ensures names { length self.now.members ≡ length self.now.keys.members.names }
        ensures sound { IsSoundGroup (world_of self.now) }
        ensures consistent { IsConsistentState self.now }
    {
        let _ = &self.members;
    }

    /// How many members there are.
    pub fn members(&self) -> usize
        ensures len { result ≡ length self.now.members }
    {
        self.members.len()
    }
}

// The members of a group, which have nothing yet.
fn begin_all<D: Draws>(alloc: Global, g: &Group, draws: &D) -> Result<Vec<Member>, AllocError>
    ensures { IfOk result (λ members. members.items
        ≡ begun_all (length g.now.members.names) (D.draw draws.now)) }
{
    g.cite_soundness();
    let count = g.roster().len() as u32;
    let mut members = Vec::with_capacity(alloc, count as usize)?;
    for number in 0..count {
        let draw = draws.draw(number, 0);
        let member = Member::new(alloc, g, number, 0, draw)?;
        members.push(member)?;
    }
    Ok(members)
}

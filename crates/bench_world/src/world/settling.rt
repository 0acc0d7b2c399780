// The sync Interests that members exchange in a settle, and what they fetch from each other.
ghost use Rattle.std.specs.Prelude.{◌≡◌, ◌+◌, ◌<◌, ◌≤◌, IfOk, OnOk, OnErr};
ghost use Rattle.group_model.specs.Laws.{NothingDeleted, AllJoined};
ghost use Rattle.group_model.specs.Steps.{after_gathering, settle_new_parts};
ghost use Rattle.bench_world.specs.Serving.{environment, lossless};
ghost use Rattle.bench_world.specs.Worlds.{world_of};
ghost use Rattle.bench_world.specs.Runs.{HaveSettledPartly};
ghost use Rattle.bench_world.specs.CarryingOut.{KeepsKeysAndMirrors};
ghost use Rattle.bench_world.specs.EventValues.{EventValue};
ghost use Rattle.bench_world.specs.Runs.{IsStep};

use super::World;
use crate::event::{EventError, Happened};
use crate::settling::{reset_all, send_all, settle_members};
use crate::touched::Touched;
use bench_net::{Draws, Net};
use std::alloc::AllocError;
use std::thread::Threads;

impl World {
    /// All claims end. Each member joins all vectors to its own, and gains every part that some member holds with its
    /// record and that it hasn't deleted: how many parts were gained. The sync states aren't reset, which the step of a
    /// settle does.
    ///
    /// The network is asked, but its answers decide nothing. After running out of memory each member is partly settled.
    pub fn settle<N: Net + Sync, R: Threads + Sync>(
        &mut self,
        rt: &R,
        workers: u32,
        net: &N,
    ) -> Result<u64, AllocError>
        requires workers { (1 ≤ workers) × (workers ≤ 16) }
        requires few { self.old.steps < 100000 }
        ensures world { OnOk result (world_of self.new ≡ after_gathering (lossless self.old.keys) (world_of self.old)) }
        ensures parts { IfOk result (λ parts. parts ≡ settle_new_parts (world_of self.old)) }
        // Where nothing is deleted, each catalogue is the join of all publications.
        ensures joined { OnOk result (NothingDeleted (world_of self.new) → AllJoined (world_of self.new)) }
        ensures steps { self.new.steps ≡ self.old.steps + 1 }
        ensures keeps { KeepsKeysAndMirrors self.old self.new }
        ensures err { OnErr result (HaveSettledPartly self.old self.new) }
    {
        self.steps += 1;
        self.sent.reserve(self.members.len())?;
        let settled = settle_members(
            rt,
            self.alloc,
            &self.group,
            net,
            workers,
            &self.unsettled.members,
            &mut self.members,
        )?;
        let (syncs, parts, octets) = settled;
        self.unsettled.members = Touched::none(self.alloc);
        send_all(&mut self.sent, syncs);
        let count = self.members.len() as u64;
        self.delivered += count * count.saturating_sub(1);
        self.parts += parts;
        self.octets += octets;
        Ok(parts)
    }

    /// The step of a settle: each sync state starts again afterwards, with its member's next draw.
    pub(crate) fn settle_step<N: Net + Sync, D: Draws, R: Threads + Sync>(
        &mut self,
        rt: &R,
        workers: u32,
        net: &N,
        draws: &D,
    ) -> Result<Happened, EventError>
        requires workers { (1 ≤ workers) × (workers ≤ 16) }
        requires few { self.old.steps < 100000 }
        ensures { IsStep (environment self.old.keys (D.draw draws.now) (N.passes net.now)) (EventValue.Settle workers)
            self.old result self.new }
    {
        let syncs = self.members.len() as u64;
        let Ok(kept) = self.settle(rt, workers, net) else {
            return Err(EventError::NoMemory);
        };
        reset_all(&mut self.members, self.time, draws);
        Ok(Happened::Settle { syncs, kept })
    }
}

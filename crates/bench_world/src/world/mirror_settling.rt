// What mirrors gain in a settle.
ghost use Rattle.std.specs.Prelude.{ℕ, ◌≡◌, ◌+◌, ◌<◌, ◌≤◌, length, IfOk, OnOk, OnErr};
ghost use Rattle.group_model.specs.Laws.{NothingDeleted};
ghost use Rattle.bench_world.specs.MirrorSteps.{mirror_at};
ghost use Rattle.bench_world.specs.MirrorSettles.{HaveSettled, ListsItsJoin, ArePartlySettledMirrors, held_by_all};
ghost use Rattle.bench_world.specs.Worlds.{world_of};

use super::World;
use crate::mirror_fetches::fetch_all_for_mirrors;
use crate::sync_exchange::all_known;
use crate::touched::Touched;
use repo_watch::Filter;
use std::alloc::AllocError;
use std::thread::Threads;

impl World {
    /// Each mirror joins all members' vectors to its own, and gains every part that its pattern accepts and that some
    /// member holds with those that list it: how many parts were gained. Attempts aren't counted, and nothing is asked
    /// of the network.
    ///
    /// After running out of memory each mirror is partly settled.
    pub fn settle_mirrors<R: Threads + Sync>(
        &mut self,
        rt: &R,
        workers: u32,
        filter: &Filter,
    ) -> Result<u64, AllocError>
        requires workers { (1 ≤ workers) × (workers ≤ 16) }
        ensures same { self.new ≡ record self.old { mirrors = self.new.mirrors } }
        ensures len { length self.new.mirrors ≡ length self.old.mirrors }
        ensures settled { OnOk result (HaveSettled (world_of self.old) self.old.mirrors self.new.mirrors) }
        ensures parts { IfOk result (λ n. n + held_by_all self.old.mirrors ≡ held_by_all self.new.mirrors) }
        // Where nothing is deleted, each catalogue is what the mirror's pattern accepts of the join of publications.
        ensures joined { OnOk result (NothingDeleted (world_of self.old) → (i : ℕ) → i < length self.new.mirrors
            → ListsItsJoin (world_of self.old) (mirror_at self.new.mirrors i)) }
        ensures err { OnErr result
            (ArePartlySettledMirrors (world_of self.old) self.old.mirrors self.new.mirrors) }
    {
        let known = all_known(self.alloc, self.members.as_slice())?;
        let parts = fetch_all_for_mirrors(
            rt,
            self.alloc,
            &self.group,
            workers,
            self.members.as_slice(),
            &self.unsettled.mirrors,
            &known,
            &mut self.mirrors,
            filter,
        )?;
        self.unsettled.mirrors = Touched::none(self.alloc);
        Ok(parts)
    }
}

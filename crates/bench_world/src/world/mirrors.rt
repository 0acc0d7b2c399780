// The mirrors of a group.
ghost use Rattle.std.specs.Prelude.{◌≡◌, ◌⊎◌, ◌↔◌, ◌+◌, ◌++◌, ◌∷◌, [], ◌<◌, ◌≤◌, None, Some, Err, length};
ghost use Rattle.std.specs.Prelude.{slice_set, IfOk, IfErr, OnOk, OnErr};
ghost use Rattle.group_model.specs.World.{sent_at, logs};
ghost use Rattle.group_model.specs.Refusals.{unless_sent};
ghost use Rattle.group_model.specs.Refusals.Refusal.{NoSuchPacket};
ghost use Rattle.repo_mirror.specs.Mirrors.{mirror_catalogue};
ghost use Rattle.repo_holdings.specs.Listed.{member_catalogue};
ghost use Rattle.repo_mirror.specs.MirrorState.{initial_mirror};
ghost use Rattle.repo_mirror.specs.ConsistentMirrors.{mirror_in_group};
ghost use Rattle.bench_world.specs.MirrorSteps.{mirror_limit, mirror_at, mirror_learns, mirror_fetches};
ghost use Rattle.bench_world.specs.MirrorFetching.{HasFetched, AreMirrorCounts};
ghost use Rattle.bench_world.specs.Worlds.{world_of};

use super::World;
use crate::event::{EventError, StepFault};
use crate::mirror_fetching::fetch_for;
use crate::numbers::vector_of;
use crate::touched::Touched;
use bench_net::Net;
use repo_catalog::Catalogue;
use repo_mirror::Mirror;
use repo_watch::{Filter, Pattern};
use std::alloc::AllocError;
use std::thread::Threads;

/// How many mirrors a group has at most.
const MIRROR_LIMIT: usize = 4;

/// Why a mirror was not added.
#[derive(Clone, Copy, Debug, PartialEq, Eq)]
pub enum MirrorFault {
    Full,
    NoMemory,
}

impl MirrorFault {
    /// Out of memory: the only fault there can be, where there is a place for the mirror.
    pub fn only_memory(self) -> AllocError
        requires { self ≡ MirrorFault.NoMemory }
    {
        AllocError
    }
}

impl From<AllocError> for MirrorFault {
    ghost use Rattle.std.specs.Prelude.{◌≡◌};
    ghost use Rattle.bench_world.specs.declared.world.mirrors.MirrorFault.TheVariants.{NoMemory};

    ghost from_gives = { λ _ fault. fault ≡ NoMemory };

    fn from(_: AllocError) -> MirrorFault {
        MirrorFault::NoMemory
    }
}

impl World {
    /// Adds a mirror, which knows of nothing. The result is its number, from 0 on.
    pub fn add_mirror(&mut self, pattern: Pattern) -> Result<u32, MirrorFault>
        ensures full { (result ≡ Err MirrorFault.Full) ↔ (mirror_limit ≤ length self.old.mirrors) }
        ensures number { IfOk result (λ i. i ≡ length self.old.mirrors) }
        ensures ok { OnOk result (self.new ≡ record self.old {
          mirrors = self.old.mirrors ++ initial_mirror pattern (length self.old.members) ∷ [];
        }) }
        ensures err { OnErr result (self.new ≡ self.old) }
    {
        if self.mirrors.len() >= MIRROR_LIMIT {
            return Err(MirrorFault::Full);
        }
        let number = self.mirrors.len() as u32;
        let mirror = Mirror::new(self.alloc, self.members.len(), pattern)?;
        put_last(&mut self.mirrors, mirror)?;
        self.unsettled.mirrors = Touched::all(self.alloc);
        Ok(number)
    }

    /// Mirror `i` joins the vector of the sync Interest of number `k` to its own. A refusal has its name.
    pub fn mirror_learns(&mut self, i: u32, k: u32) -> Result<(), EventError>
        requires there { i < length self.old.mirrors }
        ensures sent { OnOk result (unless_sent (world_of self.old) k ≡ None) }
        ensures ok { OnOk result (self.new ≡ record self.old {
          mirrors = slice_set self.old.mirrors i
              (mirror_learns (sent_at (world_of self.old) k).vector (mirror_at self.old.mirrors i));
        }) }
        ensures unsent { (result ≡ Err EventError.NoSuchPacket)
            ↔ (unless_sent (world_of self.old) k ≡ Some NoSuchPacket) }
        ensures refused { IfErr result (λ fault. (fault ≡ EventError.NoMemory) ⊎ (fault ≡ EventError.NoSuchPacket)) }
        ensures err { OnErr result (self.new ≡ self.old) }
    {
        let Some(numbers) = self.sent.vector(k) else {
            return Err(EventError::NoSuchPacket);
        };
        let received = vector_of(self.alloc, numbers)?;
        let mirror = &mut self.mirrors[i as usize];
        mirror.learn(&received);
        Ok(())
    }

    /// Mirror `i` joins the vector of the sync Interest of number `k` to its own. It is refused, by number 5, where no
    /// such packet was sent.
    pub fn mirror_deliver(&mut self, i: u32, k: u32) -> Result<(), StepFault>
        requires there { i < length self.old.mirrors }
        ensures sent { OnOk result (unless_sent (world_of self.old) k ≡ None) }
        ensures ok { OnOk result (self.new ≡ record self.old {
          mirrors = slice_set self.old.mirrors i
              (mirror_learns (sent_at (world_of self.old) k).vector (mirror_at self.old.mirrors i));
        }) }
        ensures unsent { (result ≡ Err (StepFault.Refused 5))
            ↔ (unless_sent (world_of self.old) k ≡ Some NoSuchPacket) }
        ensures refused { IfErr result (λ fault. (fault ≡ StepFault.NoMemory) ⊎ (fault ≡ StepFault.Refused 5)) }
        ensures err { OnErr result (self.new ≡ self.old) }
    {
        Ok(self.mirror_learns(i, k)?)
    }

    /// Mirror `i` asks the members for the least 4,096 parts that it wants, with at most `tries` attempts at each: how
    /// many were asked for, how many were received, and how many attempts were made. To the network the mirror has the
    /// number 16 + `i`.
    pub fn mirror_fetch<N: Net + Sync, R: Threads + Sync>(
        &mut self,
        rt: &R,
        i: u32,
        workers: u32,
        tries: u32,
        loss: u32,
        net: &N,
        filter: &Filter,
    ) -> Result<(u32, u32, u64), AllocError>
        requires there { i < length self.old.mirrors }
        requires workers { (1 ≤ workers) × (workers ≤ 16) }
        requires tries { (1 ≤ tries) × (tries ≤ 16) }
        requires few { self.old.steps < 100000 }
        ensures ok { OnOk result (self.new ≡ record self.old {
          mirrors = slice_set self.old.mirrors i
              (mirror_fetches (N.passes net.now) self.old.members i tries loss (mirror_at self.old.mirrors i));
          steps = self.old.steps + 1;
        }) }
        // As the model has it: of the parts that were asked for, just those that were received are held too.
        ensures fetched { OnOk result (HasFetched (N.passes net.now) (world_of self.old) i tries loss
            (mirror_at self.old.mirrors i) (mirror_at self.new.mirrors i)) }
        ensures counts { IfOk result (AreMirrorCounts (N.passes net.now) (world_of self.old) i tries loss
            (mirror_at self.old.mirrors i)) }
        ensures err { OnErr result (self.new ≡ self.old) }
    {
        let counts = fetch_for(
            rt,
            self.alloc,
            &self.group,
            net,
            workers,
            self.members.as_slice(),
            &mut self.mirrors,
            filter,
            i,
            tries,
            loss,
        )?;
        self.steps += 1;
        Ok(counts)
    }

    /// What a mirror's catalogue lists: the objects that its pattern accepts, of which it holds every part and no
    /// withdrawal.
    pub fn mirror_catalogue(&self, i: u32) -> &Catalogue
        requires there { i < length self.now.mirrors }
        ensures same { result.now.entries ≡ member_catalogue (mirror_at self.now.mirrors i).store }
        ensures lists { result.now.entries ≡ mirror_catalogue (mirror_at self.now.mirrors i).pattern
            (logs (world_of self.now)) (mirror_in_group (mirror_at self.now.mirrors i)) }
    {
        self.mirrors[i as usize].catalogue()
    }
}

// Puts a mirror after the others.
fn put_last(mirrors: &mut Vec<Mirror>, mirror: Mirror) -> Result<(), AllocError>
    ensures ok { OnOk result (mirrors.new.items ≡ mirrors.old.items ++ mirror ∷ []) }
    ensures err { OnErr result (mirrors.new.items ≡ mirrors.old.items) }
{
    mirrors.push(mirror)?;
    Ok(())
}

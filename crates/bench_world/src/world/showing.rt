// What the lab shows of a world.
ghost use Rattle.std.specs.Prelude.{◌≡◌, ◌<◌, ◌≤◌, length};
ghost use Rattle.bench_world.specs.Worlds.{world_of};
ghost use Rattle.bench_world.specs.MirrorSteps.{mirror_at};
ghost use Rattle.std.specs.Option.{option_map};
ghost use Rattle.bench_world.specs.Showing.{sender_at, sync_octets_at};

use super::World;
use repo_mirror::Mirror;

impl World {
    /// The member that sent the sync Interest of number `k`, counted from 1; none where no such sync Interest was sent.
    pub fn sender(&self, k: u32) -> Option<u32>
        ensures { result ≡ sender_at (world_of self.now) k }
    {
        self.sent.sender(k)
    }

    /// The octets of the sync Interest of number `k`, counted from 1; none where no such sync Interest was sent.
    pub fn sync_octets(&self, k: u32) -> Option<&[u8]>
        ensures { option_map (λ octets. octets.now) result ≡ sync_octets_at self.now.keys (world_of self.now) k }
    {
        self.sent.octets(k)
    }

    /// How many mirrors there are.
    pub fn mirrors(&self) -> usize
        ensures len { result ≡ length self.now.mirrors }
        ensures few { result ≤ 4 }
    {
        self.mirrors.len()
    }

    /// A mirror, by its number from 0 on.
    pub fn mirror(&self, i: u32) -> &Mirror
        requires there { i < length self.now.mirrors }
        ensures { result.now ≡ mirror_at self.now.mirrors i }
    {
        &self.mirrors[i as usize]
    }
}

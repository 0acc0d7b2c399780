ghost use Rattle.std.specs.Prelude.{◌≡◌, ◌<◌, ◌≤◌, length};
ghost use Rattle.group_model.specs.World.{catalogue_at};
ghost use Rattle.bench_world.specs.Worlds.{world_of};
ghost use Rattle.lab_seeds.specs.Counted.{figures_of, listed_entries};

use crate::figures::Figures;
use bench_world::World;

// The figures of a world.
pub(crate) fn figures_of(world: &World) -> Figures
    ensures { result ≡ figures_of (world_of world.now) }
{
    let tally = world.tally();
    Figures {
        syncs: tally.syncs,
        delivered: tally.delivered,
        attempts: tally.attempts,
        parts: tally.parts,
        octets: tally.octets,
        listed: listed_entries(world),
    }
}

// How many entries all members' catalogues list.
fn listed_entries(world: &World) -> u64
    ensures { result ≡ listed_entries (world_of world.now) }
{
    world.cite_soundness();
    let count = world.group().roster().len() as u32;
    let mut listed = 0;
    for member in 0..count {
        listed += entries_of(world, member);
    }
    listed
}

// How many entries a member's catalogue lists.
fn entries_of(world: &World, member: u32) -> u64
    requires { member < length world.now.members }
    ensures count { result ≡ length (catalogue_at (world_of world.now) member) }
    ensures few { result ≤ 100000 }
{
    world.cite_soundness();
    world.member(member).catalogue().entries().len() as u64
}

ghost use Rattle.std.specs.Prelude.{◌≡◌, length};

use crate::expect::{is, same, same_octets};
use crate::member::three_members;
use bench_net::{FixedDraws, OpenNet};
use bench_world::{Event, StepFault, World};
use repo_member::Group;
use std::process::Abort;
use std::test::*;
use std::thread::Threads;

// A world counts its steps, settles that were begun among them, and knows its group.
#[test]
fn a_world_counts_its_steps(rt: HostRuntime) {
    let draws = FixedDraws::new(100);
    let mut world = World::new(rt.alloc(), three_members(&rt), &draws).expect(&rt, "memory");
    makes_two_steps(&rt, &mut world, &draws);
    is_of_three(&rt, world.group());
}

fn makes_two_steps(rt: &(impl Threads + Abort + Sync), world: &mut World, draws: &FixedDraws)
    requires members { length world.old.keys.members.names ≡ 3 }
    requires steps { world.old.steps ≡ 0 }
{
    let net = OpenNet::new();
    let later = Event::Advance { ms: 5 };
    is(rt, world.step(rt, &later, &net, draws).is_ok(), "step");
    assert_eq!(rt; world.steps(), 1);
    // Nothing was sent, so this is refused and counts for no step.
    let unsent = Event::Deliver { k: 1, m: 0 };
    match world.step(rt, &unsent, &net, draws) {
        Err(fault) => is(rt, fault == StepFault::Refused { number: 5 }, "not sent"),
        Ok(_) => panic!(rt; "nothing was sent"),
    }
    assert_eq!(rt; world.steps(), 1);
    same(rt, world.settle(rt, 2, &net), Ok(0), "settle");
    assert_eq!(rt; world.steps(), 2);
}

fn is_of_three(rt: &impl Abort, group: &Group) {
    same(rt, group.roster().len(), 3, "roster");
    same_octets(rt, group.name().octets(), b"\x08\x01g", "name");
}

// What mirrors of a world hear, fetch and list.
ghost use Rattle.std.specs.Prelude.{◌≡◌, ◌==◌, ◌+◌, ◌<◌, ◌≤◌, [], length};

use crate::expect::{is, same};
use crate::member::three_members;
use crate::watch::is_for;
use bench_net::{FixedDraws, Net, OpenNet, TableNet};
use bench_world::{Event, MirrorFault, StepFault, World};
use ndn_name::Name;
use repo_catalog::Catalogue;
use repo_object::is_object_name;
use repo_watch::{Filter, Pattern};
use std::process::Abort;
use std::test::*;
use std::thread::Threads;

const ALICE: u32 = 0;

const BOB: u32 = 1;

// The network that passes every attempt of one asker, and none of others.
struct OneAskerNet {
    asker: u32,
}

impl Net for OneAskerNet {
    ghost passes = { λ net asker publisher seq part attempt loss. asker == net.asker };

    fn passes(
        &self,
        asker: u32,
        _publisher: u32,
        _seq: u32,
        _part: u32,
        _attempt: u32,
        _loss: u32,
    ) -> bool {
        asker == self.asker
    }
}

// A member publishes three octets in one segment.
fn publish<R: Threads + Abort + AllocGlobal + Sync>(
    rt: &R,
    world: &mut World,
    draws: &FixedDraws,
    m: u32,
    text: &str,
)
    requires there { m < 3 }
    requires members { length world.old.keys.members.names ≡ 3 }
    requires few { world.old.steps < 1000 }
    ensures members { length world.new.keys.members.names ≡ 3 }
    ensures steps { world.new.steps ≡ world.old.steps + 1 }
    ensures mirrors { world.new.mirrors ≡ world.old.mirrors }
{
    let name = Name::from_uri(rt.alloc(), text).expect(rt, "a name");
    assert!(rt; is_object_name(&name.view()));
    let event = Event::Publish {
        m,
        name,
        size: 10,
        content: b"abc".to_vec(rt.alloc()).expect(rt, "memory"),
    };
    match world.step(rt, &event, &OpenNet::new(), draws) {
        Ok(_) => {}
        Err(_) => panic!(rt; "nothing refuses it"),
    }
}

// The world of alice, bob and carol, of whom alice has published two objects and then bob one.
fn published<R: Threads + Abort + AllocGlobal + Sync>(rt: &R) -> World
    ensures steps { result.steps ≡ 3 }
    ensures mirrors { result.mirrors ≡ [] }
{
    let draws = FixedDraws::new(100);
    let mut world = World::new(rt.alloc(), three_members(rt), &draws).expect(rt, "memory");
    publish(rt, &mut world, &draws, ALICE, "/doc/a");
    publish(rt, &mut world, &draws, ALICE, "/x");
    publish(rt, &mut world, &draws, BOB, "/doc/b");
    world
}

// The next mirror, of this number.
fn add(
    rt: &(impl Abort + AllocGlobal),
    world: &mut World,
    publisher: Option<u32>,
    prefix: &str,
    number: u32,
)
    ensures len { length world.new.mirrors ≡ length world.old.mirrors + 1 }
    ensures steps { world.new.steps ≡ world.old.steps }
{
    let prefix = Name::from_uri(rt.alloc(), prefix).expect(rt, "a name");
    match world.add_mirror(Pattern { publisher, prefix }) {
        Ok(added) => same(rt, added, number, "added"),
        Err(_) => panic!(rt; "memory"),
    }
}

// The mirror hears what was sent under that number. Nothing was sent under number 4.
fn tell(rt: &impl Abort, world: &mut World, i: u32, k: u32)
    requires there { i < length world.old.mirrors }
    ensures len { length world.new.mirrors ≡ length world.old.mirrors }
    ensures steps { world.new.steps ≡ world.old.steps }
{
    is(rt, world.mirror_deliver(i, k).is_ok(), "sent");
    is(
        rt,
        world.mirror_deliver(i, 4) == Err(StepFault::Refused { number: 5 }),
        "not sent",
    );
}

// A fetch by two workers, who try each part once, has these counts.
fn compare_fetch<R: Threads + Abort + Sync>(
    rt: &R,
    world: &mut World,
    i: u32,
    net: &(impl Net + Sync),
    filter: &Filter,
    counts: (u32, u32, u64),
)
    requires there { i < length world.old.mirrors }
    requires few { world.old.steps < 1000 }
    ensures len { length world.new.mirrors ≡ length world.old.mirrors }
    ensures steps { world.new.steps ≤ world.old.steps + 1 }
{
    match world.mirror_fetch(rt, i, 2, 1, 0, net, filter) {
        Ok(came) => same(rt, came, counts, "came"),
        Err(_) => panic!(rt; "memory"),
    }
}

// The mirror lists these objects of publishers, by number and name.
fn compare_entries(
    rt: &(impl Abort + AllocGlobal),
    catalogue: &Catalogue,
    entries: &[(u32, u16, &str)],
) {
    same(rt, catalogue.entries().len(), entries.len(), "entries");
    for (entry, (publisher, seq, text)) in catalogue.entries().iter().zip(entries) {
        let name = Name::from_uri(rt.alloc(), text).expect(rt, "a name");
        same(rt, (entry.publisher, entry.seq), (*publisher, *seq), text);
        is(rt, entry.name == name, text);
        same(rt, (entry.segments, entry.octets), (1, 3), "octets");
    }
}

// A mirror of alice's objects under "/doc" fetches the records of her publications that it knows of, and then
// the one segment that it wants.
fn fetches_of_alice<R: Threads + Abort + AllocGlobal + Sync>(
    rt: &R,
    world: &mut World,
    filter: &Filter,
)
    requires first { world.old.mirrors ≡ [] }
    requires few { world.old.steps ≤ 3 }
    ensures len { length world.new.mirrors ≡ 1 }
    ensures steps { world.new.steps ≤ 6 }
{
    add(rt, world, Some(ALICE), "/doc", 0);
    tell(rt, world, 0, 2);
    let net = OpenNet::new();
    compare_fetch(rt, world, 0, &net, filter, (2, 2, 2));
    compare_fetch(rt, world, 0, &net, filter, (1, 1, 1));
    compare_fetch(rt, world, 0, &net, filter, (0, 0, 0));
    compare_entries(rt, world.mirror_catalogue(0), &[(ALICE, 1, "/doc/a")]);
}

// A second one, of all objects, hears of bob's. It goes to the network by its own number, and tries on.
fn fetches_of_all<R: Threads + Abort + AllocGlobal + Sync>(
    rt: &R,
    world: &mut World,
    filter: &Filter,
)
    requires second { length world.old.mirrors ≡ 1 }
    requires few { world.old.steps ≤ 6 }
    ensures len { length world.new.mirrors ≡ 2 }
{
    add(rt, world, None, "/", 1);
    tell(rt, world, 1, 3);
    compare_fetch(rt, world, 1, &OneAskerNet { asker: 1 }, filter, (1, 0, 1));
    compare_fetch(rt, world, 1, &TableNet::new(2), filter, (1, 1, 1));
    compare_fetch(rt, world, 1, &OneAskerNet { asker: 17 }, filter, (1, 1, 1));
    compare_entries(rt, world.mirror_catalogue(1), &[(BOB, 1, "/doc/b")]);
}

#[test]
fn mirrors_of_a_world_fetch_what_their_patterns_are_for(rt: HostRuntime) {
    let filter = Filter::new(|pattern: &Pattern, publisher: u32, name: &Name| {
        is_for(pattern, publisher, name)
    });
    let mut world = published(&rt);
    fetches_of_alice(&rt, &mut world, &filter);
    fetches_of_all(&rt, &mut world, &filter);
    settles(&rt, &mut world, &filter);
    four_at_most(&rt, &mut world);
}

// So many parts come in a settle.
fn compare_settle<R: Threads + Abort + Sync>(
    rt: &R,
    world: &mut World,
    filter: &Filter,
    gained: u64,
)
    ensures len { length world.new.mirrors ≡ length world.old.mirrors }
{
    match world.settle_mirrors(rt, 2, filter) {
        Ok(came) => same(rt, came, gained, "came"),
        Err(_) => panic!(rt; "memory"),
    }
}

// In a settle the second one learns of alice's publications and gains both objects. The first has all that it wants.
fn settles<R: Threads + Abort + AllocGlobal + Sync>(rt: &R, world: &mut World, filter: &Filter)
    requires second { length world.old.mirrors ≡ 2 }
    ensures len { length world.new.mirrors ≡ 2 }
{
    compare_settle(rt, world, filter, 4);
    compare_settle(rt, world, filter, 0);
    compare_entries(rt, world.mirror_catalogue(0), &[(ALICE, 1, "/doc/a")]);
    let all = [(ALICE, 1, "/doc/a"), (ALICE, 2, "/x"), (BOB, 1, "/doc/b")];
    compare_entries(rt, world.mirror_catalogue(1), &all);
}

// There are two mirrors, and there may be four.
fn four_at_most(rt: &(impl Abort + AllocGlobal), world: &mut World)
    requires second { length world.old.mirrors ≡ 2 }
{
    add(rt, world, None, "/", 2);
    add(rt, world, None, "/", 3);
    let prefix = Name::from_uri(rt.alloc(), "/").expect(rt, "a name");
    let pattern = Pattern {
        publisher: None,
        prefix,
    };
    let full = world.add_mirror(pattern).err() == Some(MirrorFault::Full);
    is(rt, full, "four mirrors");
}

ghost use Rattle.std.specs.Prelude.{◌≡◌, ◌≤◌, length};
ghost use Rattle.std.specs.List.{All};
ghost use Rattle.repo_member.specs.Groups.{IsPlainNodeName};
ghost use Rattle.bench_world.specs.EventValues.{event_value};
ghost use Rattle.bench_world.specs.CarryingOut.{EventFits};

use super::checks::{is, same, same_octets};
use bench_net::{FixedDraws, OpenNet};
use bench_world::{Event, World};
use ndn_name::Name;
use repo_catalog::Entry;
use repo_member::Group;
use repo_object::{NODE_NAME_LIMIT, is_object_name};
use std::process::Abort;
use std::test::*;
use std::thread::Threads;

const SETTLE: Event = Event::Settle { workers: 2 };

// The SHA-256 of "abc".
const ABC_DIGEST: [u8; 32] = [
    0xba, 0x78, 0x16, 0xbf, 0x8f, 1, 0xcf, 0xea, 0x41, 0x41, 0x40, 0xde, 0x5d, 0xae, 0x22, 0x23,
    0xb0, 3, 0x61, 0xa3, 0x96, 0x17, 0x7a, 0x9c, 0xb4, 0x10, 0xff, 0x61, 0xf2, 0, 0x15, 0xad,
];

// The name of a group, a node or an object.
fn plain_name(rt: &(impl Abort + AllocGlobal), text: &str) -> Name
    ensures { IsPlainNodeName result }
{
    let name = Name::from_uri(rt.alloc(), text).expect(rt, "a name");
    assert!(rt; is_object_name(&name.view()));
    assert!(rt; name.octets().len() <= NODE_NAME_LIMIT);
    name
}

// How many clients a group has.
fn clients_of(g: &Group) -> usize
    ensures { result ≡ length g.now.clients.names }
{
    g.cite_soundness();
    g.clients().len()
}

// The group "/g" of alice and bob, who have no client.
fn group_of_two(rt: &(impl Abort + AllocGlobal)) -> Group
    ensures members { length result.members.names ≡ 2 }
    ensures clients { length result.clients.names ≡ 0 }
{
    let mut g = Group::new(rt.alloc(), &plain_name(rt, "/g")).expect(rt, "memory");
    same(
        rt,
        g.add_member(&plain_name(rt, "/alice"), b"k1"),
        Ok(0),
        "alice",
    );
    same(
        rt,
        g.add_member(&plain_name(rt, "/bob"), b"k2"),
        Ok(1),
        "bob",
    );
    assert_eq!(rt; g.roster().len(), 2);
    assert_eq!(rt; clients_of(&g), 0);
    g
}

// Alice publishes three octets in one segment.
fn publish(rt: &(impl Abort + AllocGlobal)) -> Event
    ensures { EventFits 2 0 (event_value result) }
{
    let name = Name::from_uri(rt.alloc(), "/doc").expect(rt, "a name");
    assert!(rt; is_object_name(&name.view()));
    Event::Publish {
        m: 0,
        name,
        size: 10,
        content: b"abc".to_vec(rt.alloc()).expect(rt, "memory"),
    }
}

// Runs events from the opening. All are taken, and both members list alice's one publication.
fn expect_doc<R: Threads + Abort + AllocGlobal + Sync>(rt: &R, events: &[Event])
    requires fits { All (λ event. EventFits 2 0 (event_value event)) events.now }
    requires few { length events.now ≤ 100000 }
{
    let draws = FixedDraws::new(100);
    let mut world = World::new(rt.alloc(), group_of_two(rt), &draws).expect(rt, "memory");
    let came = world.run_events(rt, events, &OpenNet::new(), &draws);
    is(rt, came == Ok(events.len()), "all are taken");
    assert_eq!(rt; world.members(), 2);
    for m in 0..2 {
        lists_doc(rt, world.member(m).catalogue().entries());
    }
}

fn lists_doc(rt: &(impl Abort + AllocGlobal), entries: &[Entry]) {
    assert_eq!(rt; entries.len(), 1);
    let entry = &entries[0];
    let name = Name::from_uri(rt.alloc(), "/doc").expect(rt, "a name");
    same(rt, (entry.publisher, entry.seq), (0, 1), "publication");
    is(rt, entry.name == name, "name");
    same(rt, (entry.segments, entry.octets), (1, 3), "sizes");
    same_octets(rt, &entry.digest, &ABC_DIGEST, "digest");
}

#[test]
fn events_are_run(rt: HostRuntime) {
    expect_doc(&rt, &[publish(&rt), SETTLE]);
    let reads = [
        publish(&rt),
        SETTLE,
        Event::Catalogue { m: 0 },
        Event::Catalogue { m: 1 },
        Event::Traffic,
    ];
    expect_doc(&rt, &reads);
}

// What the actors of a live group call, in order, in memory.
ghost use Rattle.std.specs.Prelude.{◌≡◌};
ghost use Rattle.live_tests.specs.Twos.{IsOfTwo};

use crate::inputs::{ALICE, BOB, limited, object, two_members, two_objects};
use crate::memory::{Memory, Seen, mark};
use live_actors::{Actor, act};
use live_member::*;
use repo_member::Group;
use repo_object::Object;
use repo_plan::Part;
use std::marker::Brand;
use std::process::Abort;
use std::sync::Wait;
use std::test::*;

fn published<L: Lists>(
    rt: &(impl Abort + AllocGlobal),
    g: &Group,
    live: &mut Live<L, 100>,
) -> Told<L>
    requires { g.now ≡ L.meaning.group }
{
    match live.publish_next(g).expect(rt, "memory") {
        NextTold::Told(told) => told,
        _ => panic!(rt; "an object"),
    }
}

// Alice, one of three, publishes two objects and hears of bob after the first.
fn publish_two<L: Lists, R: Abort + AllocGlobal + Wait>(
    rt: &R,
    g: &Group,
    alice: &mut Live<L, 100>,
    bob: &mut Live<L, 100>,
)
    requires { g.now ≡ L.meaning.group }
{
    let first = published(rt, g, alice);
    let second = published(rt, g, alice);
    let bobs = published(rt, g, bob);
    let (one, two, theirs) = (
        mark(first.octets()),
        mark(second.octets()),
        mark(bobs.octets()),
    );
    let mut memory = Memory::<L>::new(rt.alloc(), 3, 1);
    memory.objects.push(second).expect(rt, "memory");
    memory.objects.push(first).expect(rt, "memory");
    memory.inbox.push(bobs).expect(rt, "memory");
    let publisher = Actor::Publish { member: ALICE };
    act(rt, &mut memory, 3, 5, publisher).expect(rt, "memory");
    let calls = [
        Seen::Pass(ALICE, 0),
        Seen::Publish(ALICE, Some(one)),
        Seen::Tell(1, one),
        Seen::Tell(2, one),
        Seen::Take(Some(theirs)),
        Seen::Pass(ALICE, 0),
        Seen::Hear(ALICE, theirs),
        Seen::Take(None),
        Seen::Pass(ALICE, 0),
        Seen::Publish(ALICE, Some(two)),
        Seen::Tell(1, two),
        Seen::Tell(2, two),
        Seen::Take(None),
        Seen::Pass(ALICE, 0),
        Seen::Publish(ALICE, None),
    ];
    assert!(rt; memory.seen.as_slice() == calls.as_slice());
}

const fn part(publisher: u32, part: u16) -> Part {
    Part {
        publisher,
        seq: 1,
        part,
    }
}

// Bob's second fetcher takes a part, loses one, and finds none.
fn fetch_three<L: Lists, R: Abort + AllocGlobal + Wait>(rt: &R, alice: &Live<L, 100>) {
    let (record, segment) = (part(ALICE, 0), part(ALICE, 1));
    let lent = alice.lend(rt.alloc(), record).expect(rt, "memory");
    let octets = lent.as_ref().map(|lent| mark(lent.octets()));
    assert!(rt; octets.is_some());
    let mut memory = Memory::<L>::new(rt.alloc(), 2, 3);
    let last = LiveReply::Claimed { part: segment };
    memory.replies.push(last).expect(rt, "memory");
    let first = LiveReply::Claimed { part: record };
    memory.replies.push(first).expect(rt, "memory");
    memory.packets.push(lent).expect(rt, "memory");
    let second = Actor::Second { member: BOB };
    act(rt, &mut memory, 2, 3, second).expect(rt, "memory");
    let calls = [
        Seen::Pass(BOB, 2),
        Seen::Claim(BOB, 2, LiveReply::Claimed { part: record }),
        Seen::Pass(BOB, 2),
        Seen::Lend(ALICE, record, octets),
        Seen::Pass(BOB, 2),
        Seen::Accept(BOB, 2, octets.unwrap_or(0)),
        Seen::Pass(BOB, 2),
        Seen::Claim(BOB, 2, LiveReply::Claimed { part: segment }),
        Seen::Pass(BOB, 2),
        Seen::Lend(ALICE, segment, None),
        Seen::Pass(BOB, 2),
        Seen::Lose(BOB, 2),
        Seen::Pass(BOB, 2),
        Seen::Claim(BOB, 2, LiveReply::NoPart),
    ];
    assert!(rt; memory.seen.as_slice() == calls.as_slice());
}

fn act_two<L: Lists, R: Abort + AllocGlobal + Wait>(
    rt: &R,
    g: &Group,
    alices: Vec<Object>,
    bobs: Vec<Object>,
)
    requires { IsOfTwo L.meaning g.now alices.items bobs.items }
{
    let mut alice = Live::<L, 100>::new(rt.alloc(), g, ALICE, alices, 100).expect(rt, "memory");
    let mut bob = Live::<L, 100>::new(rt.alloc(), g, BOB, bobs, 200).expect(rt, "memory");
    publish_two(rt, g, &mut alice, &mut bob);
    fetch_three(rt, &alice);
}

#[test]
fn actors_make_these_calls(rt: HostRuntime) {
    let g = two_members(&rt);
    let third = object(&rt, "/doc/c", b"f", 8000);
    let bobs = Vec::from_array(rt.alloc(), [third]).expect(&rt, "memory");
    let (alices, bobs) = limited(&rt, &g, two_objects(&rt), bobs);
    act_two::<Brand, _>(&rt, &g, alices, bobs);
}

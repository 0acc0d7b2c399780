// The settle of two members, each of which has done something before.
ghost use Rattle.std.specs.Prelude.{◌≡◌, ◌≤◌, map, length};
ghost use Rattle.std.specs.List.{All};
ghost use Rattle.live_member.specs.Lives.{IsLive};
ghost use Rattle.live_settle.specs.Rans.{numbers_below};
ghost use Rattle.live_tests.specs.Twos.{IsOfTwo};

use crate::inputs::{ALICE, BOB, limited, object, pair, two_members, two_objects};
use live_member::*;
use live_settle::{Ran, settle};
use repo_member::Group;
use repo_object::Object;
use repo_plan::Part;
use std::marker::Brand;
use std::process::Abort;
use std::test::*;

const fn part(publisher: u32, seq: u16, part: u16) -> Part {
    Part {
        publisher,
        seq,
        part,
    }
}

fn one_object(rt: &(impl Abort + AllocGlobal)) -> Vec<Object> {
    let object = object(rt, "/doc/c", b"f", 8000);
    Vec::from_array(rt.alloc(), [object]).expect(rt, "memory")
}

// Bob hears of alice's first publication, and his second fetcher claims its record.
fn begin<L: Lists>(
    rt: &(impl Abort + AllocGlobal),
    g: &Group,
    alice: &mut Live<L, 1>,
    bob: &mut Live<L, 100>,
)
    requires { g.now ≡ L.meaning.group }
{
    let next = alice.publish_next(g).expect(rt, "memory");
    assert!(rt; matches!(next, NextTold::Told(_)));
    let told = alice.tell(rt.alloc(), g).expect(rt, "memory");
    assert!(rt; bob.hear(g, &told) == Ok(LiveReply::Steady));
    let part = part(ALICE, 1, 0);
    assert!(rt; bob.claim(g, 2) == Ok(LiveReply::Claimed { part }));
}

// The members in order of their numbers.
fn in_order<L: Lists>(
    rt: &(impl Abort + AllocGlobal),
    alice: Live<L, 1>,
    bob: Live<L, 100>,
) -> Vec<Live<L, 1000000>>
    requires { length L.meaning.lists ≡ 2 }
    ensures numbers { map (λ l. l.state.number) result.items ≡ numbers_below (length L.meaning.lists) }
    ensures live { All (IsLive L.meaning 1000000) result.items }
    ensures room { All (λ l. length l.journal ≤ 900000) result.items }
{
    let first = alice.widen();
    let second = bob.widen();
    assert!(rt; first.number() == ALICE);
    assert!(rt; second.number() == BOB);
    pair(rt, first, second)
}

// The replies in a member's journal, in order, and how many entries its catalogue has.
fn compare(rt: &impl Abort, ran: &Ran, replies: &[LiveReply]) {
    let found = ran.journal.iter().map(|entry| entry.reply);
    assert!(rt; found.eq(replies.iter().copied()));
    assert_eq!(rt; ran.member.catalogue().entries().len(), 3);
}

// Alice publishes her second object, hears bob, and fetches his object.
fn compare_alice(rt: &impl Abort, ran: &Ran) {
    let replies = [
        LiveReply::Published { seq: 1 },
        LiveReply::Published { seq: 2 },
        LiveReply::Suppressed,
        LiveReply::Claimed {
            part: part(BOB, 1, 0),
        },
        LiveReply::Kept,
        LiveReply::Claimed {
            part: part(BOB, 1, 1),
        },
        LiveReply::Kept,
        LiveReply::NoPart,
    ];
    compare(rt, ran, &replies);
}

// Bob publishes his object, loses the claim, hears alice, and fetches her objects.
fn compare_bob(rt: &impl Abort, ran: &Ran) {
    let first = part(ALICE, 1, 0);
    let replies = [
        LiveReply::Steady,
        LiveReply::Claimed { part: first },
        LiveReply::Published { seq: 1 },
        LiveReply::Lost { part: first },
        LiveReply::Steady,
        LiveReply::Claimed { part: first },
        LiveReply::Kept,
        LiveReply::Claimed {
            part: part(ALICE, 1, 1),
        },
        LiveReply::Kept,
        LiveReply::Claimed {
            part: part(ALICE, 2, 0),
        },
        LiveReply::Kept,
        LiveReply::Claimed {
            part: part(ALICE, 2, 1),
        },
        LiveReply::Kept,
        LiveReply::NoPart,
    ];
    compare(rt, ran, &replies);
}

fn settle_two<L: Lists, R: Abort + AllocGlobal>(
    rt: &R,
    g: &Group,
    alices: Vec<Object>,
    bobs: Vec<Object>,
)
    requires { IsOfTwo L.meaning g.now alices.items bobs.items }
{
    let mut alice = Live::<L, 1>::new(rt.alloc(), g, ALICE, alices, 100).expect(rt, "memory");
    let mut bob = Live::<L, 100>::new(rt.alloc(), g, BOB, bobs, 200).expect(rt, "memory");
    begin(rt, g, &mut alice, &mut bob);
    let lives = in_order(rt, alice, bob);
    let rans = settle(rt.alloc(), g, lives).expect(rt, "memory");
    assert_eq!(rt; rans.len(), 2);
    compare_alice(rt, &rans[0]);
    compare_bob(rt, &rans[1]);
}

#[test]
fn a_settle_gives_each_member_all_objects(rt: HostRuntime) {
    let g = two_members(&rt);
    let (alices, bobs) = limited(&rt, &g, two_objects(&rt), one_object(&rt));
    settle_two::<Brand, _>(&rt, &g, alices, bobs);
}

// A member with its journal, beside another that it fetches from.
ghost use Rattle.std.specs.Prelude.{◌≡◌, ◌<◌, ◌∷◌, [], length, slice_index};
ghost use Rattle.live_member.specs.Meanings.{IsWithinLimits, objects_of};

use crate::inputs::{ALICE, BOB, limited, two_members, two_objects};
use live_member::*;
use repo_member::{Group, Member};
use repo_object::Object;
use repo_plan::Part;
use std::marker::Brand;
use std::process::Abort;
use std::test::*;

// A part of alice's publication `seq`.
const fn part(seq: u16, part: u16) -> Part {
    Part {
        publisher: ALICE,
        seq,
        part,
    }
}

// What reports a publication, if there was one.
fn told<L: Lists>(next: NextTold<L>) -> Option<Told<L>> {
    match next {
        NextTold::Told(told) => Some(told),
        _ => None,
    }
}

fn compare_journal(rt: &impl Abort, journal: &[LiveEntry], replies: &[LiveReply]) {
    assert!(rt;
        journal
            .iter()
            .map(|entry| entry.reply)
            .eq(replies.iter().copied())
    );
}

// Alice publishes the first object, for which alone her journal has capacity.
fn publish_first<L: Lists>(
    rt: &(impl Abort + AllocGlobal),
    g: &Group,
    alice: &mut Live<L, 1>,
    bob: &mut Live<L, 100>,
)
    requires { g.now ≡ L.meaning.group }
{
    let early = bob.tell(rt.alloc(), g).expect(rt, "memory");
    assert!(rt;
        alice
            .lend(rt.alloc(), part(1, 0))
            .expect(rt, "memory")
            .is_none()
    );
    let first = told(alice.publish_next(g).expect(rt, "memory")).expect(rt, "a publication");
    assert!(rt; first.octets() == alice.tell(rt.alloc(), g).expect(rt, "memory").octets());
    assert!(rt; first.octets() != early.octets());
    assert!(rt; matches!(alice.publish_next(g), Ok(NextTold::Full)));
    assert!(rt; alice.hear(g, &early) == Ok(LiveReply::Full));
    assert!(rt; alice.claim(g, 1) == Ok(LiveReply::Full));
    assert!(rt; alice.lose(g, 1) == Ok(LiveReply::Full));
    compare_journal(rt, alice.journal(), &[LiveReply::Published { seq: 1 }]);
    let copy = first.copy(rt.alloc()).expect(rt, "memory");
    assert!(rt; copy.octets() == first.octets());
    assert!(rt; matches!(bob.publish_next(g), Ok(NextTold::Done)));
    assert!(rt; bob.hear(g, &copy) == Ok(LiveReply::Steady));
}

fn compare_packet(rt: &impl Abort, member: &Member, part: Part, octets: &[u8]) {
    let packet = member.packet(part).expect(rt, "a packet");
    assert!(rt; packet == octets);
}

// Bob claims a part, loses it, claims it again, and takes its packet.
fn fetch<L: Lists, const M: u32>(
    rt: &(impl Abort + AllocGlobal),
    g: &Group,
    alice: &Live<L, M>,
    bob: &mut Live<L, 100>,
    part: Part,
)
    requires { g.now ≡ L.meaning.group }
{
    let lent = alice
        .lend(rt.alloc(), part)
        .expect(rt, "memory")
        .expect(rt, "a part");
    assert!(rt; lent.part() == part);
    compare_packet(rt, alice.member(), part, lent.octets());
    assert!(rt; bob.accept(g, 1, &lent) == Ok(LiveReply::Refused));
    assert!(rt; bob.claim(g, 1) == Ok(LiveReply::Claimed { part }));
    assert!(rt; bob.claim(g, 1) == Ok(LiveReply::Refused));
    assert!(rt; bob.lose(g, 1) == Ok(LiveReply::Lost { part }));
    assert!(rt; bob.lose(g, 1) == Ok(LiveReply::Refused));
    assert!(rt; bob.claim(g, 1) == Ok(LiveReply::Claimed { part }));
    assert!(rt; bob.accept(g, 1, &lent) == Ok(LiveReply::Kept));
    compare_packet(rt, bob.member(), part, lent.octets());
    assert!(rt; bob.lend(rt.alloc(), part).expect(rt, "memory").is_none());
}

// With more room alice publishes the second object, after hearing of a member that knows less.
fn publish_second<L: Lists>(
    rt: &(impl Abort + AllocGlobal),
    g: &Group,
    alice: &mut Live<L, 1000000>,
    bob: &mut Live<L, 100>,
)
    requires { g.now ≡ L.meaning.group }
{
    let second = told(alice.publish_next(g).expect(rt, "memory")).expect(rt, "a publication");
    assert!(rt; matches!(alice.publish_next(g), Ok(NextTold::Done)));
    let earlier = bob.tell(rt.alloc(), g).expect(rt, "memory");
    assert!(rt; alice.hear(g, &earlier) == Ok(LiveReply::Suppressed));
    assert!(rt; bob.hear(g, &second) == Ok(LiveReply::Steady));
    assert!(rt; alice.claim(g, 2) == Ok(LiveReply::NoPart));
}

// The replies at bob, in order.
fn compare_bob(rt: &impl Abort, journal: &[LiveEntry]) {
    let mut replies = journal.iter().map(|entry| entry.reply);
    for seq in 1..3 {
        assert!(rt; replies.next() == Some(LiveReply::Steady));
        for k in 0..2 {
            let part = part(seq, k);
            let expected = [
                LiveReply::Refused,
                LiveReply::Claimed { part },
                LiveReply::Refused,
                LiveReply::Lost { part },
                LiveReply::Refused,
                LiveReply::Claimed { part },
                LiveReply::Kept,
            ];
            for reply in expected {
                assert!(rt; replies.next() == Some(reply));
            }
        }
    }
    assert!(rt; replies.next().is_none());
}

// Alice publishes her first object, and bob fetches it.
fn publish_and_fetch<L: Lists, R: Abort + AllocGlobal>(
    rt: &R,
    g: &Group,
    objects: Vec<Object>,
    bob: &mut Live<L, 100>,
)
    requires group { g.now ≡ L.meaning.group }
    requires within { IsWithinLimits L.meaning }
    requires some { 0 < length L.meaning.lists }
    requires list { objects.items ≡ objects_of L.meaning 0 }
    requires draw { slice_index L.meaning.draws 0 ≡ 100 }
{
    let mut alice = Live::<L, 1>::new(rt.alloc(), g, ALICE, objects, 100).expect(rt, "memory");
    publish_first(rt, g, &mut alice, bob);
    fetch(rt, g, &alice, bob, part(1, 0));
    fetch(rt, g, &alice, bob, part(1, 1));
    publish_and_fetch_more(rt, g, alice.widen(), bob);
}

// With more room she publishes her second object, and he fetches it.
fn publish_and_fetch_more<L: Lists>(
    rt: &(impl Abort + AllocGlobal),
    g: &Group,
    mut alice: Live<L, 1000000>,
    bob: &mut Live<L, 100>,
)
    requires { g.now ≡ L.meaning.group }
{
    publish_second(rt, g, &mut alice, bob);
    fetch(rt, g, &alice, bob, part(2, 0));
    fetch(rt, g, &alice, bob, part(2, 1));
    let replies = [
        LiveReply::Published { seq: 1 },
        LiveReply::Published { seq: 2 },
        LiveReply::Suppressed,
        LiveReply::NoPart,
    ];
    compare_journal(rt, alice.journal(), &replies);
}

fn act<L: Lists, R: Abort + AllocGlobal>(rt: &R, g: &Group, objects: Vec<Object>, none: Vec<Object>)
    requires group { g.now ≡ L.meaning.group }
    requires lists { L.meaning.lists ≡ objects.items ∷ none.items ∷ [] }
    requires draws { L.meaning.draws ≡ 100 ∷ 200 ∷ [] }
    requires within { IsWithinLimits L.meaning }
{
    let mut bob = Live::<L, 100>::new(rt.alloc(), g, BOB, none, 200).expect(rt, "memory");
    publish_and_fetch::<L, R>(rt, g, objects, &mut bob);
    compare_bob(rt, bob.journal());
    let (journal, member) = bob.into_parts();
    assert_eq!(rt; journal.len(), 30);
    assert_eq!(rt; member.catalogue().entries().len(), 2);
}

#[test]
fn members_answer_and_keep_a_journal(rt: HostRuntime) {
    let g = two_members(&rt);
    let (objects, none) = limited(&rt, &g, two_objects(&rt), Vec::new(rt.alloc()));
    act::<Brand, _>(&rt, &g, objects, none);
}

#[test]
fn the_octets_of_an_entry_are_moved_out(rt: HostRuntime) {
    let octets = Octets::new(vec![in rt.alloc(); 7; 3].expect(&rt, "memory"));
    assert!(&rt; octets.as_slice() == [7, 7, 7].as_slice());
    let moved = octets.into_vec();
    assert!(&rt; moved.as_slice() == [7, 7, 7].as_slice());
}

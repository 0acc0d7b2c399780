// Members in threads.
ghost use Rattle.std.specs.Prelude.{◌≡◌, length};

use crate::inputs::{object, pair, two_members, two_objects};
use live_group::*;
use live_member::{LiveEntry, LiveEvent, LiveReply, are_within_limits, count_parts};
use live_settle::Ran;
use repo_member::Group;
use repo_object::Object;
use std::process::Abort;
use std::sync::Wait;
use std::test::*;
use std::thread::Threads;

// How many turns a fetcher makes: twice the parts of all objects below, each of which has two.
const TURNS: usize = 20;

// Two objects of alice, and three of bob.
fn two_lists(rt: &(impl Abort + AllocGlobal)) -> Vec<Vec<Object>>
    ensures { length result.items ≡ 2 }
{
    let third = object(rt, "/doc/c", b"f", 8000);
    let mut bobs = two_objects(rt);
    bobs.push(third).expect(rt, "memory");
    pair(rt, two_objects(rt), bobs)
}

// Alice and bob run.
pub(crate) fn run_two<R: Threads + Wait + Sync + Abort + AllocGlobal, G: Gate + Sync>(
    rt: &R,
    g: &Group,
    gate: &G,
) -> Vec<Ran> {
    let lists = two_lists(rt);
    assert!(rt; are_within_limits(g, &lists));
    run_group(rt, rt.alloc(), g, lists, &[100, 100], gate).expect(rt, "memory")
}

// How many claims of a fetcher a journal has.
pub(crate) fn claims(journal: &[LiveEntry], by: u8) -> usize {
    journal
        .iter()
        .filter(|entry| matches!(entry.event, LiveEvent::Claim { f } if f == by))
        .count()
}

// All that a member published stands in its journal, and its catalogue has all five objects. The journal has each turn
// of both fetchers, and the settle claims by the first alone.
pub(crate) fn expect_all(rt: &impl Abort, ran: &Ran) {
    let published = ran
        .journal
        .iter()
        .filter(|entry| matches!(entry.reply, LiveReply::Published { .. }))
        .count();
    assert_eq!(rt; published, ran.member.log_len() as usize);
    assert_eq!(rt; ran.member.catalogue().entries().len(), 5);
    assert!(rt; claims(&ran.journal, 1) > TURNS);
    assert_eq!(rt; claims(&ran.journal, 2), TURNS);
}

#[test]
fn members_in_threads_list_all_in_the_end(rt: HostRuntime) {
    let g = two_members(&rt);
    let rans = run_two(&rt, &g, &OpenGate::new());
    assert_eq!(&rt; rans.len(), 2);
    for ran in &rans {
        expect_all(&rt, ran);
    }
}

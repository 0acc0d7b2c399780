// Members in threads that wait for each other, so that what one's journal begins with is known.
use crate::group::{expect_all, run_two};
use crate::inputs::{ALICE, BOB, two_members};
use live_group::Gate;
use live_member::{LiveEntry, LiveEvent, LiveReply};
use live_settle::Ran;
use repo_plan::Part;
use std::process::Abort;
use std::sync::atomic::{AtomicU64, Ordering};
use std::test::*;
use std::thread::yield_now;

// How often an actor looks at most whether another has come far enough, by one load each time.
const LOOKS: u32 = 100_000_000;

const PUBLISHER: u32 = 0;

const FIRST: u32 = 1;

const SECOND: u32 = 2;

// Whom an actor waits for at its first call, and to which call that one must have come. Alice publishes her two objects
// and looks for a third. Then bob publishes one, hears of both, publishes the other two, and looks for a fourth. Then
// his second fetcher makes a turn, and then his first goes on too.
fn awaited(member: u32, actor: u32) -> Option<(u32, u32, u64)> {
    match (member, actor) {
        (BOB, PUBLISHER) => Some((ALICE, PUBLISHER, 3)),
        (BOB, SECOND) => Some((BOB, PUBLISHER, 6)),
        (BOB, FIRST) => Some((BOB, SECOND, 4)),
        _ => None,
    }
}

// To how many calls the actors of alice and bob came, and how many waited in vain.
#[derive(Drop)]
struct InOrder {
    alice: [AtomicU64; 3],
    bob: [AtomicU64; 3],
    in_vain: AtomicU64,
}

impl InOrder {
    fn new() -> InOrder {
        InOrder {
            alice: [AtomicU64::new(0), AtomicU64::new(0), AtomicU64::new(0)],
            bob: [AtomicU64::new(0), AtomicU64::new(0), AtomicU64::new(0)],
            in_vain: AtomicU64::new(0),
        }
    }

    fn came(&self, member: u32, actor: u32) -> Option<&AtomicU64> {
        let actors = match member {
            ALICE => &self.alice,
            _ => &self.bob,
        };
        actors.get(actor as usize)
    }

    fn calls(&self, member: u32, actor: u32) -> u64 {
        match self.came(member, actor) {
            Some(came) => came.load(Ordering::SeqCst),
            None => 0,
        }
    }

    fn wait(&self, member: u32, actor: u32, calls: u64) {
        for _ in 0..LOOKS {
            if self.calls(member, actor) >= calls {
                return;
            }
            yield_now();
        }
        self.in_vain.fetch_add(1, Ordering::SeqCst);
    }
}

impl Gate for InOrder {
    fn at(&self, member: u32, actor: u32) {
        let Some(came) = self.came(member, actor) else {
            return;
        };
        if came.fetch_add(1, Ordering::SeqCst) > 0 {
            return;
        }
        if let Some((other, its, calls)) = awaited(member, actor) {
            self.wait(other, its, calls);
        }
    }
}

// Who made an entry, and what was replied.
fn summary(entry: &LiveEntry) -> (u32, LiveReply) {
    let actor = match entry.event {
        LiveEvent::Publish | LiveEvent::Hear { .. } => PUBLISHER,
        LiveEvent::Claim { f } | LiveEvent::Accept { f, .. } | LiveEvent::Lose { f } => u32::from(
            f,
        ),
    };
    (actor, entry.reply)
}

// What bob's journal begins with: he hears both of alice's sync Interests between two publications, and his second
// fetcher takes the packet that alice lends.
fn compare_begin(rt: &impl Abort, journal: &[LiveEntry]) {
    let part = Part {
        publisher: ALICE,
        seq: 1,
        part: 0,
    };
    let begin = [
        (PUBLISHER, LiveReply::Published { seq: 1 }),
        (PUBLISHER, LiveReply::Suppressed),
        (PUBLISHER, LiveReply::Suppressed),
        (PUBLISHER, LiveReply::Published { seq: 2 }),
        (PUBLISHER, LiveReply::Published { seq: 3 }),
        (SECOND, LiveReply::Claimed { part }),
        (SECOND, LiveReply::Kept),
    ];
    assert!(rt; journal.len() > begin.len());
    let found = journal.iter().map(summary);
    for (found, expected) in found.zip(begin) {
        assert_eq!(rt; found, expected);
    }
}

// How many entries of a journal an actor made, and how many parts it claimed.
fn entries(journal: &[LiveEntry], by: u32) -> usize {
    journal
        .iter()
        .filter(|entry| summary(entry).0 == by)
        .count()
}

fn loans(journal: &[LiveEntry], by: u32) -> usize {
    journal
        .iter()
        .filter(|entry| summary(entry).0 == by && matches!(entry.reply, LiveReply::Claimed { .. }))
        .count()
}

// A member's publisher and second fetcher came to the gate for each entry that they made, and for each loan that they
// asked for. The settle hears the other member once, and the publisher looked once more for an object.
fn compare_calls(rt: &impl Abort, gate: &InOrder, member: u32, journal: &[LiveEntry]) {
    let publisher = entries(journal, PUBLISHER);
    let second = entries(journal, SECOND).wrapping_add(loans(journal, SECOND));
    assert_eq!(rt; gate.calls(member, PUBLISHER), publisher as u64);
    assert_eq!(rt; gate.calls(member, SECOND), second as u64);
}

fn expect_member(rt: &impl Abort, gate: &InOrder, member: u32, ran: &Ran) {
    expect_all(rt, ran);
    compare_calls(rt, gate, member, &ran.journal);
}

#[test]
fn actors_that_wait_for_each_other_make_known_entries(rt: HostRuntime) {
    let g = two_members(&rt);
    let gate = InOrder::new();
    let rans = run_two(&rt, &g, &gate);
    assert_eq!(&rt; gate.in_vain.load(Ordering::SeqCst), 0);
    assert_eq!(&rt; rans.len(), 2);
    compare_begin(&rt, &rans[1].journal);
    expect_member(&rt, &gate, ALICE, &rans[0]);
    expect_member(&rt, &gate, BOB, &rans[1]);
}

// Members in threads, through gates at which their actors wait for each other.
use super::{PRE, run_through};
use live_group::Gate;
use repo_io::*;
use std::process::Abort;
use std::str;
use std::sync::Wait;
use std::sync::atomic::{AtomicU64, Ordering};
use std::test::*;
use std::thread::{Threads, yield_now};

// How often an actor looks whether the others have come, by at most three loads each time.
const LOOKS: u32 = 33_000_000;

// The numbers of the members, and of a member's actor that publishes and hears. Its other two actors fetch.
const ALICE: u32 = 0;

const BOB: u32 = 1;

const PUBLISHER: u32 = 0;

// Alice's sync Interest once she has published the first of her objects alone, which no settle announces.
const FIRST_REPORTED: &str =
    "0573072808016736010202206f504a90c15c79060eb22e95a6f5a26d5ac53df3312f58b4aae5e2\
    3af1b299fd2410c90eca0c07070805616c696365cc01012c131b01041c0e070c0805616c696365\
    08034b45592e20f15b2fa4ae603e113ad456498d48ae98fcecb04b9e9117633457038bde17139b";

// Runs these lines after the group and its members, and gives what is written.
fn run_gated<R: Threads + Wait + Sync + Abort + AllocGlobal, G: Gate + Sync>(
    rt: &R,
    lines: &str,
    gate: &G,
) -> VecSink {
    let input = format!(in rt.alloc(); "{PRE}{lines}").expect(rt, "memory");
    let mut source = ReadSource::new(input.as_bytes());
    let mut sink = VecSink::new(rt.alloc(), 5_000, Vec::new(rt.alloc()));
    let mut end = None;
    let answered = run_through(rt, "live", &mut source, &mut sink, gate, &mut end);
    assert_eq!(rt; answered, Status::Done);
    sink
}

// Alice's first two actors and bob's second. Each waits at its first call until the other two have come.
#[derive(Drop)]
struct Meeting {
    came: [AtomicU64; 3],
    saw: AtomicU64,
}

impl Meeting {
    fn new() -> Meeting {
        Meeting {
            came: [AtomicU64::new(0), AtomicU64::new(0), AtomicU64::new(0)],
            saw: AtomicU64::new(0),
        }
    }

    fn have_come(&self) -> bool {
        self.came
            .iter()
            .all(|came| came.load(Ordering::SeqCst) == 1)
    }

    fn wait(&self) -> bool {
        for _ in 0..LOOKS {
            if self.have_come() {
                return true;
            }
            yield_now();
        }
        false
    }
}

impl Gate for Meeting {
    fn at(&self, member: u32, actor: u32) {
        let [alice_publishes, alice_fetches, bob_fetches] = &self.came;
        let mine = match (member, actor) {
            (ALICE, PUBLISHER) => alice_publishes,
            (ALICE, 1) => alice_fetches,
            (BOB, 1) => bob_fetches,
            _ => return,
        };
        if mine.swap(1, Ordering::SeqCst) == 0 && self.wait() {
            self.saw.fetch_add(1, Ordering::SeqCst);
        }
    }
}

#[test]
fn three_actors_are_at_work_at_once(rt: HostRuntime) {
    let gate = Meeting::new();
    run_gated(&rt, "publish alice /doc 10 text:abc\n", &gate);
    assert_eq!(&rt; gate.saw.load(Ordering::SeqCst), 3);
}

// Bob's publisher waits at its first call until alice's has come to its second.
#[derive(Drop)]
struct AliceFirst {
    alice: AtomicU64,
    bob: AtomicU64,
}

impl AliceFirst {
    fn new() -> AliceFirst {
        AliceFirst {
            alice: AtomicU64::new(0),
            bob: AtomicU64::new(0),
        }
    }

    fn wait(&self) {
        for _ in 0..LOOKS {
            if self.alice.load(Ordering::SeqCst) >= 2 {
                return;
            }
            yield_now();
        }
    }
}

impl Gate for AliceFirst {
    fn at(&self, member: u32, actor: u32) {
        match (member, actor) {
            (ALICE, PUBLISHER) => {
                self.alice.fetch_add(1, Ordering::SeqCst);
            }
            (BOB, PUBLISHER) => {
                if self.bob.swap(1, Ordering::SeqCst) == 0 {
                    self.wait();
                }
            }
            _ => {}
        }
    }
}

#[test]
fn a_member_hears_what_came_into_its_inbox(rt: HostRuntime) {
    let lines = "publish alice /a 10 text:abc\n\
        publish alice /b 10 text:de\n\
        publish bob /c 10 text:f\n";
    let sink = run_gated(&rt, lines, &AliceFirst::new());
    let text = str::from_utf8(sink.octets()).expect(&rt, "a text");
    let (_, after) = text.split_once("journal bob ").expect(&rt, "bob's journal");
    let heard = format!(in rt.alloc(); "hear {FIRST_REPORTED} ").expect(&rt, "memory");
    assert!(&rt; after.contains(heard.as_str()));
}

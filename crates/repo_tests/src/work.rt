ghost use Rattle.std.specs.Prelude.{◌≡◌, ◌<◌, ◌≤◌, length, All};
ghost use Rattle.ndn_name.specs.Names.{encoding};
ghost use Rattle.fetch_work.specs.Attempts.{CanBeTried};

use crate::expect::{is, same};
use fetch_board::Board;
use fetch_work::*;
use ndn_name::Name;
use ndn_sign::KeyRing;
use repo_holdings::{ContentsDigest, Whole};
use repo_object::{
    Job, NODE_NAME_LIMIT, Object, Want, is_object_name, key_name, packets_of, want_record,
};
use repo_plan::Part;
use std::process::Abort;
use std::sync::atomic::{AtomicBool, Ordering};
use std::test::*;
use std::thread::Threads;

const KEY: &[u8] = b"k1";

// By how many workers the same is fetched.
const WORKERS: [u32; 4] = [1, 2, 4, 16];

// A link that has the record of each publication but every tenth, in whose place it lends another. Of publication
// `seq` it passes the attempt `seq % 7 + 1` alone.
#[derive(Drop)]
struct OneAttempt<'w> {
    records: &'w [Vec<u8>],
}

impl<'w> Link for OneAttempt<'w> {
    ghost use Rattle.std.specs.Prelude.{◌+◌, ◌-◌, ◌%◌, ◌==◌, if◌then◌else◌, option_map, slice_get, None};

    ghost answer = { λ l want attempt. if attempt == want.part.seq % 7 + 1
        then option_map (λ packet. packet.items) (slice_get l.records.now (want.part.seq - 1))
        else None };

    fn ask<'a>(&'a self, want: &Want, attempt: u32) -> Reply<'a> {
        let seq = want.part().seq;
        if attempt != u32::from(seq) % 7 + 1 {
            return Reply::Lost;
        }
        match self.records.get(usize::from(seq.saturating_sub(1))) {
            Some(record) => Reply::Came(record),
            None => Reply::Lost,
        }
    }
}

// A link that never answers. A worker that asks waits until all four parts were asked for, or its looks are over.
#[derive(Drop)]
struct Gate {
    asked: [AtomicBool; 4],
    first: AtomicBool,
    saw_all: AtomicBool,
}

impl Link for Gate {
    ghost use Rattle.std.specs.Prelude.{None};

    ghost answer = { λ gate want attempt. None };

    fn ask<'a>(&'a self, want: &Want, attempt: u32) -> Reply<'a> {
        if let Some(flag) = self.asked.get(usize::from(want.part().seq % 4)) {
            flag.store(true, Ordering::SeqCst);
        }
        if !self.first.swap(true, Ordering::SeqCst) {
            for _ in 0..100_000_000 {
                if self.asked.iter().all(|flag| flag.load(Ordering::SeqCst)) {
                    self.saw_all.store(true, Ordering::SeqCst);
                    break;
                }
            }
        }
        Reply::Lost
    }
}

fn short_name(rt: &(impl Abort + AllocGlobal), text: &str) -> Name
    ensures { length (encoding result) ≤ 200 }
{
    let name = Name::from_uri(rt.alloc(), text).expect(rt, "a name");
    assert!(rt; name.octets().len() <= NODE_NAME_LIMIT);
    name
}

fn ring_of(rt: &(impl Abort + AllocGlobal), node: &Name) -> KeyRing
    requires { length (encoding node.now) ≤ 200 }
    ensures { 0 < length result }
{
    let mut ring = KeyRing::new(rt.alloc());
    let name = key_name(node).expect(rt, "memory");
    ring.add(name.octets(), KEY).expect(rt, "memory");
    ring
}

// The job of a publication's record, which was tried before or not.
fn job(rt: &(impl Abort + AllocGlobal), seq: u16, node: &Name, group: &Name) -> Job
    requires node { length (encoding node.now) ≤ 200 }
    requires group { length (encoding group.now) ≤ 200 }
    ensures { CanBeTried 1 5 result }
{
    let part = Part {
        publisher: 0,
        seq,
        part: 0,
    };
    Job {
        want: want_record(rt.alloc(), part, node, group).expect(rt, "memory"),
        base: u32::from(seq % 3),
    }
}

fn jobs(rt: &(impl Abort + AllocGlobal), count: u16, node: &Name) -> Vec<Job>
    requires { length (encoding node.now) ≤ 200 }
    ensures { All (λ job. CanBeTried 1 5 job) result.items }
{
    let mut jobs = Vec::new(rt.alloc());
    for seq in 1..=count {
        jobs.push(job(rt, seq, node, node)).expect(rt, "memory");
    }
    jobs
}

// The records, each of an object without contents. In the place of every tenth lies the one before.
fn records(
    rt: &(impl Abort + AllocGlobal),
    count: u16,
    object: &Object,
    node: &Name,
) -> Vec<Vec<u8>>
    requires { length (encoding node.now) ≤ 200 }
{
    let mut records = Vec::new(rt.alloc());
    for seq in 1..=count {
        let lies = if seq % 10 == 0 { seq - 1 } else { seq };
        let record = record(rt, lies, object, node);
        records.push(record).expect(rt, "memory");
    }
    records
}

fn record(rt: &(impl Abort + AllocGlobal), seq: u16, object: &Object, node: &Name) -> Vec<u8>
    requires { length (encoding node.now) ≤ 200 }
{
    let mut packets = packets_of(rt.alloc(), object, seq, node, node, KEY).expect(rt, "memory");
    packets.pop().expect(rt, "a record")
}

fn object(rt: &(impl Abort + AllocGlobal)) -> Object {
    let name = Name::from_uri(rt.alloc(), "/doc").expect(rt, "a name");
    assert!(rt; is_object_name(&name.view()));
    Object::new(rt.alloc(), &name, &[]).expect(rt, "memory")
}

// The publications of a node, numbered from 1: the jobs of their records, the records and the ring for their check.
#[derive(Drop)]
struct Published {
    jobs: Vec<Job>,
    records: Vec<Vec<u8>>,
    ring: KeyRing,
}

fn publish(rt: &(impl Abort + AllocGlobal), count: u16) -> Published
    ensures jobs { All (λ job. CanBeTried 1 5 job) result.jobs.items }
    ensures few { length result.jobs.items ≤ 4096 }
    ensures ring { 0 < length result.ring }
{
    let node = short_name(rt, "/alice");
    let jobs = jobs(rt, count, &node);
    assert!(rt; jobs.len() <= 4096);
    Published {
        jobs,
        records: records(rt, count, &object(rt), &node),
        ring: ring_of(rt, &node),
    }
}

fn fetch<'p, L: Link + Sync, R: Threads + Sync + Abort + AllocGlobal>(
    rt: &R,
    link: &'p L,
    published: &'p Published,
    tries: u32,
    workers: u32,
) -> PhaseOutcome<'p>
    requires jobs { All (λ job. CanBeTried 1 5 job) published.now.jobs.items }
    requires few { length published.now.jobs.items ≤ 4096 }
    requires ring { 0 < length published.now.ring }
    requires tries { (1 ≤ tries) × (tries ≤ 5) }
    requires workers { (1 ≤ workers) × (workers ≤ 16) }
{
    let (jobs, ring) = (&published.jobs, &published.ring);
    phase(rt, rt.alloc(), link, jobs, ring, tries, workers).expect(rt, "memory")
}

// How many of five attempts are made for a publication's record, and whether it comes.
fn expected(seq: u16) -> (u32, bool) {
    let base = u32::from(seq % 3);
    let passes = u32::from(seq % 7) + 1;
    if seq % 10 != 0 && base < passes && passes <= base + 5 {
        (passes - base, true)
    } else {
        (5, false)
    }
}

// Whether each record came as it has to, and after as many attempts.
fn is_expected(outcome: &PhaseOutcome<'_>, published: &Published) -> bool {
    let given = outcome.parts.iter().zip(&outcome.attempts);
    let wanted = published.jobs.iter().zip(&published.records);
    for ((job, record), (part, attempts)) in wanted.zip(given) {
        let (made, comes) = expected(job.want.part().seq);
        let came = match part {
            Some(checked) => checked.octets() == record.as_slice(),
            None => false,
        };
        if *attempts != made || came != comes {
            return false;
        }
    }
    outcome.parts.len() == published.jobs.len()
}

// A phase of `workers` workers gives what is expected.
fn phase_is_expected<R: Threads + Sync + Abort + AllocGlobal>(
    rt: &R,
    published: &Published,
    workers: u32,
)
    requires jobs { All (λ job. CanBeTried 1 5 job) published.now.jobs.items }
    requires few { length published.now.jobs.items ≤ 4096 }
    requires ring { 0 < length published.now.ring }
    requires workers { (1 ≤ workers) × (workers ≤ 16) }
{
    let link = OneAttempt {
        records: &published.records,
    };
    let outcome = fetch(rt, &link, published, 5, workers);
    is(rt, is_expected(&outcome, published), "a phase");
}

// One worker alone, at a board of five tries, makes of the jobs what is expected.
fn work_is_expected(rt: &(impl Abort + AllocGlobal), published: &Published)
    requires jobs { All (λ job. CanBeTried 1 5 job) published.now.jobs.items }
    requires few { length published.now.jobs.items ≤ 4096 }
    requires ring { 0 < length published.now.ring }
{
    let link = OneAttempt {
        records: &published.records,
    };
    let made = Board::new(rt.alloc(), published.jobs.len(), 5, 1);
    let (board, mut seats) = made.expect(rt, "memory");
    let mut worker = Worker::new(seats.pop().expect(rt, "a seat"));
    worker.work(&board, &link, &published.jobs, &published.ring);
    let outcome = board.close(worker.into_seat()).expect(rt, "memory");
    let outcome = PhaseOutcome {
        parts: outcome.values,
        attempts: outcome.attempts,
    };
    is(rt, is_expected(&outcome, published), "one worker");
}

#[test]
fn outcomes_are_the_same_for_any_number_of_workers(rt: HostRuntime) {
    let published = publish(&rt, 500);
    same(&rt, published.jobs.len(), 500, "jobs");
    work_is_expected(&rt, &published);
    for workers in &WORKERS {
        assert!(rt; 1 <= *workers && *workers <= 16);
        phase_is_expected(&rt, &published, *workers);
    }
}

// The first of two workers sees all four parts asked for before it gets its answer.
fn first_sees_all<R: Threads + Sync + Abort + AllocGlobal>(rt: &R, published: &Published)
    requires jobs { All (λ job. CanBeTried 1 5 job) published.now.jobs.items }
    requires few { length published.now.jobs.items ≤ 4096 }
    requires ring { 0 < length published.now.ring }
{
    let gate = Gate {
        asked: [
            AtomicBool::new(false),
            AtomicBool::new(false),
            AtomicBool::new(false),
            AtomicBool::new(false),
        ],
        first: AtomicBool::new(false),
        saw_all: AtomicBool::new(false),
    };
    let outcome = fetch(rt, &gate, published, 1, 2);
    is(rt, gate.saw_all.load(Ordering::SeqCst), "all four parts");
    is(
        rt,
        outcome.parts.iter().all(|part| part.is_none()),
        "no part",
    );
}

#[test]
fn workers_go_on_beside_each_other(rt: HostRuntime) {
    first_sees_all(&rt, &publish(&rt, 4));
}

// SHA-256 of "abc" and of nothing (FIPS 180-4), and of 32,000 octets 0.
const ABC: [u8; 32] = [
    0xba, 0x78, 0x16, 0xbf, 0x8f, 0x01, 0xcf, 0xea, 0x41, 0x41, 0x40, 0xde, 0x5d, 0xae, 0x22, 0x23,
    0xb0, 0x03, 0x61, 0xa3, 0x96, 0x17, 0x7a, 0x9c, 0xb4, 0x10, 0xff, 0x61, 0xf2, 0x00, 0x15, 0xad,
];

const NOTHING: [u8; 32] = [
    0xe3, 0xb0, 0xc4, 0x42, 0x98, 0xfc, 0x1c, 0x14, 0x9a, 0xfb, 0xf4, 0xc8, 0x99, 0x6f, 0xb9, 0x24,
    0x27, 0xae, 0x41, 0xe4, 0x64, 0x9b, 0x93, 0x4c, 0xa4, 0x95, 0x99, 0x1b, 0x78, 0x52, 0xb8, 0x55,
];

const OF_ZEROS: [u8; 32] = [
    0x0c, 0x92, 0xbd, 0xdb, 0x4e, 0x96, 0xf3, 0xea, 0x9e, 0xc9, 0xf0, 0xf6, 0x4a, 0x66, 0x82, 0x55,
    0xa6, 0xc1, 0x55, 0x27, 0xac, 0x09, 0xf6, 0xf1, 0x19, 0xca, 0xfd, 0xe6, 0x0c, 0x7c, 0x4a, 0x39,
];

// "ab" and "c" under number 1, four times these octets under each of the 40 numbers after it, and nothing under the
// last.
fn contents<'a>(rt: &(impl Abort + AllocGlobal), octets: &'a [u8]) -> Vec<Whole<'a>> {
    let mut whole = Vec::new(rt.alloc());
    for seq in 1..43_u16 {
        let contents: [&'a [u8]; 4] = match seq {
            1 => [b"ab", b"c", b"", b""],
            42 => [b"", b"", b"", b""],
            _ => [octets, octets, octets, octets],
        };
        let made = Whole {
            publisher: 3,
            seq,
            contents: Vec::from_slice(rt.alloc(), &contents).expect(rt, "memory"),
        };
        whole.push(made).expect(rt, "memory");
    }
    whole
}

// Whether these are their digests, in order.
fn are_their_digests(digests: &[ContentsDigest]) -> bool {
    digests.iter().enumerate().all(|(place, reported)| {
        let (octets, digest) = match place {
            0 => (3, ABC),
            41 => (0, NOTHING),
            _ => (32_000, OF_ZEROS),
        };
        let seq = place as u64 + 1;
        reported.publisher == 3
            && u64::from(reported.seq) == seq
            && reported.octets == octets
            && reported.digest == digest
    })
}

fn so_many_make_them<R: Threads + Sync + Abort + AllocGlobal>(
    rt: &R,
    whole: &[Whole<'_>],
    workers: u32,
) {
    assert!(rt; 1 <= workers && workers <= 16);
    let reported = digests(rt, rt.alloc(), whole, workers).expect(rt, "memory");
    same(rt, reported.len(), 42, "digests");
    is(rt, are_their_digests(&reported), "digests");
}

#[test]
fn contents_have_their_digests_for_any_number_of_workers(rt: HostRuntime) {
    // Enough for nine threads.
    let zeros = vec![in rt.alloc(); 0u8; 8_000].expect(&rt, "memory");
    let whole = contents(&rt, &zeros);
    for workers in &WORKERS {
        so_many_make_them(&rt, &whole, *workers);
    }
}

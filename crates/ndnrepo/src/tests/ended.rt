ghost use Rattle.std.specs.Prelude.{◌≡◌, None};

use super::checks::{is, same};
use super::run_over;
use bench_net::{FixedDraws, OpenNet};
use bench_world::World;
use repo_io::*;
use std::process::Abort;
use std::test::*;
use std::thread::Threads;

const FIRST: &str = "group /g\n\
    member alice /alice 6b31\n\
    member bob /bob 6b32\n\
    publish alice /doc 10 text:abc\n\
    settle 2\n\
    catalogue alice\n\
    catalogue bob\n";

const LATER: &str = "group /g\n\
    member alice /alice 6b31\n\
    member bob /bob 6b32\n\
    publish alice /doc 10 text:abc\n\
    settle 2\n\
    advance 5\n";

// Runs on an input from a slice, and returns the status and the world.
fn run_slice<R: Threads + Sync + AllocGlobal + Abort>(
    rt: &R,
    words: &str,
    input: &str,
    end: &mut Option<World>,
) -> Status
    requires { end.old ≡ None }
{
    let mut source = ReadSource::new(input.as_bytes());
    let mut sink = WriteSink::new(Vec::<u8>::new(rt.alloc()));
    let given = (&OpenNet::new(), &FixedDraws::new(100));
    run_over(rt, words, &mut source, &mut sink, given, end)
}

// How many entries each of two members catalogues.
fn entries(world: &World) -> Option<(usize, usize)> {
    if world.members() != 2 {
        return None;
    }
    let alice = world.member(0).catalogue().entries().len();
    let bob = world.member(1).catalogue().entries().len();
    Some((alice, bob))
}

#[test]
fn the_last_world_is_left(rt: HostRuntime) {
    let mut end = None;
    same(
        &rt,
        run_slice(&rt, "run", FIRST, &mut end),
        Status::Done,
        "status",
    );
    same(&rt, end.as_ref().and_then(entries), Some((1, 1)), "entries");
}

// What the world says of its members and of itself.
fn reports_of_one_publication(rt: &impl Abort, world: &World) {
    if world.members() != 2 {
        panic!(rt; "two members");
    }
    same(
        rt,
        (world.published(0), world.published(1)),
        (1, 0),
        "published",
    );
    same(rt, world.now(), 5, "now");
    let tally = world.tally();
    same(
        rt,
        (tally.syncs, tally.delivered, tally.attempts),
        (3, 2, 0),
        "tally",
    );
    same(rt, (tally.parts, tally.octets), (2, 197), "traffic");
}

#[test]
fn the_last_world_reports_what_came_of_it(rt: HostRuntime) {
    let mut end = None;
    same(
        &rt,
        run_slice(&rt, "run", LATER, &mut end),
        Status::Done,
        "status",
    );
    match end.as_ref() {
        Some(world) => reports_of_one_publication(&rt, world),
        None => panic!(rt; "a world"),
    }
}

// What is answered. There is no world at the end.
fn leaves_none<R: Threads + Sync + AllocGlobal + Abort>(
    rt: &R,
    words: &str,
    input: &str,
) -> Status {
    let mut end = None;
    let answered = run_slice(rt, words, input, &mut end);
    is(rt, end.is_none(), words);
    answered
}

// Words, an input and the status of each.
const NO_WORLDS: [(&str, &str, Status); 6] = [
    ("run", "", Status::Done),
    ("run", "group /g\nmember alice /alice 6b31\n", Status::Done),
    ("inspect", "0700", Status::Done),
    ("gen 1 1 1", "", Status::Done),
    ("gen", "", Status::Usage),
    (
        "run",
        "group /g\nsettle 1\nsettle 0\n",
        Status::Refused { line: 3, number: 4 },
    ),
];

#[test]
fn no_world_is_left(rt: HostRuntime) {
    for (words, input, wanted) in &NO_WORLDS {
        same(&rt, leaves_none(&rt, words, input), *wanted, words);
    }
}

#[test]
fn real_readers_and_writers(rt: HostRuntime) {
    let mut octets = [0; 4];
    let mut source = ReadSource::new(b"abc".as_slice());
    same(&rt, source.read(&mut octets), Ok(3), "read");
    same(&rt, source.read(&mut octets), Ok(0), "read");
    let mut sink = WriteSink::new(Vec::<u8>::new(rt.alloc()));
    same(&rt, sink.write(b"abc"), Ok(3), "write");
}

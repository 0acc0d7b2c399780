ghost use Rattle.std.specs.Prelude.{◌≤◌};

use super::checks::{is, same, same_text};
use super::{call_alone, compare, status_of};
use repo_io::*;
use sha2::{Digest, Sha256};
use std::process::Abort;
use std::str;
use std::test::*;
use std::thread::Threads;

const SCRIPT: &str = "group /g\n\
    member m1 /n/1 6b01\n\
    publish m1 /o/1 100 fill:300:123\n\
    publish m1 /o/2 100 fill:200:238\n\
    publish m1 /o/3 100 fill:200:120\n\
    publish m1 /o/4 100 fill:300:26\n\
    publish m1 /o/5 100 fill:300:76\n\
    publish m1 /o/6 100 fill:100:127\n\
    publish m1 /o/7 100 fill:200:147\n\
    publish m1 /o/8 100 fill:400:119\n\
    publish m1 /o/9 100 fill:500:91\n\
    publish m1 /o/10 100 fill:400:233\n\
    deliver 10 m1\n\
    fetch m1 4 3 200\n\
    settle 4\n\
    summary\n";

// Expects what is generated where one call of the sink fails. The source would fail if it were read.
fn expect_generated<R: Threads + Sync + AllocGlobal + Abort>(
    rt: &R,
    piece: usize,
    fails: u64,
    wanted: Status,
    text: &str,
)
    requires { 1 ≤ piece }
{
    let mut sink = VecSink::new(rt.alloc(), piece, call_alone(rt, fails));
    let answered = generate(rt, "gen 1 10 0", &mut sink);
    compare(rt, (answered, sink.octets()), wanted, text);
}

fn generate<R: Threads + Sync + AllocGlobal + Abort>(
    rt: &R,
    words: &str,
    sink: &mut VecSink,
) -> Status {
    let mut source = VecSource::new(Vec::new(rt.alloc()), 1, call_alone(rt, 1));
    status_of(rt, words, &mut source, sink)
}

// The whole script.
fn generated<R: Threads + Sync + AllocGlobal + Abort>(rt: &R, words: &str) -> Vec<u8> {
    let mut sink = VecSink::new(rt.alloc(), 5_000, Vec::new(rt.alloc()));
    same(rt, generate(rt, words, &mut sink), Status::Done, words);
    sink.octets().to_vec(rt.alloc()).expect(rt, "memory")
}

#[test]
fn a_script_is_generated(rt: HostRuntime) {
    expect_generated(&rt, 1, 0, Status::Done, SCRIPT);
    expect_generated(&rt, 7, 0, Status::Done, SCRIPT);
    expect_generated(&rt, 5_000, 0, Status::Done, SCRIPT);
    // A line in each call: the second call fails after the group's line.
    let line = "group /g\n";
    expect_generated(&rt, 5_000, 2, Status::WriteFault, line);
    // Pieces of seven octets: the third call fails inside the member's line.
    let lines = "group /g\nmember ";
    expect_generated(&rt, 7, 4, Status::WriteFault, lines);
}

// Words, and the SHA-256 of what is generated.
const LARGEST: [(&str, &str); 2] = [
    (
        "gen 16 2000 1",
        "2ddfc47cc744808d56eb818ec68aa272c75c7f5dc07a2f35fae077c2d2d7f9a9",
    ),
    (
        "gen 16 2000 999999999999999999",
        "a12db5b014876cc23a2a33bcd6859bd8f40404b47be304eeaf029e63de77dd75",
    ),
];

#[test]
fn the_largest_script_is_generated(rt: HostRuntime) {
    for (words, digest) in &LARGEST {
        has_digest(&rt, &generated(&rt, words), digest);
    }
}

fn has_digest(rt: &(impl Abort + AllocGlobal), script: &[u8], digest: &str) {
    let digits = hex::encode(rt.alloc(), Sha256::digest(script).as_slice());
    same_text(rt, &digits.expect(rt, "memory"), digest);
}

// How many octets a line publishes, which is a multiple of 100.
fn published(line: &str) -> Option<u64> {
    let (_, fill) = line.strip_prefix("publish ")?.split_once("fill:")?;
    let (count, _) = fill.split_once(':')?;
    count.parse().ok()
}

// The summary of a script of eight members, where all of them hold all that is published.
fn summary(rt: &(impl Abort + AllocGlobal), script: &[u8]) -> String {
    let mut octets: u64 = 0;
    for line in str::from_utf8(script).unwrap_or("").split('\n') {
        octets = octets.saturating_add(published(line).unwrap_or(0));
    }
    let segments = octets / 100;
    let mut last = String::new(rt.alloc());
    for j in 1..=8 {
        write!(
            last,
            "summary m{j} entries 400 segments {segments} octets {octets}\n"
        )
        .expect(rt, "memory");
    }
    last
}

fn expect_summary<R: Threads + Sync + AllocGlobal + Abort>(rt: &R, script: &[u8], last: &str) {
    let mut source = ReadSource::new(script);
    let mut sink = VecSink::new(rt.alloc(), 5_000, Vec::new(rt.alloc()));
    same(
        rt,
        status_of(rt, "run", &mut source, &mut sink),
        Status::Done,
        "status",
    );
    is(rt, sink.octets().ends_with(last.as_bytes()), last);
}

#[test]
fn a_generated_script_runs(rt: HostRuntime) {
    let script = generated(&rt, "gen 8 400 1");
    let last = summary(&rt, &script);
    expect_summary(&rt, &script, &last);
}

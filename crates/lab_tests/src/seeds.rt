use super::checks::{is, put, same, source_of, status_of, words_of};
use bench_net::Seeded;
use lab_top::{LabStatus, VecSink};
use repo_io::{ReadSource, Status};
use repo_top::run;
use std::process::Abort;
use std::str;
use std::test::*;
use std::thread::Threads;

// A publication of 11 parts, of whose attempts half are lost.
const LOSSY: &str = "group /g\n\
    member alice /alice 6b31\n\
    member bob /bob 6b32\n\
    publish alice /doc 10 fill:95:65\n\
    deliver 1 bob\n\
    fetch bob 1 16 500\n\
    fetch bob 4 4 500\n";

// The script with a last line that prints what was counted.
const COUNTED: &str = "group /g\n\
    member alice /alice 6b31\n\
    member bob /bob 6b32\n\
    publish alice /doc 10 fill:95:65\n\
    deliver 1 bob\n\
    fetch bob 1 16 500\n\
    fetch bob 4 4 500\n\
    traffic\n";

// Carries out the script with its last line under a seed.
fn run_under<R: Threads + Sync + AllocGlobal + Abort>(
    rt: &R,
    seed: u8,
    sink: &mut VecSink,
) -> Status {
    let mut octets = [0; 32];
    octets[0] = seed;
    let seeded = Seeded::new(octets);
    let words = words_of(rt, "run");
    let mut source = ReadSource::new(COUNTED.as_bytes());
    let mut end = None;
    run(
        rt,
        rt.alloc(),
        &words,
        &mut source,
        sink,
        &seeded,
        &seeded,
        &mut end,
    )
}

// Appends what a run under a seed counts, as its last line has it.
fn put_counted<R: Threads + Sync + AllocGlobal + Abort>(rt: &R, seed: u8, line: &mut String) {
    let mut sink = VecSink::new(rt.alloc(), 100, Vec::new(rt.alloc()));
    let answered = run_under(rt, seed, &mut sink);
    same(rt, answered, Status::Done, "a run");
    let report = str::from_utf8(sink.octets()).expect(rt, "a report");
    for printed in report.lines() {
        if let Some(counted) = printed.strip_prefix("traffic ") {
            put(rt, line, counted);
        }
    }
}

// The line that is written of a seed says what a run under it counts.
fn expect_counted<R: Threads + Sync + AllocGlobal + Abort>(rt: &R, seed: u8, line: &str) {
    let mut counted = String::new(rt.alloc());
    write!(counted, "seed {seed} done ").expect(rt, "memory");
    put_counted(rt, seed, &mut counted);
    put(rt, &mut counted, " listed ");
    is(rt, line.starts_with(counted.as_str()), line);
}

// Expects a line of each seed from 0 on, and says how many there are.
fn expect_lines<R: Threads + Sync + AllocGlobal + Abort>(rt: &R, text: &str) -> u8 {
    let mut seed: u8 = 0;
    for line in text.lines() {
        if line.starts_with("seed ") {
            expect_counted(rt, seed, line);
            seed = seed.saturating_add(1);
        }
    }
    seed
}

#[test]
fn seeds_are_runs(rt: HostRuntime) {
    let mut sink = VecSink::new(rt.alloc(), 100, Vec::new(rt.alloc()));
    let mut source = source_of(&rt, LOSSY.as_bytes(), 100, Vec::new(rt.alloc()));
    let answered = status_of(&rt, "seeds 0 9 4", &mut source, &mut sink);
    same(&rt, answered, LabStatus::Done, "seeds 0 9 4");
    let text = str::from_utf8(sink.octets()).expect(&rt, "a text");
    same(&rt, expect_lines(&rt, text), 10, "seeds");
}

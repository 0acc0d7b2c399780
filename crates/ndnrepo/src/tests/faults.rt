use super::checks::{is, same};
use super::{INSERTION, PRINTED, call_alone, expect_from, put, report_of, script_of, status_of};
use repo_io::*;
use std::process::Abort;
use std::test::*;
use std::thread::Threads;

// Each line with what it prints after it.
const FIRST: &str = "group /g\n\
    member alice /alice 6b31\n\
    member bob /bob 6b32\n\
    publish alice /doc 10 text:abc\n\
    > publish alice 1 segments 1 sync 1\n\
    settle 2\n\
    > settle syncs 2 kept 2\n\
    catalogue bob\n\
    > catalogue bob 1\n\
    > entry alice 1 /doc segments 1 octets 3 sha256 \
    ba7816bf8f01cfea414140de5dae2223b00361a396177a9cb410ff61f20015ad\n";

// The report of the lines that the first `octets` octets of the script have whole.
fn report_within(rt: &(impl Abort + AllocGlobal), transcript: &str, octets: usize) -> String {
    let mut report = String::new(rt.alloc());
    let mut end: usize = 0;
    for line in transcript.split_inclusive('\n') {
        match line.strip_prefix(PRINTED) {
            Some(printed) if end <= octets => put(rt, &mut report, printed),
            Some(_) => {}
            None => end = end.saturating_add(line.len()),
        }
    }
    report
}

// Expects this of an input in pieces of 20 octets, where this call fails.
fn expect_from_failing<R: Threads + Sync + AllocGlobal + Abort>(
    rt: &R,
    script: &str,
    call: u64,
    wanted: Status,
    text: &str,
) {
    let script = script.as_bytes().to_vec(rt.alloc()).expect(rt, "memory");
    let mut source = VecSource::new(script, 20, call_alone(rt, call));
    expect_from(rt, "run", &mut source, wanted, text);
}

// A source of pieces of 20 octets fails at a call: each call before gave 20 octets.
fn expect_read_fault<R: Threads + Sync + AllocGlobal + Abort>(
    rt: &R,
    transcript: &str,
    script: &str,
    call: u64,
) {
    let given = call.saturating_sub(1).saturating_mul(20) as usize;
    let report = report_within(rt, transcript, given);
    expect_from_failing(rt, script, call, Status::ReadFault, &report);
}

#[test]
fn what_was_read_whole_is_reported(rt: HostRuntime) {
    for transcript in &[FIRST, INSERTION] {
        let script = script_of(&rt, "", transcript);
        let pieces = script.len().div_ceil(20) as u64;
        // One more call sees the end.
        for call in 1..=pieces + 1 {
            expect_read_fault(&rt, transcript, &script, call);
        }
    }
}

// A last line without a line feed is whole once the end was seen.
#[test]
fn the_last_line_is_whole_at_the_end(rt: HostRuntime) {
    let script = script_of(&rt, "", FIRST);
    let script = script.strip_suffix('\n').expect(&rt, "a line feed");
    let report = report_of(&rt, FIRST);
    let pieces = script.len().div_ceil(20) as u64;
    let before = "publish alice 1 segments 1 sync 1\nsettle syncs 2 kept 2\n";
    expect_from_failing(&rt, script, pieces + 1, Status::ReadFault, before);
    expect_from_failing(&rt, script, pieces + 2, Status::Done, &report);
}

// What is answered where a call of a sink of pieces of 8 octets fails, and how much was written, a prefix of the
// report.
fn written_until<R: Threads + Sync + AllocGlobal + Abort>(
    rt: &R,
    script: &str,
    report: &str,
    call: u64,
) -> (Status, usize) {
    let mut source = ReadSource::new(script.as_bytes());
    let mut sink = VecSink::new(rt.alloc(), 8, call_alone(rt, call));
    let answered = status_of(rt, "run", &mut source, &mut sink);
    let prefix = report.as_bytes().starts_with(sink.octets());
    same(rt, (call, prefix), (call, true), "a front");
    (answered, sink.octets().len())
}

// Whether the call failed: then less than the whole was written, and else the whole.
fn fails_at<R: Threads + Sync + AllocGlobal + Abort>(
    rt: &R,
    script: &str,
    report: &str,
    call: u64,
) -> bool {
    let (answered, written) = written_until(rt, script, report, call);
    let most = call.saturating_sub(1).saturating_mul(8);
    if answered == Status::WriteFault {
        same(rt, (call, written < report.len()), (call, true), "not all");
        same(rt, (call, written as u64 <= most), (call, true), "no more");
        return true;
    }
    same(rt, (call, answered), (call, Status::Done), "status");
    same(rt, (call, written), (call, report.len()), "written");
    false
}

// Each call that is made fails in turn, and those after the last that is made don't.
#[test]
fn a_prefix_of_the_report_is_written(rt: HostRuntime) {
    for transcript in &[FIRST, INSERTION] {
        let script = script_of(&rt, "", transcript);
        let report = report_of(&rt, transcript);
        let failed = failing_calls(&rt, &script, &report);
        is(&rt, failed >= report.len().div_ceil(8), transcript);
    }
}

// How many calls of the sink fail, the first at least.
fn failing_calls<R: Threads + Sync + AllocGlobal + Abort>(
    rt: &R,
    script: &str,
    report: &str,
) -> usize {
    is(rt, fails_at(rt, script, report, 1), "the first call");
    let mut failed: usize = 1;
    for call in 2..=report.len() as u64 {
        if !fails_at(rt, script, report, call) {
            break;
        }
        failed = failed.saturating_add(1);
    }
    failed
}

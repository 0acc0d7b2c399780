use super::checks::{call_alone, is, put, same, source_of, status_of};
use super::rows::FIRST;
use lab_top::{LabStatus, VecSink};
use std::process::Abort;
use std::test::*;
use std::thread::Threads;

// What is answered over pieces of 20 octets, where one call of the source or of the sink fails, and what was written in
// pieces of 8 octets.
fn run_failing<R: Threads + Sync + AllocGlobal + Abort>(
    rt: &R,
    words: &str,
    read: u64,
    write: u64,
    written: &mut Vec<u8>,
) -> LabStatus {
    let mut source = source_of(rt, FIRST.as_bytes(), 20, call_alone(rt, read));
    let mut sink = VecSink::new(rt.alloc(), 8, call_alone(rt, write));
    let answered = status_of(rt, words, &mut source, &mut sink);
    written.clear();
    written
        .extend_from_slice(sink.octets())
        .expect(rt, "memory");
    answered
}

// The whole lines among the first `octets` octets of the transcript: a transcript by themselves.
fn lines_within(rt: &(impl Abort + AllocGlobal), octets: usize) -> String {
    let mut text = String::new(rt.alloc());
    let mut end: usize = 0;
    let mut within = true;
    for line in FIRST.split_inclusive('\n') {
        end = end.saturating_add(line.len());
        if !line.starts_with("#> ") {
            within = end <= octets;
        }
        if within {
            put(rt, &mut text, line);
        }
    }
    text
}

// A source that fails at a call has given 20 octets in each before. Each line that was read whole is written, with its
// whole report.
fn expect_read_fault<R: Threads + Sync + AllocGlobal + Abort>(
    rt: &R,
    call: u64,
    written: &mut Vec<u8>,
) {
    let answered = run_failing(rt, "transcript", call, 0, written);
    same(rt, answered, LabStatus::ReadFault, "status");
    let text = lines_within(rt, call.saturating_sub(1).saturating_mul(20) as usize);
    is(rt, text.as_bytes() == written.as_slice(), "lines");
}

#[test]
fn lines_that_were_read_whole_are_written(rt: HostRuntime) {
    let mut written = Vec::new(rt.alloc());
    let pieces = FIRST.len().div_ceil(20) as u64;
    // One more call sees the end.
    for call in 1..=pieces + 1 {
        expect_read_fault(&rt, call, &mut written);
    }
}

// The words of each form.
const FORMS: [&str; 6] = [
    "transcript",
    "trace",
    "check",
    "lint",
    "seeds 0 3 2",
    "draw",
];

// Each call of the sink that is made fails in turn. Then a prefix of the text was written and not all of it, and once
// none fails the whole.
fn expect_prefixes<R: Threads + Sync + AllocGlobal + Abort>(
    rt: &R,
    words: &str,
    whole: &[u8],
    written: &mut Vec<u8>,
) {
    for call in 1..=100_000 {
        let answered = run_failing(rt, words, 0, call, written);
        if answered != LabStatus::WriteFault {
            same(rt, answered, LabStatus::Done, words);
            is(rt, written.as_slice() == whole, words);
            return;
        }
        let before = call.saturating_sub(1).saturating_mul(8);
        is(
            rt,
            written.len() < whole.len() && written.len() as u64 <= before,
            words,
        );
        is(rt, whole.starts_with(written), words);
    }
}

#[test]
fn a_prefix_of_the_text_is_written(rt: HostRuntime) {
    let mut whole = Vec::new(rt.alloc());
    let mut written = Vec::new(rt.alloc());
    for words in &FORMS {
        same(
            &rt,
            run_failing(&rt, words, 0, 0, &mut whole),
            LabStatus::Done,
            words,
        );
        is(&rt, !whole.is_empty(), words);
        same(
            &rt,
            run_failing(&rt, words, 3, 0, &mut written),
            LabStatus::ReadFault,
            words,
        );
        is(&rt, whole.starts_with(&written), words);
        expect_prefixes(&rt, words, &whole, &mut written);
    }
}

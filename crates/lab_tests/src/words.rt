use super::checks::{call_alone, is, same, source_of, status_of};
use lab_top::{LabStatus, VecSink};
use std::process::Abort;
use std::test::*;
use std::thread::Threads;

// A line for each form.
const USAGE: &str = "ndnlab transcript [SEED]\n\
    ndnlab trace [SEED]\n\
    ndnlab check [SEED]\n\
    ndnlab lint\n\
    ndnlab seeds FIRST LAST WORKERS\n\
    ndnlab capture [SEED]\n\
    ndnlab draw [SEED]\n";

const OTHER_WORDS: [&str; 25] = [
    "",
    "run",
    "traces",
    "captures",
    "transcripts",
    "Lint",
    "transcript x",
    "transcript 1 2",
    "transcript 01",
    "transcript 00",
    "transcript +1",
    "transcript -1",
    "transcript 18446744073709551616",
    "transcript 100000000000000000000",
    "trace 1 2",
    "check 1.0",
    "draw 01",
    "lint 1",
    "seeds",
    "seeds 0 9",
    "seeds 0 9 4 4",
    "seeds 9 0 4",
    "seeds 0 10000 4",
    "seeds 0 9 0",
    "seeds 0 9 17",
];

// Nothing is read, though each call would fail. The usage is written, or a prefix of it.
fn expect_usage<R: Threads + Sync + AllocGlobal + Abort>(rt: &R, words: &str, failing: u64) {
    let mut source = source_of(rt, b"group /g\n", 100, call_alone(rt, 1));
    let mut sink = VecSink::new(rt.alloc(), 50, call_alone(rt, failing));
    let answered = status_of(rt, words, &mut source, &mut sink);
    same(rt, answered, LabStatus::Usage, words);
    let written = if failing == 2 { 50 } else { USAGE.len() };
    is(
        rt,
        USAGE.as_bytes().get(..written) == Some(sink.octets()),
        words,
    );
}

#[test]
fn other_words_are_answered_by_the_usage(rt: HostRuntime) {
    for words in &OTHER_WORDS {
        expect_usage(&rt, words, 0);
        expect_usage(&rt, words, 2);
    }
}

#[test]
fn statuses_have_their_codes(rt: HostRuntime) {
    let statuses = [
        LabStatus::Done,
        LabStatus::Usage,
        LabStatus::Refused,
        LabStatus::ReadFault,
        LabStatus::WriteFault,
        LabStatus::NoMemory,
        LabStatus::Foreign,
        LabStatus::Differs,
    ];
    for (code, status) in statuses.iter().enumerate() {
        same(&rt, usize::from(status.code()), code, "a code");
    }
}

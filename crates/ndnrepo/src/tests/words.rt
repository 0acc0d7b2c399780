use super::checks::{is, same};
use super::{call_alone, status_of};
use repo_io::*;
use std::process::Abort;
use std::test::*;
use std::thread::Threads;

// Words of no form are answered at once, though each call would fail.
fn expect_usage<R: Threads + Sync + AllocGlobal + Abort>(rt: &R, words: &str) {
    let mut source = VecSource::new(Vec::new(rt.alloc()), 100, call_alone(rt, 1));
    let mut sink = VecSink::new(rt.alloc(), 100, call_alone(rt, 1));
    let answered = status_of(rt, words, &mut source, &mut sink);
    same(rt, answered, Status::Usage, words);
    is(rt, sink.octets().is_empty(), words);
}

const OTHER_WORDS: [&str; 16] = [
    "",
    "run x",
    "inspect run",
    "gen",
    "gen 1 1",
    "gen 1 1 1 1",
    "run 1 1 1",
    "gen 0 1 1",
    "gen 17 1 1",
    "gen 1 0 1",
    "gen 1 2001 1",
    "gen 1 1 1000000000000000000",
    "gen 01 1 1",
    "gen 1 1 00",
    "gen 1 1 +1",
    "gen 1 1 x",
];

#[test]
fn other_words_touch_nothing(rt: HostRuntime) {
    for words in &OTHER_WORDS {
        expect_usage(&rt, words);
    }
}

#[test]
fn statuses_have_their_codes(rt: HostRuntime) {
    let refused = Status::Refused { line: 9, number: 4 };
    same(&rt, Status::Done.code(), 0, "status");
    same(&rt, Status::Usage.code(), 1, "status");
    same(&rt, refused.code(), 2, "status");
    same(&rt, Status::ReadFault.code(), 3, "status");
    same(&rt, Status::WriteFault.code(), 4, "status");
    same(&rt, Status::NoMemory.code(), 5, "status");
    same(&rt, Status::Foreign { line: 9 }.code(), 6, "status");
}

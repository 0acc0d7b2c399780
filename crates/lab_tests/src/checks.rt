// What tests expect of a call of the lab, and the row that is named where it is otherwise.
//
// Each check is a call: an `assert!` is a way out of the function that it stands in, and proved there.
ghost use Rattle.std.specs.Prelude.{◌≤◌};

use lab_top::{LabStatus, Sink, Source, VecSink, VecSource, run_lab};
use std::fmt::Debug;
use std::process::Abort;
use std::str;
use std::thread::Threads;

// This is so.
pub(super) fn is(rt: &impl Abort, fact: bool, row: &str) {
    assert!(rt; fact, "{row}");
}

// Both are the same.
pub(super) fn same<T: Debug + PartialEq + Drop>(rt: &impl Abort, found: T, wanted: T, row: &str) {
    assert!(rt; found == wanted, "{row}: {found:?}, and not {wanted:?}");
}

// Both are the same text.
fn same_text(rt: &impl Abort, found: &str, wanted: &str, row: &str) {
    assert!(rt; found == wanted, "{row}: {found}, and not {wanted}");
}

// The words that the command line has.
pub(super) fn words_of(rt: &(impl Abort + AllocGlobal), text: &str) -> Vec<String> {
    let mut words = Vec::new(rt.alloc());
    for word in text.split_whitespace() {
        let word = String::from_str(rt.alloc(), word).expect(rt, "memory");
        words.push(word).expect(rt, "memory");
    }
    words
}

// What is answered to words.
pub(super) fn status_of<R: Threads + Sync + AllocGlobal + Abort, S: Source, K: Sink>(
    rt: &R,
    words: &str,
    source: &mut S,
    sink: &mut K,
) -> LabStatus {
    run_lab(rt, rt.alloc(), &words_of(rt, words), source, sink)
}

// Expects a status and what is written.
pub(super) fn expect_from<R: Threads + Sync + AllocGlobal + Abort, S: Source>(
    rt: &R,
    words: &str,
    source: &mut S,
    wanted: LabStatus,
    text: &str,
) {
    let mut sink = VecSink::new(rt.alloc(), 100, Vec::new(rt.alloc()));
    let answered = status_of(rt, words, source, &mut sink);
    let written = str::from_utf8(sink.octets()).expect(rt, "a text");
    same_text(rt, written, text, words);
    same(rt, answered, wanted, words);
}

// A source of these octets in pieces of `piece` octets, of which the calls `fails` fail.
pub(super) fn source_of(
    rt: &(impl Abort + AllocGlobal),
    octets: &[u8],
    piece: usize,
    fails: Vec<u64>,
) -> VecSource
    requires { 1 ≤ piece }
{
    let octets = octets.to_vec(rt.alloc()).expect(rt, "memory");
    VecSource::new(octets, piece, fails)
}

// The list of one call of a source or a sink.
pub(super) fn call_alone(rt: &(impl Abort + AllocGlobal), call: u64) -> Vec<u64> {
    vec![in rt.alloc(); call].expect(rt, "memory")
}

// Appends a text.
pub(super) fn put(rt: &impl Abort, text: &mut String, more: &str) {
    text.push_str(more).expect(rt, "memory");
}

ghost use Rattle.std.specs.Prelude.{◌≡◌, ◌≤◌, None};

mod actors;
mod faults;
mod refused;
mod rows;

use bench_net::FixedDraws;
use live_group::{Gate, OpenGate};
use live_settle::Ran;
use live_top::run_live;
use repo_io::*;
use std::process::Abort;
use std::str;
use std::sync::Wait;
use std::thread::Threads;

// The group and its members, before other lines.
const PRE: &str = "group /g\nmember alice /alice 6b31\nmember bob /bob 6b32\n";

// The words that the command line has.
fn words_of(rt: &(impl Abort + AllocGlobal), text: &str) -> Vec<String> {
    let mut words = Vec::new(rt.alloc());
    for word in text.split_whitespace() {
        let word = String::from_str(rt.alloc(), word).expect(rt, "memory");
        words.push(word).expect(rt, "memory");
    }
    words
}

// Runs with these words and a gate, where each draw is 100.
fn run_through<R: Threads + Wait + Sync + AllocGlobal + Abort, S: Source, K: Sink, G: Gate + Sync>(
    rt: &R,
    words: &str,
    source: &mut S,
    sink: &mut K,
    gate: &G,
    end: &mut Option<Vec<Ran>>,
) -> Status
    requires { end.old ≡ None }
{
    let words = words_of(rt, words);
    let draws = FixedDraws::new(100);
    run_live(rt, rt.alloc(), &words, source, sink, &draws, gate, end)
}

// Runs with these words, and expects that members are left exactly where the run is done.
fn status_of<R: Threads + Wait + Sync + AllocGlobal + Abort, S: Source, K: Sink>(
    rt: &R,
    words: &str,
    source: &mut S,
    sink: &mut K,
) -> Status {
    let mut end = None;
    let answered = run_through(rt, words, source, sink, &OpenGate::new(), &mut end);
    assert_eq!(rt; end.is_some(), answered == Status::Done);
    answered
}

// Expects a status and a text of a run over an input that is read in pieces of `piece` octets.
fn expect<R: Threads + Wait + Sync + AllocGlobal + Abort>(
    rt: &R,
    words: &str,
    piece: usize,
    input: &[u8],
    wanted: Status,
    text: &str,
)
    requires { 1 ≤ piece }
{
    let input = input.to_vec(rt.alloc()).expect(rt, "memory");
    let mut source = VecSource::new(input, piece, Vec::new(rt.alloc()));
    let mut sink = VecSink::new(rt.alloc(), 100, Vec::new(rt.alloc()));
    let answered = status_of(rt, words, &mut source, &mut sink);
    assert_eq!(rt; str::from_utf8(sink.octets()), Ok(text));
    assert_eq!(rt; answered, wanted);
}

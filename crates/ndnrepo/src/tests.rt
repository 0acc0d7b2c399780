ghost use Rattle.std.specs.Prelude.{◌≡◌, ◌≤◌, None};

mod changed;
mod checks;
mod ended;
mod events;
mod faults;
mod generated;
mod inspected;
mod interrupted;
mod joined;
mod kinds;
mod mirrors;
mod refused;
mod rows;
mod seeded;
mod serial;
mod streams;
mod words;

use self::checks::{is, same};
use bench_net::{Draws, FixedDraws, Net, OpenNet};
use bench_world::World;
use repo_io::*;
use repo_top::run;
use std::process::Abort;
use std::str;
use std::thread::Threads;

// The group and its members, before other lines.
const PRE: &str = "group /g\nmember alice /alice 6b31\nmember bob /bob 6b32\n";

// In a transcript this stands before each line that a script's line prints.
const PRINTED: &str = "> ";

// An insertion is begun, filled and deleted.
const INSERTION: &str = "group /g\n\
    member alice /alice 6b31\n\
    member bob /bob 6b32\n\
    client carl /carl 6b34\n\
    insert alice carl /in 5 6\n\
    > insert alice 100 process 1\n\
    status alice carl 1\n\
    > status alice 300 inserted 0\n\
    block alice 1 5 text:ab\n\
    > block alice 300\n\
    status alice carl 1\n\
    > status alice 300 inserted 1\n\
    block alice 1 6 text:c\n\
    > block alice 200 published 1 sync 1\n\
    status alice carl 1\n\
    > status alice 200 inserted 2\n\
    status alice carl 9\n\
    > status alice 404\n\
    settle 1\n\
    > settle syncs 2 kept 3\n\
    delete alice carl /in\n\
    > delete alice 200 packets 3\n\
    delete alice carl /in\n\
    > delete alice 404\n\
    settle 1\n\
    > settle syncs 2 kept 0\n\
    catalogue alice\n\
    > catalogue alice 0\n\
    catalogue bob\n\
    > catalogue bob 1\n\
    > entry alice 1 /in segments 2 octets 3 sha256 \
    ba7816bf8f01cfea414140de5dae2223b00361a396177a9cb410ff61f20015ad\n";

// The words that the command line has.
fn words_of(rt: &(impl Abort + AllocGlobal), text: &str) -> Vec<String> {
    let mut words = Vec::new(rt.alloc());
    for word in text.split_whitespace() {
        let word = String::from_str(rt.alloc(), word).expect(rt, "memory");
        words.push(word).expect(rt, "memory");
    }
    words
}

// Runs with these words.
fn run_over<R: Threads + Sync + AllocGlobal + Abort, S: Source, K: Sink, N: Net + Sync, D: Draws>(
    rt: &R,
    words: &str,
    source: &mut S,
    sink: &mut K,
    given: (&N, &D),
    end: &mut Option<World>,
) -> Status
    requires { end.old ≡ None }
{
    let words = words_of(rt, words);
    run(rt, rt.alloc(), &words, source, sink, given.0, given.1, end)
}

// Runs with these words over an open network. There is a world at the end only of a run that is done.
fn status_of<R: Threads + Sync + AllocGlobal + Abort, S: Source, K: Sink>(
    rt: &R,
    words: &str,
    source: &mut S,
    sink: &mut K,
) -> Status {
    let given = (&OpenNet::new(), &FixedDraws::new(100));
    let mut end = None;
    let answered = run_over(rt, words, source, sink, given, &mut end);
    is(rt, end.is_none() || answered == Status::Done, words);
    answered
}

// Expects this status and this text of what was answered and written.
fn compare(rt: &impl Abort, came: (Status, &[u8]), wanted: Status, text: &str) {
    same(rt, str::from_utf8(came.1), Ok(text), "printed");
    same(rt, came.0, wanted, "status");
}

// Expects a status and a text of a run with these words over this source.
fn expect_from<R: Threads + Sync + AllocGlobal + Abort, S: Source>(
    rt: &R,
    words: &str,
    source: &mut S,
    wanted: Status,
    text: &str,
) {
    let mut sink = VecSink::new(rt.alloc(), 100, Vec::new(rt.alloc()));
    let answered = status_of(rt, words, source, &mut sink);
    compare(rt, (answered, sink.octets()), wanted, text);
}

// Expects a status and a text of a run with these words over an input in pieces of `piece` octets.
fn expect<R: Threads + Sync + AllocGlobal + Abort>(
    rt: &R,
    words: &str,
    piece: usize,
    input: &[u8],
    wanted: Status,
    text: &str,
)
    requires { 1 ≤ piece }
{
    let input = input.to_vec(rt.alloc()).expect(rt, "memory");
    let mut source = VecSource::new(input, piece, Vec::new(rt.alloc()));
    expect_from(rt, words, &mut source, wanted, text);
}

// The list of one call of a source or a sink.
fn call_alone(rt: &(impl Abort + AllocGlobal), call: u64) -> Vec<u64> {
    vec![in rt.alloc(); call].expect(rt, "memory")
}

// Appends a text.
fn put(rt: &impl Abort, text: &mut String, more: &str) {
    text.push_str(more).expect(rt, "memory");
}

// The lines of a transcript without what they print.
fn script_of(rt: &(impl Abort + AllocGlobal), head: &str, transcript: &str) -> String {
    let mut script = String::from_str(rt.alloc(), head).expect(rt, "memory");
    for line in transcript.split_inclusive('\n') {
        if !line.starts_with(PRINTED) {
            put(rt, &mut script, line);
        }
    }
    script
}

// What the lines of a transcript print.
fn report_of(rt: &(impl Abort + AllocGlobal), transcript: &str) -> String {
    let mut report = String::new(rt.alloc());
    for line in transcript.split_inclusive('\n') {
        if let Some(printed) = line.strip_prefix(PRINTED) {
            put(rt, &mut report, printed);
        }
    }
    report
}

fn expect_transcript<R: Threads + Sync + AllocGlobal + Abort>(
    rt: &R,
    head: &str,
    transcript: &str,
    wanted: Status,
) {
    let script = script_of(rt, head, transcript);
    let report = report_of(rt, transcript);
    expect(rt, "run", 100, script.as_bytes(), wanted, &report);
}

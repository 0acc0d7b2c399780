use super::checks::{is, same};
use super::{PRE, put, status_of};
use repo_io::*;
use std::process::Abort;
use std::str;
use std::test::*;
use std::thread::Threads;

const NONE: &str = "";

const DOC: &str = "\
    entry alice 1 /doc segments 3 octets 3 sha256 \
    ba7816bf8f01cfea414140de5dae2223b00361a396177a9cb410ff61f20015ad\n";

const A: &str = "\
    entry alice 1 /a segments 1 octets 3 sha256 \
    ba7816bf8f01cfea414140de5dae2223b00361a396177a9cb410ff61f20015ad\n";

const A_AND_B: &str = "\
    entry alice 1 /a segments 1 octets 3 sha256 \
    ba7816bf8f01cfea414140de5dae2223b00361a396177a9cb410ff61f20015ad\n\
    entry alice 2 /b segments 1 octets 3 sha256 \
    ba7816bf8f01cfea414140de5dae2223b00361a396177a9cb410ff61f20015ad\n";

const B: &str = "\
    entry alice 2 /b segments 1 octets 3 sha256 \
    ba7816bf8f01cfea414140de5dae2223b00361a396177a9cb410ff61f20015ad\n";

const TWO_PUBLISHERS: &str = "\
    entry alice 1 /doc segments 3 octets 3 sha256 \
    ba7816bf8f01cfea414140de5dae2223b00361a396177a9cb410ff61f20015ad\n\
    entry bob 1 /doc segments 5 octets 5 sha256 \
    2cf24dba5fb0a30e26e83b2ac5b9e29e1b161e5c1fa7425e73043362938b9824\n";

const INSERTED: &str = "\
    entry alice 1 /doc segments 3 octets 3 sha256 \
    ba7816bf8f01cfea414140de5dae2223b00361a396177a9cb410ff61f20015ad\n\
    entry alice 2 /in segments 2 octets 3 sha256 \
    ba7816bf8f01cfea414140de5dae2223b00361a396177a9cb410ff61f20015ad\n\
    entry bob 1 /doc segments 5 octets 5 sha256 \
    2cf24dba5fb0a30e26e83b2ac5b9e29e1b161e5c1fa7425e73043362938b9824\n";

// Lines, each with all that was published when it was carried out, as it is catalogued.
const STORIES: [&[(&str, &str)]; 5] = [
    // Part after part is claimed and answered.
    &[
        ("publish alice /doc 1 text:abc", DOC),
        ("deliver 1 bob", DOC),
        ("claim bob 1", DOC),
        ("answer bob 1 alice", DOC),
        ("claim bob 1", DOC),
        ("answer bob 1 alice", DOC),
        ("claim bob 1", DOC),
        ("answer bob 1 alice", DOC),
        ("catalogue bob", DOC),
        ("claim bob 1", DOC),
        ("answer bob 1 alice", DOC),
        ("catalogue bob", DOC),
    ],
    // A settle ends claims.
    &[
        ("publish alice /doc 1 text:abc", DOC),
        ("deliver 1 bob", DOC),
        ("claim bob 1", DOC),
        ("answer bob 1 alice", DOC),
        ("claim bob 1", DOC),
        ("answer bob 1 alice", DOC),
        ("claim bob 1", DOC),
        ("settle 2", DOC),
        ("catalogue bob", DOC),
        ("claim bob 1", DOC),
    ],
    // Timers fire.
    &[
        ("fire bob", NONE),
        ("publish alice /a 10 text:abc", A),
        ("publish alice /b 10 text:abc", A_AND_B),
        ("deliver 2 bob", A_AND_B),
        ("deliver 1 bob", A_AND_B),
        ("deliver 2 bob", A_AND_B),
        ("advance 100", A_AND_B),
        ("fire bob", A_AND_B),
        ("deliver 1 bob", A_AND_B),
        ("advance 100", A_AND_B),
        ("fire bob", A_AND_B),
    ],
    // An object is withdrawn, and the withdrawal reaches bob between the parts of the object.
    &[
        ("publish alice /a 10 text:abc", A),
        ("publish alice /b 10 text:abc", A_AND_B),
        ("withdraw alice 1", B),
        ("deliver 3 bob", B),
        ("claim bob 1", B),
        ("answer bob 1 alice", B),
        ("claim bob 1", B),
        ("lose bob 1", B),
        ("fetch bob 1 1 0", B),
        ("catalogue bob", B),
        ("fetch bob 1 1 0", B),
    ],
    // Two publish, one of them by an insertion, and one fetches of the other.
    &[
        ("publish alice /doc 1 text:abc", DOC),
        ("publish bob /doc 1 text:hello", TWO_PUBLISHERS),
        ("deliver 1 bob", TWO_PUBLISHERS),
        ("claim bob 1", TWO_PUBLISHERS),
        ("answer bob 1 alice", TWO_PUBLISHERS),
        ("insert alice carl /in 4 5", TWO_PUBLISHERS),
        ("block alice 1 4 text:ab", TWO_PUBLISHERS),
        ("block alice 1 5 text:c", INSERTED),
        ("deliver 3 bob", INSERTED),
        ("fetch bob 2 3 0", INSERTED),
    ],
];

// Each member starts again, and the catalogues after a settle are printed.
const END: &str = "restart alice\nrestart bob\nsettle 2\ncatalogue alice\ncatalogue bob\n";

// Both members catalogue these entries.
fn catalogues_of(rt: &(impl Abort + AllocGlobal), entries: &str) -> String {
    let count = entries.split_inclusive('\n').count();
    format!(in rt.alloc();
        "\ncatalogue alice {count}\n{entries}catalogue bob {count}\n{entries}"
    ).expect(rt, "memory")
}

// Expects that what a script writes ends with `end`.
fn expect_end<R: Threads + Sync + AllocGlobal + Abort>(rt: &R, script: &str, end: &str) {
    let mut source = ReadSource::new(script.as_bytes());
    let mut sink = VecSink::new(rt.alloc(), 5_000, Vec::new(rt.alloc()));
    same(
        rt,
        status_of(rt, "run", &mut source, &mut sink),
        Status::Done,
        script,
    );
    let written = str::from_utf8(sink.octets()).unwrap_or("");
    is(rt, written.ends_with(end), script);
}

// The first lines of a run, and then its end.
fn script_of_lines(rt: &(impl Abort + AllocGlobal), lines: &[(&str, &str)]) -> String {
    let mut script = String::from_str(rt.alloc(), PRE).expect(rt, "memory");
    put(rt, &mut script, "client carl /carl 6b34\n");
    for (line, _) in lines {
        put(rt, &mut script, line);
        put(rt, &mut script, "\n");
    }
    put(rt, &mut script, END);
    script
}

fn expect_joined<R: Threads + Sync + AllocGlobal + Abort>(rt: &R, lines: &[(&str, &str)]) {
    let script = script_of_lines(rt, lines);
    let listed = match lines.last() {
        Some(line) => line.1,
        None => NONE,
    };
    let end = catalogues_of(rt, listed);
    expect_end(rt, &script, &end);
}

#[test]
fn all_is_listed_wherever_lines_end(rt: HostRuntime) {
    for lines in &STORIES {
        for end in 0..=lines.len() {
            expect_joined(&rt, &lines[..end]);
        }
    }
}

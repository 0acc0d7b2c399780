use super::{PRE, expect, status_of};
use repo_io::*;
use std::process::Abort;
use std::str;
use std::sync::Wait;
use std::test::*;
use std::thread::Threads;

// The catalogues of alice and bob once both have the one object.
const CATALOGUES: &str = "catalogue alice 1\n\
    entry alice 1 /doc segments 1 octets 3 \
    sha256 ba7816bf8f01cfea414140de5dae2223b00361a396177a9cb410ff61f20015ad\n\
    catalogue bob 1\n\
    entry alice 1 /doc segments 1 octets 3 \
    sha256 ba7816bf8f01cfea414140de5dae2223b00361a396177a9cb410ff61f20015ad\n";

// Expects that a run over the input is done, and how the text that is written begins and ends.
fn expect_end<R: Threads + Wait + Sync + AllocGlobal + Abort>(
    rt: &R,
    input: &str,
    first: &str,
    last: &str,
) {
    let mut source = ReadSource::new(input.as_bytes());
    let mut sink = VecSink::new(rt.alloc(), 5_000, Vec::new(rt.alloc()));
    let answered = status_of(rt, "live", &mut source, &mut sink);
    assert_eq!(rt; answered, Status::Done);
    assert!(rt; sink.octets().starts_with(first.as_bytes()));
    assert!(rt; sink.octets().ends_with(last.as_bytes()));
}

#[test]
fn members_list_what_alice_published(rt: HostRuntime) {
    let input = format!(in rt.alloc(); "{PRE}publish alice /doc 10 text:abc\n").expect(
        &rt, "memory",
    );
    expect_end(&rt, &input, "journal alice ", CATALOGUES);
}

#[test]
fn members_without_lists_have_empty_catalogues(rt: HostRuntime) {
    expect_end(
        &rt,
        PRE,
        "journal alice ",
        "catalogue alice 0\ncatalogue bob 0\n",
    );
}

#[test]
fn nobody_has_no_text(rt: HostRuntime) {
    expect(&rt, "live", 1, b"", Status::Done, "");
    expect(&rt, "live", 3, b"\n# nobody\n\ngroup /g", Status::Done, "");
}

#[test]
fn other_words_read_and_write_nothing(rt: HostRuntime) {
    for words in ["", "run", "live live", "Live"] {
        expect(&rt, words, 1, PRE.as_bytes(), Status::Usage, "");
    }
}

use super::checks::{expect_from, put, source_of};
use lab_top::LabStatus;
use std::process::Abort;
use std::test::*;
use std::thread::Threads;

// What follows a note that is filled with spaces.
const REST: &str = "\n#> refused 1 4 Limit\ngroup /g\n";

// Words, the octets of the note, the status, and what is written.
const FILLED: [(&str, usize, LabStatus, &str); 6] = [
    ("transcript", 32_768, LabStatus::Done, "group /g\n"),
    (
        "check",
        32_768,
        LabStatus::Differs,
        "line 0\n- refused 1 4 Limit\ndiffers 1 of 1\n",
    ),
    ("lint", 32_768, LabStatus::Done, "clean 1\n"),
    // A note that is longer is refused as a line of the script.
    ("check", 32_769, LabStatus::Done, "same 1\n"),
    (
        "lint",
        32_769,
        LabStatus::Refused,
        "1 Limit at 32769: a line has at most 32768 octets\nrefused 1 of 2\n",
    ),
    (
        "seeds 0 0 1",
        32_769,
        LabStatus::Refused,
        "seed 0 refused 1 4 Limit\n",
    ),
];

// A note that is filled with spaces, to `octets` octets.
fn filled(rt: &(impl Abort + AllocGlobal), octets: usize) -> String {
    let mut note = String::from_str(rt.alloc(), "#=").expect(rt, "memory");
    for _ in 2..octets {
        put(rt, &mut note, " ");
    }
    note
}

fn expect_filled<R: Threads + Sync + AllocGlobal + Abort>(
    rt: &R,
    words: &str,
    octets: usize,
    wanted: LabStatus,
    text: &str,
) {
    let mut input = filled(rt, octets);
    put(rt, &mut input, REST);
    let mut source = source_of(rt, input.as_bytes(), 5_000, Vec::new(rt.alloc()));
    expect_from(rt, words, &mut source, wanted, text);
}

// The transcript of a line that is too long is itself.
fn expect_itself<R: Threads + Sync + AllocGlobal + Abort>(rt: &R, octets: usize) {
    let mut input = filled(rt, octets);
    put(rt, &mut input, "\n#> refused 1 4 Limit\n");
    let mut source = source_of(rt, input.as_bytes(), 5_000, Vec::new(rt.alloc()));
    expect_from(rt, "transcript", &mut source, LabStatus::Refused, &input);
}

#[test]
fn a_note_is_so_long(rt: HostRuntime) {
    for (words, octets, wanted, text) in &FILLED {
        expect_filled(&rt, words, *octets, *wanted, text);
    }
    expect_itself(&rt, 32_769);
}

// So many notes, and a line of the script.
fn noted(rt: &(impl Abort + AllocGlobal), thousands: u32, more: u32) -> String {
    let mut thousand = String::new(rt.alloc());
    for _ in 0..1_000 {
        put(rt, &mut thousand, "#=\n");
    }
    let mut input = String::new(rt.alloc());
    for _ in 0..thousands {
        put(rt, &mut input, &thousand);
    }
    for _ in 0..more {
        put(rt, &mut input, "#=\n");
    }
    put(rt, &mut input, "group /g\n");
    input
}

fn expect_noted<R: Threads + Sync + AllocGlobal + Abort>(
    rt: &R,
    input: &str,
    words: &str,
    wanted: LabStatus,
    text: &str,
) {
    let mut source = source_of(rt, input.as_bytes(), 60_000, Vec::new(rt.alloc()));
    expect_from(rt, words, &mut source, wanted, text);
}

// An input has at most 1,000,000 lines, its notes among them.
#[test]
fn lines_and_notes_are_so_many(rt: HostRuntime) {
    let most = noted(&rt, 999, 999);
    expect_noted(&rt, &most, "transcript", LabStatus::Done, "group /g\n");
    let more = noted(&rt, 1_000, 0);
    let refused = "group /g\n#> refused 1 4 Limit\n";
    expect_noted(&rt, &more, "transcript", LabStatus::Refused, refused);
    let refused =
        "1 Limit at 1: an input has at most 1000000 lines and 300000000 octets\nrefused 1 of 1\n";
    expect_noted(&rt, &more, "lint", LabStatus::Refused, refused);
}

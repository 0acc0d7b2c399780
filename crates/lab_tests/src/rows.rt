use super::checks::{expect_from, source_of};
use lab_top::LabStatus;
use std::process::Abort;
use std::test::*;
use std::thread::Threads;

// The script of the first page, with its reports.
pub(super) const FIRST: &str = "group /g\n\
    member alice /alice 6b31\n\
    member bob /bob 6b32\n\
    publish alice /doc 10 text:abc\n\
    #> publish alice 1 segments 1 sync 1\n\
    settle 2\n\
    #> settle syncs 2 kept 2\n\
    catalogue alice\n\
    #> catalogue alice 1\n\
    #> entry alice 1 /doc segments 1 octets 3 sha256 \
    ba7816bf8f01cfea414140de5dae2223b00361a396177a9cb410ff61f20015ad\n\
    catalogue bob\n\
    #> catalogue bob 1\n\
    #> entry alice 1 /doc segments 1 octets 3 sha256 \
    ba7816bf8f01cfea414140de5dae2223b00361a396177a9cb410ff61f20015ad\n";

// The script of the first page, with its reports, and what its members are after each line. The texts of traces in this
// file were computed by `tools/traces.py`.
const FIRST_TRACED: &str = "group /g\n\
    member alice /alice 6b31\n\
    member bob /bob 6b32\n\
    publish alice /doc 10 text:abc\n\
    #> publish alice 1 segments 1 sync 1\n\
    #= alice steady until 28851 knows alice=1 bob=0 holds 2 wants 0 lists 1\n\
    #= bob steady until 31601 knows alice=0 bob=0 holds 0 wants 0 lists 0\n\
    settle 2\n\
    #> settle syncs 2 kept 2\n\
    #= alice steady until 30513 knows alice=1 bob=0 holds 2 wants 0 lists 1\n\
    #= bob steady until 32688 knows alice=1 bob=0 holds 2 wants 0 lists 1\n\
    catalogue alice\n\
    #> catalogue alice 1\n\
    #> entry alice 1 /doc segments 1 octets 3 sha256 \
    ba7816bf8f01cfea414140de5dae2223b00361a396177a9cb410ff61f20015ad\n\
    catalogue bob\n\
    #> catalogue bob 1\n\
    #> entry alice 1 /doc segments 1 octets 3 sha256 \
    ba7816bf8f01cfea414140de5dae2223b00361a396177a9cb410ff61f20015ad\n";

// The same script where another number is expected in bob's entry.
const CHANGED: &str = "group /g\n\
    member alice /alice 6b31\n\
    member bob /bob 6b32\n\
    publish alice /doc 10 text:abc\n\
    #> publish alice 1 segments 1 sync 1\n\
    settle 2\n\
    #> settle syncs 2 kept 2\n\
    catalogue alice\n\
    #> catalogue alice 1\n\
    #> entry alice 1 /doc segments 1 octets 3 sha256 \
    ba7816bf8f01cfea414140de5dae2223b00361a396177a9cb410ff61f20015ad\n\
    catalogue bob\n\
    #> catalogue bob 1\n\
    #> entry alice 2 /doc segments 1 octets 3 sha256 \
    ba7816bf8f01cfea414140de5dae2223b00361a396177a9cb410ff61f20015ad\n";

const DIFFERENCE: &str = "line 7 catalogue bob\n\
    - entry alice 2 /doc segments 1 octets 3 sha256 \
    ba7816bf8f01cfea414140de5dae2223b00361a396177a9cb410ff61f20015ad\n\
    + entry alice 1 /doc segments 1 octets 3 sha256 \
    ba7816bf8f01cfea414140de5dae2223b00361a396177a9cb410ff61f20015ad\n\
    differs 1 of 7\n";

// A script that is foreign at its last line: bob says that alice has published, and nobody has.
const FOREIGN: &str = "group /g\n\
    member alice /alice 6b31\n\
    member bob /bob 6b32\n\
    hear bob 0571072808016736010202206cd855fdbf3b84d34fecd34746db6228f93b53a9d0fc8051edbacf236e0500662410c90eca0c\
    07070805616c696365cc01012c111b01041c0c070a0803626f6208034b45592e20e625fa34c78bd51883fa4703a4eff2f9e30aa8e71a\
    e252b4092fc134c0c5d043\n\
    #> foreign 4\n";

// Words, an input, the status, and what is written.
pub(super) type Row = (&'static str, &'static str, LabStatus, &'static str);

// Forms that go line by line.
const LINES: [Row; 19] = [
    ("transcript", FIRST, LabStatus::Done, FIRST),
    ("transcript 0", CHANGED, LabStatus::Done, FIRST),
    ("check", FIRST, LabStatus::Done, "same 7\n"),
    ("check", CHANGED, LabStatus::Differs, DIFFERENCE),
    // No line at all.
    ("transcript", "", LabStatus::Done, ""),
    ("check 7", "", LabStatus::Done, "same 0\n"),
    // A line feed is added, a carriage return is kept, and a note is left out wherever it stands.
    (
        "transcript",
        "#> x\n\n group /g\r\n  #=y\n# c\r\nsummary",
        LabStatus::Done,
        "\n group /g\r\n# c\r\nsummary\n",
    ),
    // The line that stops a script is the last one.
    (
        "transcript",
        "group /g\nsettle 0\nsettle 1\n",
        LabStatus::Refused,
        "group /g\nsettle 0\n#> refused 2 4 Limit\n",
    ),
    (
        "transcript",
        "settle 1",
        LabStatus::Refused,
        "settle 1\n#> refused 1 9 NoGroup\n",
    ),
    (
        "transcript 18446744073709551615",
        FOREIGN,
        LabStatus::Foreign,
        FOREIGN,
    ),
    // A note may say how the script ends. What follows the notes after that line is not read.
    ("check", FOREIGN, LabStatus::Done, "same 4\n"),
    (
        "check",
        "group /g\nsettle 0\n#> refused 2 4 Limit\nsettle 1\n#> x\n",
        LabStatus::Done,
        "same 2\n",
    ),
    (
        "check",
        "group /g\nsettle 0\n",
        LabStatus::Differs,
        "line 2 settle 0\n+ refused 2 4 Limit\ndiffers 1 of 2\n",
    ),
    // Notes before the first line belong to none.
    (
        "check",
        "#> a\n#> b\ngroup /g\n",
        LabStatus::Differs,
        "line 0\n- a\n- b\ndiffers 1 of 1\n",
    ),
    // A space after the mark may be left out, spaces may stand before it, and states are passed over.
    (
        "check",
        "#= a\ngroup /g\n#=b\nsettle 1\n  #>settle syncs 0 kept 0\n#=c\nsummary\n",
        LabStatus::Done,
        "same 3\n",
    ),
    // A note may end with the input.
    (
        "check",
        "group /g\nsettle 1\n#> settle syncs 0 kept 0",
        LabStatus::Done,
        "same 2\n",
    ),
    // Notes that stand after another line are no notes of this one, and two lines are reported.
    (
        "check",
        "group /g\nsettle 1\n# c\n#> settle syncs 0 kept 0\n",
        LabStatus::Differs,
        "line 2 settle 1\n+ settle syncs 0 kept 0\nline 3 # c\n- settle syncs 0 kept 0\ndiffers 2 of 3\n",
    ),
    // What both reports begin with and end with is left out.
    (
        "check",
        "group /g\nmember a /a 61\nmember b /b 62\nmember c /c 63\nsummary\n\
         #> summary a entries 0 segments 0 octets 0\n\
         #> summary b entries 1 segments 0 octets 0\n\
         #> summary c entries 0 segments 0 octets 0\n",
        LabStatus::Differs,
        "line 5 summary\n\
         - summary b entries 1 segments 0 octets 0\n\
         + summary b entries 0 segments 0 octets 0\n\
         differs 1 of 5\n",
    ),
    (
        "check",
        "group /g\nmember a /a 61\nsummary\n\
         #> summary a entries 0 segments 0 octets 0\n\
         #> summary a entries 0 segments 0 octets 0\n",
        LabStatus::Differs,
        "line 3 summary\n- summary a entries 0 segments 0 octets 0\ndiffers 1 of 3\n",
    ),
];

// Traces.
const TRACES: [Row; 6] = [
    ("trace", FIRST, LabStatus::Done, FIRST_TRACED),
    ("trace 0", FIRST_TRACED, LabStatus::Done, FIRST_TRACED),
    ("check", FIRST_TRACED, LabStatus::Done, "same 7\n"),
    // Nothing is noted before the first event, and at the line that stops a script.
    (
        "trace",
        "#= x\ngroup /g\nmember a /a 61\nsettle 0",
        LabStatus::Refused,
        "group /g\nmember a /a 61\nsettle 0\n#> refused 3 4 Limit\n",
    ),
    // Under another seed timers are due at other times. A claimed part is wanted still.
    (
        "trace 8",
        "group /g\nmember alice /alice 6b31\nmember bob /bob 6b32\npublish alice /doc 10 text:abc\n\
         deliver 1 bob\nclaim bob 1\nrestart bob\n",
        LabStatus::Done,
        "group /g\nmember alice /alice 6b31\nmember bob /bob 6b32\npublish alice /doc 10 text:abc\n\
         #> publish alice 1 segments 1 sync 1\n\
         #= alice steady until 28744 knows alice=1 bob=0 holds 2 wants 0 lists 1\n\
         #= bob steady until 29354 knows alice=0 bob=0 holds 0 wants 0 lists 0\n\
         deliver 1 bob\n\
         #> deliver 1 bob steady\n\
         #= bob steady until 28396 knows alice=1 bob=0 holds 0 wants 1 lists 0\n\
         claim bob 1\n\
         #> claim bob 1 part alice 1 0\n\
         restart bob\n\
         #> restart bob\n\
         #= bob steady until 30992 knows alice=1 bob=0 holds 0 wants 1 lists 0\n",
    ),
    // A group without members has mirrors, and each is noted once where nothing happens.
    (
        "trace",
        "group /g\nmirror m * /\nsettle 1\nsettle 1\n",
        LabStatus::Done,
        "group /g\nmirror m * /\n\
         settle 1\n#> settle syncs 0 kept 0\n#= m knows holds 0 wants 0 lists 0\n\
         settle 1\n#> settle syncs 0 kept 0\n",
    ),
];

// Lines that are refused before anything is carried out.
const LINTS: [Row; 4] = [
    ("lint", "", LabStatus::Done, "clean 0\n"),
    (
        "lint",
        "group /g\nmember alice /alice 6b31\nmember bob /bob 6b32\npublish alice /doc text:abc\n\
         settle 2\ncatalogue alice\ncatalogue bob\n",
        LabStatus::Refused,
        "4 Syntax at 20: SIZE is a number of up to 18 digits; publish M URI SIZE CONTENT\nrefused 1 of 7\n",
    ),
    ("lint", FIRST, LabStatus::Done, "clean 7\n"),
    // No line is carried out.
    ("lint", FOREIGN, LabStatus::Done, "clean 4\n"),
];

// Seeds, the greatest among them.
const SEEDS: [Row; 4] = [
    // A script without an event has no world.
    (
        "seeds 18446744073709551614 18446744073709551615 16",
        "group /g\n",
        LabStatus::Done,
        "seed 18446744073709551614 done syncs 0 delivered 0 attempts 0 parts 0 octets 0 listed 0\n\
         seed 18446744073709551615 done syncs 0 delivered 0 attempts 0 parts 0 octets 0 listed 0\n\
         least syncs 0 delivered 0 attempts 0 parts 0 octets 0 listed 0\n\
         median syncs 0 delivered 0 attempts 0 parts 0 octets 0 listed 0\n\
         greatest syncs 0 delivered 0 attempts 0 parts 0 octets 0 listed 0\n",
    ),
    (
        "seeds 3 4 1",
        "#> x\nsettle 1\n",
        LabStatus::Refused,
        "seed 3 refused 1 9 NoGroup\nseed 4 refused 1 9 NoGroup\n",
    ),
    (
        "seeds 0 0 1",
        FOREIGN,
        LabStatus::Refused,
        "seed 0 foreign 4\n",
    ),
    (
        "seeds 5 6 2",
        FIRST,
        LabStatus::Done,
        "seed 5 done syncs 3 delivered 2 attempts 0 parts 2 octets 197 listed 2\n\
         seed 6 done syncs 3 delivered 2 attempts 0 parts 2 octets 197 listed 2\n\
         least syncs 3 delivered 2 attempts 0 parts 2 octets 197 listed 2\n\
         median syncs 3 delivered 2 attempts 0 parts 2 octets 197 listed 2\n\
         greatest syncs 3 delivered 2 attempts 0 parts 2 octets 197 listed 2\n",
    ),
];

pub(super) fn expect_rows<R: Threads + Sync + AllocGlobal + Abort>(rt: &R, rows: &[Row]) {
    for (words, input, wanted, text) in rows {
        let mut source = source_of(rt, input.as_bytes(), 7, Vec::new(rt.alloc()));
        expect_from(rt, words, &mut source, *wanted, text);
    }
}

#[test]
fn forms_write_what_they_find(rt: HostRuntime) {
    expect_rows(&rt, &LINES);
    expect_rows(&rt, &TRACES);
    expect_rows(&rt, &LINTS);
    expect_rows(&rt, &SEEDS);
}

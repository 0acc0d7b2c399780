ghost use Rattle.std.specs.Prelude.{◌≤◌};

use super::checks::{is, same};
use super::{PRE, call_alone, expect, expect_from, put, report_of, script_of, status_of};
use repo_io::*;
use std::process::Abort;
use std::test::*;
use std::thread::Threads;

const fn refused(line: u32, number: u32) -> Status {
    Status::Refused { line, number }
}

// Lines of which the last ends the run, with the number of the sink's call that fails.
const ENDINGS: [(&str, u64, Status); 3] = [
    (
        "settle 1\nsettle 0\n",
        0,
        Status::Refused { line: 5, number: 4 },
    ),
    // bob announces that alice has published, and nobody has.
    (
        "settle 1\n\
         hear bob 0571072808016736010202206cd855fdbf3b84d34fecd34746db6228f93b53a9d0fc8051edbacf236e0500662410c90eca0c\
         07070805616c696365cc01012c111b01041c0c070a0803626f6208034b45592e20e625fa34c78bd51883fa4703a4eff2f9e30aa8e71a\
         e252b4092fc134c0c5d043\n",
        0,
        Status::Foreign { line: 5 },
    ),
    ("settle 1\n", 1, Status::WriteFault),
];

// Appends `lines` lines of comment, of 100 octets each.
fn put_comments(rt: &impl Abort, script: &mut String, lines: u32) {
    for _ in 0..lines {
        write!(script, "{:#>99}\n", "").expect(rt, "memory");
    }
}

// How many octets a source of pieces of 4,096 octets still has, where they are few.
fn octets_left(source: &mut VecSource) -> usize {
    let mut piece = [0; 4_096];
    let mut left: usize = 0;
    for _ in 0..1_000 {
        left = left.saturating_add(source.read(&mut piece).unwrap_or(0));
    }
    left
}

fn expect_ending<R: Threads + Sync + AllocGlobal + Abort>(
    rt: &R,
    source: &mut VecSource,
    fails: u64,
    wanted: Status,
) {
    let mut sink = VecSink::new(rt.alloc(), 5_000, call_alone(rt, fails));
    let answered = status_of(rt, "run", source, &mut sink);
    same(rt, answered, wanted, "status");
}

// Of 1,000,000 octets after the line that ends the run at most 65,536 are taken.
#[test]
fn little_is_read_after_the_end(rt: HostRuntime) {
    for (lines, fails, wanted) in &ENDINGS {
        let mut source = commented(&rt, lines);
        expect_ending(&rt, &mut source, *fails, *wanted);
        is(&rt, octets_left(&mut source) >= 1_000_000 - 65_536, lines);
    }
}

// A source of these lines, and of many lines of comment after them.
fn commented(rt: &(impl Abort + AllocGlobal), lines: &str) -> VecSource {
    let mut script = String::from_str(rt.alloc(), PRE).expect(rt, "memory");
    put(rt, &mut script, lines);
    put_comments(rt, &mut script, 10_000);
    VecSource::new(script.into_bytes(), 4_096, Vec::new(rt.alloc()))
}

// Each line with what it prints after it.
const LINES: &str = "group /g\n\
    member alice /alice 6b31\n\
    member bob /bob 6b32\n\
    publish alice /doc 10 text:abc\n\
    > publish alice 1 segments 1 sync 1\n\
    settle 2\n\
    > settle syncs 2 kept 2\n\
    catalogue bob\n\
    > catalogue bob 1\n\
    > entry alice 1 /doc segments 1 octets 3 sha256 \
    ba7816bf8f01cfea414140de5dae2223b00361a396177a9cb410ff61f20015ad\n\
    vector bob\n\
    > vector bob alice=1 bob=0\n";

#[test]
fn pieces_make_no_difference(rt: HostRuntime) {
    let script = script_of(&rt, "", LINES);
    let report = report_of(&rt, LINES);
    for piece in &[1, 7, 100, 5_000] {
        assert!(rt; 1 <= *piece);
        expect(&rt, "run", *piece, script.as_bytes(), Status::Done, &report);
    }
    // The last line may lack its line feed.
    let cut = script.strip_suffix('\n').expect(&rt, "a line feed");
    expect(&rt, "run", 100, cut.as_bytes(), Status::Done, &report);
}

// Comments of `octets` octets, at least 32,769, in two lines.
fn comments(rt: &(impl Abort + AllocGlobal), octets: usize) -> Vec<u8> {
    let mut script = Vec::new(rt.alloc());
    put_comment(rt, &mut script, 32_767);
    put_comment(rt, &mut script, octets.saturating_sub(1));
    script
}

// Comment until the script has `octets` octets, and a line feed.
fn put_comment(rt: &impl Abort, script: &mut Vec<u8>, octets: usize) {
    script.resize(octets, b'#').expect(rt, "memory");
    script.push(b'\n').expect(rt, "memory");
}

// Each place of the lines is once that after 65,536 octets. The last line is refused by its number.
#[test]
fn lines_stand_anywhere(rt: HostRuntime) {
    let mut lines = script_of(&rt, "", LINES);
    let length = lines.len();
    put(&rt, &mut lines, "settle 0\n");
    let mut report = report_of(&rt, LINES);
    put(&rt, &mut report, "refused 10 4 Limit\n");
    for before in 0..=length {
        let mut script = comments(&rt, 65_536usize.saturating_sub(before));
        script
            .extend_from_slice(lines.as_bytes())
            .expect(&rt, "memory");
        expect(&rt, "run", 100_000, &script, refused(10, 4), &report);
    }
}

// A line, filled with spaces to `octets` octets, and what ends it.
fn filled(rt: &(impl Abort + AllocGlobal), line: &str, octets: usize, end: &str) -> Vec<u8> {
    let mut script = line.as_bytes().to_vec(rt.alloc()).expect(rt, "memory");
    script.resize(octets, b' ').expect(rt, "memory");
    script
        .extend_from_slice(end.as_bytes())
        .expect(rt, "memory");
    script
}

const LIMIT: &str = "refused 1 4 Limit\n";

// The status at a line that is too long, and at one that isn't in the grammar.
const TOO_LONG: Status = Status::Refused { line: 1, number: 4 };

const SYNTAX: Status = Status::Refused { line: 1, number: 1 };

// Lines, the number of octets to which each is filled with spaces, its end, and the result.
const FILLED: [(&str, usize, &str, Status, &str); 10] = [
    ("#", 32_768, "\n", Status::Done, ""),
    ("#", 32_768, "", Status::Done, ""),
    ("group /g", 32_768, "\n", Status::Done, ""),
    ("group /g", 32_767, "\r\n", Status::Done, ""),
    ("#", 32_769, "\n", TOO_LONG, LIMIT),
    ("#", 32_769, "", TOO_LONG, LIMIT),
    ("group /g", 32_769, "\n", TOO_LONG, LIMIT),
    ("group /g", 32_768, "\r\n", TOO_LONG, LIMIT),
    // The limit is tested before the grammar.
    ("\t", 32_769, "\n", TOO_LONG, LIMIT),
    ("\t", 32_768, "\n", SYNTAX, "refused 1 1 Syntax\n"),
];

// A line has 32,768 octets at most, its carriage return among them.
#[test]
fn a_line_is_so_long(rt: HostRuntime) {
    for (line, octets, end, wanted, text) in &FILLED {
        let script = filled(&rt, line, *octets, end);
        expect(&rt, "run", 5_000, &script, *wanted, text);
    }
}

// A source that gives one line `times` times.
#[derive(Drop)]
struct Repeated {
    line: Vec<u8>,
    at: usize,
    times: u64,
}

impl Source for Repeated {
    ghost use Rattle.std.specs.Prelude.{None};

    ghost left = { λ s. None };

    ghost faults = { λ s. 0 };

    fn read(&mut self, buf: &mut [u8]) -> Result<usize, Failed> {
        let rest = self.line.get(self.at..).unwrap_or(&[]);
        let n = rest.len().min(buf.len());
        if self.times == 0 {
            return Ok(0);
        }
        buf[..n].copy_from_slice(&rest[..n]);
        self.at = self.at.saturating_add(n);
        if self.at == self.line.len() {
            self.at = 0;
            self.times = self.times.saturating_sub(1);
        }
        Ok(n)
    }
}

// A line of `line.0` spaces and the end `line.1`, given `times` times.
fn expect_repeated<R: Threads + Sync + AllocGlobal + Abort>(
    rt: &R,
    line: (usize, &str),
    times: u64,
    wanted: Status,
    text: &str,
) {
    let mut source = Repeated {
        line: filled(rt, "", line.0, line.1),
        at: 0,
        times,
    };
    expect_from(rt, "run", &mut source, wanted, text);
}

// The number of spaces of a line that is repeated without end, the line's end, and the result.
const ENDLESS: [(usize, &str, Status, &str); 3] = [
    (1, "", TOO_LONG, LIMIT),
    (
        1,
        "\n",
        Status::Refused {
            line: 100_001,
            number: 4,
        },
        "refused 100001 4 Limit\n",
    ),
    (
        32_767,
        "\n",
        Status::Refused {
            line: 513,
            number: 4,
        },
        "refused 513 4 Limit\n",
    ),
];

// A script without an end ends at a limit, and so does one that goes right past it.
#[test]
fn an_endless_script_ends(rt: HostRuntime) {
    for (octets, end, wanted, text) in &ENDLESS {
        expect_repeated(&rt, (*octets, end), u64::MAX, *wanted, text);
    }
}

// 100,000 lines, and 16,777,216 octets.
#[test]
fn a_script_is_so_long(rt: HostRuntime) {
    expect_repeated(&rt, (0, "\n"), 100_000, Status::Done, "");
    expect_repeated(&rt, (32_767, "\n"), 512, Status::Done, "");
}

// Of 1,001 settles the last is too many.
#[test]
fn settles_are_counted(rt: HostRuntime) {
    let mut script = String::from_str(rt.alloc(), PRE).expect(&rt, "memory");
    let mut report = String::new(rt.alloc());
    for _ in 0..1_000 {
        put(&rt, &mut script, "settle 1\n");
        put(&rt, &mut report, "settle syncs 2 kept 0\n");
    }
    expect(&rt, "run", 5_000, script.as_bytes(), Status::Done, &report);
    put(&rt, &mut script, "settle 1\n");
    put(&rt, &mut report, "refused 1004 10 TooLarge\n");
    let wanted = refused(1_004, 10);
    expect(&rt, "run", 5_000, script.as_bytes(), wanted, &report);
}

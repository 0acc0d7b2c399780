mod printed;
mod rows;

use crate::expect::{is, same, same_text};
use printed::put_told;
use rows::ROWS;
use script_lang::*;
use std::alloc::{AllocError, Global};
use std::process::Abort;
use std::test::*;

#[test]
fn lines_are_read(rt: HostRuntime) {
    for row in ROWS.split('\n') {
        let (line, answer) = row.split_once(" => ").expect(&rt, "an answer");
        tells(&rt, line.as_bytes(), answer);
    }
}

// A line is read as its report says.
fn tells(rt: &(impl Abort + AllocGlobal), line: &[u8], answer: &str) {
    let mut told = String::new(rt.alloc());
    put_told(rt.alloc(), &mut told, &read_line(rt.alloc(), line)).expect(rt, "memory");
    same_text(rt, &told, answer);
}

// Lines: a beginning, a number of octets of one kind, and an end. A line's length counts its carriage return and not
// its line feed.
const LENGTHS: [(&str, usize, u8, &str, &str); 15] = [
    ("", 32_768, b' ', "", "-"),
    ("", 32_768, b' ', "\n", "-"),
    ("", 32_767, b' ', "\r\n", "-"),
    ("", 32_768, b' ', "\r\n", "!Limit"),
    ("", 32_769, b' ', "\n", "!Limit"),
    ("#", 32_768, b'x', "", "!Limit"),
    ("#", 32_767, b'\t', "\r", "!Limit"),
    ("group\t", 32_763, b'/', "", "!Limit"),
    ("group\t", 32_762, b'/', "", "!Syntax"),
    ("summary", 32_761, b' ', "", "summary"),
    ("summary", 32_761, b' ', "\n", "summary"),
    ("summary", 32_760, b' ', "\r\n", "summary"),
    ("group /", 1_100, b'g', "\r\n", "!Limit"),
    ("group /", 1_100, b'g', "/1=x\n", "!Syntax"),
    ("group /", 198, b'g', "/g\n", "!Limit"),
];

// Ends of lines: a carriage return is dropped once, right before the line feed.
const ENDS: [(&str, &str); 9] = [
    ("summary\n", "summary"),
    ("summary\r\n", "summary"),
    ("summary \r\n", "summary"),
    ("summary\r", "!Syntax"),
    ("summary\r\r\n", "!Syntax"),
    ("summary\r \n", "!Syntax"),
    ("\r\n", "-"),
    ("\r", "!Syntax"),
    (" # a comment\r", "-"),
];

// Lines in which one word is so long: the last length in its range, and the next.
const LENGTHS_OF_WORDS: [(&str, usize, usize, u8, &str); 17] = [
    ("group /", 198, 199, b'g', ""),
    ("member a /", 198, 199, b'a', " 61"),
    ("client c /", 198, 199, b'c', " 61"),
    ("member a /a ", 256, 258, b'6', ""),
    ("client c /c ", 256, 258, b'6', ""),
    ("publish a /", 396, 397, b'x', " 1 text:"),
    ("publish a /x 1 text:", 20_000, 20_001, b'x', ""),
    ("hear a ", 18_000, 18_002, b'0', ""),
    ("order a ", 18_000, 18_002, b'0', ""),
    ("ask a ", 18_000, 18_002, b'0', ""),
    ("feed a 1 ", 18_000, 18_002, b'0', ""),
    ("insert a c /", 396, 397, b'i', " 1 1"),
    ("block a 1 1 text:", 8_000, 8_001, b'x', ""),
    ("block a 1 1 hex:", 16_000, 16_002, b'0', ""),
    ("delete a c /", 396, 397, b'i', ""),
    ("mirror l * /", 396, 397, b'i', ""),
    ("watch a a /", 396, 397, b'i', ""),
];

#[test]
fn long_words_are_read_within_their_ranges(rt: HostRuntime) {
    for (prefix, last, next, octet, end) in &LENGTHS_OF_WORDS {
        let line = padded(rt.alloc(), prefix, *last, *octet, end).expect(&rt, "memory");
        is_line(&rt, &line);
        let line = padded(rt.alloc(), prefix, *next, *octet, end).expect(&rt, "memory");
        tells(&rt, &line, "!Limit");
    }
}

fn is_line(rt: &(impl Abort + AllocGlobal), line: &[u8]) {
    let mut told = String::new(rt.alloc());
    put_told(rt.alloc(), &mut told, &read_line(rt.alloc(), line)).expect(rt, "memory");
    is(rt, told.as_str() != "-" && !told.starts_with('!'), &told);
}

#[test]
fn lines_end_and_are_short(rt: HostRuntime) {
    for (line, answer) in &ENDS {
        tells(&rt, line.as_bytes(), answer);
    }
    for (prefix, count, octet, end, answer) in &LENGTHS {
        let line = padded(rt.alloc(), prefix, *count, *octet, end).expect(&rt, "memory");
        tells(&rt, &line, answer);
    }
}

fn padded(
    alloc: Global,
    prefix: &str,
    count: usize,
    octet: u8,
    end: &str,
) -> Result<Vec<u8>, AllocError> {
    let mut line = Vec::from_slice(alloc, prefix.as_bytes())?;
    line.extend_from_slice(vec![in alloc; octet; count]?.as_slice())?;
    line.extend_from_slice(end.as_bytes())?;
    Ok(line)
}

// Scripts, their lines separated by semicolons, and how the last is refused.
const SCRIPTS: &str = "\
summary => NoGroup
member a /a 61 => NoGroup
claim nobody 1 => NoGroup
group /g;group /h => Duplicate
group /g;summary;group /h => Duplicate
group /g;summary;member a /a 61 => Late
group /g;member a /a 61;vector a;member a /b 61 => Late
group /g;member a /a 61;member a /b 61 => Duplicate
group /g;member a /a 61;member b /a 61 => Duplicate
group /g;member a /a 61;client a /b 61 => Duplicate
group /g;client c /c 61;member m /c 61 => Duplicate
group /g;client c /c 61;member m /%63 61 => Duplicate
group /g;member a /g 61 => taken
group /g;member a /a 61;claim b 1 => UnknownLabel
group /g;client c /c 61;claim c 1 => UnknownLabel
group /g;member a /a 61;answer a 1 b => UnknownLabel
group /g;member a /a 61;dump a b 1 0 => UnknownLabel
group /g;member a /a 61;status a a 1 => UnknownLabel
group /g;member a /a 61;client c /c 61;status c a 1 => UnknownLabel
group /g;member a /a 61;client c /c 61;status a c 1 => taken
group /g;member a /a 61;client c /c 61;insert a c /i 1 2;delete a c /i;order a 00 => taken
group /g;member a /a 61;withdraw b 1 => UnknownLabel
group /g;member a /a 61;withdraw a 65535;withdraw a 65535 => taken
group /g;member a /a 61;watch b * / => UnknownLabel
group /g;member a /a 61;watch a b / => UnknownLabel
group /g;member a /a 61;told b 1 => UnknownLabel
group /g;member a /a 61;client c /c 61;watch a c / => UnknownLabel
group /g;member a /a 61;mirror l a /x;watch l a / => UnknownLabel
group /g;member a /a 61;mirror l a /x;watch a l / => UnknownLabel
group /g;member a /a 61;watch a * /;watch a a /x;told a 1 => taken
mirror l * / => NoGroup
group /g;member a /a 61;summary;mirror l b / => Late
group /g;member a /a 61;mirror l b / => UnknownLabel
group /g;member a /a 61;mirror a b / => UnknownLabel
group /g;client c /c 61;mirror l c / => UnknownLabel
group /g;mirror k * /;mirror l k / => UnknownLabel
group /g;member a /a 61;mirror a * / => Duplicate
group /g;client c /c 61;mirror c * / => Duplicate
group /g;mirror l * /;mirror l * / => Duplicate
group /g;mirror l * /;member l /a 61 => Duplicate
group /g;mirror l * /;client l /c 61 => Duplicate
group /g;member a /a 61;mirror l * /;mdeliver 1 a => UnknownLabel
group /g;member a /a 61;mirror l * /;mfetch a 1 1 0 => UnknownLabel
group /g;member a /a 61;mirror l * /;mcatalogue a => UnknownLabel
group /g;member a /a 61;mirror l * /;catalogue l => UnknownLabel
group /g;mirror l * /;mdeliver 1 l;mfetch l 1 1 0;mcatalogue l => taken
group /g;deliver 1 a => UnknownLabel
group /g;sync 9;advance 1;settle 1;summary;traffic => taken";

#[test]
fn lines_are_taken_or_refused(rt: HostRuntime) {
    for row in SCRIPTS.split('\n') {
        let (script, answer) = row.split_once(" => ").expect(&rt, "an answer");
        let mut words = Words::new(rt.alloc());
        ends_as(&rt, &mut words, script, answer);
    }
}

// Each line of a script is taken but the last, of which this comes.
fn ends_as(rt: &(impl Abort + AllocGlobal), words: &mut Words, script: &str, answer: &str) {
    let (before, last) = script.rsplit_once(';').unwrap_or(("", script));
    for line in before.split(';') {
        if !line.is_empty() {
            same(rt, taken(rt.alloc(), words, line), "taken", line);
        }
    }
    let came = taken(rt.alloc(), words, last);
    same(rt, came, answer, script);
}

// The result of a line.
fn taken(alloc: Global, words: &mut Words, line: &str) -> &'static str {
    taken_of(words, &read_line(alloc, line.as_bytes()))
}

fn taken_of(words: &mut Words, read: &Result<Option<Line>, LineFault>) -> &'static str {
    match read {
        Ok(Some(line)) => checked(words.check(line)),
        _ => "no line",
    }
}

fn checked(answer: Result<(), CheckFault>) -> &'static str {
    match answer {
        Ok(()) => "taken",
        Err(CheckFault::NoGroup) => "NoGroup",
        Err(CheckFault::Late) => "Late",
        Err(CheckFault::UnknownLabel) => "UnknownLabel",
        Err(CheckFault::Duplicate) => "Duplicate",
        Err(CheckFault::Limit) => "Limit",
        Err(CheckFault::TooLarge) => "TooLarge",
        Err(CheckFault::NoMemory) => "NoMemory",
    }
}

// Lines after a group, a member and a client, each so often, and the result of the last: totals that are reached are
// not passed.
const TOTALS: [(&str, u32, &str, &str, &str); 5] = [
    ("settle 1", 1_000, "summary", "settle 1", "TooLarge"),
    (
        "publish a /x 8000 fill:1600000:1",
        41,
        "publish a /x 8000 fill:1508864:1",
        "block a 1 1 text:x",
        "TooLarge",
    ),
    (
        "publish a /x 1 fill:200:1",
        497,
        "publish a /x 1 fill:102:1",
        "order a 00",
        "TooLarge",
    ),
    (
        "publish a /x 1 fill:20000:1",
        4,
        "publish a /x 1 fill:19496:1;withdraw a 1",
        "withdraw a 1",
        "TooLarge",
    ),
    (
        "insert a c /x 1 1",
        1_000,
        "publish a /x 1 fill:200:1",
        "settle 1",
        "taken",
    ),
];

#[test]
fn totals_are_passed_by_one(rt: HostRuntime) {
    for (line, count, reaches, after, answer) in &TOTALS {
        let mut words = Words::new(rt.alloc());
        ends_as(
            &rt,
            &mut words,
            "group /g;member a /a 61;client c /c 61",
            "taken",
        );
        for _ in 0..*count {
            ends_as(&rt, &mut words, line, "taken");
        }
        ends_as(&rt, &mut words, reaches, "taken");
        ends_as(&rt, &mut words, after, answer);
    }
}

#[test]
fn members_clients_and_mirrors_are_numbered(rt: HostRuntime) {
    let mut words = Words::new(rt.alloc());
    declares_all(&rt, &mut words);
    are_numbered(&rt, &words);
}

// 16 members, 16 clients and 4 mirrors, and no more.
fn declares_all(rt: &(impl Abort + AllocGlobal), words: &mut Words) {
    ends_as(rt, words, "group /g", "taken");
    for i in 0..16u32 {
        let lines = format!(in rt.alloc(); "member m{i} /m/{i} 61;client c{i} /c/{i} 61");
        ends_as(rt, words, &lines.expect(rt, "memory"), "taken");
    }
    ends_as(rt, words, "member m16 /m/16 61", "Limit");
    ends_as(rt, words, "client c16 /c/16 61", "Limit");
    ends_as(rt, words, "client m3 /c/16 61", "Duplicate");
    let mirrors = "mirror l0 * /;mirror l1 m1 /x;mirror l2 * /x;mirror l3 m15 /";
    ends_as(rt, words, mirrors, "taken");
    ends_as(rt, words, "mirror l4 * /", "Limit");
    ends_as(rt, words, "mirror l3 * /", "Duplicate");
}

fn are_numbered(rt: &impl Abort, words: &Words) {
    same(rt, words.member("m15"), Some(15), "member m15");
    same(rt, words.member("c0"), None, "member c0");
    same(rt, words.client("c7"), Some(7), "client c7");
    same(rt, words.client("m7"), None, "client m7");
    same(rt, words.mirror("l2"), Some(2), "mirror l2");
    same(rt, words.mirror("m2"), None, "mirror m2");
    same(rt, words.member("l2"), None, "member l2");
    let member = words.member("m9").expect(rt, "m9");
    same_text(rt, words.label(member), "m9");
}

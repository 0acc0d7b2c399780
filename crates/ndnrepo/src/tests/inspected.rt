use super::expect;
use repo_io::*;
use std::process::Abort;
use std::test::*;
use std::thread::Threads;

// The status of an input with an octet that is no digit or space, of one past a limit, and of one with a fault of an
// element.
const SYNTAX: Status = Status::Refused { line: 1, number: 1 };

const LIMIT: Status = Status::Refused { line: 1, number: 4 };

const FAULT: Status = Status::Refused {
    line: 1,
    number: 12,
};

const NAME: &str = "07 Name 6\n  08 GenericNameComponent 1 61\n  32 SegmentNameComponent 1 00\n";

// Inputs, and the result of each.
const DIGITS: [(&str, Status, &str); 8] = [
    ("0706080161320100", Status::Done, NAME),
    (" 07 06\t080161\r\n32 010 0\n", Status::Done, NAME),
    ("", Status::Done, ""),
    ("07fd0006", FAULT, "fault NotShortest 1\n"),
    ("07FD0006", FAULT, "fault NotShortest 1\n"),
    ("0g", SYNTAX, "refused 1 1 Syntax\n"),
    ("070", SYNTAX, "refused 1 1 Syntax\n"),
    ("0700\x0c", SYNTAX, "refused 1 1 Syntax\n"),
];

#[test]
fn digits_are_inspected(rt: HostRuntime) {
    for (digits, wanted, text) in &DIGITS {
        expect(&rt, "inspect", 5, digits.as_bytes(), *wanted, text);
    }
}

// Inspects an input of `filled.0` octets: `prefix`, and then the octet `filled.1` again and again.
fn expect_filled<R: Threads + Sync + AllocGlobal + Abort>(
    rt: &R,
    prefix: &str,
    filled: (usize, u8),
    wanted: Status,
    text: &str,
) {
    let mut input = prefix.as_bytes().to_vec(rt.alloc()).expect(rt, "memory");
    input.resize(filled.0, filled.1).expect(rt, "memory");
    expect(rt, "inspect", 5_000, &input, wanted, text);
}

#[test]
fn so_many_octets_are_inspected(rt: HostRuntime) {
    let syntax = "refused 1 1 Syntax\n";
    let limit = "refused 1 4 Limit\n";
    // 8,800 octets, and one more. Half an octet is no octet.
    let zero = "fault ZeroType 0\n";
    expect_filled(&rt, "0000", (17_600, b'a'), FAULT, zero);
    expect_filled(&rt, "0000", (17_601, b'a'), SYNTAX, syntax);
    expect_filled(&rt, "0000", (17_602, b'a'), LIMIT, limit);
    // The limit of the input is tested before all else.
    let empty = "07 Name 0\n";
    expect_filled(&rt, "0700", (16_777_216, b' '), Status::Done, empty);
    expect_filled(&rt, "070g", (16_777_217, b' '), LIMIT, limit);
}

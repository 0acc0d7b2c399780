use super::{PRE, expect};
use repo_io::*;
use std::process::Abort;
use std::sync::Wait;
use std::test::*;
use std::thread::Threads;

// Lines after the group and its members, each with the number and the word of its refusal.
const AFTER: [(&str, u32, &str); 29] = [
    ("settle 1", 16, "NotLive"),
    ("client carl /carl 6b34", 16, "NotLive"),
    ("withdraw alice 1", 16, "NotLive"),
    ("deliver 1 bob", 16, "NotLive"),
    ("sync 1", 16, "NotLive"),
    ("advance 1", 16, "NotLive"),
    ("fire alice", 16, "NotLive"),
    ("restart alice", 16, "NotLive"),
    ("vector alice", 16, "NotLive"),
    ("catalogue nobody", 16, "NotLive"),
    ("claim alice 1", 16, "NotLive"),
    ("lose alice 1", 16, "NotLive"),
    ("answer alice 1 bob", 16, "NotLive"),
    ("fetch alice 1 1 0", 16, "NotLive"),
    ("dump alice bob 1 0", 16, "NotLive"),
    ("hear alice 05", 16, "NotLive"),
    ("order alice 05", 16, "NotLive"),
    ("ask alice 05", 16, "NotLive"),
    ("feed alice 1 05", 16, "NotLive"),
    ("insert alice carl /a 1 1", 16, "NotLive"),
    ("block alice 1 1 text:a", 16, "NotLive"),
    ("status alice carl 1", 16, "NotLive"),
    ("delete alice carl /a", 16, "NotLive"),
    ("watch alice * /a", 16, "NotLive"),
    ("told alice 1", 16, "NotLive"),
    ("summary", 16, "NotLive"),
    ("traffic", 16, "NotLive"),
    ("settle 17", 4, "Limit"),
    ("settle one", 1, "Syntax"),
];

// Lines of the kinds that a live group has, after the group and its members, each with the number and the word of its
// refusal.
const LIVE_LINES: [(&str, u32, &str); 8] = [
    ("group /h", 3, "Duplicate"),
    ("member alice /c 6b33", 3, "Duplicate"),
    ("member carl /bob 6b33", 3, "Duplicate"),
    ("publish carl /a 10 text:a", 2, "UnknownLabel"),
    ("publish alice /a 8000 fill:1048577:0", 10, "TooLarge"),
    ("publish alice /a 1 fill:3980:0", 10, "TooLarge"),
    ("publish alice /a 8001 text:a", 4, "Limit"),
    ("publish alice a 10 text:a", 1, "Syntax"),
];

// Inputs that are refused before the group's line, at it, or after a publication, each with the line that is refused
// and the number and the word of its refusal.
const ELSEWHERE: [(&str, u32, u32, &str); 5] = [
    ("settle 1\n", 1, 16, "NotLive"),
    ("member alice /alice 6b31\n", 1, 9, "NoGroup"),
    ("publish alice /a 10 text:a\n", 1, 9, "NoGroup"),
    (
        "group /g\nmember a /a 6b\npublish a /a 10 text:a\nmember b /b 6b",
        4,
        11,
        "Late",
    ),
    ("group /g\r\r\n", 1, 1, "Syntax"),
];

fn expect_refused<R: Threads + Wait + Sync + AllocGlobal + Abort>(
    rt: &R,
    input: &str,
    line: u32,
    number: u32,
    word: &str,
) {
    let text = format!(in rt.alloc(); "refused {line} {number} {word}\n").expect(rt, "memory");
    let status = Status::Refused { line, number };
    expect(rt, "live", 7, input.as_bytes(), status, &text);
}

#[test]
fn lines_of_a_script_are_not_live(rt: HostRuntime) {
    for (line, number, word) in AFTER {
        let input = format!(in rt.alloc(); "{PRE}{line}\nno line").expect(&rt, "memory");
        expect_refused(&rt, &input, 4, number, word);
    }
}

#[test]
fn lines_of_a_live_group_are_refused_as_in_a_script(rt: HostRuntime) {
    for (line, number, word) in LIVE_LINES {
        let input = format!(in rt.alloc(); "{PRE}{line}\nno line").expect(&rt, "memory");
        expect_refused(&rt, &input, 4, number, word);
    }
    for (input, line, number, word) in ELSEWHERE {
        expect_refused(&rt, input, line, number, word);
    }
}

// A total that is reached is taken: the line after it is refused for another reason.
#[test]
fn totals_may_be_reached(rt: HostRuntime) {
    let contents = "publish alice /a 8000 fill:1048576:0";
    let input = format!(in rt.alloc(); "{PRE}{contents}\nsettle 1\n").expect(&rt, "memory");
    expect_refused(&rt, &input, 5, 16, "NotLive");
    let input = format!(in rt.alloc(); "{PRE}{contents}\npublish bob /b 1 text:b").expect(
        &rt, "memory",
    );
    expect_refused(&rt, &input, 5, 10, "TooLarge");
    // A record, 20 index packets and 3,979 segments.
    let parts = "publish alice /a 1 fill:3979:0";
    let input = format!(in rt.alloc(); "{PRE}{parts}\nsettle 1\n").expect(&rt, "memory");
    expect_refused(&rt, &input, 5, 16, "NotLive");
    let input = format!(in rt.alloc(); "{PRE}{parts}\npublish bob /b 1 text:").expect(
        &rt, "memory",
    );
    expect_refused(&rt, &input, 5, 10, "TooLarge");
}

#[test]
fn the_two_hundred_and_first_publication_is_too_large(rt: HostRuntime) {
    let mut input = String::from_str(rt.alloc(), PRE).expect(&rt, "memory");
    for _ in 0..200 {
        input
            .push_str("publish alice /a 1 text:\n")
            .expect(&rt, "memory");
    }
    let reached = format!(in rt.alloc(); "{input}settle 1\n").expect(&rt, "memory");
    expect_refused(&rt, &reached, 204, 16, "NotLive");
    input
        .push_str("publish bob /a 1 text:\n")
        .expect(&rt, "memory");
    expect_refused(&rt, &input, 204, 10, "TooLarge");
}

#[test]
fn the_seventeenth_member_is_refused(rt: HostRuntime) {
    let mut input = String::from_str(rt.alloc(), "group /g\n").expect(&rt, "memory");
    for j in 1..18 {
        write!(input, "member m{j} /n/{j} 6b\n").expect(&rt, "memory");
    }
    expect_refused(&rt, &input, 18, 4, "Limit");
}

#[test]
fn a_line_may_be_too_long(rt: HostRuntime) {
    let mut line = String::from_str(rt.alloc(), "#").expect(&rt, "memory");
    for _ in 0..15 {
        let twice = line.to_string(rt.alloc()).expect(&rt, "memory");
        line.push_str(&twice).expect(&rt, "memory");
    }
    // 32,768 octets are a line, and one more is too many.
    expect(&rt, "live", 5_000, line.as_bytes(), Status::Done, "");
    line.push_str("#").expect(&rt, "memory");
    expect_refused(&rt, &line, 1, 4, "Limit");
}

#[test]
fn there_may_be_too_many_lines(rt: HostRuntime) {
    let mut input = String::new(rt.alloc());
    for _ in 0..100_000 {
        input.push_str("\n").expect(&rt, "memory");
    }
    expect(&rt, "live", 5_000, input.as_bytes(), Status::Done, "");
    input.push_str("#").expect(&rt, "memory");
    expect_refused(&rt, &input, 100_001, 4, "Limit");
}

use super::{PRE, expect_transcript};
use repo_io::*;
use std::test::*;

// First lines, then lines each with what it prints after it, and the status. Where several reasons hold, the first of
// their order is reported.
const REFUSED: [(&str, &str, Status); 27] = [
    (
        PRE,
        "publish alice /doc 10 text:abc\n\
         > publish alice 1 segments 1 sync 1\n\
         deliver 1 bob\n\
         > deliver 1 bob steady\n\
         claim bob 1\n\
         > claim bob 1 part alice 1 0\n\
         claim bob 1\n\
         > refused 7 6 FetcherBusy\n",
        Status::Refused { line: 7, number: 6 },
    ),
    (
        PRE,
        "lose bob 2\n\
         > refused 4 7 FetcherIdle\n",
        Status::Refused { line: 4, number: 7 },
    ),
    (
        PRE,
        "answer bob 2 alice\n\
         > refused 4 7 FetcherIdle\n",
        Status::Refused { line: 4, number: 7 },
    ),
    (
        PRE,
        "feed bob 2 0500\n\
         > refused 4 7 FetcherIdle\n",
        Status::Refused { line: 4, number: 7 },
    ),
    (
        PRE,
        "deliver 9 bob\n\
         > refused 4 5 NoSuchPacket\n",
        Status::Refused { line: 4, number: 5 },
    ),
    (
        PRE,
        "sync 1\n\
         > refused 4 5 NoSuchPacket\n",
        Status::Refused { line: 4, number: 5 },
    ),
    (
        PRE,
        "vector dora\n\
         > refused 4 2 UnknownLabel\n",
        Status::Refused { line: 4, number: 2 },
    ),
    (
        PRE,
        "told bob 1\n\
         > refused 4 15 NoSuchWatch\n",
        Status::Refused {
            line: 4,
            number: 15,
        },
    ),
    // Another member's watcher is none.
    (
        PRE,
        "watch alice bob /\n\
         > watch alice 1\n\
         told bob 1\n\
         > refused 5 15 NoSuchWatch\n",
        Status::Refused {
            line: 5,
            number: 15,
        },
    ),
    (
        PRE,
        "watch bob dora /\n\
         > refused 4 2 UnknownLabel\n",
        Status::Refused { line: 4, number: 2 },
    ),
    // A member has 16 watchers at most.
    (
        PRE,
        "watch bob * /1\n> watch bob 1\nwatch bob * /2\n> watch bob 2\nwatch bob * /3\n> watch bob 3\n\
         watch bob * /4\n> watch bob 4\nwatch bob * /5\n> watch bob 5\nwatch bob * /6\n> watch bob 6\n\
         watch bob * /7\n> watch bob 7\nwatch bob * /8\n> watch bob 8\nwatch bob * /9\n> watch bob 9\n\
         watch bob * /10\n> watch bob 10\nwatch bob * /11\n> watch bob 11\nwatch bob * /12\n> watch bob 12\n\
         watch bob * /13\n> watch bob 13\nwatch bob * /14\n> watch bob 14\nwatch bob * /15\n> watch bob 15\n\
         watch bob * /16\n> watch bob 16\nwatch alice * /\n> watch alice 1\n\
         watch bob * /17\n\
         > refused 21 4 Limit\n",
        Status::Refused {
            line: 21,
            number: 4,
        },
    ),
    (
        PRE,
        "catalogue dora\n\
         > refused 4 2 UnknownLabel\n",
        Status::Refused { line: 4, number: 2 },
    ),
    (
        PRE,
        "group /h\n\
         > refused 4 3 Duplicate\n",
        Status::Refused { line: 4, number: 3 },
    ),
    (
        PRE,
        "member bob /c 6b33\n\
         > refused 4 3 Duplicate\n",
        Status::Refused { line: 4, number: 3 },
    ),
    (
        PRE,
        "member dora /bob 6b33\n\
         > refused 4 3 Duplicate\n",
        Status::Refused { line: 4, number: 3 },
    ),
    (
        PRE,
        "client alice /c 6b33\n\
         > refused 4 3 Duplicate\n",
        Status::Refused { line: 4, number: 3 },
    ),
    (
        PRE,
        "fetch bob 0 1 0\n\
         > refused 4 4 Limit\n",
        Status::Refused { line: 4, number: 4 },
    ),
    (
        PRE,
        "vector bob\n\
         > vector bob alice=0 bob=0\n\
         member dan /dan 6b35\n\
         > refused 5 11 Late\n",
        Status::Refused {
            line: 5,
            number: 11,
        },
    ),
    (
        "",
        "settle 1\n\
         > refused 1 9 NoGroup\n",
        Status::Refused { line: 1, number: 9 },
    ),
    (
        "",
        "group /g\n\
         group\n\
         > refused 2 1 Syntax\n",
        Status::Refused { line: 2, number: 1 },
    ),
    (
        "",
        "settle 17\n\
         > refused 1 4 Limit\n",
        Status::Refused { line: 1, number: 4 },
    ),
    (
        PRE,
        "deliver 9 dora\n\
         > refused 4 2 UnknownLabel\n",
        Status::Refused { line: 4, number: 2 },
    ),
    (
        PRE,
        "vector bob\n\
         > vector bob alice=0 bob=0\n\
         member bob /bob 6b32\n\
         > refused 5 11 Late\n",
        Status::Refused {
            line: 5,
            number: 11,
        },
    ),
    (
        PRE,
        "claim dora 17\n\
         > refused 4 4 Limit\n",
        Status::Refused { line: 4, number: 4 },
    ),
    (
        PRE,
        "insert bob alice /in 6 5\n\
         > refused 4 4 Limit\n",
        Status::Refused { line: 4, number: 4 },
    ),
    (
        PRE,
        "insert dora alice /in 5 6\n\
         > refused 4 2 UnknownLabel\n",
        Status::Refused { line: 4, number: 2 },
    ),
    (
        PRE,
        "settle 1\n\
         > settle syncs 2 kept 0\n\
         settle 1\r\r\n\
         > refused 5 1 Syntax\n",
        Status::Refused { line: 5, number: 1 },
    ),
];

#[test]
fn a_line_is_refused_for_its_first_reason(rt: HostRuntime) {
    for (head, transcript, wanted) in &REFUSED {
        expect_transcript(&rt, head, transcript, *wanted);
    }
}

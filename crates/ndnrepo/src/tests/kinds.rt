use super::{PRE, expect_transcript};
use repo_io::*;
use std::test::*;

// First lines, then lines each with what it prints after it, and the status.
const WITHDRAWALS: [(&str, &str, Status); 6] = [
    // The record of a withdrawal takes the object out of both catalogues.
    (
        PRE,
        "publish alice /doc 10 text:abc\n\
         > publish alice 1 segments 1 sync 1\n\
         withdraw alice 1\n\
         > withdraw alice 2 of 1 sync 2\n\
         settle 2\n\
         > settle syncs 2 kept 3\n\
         catalogue alice\n\
         > catalogue alice 0\n\
         catalogue bob\n\
         > catalogue bob 0\n\
         traffic\n\
         > traffic syncs 4 delivered 2 attempts 0 parts 3 octets 274\n\
         withdraw alice 1\n\
         > refused 10 14 NoSuchNumber\n",
        Status::Refused {
            line: 10,
            number: 14,
        },
    ),
    // A withdrawal is received before the object that it withdraws.
    (
        PRE,
        "publish alice /doc 10 text:abc\n\
         > publish alice 1 segments 1 sync 1\n\
         withdraw alice 1\n\
         > withdraw alice 2 of 1 sync 2\n\
         deliver 2 bob\n\
         > deliver 2 bob steady\n\
         claim bob 1\n\
         > claim bob 1 part alice 1 0\n\
         claim bob 2\n\
         > claim bob 2 part alice 2 0\n\
         answer bob 2 alice\n\
         > answer bob 2 kept\n\
         answer bob 1 alice\n\
         > answer bob 1 kept\n\
         claim bob 1\n\
         > claim bob 1 part alice 1 1\n\
         answer bob 1 alice\n\
         > answer bob 1 kept\n\
         catalogue bob\n\
         > catalogue bob 0\n",
        Status::Done,
    ),
    // A withdrawal is received after an object that is whole, from a member that didn't publish it.
    (
        PRE,
        "member carol /carol 6b33\n\
         publish alice /doc 10 text:abc\n\
         > publish alice 1 segments 1 sync 1\n\
         settle 2\n\
         > settle syncs 3 kept 4\n\
         withdraw alice 1\n\
         > withdraw alice 2 of 1 sync 5\n\
         deliver 5 bob\n\
         > deliver 5 bob steady\n\
         claim bob 1\n\
         > claim bob 1 part alice 2 0\n\
         answer bob 1 alice\n\
         > answer bob 1 kept\n\
         catalogue bob\n\
         > catalogue bob 0\n\
         deliver 5 carol\n\
         > deliver 5 carol steady\n\
         claim carol 1\n\
         > claim carol 1 part alice 2 0\n\
         answer carol 1 bob\n\
         > answer carol 1 kept\n\
         catalogue carol\n\
         > catalogue carol 0\n\
         dump carol alice 1 1\n\
         > dump carol 064d07080803646f6332010014051a03320100150361626316131b01041c0e070c0805616c69636508034b4\
         5591720375b6af5bb89153f9e9f217bcff08bb4e94a9c19f2ab42636d6eaa822dd3fcfa\n",
        Status::Done,
    ),
    // A withdrawal can't be withdrawn.
    (
        PRE,
        "publish alice /doc 10 text:abc\n\
         > publish alice 1 segments 1 sync 1\n\
         withdraw alice 1\n\
         > withdraw alice 2 of 1 sync 2\n\
         withdraw alice 2\n\
         > refused 6 14 NoSuchNumber\n",
        Status::Refused {
            line: 6,
            number: 14,
        },
    ),
    // Nothing was published under the number.
    (
        PRE,
        "publish alice /doc 10 text:abc\n\
         > publish alice 1 segments 1 sync 1\n\
         withdraw bob 1\n\
         > refused 5 14 NoSuchNumber\n",
        Status::Refused {
            line: 5,
            number: 14,
        },
    ),
    // What is withdrawn is not deleted by its name, and what is deleted can be withdrawn.
    (
        PRE,
        "client carl /carl 6b34\n\
         publish alice /doc 10 text:abc\n\
         > publish alice 1 segments 1 sync 1\n\
         publish alice /in 10 text:abc\n\
         > publish alice 2 segments 1 sync 2\n\
         withdraw alice 1\n\
         > withdraw alice 3 of 1 sync 3\n\
         delete alice carl /doc\n\
         > delete alice 404\n\
         dump alice alice 3 0\n\
         > dump alice 064b070d0805616c6963650801673a0103150385010116131b01041c0e070c0805616c69636508034b45591\
         720edc1607b0e12b93db9ae00c44d8d201f12d67d399ddd1051edf42b337e8e1f66\n\
         delete alice carl /in\n\
         > delete alice 200 packets 2\n\
         withdraw alice 2\n\
         > withdraw alice 4 of 2 sync 4\n\
         settle 2\n\
         > settle syncs 2 kept 4\n\
         catalogue alice\n\
         > catalogue alice 0\n\
         catalogue bob\n\
         > catalogue bob 0\n",
        Status::Done,
    ),
];

const LARGE_OBJECTS: [(&str, &str, Status); 3] = [
    // A segment is wanted once its index packet is there.
    (
        PRE,
        "publish alice /big 1 fill:201:65\n\
         > publish alice 1 segments 201 sync 1\n\
         deliver 1 bob\n\
         > deliver 1 bob steady\n\
         claim bob 1\n\
         > claim bob 1 part alice 1 0\n\
         answer bob 1 alice\n\
         > answer bob 1 kept\n\
         claim bob 1\n\
         > claim bob 1 part alice 1 1\n\
         claim bob 2\n\
         > claim bob 2 part alice 1 2\n\
         claim bob 3\n\
         > claim bob 3 none\n\
         answer bob 2 alice\n\
         > answer bob 2 kept\n\
         claim bob 3\n\
         > claim bob 3 part alice 1 203\n\
         settle 2\n\
         > settle syncs 2 kept 202\n\
         catalogue bob\n\
         > catalogue bob 1\n\
         > entry alice 1 /big segments 201 octets 201 sha256 \
         dea81b358bf5398fcac273cd724126e665c20d2ab58957a01beedd2df1f502f4\n",
        Status::Done,
    ),
    // The largest object is received in a settle.
    (
        PRE,
        "publish alice /j 1 fill:20000:65\n\
         > publish alice 1 segments 20000 sync 1\n\
         settle 4\n\
         > settle syncs 2 kept 20101\n",
        Status::Done,
    ),
    // The index packets are dropped with the other packets.
    (
        PRE,
        "client carl /carl 6b34\n\
         publish alice /big 1 fill:201:65\n\
         > publish alice 1 segments 201 sync 1\n\
         delete alice carl /big\n\
         > delete alice 200 packets 204\n\
         settle 2\n\
         > settle syncs 2 kept 0\n\
         catalogue bob\n\
         > catalogue bob 0\n",
        Status::Done,
    ),
];

#[test]
fn withdrawn_objects_are_listed_no_more(rt: HostRuntime) {
    for (head, transcript, wanted) in &WITHDRAWALS {
        expect_transcript(&rt, head, transcript, *wanted);
    }
}

#[test]
fn large_objects_come_by_their_index_packets(rt: HostRuntime) {
    for (head, transcript, wanted) in &LARGE_OBJECTS {
        expect_transcript(&rt, head, transcript, *wanted);
    }
}

use super::{PRE, expect_transcript};
use repo_io::*;
use std::test::*;

// Lines after those of the group and its members, each with what it prints after it, and the status.
const MIRRORED: [(&str, Status); 3] = [
    // A mirror fetches the records of its publisher, then the rest of the objects that its pattern accepts.
    (
        "mirror mia alice /doc\n\
         publish alice /doc/a 10 text:abc\n\
         > publish alice 1 segments 1 sync 1\n\
         publish alice /x 10 text:abc\n\
         > publish alice 2 segments 1 sync 2\n\
         publish bob /doc/b 10 text:abc\n\
         > publish bob 1 segments 1 sync 3\n\
         mdeliver 2 mia\n\
         > mdeliver 2 mia\n\
         mfetch mia 2 1 0\n\
         > mfetch mia planned 2 kept 2 attempts 2\n\
         mfetch mia 2 1 0\n\
         > mfetch mia planned 1 kept 1 attempts 1\n\
         mcatalogue mia\n\
         > mcatalogue mia 1\n\
         > entry alice 1 /doc/a segments 1 octets 3 sha256 \
         ba7816bf8f01cfea414140de5dae2223b00361a396177a9cb410ff61f20015ad\n",
        Status::Done,
    ),
    // A settle gives a mirror all that members hold.
    (
        "mirror mia * /\n\
         publish alice /doc/a 10 text:abc\n\
         > publish alice 1 segments 1 sync 1\n\
         publish alice /x 10 text:abc\n\
         > publish alice 2 segments 1 sync 2\n\
         publish bob /doc/b 10 text:abc\n\
         > publish bob 1 segments 1 sync 3\n\
         settle 2\n\
         > settle syncs 2 kept 6\n\
         mcatalogue mia\n\
         > mcatalogue mia 3\n\
         > entry alice 1 /doc/a segments 1 octets 3 sha256 \
         ba7816bf8f01cfea414140de5dae2223b00361a396177a9cb410ff61f20015ad\n\
         > entry alice 2 /x segments 1 octets 3 sha256 \
         ba7816bf8f01cfea414140de5dae2223b00361a396177a9cb410ff61f20015ad\n\
         > entry bob 1 /doc/b segments 1 octets 3 sha256 \
         ba7816bf8f01cfea414140de5dae2223b00361a396177a9cb410ff61f20015ad\n",
        Status::Done,
    ),
    // A mirror keeps what members delete, and what they withdraw until it has the withdrawal's record. What it fetches
    // is no member's traffic.
    (
        "client carl /carl 6b34\n\
         mirror mia * /doc\n\
         mirror ned bob /\n\
         publish alice /doc/a 1 text:abc\n\
         > publish alice 1 segments 3 sync 1\n\
         publish bob /x 10 text:abc\n\
         > publish bob 1 segments 1 sync 2\n\
         mcatalogue mia\n\
         > mcatalogue mia 0\n\
         mdeliver 2 ned\n\
         > mdeliver 2 ned\n\
         mdeliver 2 ned\n\
         > mdeliver 2 ned\n\
         mfetch ned 1 1 0\n\
         > mfetch ned planned 1 kept 1 attempts 1\n\
         mcatalogue ned\n\
         > mcatalogue ned 0\n\
         settle 1\n\
         > settle syncs 2 kept 6\n\
         mfetch mia 1 16 0\n\
         > mfetch mia planned 0 kept 0 attempts 0\n\
         mcatalogue mia\n\
         > mcatalogue mia 1\n\
         > entry alice 1 /doc/a segments 3 octets 3 sha256 \
         ba7816bf8f01cfea414140de5dae2223b00361a396177a9cb410ff61f20015ad\n\
         delete bob carl /doc/a\n\
         > delete bob 200 packets 4\n\
         withdraw alice 1\n\
         > withdraw alice 2 of 1 sync 5\n\
         mcatalogue mia\n\
         > mcatalogue mia 1\n\
         > entry alice 1 /doc/a segments 3 octets 3 sha256 \
         ba7816bf8f01cfea414140de5dae2223b00361a396177a9cb410ff61f20015ad\n\
         mdeliver 5 mia\n\
         > mdeliver 5 mia\n\
         mfetch mia 1 1 0\n\
         > mfetch mia planned 1 kept 1 attempts 1\n\
         mcatalogue mia\n\
         > mcatalogue mia 0\n\
         restart alice\n\
         > restart alice\n\
         mcatalogue ned\n\
         > mcatalogue ned 1\n\
         > entry bob 1 /x segments 1 octets 3 sha256 \
         ba7816bf8f01cfea414140de5dae2223b00361a396177a9cb410ff61f20015ad\n\
         traffic\n\
         > traffic syncs 5 delivered 2 attempts 0 parts 6 octets 616\n",
        Status::Done,
    ),
];

#[test]
fn mirrors_hold_what_they_ask_for(rt: HostRuntime) {
    for (transcript, wanted) in &MIRRORED {
        expect_transcript(&rt, PRE, transcript, *wanted);
    }
}

// Where several reasons hold, the first of their order is reported.
const REFUSED: [(&str, Status); 12] = [
    // No packet of that number was sent.
    (
        "mirror mia alice /doc\n\
         publish alice /doc 10 text:abc\n\
         > publish alice 1 segments 1 sync 1\n\
         mdeliver 1 mia\n\
         > mdeliver 1 mia\n\
         mdeliver 2 mia\n\
         > refused 7 5 NoSuchPacket\n",
        Status::Refused { line: 7, number: 5 },
    ),
    // A member is no mirror.
    (
        "mirror mia * /\n\
         mfetch alice 1 1 0\n\
         > refused 5 2 UnknownLabel\n",
        Status::Refused { line: 5, number: 2 },
    ),
    (
        "mirror mia * /\n\
         catalogue mia\n\
         > refused 5 2 UnknownLabel\n",
        Status::Refused { line: 5, number: 2 },
    ),
    (
        "mirror mia * /\n\
         mdeliver 1 bob\n\
         > refused 5 2 UnknownLabel\n",
        Status::Refused { line: 5, number: 2 },
    ),
    // A mirror is of a member, or of all.
    (
        "mirror mia dora /\n\
         > refused 4 2 UnknownLabel\n",
        Status::Refused { line: 4, number: 2 },
    ),
    (
        "mirror mia mia /\n\
         > refused 4 2 UnknownLabel\n",
        Status::Refused { line: 4, number: 2 },
    ),
    // Labels are shared.
    (
        "mirror bob * /\n\
         > refused 4 3 Duplicate\n",
        Status::Refused { line: 4, number: 3 },
    ),
    (
        "mirror mia * /\n\
         member mia /mia 6b34\n\
         > refused 5 3 Duplicate\n",
        Status::Refused { line: 5, number: 3 },
    ),
    // A mirror is declared before the first event.
    (
        "settle 1\n\
         > settle syncs 2 kept 0\n\
         mirror mia * /\n\
         > refused 5 11 Late\n",
        Status::Refused {
            line: 5,
            number: 11,
        },
    ),
    // A group has at most four mirrors.
    (
        "mirror m1 * /\n\
         mirror m2 * /\n\
         mirror m3 bob /\n\
         mirror m4 bob /\n\
         mirror m5 * /\n\
         > refused 8 4 Limit\n",
        Status::Refused { line: 8, number: 4 },
    ),
    (
        "mirror mia * /\n\
         mfetch mia 17 1 0\n\
         > refused 5 4 Limit\n",
        Status::Refused { line: 5, number: 4 },
    ),
    (
        "mirror mia * /\n\
         mdeliver 0 mia\n\
         > refused 5 4 Limit\n",
        Status::Refused { line: 5, number: 4 },
    ),
];

#[test]
fn a_mirrors_line_is_refused_for_its_first_reason(rt: HostRuntime) {
    for (transcript, wanted) in &REFUSED {
        expect_transcript(&rt, PRE, transcript, *wanted);
    }
}

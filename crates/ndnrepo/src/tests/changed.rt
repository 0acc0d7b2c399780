use super::{PRE, expect, report_of, script_of};
use repo_io::*;
use std::process::Abort;
use std::test::*;
use std::thread::Threads;

// Octets from outside that are changed in each place, and what a member says of them.
struct Changes {
    // Lines before, each with what it prints after it.
    before: &'static str,
    // What stands before the octets in their line, and what the line's report begins with.
    line: &'static str,
    octets: &'static str,
    // What is printed of the first octet alone, and of more that are not all.
    cut: [&'static str; 2],
    // What is printed where the lowest bit of one octet is flipped, and for how many octets one after another.
    flipped: &'static [(u32, &'static str)],
    // Places at which 32 octets begin of which each bit counts, and what is printed where one of these bits is flipped.
    sealed: (&'static [u8], &'static str),
    // What is printed of 8,800 octets 05, and of one more.
    long: [&'static str; 2],
    // What is printed of the octets as they are, in the end: what was changed has changed nothing.
    whole: &'static str,
}

const CHANGES: [Changes; 4] = [
    // A sync Interest that alice sent.
    Changes {
        before: "publish alice /doc 10 text:abc\n\
             > publish alice 1 segments 1 sync 1\n",
        line: "hear bob",
        octets: "0573072808016736010202206f504a90c15c79060eb22e95a6f5a26d5ac53df3312f58b4aae5e23af1b299fd2410c90eca0\
             c07070805616c696365cc01012c131b01041c0e070c0805616c69636508034b45592e20f15b2fa4ae603e113ad456498d48\
             ae98fcecb04b9e9117633457038bde17139b",
        cut: ["refused Truncated 1", "refused Truncated 0"],
        flipped: &[
            (1, "refused WrongType 4"),
            (1, "refused TrailingOctets 116"),
            (1, "refused Critical 6 2"),
            (1, "refused Truncated 45"),
            (1, "refused WrongGroup"),
            (1, "refused Truncated 6"),
            (2, "refused WrongGroup"),
            (1, "refused BadField Name 2"),
            (1, "refused WrongGroup"),
            (1, "refused Missing ParametersDigest"),
            (1, "refused Truncated 10"),
            (32, "refused ParamsDigest"),
            (1, "refused Critical 37 44"),
            (1, "refused Critical 19 63"),
            (16, "refused ParamsDigest"),
            (1, "refused Critical 45 62"),
            (1, "refused Truncated 67"),
            (1, "refused Critical 26 64"),
            (1, "refused BadField SignatureType 64"),
            (1, "refused ParamsDigest"),
            (1, "refused Critical 29 67"),
            (1, "refused Truncated 67"),
            (1, "refused BadField KeyLocator 67"),
            (1, "refused Truncated 69"),
            (1, "refused ParamsDigest"),
            (1, "refused Truncated 77"),
            (6, "refused ParamsDigest"),
            (1, "refused Truncated 83"),
            (3, "refused ParamsDigest"),
            (1, "refused Critical 47 83"),
            (1, "refused Truncated 83"),
            (32, "refused ParamsDigest"),
        ],
        sealed: (&[12, 85], "refused ParamsDigest"),
        long: ["refused TrailingOctets 7", "refused PacketTooLong"],
        whole: "steady",
    },
    // The record that bob claims.
    Changes {
        before: "publish alice /doc 10 text:abc\n\
             > publish alice 1 segments 1 sync 1\n\
             deliver 1 bob\n\
             > deliver 1 bob steady\n\
             claim bob 1\n\
             > claim bob 1 part alice 1 0\n",
        line: "feed bob 1",
        octets: "0674070d0805616c6963650801673a0101152c07050803646f638101018320a81e4ec9e732923effbeb940256a1765187d0\
             4a99b440057e515a292ec9a722d16131b01041c0e070c0805616c69636508034b455917207e61911ee2099d3402db77699b\
             df35c543e343abbd0f01476e9ff22338ef5d98",
        cut: ["refused Truncated 1", "refused Truncated 0"],
        flipped: &[
            (1, "refused WrongType 7"),
            (1, "refused Truncated 0"),
            (1, "refused Critical 6 2"),
            (1, "refused Truncated 14"),
            (1, "refused OtherName"),
            (1, "refused Truncated 10"),
            (6, "refused OtherName"),
            (1, "refused Truncated 13"),
            (2, "refused OtherName"),
            (1, "refused Truncated 17"),
            (1, "refused OtherName"),
            (1, "refused Critical 7 19"),
            (1, "refused Critical 19 64"),
            (44, "refused BadSignature"),
            (1, "refused Critical 23 84"),
            (1, "refused Truncated 68"),
            (1, "refused Critical 26 65"),
            (1, "refused BadField SignatureType 65"),
            (1, "refused UnknownKey"),
            (1, "refused Critical 29 68"),
            (1, "refused Truncated 68"),
            (1, "refused BadField KeyLocator 68"),
            (1, "refused Truncated 70"),
            (1, "refused UnknownKey"),
            (1, "refused Truncated 78"),
            (6, "refused UnknownKey"),
            (1, "refused Truncated 84"),
            (3, "refused UnknownKey"),
            (1, "refused Critical 22 84"),
            (1, "refused Truncated 84"),
            (32, "refused BadSignature"),
        ],
        sealed: (&[86], "refused BadSignature"),
        long: ["refused WrongType 5", "refused PacketTooLong"],
        whole: "kept",
    },
    // An Interest for the record.
    Changes {
        before: "publish alice /doc 10 text:abc\n\
             > publish alice 1 segments 1 sync 1\n",
        line: "ask alice",
        octets: "050f070d0805616c6963650801673a0101",
        cut: ["refused Truncated 1", "refused Truncated 0"],
        flipped: &[
            (1, "refused WrongType 4"),
            (1, "refused TrailingOctets 16"),
            (1, "refused Critical 6 2"),
            (1, "refused Truncated 14"),
            (1, "none"),
            (1, "refused Truncated 10"),
            (6, "none"),
            (1, "refused Truncated 13"),
            (2, "none"),
            (1, "refused Truncated 17"),
            (1, "none"),
        ],
        sealed: (&[], ""),
        long: ["refused TrailingOctets 7", "refused PacketTooLong"],
        whole: "found 0674070d0805616c6963650801673a0101152c07050803646f638101018320a81e4ec9e732923effbeb940256a176\
             5187d04a99b440057e515a292ec9a722d16131b01041c0e070c0805616c69636508034b455917207e61911ee2099d3402db\
             77699bdf35c543e343abbd0f01476e9ff22338ef5d98",
    },
    // A command that carl made.
    Changes {
        before: "client carl /carl 6b34\n\
             delete alice carl /doc\n\
             > delete alice 404\n\
             publish alice /doc 10 text:abc\n\
             > publish alice 1 segments 1 sync 1\n",
        line: "order alice",
        octets: "057407310805616c696365080664656c657465022027490a2bd5f0f89936a752be977e1a1140fdfbc08557f92f9c440b692\
             ee2ea1b2409c90707050803646f632c121b01041c0d070b08046361726c08034b45592e20fb1c29fb23da22f7c7d7f2b39d\
             686140a6bf7a99bce7770bcec3ee5fbacf4562",
        cut: ["403", "403"],
        flipped: &[
            (21, "403"),
            (32, "401"),
            (2, "403"),
            (9, "401"),
            (4, "403"),
            (1, "401"),
            (4, "403"),
            (1, "401"),
            (1, "403"),
            (5, "401"),
            (1, "403"),
            (3, "401"),
            (2, "403"),
            (32, "401"),
        ],
        sealed: (&[21, 86], "401"),
        long: ["403", "403"],
        whole: "200 packets 2",
    },
];

fn put_line(rt: &impl Abort, text: &mut String, line: &str, last: &str) {
    write!(text, "{line} {last}\n").expect(rt, "memory");
}

fn put_octets(rt: &(impl Abort + AllocGlobal), script: &mut String, line: &str, octets: &[u8]) {
    let digits = hex::encode(rt.alloc(), octets).expect(rt, "memory");
    put_line(rt, script, line, &digits);
}

// The octets cut, flipped, too long, and as they are.
fn put_changes(
    rt: &(impl Abort + AllocGlobal),
    script: &mut String,
    line: &str,
    octets: &mut [u8],
    sealed: &[u8],
) {
    for n in 1..octets.len() {
        put_octets(rt, script, line, &octets[..n]);
    }
    for at in 0..octets.len() {
        octets[at] ^= 1;
        put_octets(rt, script, line, octets);
        octets[at] ^= 1;
    }
    for at in sealed {
        put_flips(rt, script, line, octets, *at);
    }
    put_long(rt, script, line, 8_800);
    put_long(rt, script, line, 8_801);
    put_octets(rt, script, line, octets);
}

// The octets with one bit flipped, for each bit of the 32 octets from place `at` on.
fn put_flips(
    rt: &(impl Abort + AllocGlobal),
    script: &mut String,
    line: &str,
    octets: &mut [u8],
    at: u8,
) {
    let at = usize::from(at);
    for place in at..octets.len().min(at + 32) {
        for bit in [1, 2, 4, 8, 16, 32, 64, 128] {
            octets[place] ^= bit;
            put_octets(rt, script, line, octets);
            octets[place] ^= bit;
        }
    }
}

// A line with `n` octets 05.
fn put_long(rt: &(impl Abort + AllocGlobal), script: &mut String, line: &str, n: usize) {
    let octets = vec![in rt.alloc(); 5; n].expect(rt, "memory");
    put_octets(rt, script, line, &octets);
}

fn put_answers(rt: &impl Abort, report: &mut String, changes: &Changes) {
    let [first, more] = changes.cut;
    put_line(rt, report, changes.line, first);
    for _ in 2..changes.octets.len() / 2 {
        put_line(rt, report, changes.line, more);
    }
    for (count, answer) in changes.flipped {
        for _ in 0..*count {
            put_line(rt, report, changes.line, answer);
        }
    }
    let (places, answer) = changes.sealed;
    for _ in places {
        for _ in 0..256 {
            put_line(rt, report, changes.line, answer);
        }
    }
    for answer in changes.long {
        put_line(rt, report, changes.line, answer);
    }
    put_line(rt, report, changes.line, changes.whole);
}

fn expect_changes<R: Threads + Sync + AllocGlobal + Abort>(rt: &R, changes: &Changes) {
    let mut octets = hex::decode(rt.alloc(), changes.octets).expect(rt, "digits");
    let mut script = script_of(rt, PRE, changes.before);
    put_changes(rt, &mut script, changes.line, &mut octets, changes.sealed.0);
    let mut report = report_of(rt, changes.before);
    put_answers(rt, &mut report, changes);
    expect(rt, "run", 5_000, script.as_bytes(), Status::Done, &report);
}

#[test]
fn changed_octets_are_refused(rt: HostRuntime) {
    for changes in &CHANGES {
        expect_changes(&rt, changes);
    }
}

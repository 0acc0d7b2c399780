// What a member learns of a sync Interest, and takes for its claims.
use super::worked::FROM_ALICE;
use super::{ALICE, BOB, CAROL, member, ready, three_members};
use crate::expect::{same, same_octets};
use crate::worked::{RECORD, SEGMENT};
use repo_member::*;
use repo_object::PartRefusal;
use repo_plan::Part;
use std::process::Abort;
use std::test::*;
use svs_sync::Mode;

// The SHA-256 of "abc", as FIPS 180-4 has it among its examples.
const ABC: [u8; 32] = [
    0xba, 0x78, 0x16, 0xbf, 0x8f, 0x01, 0xcf, 0xea, 0x41, 0x41, 0x40, 0xde, 0x5d, 0xae, 0x22, 0x23,
    0xb0, 0x03, 0x61, 0xa3, 0x96, 0x17, 0x7a, 0x9c, 0xb4, 0x10, 0xff, 0x61, 0xf2, 0x00, 0x15, 0xad,
];

#[test]
fn octets_are_accepted_for_claims(rt: HostRuntime) {
    let g = three_members(&rt);
    let mut bob = member(&rt, &g, BOB);
    joins_what_alice_reports(&rt, &g, &mut bob);
    knows_of_one_publication(&rt, &bob);
    accepts_the_record(&rt, &g, &mut bob);
    accepts_the_segment(&rt, &g, &mut bob);
    lists_the_object(&rt, &bob);
}

// The first time it learns of a publication, and then of nothing more.
fn joins_what_alice_reports(rt: &impl Abort, g: &Group, bob: &mut Member) {
    ready(rt, g, bob);
    same(rt, bob.join_from(g, &FROM_ALICE), Ok(true), "join from");
    ready(rt, g, bob);
    same(rt, bob.join_from(g, &FROM_ALICE), Ok(false), "join from");
}

// The sync state wasn't informed: it is steady, and has used its first draw alone.
fn knows_of_one_publication(rt: &impl Abort, bob: &Member) {
    let vector = bob.vector();
    assert_eq!(rt; vector.members(), 3);
    same(
        rt,
        (vector.get(ALICE), vector.get(BOB), vector.get(CAROL)),
        (1, 0, 0),
        "get",
    );
    same(
        rt,
        (bob.mode(), bob.next_draw()),
        (Mode::Steady, 1),
        "next draw",
    );
}

// A part of alice's first publication.
fn part(part: u16) -> Part {
    Part {
        publisher: ALICE,
        seq: 1,
        part,
    }
}

fn accepts_the_record(rt: &impl Abort, g: &Group, bob: &mut Member) {
    ready(rt, g, bob);
    same(
        rt,
        bob.accept(g, 1, &RECORD),
        Err(AcceptRefusal::FetcherIdle),
        "accept",
    );
    same(rt, bob.claim(1), Ok(Some(part(0))), "claim");
    ready(rt, g, bob);
    let other = AcceptRefusal::Refused(PartRefusal::OtherName);
    same(rt, bob.accept(g, 1, &SEGMENT), Err(other), "accept");
    ready(rt, g, bob);
    same(rt, bob.accept(g, 1, &RECORD), Ok(part(0)), "accept");
}

fn accepts_the_segment(rt: &impl Abort, g: &Group, bob: &mut Member) {
    same(rt, bob.claim(1), Ok(Some(part(1))), "claim");
    ready(rt, g, bob);
    same(rt, bob.accept(g, 1, &SEGMENT), Ok(part(1)), "accept");
    same(rt, bob.claim(1), Ok(None), "claim");
}

fn lists_the_object(rt: &impl Abort, bob: &Member) {
    let [entry] = bob.catalogue().entries() else {
        panic!(rt; "one entry");
    };
    same(rt, (entry.publisher, entry.seq), (ALICE, 1), "seq");
    same(rt, (entry.segments, entry.octets), (1, 3), "octets");
    same_octets(rt, entry.name.octets(), &[8, 3, 0x64, 0x6f, 0x63], "octets");
    same_octets(rt, &entry.digest, &ABC, "digest");
}

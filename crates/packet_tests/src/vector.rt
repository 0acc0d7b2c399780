ghost use Rattle.std.specs.Prelude.{◌≡◌, length};

use crate::expect::{same, same_octets, same_of};
use ndn_name::{Name, NameView};
use std::process::Abort;
use std::test::*;
use svs_vector::*;

// The node names /alice and /bob, as values of Name elements.
const NAMES: [&[u8]; 2] = [&[8, 5, 97, 108, 105, 99, 101], &[8, 3, 98, 111, 98]];

fn two_members(rt: &(impl Abort + AllocGlobal)) -> Roster {
    let mut roster = Roster::new(rt.alloc());
    for octets in &NAMES {
        add(rt, &mut roster, octets);
    }
    roster
}

fn add(rt: &(impl Abort + AllocGlobal), roster: &mut Roster, octets: &[u8]) {
    let view = NameView::read(octets, 0).expect(rt, "a name");
    let name = Name::from_view(rt.alloc(), &view).expect(rt, "memory");
    roster.add(&name).expect(rt, "a new member");
}

// Alice at 3.
const WRITTEN: [u8; 16] = [
    0xc9, 0x0e, 0xca, 0x0c, 7, 7, 8, 5, 97, 108, 105, 99, 101, 0xcc, 1, 3,
];

// Bob at 2, alice at 1, alice at 3, and a node that is no member.
const UNORDERED: [u8; 52] = [
    0xc9, 0x32, 0xca, 0x0a, 7, 5, 8, 3, 98, 111, 98, 0xcc, 1, 2, 0xca, 0x0c, 7, 7, 8, 5, 97, 108,
    105, 99, 101, 0xcc, 1, 1, 0xca, 0x0c, 7, 7, 8, 5, 97, 108, 105, 99, 101, 0xcc, 1, 3, 0xca, 8,
    7, 3, 8, 1, 120, 0xcc, 1, 9,
];

// Alice at 3, with a second number in her entry, which is no field.
const TWO_NUMBERS: [u8; 19] = [
    0xc9, 0x11, 0xca, 0x0f, 7, 7, 8, 5, 97, 108, 105, 99, 101, 0xcc, 1, 3, 0xcc, 1, 5,
];

// Octets, and the numbers of alice and bob that they have.
const TOLD: [(&[u8], u16, u16); 4] = [
    (&[0xc9, 0], 0, 0),
    (&WRITTEN, 3, 0),
    (&TWO_NUMBERS, 3, 0),
    (&UNORDERED, 3, 2),
];

#[test]
fn vectors_are_read(rt: HostRuntime) {
    let roster = two_members(&rt);
    for (octets, alice, bob) in &TOLD {
        let vector = Vector::read(rt.alloc(), octets, &roster).expect(&rt, "a vector");
        tells(&rt, &vector, *alice, *bob);
    }
}

fn tells(rt: &impl Abort, vector: &Vector, alice: u16, bob: u16) {
    assert!(rt; vector.members() == 2);
    let told = (vector.get(0), vector.get(1));
    same(rt, told, (alice, bob), "alice and bob");
}

// Bob, whose name is shorter, at 258 before alice at 255.
const BOTH: [u8; 29] = [
    0xc9, 27, 0xca, 11, 7, 5, 8, 3, 98, 111, 98, 0xcc, 2, 1, 2, 0xca, 12, 7, 7, 8, 5, 97, 108, 105,
    99, 101, 0xcc, 1, 255,
];

// The numbers of alice and bob, and the octets that have them.
const VECTORS: [(u16, u16, &[u8]); 3] = [(0, 0, &[0xc9, 0]), (3, 0, &WRITTEN), (255, 258, &BOTH)];

#[test]
fn vectors_are_written(rt: HostRuntime) {
    let roster = two_members(&rt);
    for (alice, bob, octets) in &VECTORS {
        let mut vector = Vector::new(rt.alloc(), roster.len()).expect(&rt, "memory");
        raise(&rt, &mut vector, *alice, *bob);
        is_written(&rt, &vector, &roster, octets);
    }
}

fn raise(rt: &impl Abort, vector: &mut Vector, alice: u16, bob: u16)
    ensures { length vector.new ≡ length vector.old }
{
    assert!(rt; vector.members() == 2);
    vector.raise(0, alice);
    vector.raise(1, bob);
}

fn is_written(rt: &(impl Abort + AllocGlobal), vector: &Vector, roster: &Roster, octets: &[u8])
    requires { length vector.now ≡ length roster.now }
{
    let written = vector.write(rt.alloc(), roster).expect(rt, "memory");
    same_octets(rt, written.as_slice(), octets, "a vector");
}

// Octets that are no state vector of the two, and the offset of the element that breaks it.
const BROKEN: [(&[u8], usize); 12] = [
    (&[], 0),
    (&[0xc9, 1], 0),
    (&[0xca, 0], 0),
    // An entry whose length passes the end, or is spelled too long.
    (&[0xc9, 2, 0xca, 1], 2),
    (&[0xc9, 5, 0xca, 0xfd, 0, 1, 0], 2),
    // A critical stranger in the vector, and a second name in an entry.
    (&[0xc9, 2, 0xcb, 0], 2),
    (&[0xc9, 6, 0xca, 4, 7, 0, 7, 0], 6),
    // An entry without a number, and one without a name.
    (&[0xc9, 4, 0xca, 2, 7, 0], 2),
    (&[0xc9, 5, 0xca, 3, 0xcc, 1, 1], 2),
    // A number of three octets, and a name whose second component is cut off.
    (&[0xc9, 9, 0xca, 7, 7, 0, 0xcc, 3, 0, 0, 1], 6),
    (&[0xc9, 8, 0xca, 6, 7, 4, 8, 0, 8, 1], 4),
    // A stranger that is passed over, and an element after it that is cut off.
    (&[0xc9, 5, 0xca, 3, 240, 0, 7], 6),
];

#[test]
fn broken_vectors(rt: HostRuntime) {
    let roster = two_members(&rt);
    for (octets, at) in &BROKEN {
        is_refused(&rt, octets, &roster, VectorFault::BadVector { at: *at });
    }
}

fn is_refused(rt: &(impl Abort + AllocGlobal), octets: &[u8], roster: &Roster, fault: VectorFault) {
    let refused = Vector::read(rt.alloc(), octets, roster).err();
    same_of(rt, refused, Some(fault), octets);
}

// Alice at the greatest number of eight octets.
const GREATEST: [u8; 23] = [
    0xc9, 0x15, 0xca, 0x13, 7, 7, 8, 5, 97, 108, 105, 99, 101, 0xcc, 8, 255, 255, 255, 255, 255,
    255, 255, 255,
];

// A number above 65,535 of a node that is no member, and then one of bob.
const TOO_LARGE: [u8; 30] = [
    0xc9, 28, 0xca, 11, 7, 3, 8, 1, 99, 0xcc, 4, 0, 1, 0, 0, 0xca, 13, 7, 5, 8, 3, 98, 111, 98,
    0xcc, 4, 0, 1, 0, 0,
];

// The same, but a critical stranger stands after bob's number in his entry.
const TOO_LARGE_AND_BROKEN: [u8; 32] = [
    0xc9, 30, 0xca, 11, 7, 3, 8, 1, 99, 0xcc, 4, 0, 1, 0, 0, 0xca, 15, 7, 5, 8, 3, 98, 111, 98,
    0xcc, 4, 0, 1, 0, 0, 0xcb, 0,
];

// The faults of these.
const LARGE: [(&[u8], VectorFault); 3] = [
    (
        &GREATEST,
        VectorFault::NumberTooLarge {
            member: 0,
            number: u64::MAX,
        },
    ),
    (
        &TOO_LARGE,
        VectorFault::NumberTooLarge {
            member: 1,
            number: 65_536,
        },
    ),
    (&TOO_LARGE_AND_BROKEN, VectorFault::BadVector { at: 30 }),
];

#[test]
fn numbers_above_65535(rt: HostRuntime) {
    let roster = two_members(&rt);
    for (octets, fault) in &LARGE {
        is_refused(&rt, octets, &roster, *fault);
    }
}

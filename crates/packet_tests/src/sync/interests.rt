ghost use Rattle.std.specs.Prelude.{◌≡◌, ◌+◌, ◌<◌, ◌≤◌, length};
ghost use Rattle.std.specs.List.{All};
ghost use Rattle.svs_sync.specs.SyncInterest.{IsKeyName, IsNodeName};

use super::hostile::HOSTILE;
use crate::expect::{same_octets, same_of};
use ndn_name::{Name, NameView};
use ndn_sign::KeyRing;
use std::process::Abort;
use std::test::*;
use svs_sync::*;
use svs_vector::{Roster, Vector};

// The values of the names "/g", "/alice" and "/bob".
const GROUP: &[u8] = &[8, 1, 0x67];

const ALICE: &[u8] = &[8, 5, 0x61, 0x6c, 0x69, 0x63, 0x65];

const BOB: &[u8] = &[8, 3, 0x62, 0x6f, 0x62];

// What alice sends to the group after her first publication, signed with the key "k1".
const FROM_ALICE: [u8; 117] = [
    5, 0x73, 7, 0x28, 8, 1, 0x67, 0x36, 1, 2, 2, 0x20, 0x6f, 0x50, 0x4a, 0x90, 0xc1, 0x5c, 0x79, 6,
    0x0e, 0xb2, 0x2e, 0x95, 0xa6, 0xf5, 0xa2, 0x6d, 0x5a, 0xc5, 0x3d, 0xf3, 0x31, 0x2f, 0x58, 0xb4,
    0xaa, 0xe5, 0xe2, 0x3a, 0xf1, 0xb2, 0x99, 0xfd, 0x24, 0x10, 0xc9, 0x0e, 0xca, 0x0c, 7, 7, 8, 5,
    0x61, 0x6c, 0x69, 0x63, 0x65, 0xcc, 1, 1, 0x2c, 0x13, 0x1b, 1, 4, 0x1c, 0x0e, 7, 0x0c, 8, 5,
    0x61, 0x6c, 0x69, 0x63, 0x65, 8, 3, 0x4b, 0x45, 0x59, 0x2e, 0x20, 0xf1, 0x5b, 0x2f, 0xa4, 0xae,
    0x60, 0x3e, 0x11, 0x3a, 0xd4, 0x56, 0x49, 0x8d, 0x48, 0xae, 0x98, 0xfc, 0xec, 0xb0, 0x4b, 0x9e,
    0x91, 0x17, 0x63, 0x34, 0x57, 3, 0x8b, 0xde, 0x17, 0x13, 0x9b,
];

// What bob says of alice, signed with his key "k2", with an octet after the vector.
const FROM_BOB: [u8; 116] = [
    5, 0x72, 7, 0x28, 8, 1, 0x67, 0x36, 1, 2, 2, 0x20, 0xae, 0xda, 0x14, 0x82, 0x3b, 0xe1, 0xf8,
    0x57, 0x4b, 0x22, 2, 0xe9, 0xfc, 0xb7, 0x0d, 0x96, 0x76, 0xa7, 0xc0, 0xd1, 0x77, 0xfd, 0x8f,
    0xe0, 0x49, 0xdd, 0xca, 0x43, 0x73, 0x70, 7, 0x4d, 0x24, 0x11, 0xc9, 0x0e, 0xca, 0x0c, 7, 7, 8,
    5, 0x61, 0x6c, 0x69, 0x63, 0x65, 0xcc, 1, 1, 7, 0x2c, 0x11, 0x1b, 1, 4, 0x1c, 0x0c, 7, 0x0a, 8,
    3, 0x62, 0x6f, 0x62, 8, 3, 0x4b, 0x45, 0x59, 0x2e, 0x20, 0x3e, 0x9f, 0x79, 0x22, 0xeb, 0x1e,
    0x14, 0xe0, 0xb9, 0x56, 0x71, 0xd8, 0xc8, 0xcd, 0xfe, 0xe6, 0x8e, 0x34, 0xb2, 0xcf, 0x7f, 0xcd,
    0xfa, 0xf8, 3, 0x9b, 0x27, 0xba, 0x57, 0x31, 2, 0x2c,
];

// The group, its members alice and bob, and their keys.
#[derive(Drop)]
struct Group {
    name: Name,
    roster: Roster,
    ring: KeyRing,
}

impl Group {
    fn new(rt: &(impl Abort + AllocGlobal)) -> Group
        ensures name { IsNodeName result.name }
        ensures members { All IsNodeName result.roster }
        ensures two { length result.roster ≡ 2 }
    {
        Group {
            name: node(rt, GROUP),
            roster: two_members(rt),
            ring: two_keys(rt),
        }
    }
}

fn node(rt: &(impl Abort + AllocGlobal), value: &[u8]) -> Name
    requires some { 1 ≤ length value.now }
    requires short { length value.now ≤ 200 }
    ensures { IsNodeName result }
{
    let view = NameView::read(value, 0).expect(rt, "a name");
    Name::from_view(rt.alloc(), &view).expect(rt, "memory")
}

fn key_name(rt: &(impl Abort + AllocGlobal), value: &[u8]) -> Name
    requires some { 1 ≤ length value.now }
    requires short { length value.now ≤ 200 }
    ensures { IsKeyName result }
{
    let mut name = node(rt, value);
    name.push(8, b"KEY").expect(rt, "memory");
    name
}

fn two_members(rt: &(impl Abort + AllocGlobal)) -> Roster
    ensures members { All IsNodeName result }
    ensures two { length result ≡ 2 }
{
    let mut roster = Roster::new(rt.alloc());
    add_member(rt, &mut roster, ALICE);
    add_member(rt, &mut roster, BOB);
    roster
}

fn add_member(rt: &(impl Abort + AllocGlobal), roster: &mut Roster, value: &[u8])
    requires some { 1 ≤ length value.now }
    requires short { length value.now ≤ 200 }
    requires members { All IsNodeName roster.old }
    ensures members { All IsNodeName roster.new }
    ensures one { length roster.new ≡ length roster.old + 1 }
{
    let name = node(rt, value);
    roster.add(&name).expect(rt, "a new member");
}

fn two_keys(rt: &(impl Abort + AllocGlobal)) -> KeyRing {
    let mut ring = KeyRing::new(rt.alloc());
    add_key(rt, &mut ring, ALICE, b"k1");
    add_key(rt, &mut ring, BOB, b"k2");
    ring
}

fn add_key(rt: &(impl Abort + AllocGlobal), ring: &mut KeyRing, value: &[u8], key: &[u8])
    requires some { 1 ≤ length value.now }
    requires short { length value.now ≤ 200 }
    requires few { length ring.old < 2 }
    ensures { length ring.new ≡ length ring.old + 1 }
{
    let name = key_name(rt, value);
    ring.add(name.octets(), key).expect(rt, "memory");
}

#[test]
fn alice_reports_of_her_first_publication(rt: HostRuntime) {
    let group = Group::new(&rt);
    let mut vector = Vector::new(rt.alloc(), group.roster.len()).expect(&rt, "memory");
    vector.raise(0, 1);
    is_reported(&rt, &group, &vector);
}

fn is_reported(rt: &(impl Abort + AllocGlobal), group: &Group, vector: &Vector)
    requires name { IsNodeName group.now.name }
    requires members { All IsNodeName group.now.roster }
    requires width { length vector.now ≡ length group.now.roster }
{
    let name = key_name(rt, ALICE);
    let made = make_sync(rt.alloc(), &group.name, vector, &group.roster, &name, b"k1");
    let octets = made.expect(rt, "memory");
    same_octets(rt, octets.as_slice(), &FROM_ALICE, "from alice");
}

// Sync Interests, and the number of the key that signed each. Both report alice's first
// publication.
const SENT: [(&[u8], u32); 2] = [(&FROM_ALICE, 0), (&FROM_BOB, 1)];

#[test]
fn the_signer_is_not_reported_by_the_vector(rt: HostRuntime) {
    let group = Group::new(&rt);
    for (octets, sender) in &SENT {
        is_signed_by(&rt, &group, octets, *sender);
    }
}

fn is_signed_by(rt: &(impl Abort + AllocGlobal), group: &Group, octets: &[u8], sender: u32) {
    let checked = check_sync(rt.alloc(), octets, &group.name, &group.roster, &group.ring);
    let (signer, vector) = checked.expect(rt, "a sync Interest");
    same_of(rt, signer, sender, octets);
    assert!(rt; vector.members() == 2);
    same_of(rt, (vector.get(0), vector.get(1)), (1, 0), octets);
}

#[test]
fn hostile_sync_interests(rt: HostRuntime) {
    let group = Group::new(&rt);
    for (octets, refusal) in &HOSTILE {
        is_refused(&rt, &group, octets, *refusal);
    }
}

fn is_refused(rt: &(impl Abort + AllocGlobal), group: &Group, octets: &[u8], refusal: SyncRefusal) {
    let refused = check_sync(rt.alloc(), octets, &group.name, &group.roster, &group.ring).err();
    same_of(rt, refused, Some(refusal), octets);
}

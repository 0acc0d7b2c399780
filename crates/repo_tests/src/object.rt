ghost use Rattle.std.specs.Prelude.{◌≡◌, ◌<◌, ◌≤◌, length, IsOk};
ghost use Rattle.ndn_name.specs.Names.{encoding};
ghost use Rattle.ndn_data.specs.Data.{data_of};

mod contents;
mod hostile;
mod large;

use crate::expect::{is, is_of, same, same_octets, same_of};
use crate::worked::{FULL_ASKED, RECORD, RECORD_ASKED, RECORD_DIGEST, SEGMENT, WITHDRAWAL};
use contents::CONTENTS;
use hostile::{FOR_THE_RECORD, FOR_THE_SEGMENT};
use ndn_data::{DataView, write_signed};
use ndn_name::Name;
use ndn_sign::{KeyRing, digest};
use repo_object::*;
use repo_plan::{Part, Shape};
use std::process::Abort;
use std::str;
use std::test::*;

const KEY: &[u8] = b"k1";

// The name of a node or a group.
fn short_name(rt: &(impl Abort + AllocGlobal), text: &str) -> Name
    ensures { length (encoding result) ≤ 200 }
{
    let name = Name::from_uri(rt.alloc(), text).expect(rt, "a name");
    assert!(rt; name.octets().len() <= NODE_NAME_LIMIT);
    name
}

// The object of this name whose content is cut into segments of that size.
fn object(rt: &(impl Abort + AllocGlobal), name: &Name, content: &[u8], size: usize) -> Object
    requires some { 0 < size }
    requires size { size ≤ 8000 }
{
    assert!(rt; is_object_name(&name.view()));
    let contents = cut(rt.alloc(), content, size).expect(rt, "few segments");
    Object::new(rt.alloc(), name, &contents).expect(rt, "memory")
}

// A ring with the node's key.
fn ring_of(rt: &(impl Abort + AllocGlobal), node: &Name, key: &[u8]) -> KeyRing
    requires { length (encoding node.now) ≤ 200 }
    ensures { 0 < length result }
{
    let mut ring = KeyRing::new(rt.alloc());
    let name = key_name(node).expect(rt, "memory");
    ring.add(name.octets(), key).expect(rt, "memory");
    ring
}

fn record_want(rt: &(impl Abort + AllocGlobal), seq: u16, node: &Name, group: &Name) -> Want
    requires node { length (encoding node.now) ≤ 200 }
    requires group { length (encoding group.now) ≤ 200 }
    ensures { result.part.publisher ≡ 0 }
{
    let part = Part {
        publisher: 0,
        seq,
        part: 0,
    };
    want_record(rt.alloc(), part, node, group).expect(rt, "memory")
}

// The want of a segment of that shape's part, of the object of this name and with this digest.
fn segment_want(
    rt: &(impl Abort + AllocGlobal),
    part: Part,
    shape: Shape,
    name: &Name,
    digest: &[u8; 32],
) -> Want
    ensures { result.part.publisher ≡ part.publisher }
{
    assert!(rt; shape.index < part.part);
    assert!(rt; name.octets().len() <= OBJECT_NAME_LIMIT);
    want_segment(rt.alloc(), part, shape, name, digest).expect(rt, "memory")
}

// The octets that are written as digits.
fn octets_of(rt: &(impl Abort + AllocGlobal), digits: &str) -> Vec<u8> {
    let mut octets = Vec::new(rt.alloc());
    for pair in digits.as_bytes().chunks(2) {
        let pair = str::from_utf8(pair).expect(rt, "digits");
        let octet = u8::from_str_radix(pair, 16).expect(rt, "two digits");
        octets.push(octet).expect(rt, "memory");
    }
    octets
}

// Checks the octets of each row for a want, with the refusal that comes, if one does.
fn check_all(rt: &(impl Abort + AllocGlobal), want: &Want, ring: &KeyRing, rows: &str)
    requires { want.now.part.publisher < length ring.now }
{
    for row in rows.lines() {
        if !row.starts_with('#') {
            checks(rt, want, ring, row);
        }
    }
}

fn checks(rt: &(impl Abort + AllocGlobal), want: &Want, ring: &KeyRing, row: &str)
    requires { want.now.part.publisher < length ring.now }
{
    let (digits, answer) = row.split_once(" => ").expect(rt, "an answer");
    let octets = octets_of(rt, digits);
    let refusal = check_part(want, &octets, ring).err();
    let reported = format!(in rt.alloc(); "{refusal:?}").expect(rt, "memory");
    same(rt, reported.as_str(), answer, row);
    if DataView::read(&octets).is_ok() {
        is_checked_as_packet(rt, want, ring, octets, refusal);
    }
}

// Sees that the octets are checked alike as a packet, which is shared where it passes.
fn is_checked_as_packet(
    rt: &(impl Abort + AllocGlobal),
    want: &Want,
    ring: &KeyRing,
    octets: Vec<u8>,
    refusal: Option<PartRefusal>,
)
    requires publisher { want.now.part.publisher < length ring.now }
    requires data { IsOk (data_of octets.items) }
{
    let packet = Packet::new(rt.alloc(), octets, None).expect(rt, "memory");
    match check_packet(want, &packet, ring) {
        Ok(checked) => {
            let shared = checked.to_packet(rt.alloc()).expect(rt, "memory");
            is(
                rt,
                refusal.is_none() && shared.octets() == packet.octets(),
                "shared",
            );
        }
        Err(fault) => is(rt, refusal == Some(fault), "refused alike"),
    }
}

#[test]
fn worked_publication_is_written(rt: HostRuntime) {
    let alice = short_name(&rt, "/alice");
    let group = short_name(&rt, "/g");
    let name = short_name(&rt, "/doc");
    let object = object(&rt, &name, b"abc", 10);
    same_octets(&rt, object.name().octets(), name.octets(), "name");
    has_one_content(&rt, &object);
    is_written_whole(&rt, &object, &alice, &group);
    is_written_alone(&rt, &object, &alice, &group);
    comes_with_digests(&rt, &object, &alice, &group);
}

fn has_one_content(rt: &impl Abort, object: &Object) {
    let [content] = object.contents() else {
        panic!(rt; "one content");
    };
    same_octets(rt, content, b"abc", "content");
}

fn is_written_whole(rt: &(impl Abort + AllocGlobal), object: &Object, node: &Name, group: &Name)
    requires node { length (encoding node.now) ≤ 200 }
    requires group { length (encoding group.now) ≤ 200 }
{
    let packets = packets_of(rt.alloc(), object, 1, node, group, KEY).expect(rt, "memory");
    let [record, segment] = packets.as_slice() else {
        panic!(rt; "two packets");
    };
    same_octets(rt, record, &RECORD, "record");
    same_octets(rt, segment, &SEGMENT, "segment");
}

fn is_written_alone(rt: &(impl Abort + AllocGlobal), object: &Object, node: &Name, group: &Name)
    requires node { length (encoding node.now) ≤ 200 }
    requires group { length (encoding group.now) ≤ 200 }
{
    let alone: [(u16, Option<&[u8]>); 3] = [(0, Some(&RECORD)), (1, Some(&SEGMENT)), (2, None)];
    for (part, packet) in &alone {
        let made = packet_of(rt.alloc(), object, 1, *part, node, group, KEY);
        same(rt, made.expect(rt, "memory").as_deref(), *packet, "a part");
    }
}

// Sees that the first publication of an object is made of the worked packets, each with its digest.
fn comes_with_digests(rt: &(impl Abort + AllocGlobal), object: &Object, node: &Name, group: &Name)
    requires node { length (encoding node.now) ≤ 200 }
    requires group { length (encoding group.now) ≤ 200 }
{
    let made = shared_packets_of(rt.alloc(), object, 1, node, group, KEY).expect(rt, "memory");
    same(rt, made.len(), 2, "len");
    for (one, packet) in made.iter().zip([RECORD.as_slice(), SEGMENT.as_slice()]) {
        same_octets(rt, one.octets(), packet, "octets");
        same_octets(rt, &one.digest(), &digest(packet), "digest");
    }
}

#[test]
fn worked_record_is_checked(rt: HostRuntime) {
    let alice = short_name(&rt, "/alice");
    let group = short_name(&rt, "/g");
    let ring = ring_of(&rt, &alice, KEY);
    let want = record_want(&rt, 1, &alice, &group);
    same_octets(&rt, want.interest(), &RECORD_ASKED, "interest");
    check_all(&rt, &want, &ring, FOR_THE_RECORD);
}

#[test]
fn worked_segment_is_checked(rt: HostRuntime) {
    let alice = short_name(&rt, "/alice");
    let ring = ring_of(&rt, &alice, KEY);
    let listing = listing_of(&rt, &RECORD);
    let part = Part {
        publisher: 0,
        seq: 1,
        part: 1,
    };
    let digest = listing.digests.first().expect(&rt, "a digest");
    let want = segment_want(&rt, part, Shape::of(1), &listing.name, digest);
    same_octets(&rt, want.interest(), &FULL_ASKED, "interest");
    check_all(&rt, &want, &ring, FOR_THE_SEGMENT);
}

// What a record lists.
fn listing_of(rt: &(impl Abort + AllocGlobal), record: &[u8]) -> Listing {
    let content = DataView::read(record).expect(rt, "a packet").content;
    let Record::Lists(listing) = read_record(rt.alloc(), content).expect(rt, "a record") else {
        panic!(rt; "a listing");
    };
    listing
}

#[test]
fn contents_are_read_as_records(rt: HostRuntime) {
    for row in CONTENTS.lines() {
        if !row.starts_with('#') {
            is_read(&rt, row);
        }
    }
}

fn is_read(rt: &(impl Abort + AllocGlobal), row: &str) {
    let (digits, answer) = row.split_once(" => ").expect(rt, "an answer");
    let segments = segments_in(rt, &octets_of(rt, digits));
    let reported = format!(in rt.alloc(); "{segments:?}").expect(rt, "memory");
    same(rt, reported.as_str(), answer, row);
}

// How many segments a content lists where it is a record's.
fn segments_in(rt: &(impl Abort + AllocGlobal), content: &[u8]) -> Option<usize> {
    let segments = match read_record(rt.alloc(), content) {
        Ok(read) => Some(segments_of(&read)),
        Err(RecordFault::BadRecord) => None,
        Err(RecordFault::NoMemory) => panic!(rt; "memory"),
    };
    same(rt, is_record(content), segments.is_some(), "is record");
    segments
}

// How many segments a record counts.
fn segments_of(read: &Record) -> usize {
    match read {
        Record::Lists(listing) => listing.digests.len(),
        Record::Indexed { segments, .. } => usize::from(*segments),
        Record::Withdraws { .. } => 0,
    }
}

// A value that may go to another thread and be let go there.
fn goes_anywhere<T: Send + Drop>(_: T) {}

#[test]
fn publications_at_the_limits_pass(rt: HostRuntime) {
    let octets = [b'a'; 396];
    let node = name_of(&rt, &octets[..198]);
    let name = name_of(&rt, &octets);
    let key = [b'k'; 128];
    assert!(rt; node.octets().len() <= NODE_NAME_LIMIT);
    let object = object(&rt, &name, &[b'A'; 200], 1);
    let packets = packets_of(rt.alloc(), &object, 65_535, &node, &node, &key).expect(&rt, "memory");
    let ring = ring_of(&rt, &node, &key);
    let want = record_want(&rt, 65_535, &node, &node);
    pass(&rt, &packets, &want, &ring);
}

// The name of one component.
fn name_of(rt: &(impl Abort + AllocGlobal), value: &[u8]) -> Name {
    let mut name = Name::new(rt.alloc());
    name.push(8, value).expect(rt, "memory");
    name
}

// Sees that a record of the greatest publication passes, and each segment that it lists.
fn pass(rt: &(impl Abort + AllocGlobal), packets: &[Vec<u8>], want: &Want, ring: &KeyRing)
    requires publisher { want.now.part.publisher < length ring.now }
    requires some { 0 < length ring.now }
{
    let [record, segments @ ..] = packets else {
        panic!(rt; "a record");
    };
    same(rt, (record.len(), segments.len()), (7_871, 200), "lengths");
    same_octets(rt, &digest(record), &RECORD_DIGEST, "digest");
    goes_anywhere(check_part(want, record, ring).expect(rt, "a record"));
    segments_pass(rt, record, segments, ring);
}

fn segments_pass(
    rt: &(impl Abort + AllocGlobal),
    record: &[u8],
    segments: &[Vec<u8>],
    ring: &KeyRing,
)
    requires some { 0 < length ring.now }
{
    let listing = listing_of(rt, record);
    let mut part = 0u16;
    for segment in segments {
        let own = digest(segment);
        same(
            rt,
            listing.digests.get(usize::from(part)),
            Some(&own),
            "digest",
        );
        part = part.saturating_add(1);
        let part = Part {
            publisher: 0,
            seq: 65_535,
            part,
        };
        let want = segment_want(rt, part, Shape::of(200), &listing.name, &own);
        let checked = check_part(&want, segment, ring).expect(rt, "a segment");
        same(rt, checked.part().part, part.part, "part");
        same_octets(rt, checked.octets(), segment, "octets");
    }
}

#[test]
fn worked_withdrawal_is_written(rt: HostRuntime) {
    let alice = short_name(&rt, "/alice");
    let group = short_name(&rt, "/g");
    let packet = withdrawal_packet(rt.alloc(), 1, 2, &alice, &group, KEY).expect(&rt, "memory");
    same_octets(&rt, packet.as_slice(), &WITHDRAWAL, "packet");
    let content = DataView::read(&packet).expect(&rt, "a packet").content;
    same_octets(&rt, content, &[0x85, 1, 1], "content");
    let ring = ring_of(&rt, &alice, KEY);
    let want = record_want(&rt, 2, &alice, &group);
    is(&rt, check_part(&want, &packet, &ring).is_ok(), "check part");
    let read = read_record(rt.alloc(), content).expect(&rt, "a record");
    let Record::Withdraws { seq } = read else {
        panic!(rt; "a withdrawal");
    };
    same(&rt, seq, 1, "seq");
}

#[test]
fn withdrawals_are_of_earlier_numbers(rt: HostRuntime) {
    let alice = short_name(&rt, "/alice");
    let ring = ring_of(&rt, &alice, KEY);
    let keyed = key_name(&alice).expect(&rt, "memory");
    let group = short_name(&rt, "/g");
    let want = record_want(&rt, 2, &alice, &group);
    let name = short_name(&rt, "/alice/g/seq=2");
    for (number, passes) in &[(0, false), (1, true), (2, false), (3, false)] {
        let content = [0x85, 1, *number];
        let packet = write_signed(rt.alloc(), &name, None, &content, &keyed, KEY).expect(
            &rt, "memory",
        );
        let refusal = check_part(&want, &packet, &ring).err();
        let wanted = (!*passes).then_some(PartRefusal::BadRecord);
        same_of(&rt, refusal, wanted, &content);
        is_of(&rt, is_record(&content) == (*number != 0), &content);
    }
}

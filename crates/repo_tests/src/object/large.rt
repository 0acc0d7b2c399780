// Objects of more segments than a record lists.
ghost use Rattle.std.specs.Prelude.{◌≡◌, ◌<◌, ◌≤◌, length};
ghost use Rattle.ndn_name.specs.Names.{encoding};

use super::{KEY, object, record_want, ring_of, segment_want, short_name};
use crate::expect::{is, same, same_octets};
use ndn_data::DataView;
use ndn_name::Name;
use ndn_sign::{KeyRing, digest};
use repo_object::*;
use repo_plan::{Part, Shape};
use std::process::Abort;
use std::test::*;

#[test]
fn large_objects_are_listed_by_index_packets(rt: HostRuntime) {
    let alice = short_name(&rt, "/alice");
    let name = short_name(&rt, "/big");
    let object = object(&rt, &name, &[b'A'; 201], 1);
    let packets = packets_of(rt.alloc(), &object, 1, &alice, &alice, KEY).expect(&rt, "memory");
    assert!(rt; packets.len() == 204);
    for (part, packet) in packets.iter().enumerate() {
        let made = packet_of(rt.alloc(), &object, 1, part as u16, &alice, &alice, KEY);
        same(
            &rt,
            made.expect(&rt, "memory").as_deref(),
            Some(packet.as_slice()),
            "a part",
        );
    }
    let ring = ring_of(&rt, &alice, KEY);
    large_passes(&rt, &packets, &alice, &name, &ring);
}

fn large_passes(
    rt: &(impl Abort + AllocGlobal),
    packets: &[Vec<u8>],
    node: &Name,
    name: &Name,
    ring: &KeyRing,
)
    requires some { 0 < length ring.now }
    requires node { length (encoding node.now) ≤ 200 }
{
    let record = packet_at(rt, packets, 0);
    let want = record_want(rt, 1, node, node);
    is(rt, check_part(&want, record, ring).is_ok(), "check part");
    let content = DataView::read(record).expect(rt, "a packet").content;
    let read = read_record(rt.alloc(), content).expect(rt, "a record");
    let first = index_want(rt, 1, &read, node);
    lists(rt, &first, packets, 200, ring);
    let second = index_want(rt, 2, &read, node);
    lists(rt, &second, packets, 1, ring);
    segments_of_large_pass(rt, packets, name, ring);
}

fn packet_at<'p>(rt: &impl Abort, packets: &'p [Vec<u8>], part: u16) -> &'p [u8] {
    packets
        .get(usize::from(part))
        .expect(rt, "a packet")
        .as_slice()
}

// The want of an index packet that the record lists.
fn index_want(rt: &(impl Abort + AllocGlobal), part: u16, read: &Record, node: &Name) -> Want
    requires { length (encoding node.now) ≤ 200 }
    ensures { result.part.publisher ≡ 0 }
{
    let Record::Indexed {
        segments,
        digests,
        ..
    } = read
    else {
        panic!(rt; "index packets");
    };
    let segments = *segments;
    assert!(rt; 200 < segments && segments <= 20_000);
    assert!(rt; digests.len() == usize::from(Shape::of(segments).index));
    assert!(rt; 0 < part && usize::from(part) <= digests.len());
    let part = Part {
        publisher: 0,
        seq: 1,
        part,
    };
    let want = want_index(rt.alloc(), part, read, node, node).expect(rt, "memory");
    assert!(rt; want.part() == part);
    want
}

// Sees that an index packet passes, and lists exactly `count` digests.
fn lists(
    rt: &(impl Abort + AllocGlobal),
    want: &Want,
    packets: &[Vec<u8>],
    count: u16,
    ring: &KeyRing,
)
    requires { want.now.part.publisher < length ring.now }
{
    let packet = packet_at(rt, packets, want.part().part);
    is(rt, check_part(want, packet, ring).is_ok(), "check part");
    same(rt, want.digest(), Some(&digest(packet)), "digest");
    let content = DataView::read(packet).expect(rt, "a packet").content;
    let digests = read_index(rt.alloc(), content, count).expect(rt, "an index packet");
    same(rt, digests.len(), usize::from(count), "len");
    let first = usize::from(want.part().part.saturating_sub(1)).saturating_mul(200);
    for (listed, packet) in digests
        .iter()
        .zip(packets.iter().skip(first.saturating_add(3)))
    {
        same_octets(rt, listed, &digest(packet), "listed");
    }
    let more = count.saturating_add(1);
    let other = read_index(rt.alloc(), content, more).err();
    same(rt, other, Some(RecordFault::BadRecord), "one more");
}

fn segments_of_large_pass(
    rt: &(impl Abort + AllocGlobal),
    packets: &[Vec<u8>],
    name: &Name,
    ring: &KeyRing,
)
    requires some { 0 < length ring.now }
{
    let mut part = 2u16;
    for packet in packets.iter().skip(3) {
        part = part.saturating_add(1);
        let part = Part {
            publisher: 0,
            seq: 1,
            part,
        };
        let want = segment_want(rt, part, Shape::of(201), name, &digest(packet));
        is(rt, check_part(&want, packet, ring).is_ok(), "check part");
    }
    same(rt, part, 203, "part");
}

#[test]
fn the_largest_object_is_published(rt: HostRuntime) {
    let alice = short_name(&rt, "/alice");
    let name = short_name(&rt, "/big");
    let octets = [b'A'; 20_001];
    let refused = cut(rt.alloc(), &octets, 1).err();
    let many = CutFault::TooMany { segments: 20_001 };
    same(&rt, refused, Some(many), "cut");
    let object = object(&rt, &name, &octets[..20_000], 1);
    let packets = packets_of(rt.alloc(), &object, 1, &alice, &alice, KEY).expect(&rt, "memory");
    same(&rt, packets.len(), 20_101, "len");
}

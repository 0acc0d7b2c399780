ghost use Rattle.std.specs.Prelude.{◌≤◌};

use crate::expect::{is, same, same_octets, same_of};
use crate::worked::*;
use ndn_data::{DataView, write_signed};
use ndn_name::{Field, Name, PacketFault};
use ndn_sign::digest;
use repo_object::Packet;
use repo_plan::Part;
use repo_store::*;
use std::process::Abort;
use std::test::*;

fn part(publisher: u32, seq: u16, part: u16) -> Part {
    Part {
        publisher,
        seq,
        part,
    }
}

fn put(rt: &impl Abort, store: &mut Store, part: Part, octets: &[u8]) -> bool {
    DataView::read(octets).expect(rt, "a packet");
    store.put(part, octets).expect(rt, "memory")
}

// The record and the segment of one publication, and the segment of another that has its name.
fn stored(rt: &(impl Abort + AllocGlobal)) -> Store {
    let mut store = Store::new(rt.alloc());
    put(rt, &mut store, part(1, 1, 1), &OTHER_SEGMENT);
    put(rt, &mut store, part(0, 1, 1), &SEGMENT);
    put(rt, &mut store, part(0, 1, 0), &RECORD);
    store
}

// Interests, and the packet that is served for each.
const SERVED: [(&[u8], Option<&[u8]>); 12] = [
    (&RECORD_ASKED, Some(&RECORD)),
    (&FRESH_ASKED, None),
    (&PREFIX_ASKED, Some(&RECORD)),
    (&SHORTER_ASKED, None),
    (&SEGMENT_ASKED, Some(&SEGMENT)),
    (&DOC_ASKED, Some(&SEGMENT)),
    (&FULL_ASKED, Some(&SEGMENT)),
    (&OTHER_FULL_ASKED, Some(&OTHER_SEGMENT)),
    (&FULL_PREFIX_ASKED, Some(&OTHER_SEGMENT)),
    (&WRONG_DIGEST_ASKED, None),
    (&PARAMETERS_ASKED, None),
    (&NEXT_ASKED, None),
];

fn all_are_served(rt: &impl Abort, store: &Store) {
    for (interest, packet) in &SERVED {
        serves(rt, store, interest, *packet);
    }
    let missing = PacketFault::Missing { field: Field::Name };
    same(rt, store.serve(&[0x05, 0x00]), Err(missing), "no name");
}

fn serves(rt: &impl Abort, store: &Store, interest: &[u8], packet: Option<&[u8]>) {
    same_of(rt, store.serve(interest), Ok(packet), interest);
}

#[test]
fn interests_are_served(rt: HostRuntime) {
    let mut store = stored(&rt);
    all_are_served(&rt, &store);
    store.order_names();
    all_are_served(&rt, &store);
}

#[test]
fn packets_are_put_once_and_dropped(rt: HostRuntime) {
    let mut store = stored(&rt);
    is(
        &rt,
        !put(&rt, &mut store, part(0, 1, 0), &SEGMENT),
        "put before",
    );
    same(
        &rt,
        store.get(part(0, 1, 0)),
        Some(RECORD.as_slice()),
        "the first",
    );
    same(&rt, store.get(part(0, 2, 0)), None, "none");
    drops(&rt, &mut store, 1, 2);
    drops(&rt, &mut store, 1, 0);
    same(&rt, store.len(), 1, "packets");
    serves(&rt, &store, &RECORD_ASKED, None);
    serves(&rt, &store, &SEGMENT_ASKED, Some(&OTHER_SEGMENT));
}

// So many packets of a publication of the first publisher are dropped.
fn drops(rt: &impl Abort, store: &mut Store, seq: u16, count: u64) {
    same(rt, store.drop_parts(0, seq) as u64, count, "dropped");
}

#[test]
fn equal_packets_are_kept_once(rt: HostRuntime) {
    let mut store = Store::new(rt.alloc());
    put(&rt, &mut store, part(0, 1, 0), &RECORD);
    put(&rt, &mut store, part(0, 1, 1), &SEGMENT);
    put(&rt, &mut store, part(0, 2, 0), &SECOND_RECORD);
    put(&rt, &mut store, part(0, 2, 1), &SEGMENT);
    same(&rt, (store.len(), store.kept()), (4, 3), "kept");
    drops(&rt, &mut store, 1, 2);
    same(&rt, (store.len(), store.kept()), (2, 2), "kept");
    serves(&rt, &store, &FULL_ASKED, Some(&SEGMENT));
}

// A packet of this name.
fn numbered(rt: &(impl Abort + AllocGlobal), name: &Name) -> Vec<u8> {
    write_signed(rt.alloc(), name, None, b"content", name, b"key").expect(rt, "memory")
}

// The name whose component is this number.
fn named(rt: &(impl Abort + AllocGlobal), i: u16) -> Name {
    let mut name = Name::new(rt.alloc());
    name.push(8, &i.to_be_bytes()).expect(rt, "a short name");
    name
}

// More than may be recent, in falling order of the names, of which some are put in their place in turn.
fn put_falling(rt: &(impl Abort + AllocGlobal), store: &mut Store) {
    for i in 0..1_100_u16 {
        let number = 1_100 - i;
        let octets = numbered(rt, &named(rt, number));
        put(rt, store, part(0, number, 0), &octets);
        if i % 3 == 0 {
            store.order_names();
        }
    }
}

#[test]
fn packets_in_falling_order_are_found(rt: HostRuntime) {
    let mut store = Store::new(rt.alloc());
    put_falling(&rt, &mut store);
    same(&rt, store.len(), 1_100, "packets");
    drops(&rt, &mut store, 76, 1);
    let dropped = store.drop_all(&[(0, 600), (1, 75), (0, 74), (0, 600)]);
    same(&rt, dropped as u64, 2, "dropped");
    for i in &[1, 75, 77, 1_099, 1_100] {
        is_found(&rt, &store, *i, true);
    }
    for i in &[74, 76, 600] {
        is_found(&rt, &store, *i, false);
    }
}

// The packet of this number is found by its part and by its name, or is by neither.
fn is_found(rt: &(impl Abort + AllocGlobal), store: &Store, i: u16, there: bool) {
    let name = named(rt, i);
    let octets = numbered(rt, &name);
    let kept = there.then_some(octets.as_slice());
    same(rt, store.get(part(0, i, 0)), kept, "by its part");
    serves(rt, store, &asked(rt, name.octets()), kept);
}

// The Interest for a name of four octets.
fn asked(rt: &(impl Abort + AllocGlobal), name: &[u8]) -> Vec<u8> {
    let head = [0x05, 0x06, 0x07, 0x04];
    let mut interest = head.to_vec(rt.alloc()).expect(rt, "memory");
    interest.extend_from_slice(name).expect(rt, "memory");
    interest
}

#[test]
fn packets_are_put_within_rooms(rt: HostRuntime) {
    DataView::read(&RECORD).expect(&rt, "a packet");
    let first = RECORD.to_vec(rt.alloc()).expect(&rt, "memory");
    let second = RECORD.to_vec(rt.alloc()).expect(&rt, "memory");
    let mut store = Store::new(rt.alloc());
    store.reserve(2).expect(&rt, "memory");
    is(&rt, store.put_reserved(part(0, 1, 0), first), "put");
    is(
        &rt,
        !store.put_reserved(part(0, 1, 0), second),
        "put before",
    );
    same(&rt, store.len(), 1, "packets");
}

// A store with the other's record, which both hold, and a segment of its own.
fn sharing(rt: &(impl Abort + AllocGlobal), other: &Store) -> Store {
    let mut store = Store::new(rt.alloc());
    store.reserve(2).expect(rt, "memory");
    let record = other.packet(part(0, 1, 0)).expect(rt, "a record");
    let record = record.share(rt.alloc()).expect(rt, "memory");
    is(rt, store.put_shared(part(0, 1, 0), record), "put shared");
    let segment = SEGMENT.to_vec(rt.alloc()).expect(rt, "memory");
    is_put(rt, &mut store, segment);
    store
}

// The first segment of the first publication is put within the room.
fn is_put(rt: &impl Abort, store: &mut Store, segment: Vec<u8>)
    requires { 1 ≤ store.old.spare }
{
    DataView::read(&segment).expect(rt, "a packet");
    is(rt, store.put_reserved(part(0, 1, 1), segment), "put");
}

// Sees that a packet has these octets, and their digest, name and content.
fn is_of(rt: &impl Abort, packet: &Packet, octets: &[u8]) {
    let data = DataView::read(octets).expect(rt, "a packet");
    same_octets(rt, packet.octets(), octets, "octets");
    same_octets(rt, &packet.digest(), &digest(octets), "digest");
    same_octets(rt, packet.name(), data.name.octets(), "name");
    same_octets(rt, packet.content(), data.content, "content");
}

// Sees the same of the packet of this number of the first publication, and of what shares it.
fn is_stored(rt: &(impl Abort + AllocGlobal), store: &Store, number: u16, octets: &[u8]) {
    let packet = store.packet(part(0, 1, number)).expect(rt, "a packet");
    is_of(rt, packet, octets);
    let shared = packet.share(rt.alloc()).expect(rt, "memory");
    is_of(rt, &shared, octets);
}

#[test]
fn packets_are_shared_between_stores(rt: HostRuntime) {
    let store = sharing(&rt, &stored(&rt));
    is_stored(&rt, &store, 0, &RECORD);
    is_stored(&rt, &store, 1, &SEGMENT);
    is(&rt, store.packet(part(0, 2, 0)).is_none(), "no packet");
    serves(&rt, &store, &FULL_ASKED, Some(&SEGMENT));
}

ghost use Rattle.std.specs.Prelude.{◌<◌, length};

use crate::expect::{is, same, same_octets, same_of};
use ndn_tlv::*;
use std::process::Abort;
use std::test::*;

// The value of a name with the components "a" and segment number 0, in an element of type 7.
const NAME: [u8; 8] = [0x07, 0x06, 0x08, 0x01, 0x61, 0x32, 0x01, 0x00];

#[test]
fn elements_in_order(rt: HostRuntime) {
    let mut outer = Reader::new(&NAME, 0);
    let name = next_of(&rt, &mut outer);
    same(&rt, (name.typ, name.start), (7, 0), "the name");
    same(&rt, (name.value_start, name.end), (2, 8), "its value");
    same(&rt, outer.next(), Ok(None), "the end");
    components_in_order(&rt, name.value);
}

fn next_of<'p>(rt: &impl Abort, reader: &mut Reader<'p>) -> Element<'p> {
    let element = reader.next().expect(rt, "elements");
    element.expect(rt, "an element")
}

fn components_in_order(rt: &impl Abort, value: &[u8]) {
    let mut components = Reader::new(value, 2);
    let first = next_of(rt, &mut components);
    same(
        rt,
        (first.typ, first.start, first.end),
        (8, 2, 5),
        "the first",
    );
    let second = next_of(rt, &mut components);
    same(
        rt,
        (second.typ, second.start, second.value_start),
        (0x32, 5, 7),
        "the second",
    );
    same_octets(rt, second.value, &[0], "its value");
}

// What `next` answers first about octets at offset 100.
fn first_fault(octets: &[u8]) -> Option<TlvFault>
    requires { length octets.now < 1000 }
{
    Reader::new(octets, 100).next().err()
}

// Octets at offset 100, and the fault of the first element, where there is one.
const FAULTS: [(&[u8], Option<TlvFault>); 9] = [
    (&[], None),
    (&[253, 1], Some(TlvFault::Truncated { at: 100 })),
    (&[7], Some(TlvFault::Truncated { at: 101 })),
    (&[7, 254, 0, 1], Some(TlvFault::Truncated { at: 101 })),
    (&[7, 2, 0], Some(TlvFault::Truncated { at: 100 })),
    (
        &[7, 0xfd, 0x00, 0x06],
        Some(TlvFault::NotShortest { at: 101 }),
    ),
    (
        &[0xfd, 0x00, 0x07, 0x00],
        Some(TlvFault::NotShortest { at: 100 }),
    ),
    (&[0, 0], Some(TlvFault::ZeroType { at: 100 })),
    (
        &[255, 0, 0, 0, 1, 0, 0, 0, 0, 0],
        Some(TlvFault::TypeTooLarge { at: 100 }),
    ),
];

#[test]
fn faults(rt: HostRuntime) {
    for (octets, fault) in &FAULTS {
        assert!(rt; octets.len() < 1000);
        same_of(&rt, first_fault(octets), *fault, octets);
    }
}

#[derive(Clone, Copy, Debug, PartialEq, Eq)]
enum Field {
    Name,
    Count,
    Digest,
}

const TABLE: [Place<Field>; 3] = [
    Place {
        typ: 7,
        field: Field::Name,
        repeats: false,
    },
    Place {
        typ: 129,
        field: Field::Count,
        repeats: false,
    },
    Place {
        typ: 131,
        field: Field::Digest,
        repeats: true,
    },
];

// A stranger of type 240 is passed over; a second name is critical.
const FIELDS: [u8; 13] = [240, 0, 129, 1, 2, 131, 0, 240, 0, 131, 0, 7, 0];

#[test]
fn fields_of_a_table(rt: HostRuntime) {
    let mut fields = FieldReader::new(Reader::new(&FIELDS, 10), &TABLE);
    comes_next(&rt, &mut fields, Field::Count, 12);
    comes_next(&rt, &mut fields, Field::Digest, 15);
    comes_next(&rt, &mut fields, Field::Digest, 19);
    is_critical_at(&rt, &mut fields, 7, 21);
    is_critical_at(&rt, &mut fields, 7, 21);
}

fn comes_next(rt: &impl Abort, fields: &mut FieldReader<'_, Field>, field: Field, start: usize) {
    let next = fields.next().expect(rt, "fields");
    let (found, element) = next.expect(rt, "a field");
    same(rt, (found, element.start), (field, start), "a field");
}

fn is_critical_at(rt: &impl Abort, fields: &mut FieldReader<'_, Field>, typ: u32, at: usize) {
    let fault = Some(FieldError::Critical { typ, at });
    same(rt, fields.next().err(), fault, "a fault");
}

// Each type or length at an edge of its spelling, and its octets.
const EDGES: [(u32, usize, &[u8]); 8] = [
    (1, 0, &[1, 0]),
    (252, 252, &[252, 252]),
    (253, 253, &[253, 0, 253, 253, 0, 253]),
    (65_535, 65_535, &[253, 255, 255, 253, 255, 255]),
    (65_536, 65_536, &[254, 0, 1, 0, 0, 254, 0, 1, 0, 0]),
    (
        4_294_967_295,
        4_294_967_295,
        &[254, 255, 255, 255, 255, 254, 255, 255, 255, 255],
    ),
    (7, 4_294_967_296, &[7, 255, 0, 0, 0, 1, 0, 0, 0, 0]),
    (
        7,
        18_446_744_073_709_551_615,
        &[7, 255, 255, 255, 255, 255, 255, 255, 255, 255],
    ),
];

#[test]
fn heads_at_the_edges(rt: HostRuntime) {
    for (typ, len, octets) in &EDGES {
        assert!(rt; *typ > 0);
        is_spelled(&rt, *typ, *len, octets);
    }
}

fn is_spelled(rt: &(impl Abort + AllocGlobal), typ: u32, len: usize, octets: &[u8])
    requires { 0 < typ }
{
    same_of(rt, head_len(typ, len), octets.len(), octets);
    let made = Writer::with_capacity(rt.alloc(), head_len(typ, len));
    let mut writer = made.expect(rt, "memory");
    writer.put_head(typ, len).expect(rt, "memory");
    same_octets(rt, writer.octets(), octets, "octets");
}

// Elements of the types 7, 27 and 300.
const SPELLED: [u8; 19] = [
    7, 6, 8, 1, 0x61, 0x32, 1, 0, 0x1b, 1, 4, 0xfd, 1, 0x2c, 4, 0, 1, 0, 0,
];

#[test]
fn spellings(rt: HostRuntime) {
    let mut writer = Writer::new(rt.alloc());
    writer.put(7, &NAME[2..]).expect(&rt, "memory");
    writer.put_number(0x1b, 4).expect(&rt, "memory");
    writer.put_number(300, 65_536).expect(&rt, "memory");
    same_octets(&rt, writer.octets(), &SPELLED, "three elements");
    same_octets(&rt, writer.finish().as_slice(), &SPELLED, "three elements");
}

// The octets of number fields, and the number that each is.
const NUMBERS: [(&[u8], Option<u64>); 6] = [
    (&[2], Some(2)),
    (&[1, 2], Some(258)),
    (&[0, 0, 1, 2], Some(258)),
    (&[255; 8], Some(18_446_744_073_709_551_615)),
    (&[], None),
    (&[0, 1, 2], None),
];

#[test]
fn number_fields(rt: HostRuntime) {
    for (octets, number) in &NUMBERS {
        same_of(&rt, read_number(octets), *number, octets);
    }
    for (typ, critical) in &[(31, true), (32, false), (33, true)] {
        is(&rt, is_critical(*typ) == *critical, "critical");
    }
}

ghost use Rattle.std.specs.Prelude.{◌<◌, ◌^◌, length};

use crate::expect::{is, same, same_octets, same_of, same_text};
use ndn_name::*;
use ndn_tlv::TlvFault;
use std::process::Abort;
use std::str;
use std::test::*;

// SHA-256 of nothing (FIPS 180-4).
const DIGEST: [u8; 32] = [
    0xe3, 0xb0, 0xc4, 0x42, 0x98, 0xfc, 0x1c, 0x14, 0x9a, 0xfb, 0xf4, 0xc8, 0x99, 0x6f, 0xb9, 0x24,
    0x27, 0xae, 0x41, 0xe4, 0x64, 0x9b, 0x93, 0x4c, 0xa4, 0x95, 0x99, 0x1b, 0x78, 0x52, 0xb8, 0x55,
];

// Texts, the values that they stand for, and the text that is printed.
const TEXTS: [(&str, &[u8], &str); 24] = [
    ("/", &[], "/"),
    ("ndn:/", &[], "/"),
    ("/a/seg=0", &[8, 1, 97, 50, 1, 0], "/a/seg=0"),
    ("ndn:/a/b", &[8, 1, 97, 8, 1, 98], "/a/b"),
    ("/8=a", &[8, 1, 97], "/a"),
    ("/%61%2d%7E", &[8, 3, 97, 45, 126], "/a-~"),
    ("/a%2fb", &[8, 3, 97, 47, 98], "/a%2Fb"),
    ("/%00%ff", &[8, 2, 0, 255], "/%00%FF"),
    ("/...", &[8, 0], "/..."),
    ("/....", &[8, 1, 46], "/...."),
    ("/%2E.%2e", &[8, 0], "/..."),
    ("/..a", &[8, 3, 46, 46, 97], "/..a"),
    ("/9=...", &[9, 0], "/9=..."),
    ("/65535=x", &[253, 255, 255, 1, 120], "/65535=x"),
    ("/253=x", &[253, 0, 253, 1, 120], "/253=x"),
    ("/v=255", &[54, 1, 255], "/v=255"),
    ("/seq=256", &[58, 2, 1, 0], "/seq=256"),
    (
        "/seg=18446744073709551615",
        &[50, 8, 255, 255, 255, 255, 255, 255, 255, 255],
        "/seg=18446744073709551615",
    ),
    ("/50=%00", &[50, 1, 0], "/seg=0"),
    ("/50=%00%01", &[50, 2, 0, 1], "/50=%00%01"),
    ("/50=abc", &[50, 3, 97, 98, 99], "/50=abc"),
    ("/seg", &[8, 3, 115, 101, 103], "/seg"),
    ("/65536", &[8, 5, 54, 53, 53, 51, 54], "/65536"),
    ("/ndn", &[8, 3, 110, 100, 110], "/ndn"),
];

#[test]
fn texts_are_read_and_printed(rt: HostRuntime) {
    for (text, octets, printed) in &TEXTS {
        let name = name_of(&rt, text);
        same_octets(&rt, name.octets(), octets, text);
        is_printed(&rt, &name, printed);
    }
}

fn name_of(rt: &(impl Abort + AllocGlobal), text: &str) -> Name {
    Name::from_uri(rt.alloc(), text).expect(rt, "a name")
}

fn is_printed(rt: &(impl Abort + AllocGlobal), name: &Name, text: &str) {
    let printed = name.to_uri(rt.alloc()).expect(rt, "memory");
    same_text(rt, printed.as_str(), text);
}

// Texts that leave the form of a URI, and where.
const LEAVES: [(&str, usize); 46] = [
    ("", 0),
    ("a", 0),
    ("n", 1),
    ("nd/", 2),
    ("ndn", 3),
    ("ndn:", 4),
    ("ndn:a", 4),
    ("nDn:/a", 1),
    ("NDN:/a", 0),
    ("/a/", 3),
    ("//", 1),
    ("/a//b", 3),
    ("ndn:/a/", 7),
    ("/.", 2),
    ("/..", 3),
    ("/./a", 2),
    ("/%2e%2E", 7),
    ("/9=", 3),
    ("/9=/a", 3),
    ("/9=..", 5),
    ("/54=", 4),
    ("/seg=", 5),
    ("/seg=/", 5),
    ("/seg=01", 6),
    ("/seg=-1", 5),
    ("/seg=1a", 6),
    ("/seg=18446744073709551616", 24),
    ("/seg=184467440737095516150", 25),
    ("/0=a", 2),
    ("/00=a", 3),
    ("/08=a", 3),
    ("/65536=a", 6),
    ("/abc=a", 4),
    ("/Seg=0", 4),
    ("/%73eg=0", 6),
    ("/a=b=c", 2),
    ("/9=a=b", 4),
    ("/%", 2),
    ("/%4", 3),
    ("/%4/", 3),
    ("/%zz", 2),
    ("/a b", 2),
    ("/ndn:", 4),
    ("/\u{e9}", 1),
    ("/1=abc/", 7),
    ("/sha256digest=0g", 15),
];

#[test]
fn texts_leave_the_form(rt: HostRuntime) {
    for (text, place) in &LEAVES {
        is_refused(&rt, text, NameFault::BadUri { place: *place });
    }
}

fn is_refused(rt: &(impl Abort + AllocGlobal), text: &str, fault: NameFault) {
    let refused = Name::from_uri(rt.alloc(), text).err();
    same(rt, refused, Some(fault), text);
}

// The full name of "/a", and as it is read too.
const FULL: &str =
    "/a/sha256digest=e3b0c44298fc1c149afbf4c8996fb92427ae41e4649b934ca495991b7852b855";

const FULL_IN_CAPITALS: &str =
    "/a/sha256digest=E3B0C44298FC1C149AFBF4C8996FB92427AE41E4649B934CA495991B7852B855";

// A digest of one digit too many.
const LONG_DIGEST: &str =
    "/params-sha256=e3b0c44298fc1c149afbf4c8996fb92427ae41e4649b934ca495991b7852b8550";

#[test]
fn digests_and_long_names(rt: HostRuntime) {
    digests_are_read_and_printed(&rt);
    is_refused(&rt, LONG_DIGEST, NameFault::BadUri { place: 79 });
    is_refused(&rt, "/b/2=abc/1=x", NameFault::BadDigestLength { at: 3 });
    let long = longest(&rt);
    goes_no_further(&rt, &long, "/a", NameFault::NameTooLong);
    goes_no_further(&rt, &long, "/1=a", NameFault::BadDigestLength { at: 998 });
}

fn digests_are_read_and_printed(rt: &(impl Abort + AllocGlobal)) {
    let full = full_name(rt.alloc(), &name_of(rt, "/a"), &DIGEST).expect(rt, "memory");
    is_printed(rt, &full, FULL);
    is(rt, name_of(rt, FULL_IN_CAPITALS) == full, "in capitals");
}

// A name that can't have a further component.
fn longest(rt: &(impl Abort + AllocGlobal)) -> Name {
    let letters = vec![in rt.alloc(); b'a'; 996].expect(rt, "memory");
    let mut long = Name::new(rt.alloc());
    long.push(8, &letters).expect(rt, "a component");
    same(rt, long.octets().len(), NAME_LIMIT, "a long name");
    let pushed = long.push(8, &[]);
    same(rt, pushed, Err(NameFault::NameTooLong), "a long name");
    long
}

fn goes_no_further(rt: &(impl Abort + AllocGlobal), name: &Name, end: &str, fault: NameFault) {
    let mut text = name.to_uri(rt.alloc()).expect(rt, "memory");
    text.push_str(end).expect(rt, "memory");
    is_refused(rt, text.as_str(), fault);
}

// What is wrong first with a value at offset 100.
fn fault_of(octets: &[u8]) -> Option<NameFault>
    requires { length octets.now < 1000 }
{
    NameView::read(octets, 100).err()
}

// Octets that are no value of a name, and the fault at offset 100.
const BROKEN: [(&[u8], NameFault); 3] = [
    (
        &[8, 0, 254, 0, 1, 0, 0, 0],
        NameFault::BadComponent { at: 102 },
    ),
    (&[1, 1, 0, 8], NameFault::BadDigestLength { at: 100 }),
    (
        &[8, 0, 8, 2, 0],
        NameFault::Tlv(TlvFault::Truncated { at: 102 }),
    ),
];

#[test]
fn values_are_read(rt: HostRuntime) {
    let view = NameView::read(&[8, 1, 97, 50, 1, 0], 2).expect(&rt, "a name");
    is_read(&rt, &view);
    is_copied(&rt, &view);
    same(&rt, fault_of(&[]), None, "no octets");
    for (octets, fault) in &BROKEN {
        assert!(rt; octets.len() < 1000);
        same_of(&rt, fault_of(octets), Some(*fault), octets);
    }
}

fn is_read(rt: &impl Abort, view: &NameView<'_>) {
    assert!(rt; view.len() == 2);
    let second = view.component(1);
    same(rt, (second.typ, second.value), (50, &[0]), "the second");
}

fn is_copied(rt: &(impl Abort + AllocGlobal), view: &NameView<'_>) {
    let name = Name::from_view(rt.alloc(), view).expect(rt, "memory");
    is(rt, name.clone().expect(rt, "memory") == name, "a copy");
}

// Names in canonical order.
const ORDER: [&str; 10] = [
    "/", "/7=zz", "/a", "/a/a", "/a/b", "/b", "/aa", "/ab", "/seg=0", "/300=a",
];

#[test]
fn names_are_in_order(rt: HostRuntime) {
    for (i, text) in ORDER.iter().enumerate() {
        let name = name_of(&rt, text);
        stands_at(&rt, &name, i);
    }
}

// Sees that a name stands at this place, by each name of the order.
fn stands_at(rt: &(impl Abort + AllocGlobal), name: &Name, i: usize) {
    for (k, text) in ORDER.iter().enumerate() {
        let other = name_of(rt, text);
        compares(rt, name, &other, (i, k), text);
    }
}

// Sees that two names compare as their places do.
fn compares(rt: &impl Abort, a: &Name, b: &Name, (i, k): (usize, usize), text: &str) {
    same(rt, a.view().compare(&b.view()), i.cmp(&k), text);
    is(rt, (a < b) == (i < k), text);
    let prefix = i == k || i == 0 || (i == 2 && (k == 3 || k == 4));
    is(rt, a.view().is_prefix_of(&b.view()) == prefix, text);
}

// Texts, and how many octets the value has of the plain name whose URI each is.
const SIZES: [(&str, Option<usize>); 22] = [
    ("/", Some(0)),
    ("ndn:/", Some(0)),
    ("/a/seg=0", Some(6)),
    ("ndn:/a/b", Some(6)),
    ("/8=a", Some(3)),
    ("/%61%2d%7E", Some(5)),
    ("/...", Some(2)),
    ("/.....", Some(4)),
    ("/%2E.%2e", Some(2)),
    ("/9=...", Some(2)),
    ("/253=x", Some(5)),
    ("/65535=abc", Some(7)),
    ("/v=65535/seq=65536", Some(10)),
    ("/seg=18446744073709551615", Some(10)),
    ("", None),
    ("/a/", None),
    ("/..", None),
    ("/9=", None),
    ("/seg=01", None),
    ("/a=b", None),
    ("/a/1=x", None),
    ("/2=%00/b", None),
];

// What stands after a component of 70,000 letters, and the size of the whole.
const ENDS: [(&str, Option<usize>); 3] = [
    ("/b", Some(70_009)),
    ("/params-sha256=00", None),
    (
        "/sha256digest=e3b0c44298fc1c149afbf4c8996fb92427ae41e4649b934ca495991b7852b855",
        None,
    ),
];

#[test]
fn plain_texts_tell_their_size(rt: HostRuntime) {
    for (text, len) in &SIZES {
        same(&rt, plain_uri_len(text), *len, text);
    }
    for (end, len) in &ENDS {
        let text = long_text(&rt, end);
        same(&rt, plain_uri_len(text.as_str()), *len, end);
    }
}

fn long_text(rt: &(impl Abort + AllocGlobal), end: &str) -> String {
    let letters = vec![in rt.alloc(); b'a'; 70_000].expect(rt, "memory");
    let letters = str::from_utf8(&letters).expect(rt, "letters");
    format!(in rt.alloc(); "/{letters}{end}").expect(rt, "memory")
}

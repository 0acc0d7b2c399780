use crate::expect::{is, same};
use ndn_inspect::*;
use std::process::Abort;
use std::str;
use std::test::*;

// An Interest for a record, and one with a field of most kinds.
const INTEREST: &str = "050f070d0805616c6963650801673a0101";

const INTEREST_LINES: &str = "05 Interest 15
  07 Name 13
    08 GenericNameComponent 5 616c696365
    08 GenericNameComponent 1 67
    3a SequenceNumNameComponent 1 01
";

const FULL_INTEREST: &str =
    "0521070308016121001200 0a0401020304 0c020fa0 220120 24026869 2c031b0104 2e00 fd018200 f001ff";

const FULL_INTEREST_LINES: &str = "05 Interest 33
  07 Name 3
    08 GenericNameComponent 1 61
  21 CanBePrefix 0
  12 MustBeFresh 0
  0a Nonce 4 01020304
  0c InterestLifetime 2 0fa0
  22 HopLimit 1 20
  24 ApplicationParameters 2 6869
  2c InterestSignatureInfo 3
    1b SignatureType 1 04
  2e InterestSignatureValue 0
182 Unknown 0
f0 Unknown 1 ff
";

// A segment with the content `abc`, signed by `/alice` with the key `k1`.
const DATA: &str =
    "064d07080803646f63320100 14051a03320100 1503616263 16131b01041c0e070c0805616c69636508034b4559 \
    1720375b6af5bb89153f9e9f217bcff08bb4e94a9c19f2ab42636d6eaa822dd3fcfa";

const DATA_LINES: &str = "06 Data 77
  07 Name 8
    08 GenericNameComponent 3 646f63
    32 SegmentNameComponent 1 00
  14 MetaInfo 5
    1a FinalBlockId 3
      32 SegmentNameComponent 1 00
  15 Content 3 616263
  16 SignatureInfo 19
    1b SignatureType 1 04
    1c KeyLocator 14
      07 Name 12
        08 GenericNameComponent 5 616c696365
        08 GenericNameComponent 3 4b4559
  17 SignatureValue 32 375b6af5bb89153f9e9f217bcff08bb4e94a9c19f2ab42636d6eaa822dd3fcfa
";

// Digits of octets, the text that is printed of them, and whether they are elements to their end.
const TEXTS: [(&str, &str, bool); 10] = [
    (INTEREST, INTEREST_LINES, true),
    (FULL_INTEREST, FULL_INTEREST_LINES, true),
    (DATA, DATA_LINES, true),
    ("", "", true),
    (
        "0706080161320100",
        "07 Name 6\n  08 GenericNameComponent 1 61\n  32 SegmentNameComponent 1 00\n",
        true,
    ),
    // Values that hold elements of their own kind, and one whose element is not whole.
    (
        "0708070607040702fd00",
        "07 Name 8\n  07 Name 6\n    07 Name 4\n      07 Name 2\nfault Truncated 8\n",
        false,
    ),
    ("07fd0006", "fault NotShortest 1\n", false),
    (
        "08000000",
        "08 GenericNameComponent 0\nfault ZeroType 2\n",
        false,
    ),
    (
        "0604 0602 0601 07",
        "06 Data 4\n  06 Data 2\nfault Truncated 4\n",
        false,
    ),
    ("ff000000010000000000", "fault TypeTooLarge 0\n", false),
];

#[test]
fn texts(rt: HostRuntime) {
    for (digits, text, sound) in &TEXTS {
        let octets = octets_of(&rt, digits);
        is_inspected(&rt, &octets, text, *sound);
    }
}

fn octets_of(rt: &(impl Abort + AllocGlobal), digits: &str) -> Vec<u8> {
    let digits = digits.replace(rt.alloc(), " ", "").expect(rt, "memory");
    hex::decode(rt.alloc(), digits.as_str()).expect(rt, "digits")
}

fn is_inspected(rt: &(impl Abort + AllocGlobal), octets: &[u8], text: &str, sound: bool) {
    let (told, free) = inspect(rt.alloc(), octets).expect(rt, "memory");
    same(rt, str::from_utf8(&told), Ok(text), "lines");
    is(rt, free == sound, text);
}

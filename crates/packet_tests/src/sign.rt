ghost use Rattle.std.specs.Prelude.{◌≡◌, length};

use crate::expect::{is, same, same_octets, same_text};
use hex::encode;
use ndn_sign::*;
use std::process::Abort;
use std::test::*;

#[test]
fn digests(rt: HostRuntime) {
    is_printed(
        &rt,
        &digest(b"abc"),
        "ba7816bf8f01cfea414140de5dae2223b00361a396177a9cb410ff61f20015ad",
    );
}

fn is_printed(rt: &(impl Abort + AllocGlobal), octets: &[u8; 32], text: &str) {
    let printed = encode(rt.alloc(), octets).expect(rt, "memory");
    same_text(rt, printed.as_str(), text);
}

// The cases 1, 2, 3, 4, 6 and 7 of RFC 4231, section 4: key, message and HMAC-SHA-256.
const PUBLISHED: [(&[u8], &[u8], &str); 6] = [
    (
        &[0x0b; 20],
        b"Hi There",
        "b0344c61d8db38535ca8afceaf0bf12b881dc200c9833da726e9376c2e32cff7",
    ),
    (
        b"Jefe",
        b"what do ya want for nothing?",
        "5bdcc146bf60754e6a042426089575c75a003f089d2739839dec58b964ec3843",
    ),
    (
        &[0xaa; 20],
        &[0xdd; 50],
        "773ea91e36800e46854db8ebd09181a72959098b3ef8c122d9635514ced565fe",
    ),
    (
        &[
            1, 2, 3, 4, 5, 6, 7, 8, 9, 10, 11, 12, 13, 14, 15, 16, 17, 18, 19, 20, 21, 22, 23, 24,
            25,
        ],
        &[0xcd; 50],
        "82558a389a443c0ea4cc819899f2083a85f0faa3e578f8077a2e3ff46729665b",
    ),
    (
        &[0xaa; 131],
        b"Test Using Larger Than Block-Size Key - Hash Key First",
        "60e431591ee0b67f0d8a26aacbf5b77f8e0bc6213728c5140546040f0ee37f54",
    ),
    (
        &[0xaa; 131],
        b"This is a test using a larger than block-size key and a larger than block-size data. \
          The key needs to be hashed before being used by the HMAC algorithm.",
        "9b09ffa71b942fcb27635fbcd5b0e944bfdc63644f0713938a7f51535c3a35e2",
    ),
];

#[test]
fn macs_as_published(rt: HostRuntime) {
    for (key, message, mac) in &PUBLISHED {
        let (first, second) = message.split_at(message.len() / 2);
        is_printed(&rt, &hmac(key, first, second), mac);
    }
}

#[test]
fn a_long_key_counts_as_its_digest(rt: HostRuntime) {
    let key = [7; 65];
    let short = digest(&key);
    same(
        &rt,
        hmac(&key, b"a", b"b"),
        hmac(&short, b"a", b"b"),
        "a long key",
    );
}

#[test]
fn rings(rt: HostRuntime) {
    let mut ring = KeyRing::new(rt.alloc());
    let alice = ring.add(b"alice", b"k1").expect(&rt, "memory");
    let bob = ring.add(b"bob", b"Jefe").expect(&rt, "memory");
    same(&rt, (alice, bob), (0, 1), "numbers");
    has_both(&rt, &ring);
    checks_macs(&rt, &ring);
    let again = ring.add(b"alice", b"k3");
    same(
        &rt,
        again,
        Err(RingFault::Duplicate { number: 0 }),
        "alice again",
    );
}

fn has_both(rt: &impl Abort, ring: &KeyRing)
    requires { length ring.now ≡ 2 }
{
    same(rt, ring.find(b"bob"), Some(1), "bob");
    same(rt, ring.find(b"carol"), None, "carol");
    same_octets(rt, ring.name(1), b"bob", "a name");
    same_octets(rt, ring.key(0), b"k1", "a key");
}

fn checks_macs(rt: &impl Abort, ring: &KeyRing)
    requires { length ring.now ≡ 2 }
{
    let mac = hmac(b"Jefe", b"what do ya want ", b"for nothing?");
    is(
        rt,
        ring.check_mac(1, b"what do ya want ", b"for nothing?", &mac),
        "the mac",
    );
    is(
        rt,
        !ring.check_mac(0, b"what do ya want ", b"for nothing?", &mac),
        "another key",
    );
    let prefix = mac.get(..31).expect(rt, "a front");
    is(
        rt,
        !ring.check_mac(1, b"what do ya want ", b"for nothing?", prefix),
        "31 octets",
    );
}

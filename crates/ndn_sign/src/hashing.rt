ghost use Rattle.std.specs.Prelude.{◌≡◌, ◌≤◌, ◌-◌, ◌++◌, ℕ, List, bit_xor, length, map, replicate};
ghost use Rattle.sha2.specs.Sha256.{sha256};
ghost use Rattle.ndn_sign.specs.Hmac.{block_key, hmac, inner_pad, outer_pad, under_pad};
ghost use Rattle.ndn_sign.specs.Prepared.{IsBegun};

use sha2::{Digest, Sha256};

/// The octets in a block of SHA-256, and so in a key that is ready for use.
const BLOCK: usize = 64;

const INNER_PAD: u8 = 0x36;

const OUTER_PAD: u8 = 0x5c;

/// The SHA-256 of the octets (FIPS 180-4).
pub fn digest(octets: &[u8]) -> [u8; 32]
    ensures { result ≡ sha256 octets.now }
{
    Sha256::digest(octets)
}

/// The HMAC with SHA-256 of `first` and then `second`, taken as one message (RFC 2104).
///
/// The signed portion of an Interest lies in two places of the packet, which are not joined.
pub fn hmac(key: &[u8], first: &[u8], second: &[u8]) -> [u8; 32]
    ensures { result ≡ hmac key.now (first.now ++ second.now) }
{
    let (inner, outer) = begin(key);
    finish(inner, outer, first, second)
}

// SHA-256 that has taken in the key under the inner pad, and under the outer one: one block each.
pub(crate) fn begin(key: &[u8]) -> (Sha256, Sha256)
    ensures inner { IsBegun inner_pad key.now result.0 }
    ensures outer { IsBegun outer_pad key.now result.1 }
{
    let block = block_key(key);
    let mut inner = Sha256::new();
    inner.update(&masked(block, INNER_PAD));
    let mut outer = Sha256::new();
    outer.update(&masked(block, OUTER_PAD));
    (inner, outer)
}

// The mac of `first` and then `second` under the key that the two were begun with.
pub(crate) fn finish(mut inner: Sha256, mut outer: Sha256, first: &[u8], second: &[u8]) -> [u8; 32]
    ensures { (key : List ℕ) → IsBegun inner_pad key inner → IsBegun outer_pad key outer
        → result ≡ hmac key (first.now ++ second.now) }
{
    inner.update(first);
    inner.update(second);
    outer.update(&inner.finalize());
    outer.finalize()
}

// The key as a block: itself or, where it is longer than that, its digest, and zeros after it.
fn block_key(key: &[u8]) -> [u8; BLOCK]
    ensures { result ≡ block_key key.now }
{
    if key.len() > BLOCK {
        padded(&digest(key))
    } else {
        padded(key)
    }
}

// The key with zeros after it.
fn padded(key: &[u8]) -> [u8; BLOCK]
    requires { length key.now ≤ BLOCK }
    ensures { result ≡ key.now ++ replicate (BLOCK - length key.now) 0 }
{
    let mut block = [0; BLOCK];
    for (i, octet) in key.iter().enumerate() {
        block[i] = *octet;
    }
    block
}

// The block with each octet changed by the mask.
fn masked(mut block: [u8; BLOCK], mask: u8) -> [u8; BLOCK]
    ensures { result ≡ map (λ octet. bit_xor octet mask) block }
{
    for octet in block.iter_mut() {
        *octet ^= mask;
    }
    block
}

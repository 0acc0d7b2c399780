//! Digests and signatures of packets: SHA-256 (FIPS 180-4), HMAC with it (RFC 2104), and rings of the
//! keys that a group's packets are signed with.
//!
//! What is promised of it: `docs/promises/ndn_sign.md`.
#![tactic(auto)]

mod hashing;
mod key_ring;
mod laws;
mod prepared_key;
mod ring_fault;

pub use hashing::{digest, hmac};
pub use key_ring::KeyRing;
pub use laws::names_tell_pairs_apart;
pub use ring_fault::RingFault;

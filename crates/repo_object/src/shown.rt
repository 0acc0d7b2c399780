ghost use Rattle.std.specs.Prelude.{◌≡◌, ◌==◌};
ghost use Rattle.std.specs.Str.{bytes_eq};
ghost use Rattle.sha2.specs.Sha256.{sha256};
ghost use Rattle.repo_object.specs.Shown.{octets_shown};

use crate::packet::Packet;
use ndn_sign::digest as digest_of;
use std::alloc::{AllocError, Global};

// What is checked: octets alone, or a packet.
#[derive(Clone, Copy, Debug)]
pub(crate) enum Shown<'p> {
    Octets(&'p [u8]),
    Packet(&'p Packet),
}

impl<'p> Shown<'p> {
    pub(crate) fn octets(&self) -> &'p [u8]
        ensures { result.now ≡ octets_shown self.now }
    {
        match self {
            Shown::Octets(octets) => octets,
            Shown::Packet(packet) => packet.octets(),
        }
    }

    // The digest of the octets. A shared packet has it already.
    pub(crate) fn digest(&self) -> [u8; 32]
        ensures { result ≡ sha256 (octets_shown self.now) }
    {
        match self {
            Shown::Octets(octets) => digest_of(octets),
            Shown::Packet(packet) => packet.digest(),
        }
    }
}

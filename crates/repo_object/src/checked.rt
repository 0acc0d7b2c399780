ghost use Rattle.std.specs.Prelude.{◌≡◌, ◌<◌, length, option_map, MatchResult, IfOk, IfSome, IsOk, Err};
ghost use Rattle.sha2.specs.Sha256.{sha256};
ghost use Rattle.repo_object.specs.Shown.{octets_shown};
ghost use Rattle.repo_object.specs.Verdict.{ring_verdict, checked_part, IsChecked};

use crate::packet::Packet;
use crate::part_refusal::PartRefusal;
use crate::shown::Shown;
use crate::want::Want;
use ndn_sign::KeyRing;
use repo_plan::Part;
use std::alloc::{AllocError, Global};
use std::marker::Model;

/// A packet that passed every check for a want, under the key of the want's publisher.
///
/// Only [`check_part`] and [`check_packet`] make one.
#[derive(Debug, Drop)]
pub struct Checked<'p> {
    want: &'p Want,
    shown: Shown<'p>,
    key_name: &'p [u8],
    key: &'p [u8],
}

// No clause says whether the octets were checked alone or as those of a packet.
impl<'p> Model for Checked<'p> {
    ghost use Rattle.repo_object.specs.Shown.{octets_shown};
    ghost use Rattle.repo_object.specs.Verdict.{CheckedPart, IsChecked};

    ghost Value = { CheckedPart };

    ghost view = { λ c. record {
      want = c.want.now;
      octets = octets_shown c.shown;
      key_name = c.key_name.now;
      key = c.key.now;
    } };

    ghost invariant = { λ c. IsChecked (record {
      want = c.want.now;
      octets = octets_shown c.shown;
      key_name = c.key_name.now;
      key = c.key.now;
    }) };
}

/// The octets as a packet that passes for the want under the key that the ring has at its publisher's number, or the
/// first reason why they don't. It allocates nothing.
pub fn check_part<'p>(
    want: &'p Want,
    octets: &'p [u8],
    ring: &'p KeyRing,
) -> Result<Checked<'p>, PartRefusal>
    requires { want.now.part.publisher < length ring.now }
    ensures verdict { MatchResult result
        (λ _. IsOk (ring_verdict want.now ring.now octets.now))
        (λ refusal. ring_verdict want.now ring.now octets.now ≡ Err refusal) }
    ensures checked { IfOk result (λ checked. checked ≡ checked_part want.now ring.now octets.now) }
{
    check(want, Shown::Octets(octets), ring)
}

/// The packet as one that passes for the want, by the checks of [`check_part`], or the first reason why it doesn't. The
/// digest of a shared packet isn't computed again.
pub fn check_packet<'p>(
    want: &'p Want,
    packet: &'p Packet,
    ring: &'p KeyRing,
) -> Result<Checked<'p>, PartRefusal>
    requires { want.now.part.publisher < length ring.now }
    ensures verdict { MatchResult result
        (λ _. IsOk (ring_verdict want.now ring.now packet.now))
        (λ refusal. ring_verdict want.now ring.now packet.now ≡ Err refusal) }
    ensures checked { IfOk result (λ checked. checked ≡ checked_part want.now ring.now packet.now) }
{
    check(want, Shown::Packet(packet), ring)
}

// The octets or the packet of `shown` as a packet that passes for the want, or the first reason why they don't.
fn check<'p>(
    want: &'p Want,
    shown: Shown<'p>,
    ring: &'p KeyRing,
) -> Result<Checked<'p>, PartRefusal>
    requires { want.now.part.publisher < length ring.now }
    ensures verdict { MatchResult result
        (λ _. IsOk (ring_verdict want.now ring.now (octets_shown shown.entry)))
        (λ refusal. ring_verdict want.now ring.now (octets_shown shown.entry) ≡ Err refusal) }
    ensures checked { IfOk result
        (λ checked. checked ≡ checked_part want.now ring.now (octets_shown shown.entry)) }
{
    want.check_shown(&shown, ring)?;
    let publisher = want.part().publisher;
    Ok(Checked {
        want,
        shown,
        key_name: ring.name(publisher),
        key: ring.key(publisher),
    })
}

impl<'p> Checked<'p> {
    /// The packet's octets.
    pub fn octets(&self) -> &'p [u8]
        ensures same { result.now ≡ self.now.octets }
        ensures passed { IsChecked self.now }
    {
        self.shown.octets()
    }

    /// The packet, which is shared where it was checked as one, and else made of the octets that were checked.
    pub fn to_packet(&self, alloc: Global) -> Result<Packet, AllocError>
        ensures { IfOk result (λ packet. packet ≡ self.now.octets) }
    {
        match self.shown {
            Shown::Octets(octets) => Packet::new(alloc, octets.to_vec(alloc)?, self.want.digest()),
            Shown::Packet(packet) => packet.share(alloc),
        }
    }

    /// The packet's digest, where the want has it: the check compared it.
    pub fn digest(&self) -> Option<&'p [u8; 32]>
        ensures same { option_map (λ digest. digest.now) result ≡ self.now.want.digest }
        ensures digest { IfSome result (λ digest. digest.now ≡ sha256 self.now.octets) }
    {
        self.want.digest()
    }

    pub fn part(&self) -> Part
        ensures same { result ≡ self.now.want.part }
        ensures passed { IsChecked self.now }
    {
        self.want.part()
    }
}

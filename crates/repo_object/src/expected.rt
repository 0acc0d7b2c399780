ghost use Rattle.std.specs.Prelude.{◌≡◌, ◌-◌, ◌<◌, ◌≤◌, length, option_map, IsOk, IfOk, MatchResult, Some, Err};
ghost use Rattle.ndn_name.specs.Names.{components, encoding};
ghost use Rattle.ndn_data.specs.Data.{data_seen};
ghost use Rattle.repo_object.specs.Limits.{node_name_limit, object_name_limit};
ghost use Rattle.repo_object.specs.Objects.{record_name, segment_name};
ghost use Rattle.repo_object.specs.Wants.{wanted_part, want_record, want_segment, listed_in, IsExpected};
ghost use Rattle.repo_object.specs.Shown.{octets_shown};
ghost use Rattle.repo_object.specs.Verdict.{data_has_name, has_digest, ring_verdict};

use crate::name_parts::NameParts;
use crate::part_refusal::PartRefusal;
use crate::shown::Shown;
use crate::verdict::evaluate;
use crate::want::{Want, listed_in};
use ndn_data::DataView;
use ndn_name::{Name, NameView};
use ndn_sign::KeyRing;
use repo_plan::{Part, Shape};
use std::alloc::{AllocError, Global};
use std::marker::Model;

/// What the packet of a part must be: what a want says, in borrowed names and digests. It has no Interest, so it
/// allocates nothing.
#[derive(Drop)]
pub struct Expected<'w> {
    part: Part,
    // How many digests the packet lists, if it is an index packet.
    lists: Option<u16>,
    name: NameParts<'w>,
    digest: Option<&'w [u8; 32]>,
}

// An `Expected` is seen as the want that says the same.
impl<'w> Model for Expected<'w> {
    ghost use Rattle.std.specs.Prelude.{option_map};
    ghost use Rattle.ndn_name.specs.Names.{components};
    ghost use Rattle.repo_object.specs.NameParts.{spelled};
    ghost use Rattle.repo_object.specs.Wants.{WantedPart, wanted_part, IsExpected};

    ghost Value = { WantedPart };

    ghost view = { λ e. wanted_part e.part (components (spelled e.name)) (option_map (λ d. d.now) e.digest) e.lists };

    ghost invariant = { λ e. IsExpected (spelled e.name) (option_map (λ d. d.now) e.digest) };
}

impl<'w> Expected<'w> {
    /// What the record of publication `part.seq` of `node` in `group` must be.
    pub fn record(part: Part, node: &'w Name, group: &'w Name) -> Expected<'w>
        requires part { part.part ≡ 0 }
        requires node { length (encoding node.now) ≤ node_name_limit }
        requires group { length (encoding group.now) ≤ node_name_limit }
        ensures { result ≡ want_record part node.now group.now }
    {
        Expected {
            part,
            lists: None,
            name: NameParts {
                first: node.octets(),
                second: group.octets(),
                seq: Some(part.seq),
                segment: None,
            },
            digest: None,
        }
    }

    // What the index packet `part` with the digest `listed` must be, of a publication of `segments` segments by `node`
    // in `group`.
    pub(crate) fn of_index(
        part: Part,
        segments: u16,
        listed: &'w [u8; 32],
        node: &'w Name,
        group: &'w Name,
    ) -> Expected<'w>
        requires index { 0 < part.part }
        requires node { length (encoding node.now) ≤ node_name_limit }
        requires group { length (encoding group.now) ≤ node_name_limit }
        ensures { result ≡ wanted_part part
            (segment_name (record_name node.now group.now part.seq) (part.part - 1)) (Some listed.now)
            (Some (listed_in segments (part.part - 1))) }
    {
        let k = part.part - 1;
        Expected {
            part,
            lists: Some(listed_in(segments, k)),
            name: NameParts {
                first: node.octets(),
                second: group.octets(),
                seq: Some(part.seq),
                segment: Some(k),
            },
            digest: Some(listed),
        }
    }

    // What the segment `part` with the digest `digest` must be, of an object of this name, whose publication has this
    // shape.
    pub(crate) fn of_segment(
        part: Part,
        shape: Shape,
        name: &NameView<'w>,
        digest: &'w [u8; 32],
    ) -> Expected<'w>
        requires segment { shape.index < part.part }
        requires name { length (encoding name.now) ≤ object_name_limit }
        ensures { result ≡ want_segment part shape name.now digest.now }
    {
        Expected {
            part,
            lists: None,
            name: NameParts {
                first: name.octets(),
                second: &[],
                seq: None,
                segment: Some(part.part - shape.index - 1),
            },
            digest: Some(digest),
        }
    }

    // What a want says whose packet's name has the octets `name`.
    pub(crate) fn kept(
        part: Part,
        lists: Option<u16>,
        name: &'w [u8],
        digest: Option<&'w [u8; 32]>,
    ) -> Expected<'w>
        requires { IsExpected name.now (option_map (λ d. d.now) digest) }
        ensures { result ≡ wanted_part part (components name.now) (option_map (λ d. d.now) digest.entry) lists }
    {
        Expected {
            part,
            lists,
            name: NameParts {
                first: name,
                second: &[],
                seq: None,
                segment: None,
            },
            digest,
        }
    }

    /// The want that says the same, with its Interest.
    pub fn to_want(&self, alloc: Global) -> Result<Want, AllocError>
        ensures { IfOk result (λ want. want ≡ self.now) }
    {
        Want::written(alloc, self.part, self.lists, &self.name, self.digest)
    }

    /// The packet's digest, if it is known. It is known of every part but a record.
    pub fn digest(&self) -> Option<&'w [u8; 32]>
        ensures { option_map (λ digest. digest.now) result ≡ self.now.digest }
    {
        self.digest
    }

    /// Whether the octets are the packet that is expected, under the key that the ring has at its publisher's number,
    /// or the first reason why not. It allocates nothing.
    pub fn check(&self, octets: &[u8], ring: &KeyRing) -> Result<(), PartRefusal>
        requires { self.now.part.publisher < length ring.now }
        ensures { MatchResult result
            (λ _. IsOk (ring_verdict self.now ring.now octets.now))
            (λ refusal. ring_verdict self.now ring.now octets.now ≡ Err refusal) }
    {
        self.check_shown(&Shown::Octets(octets), ring)
    }

    // Whether the octets or the packet of `shown` are the packet that is expected, or the first reason why not.
    pub(crate) fn check_shown(&self, shown: &Shown<'_>, ring: &KeyRing) -> Result<(), PartRefusal>
        requires { self.now.part.publisher < length ring.now }
        ensures { MatchResult result
            (λ _. IsOk (ring_verdict self.now ring.now (octets_shown shown.now)))
            (λ refusal. ring_verdict self.now ring.now (octets_shown shown.now) ≡ Err refusal) }
    {
        let data = DataView::read(shown.octets())?;
        evaluate(self, ring, self.part.publisher, shown, &data)
    }

    // The part whose packet is expected.
    pub(crate) fn part(&self) -> Part
        ensures { result ≡ self.now.part }
    {
        self.part
    }

    // How many digests the packet must list, if it is an index packet.
    pub(crate) fn lists(&self) -> Option<u16>
        ensures { result ≡ self.now.lists }
    {
        self.lists
    }

    // Whether the packet has the expected name.
    pub(crate) fn has_name(&self, view: &DataView<'_>) -> bool
        ensures { result ≡ data_has_name self.now.name (data_seen view.now) }
    {
        self.name.is(view.name.octets())
    }

    // Whether the octets of `shown` have the expected digest. They pass if none is known.
    pub(crate) fn has_digest(&self, shown: &Shown<'_>) -> bool
        ensures { result ≡ has_digest self.now.digest (octets_shown shown.now) }
    {
        match self.digest {
            Some(digest) => shown.digest() == *digest,
            None => true,
        }
    }
}

ghost use Rattle.std.specs.Prelude.{◌≡◌, ◌-◌, ◌<◌, ◌≤◌, ◌++◌, length, option_map, IsOk, IfOk, OnOk, MatchResult};
ghost use Rattle.std.specs.Prelude.{IfSome, Some, Err};
ghost use Rattle.ndn_name.specs.Names.{encoding, components};
ghost use Rattle.ndn_data.specs.Data.{data_seen};
ghost use Rattle.repo_object.specs.Limits.{node_name_limit, object_name_limit};
ghost use Rattle.repo_object.specs.Objects.{record_name, segment_name};
ghost use Rattle.repo_object.specs.Publication.{Listed};
ghost use Rattle.repo_object.specs.Publication.RecordSays.{Lists};
ghost use Rattle.repo_object.specs.Stated.{owned_record, ListsIndex};
ghost use Rattle.repo_object.specs.NameParts.{spelled, IsSpelled};
ghost use Rattle.repo_object.specs.Wants.{wanted_part, want_record, want_index, want_segment, listed_in};
ghost use Rattle.repo_object.specs.Wants.{interest_prefix};
ghost use Rattle.repo_object.specs.Wants.{digest_component};
ghost use Rattle.repo_object.specs.Shown.{octets_shown};
ghost use Rattle.repo_object.specs.Verdict.{data_has_name, has_digest, ring_verdict};

use crate::expected::Expected;
use crate::name_parts::NameParts;
use crate::object::MOST_LISTED;
use crate::part_refusal::PartRefusal;
use crate::record::Record;
use crate::shown::Shown;
use ndn_name::Name;
use ndn_packet::{DIGEST_ELEMENT_LEN, element_len};
use ndn_sign::KeyRing;
use ndn_tlv::{Writer, types};
use repo_plan::{Part, Shape};
use std::alloc::{AllocError, Global};
use std::marker::Model;

/// A part that is wanted: the Interest that asks for its packet, and in that the name of the packet and, for every part
/// but a record, its digest.
#[derive(Debug, Drop)]
pub struct Want {
    part: Part,
    // How many digests the packet lists, if it is an index packet.
    lists: Option<u16>,
    interest: Vec<u8>,
    // Where the octets of the packet's name begin and end in the Interest.
    name_start: usize,
    name_end: usize,
    // Whether the packet's digest ends the Interest.
    has_digest: bool,
}

impl Model for Want {
    ghost use Rattle.ndn_name.specs.Names.{components};
    ghost use Rattle.repo_object.specs.Wants.{WantedPart, WantIsWritten, name_between, digest_after};

    ghost Value = { WantedPart };

    ghost view = { λ w. record {
      part = w.part;
      name = components (name_between w.interest.items w.name_start w.name_end);
      digest = digest_after w.interest.items w.name_end w.has_digest;
      lists = w.lists;
      interest = w.interest.items;
    } };

    ghost invariant = { λ w. WantIsWritten w.interest.items w.name_start w.name_end w.has_digest };
}

/// The want of the record of publication `part.seq` of `node` in `group`.
pub fn want_record(alloc: Global, part: Part, node: &Name, group: &Name) -> Result<Want, AllocError>
    requires part { part.part ≡ 0 }
    requires node { length (encoding node.now) ≤ node_name_limit }
    requires group { length (encoding group.now) ≤ node_name_limit }
    ensures { IfOk result (λ want. want ≡ want_record part node.now group.now) }
{
    Expected::record(part, node, group).to_want(alloc)
}

/// The want of the index packet `part`, which the record `of` lists, of a publication by `node` in `group`.
pub fn want_index(
    alloc: Global,
    part: Part,
    of: &Record,
    node: &Name,
    group: &Name,
) -> Result<Want, AllocError>
    requires listed { ListsIndex part.part of.now }
    requires node { length (encoding node.now) ≤ node_name_limit }
    requires group { length (encoding group.now) ≤ node_name_limit }
    ensures { (l : Listed) → owned_record of.now ≡ Lists l
        → IfOk result (λ want. want ≡ want_index part l node.now group.now) }
{
    let Record::Indexed {
        segments,
        digests,
        ..
    } = of
    else {
        unreachable!()
    };
    let digest = &digests[usize::from(part.part - 1)];
    Expected::of_index(part, *segments, digest, node, group).to_want(alloc)
}

/// The want of the segment `part` of an object of this name, whose publication has this shape. Its record or one of its
/// index packets lists the digest.
pub fn want_segment(
    alloc: Global,
    part: Part,
    shape: Shape,
    name: &Name,
    digest: &[u8; 32],
) -> Result<Want, AllocError>
    requires segment { shape.index < part.part }
    requires name { length (encoding name.now) ≤ object_name_limit }
    ensures { IfOk result (λ want. want ≡ want_segment part shape name.now digest.now) }
{
    Expected::of_segment(part, shape, &name.view(), digest).to_want(alloc)
}

impl Want {
    // The want of a packet of this name and, if it is known, of this digest.
    pub(crate) fn written(
        alloc: Global,
        part: Part,
        lists: Option<u16>,
        name: &NameParts<'_>,
        digest: Option<&[u8; 32]>,
    ) -> Result<Want, AllocError>
        requires name { IsSpelled (spelled name.now) }
        requires short { length (spelled name.now) ≤ 900 }
        requires digest { IfSome digest (λ d. length d.now ≡ 32) }
        ensures { IfOk result (λ want. want
            ≡ wanted_part part (components (spelled name.now)) (option_map (λ d. d.now) digest.entry) lists) }
    {
        let asked = name.len() + digest_len(digest);
        let mut writer = begun(alloc, asked)?;
        let name_start = writer.octets().len();
        name.put(&mut writer)?;
        let name_end = writer.octets().len();
        put_digest(&mut writer, digest)?;
        Ok(Want {
            part,
            lists,
            interest: writer.finish(),
            name_start,
            name_end,
            has_digest: digest.is_some(),
        })
    }

    pub fn part(&self) -> Part
        ensures { result ≡ self.now.part }
    {
        self.part
    }

    /// The octets of the Interest that asks for the part.
    pub fn interest(&self) -> &[u8]
        ensures { result.now ≡ self.now.interest }
    {
        &self.interest
    }

    /// The packet's digest, if it is known. It is known of every part but a record.
    pub fn digest(&self) -> Option<&[u8; 32]>
        ensures { option_map (λ digest. digest.now) result ≡ self.now.digest }
    {
        if !self.has_digest {
            return None;
        }
        let (_, digest) = self.interest.split_at(self.name_end + 2);
        digest.first_chunk()
    }

    // What the want says of the packet.
    fn expected(&self) -> Expected<'_>
        ensures { result ≡ self.now }
    {
        let (prefix, _) = self.interest.split_at(self.name_end);
        let (_, name) = prefix.split_at(self.name_start);
        Expected::kept(self.part, self.lists, name, self.digest())
    }

    /// Whether the octets are the packet that is wanted, under the key that the ring has at its publisher's number, or
    /// the first reason why not. It allocates nothing.
    pub fn check(&self, octets: &[u8], ring: &KeyRing) -> Result<(), PartRefusal>
        requires { self.now.part.publisher < length ring.now }
        ensures { MatchResult result
            (λ _. IsOk (ring_verdict self.now ring.now octets.now))
            (λ refusal. ring_verdict self.now ring.now octets.now ≡ Err refusal) }
    {
        self.check_shown(&Shown::Octets(octets), ring)
    }

    // Whether the octets or the packet of `shown` are the packet that is wanted, or the first reason why not.
    pub(crate) fn check_shown(&self, shown: &Shown<'_>, ring: &KeyRing) -> Result<(), PartRefusal>
        requires { self.now.part.publisher < length ring.now }
        ensures { MatchResult result
            (λ _. IsOk (ring_verdict self.now ring.now (octets_shown shown.now)))
            (λ refusal. ring_verdict self.now ring.now (octets_shown shown.now) ≡ Err refusal) }
    {
        self.expected().check_shown(shown, ring)
    }
}

// The type of the component that is a packet's digest, as an element's.
const DIGEST_COMPONENT: u32 = types::IMPLICIT_SHA256_DIGEST_COMPONENT as u32;

// The beginning of an Interest that asks for a name of `asked` octets, with capacity for the whole Interest.
fn begun(alloc: Global, asked: usize) -> Result<Writer, AllocError>
    requires { asked ≤ 1000 }
    ensures { IfOk result (λ writer. writer ≡ interest_prefix asked) }
{
    let body = element_len(types::NAME, asked);
    let mut writer = Writer::with_capacity(alloc, element_len(types::INTEREST, body))?;
    writer.put_head(types::INTEREST, body)?;
    writer.put_head(types::NAME, asked)?;
    Ok(writer)
}

// How many octets the component of `digest` has: 0 for `None`.
fn digest_len(digest: Option<&[u8; 32]>) -> usize
    requires { IfSome digest (λ d. length d.now ≡ 32) }
    ensures exact { result ≡ length (digest_component (option_map (λ d. d.now) digest.entry)) }
    ensures small { result ≤ DIGEST_ELEMENT_LEN }
{
    match digest {
        Some(_) => DIGEST_ELEMENT_LEN,
        None => 0,
    }
}

// Appends the component of `digest`, and nothing for `None`.
fn put_digest(writer: &mut Writer, digest: Option<&[u8; 32]>) -> Result<(), AllocError>
    ensures { OnOk result (writer.new
        ≡ writer.old ++ digest_component (option_map (λ d. d.now) digest.entry)) }
{
    match digest {
        Some(digest) => writer.put(DIGEST_COMPONENT, digest),
        None => Ok(()),
    }
}

// How many of an object's `segments` segments index packet `k`, counted from 0, lists.
pub(crate) fn listed_in(segments: u16, k: u16) -> u16
    ensures { result ≡ listed_in segments k }
{
    let before = u32::from(k) * MOST_LISTED as u32;
    let left = u32::from(segments).saturating_sub(before);
    left.min(MOST_LISTED as u32) as u16
}

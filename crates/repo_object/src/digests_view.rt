ghost use Rattle.std.specs.Prelude.{◌≡◌, Some, IsSome, IfOk, length, option_map, slice_get};
ghost use Rattle.repo_object.specs.Records.{index_of};
ghost use Rattle.repo_object.specs.Readers.{remaining_digests, digests_left, IsRow};
ghost use Rattle.repo_object.specs.Verdict.{index_in};

use crate::record_fields::DigestReader;
use ndn_data::DataView;
use ndn_packet::DIGEST_ELEMENT_LEN;
use std::alloc::{AllocError, Global};
use std::marker::Model;

/// The digests that a record or an index packet lists, in borrowed octets.
///
/// The digests are not copied. [`DigestsView::get`] reads a digest at its place if the octets have digests alone, and
/// else reads all digests up to it.
#[derive(Debug, Drop)]
pub struct DigestsView<'p> {
    digests: DigestReader<'p>,
    // The octets that have the digests: one after another, if they have nothing else.
    row: &'p [u8],
}

// A view is seen as the list of its digests.
impl<'p> Model for DigestsView<'p> {
    ghost use Rattle.std.specs.Prelude.{ℕ, List};
    ghost use Rattle.repo_object.specs.Readers.{digests_left, DigestsAreRead};

    ghost Value = { List (List ℕ) };

    ghost view = { λ d. digests_left d.digests };

    ghost invariant = { λ d. DigestsAreRead d.digests d.row.now };
}

impl<'p> DigestsView<'p> {
    // The digests that the reader `digests` has still to read, or `None` if they aren't all there.
    pub(crate) fn read(digests: DigestReader<'p>, row: &'p [u8]) -> Option<DigestsView<'p>>
        requires { IsSome (remaining_digests digests) → IsRow row.now digests }
        ensures { result ≡ remaining_digests digests.entry }
    {
        if !digests.copy().are_all() {
            return None;
        }
        Some(DigestsView { digests, row })
    }

    // The digests that the reader `digests` has still to read, which are known to be all there. They are not read here.
    pub(crate) fn known(digests: DigestReader<'p>, row: &'p [u8]) -> DigestsView<'p>
        requires all { IsSome (remaining_digests digests) }
        requires row { IsSome (remaining_digests digests) → IsRow row.now digests }
        ensures { remaining_digests digests.entry ≡ Some result }
    {
        DigestsView { digests, row }
    }

    // The digests that `content` lists as an index packet's, or `None` if it isn't that of one with `count` digests.
    pub(crate) fn of_index(content: &'p [u8], count: u16) -> Option<DigestsView<'p>>
        ensures { result ≡ index_of content.now count }
    {
        DigestsView::read(DigestReader::of_index(content, count), content)
    }

    /// The digests of segments that an index packet lists, which is known to list `count`.
    pub fn in_index(packet: &'p [u8], count: u16) -> DigestsView<'p>
        requires { IsSome (index_in packet.now count) }
        ensures { index_in packet.now count ≡ Some result }
    {
        let content = DataView::read(packet).unwrap().content;
        DigestsView::known(DigestReader::of_index(content, count), content)
    }

    /// How many digests there are.
    pub fn len(&self) -> usize
        ensures { result ≡ length self.now }
    {
        usize::from(self.digests.left())
    }

    /// The digest at place `i`, counted from 0, or `None` if there are no more than `i` digests.
    pub fn get(&self, i: usize) -> Option<&'p [u8; 32]>
        ensures { option_map (λ digest. digest.now) result ≡ slice_get self.now i }
    {
        let count = usize::from(self.digests.left());
        // If nothing else has room, the digests stand alone there, each after one octet of type and one of length.
        if i < count && self.row.len() == DIGEST_ELEMENT_LEN * count {
            let (_, digest) = self.row.split_at(DIGEST_ELEMENT_LEN * i + 2);
            return digest.first_chunk();
        }
        self.digests.copy().at(i)
    }

    // The digests, copied.
    pub(crate) fn to_vec(&self, alloc: Global) -> Result<Vec<[u8; 32]>, AllocError>
        ensures { IfOk result (λ read. read.items ≡ self.now) }
    {
        read_digests(alloc, self.digests.copy())
    }
}

// The digests that the reader `digests` has still to read, which are all there, copied.
fn read_digests(alloc: Global, mut digests: DigestReader<'_>) -> Result<Vec<[u8; 32]>, AllocError>
    requires { IsSome (remaining_digests digests) }
    ensures { IfOk result (λ read. read.items ≡ digests_left digests.entry) }
{
    let mut read = Vec::with_capacity(alloc, usize::from(digests.left()))?;
    while let Ok(Some(digest)) = digests.next() {
        read.push(*digest)?;
    }
    Ok(read)
}

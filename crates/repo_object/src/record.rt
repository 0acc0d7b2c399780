ghost use Rattle.std.specs.Prelude.{◌≡◌, ◌↔◌, None, Some, Err, is_some, IfOk};
ghost use Rattle.repo_object.specs.Publication.RecordSays.{Lists};
ghost use Rattle.repo_object.specs.Formats.{IsStated};
ghost use Rattle.repo_object.specs.Records.{record_of, index_of};
ghost use Rattle.repo_object.specs.Stated.{owned_record, IsOfItsKind};

use crate::digests_view::DigestsView;
use crate::listing_view::ListingView;
use crate::record_fault::RecordFault;
use crate::record_view::RecordView;
use ndn_name::Name;
use std::alloc::{AllocError, Global};
use std::marker::Model;

/// What a record says.
#[derive(Debug, Drop)]
pub enum Record {
    /// It lists an object of at most 200 segments.
    Lists(Listing),
    /// It withdraws what its publisher published under the number `seq`.
    Withdraws {
        seq: u16,
    },
    /// It lists the index packets of an object of more than 200 segments.
    Indexed {
        name: Name,
        segments: u16,
        /// The digests of the index packets, in order.
        digests: Vec<[u8; 32]>,
    },
}

/// What the record of an object of at most 200 segments lists: the object's name, and the digest of each segment's
/// packet, in order.
#[derive(Debug, Drop)]
pub struct Listing {
    pub name: Name,
    pub digests: Vec<[u8; 32]>,
}

impl Model for Listing {
    ghost use Rattle.std.specs.Prelude.{length};
    ghost use Rattle.repo_object.specs.Publication.{Listed};

    ghost Value = { Listed };

    ghost view = { λ l. record {
      name = l.name;
      segments = length l.digests.items;
      digests = l.digests.items;
    } };
}

/// Whether a packet of this content is a record, of any kind. It allocates nothing.
pub fn is_record(content: &[u8]) -> bool
    ensures { result ≡ is_some (record_of content.now) }
{
    RecordView::read(content).is_some()
}

/// What the record of this content says.
pub fn read_record(alloc: Global, content: &[u8]) -> Result<Record, RecordFault>
    ensures ok { IfOk result (λ read. record_of content.now ≡ Some (owned_record read)) }
    ensures kind { IfOk result IsOfItsKind }
    ensures within { IfOk result (λ read. IsStated (owned_record read)) }
    ensures bad { (result ≡ Err RecordFault.BadRecord) ↔ (record_of content.now ≡ None) }
{
    match RecordView::read(content) {
        Some(RecordView::Lists(listing)) => Ok(owned(alloc, &listing)?),
        Some(RecordView::Withdraws { seq }) => Ok(Record::Withdraws { seq }),
        None => Err(RecordFault::BadRecord),
    }
}

/// The digests of segments that the index packet of this content lists, if it lists exactly `count`.
pub fn read_index(alloc: Global, content: &[u8], count: u16) -> Result<Vec<[u8; 32]>, RecordFault>
    ensures ok { IfOk result (λ digests. index_of content.now count ≡ Some digests.items) }
    ensures bad { (result ≡ Err RecordFault.BadRecord) ↔ (index_of content.now count ≡ None) }
{
    match DigestsView::of_index(content, count) {
        Some(digests) => Ok(digests.to_vec(alloc)?),
        None => Err(RecordFault::BadRecord),
    }
}

// Whether `content` is that of an index packet that lists exactly `count` digests. It allocates nothing.
pub(crate) fn is_index(content: &[u8], count: u16) -> bool
    ensures { result ≡ is_some (index_of content.now count) }
{
    DigestsView::of_index(content, count).is_some()
}

// The record that lists what `listing` lists, with octets of its own.
fn owned(alloc: Global, listing: &ListingView<'_>) -> Result<Record, AllocError>
    ensures same { IfOk result (λ owned. owned_record owned ≡ Lists listing.now) }
    ensures kind { IfOk result IsOfItsKind }
    ensures within { IfOk result (λ read. IsStated (owned_record read)) }
{
    let shape = listing.shape();
    let digests = listing.digests().to_vec(alloc)?;
    let name = Name::from_short(alloc, listing.name())?;
    if shape.index == 0 {
        return Ok(Record::Lists(Listing { name, digests }));
    }
    Ok(Record::Indexed {
        name,
        segments: shape.segments,
        digests,
    })
}

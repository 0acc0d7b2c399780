ghost use Rattle.std.specs.Prelude.{◌≡◌, ◌<◌, ◌↔◌, true, None, Some, IsSome, IsTrue, IfSome};
ghost use Rattle.repo_plan.specs.Parts.{pair_of, parent};
ghost use Rattle.repo_plan.specs.Plan.{may_be_asked_for};
ghost use Rattle.repo_holdings.specs.HoldingsState.{held_plan};
ghost use Rattle.repo_holdings.specs.Listed.{listing_at};
ghost use Rattle.repo_holdings.specs.StoredParents.{index_at, digest_at, IsStoredParent, IsListedBy, HasParent};

use super::Holdings;
use repo_object::{DigestsView, ListingView, MOST_LISTED, RecordView};
use repo_plan::{Part, Shape};
use repo_store::Store;

/// A stored part that lists others, as it was read: a record, or an index packet.
#[derive(Drop)]
pub struct StoredParent<'m> {
    pub part: Part,
    /// Which parts the publication has.
    pub shape: Shape,
    /// What the record of the publication lists.
    pub listing: ListingView<'m>,
    /// What the part lists, if it is an index packet.
    pub index: Option<DigestsView<'m>>,
}

impl StoredParent<'_> {
    // Whether this stored part lists `part`.
    fn lists(&self, part: Part) -> bool
        ensures { IsTrue result ↔ (self.now.part ≡ parent self.now.shape part) }
    {
        let parent = self.shape.parent(part.part);
        self.part
            == Part {
                part: parent,
                ..part
            }
    }
}

impl Holdings {
    /// The stored part that lists a part which is asked for, or none where the part is a record itself.
    ///
    /// It is `last`, if that lists the part: so a part that lists several parts in a row is read once.
    pub fn parent_for<'m>(
        &'m self,
        part: Part,
        last: Option<StoredParent<'m>>,
    ) -> Option<StoredParent<'m>>
        requires asked { may_be_asked_for (held_plan self.now) part ≡ true }
        requires last { IfSome last (IsStoredParent self.now.store) }
        ensures stored { IfSome result (IsStoredParent self.now.store) }
        ensures listed { IfSome result (IsListedBy self.now.store part) }
        ensures none { result ≡ None → part.part ≡ 0 }
    {
        if part.part == 0 {
            return None;
        }
        match last {
            Some(last) if last.lists(part) => Some(last),
            _ => Some(parent_in(&self.stock.store, part)),
        }
    }

    // The digest of the packet of a segment, which `stored` lists.
    pub(super) fn digest_of<'a>(&self, part: Part, stored: &'a StoredParent<'_>) -> &'a [u8; 32]
        requires segment { stored.now.shape.index < part.part }
        requires listed { IsListedBy self.now.store part stored.now }
        ensures { result.now ≡ digest_at self.now.store part stored.now.listing }
    {
        let i = usize::from(part.part - stored.shape.index - 1);
        let digest = match &stored.index {
            Some(index) => index.get(i - usize::from(stored.part.part - 1) * MOST_LISTED),
            None => stored.listing.digests().get(i),
        };
        digest.unwrap()
    }
}

// The stored part that lists a part, as it is read.
fn parent_in(store: &Store, part: Part) -> StoredParent<'_>
    requires { HasParent store.now.packets part }
    ensures { IsListedBy store.now.packets part result }
{
    let record = Part { part: 0, ..part };
    let listing = listing_in(store, record);
    let shape = listing.shape();
    let parent = Part {
        part: shape.parent(part.part),
        ..part
    };
    let index = if parent.part == 0 {
        None
    } else {
        Some(index_in(store, parent, &listing))
    };
    StoredParent {
        part: parent,
        shape,
        listing,
        index,
    }
}

// The object that the stored record `part` lists.
fn listing_in(store: &Store, part: Part) -> ListingView<'_>
    requires part { part.part ≡ 0 }
    requires stored { IsSome (listing_at store.now.packets (pair_of part)) }
    ensures { listing_at store.now.packets (pair_of part) ≡ Some result }
{
    let RecordView::Lists(listing) = RecordView::in_packet(store.get(part).unwrap()) else {
        unreachable!()
    };
    listing
}

// The digests that the stored index packet `part` lists, of the object that `listing` describes.
fn index_in<'m>(store: &'m Store, part: Part, listing: &ListingView<'_>) -> DigestsView<'m>
    requires index { 0 < part.part }
    requires stored { IsSome (index_at store.now.packets (pair_of part) listing.now.segments part.part) }
    ensures { index_at store.now.packets (pair_of part) listing.now.segments part.part ≡ Some result }
{
    let count = listing.listed_in(part.part - 1);
    DigestsView::in_index(store.get(part).unwrap(), count)
}

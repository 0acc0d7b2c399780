// How a catalogue changes when parts of one publication are newly stored.
ghost use Rattle.std.specs.Prelude.{◌≡◌, ◌+◌, ◌<◌, ◌≤◌, Some, IsSomeAnd, if◌then◌else◌};
ghost use Rattle.std.specs.List.{All};
ghost use Rattle.sorted_lists.specs.SortedList.{contains, value_of};
ghost use Rattle.repo_plan.specs.Parts.{Pair, pair_cmp};
ghost use Rattle.repo_holdings.specs.Listed.{listing_at, entry_at, is_withdrawn};
ghost use Rattle.repo_holdings.specs.Contents.{IsDigestIn};
ghost use Rattle.repo_holdings.specs.Gaining.{PlanFits};
ghost use Rattle.repo_holdings.specs.Changing.{changed, change_by, lists_entry, IsNewSummary, AreNotedWith};

use crate::contents::{ContentsDigest, given_or_made};
use crate::notes::Notes;
use crate::record_summary::RecordSummary;
use repo_catalog::{Catalogue, Entry};
use repo_plan::Plan;
use repo_store::Store;

/// What changes in a catalogue.
#[derive(Drop)]
pub(crate) enum Change {
    Nothing,
    Lists(Entry),
    Removes { publisher: u32, seq: u16 },
}

impl Change {
    // The change that lists an entry; no change where there is none.
    fn listing(entry: Option<Entry>) -> Change
        ensures { result ≡ lists_entry entry }
    {
        match entry {
            Some(entry) => Change::Lists(entry),
            None => Change::Nothing,
        }
    }

    // The change that removes a withdrawn publication, if `fresh` says that it was not withdrawn before; else no
    // change.
    fn removing(fresh: bool, publisher: u32, seq: u16) -> Change
        ensures { result ≡ (if fresh then Change.Removes publisher seq else Change.Nothing) }
    {
        if fresh {
            return Change::Removes { publisher, seq };
        }
        Change::Nothing
    }

    // Makes the change, where there is capacity for an entry. It allocates nothing.
    pub(crate) fn make(self, catalogue: &mut Catalogue)
        requires { 0 < catalogue.old.spare }
        ensures entries { catalogue.new.entries ≡ changed self catalogue.old.entries }
        ensures room { catalogue.old.spare ≤ catalogue.new.spare + 1 }
    {
        match self {
            Change::Nothing => {}
            Change::Lists(entry) => {
                catalogue.add_reserved(entry);
            }
            Change::Removes { publisher, seq } => {
                catalogue.remove(publisher, seq);
            }
        }
    }
}

// Notes what the newly stored record of a publication says, if a record was stored, and gives the change of the
// catalogue. There is capacity for the note. Digests that are given in `digests` aren't computed again.
pub(crate) fn change_by_summary(
    plan: &Plan,
    store: &Store,
    notes: &mut Notes,
    publication: (u32, u16),
    summary: Option<RecordSummary>,
    digests: &[ContentsDigest],
) -> Change
    requires room { 0 < notes.old.spare }
    requires tied { PlanFits plan.now store.now.packets }
    requires said { IsNewSummary publication summary notes.old store.now.packets }
    requires digests { All (IsDigestIn store.now.packets) digests.now }
    ensures change { result
        ≡ change_by notes.old.withdrawn publication summary (entry_at store.now.packets publication) }
    ensures noted { AreNotedWith publication store.now.packets notes.old notes.new }
    ensures room { notes.old.spare ≤ notes.new.spare + 1 }
{
    match summary {
        Some(RecordSummary::Withdrawal { seq }) => {
            let publisher = publication.0;
            let fresh = notes.note_withdrawn((publisher, seq));
            return Change::removing(fresh, publisher, seq);
        }
        Some(RecordSummary::Object { name, .. }) => notes.note_name(publication, name),
        None => {}
    }
    let entry = take_entry_if_whole(plan, store, notes, publication, digests);
    Change::listing(entry)
}

// The entry of an object whose name is noted, if its record and every part after it are stored and it is not withdrawn.
// This removes the noted name of an object that is stored whole, withdrawn or not.
fn take_entry_if_whole(
    plan: &Plan,
    store: &Store,
    notes: &mut Notes,
    publication: (u32, u16),
    digests: &[ContentsDigest],
) -> Option<Entry>
    requires tied { PlanFits plan.now store.now.packets }
    requires named { IsSomeAnd (listing_at store.now.packets publication)
        (λ l. value_of pair_cmp notes.old.names publication ≡ Some l.name) }
    requires withdrawn { (q : Pair) → contains pair_cmp notes.old.withdrawn q ≡ is_withdrawn store.now.packets q }
    requires digests { All (IsDigestIn store.now.packets) digests.now }
    ensures entry { result ≡ entry_at store.now.packets publication }
    ensures noted { AreNotedWith publication store.now.packets notes.old notes.new }
    ensures room { notes.new.spare ≡ notes.old.spare }
{
    let (publisher, seq) = publication;
    if !plan.complete(publisher, seq) {
        return None;
    }
    let shape = plan.shape(publisher, seq).unwrap();
    let name = notes.take_name(publication).unwrap();
    if notes.is_withdrawn(publication) {
        return None;
    }
    let (octets, digest) = given_or_made(store, publisher, seq, shape, digests);
    Some(Entry {
        publisher,
        seq,
        name,
        segments: u32::from(shape.segments),
        octets,
        digest,
    })
}

// Many entries at once.
ghost use Rattle.std.specs.Prelude.{◌≡◌, ◌+◌, ◌≤◌, ◌++◌, [], reverse, length, vec_len, vec_capacity, take};
ghost use Rattle.sorted_lists.specs.SortedList.{Rises};
ghost use Rattle.repo_plan.specs.Parts.{pair_cmp};
ghost use Rattle.repo_catalog.specs.Entries.{with_entries, without_all, IsCatalogue};
ghost use Rattle.repo_catalog.specs.NameKeys.{IsIndexOf};
ghost use Rattle.repo_catalog.specs.EntryTotals.{totals_of};
ghost use Rattle.repo_catalog.specs.KeptEntries.{AreKept, HasRoom, TakesRoom, room_of};

use crate::entry::Entry;
use crate::entry_totals::EntryTotals;
use crate::name_index::{NameIndex, key_of};
use crate::search::place_of;

// Adds entries that are in order, and moves them out of where they stand. What stands after the least of them is set
// aside and put back, so that each entry moves at most twice. Where a publication has an entry, that one stays.
pub(crate) fn merge(
    entries: &mut Vec<Entry>,
    fresh: &mut Vec<Entry>,
    aside: &mut Vec<Entry>,
    names: &mut NameIndex,
    entry_totals: &mut EntryTotals,
)
    requires kept { AreKept entries.old.items aside.old.items names.old entry_totals.old }
    requires fresh_in_order { IsCatalogue fresh.old.items }
    requires room { HasRoom (length fresh.old.items)
        (room_of entries.old.items (vec_capacity entries.old) (vec_capacity aside.old) names.old) }
    ensures entries { entries.new.items ≡ with_entries fresh.old.items entries.old.items }
    ensures kept { AreKept entries.new.items aside.new.items names.new entry_totals.new }
    ensures moved { fresh.new.items ≡ [] }
    ensures room { TakesRoom (length fresh.old.items)
        (room_of entries.old.items (vec_capacity entries.old) (vec_capacity aside.old) names.old)
        (room_of entries.new.items (vec_capacity entries.new) (vec_capacity aside.new) names.new) }
    ensures room_fresh { vec_capacity fresh.old ≤ vec_capacity fresh.new }
{
    while let Some(entry) = fresh.pop() {
        let pair = (entry.publisher, u32::from(entry.seq));
        if let Err(place) = place_of(entries, pair) {
            set_aside(entries, place, aside);
            names.wait((entry.publisher, entry.seq));
            entry_totals.add(&entry);
            aside.push(entry).unwrap();
        }
    }
    put_back(entries, aside);
}

// Sets the entries aside that stand from a place on, the last of them first.
fn set_aside(entries: &mut Vec<Entry>, place: usize, aside: &mut Vec<Entry>)
    requires place { place ≤ length entries.old.items }
    requires room { length entries.old.items + length aside.old.items ≤ vec_capacity aside.old + place }
    ensures kept { entries.new.items ≡ take place entries.old.items }
    ensures all { entries.new.items ++ reverse aside.new.items ≡ entries.old.items ++ reverse aside.old.items }
    ensures len { vec_len entries.new + vec_len aside.new ≡ vec_len entries.old + vec_len aside.old }
    ensures room { vec_capacity entries.old ≤ vec_capacity entries.new }
    ensures room_aside { vec_capacity aside.old ≤ vec_capacity aside.new }
{
    while entries.len() > place {
        let last = entries.pop().unwrap();
        aside.push(last).unwrap();
    }
}

// Puts back what was set aside.
fn put_back(entries: &mut Vec<Entry>, aside: &mut Vec<Entry>)
    requires { length entries.old.items + length aside.old.items ≤ vec_capacity entries.old }
    ensures all { entries.new.items ≡ entries.old.items ++ reverse aside.old.items }
    ensures none_aside { aside.new.items ≡ [] }
    ensures room { vec_capacity entries.old ≤ vec_capacity entries.new }
    ensures room_aside { vec_capacity aside.old ≤ vec_capacity aside.new }
{
    while let Some(entry) = aside.pop() {
        entries.push(entry).unwrap();
    }
}

// Takes the entries of these publications, which are in order, out of the index and the sums.
pub(crate) fn forget(
    names: &mut NameIndex,
    entry_totals: &mut EntryTotals,
    entries: &[Entry],
    publications: &[(u32, u16)],
)
    requires rises { Rises pair_cmp publications.now }
    requires in_order { IsCatalogue entries.now }
    requires indexed { IsIndexOf entries.now names.old.keys names.old.waiting }
    requires summed { entry_totals.old ≡ totals_of entries.now }
    ensures indexed { IsIndexOf (without_all publications.now entries.now) names.new.keys names.new.waiting }
    ensures summed { entry_totals.new ≡ totals_of (without_all publications.now entries.now) }
    ensures room { names.old.spare ≤ names.new.spare }
{
    for &(publisher, seq) in publications {
        if let Ok(place) = place_of(entries, (publisher, u32::from(seq))) {
            let entry = &entries[place];
            names.remove(key_of(entry));
            entry_totals.subtract(entry);
        }
    }
}

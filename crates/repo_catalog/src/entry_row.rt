// The entries of a catalogue, as one slice.
ghost use Rattle.std.specs.Prelude.{◌≡◌, ◌+◌, ◌<◌, ◌≤◌, [], length, drop, OnOk, vec_capacity};
ghost use Rattle.std.specs.List.{insert, remove};
ghost use Rattle.sorted_lists.specs.SortedList.{Rises};
ghost use Rattle.repo_plan.specs.Parts.{pair_cmp};
ghost use Rattle.repo_catalog.specs.Entries.{with_entries, without_all, IsCatalogue};
ghost use Rattle.repo_catalog.specs.KeptEntries.{AreKept, HasRoom, TakesRoom, room_of};

use crate::entry::Entry;
use crate::entry_totals::EntryTotals;
use crate::merge::merge;
use crate::name_index::NameIndex;
use crate::search::is_among;
use std::alloc::{AllocError, Global};
use std::marker::Model;

// Entries, and capacity for more. Those that were removed from the start, one after the other, stay before the others,
// until they are more than these: so no other is moved where the first one goes.
#[derive(Debug, Drop)]
pub(crate) struct EntryRow {
    all: Vec<Entry>,
    gone: usize,
}

// A row is seen as the list of its entries, with the number of entries for which there is capacity.
impl Model for EntryRow {
    ghost use Rattle.repo_catalog.specs.EntryRows.{Row};

    ghost Value = { Row };

    ghost use Rattle.repo_catalog.specs.EntryRows.{row_of, IsRow};

    ghost view = { row_of };

    ghost invariant = { IsRow };
}

impl EntryRow {
    pub(crate) fn new(alloc: Global) -> EntryRow
        ensures items { result.items ≡ [] }
    {
        EntryRow {
            all: Vec::new(alloc),
            gone: 0,
        }
    }

    pub(crate) fn as_slice(&self) -> &[Entry]
        ensures { result.now ≡ self.now.items }
    {
        let (_, entries) = self.all.split_at(self.gone);
        entries
    }

    pub(crate) fn capacity(&self) -> usize
        ensures { result ≡ self.now.capacity }
    {
        self.all.capacity() - self.gone
    }

    // Reserves capacity for `n` more entries.
    pub(crate) fn reserve(&mut self, n: usize) -> Result<(), AllocError>
        ensures items { self.new.items ≡ self.old.items }
        ensures grows { self.old.capacity ≤ self.new.capacity }
        ensures room { OnOk result (length self.new.items + n ≤ self.new.capacity) }
    {
        self.all.reserve(n)
    }

    // Puts an entry in this place, where there is capacity.
    pub(crate) fn insert(&mut self, place: usize, entry: Entry)
        requires place { place ≤ length self.old.items }
        requires room { length self.old.items < self.old.capacity }
        ensures items { self.new.items ≡ insert self.old.items place entry }
        ensures len { length self.new.items ≡ length self.old.items + 1 }
        ensures capacity { self.old.capacity ≤ self.new.capacity }
    {
        self.all.insert(self.gone + place, entry).unwrap();
    }

    // Removes the entry in this place.
    pub(crate) fn remove(&mut self, place: usize)
        requires { place < length self.old.items }
        ensures items { self.new.items ≡ remove self.old.items place }
        ensures len { length self.new.items + 1 ≡ length self.old.items }
        ensures capacity { self.old.capacity ≤ self.new.capacity + 1 }
    {
        take_out(&mut self.all, &mut self.gone, place);
        if self.gone > self.all.len() / 2 {
            close(&mut self.all, &mut self.gone);
        }
    }

    // Removes the entries of these publications, which are in order, in one pass.
    pub(crate) fn remove_all(&mut self, publications: &[(u32, u16)])
        requires { Rises pair_cmp publications.now }
        ensures items { self.new.items ≡ without_all publications.now self.old.items }
        ensures len { length self.new.items ≤ length self.old.items }
        ensures capacity { self.old.capacity ≤ self.new.capacity }
    {
        close(&mut self.all, &mut self.gone);
        self.all.retain(|entry| !is_among(publications, (entry.publisher, entry.seq)));
    }

    // Adds entries that are in order, as `merge` does.
    pub(crate) fn merge(
        &mut self,
        fresh: &mut Vec<Entry>,
        aside: &mut Vec<Entry>,
        names: &mut NameIndex,
        entry_totals: &mut EntryTotals,
    )
        requires kept { AreKept self.old.items aside.old.items names.old entry_totals.old }
        requires fresh_in_order { IsCatalogue fresh.old.items }
        requires room { HasRoom (length fresh.old.items)
            (room_of self.old.items self.old.capacity (vec_capacity aside.old) names.old) }
        ensures entries { self.new.items ≡ with_entries fresh.old.items self.old.items }
        ensures kept { AreKept self.new.items aside.new.items names.new entry_totals.new }
        ensures moved { fresh.new.items ≡ [] }
        ensures room { TakesRoom (length fresh.old.items)
            (room_of self.old.items self.old.capacity (vec_capacity aside.old) names.old)
            (room_of self.new.items self.new.capacity (vec_capacity aside.new) names.new) }
        ensures room_fresh { vec_capacity fresh.old ≤ vec_capacity fresh.new }
    {
        close(&mut self.all, &mut self.gone);
        merge(&mut self.all, fresh, aside, names, entry_totals);
    }
}

// Removes the entry in this place after those that are gone.
fn take_out(all: &mut Vec<Entry>, gone: &mut usize, place: usize)
    requires gone { gone.old ≤ length all.old.items }
    requires place { place < length (drop gone.old all.old.items) }
    ensures items { drop gone.new all.new.items ≡ remove (drop gone.old all.old.items) place }
    ensures gone { gone.new ≤ length all.new.items }
    ensures len { length all.new.items + gone.old + 1 ≡ length all.old.items + gone.new }
    ensures capacity { vec_capacity all.new ≡ vec_capacity all.old }
    ensures more { gone.new ≤ gone.old + 1 }
{
    if place == 0 {
        *gone += 1;
        return;
    }
    all.remove(*gone + place);
}

// Drops the first `gone` entries, which were removed before.
fn close(all: &mut Vec<Entry>, gone: &mut usize)
    requires { gone.old ≤ length all.old.items }
    ensures items { all.new.items ≡ drop gone.old all.old.items }
    ensures gone { gone.new ≡ 0 }
    ensures capacity { vec_capacity all.old ≡ vec_capacity all.new }
{
    all.rotate_left(*gone);
    all.truncate(all.len() - *gone);
    *gone = 0;
}

ghost use Rattle.std.specs.Prelude.{◌≡◌, ◌-◌, ◌<◌, ◌≤◌, ◌^◌, ◌↔◌, [], not, max, length, reverse, option_map};
ghost use Rattle.std.specs.Prelude.{Some, true, IfOk, OnOk, OnErr, IsTrue, vec_capacity};
ghost use Rattle.std.specs.List.{sum_by};
ghost use Rattle.std.specs.List.Sorted.{IsSearchInRange, IsBinarySearchResult};
ghost use Rattle.std.specs.Option.{option_copied};
ghost use Rattle.sorted_lists.specs.SortedList.{Rises};
ghost use Rattle.repo_plan.specs.Parts.{pair_cmp};
ghost use Rattle.repo_catalog.specs.Entries.{publication_of, beside, entry_of, lists, first_named, all_named};
ghost use Rattle.repo_catalog.specs.Entries.{with_entry, with_entries, without, without_all};
ghost use Rattle.repo_catalog.specs.Entries.{IsCatalogue, AreApart};

use crate::by_name::{all_named, first_named};
use crate::entry::Entry;
use crate::entry_row::EntryRow;
use crate::entry_totals::EntryTotals;
use crate::merge::forget;
use crate::name_index::{NameIndex, key_of};
use crate::search::place_of;
use ndn_name::NameView;
use std::alloc::{AllocError, Global};
use std::marker::Model;

// So many entries are added or removed one by one. Each moves what stands after it, which takes less than to take those
// apart or to test each, and to remove the first entry moves nothing.
const FEW: usize = 4;

/// The objects that a member lists, in order of publisher and number, at most one for each pair of them, and room for
/// more.
#[derive(Debug)]
pub struct Catalogue {
    entries: EntryRow,
    // Empty. Entries are set aside here while others take their places.
    aside: Vec<Entry>,
    names: NameIndex,
    entry_totals: EntryTotals,
    spare: usize,
}

// A catalogue is dropped by one call, which is proved once, and not field by field wherever one is left.
impl Drop for Catalogue {
    fn drop(self) {
        let Catalogue {
            entries: _,
            aside: _,
            names: _,
            entry_totals: _,
            spare: _,
        } = self;
    }
}

// A catalogue is seen as the list of its entries, with the number of entries for which there is capacity.
impl Model for Catalogue {
    ghost use Rattle.repo_catalog.specs.Entries.{EntryList};

    ghost Value = { EntryList };

    ghost use Rattle.repo_catalog.specs.EntryFields.{AreEntries};

    ghost view = { λ c. record { entries = c.entries.items; spare = c.spare } };

    ghost invariant = { AreEntries };
}

impl Catalogue {
    /// A catalogue without entries.
    pub fn new(alloc: Global) -> Catalogue
        ensures { result ≡ record { entries = []; spare = 0 } }
    {
        Catalogue {
            entries: EntryRow::new(alloc),
            aside: Vec::new(alloc),
            names: NameIndex::new(alloc),
            entry_totals: EntryTotals::new(),
            spare: 0,
        }
    }

    /// Adds an entry, unless there is one of its publisher and number: then the answer is `false`. What is spare stays
    /// so.
    pub fn add(&mut self, entry: Entry) -> Result<bool, AllocError>
        ensures added { IfOk result (λ added. added ≡ not (lists (publication_of entry) self.old.entries)) }
        ensures ok { OnOk result (self.new ≡ record self.old { entries = with_entry entry self.old.entries }) }
        ensures err { OnErr result (self.new ≡ self.old) }
    {
        let Some(room) = self.spare.checked_add(1) else {
            return Err(AllocError);
        };
        self.reserve(room)?;
        Ok(self.add_reserved(entry))
    }

    /// Reserves capacity for `n` entries, unless there is as much already, and from the first removal on for finding
    /// all by their names, so that a removal needs no walk over those that were added before.
    pub fn reserve(&mut self, n: usize) -> Result<(), AllocError>
        ensures ok { OnOk result (self.new ≡ record self.old { spare = max self.old.spare n }) }
        ensures err { OnErr result (self.new ≡ self.old) }
    {
        self.names.reserve(n)?;
        if self.spare < n {
            self.entries.reserve(n)?;
            self.aside.reserve(self.entries.capacity())?;
            self.spare = n;
        }
        Ok(())
    }

    /// Puts the names of all entries into the index by which `first_named` and `named` find them, and reserves capacity
    /// for those of the entries that may come, so that looking up a name reads no entry of another. It changes only
    /// what a look-up costs.
    pub fn index_names(&mut self) -> Result<(), AllocError>
        ensures { self.new ≡ self.old }
    {
        self.names.reserve_keys()?;
        self.order_names();
        Ok(())
    }

    /// Adds an entry as `add` does, within the capacity reserved for one, which is used up even where the answer is
    /// `false`. It allocates nothing.
    pub fn add_reserved(&mut self, entry: Entry) -> bool
        requires { 0 < self.old.spare }
        ensures added { result ≡ not (lists (publication_of entry) self.old.entries) }
        ensures entries { self.new.entries ≡ with_entry entry self.old.entries }
        ensures spare { self.new.spare ≡ self.old.spare - 1 }
    {
        self.spare -= 1;
        let Err(place) = self.place(entry.publisher, entry.seq) else {
            return false;
        };
        self.names.wait((entry.publisher, entry.seq));
        self.entry_totals.add(&entry);
        self.entries.insert(place, entry);
        true
    }

    /// Adds many entries as `add_reserved` does, in any order, with the capacity reserved for them. They are moved out
    /// of `fresh`, which keeps its capacity. It allocates nothing. Where they are few, each moves what stands after it;
    /// else it goes over them and over what stands after the least of them once.
    pub fn add_all_reserved(&mut self, fresh: &mut Vec<Entry>)
        requires room { length fresh.old.items ≤ self.old.spare }
        requires apart { AreApart fresh.old.items }
        ensures entries { self.new.entries ≡ with_entries fresh.old.items self.old.entries }
        ensures spare { self.new.spare ≡ self.old.spare - length fresh.old.items }
        ensures moved { fresh.new.items ≡ [] }
        ensures capacity { vec_capacity fresh.old ≤ vec_capacity fresh.new }
    {
        self.is_in_order();
        if fresh.len() <= FEW {
            self.add_each(fresh);
            return;
        }
        fresh.sort_unstable_by_key(|entry| (entry.publisher, entry.seq));
        self.spare -= fresh.len();
        self.entries.merge(
            fresh,
            &mut self.aside,
            &mut self.names,
            &mut self.entry_totals,
        );
    }

    // The same, one by one.
    fn add_each(&mut self, fresh: &mut Vec<Entry>)
        requires { length fresh.old.items ≤ self.old.spare }
        ensures entries { self.new.entries ≡ with_entries (reverse fresh.old.items) self.old.entries }
        ensures spare { self.new.spare ≡ self.old.spare - length fresh.old.items }
        ensures moved { fresh.new.items ≡ [] }
        ensures capacity { vec_capacity fresh.old ≤ vec_capacity fresh.new }
    {
        while let Some(entry) = fresh.pop() {
            self.add_reserved(entry);
        }
    }

    /// Removes the entry of a publisher and number, and returns whether there was one.
    pub fn remove(&mut self, publisher: u32, seq: u16) -> bool
        ensures removed { result ≡ lists (publisher, seq) self.old.entries }
        ensures left { self.new ≡ record self.old { entries = without (publisher, seq) self.old.entries } }
    {
        self.order_names();
        self.remove_one(publisher, seq)
    }

    // The same, whatever names wait.
    fn remove_one(&mut self, publisher: u32, seq: u16) -> bool
        ensures removed { result ≡ lists (publisher, seq) self.old.entries }
        ensures left { self.new ≡ record self.old { entries = without (publisher, seq) self.old.entries } }
    {
        let Ok(place) = self.place(publisher, seq) else {
            return false;
        };
        let entry = &self.entries.as_slice()[place];
        self.names.remove(key_of(entry));
        self.entry_totals.subtract(entry);
        self.entries.remove(place);
        true
    }

    /// Removes the entries of many publications, which are in order, in one pass. Where they are few, only what stands
    /// after each is moved, and nothing else is read; after the first entry nothing moves. It allocates nothing. The
    /// names of entries that were added since the last removal are hashed, where capacity was reserved since the first.
    pub fn remove_all(&mut self, publications: &[(u32, u16)])
        requires { Rises pair_cmp publications.now }
        ensures { self.new ≡ record self.old { entries = without_all publications.now self.old.entries } }
    {
        self.order_names();
        if publications.len() <= FEW {
            self.remove_each(publications);
        } else {
            self.remove_in_one_pass(publications);
        }
    }

    // The same, one by one.
    fn remove_each(&mut self, publications: &[(u32, u16)])
        ensures { self.new ≡ record self.old { entries = without_all publications.now self.old.entries } }
    {
        for &(publisher, seq) in publications {
            self.remove_one(publisher, seq);
        }
    }

    // The same, in one pass over all entries.
    fn remove_in_one_pass(&mut self, publications: &[(u32, u16)])
        requires { Rises pair_cmp publications.now }
        ensures { self.new ≡ record self.old { entries = without_all publications.now self.old.entries } }
    {
        forget(
            &mut self.names,
            &mut self.entry_totals,
            self.entries.as_slice(),
            publications,
        );
        self.entries.remove_all(publications);
    }

    /// The entries in order.
    //
    // A caller sees the value alone, so `ordered` states what the invariant says of it.
    pub fn entries(&self) -> &[Entry]
        ensures entries { result.now ≡ self.now.entries }
        ensures ordered { IsCatalogue self.now.entries }
    {
        self.entries.as_slice()
    }

    /// The entry of a publisher and number.
    pub fn entry(&self, publisher: u32, seq: u16) -> Option<&Entry>
        ensures { option_copied result ≡ entry_of (publisher, seq) self.now.entries }
    {
        let Ok(place) = self.place(publisher, seq) else {
            return None;
        };
        Some(&self.entries.as_slice()[place])
    }

    /// The least publisher and number whose object has this name.
    pub fn first_named(&self, name: &NameView<'_>) -> Option<(u32, u16)>
        ensures { result ≡ option_map publication_of (first_named name.now self.now.entries) }
    {
        first_named(&self.names, self.entries.as_slice(), name)
    }

    /// The publishers and numbers whose objects have this name, in order. The entries whose names aren't in the index
    /// are read once.
    pub fn named(&self, alloc: Global, name: &NameView<'_>) -> Result<Vec<(u32, u16)>, AllocError>
        ensures { IfOk result (λ pairs. pairs.items ≡ all_named name.now self.now.entries) }
    {
        all_named(alloc, &self.names, self.entries.as_slice(), name)
    }

    // The entries are in order. Costs nothing, and is called for its clause.
    fn is_in_order(&self)
        ensures { IsCatalogue self.now.entries }
    {
        let _ = &self.entries;
    }

    // Puts the names of all entries into the index, where there is capacity for them.
    fn order_names(&mut self)
        ensures { self.new ≡ self.old }
    {
        self.names.order(self.entries.as_slice());
    }

    /// How many entries there are, and how many segments and octets their objects have together. The sums are kept as
    /// entries come and go, so that no entry is read.
    pub fn totals(&self) -> (u32, u64, u64)
        requires few { length self.now.entries < 2 ^ 32 }
        requires segments { sum_by (λ e. e.segments) self.now.entries < 2 ^ 64 }
        requires octets { sum_by (λ e. e.octets) self.now.entries < 2 ^ 64 }
        ensures entries { result.0 ≡ length self.now.entries }
        ensures segments { result.1 ≡ sum_by (λ e. e.segments) self.now.entries }
        ensures octets { result.2 ≡ sum_by (λ e. e.octets) self.now.entries }
    {
        (
            self.entries.as_slice().len() as u32,
            self.entry_totals.segments,
            self.entry_totals.octets,
        )
    }

    /// Whether both list the same entries.
    pub fn same(&self, other: &Catalogue) -> bool
        ensures { IsTrue result ↔ (self.now.entries ≡ other.now.entries) }
    {
        self.entries.as_slice() == other.entries.as_slice()
    }

    // Where the entry of a publisher and number stands, or else would stand.
    fn place(&self, publisher: u32, seq: u16) -> Result<usize, usize>
        ensures ordered { IsCatalogue self.now.entries }
        ensures bound { IsSearchInRange result (length self.now.entries) }
        ensures position { IsBinarySearchResult (beside (publisher, seq)) self.now.entries result }
    {
        place_of(self.entries.as_slice(), (publisher, u32::from(seq)))
    }
}

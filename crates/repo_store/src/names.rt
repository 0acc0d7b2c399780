ghost use Rattle.std.specs.Prelude.{◌≡◌, ◌+◌, ◌≤◌, ℕ, [], ◌++◌, length, OnOk, vec_len, vec_capacity};
ghost use Rattle.std.specs.List.{filter};
ghost use Rattle.sorted_lists.specs.Members.{HaveSame};
ghost use Rattle.repo_store.specs.Slots.{held_outside, HasFew};
ghost use Rattle.repo_store.specs.Indexes.{name_matches, AreInOrder, IsFirstOf, GainsOne, outside_part};
ghost use Rattle.repo_store.specs.NameLayers.{all_of, LayersAreInOrder, HasRoom, HasSame};
ghost use Rattle.repo_store.specs.NameLayers.{is_stored, is_stored_and_matches, IsIndexOf, WaitsStill, AreAmong};
ghost use Rattle.repo_store.specs.NameLayers.{taken_out, left_unless};

use crate::index::{Index, insert, name_matches, retain, take_out};
use crate::packet_table::{FEW, PacketTable, Stored, lesser};
use crate::settled::Settled;
use repo_plan::Part;
use std::alloc::{AllocError, Global};

// The index of a store by name. An entry that is put is added to `waiting`, and its name isn't read. `order` inserts
// the waiting entries into `recent`, and merges `recent` into `settled` when it is long. So few entries are moved for
// each that is put, in whatever order they are put. A dropped entry may stay in `waiting`, and is passed over: so to
// drop one part takes no walk over all waiting entries.
#[derive(Drop)]
pub(crate) struct Names {
    settled: Settled,
    recent: Vec<Stored>,
    waiting: Vec<Stored>,
    // How many parts were dropped since dropped entries were last removed from `waiting`.
    dropped: usize,
}

impl Names {
    pub(crate) fn new(alloc: Global) -> Names
        ensures settled { result.settled.items ≡ [] }
        ensures recent { result.recent.items ≡ [] }
        ensures waiting { result.waiting.items ≡ [] }
        ensures room { HasRoom result 0 }
    {
        Names {
            settled: Settled::new(alloc),
            recent: Vec::new(alloc),
            waiting: Vec::new(alloc),
            dropped: 0,
        }
    }

    pub(crate) fn allocator(&self) -> Global {
        *self.recent.allocator()
    }

    // Reserves capacity for `n` more entries.
    pub(crate) fn reserve(&mut self, n: usize) -> Result<(), AllocError>
        ensures same { HasSame self.old self.new }
        ensures kept { (m : ℕ) → HasRoom self.old m → HasRoom self.new m }
        ensures room { OnOk result (HasRoom self.new n) }
    {
        self.waiting.reserve(n)?;
        let Some(waiting) = self.waiting.len().checked_add(n) else {
            return Err(AllocError);
        };
        self.recent.reserve(waiting)?;
        let Some(recent) = self.recent.len().checked_add(waiting) else {
            return Err(AllocError);
        };
        self.settled.reserve(recent)
    }

    // Adds an entry to `waiting`. There is capacity for one more.
    pub(crate) fn put(&mut self, held: Stored)
        requires { HasRoom self.old 1 }
        ensures settled { self.new.settled.items ≡ self.old.settled.items }
        ensures recent { self.new.recent.items ≡ self.old.recent.items }
        ensures gains { GainsOne held (all_of self.old) (all_of self.new) }
        ensures room { (n : ℕ) → HasRoom self.old (n + 1) → HasRoom self.new n }
    {
        self.waiting.push(held).unwrap();
    }

    // The held entry with the least part of those whose packet's name is `asked` or, with `can_be_prefix`, begins with
    // it. All waiting entries are read.
    pub(crate) fn first(
        &self,
        kept: &PacketTable,
        asked: &[u8],
        can_be_prefix: bool,
    ) -> Option<Stored>
        requires { IsIndexOf kept.now.slots kept.now.held self.now }
        ensures { IsFirstOf kept.now.held (name_matches kept.now.slots asked.now can_be_prefix) result }
    {
        let recent = Index {
            held: &self.recent,
            kept,
        };
        let waiting = first_of(&self.waiting, kept, asked, can_be_prefix);
        let ordered = lesser(recent.first(&[], asked, can_be_prefix), waiting);
        lesser(self.settled.first(kept, asked, can_be_prefix), ordered)
    }

    // Puts the waiting entries that are still held in order. There is capacity for that.
    pub(crate) fn order(&mut self, kept: &PacketTable)
        requires index { IsIndexOf kept.now.slots kept.now.held self.old }
        requires room { HasRoom self.old 0 }
        ensures index { IsIndexOf kept.now.slots kept.now.held self.new }
        ensures room { (n : ℕ) → HasRoom self.old n → HasRoom self.new n }
    {
        self.forget_dropped(kept);
        self.place_waiting(kept);
    }

    // Removes from `waiting` the entries that are held no more.
    fn forget_dropped(&mut self, kept: &PacketTable)
        ensures settled { self.new.settled.items ≡ self.old.settled.items }
        ensures recent { self.new.recent.items ≡ self.old.recent.items }
        ensures waiting { self.new.waiting.items ≡ filter (is_stored kept.now.held) self.old.waiting.items }
        ensures room { (n : ℕ) → HasRoom self.old n → HasRoom self.new n }
    {
        self.waiting.retain(|held| is_stored(kept, held));
        self.dropped = 0;
    }

    // Puts all waiting entries in order. There is capacity for that.
    fn place_waiting(&mut self, kept: &PacketTable)
        requires in_order { LayersAreInOrder kept.now.slots self.old }
        requires room { HasRoom self.old 0 }
        ensures in_order { LayersAreInOrder kept.now.slots self.new }
        ensures same { HaveSame (all_of self.new) (all_of self.old) }
        ensures room { (n : ℕ) → HasRoom self.old n → HasRoom self.new n }
    {
        let index = Index { held: &[], kept };
        self.waiting
            .sort_unstable_by(|held, other| index.cmp_held(held, other));
        insert_all(&mut self.recent, kept, &self.waiting);
        self.waiting.clear();
        if self.has_many_recent() {
            self.settled.settle(&self.recent, kept);
            self.recent.clear();
        }
    }

    // Whether there are more recent entries than the square root of the number of settled ones. An insertion moves
    // recent entries, and a merge moves settled ones.
    fn has_many_recent(&self) -> bool {
        self.recent.len().saturating_mul(self.recent.len()) > self.settled.len()
    }

    // Whether any entry is settled or recent. Before the first call of `order` none is.
    fn has_ordered(&self) -> bool {
        self.settled.len() > 0 || self.recent.len() > 0
    }

    // Takes the entries of the publications `pairs` out of `settled` and `recent`, if that is one publication of few
    // parts: each is searched by its name, since its packet is still kept. Otherwise nothing is done. The answer is
    // whether they were taken out.
    pub(crate) fn take_out(&mut self, kept: &PacketTable, pairs: &[(u32, u16)]) -> bool
        requires { AreAmong kept.now.slots kept.now.held self.old }
        ensures settled { self.new.settled.items ≡ taken_out result pairs.now self.old.settled.items }
        ensures recent { self.new.recent.items ≡ taken_out result pairs.now self.old.recent.items }
        ensures waiting { self.new.waiting.items ≡ self.old.waiting.items }
        ensures room { (n : ℕ) → HasRoom self.old n → HasRoom self.new n }
    {
        match pairs {
            [pair] if self.has_ordered() && kept.has_few(*pair) => {
                self.take_pair(kept, *pair);
                true
            }
            _ => false,
        }
    }

    // Takes the entries of a publication of few parts out of `settled` and `recent`.
    fn take_pair(&mut self, kept: &PacketTable, pair: (u32, u16))
        requires among { AreAmong kept.now.slots kept.now.held self.old }
        requires few { HasFew pair kept.now.held }
        ensures settled { self.new.settled.items ≡ held_outside pair self.old.settled.items }
        ensures recent { self.new.recent.items ≡ held_outside pair self.old.recent.items }
        ensures waiting { self.new.waiting.items ≡ self.old.waiting.items }
        ensures room { (n : ℕ) → HasRoom self.old n → HasRoom self.new n }
    {
        for number in 0..FEW {
            let part = Part {
                publisher: pair.0,
                seq: pair.1,
                part: number,
            };
            self.take_part(kept, part);
        }
    }

    // Takes the entry of a part out of `settled` and `recent`.
    fn take_part(&mut self, kept: &PacketTable, part: Part)
        requires { AreAmong kept.now.slots kept.now.held self.old }
        ensures settled { self.new.settled.items ≡ outside_part part self.old.settled.items }
        ensures recent { self.new.recent.items ≡ outside_part part self.old.recent.items }
        ensures waiting { self.new.waiting.items ≡ self.old.waiting.items }
        ensures room { (n : ℕ) → HasRoom self.old n → HasRoom self.new n }
    {
        if let Some(slot) = kept.slot_of(part) {
            self.settled.take_out(kept, (part, slot));
            take_out(&mut self.recent, kept, (part, slot));
        }
    }

    // Drops the entries of the publications `pairs`, of which `parts` parts are held no more. `taken` says that
    // `take_out` took them out of `settled` and `recent` already. Waiting entries stay until more parts were dropped
    // than half of their number.
    pub(crate) fn drop_all(
        &mut self,
        kept: &PacketTable,
        pairs: &[(u32, u16)],
        parts: usize,
        taken: bool,
    )
        ensures settled { self.new.settled.items ≡ left_unless taken pairs.now kept.now.held self.old.settled.items }
        ensures recent { self.new.recent.items ≡ left_unless taken pairs.now kept.now.held self.old.recent.items }
        ensures waiting { WaitsStill kept.now.held self.old.waiting.items self.new.waiting.items }
        ensures room { (n : ℕ) → HasRoom self.old n → HasRoom self.new n }
    {
        self.drop_ordered(kept, pairs, taken);
        self.dropped = self.dropped.saturating_add(parts);
        if self.dropped > self.waiting.len() / 2 {
            self.forget_dropped(kept);
        }
    }

    // Drops the entries of the publications `pairs` from `settled` and `recent`, unless they were taken out before.
    fn drop_ordered(&mut self, kept: &PacketTable, pairs: &[(u32, u16)], taken: bool)
        ensures settled { self.new.settled.items ≡ left_unless taken pairs.now kept.now.held self.old.settled.items }
        ensures recent { self.new.recent.items ≡ left_unless taken pairs.now kept.now.held self.old.recent.items }
        ensures waiting { self.new.waiting.items ≡ self.old.waiting.items }
        ensures room { (n : ℕ) → HasRoom self.old n → HasRoom self.new n }
    {
        if !taken {
            self.settled.retain(kept, pairs);
            retain(&mut self.recent, kept, pairs);
        }
    }
}

// The entry of `held` with the least part of those that `kept` has and whose packet's name is `asked` or, with
// `can_be_prefix`, begins with it. All entries are read.
fn first_of(
    held: &[Stored],
    kept: &PacketTable,
    asked: &[u8],
    can_be_prefix: bool,
) -> Option<Stored>
    ensures { IsFirstOf held.now (is_stored_and_matches kept.now asked.now can_be_prefix) result }
{
    let mut least = None;
    for next in held {
        if is_stored_and_matches(kept, asked, can_be_prefix, next) {
            least = lesser(least, Some(*next));
        }
    }
    least
}

// Whether `kept` has the entry, and the name of its packet is `asked` or, with `can_be_prefix`, begins with it.
fn is_stored_and_matches(
    kept: &PacketTable,
    asked: &[u8],
    can_be_prefix: bool,
    held: &Stored,
) -> bool
    ensures { result ≡ is_stored_and_matches kept.now asked.now can_be_prefix held.now }
{
    name_matches(kept, asked, can_be_prefix, held) && is_stored(kept, held)
}

// Whether `kept` has the entry: its part, in the same slot.
fn is_stored(kept: &PacketTable, held: &Stored) -> bool
    ensures { result ≡ is_stored kept.now.held held.now }
{
    match kept.slot_of(held.0) {
        Some(slot) => slot == held.1,
        None => false,
    }
}

// Inserts the entries `held` into `index`, which is in order and has capacity for them. If they are in order too,
// little is moved.
fn insert_all(index: &mut Vec<Stored>, kept: &PacketTable, held: &[Stored])
    requires in_order { AreInOrder kept.now.slots index.old.items }
    requires room { vec_len index.old + length held.now ≤ vec_capacity index.old }
    ensures in_order { AreInOrder kept.now.slots index.new.items }
    ensures same { HaveSame index.new.items (index.old.items ++ held.now) }
    ensures len { vec_len index.new ≡ vec_len index.old + length held.now }
    ensures capacity { vec_capacity index.old ≤ vec_capacity index.new }
{
    for next in held {
        insert(index, kept, *next);
    }
}

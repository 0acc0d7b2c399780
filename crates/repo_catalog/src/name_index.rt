// By what their objects are called, which publications a catalogue lists.
ghost use Rattle.std.specs.Prelude.{◌≡◌, ◌+◌, ◌<◌, ◌≤◌, ◌++◌, ◌∷◌, ◌&&◌, [], true, not, length, vec_capacity};
ghost use Rattle.std.specs.Prelude.{OnOk, MatchOption};
ghost use Rattle.std.specs.Ordering.{eq_by_cmp};
ghost use Rattle.std.specs.declared.cmp.Ordering.TheVariants.{Less};
ghost use Rattle.sorted_lists.specs.SortedList.{keys, contains};
ghost use Rattle.repo_catalog.specs.Entries.{IsCatalogue};
ghost use Rattle.repo_catalog.specs.NameKeys.{Key, key_cmp, key_of, hash_of, IsIndexOf, AreKeysOf, IsFirstFrom};

use crate::entry::Entry;
use crate::search::place_of;
use ndn_name::NameView;
use sha2::{Digest, Sha256};
use sorted_lists::SortedMap;
use std::alloc::{AllocError, Global};
use std::marker::Model;

// The hash of an object's name, then the publication. A number has 32 bits here, so that there is always one after it.
pub(crate) type Key = (u64, (u32, u32));

// Keys in order, and publications that wait for theirs. What is added waits. No name is hashed and there is no room for
// keys until an entry is removed, since names serve deletion alone. There is capacity for more to wait.
#[derive(Debug, Drop)]
pub(crate) struct NameIndex {
    map: SortedMap<Key, ()>,
    waiting: Vec<(u32, u16)>,
    // How many more can wait without another allocation.
    spare: usize,
    // How many more keys there is capacity for.
    room: usize,
    // An entry was removed, so that room is made for the keys of all that wait.
    orders: bool,
}

// An index is seen as the lists of its keys and of the publications that wait, beside the number of each that there is
// room for.
impl Model for NameIndex {
    ghost use Rattle.repo_catalog.specs.NameKeys.{KeyList};

    ghost Value = { KeyList };

    ghost use Rattle.repo_catalog.specs.IndexFields.{index_of, IsIndex};

    ghost view = { index_of };

    ghost invariant = { IsIndex };
}

impl NameIndex {
    pub(crate) fn new(alloc: Global) -> NameIndex
        ensures keys { result.keys ≡ [] }
        ensures waiting { result.waiting ≡ [] }
    {
        NameIndex {
            map: SortedMap::new(alloc),
            waiting: Vec::new(alloc),
            spare: 0,
            room: 0,
            orders: false,
        }
    }

    // Reserves capacity for `n` more publications to wait, and for the keys of all if an entry was removed.
    pub(crate) fn reserve(&mut self, n: usize) -> Result<(), AllocError>
        ensures keys { self.new.keys ≡ self.old.keys }
        ensures waiting { self.new.waiting ≡ self.old.waiting }
        ensures grows { self.old.spare ≤ self.new.spare }
        ensures room { OnOk result (n ≤ self.new.spare) }
    {
        if self.spare < n {
            self.waiting.reserve(n)?;
            self.spare = n;
        }
        if self.orders {
            self.reserve_keys()?;
        }
        Ok(())
    }

    // Reserves capacity for the keys of all that wait, and of as many more as may wait.
    pub(crate) fn reserve_keys(&mut self) -> Result<(), AllocError>
        ensures keys { self.new.keys ≡ self.old.keys }
        ensures waiting { self.new.waiting ≡ self.old.waiting }
        ensures spare { self.new.spare ≡ self.old.spare }
        ensures room { OnOk result (length self.new.waiting + self.new.spare ≤ self.new.room) }
    {
        let Some(all) = self.waiting.len().checked_add(self.spare) else {
            return Err(AllocError);
        };
        if self.room < all {
            self.map.reserve(all)?;
            self.room = all;
        }
        Ok(())
    }

    // The publication, for which there is capacity, waits from now on.
    pub(crate) fn wait(&mut self, publication: (u32, u16))
        requires { 0 < self.old.spare }
        ensures keys { self.new.keys ≡ self.old.keys }
        ensures waiting { self.new.waiting ≡ self.old.waiting ++ publication ∷ [] }
        ensures room { self.old.spare ≡ self.new.spare + 1 }
    {
        self.spare -= 1;
        self.waiting.push(publication).unwrap();
    }

    // Puts the keys of all that wait in their places, where there is capacity for all. It allocates nothing.
    pub(crate) fn order(&mut self, entries: &[Entry])
        requires in_order { IsCatalogue entries.now }
        requires indexed { IsIndexOf entries.now self.old.keys self.old.waiting }
        ensures indexed { IsIndexOf entries.now self.new.keys self.new.waiting }
        ensures none_waits { length self.old.waiting ≤ self.old.room → self.new.waiting ≡ [] }
        ensures room { self.old.spare ≤ self.new.spare }
    {
        self.orders = true;
        let count = self.waiting.len();
        if count <= self.room {
            self.room -= count;
            put_in_place(&mut self.map, &mut self.waiting, entries);
        }
    }

    // The publications that wait.
    pub(crate) fn waiting(&self) -> &[(u32, u16)]
        ensures { result.now ≡ self.now.waiting }
    {
        &self.waiting
    }

    // The index has the key no more.
    pub(crate) fn remove(&mut self, key: Key)
        ensures keys { (q : Key) → contains key_cmp self.new.keys q
            ≡ (not (eq_by_cmp key_cmp q key) && contains key_cmp self.old.keys q) }
        ensures waiting { self.new.waiting ≡ self.old.waiting }
        ensures room { self.old.spare ≤ self.new.spare }
    {
        self.map.remove(key);
    }

    // The first key that is not before this one.
    pub(crate) fn first_from(&self, key: Key) -> Option<Key>
        ensures { MatchOption result
            ((q : Key) → contains key_cmp self.now.keys q ≡ true → key_cmp q key ≡ Less)
            (IsFirstFrom key self.now.keys) }
    {
        match self.map.first_from(key) {
            Some((first, ())) => Some(first),
            None => None,
        }
    }
}

// Puts the keys of publications that wait into a map with capacity for them. One that has no entry any more has none.
fn put_in_place(map: &mut SortedMap<Key, ()>, waiting: &mut Vec<(u32, u16)>, entries: &[Entry])
    requires in_order { IsCatalogue entries.now }
    requires keys { AreKeysOf entries.now (keys map.old.entries) waiting.old.items }
    requires room { length waiting.old.items ≤ map.old.spare }
    ensures keys { AreKeysOf entries.now (keys map.new.entries) waiting.new.items }
    ensures none_waits { waiting.new.items ≡ [] }
    ensures room { map.old.spare ≤ map.new.spare + length waiting.old.items }
    ensures room_to_wait { vec_capacity waiting.old ≤ vec_capacity waiting.new }
{
    while let Some((publisher, seq)) = waiting.pop() {
        if let Ok(place) = place_of(entries, (publisher, u32::from(seq))) {
            map.insert(key_of(&entries[place]), ());
        }
    }
}

// The fingerprint of the SHA-256 of a name's octets. Others can choose names, but hardly many whose fingerprints are
// the same. Octets decide in the end.
#[tactic(auto, unfolding(crate::specs::NameKeys::hash_of))]
pub(crate) fn name_hash(name: &NameView<'_>) -> u64
    ensures { result ≡ hash_of name.now }
{
    let digest = Sha256::digest(name.octets());
    u64::from_be_bytes(*digest.first_chunk().unwrap())
}

// The key of an entry.
pub(crate) fn key_of(entry: &Entry) -> Key
    ensures { result ≡ key_of entry.now }
{
    let hash = name_hash(&entry.name.view());
    (hash, (entry.publisher, u32::from(entry.seq)))
}

ghost use Rattle.std.specs.Prelude.{◌≡◌, ◌+◌, ◌<◌, ◌≤◌, [], length, OnOk};
ghost use Rattle.sorted_lists.specs.SortedList.{keys, Rises, value_of, with_value, without_key, last_up_to, first_from};

use crate::block_map::BlockMap;
use std::alloc::{AllocError, Global};
use std::marker::Model;

/// A map in order of its keys, with capacity for entries that is reserved beforehand.
///
/// A contract sees its entries as a list, and for how many more there is room. `insert` uses up room for one at most,
/// and no other call any. Entries stand in blocks of fewer than 64. A look-up or a change is a search among the blocks
/// and one in a block. A change moves the entries after its place in the block, and where a block is split or left
/// empty, also the blocks after it, of which each is three words.
#[derive(Debug, Drop)]
pub struct SortedMap<K: Ord + Copy, V: Copy> {
    map: BlockMap<K, V>,
}

impl<K: Ord + Copy, V: Copy> Model for SortedMap<K, V> {
    ghost use Rattle.sorted_lists.specs.MapState.{MapState};

    ghost Value = { MapState K V };

    ghost use Rattle.sorted_lists.specs.BlockMap.{entries, spare, IsMap};

    ghost view = { λ m. record { entries = entries m.map; spare = spare m.map } };

    ghost invariant = { λ m. IsMap K.cmp m.map };
}

impl<K: Ord + Copy, V: Copy> SortedMap<K, V> {
    /// The empty map, without capacity.
    pub fn new(alloc: Global) -> SortedMap<K, V>
        ensures entries { result.entries ≡ [] }
        ensures spare { result.spare ≡ 0 }
    {
        SortedMap {
            map: BlockMap::new(alloc),
        }
    }

    /// Reserves capacity for `n` more entries.
    pub fn reserve(&mut self, n: usize) -> Result<(), AllocError>
        ensures entries { self.new.entries ≡ self.old.entries }
        ensures grows { self.old.spare ≤ self.new.spare }
        ensures room { OnOk result (n ≤ self.new.spare) }
    {
        self.map.reserve(n)
    }

    /// How many entries there are. Counts them block by block.
    pub fn len(&self) -> usize
        ensures len { result ≡ length self.now.entries }
        ensures rises { Rises K.cmp (keys self.now.entries) }
    {
        self.map.len()
    }

    /// What the map has under the key.
    pub fn get(&self, key: K) -> Option<V>
        ensures { result ≡ value_of K.cmp self.now.entries key }
    {
        let entry = self.last_up_to(key)?;
        if key.cmp(&entry.0).is_eq() {
            Some(entry.1)
        } else {
            None
        }
    }

    /// The last entry whose key is not above this one.
    pub fn last_up_to(&self, key: K) -> Option<(K, V)>
        ensures found { result ≡ last_up_to K.cmp key self.now.entries }
        ensures rises { Rises K.cmp (keys self.now.entries) }
    {
        self.map.last_up_to(key)
    }

    /// The first entry whose key is not below this one.
    pub fn first_from(&self, key: K) -> Option<(K, V)>
        ensures found { result ≡ first_from K.cmp key self.now.entries }
        ensures rises { Rises K.cmp (keys self.now.entries) }
    {
        self.map.first_from(key)
    }

    /// The map gains the value under the key, in place of what it has there.
    pub fn insert(&mut self, key: K, value: V)
        requires { 0 < self.old.spare }
        ensures entries { self.new.entries ≡ with_value K.cmp key value self.old.entries }
        ensures spare { self.old.spare ≤ self.new.spare + 1 }
    {
        self.map.insert(key, value);
    }

    /// The map has nothing under the key from now on.
    pub fn remove(&mut self, key: K)
        ensures entries { self.new.entries ≡ without_key K.cmp key self.old.entries }
        ensures spare { self.old.spare ≤ self.new.spare }
    {
        self.map.remove(key);
    }
}

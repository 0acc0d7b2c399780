// Maps in blocks, in order of their keys, with capacity that is reserved beforehand.
ghost use Rattle.std.specs.Prelude.{◌≡◌, ◌+◌, ◌*◌, ◌<◌, ◌≤◌, [], length, vec_len, OnOk};
ghost use Rattle.sorted_lists.specs.SortedList.{with_value, without_key, last_up_to, first_from};
ghost use Rattle.sorted_lists.specs.BlockMap.{IsMap, IsPlace, StaysInSplit, above_half, entries, half, spare};

use crate::block;
use std::alloc::{AllocError, Global};

// The number of entries at which a block is split in two.
const FULL: usize = 64;

// How many of them stay, unless the last was appended to the map.
const HALF: usize = 32;

// There are fewer blocks than this, so that their entries can be counted.
const TOO_MANY: usize = 1 << 57;

#[derive(Debug, Drop)]
pub(crate) struct BlockMap<K, V> {
    // The entries, block after block. Only the first block may have none.
    blocks: Vec<Vec<(K, V)>>,
    // Empty blocks, each for the back of one that is split. A block that is emptied is kept here too.
    spare: Vec<Vec<(K, V)>>,
}

impl<K: Ord + Copy, V: Copy> BlockMap<K, V> {
    pub fn new(alloc: Global) -> BlockMap<K, V>
        ensures entries { entries result ≡ [] }
        ensures spare { spare result ≡ 0 }
        ensures map { IsMap K.cmp result }
    {
        BlockMap {
            blocks: Vec::new(alloc),
            spare: Vec::new(alloc),
        }
    }

    // Reserves capacity for `n` more entries. Each takes one empty block at most. Where many come, the blocks are
    // split for each `HALF` entries that stand above half a block, and then at every `HALF` further entries.
    pub fn reserve(&mut self, n: usize) -> Result<(), AllocError>
        requires { IsMap K.cmp self.old }
        ensures entries { entries self.new ≡ entries self.old }
        ensures map { IsMap K.cmp self.new }
        ensures grows { spare self.old ≤ spare self.new }
        ensures room { OnOk result (n ≤ spare self.new) }
    {
        self.begin()?;
        if n <= self.spare.len() {
            return Ok(());
        }
        let wanted = n.min(self.above_half() / HALF + n / HALF + 3);
        self.add_spare(wanted)?;
        Ok(())
    }

    // Sees that there is a block.
    fn begin(&mut self) -> Result<(), AllocError>
        requires { IsMap K.cmp self.old }
        ensures entries { entries self.new ≡ entries self.old }
        ensures map { IsMap K.cmp self.new }
        ensures grows { spare self.old ≤ spare self.new }
        ensures block { OnOk result (0 < vec_len self.new.blocks) }
    {
        if self.blocks.is_empty() {
            self.add_spare(1)?;
            let first = self.spare.pop().unwrap();
            self.blocks.push(first).unwrap();
        }
        Ok(())
    }

    // Sees that there are `wanted` empty blocks, and room to place them.
    fn add_spare(&mut self, wanted: usize) -> Result<(), AllocError>
        requires { IsMap K.cmp self.old }
        ensures blocks { self.new.blocks.items ≡ self.old.blocks.items }
        ensures map { IsMap K.cmp self.new }
        ensures grows { vec_len self.old.spare ≤ vec_len self.new.spare }
        ensures room { OnOk result (wanted ≤ vec_len self.new.spare) }
    {
        if wanted <= self.spare.len() {
            return Ok(());
        }
        if wanted >= TOO_MANY - self.blocks.len() {
            return Err(AllocError);
        }
        self.blocks.reserve(wanted)?;
        self.spare
            .reserve(self.blocks.len() + wanted - self.spare.len())?;
        while self.spare.len() < wanted {
            let block = Vec::with_capacity(*self.spare.allocator(), FULL)?;
            self.spare.push(block)?;
        }
        Ok(())
    }

    // How many entries stand in blocks above half a block each.
    fn above_half(&self) -> usize
        requires { IsMap K.cmp self.now }
        ensures number { result ≡ above_half self.now.blocks.items }
        ensures few { result ≤ half * vec_len self.now.blocks }
    {
        let mut n = 0;
        for block in &self.blocks {
            n += block.len().saturating_sub(HALF);
        }
        n
    }

    // How many entries there are.
    pub fn len(&self) -> usize
        requires { IsMap K.cmp self.now }
        ensures { result ≡ length (entries self.now) }
    {
        let mut n = 0;
        for block in &self.blocks {
            n += block.len();
        }
        n
    }

    // The last entry whose key is not above this one.
    pub fn last_up_to(&self, key: K) -> Option<(K, V)>
        requires { IsMap K.cmp self.now }
        ensures { result ≡ last_up_to K.cmp key (entries self.now) }
    {
        let block = self.blocks.get(self.place_of(key))?;
        block::last_up_to(block, key)
    }

    // The first entry whose key is not below this one.
    pub fn first_from(&self, key: K) -> Option<(K, V)>
        requires { IsMap K.cmp self.now }
        ensures { result ≡ first_from K.cmp key (entries self.now) }
    {
        let place = self.place_of(key);
        let block = self.blocks.get(place)?;
        match block::first_from(block, key) {
            Some(entry) => Some(entry),
            None => self.blocks.get(place + 1)?.first().copied(),
        }
    }

    // The map, which has capacity for one more, gains the value under the key, in place of what it has there.
    pub fn insert(&mut self, key: K, value: V)
        requires map { IsMap K.cmp self.old }
        requires room { 0 < spare self.old }
        ensures entries { entries self.new ≡ with_value K.cmp key value (entries self.old) }
        ensures map { IsMap K.cmp self.new }
        ensures room { spare self.old ≤ spare self.new + 1 }
    {
        let place = self.place_of(key);
        block::insert(&mut self.blocks[place], key, value);
        if self.blocks[place].len() < FULL {
            return;
        }
        let kept = kept_of(&self.blocks, place, key);
        let mut back = self.spare.pop().unwrap();
        block::split(&mut self.blocks[place], kept, &mut back);
        self.blocks.insert(place + 1, back).unwrap();
    }

    // The map has nothing under the key.
    pub fn remove(&mut self, key: K)
        requires { IsMap K.cmp self.old }
        ensures entries { entries self.new ≡ without_key K.cmp key (entries self.old) }
        ensures map { IsMap K.cmp self.new }
        ensures room { spare self.old ≤ spare self.new }
    {
        let place = self.place_of(key);
        if place >= self.blocks.len() {
            return;
        }
        block::remove(&mut self.blocks[place], key);
        if place > 0 && self.blocks[place].is_empty() {
            let empty = self.blocks.remove(place);
            self.spare.push(empty).unwrap();
        }
    }

    // Which block the key belongs into.
    fn place_of(&self, key: K) -> usize
        requires { IsMap K.cmp self.now }
        ensures place { IsPlace K.cmp key self.now.blocks.items result }
        ensures there { 0 < length self.now.blocks.items → result < length self.now.blocks.items }
    {
        self.blocks
            .partition_point(|block| block::begins_up_to(block, key))
            .saturating_sub(1)
    }
}

// How many entries of a full block stay when it is split: half of them, or all but the last one where that is the entry
// that came, so that keys that rise fill the blocks.
fn kept_of<K: Ord + Copy, V: Copy>(blocks: &[Vec<(K, V)>], place: usize, key: K) -> usize
    requires { place < length blocks.now }
    ensures { StaysInSplit (length blocks.now) place result }
{
    match blocks[place].last() {
        Some((last, _)) if place + 1 == blocks.len() && last.cmp(&key).is_eq() => FULL - 1,
        _ => HALF,
    }
}

ghost use Rattle.std.specs.Prelude.{◌≡◌, ◌≤◌, true, length};
ghost use Rattle.repo_store.specs.Indexes.{IsFirstOf};
ghost use Rattle.repo_store.specs.Blocks.{piece, IsBlock, AreBlocks, IsNear, AreNear, StaysBlock, StayBlocks};

use crate::packet_table::{Stored, lesser};

// How many entries a block has.
pub(crate) const BLOCK: usize = 64;

// A block: the entries from place `start` on, before place `end`, and the one of them that has the least part.
#[derive(Clone, Copy)]
pub(crate) struct Block {
    start: usize,
    end: usize,
    least: Option<Stored>,
}

impl Block {
    fn of(held: &[Stored], start: usize, end: usize) -> Block
        requires rises { start ≤ end }
        requires within { end ≤ length held.now }
        ensures { IsBlock held.now result }
    {
        Block {
            start,
            end,
            least: least_of(piece(held, start, end)),
        }
    }

    // The block, adjusted to the removal of the entry at `place`. `held` has the entries that remain.
    fn without(self, place: usize, held: &[Stored]) -> Block
        requires { IsNear held.now self }
        ensures { StaysBlock place held.now self result }
    {
        if self.end <= place {
            return self;
        }
        if self.start <= place {
            return Block::of(held, self.start, self.end - 1);
        }
        Block {
            start: self.start - 1,
            end: self.end - 1,
            least: self.least,
        }
    }
}

// The entries of `held` from place `start` on, before place `end`.
pub(crate) fn piece(held: &[Stored], start: usize, end: usize) -> &[Stored]
    requires rises { start ≤ end }
    requires within { end ≤ length held.now }
    ensures { result.now ≡ piece start end held.now }
{
    let (before, _) = held.split_at(end);
    let (_, piece) = before.split_at(start);
    piece
}

// Makes the blocks of `held`, as many as there is capacity for. Entries after the last block are in none.
pub(crate) fn make_blocks(blocks: &mut Vec<Block>, held: &[Stored])
    ensures { AreBlocks held.now blocks.new.items }
{
    blocks.clear();
    let mut start = 0;
    while blocks.len() < blocks.capacity() && BLOCK <= held.len() - start {
        blocks.push(Block::of(held, start, start + BLOCK)).unwrap();
        start += BLOCK;
    }
}

// Adjusts the blocks to the removal of the entry at `place`. `held` has the entries that remain.
pub(crate) fn shift_blocks(blocks: &mut Vec<Block>, place: usize, held: &[Stored])
    requires { AreNear held.now blocks.old.items }
    ensures { StayBlocks place held.now blocks.old.items blocks.new.items }
{
    for block in blocks.iter_mut() {
        *block = block.without(place, held);
    }
}

// The entry with the least part among those from place `start` on, before place `end`. A block between these places
// takes one step; entries that are in no such block are read. As blocks rise, those before and after are found by two
// binary searches.
pub(crate) fn least_between(
    held: &[Stored],
    blocks: &[Block],
    start: usize,
    end: usize,
) -> Option<Stored>
    requires rises { start ≤ end }
    requires within { end ≤ length held.now }
    requires blocks { AreBlocks held.now blocks.now }
    ensures { IsFirstOf (piece start end held.now) (λ h. true) result }
{
    let (_, rest) = blocks.split_at(blocks.partition_point(|block| block.start < start));
    let (near, _) = rest.split_at(rest.partition_point(|block| block.end <= end));
    let mut least = None;
    let mut from = start;
    for block in near {
        if from <= block.start && block.end <= end {
            let before = least_of(piece(held, from, block.start));
            least = lesser(lesser(least, before), block.least);
            from = block.end;
        }
    }
    lesser(least, least_of(piece(held, from, end)))
}

// The entry of `held` that has the least part.
fn least_of(held: &[Stored]) -> Option<Stored>
    ensures { IsFirstOf held.now (λ h. true) result }
{
    let mut least = *held.first()?;
    for next in held {
        if next.0.cmp(&least.0).is_lt() {
            least = *next;
        }
    }
    Some(least)
}

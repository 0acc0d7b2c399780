ghost use Rattle.std.specs.Prelude.{◌≡◌, ◌+◌, ◌<◌, ◌≤◌, [], length, OnOk};
ghost use Rattle.std.specs.List.{remove};
ghost use Rattle.repo_store.specs.Indexes.{name_matches, AreInOrder, IsFirstOf, outside_part, IsAlone, IsFoundAt};
ghost use Rattle.repo_store.specs.NameLayers.{IsMerged, left_of};

use crate::blocks::{BLOCK, Block, make_blocks, shift_blocks};
use crate::index::{Index, find, merge, retain};
use crate::packet_table::{PacketTable, Stored};
use std::alloc::{AllocError, Global};
use std::marker::Model;
use std::mem;

// The settled entries, in order of their packets' names, and for each block of them the entry with the least part: so
// the entries of a prefix are looked through block by block.
#[derive(Drop)]
pub(crate) struct Settled {
    held: Vec<Stored>,
    // Settled and recent entries are merged into this.
    merged: Vec<Stored>,
    blocks: Vec<Block>,
}

impl Model for Settled {
    ghost use Rattle.std.specs.Prelude.{min, vec_capacity};
    ghost use Rattle.repo_store.specs.Blocks.{SettledList};

    ghost Value = { SettledList };

    ghost use Rattle.repo_store.specs.SettledFields.{IsSettled};

    ghost view = { λ s. record { items = s.held.items; room = min (vec_capacity s.held) (vec_capacity s.merged) } };

    ghost invariant = { IsSettled };
}

impl Settled {
    pub(crate) fn new(alloc: Global) -> Settled
        ensures { result.items ≡ [] }
    {
        Settled {
            held: Vec::new(alloc),
            merged: Vec::new(alloc),
            blocks: Vec::new(alloc),
        }
    }

    pub(crate) fn len(&self) -> usize
        ensures { result ≡ length self.now.items }
    {
        self.held.len()
    }

    // Reserves capacity for `n` more entries.
    pub(crate) fn reserve(&mut self, n: usize) -> Result<(), AllocError>
        ensures items { self.new.items ≡ self.old.items }
        ensures kept { self.old.room ≤ self.new.room }
        ensures room { OnOk result (length self.new.items + n ≤ self.new.room) }
    {
        self.held.reserve(n)?;
        let Some(all) = self.held.len().checked_add(n) else {
            return Err(AllocError);
        };
        self.merged.clear();
        self.merged.reserve(all)?;
        let more = (all / BLOCK).saturating_sub(self.blocks.len());
        self.blocks.reserve(more)
    }

    // The settled entry with the least part of those whose packet's name is `asked` or, with `can_be_prefix`, begins
    // with it.
    pub(crate) fn first(
        &self,
        kept: &PacketTable,
        asked: &[u8],
        can_be_prefix: bool,
    ) -> Option<Stored>
        requires { AreInOrder kept.now.slots self.now.items }
        ensures { IsFirstOf self.now.items (name_matches kept.now.slots asked.now can_be_prefix) result }
    {
        let index = Index {
            held: &self.held,
            kept,
        };
        index.first(&self.blocks, asked, can_be_prefix)
    }

    // Merges the recent entries into the settled ones. There is capacity for that.
    pub(crate) fn settle(&mut self, recent: &[Stored], kept: &PacketTable)
        requires settled { AreInOrder kept.now.slots self.old.items }
        requires recent { AreInOrder kept.now.slots recent.now }
        requires room { length self.old.items + length recent.now ≤ self.old.room }
        ensures merged { IsMerged kept.now.slots self.old.items recent.now self.new.items }
        ensures len { length self.new.items ≡ length self.old.items + length recent.now }
        ensures kept { self.old.room ≤ self.new.room }
    {
        self.merged.clear();
        merge(&mut self.merged, &self.held, recent, kept);
        mem::swap(&mut self.held, &mut self.merged);
        make_blocks(&mut self.blocks, &self.held);
    }

    // Removes the settled entry of the part of `held`, if there is one. It is searched by the name of its packet.
    pub(crate) fn take_out(&mut self, kept: &PacketTable, held: Stored)
        requires in_order { AreInOrder kept.now.slots self.old.items }
        requires alone { IsAlone held self.old.items }
        ensures outside { self.new.items ≡ outside_part held.0 self.old.items }
        ensures len { length self.new.items ≤ length self.old.items }
        ensures kept { self.new.room ≡ self.old.room }
    {
        while let Some(place) = self.find(kept, held) {
            self.remove(place);
        }
    }

    // The place of the settled entry of the part of `held`, if there is one.
    fn find(&self, kept: &PacketTable, held: Stored) -> Option<usize>
        requires in_order { AreInOrder kept.now.slots self.now.items }
        requires alone { IsAlone held self.now.items }
        ensures { IsFoundAt held.0 self.now.items result }
    {
        find(&self.held, kept, held)
    }

    fn remove(&mut self, place: usize)
        requires { place < length self.old.items }
        ensures items { self.new.items ≡ remove self.old.items place }
        ensures kept { self.new.room ≡ self.old.room }
    {
        self.held.remove(place);
        shift_blocks(&mut self.blocks, place, &self.held);
    }

    // Drops the settled entries of the publications `pairs`, whose parts are held no more.
    pub(crate) fn retain(&mut self, kept: &PacketTable, pairs: &[(u32, u16)])
        ensures left { self.new.items ≡ left_of pairs.now kept.now.held self.old.items }
        ensures len { length self.new.items ≤ length self.old.items }
        ensures kept { self.new.room ≡ self.old.room }
    {
        retain(&mut self.held, kept, pairs);
        make_blocks(&mut self.blocks, &self.held);
    }
}

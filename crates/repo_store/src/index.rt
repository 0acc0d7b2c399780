ghost use Rattle.std.specs.Prelude.{◌≡◌, ◌+◌, ◌<◌, ◌≤◌, [], length, vec_len, vec_capacity};
ghost use Rattle.repo_store.specs.Indexes.{name_at, key_cmp, key_in, name_matches, first_part, AreInOrder};
ghost use Rattle.repo_store.specs.Indexes.{IndexIsInOrder, IsPlace, AreMatches, IsFirstOf, GainsOne};
ghost use Rattle.repo_store.specs.Indexes.{outside_part, IsAlone, IsFoundAt};
ghost use Rattle.repo_store.specs.Blocks.{piece, AreBlocks};
ghost use Rattle.repo_store.specs.NameLayers.{is_left, left_of, IsMerged};

use crate::blocks::{Block, least_between, piece};
use crate::packet_table::{FIRST, PacketTable, Stored};
use repo_plan::Part;
use std::cmp::Ordering;

// The entries of parts that are held, in order of the names of the packets, and then of the parts.
#[derive(Clone, Copy)]
pub(crate) struct Index<'i> {
    pub(crate) held: &'i [Stored],
    pub(crate) kept: &'i PacketTable,
}

impl Index<'_> {
    fn name(&self, held: &Stored) -> &[u8]
        ensures { result.now ≡ name_at self.now.kept.now.slots held.now }
    {
        self.kept.name(held.1)
    }

    fn cmp(&self, held: &Stored, name: &[u8], part: Part) -> Ordering
        ensures { result ≡ key_cmp (key_in self.now.kept.now.slots held.now) (name.now, part) }
    {
        match self.name(held).cmp(name) {
            Ordering::Equal => held.0.cmp(&part),
            unequal => unequal,
        }
    }

    // Compares two entries as the index is ordered: by the names of their packets, then by their parts.
    pub(crate) fn cmp_held(&self, held: &Stored, other: &Stored) -> Ordering {
        self.cmp(held, self.name(other), other.0)
    }

    // How many entries come before this name and part.
    fn place(&self, name: &[u8], part: Part) -> usize
        requires { IndexIsInOrder self.now }
        ensures { IsPlace self.now.kept.now.slots self.now.held.now (name.now, part) result }
    {
        self.held
            .partition_point(|held| self.cmp(held, name, part).is_lt())
    }

    // How many entries come before the entry `held`.
    fn place_of(&self, held: &Stored) -> usize
        requires { IndexIsInOrder self.now }
        ensures { IsPlace self.now.kept.now.slots self.now.held.now
            (key_in self.now.kept.now.slots held.now) result }
    {
        self.place(self.name(held), held.0)
    }

    // How many entries come before the entry `held`, where they are mostly few. The entries at places 0, 1, 3, 7 and so
    // on are compared until one doesn't come before `held`; then the entries in front of that one are searched.
    pub(crate) fn place_near_start(&self, held: &Stored) -> usize
        requires { IndexIsInOrder self.now }
        ensures { IsPlace self.now.kept.now.slots self.now.held.now
            (key_in self.now.kept.now.slots held.now) result }
    {
        let name = self.name(held);
        let mut end = 0;
        while let Some(next) = self.held.get(end) {
            if !self.cmp(next, name, held.0).is_lt() {
                let (prefix, _) = self.held.split_at(end);
                return Index {
                    held: prefix,
                    kept: self.kept,
                }
                .place(name, held.0);
            }
            end = 2 * end + 1;
        }
        self.place(name, held.0)
    }

    // The entry with the least part of those whose packet's name is `asked` or, with `can_be_prefix`, begins with it.
    // Of the entries of one name the first has the least part; of several names the parts are compared, block by block,
    // and no name is read.
    pub(crate) fn first(
        &self,
        blocks: &[Block],
        asked: &[u8],
        can_be_prefix: bool,
    ) -> Option<Stored>
        requires in_order { IndexIsInOrder self.now }
        requires blocks { AreBlocks self.now.held.now blocks.now }
        ensures { IsFirstOf self.now.held.now (name_matches self.now.kept.now.slots asked.now can_be_prefix) result }
    {
        let (start, end) = self.asked(asked, can_be_prefix);
        if can_be_prefix {
            least_between(self.held, blocks, start, end)
        } else {
            piece(self.held, start, end).first().copied()
        }
    }

    // The places between which the entries stand whose packet's name is `asked` or, with `can_be_prefix`, begins with
    // it.
    fn asked(&self, asked: &[u8], can_be_prefix: bool) -> (usize, usize)
        requires { IndexIsInOrder self.now }
        ensures rises { result.0 ≤ result.1 }
        ensures within { result.1 ≤ length self.now.held.now }
        ensures asked { AreMatches self.now.kept.now.slots self.now.held.now asked.now can_be_prefix
            (piece result.0 result.1 self.now.held.now) }
    {
        let start = self.place(asked, FIRST);
        let (_, rest) = self.held.split_at(start);
        let end = rest.partition_point(|held| name_matches(self.kept, asked, can_be_prefix, held));
        (start, start + end)
    }
}

// Whether the name of the entry's packet is `asked` or, with `can_be_prefix`, begins with it.
pub(crate) fn name_matches(
    kept: &PacketTable,
    asked: &[u8],
    can_be_prefix: bool,
    held: &Stored,
) -> bool
    ensures { result ≡ name_matches kept.now.slots asked.now can_be_prefix held.now }
{
    let name = kept.name(held.1);
    if can_be_prefix {
        name.starts_with(asked)
    } else {
        name == asked
    }
}

// Inserts the entry `held` at its place in `index`, which is in order.
pub(crate) fn insert(index: &mut Vec<Stored>, kept: &PacketTable, held: Stored)
    requires in_order { AreInOrder kept.now.slots index.old.items }
    requires room { vec_len index.old < vec_capacity index.old }
    ensures in_order { AreInOrder kept.now.slots index.new.items }
    ensures gains { GainsOne held index.old.items index.new.items }
    ensures len { vec_len index.new ≡ vec_len index.old + 1 }
    ensures capacity { vec_capacity index.old ≤ vec_capacity index.new }
{
    let place = Index {
        held: index.as_slice(),
        kept,
    }
    .place_of(&held);
    index.insert(place, held).unwrap();
}

// Removes the entry of the part of `held` from `index`, if there is one. It is searched by the name of its packet.
pub(crate) fn take_out(index: &mut Vec<Stored>, kept: &PacketTable, held: Stored)
    requires in_order { AreInOrder kept.now.slots index.old.items }
    requires alone { IsAlone held index.old.items }
    ensures outside { index.new.items ≡ outside_part held.0 index.old.items }
    ensures len { vec_len index.new ≤ vec_len index.old }
    ensures capacity { vec_capacity index.new ≡ vec_capacity index.old }
{
    while let Some(place) = find(index, kept, held) {
        index.remove(place);
    }
}

// The place in `index` of the entry of the part of `held`, if there is one.
pub(crate) fn find(index: &[Stored], kept: &PacketTable, held: Stored) -> Option<usize>
    requires in_order { AreInOrder kept.now.slots index.now }
    requires alone { IsAlone held index.now }
    ensures { IsFoundAt held.0 index.now result }
{
    let place = Index { held: index, kept }.place_of(&held);
    let (_, rest) = index.split_at(place);
    let next = rest.first()?;
    if held.0.cmp(&next.0).is_eq() {
        Some(place)
    } else {
        None
    }
}

// Merges `settled` and `recent`, which are in order, into `merged`, which has room for both. Recent names that follow
// each other mostly stand close together, so most places are near the start of the rest of `settled`.
pub(crate) fn merge(
    merged: &mut Vec<Stored>,
    settled: &[Stored],
    recent: &[Stored],
    kept: &PacketTable,
)
    requires empty { merged.old.items ≡ [] }
    requires settled { AreInOrder kept.now.slots settled.now }
    requires recent { AreInOrder kept.now.slots recent.now }
    requires room { length settled.now + length recent.now ≤ vec_capacity merged.old }
    ensures merged { IsMerged kept.now.slots settled.now recent.now merged.new.items }
    ensures len { vec_len merged.new ≡ length settled.now + length recent.now }
    ensures capacity { vec_capacity merged.old ≤ vec_capacity merged.new }
{
    let mut rest = settled;
    for held in recent {
        let index = Index { held: rest, kept };
        let (before, after) = rest.split_at(index.place_near_start(held));
        merged.extend_from_slice(before).unwrap();
        merged.push(*held).unwrap();
        rest = after;
    }
    merged.extend_from_slice(rest).unwrap();
}

// Drops the entries of the publications `pairs`, whose parts are held no more.
pub(crate) fn retain(held: &mut Vec<Stored>, kept: &PacketTable, pairs: &[(u32, u16)])
    ensures left { held.new.items ≡ left_of pairs.now kept.now.held held.old.items }
    ensures len { vec_len held.new ≤ vec_len held.old }
    ensures capacity { vec_capacity held.new ≡ vec_capacity held.old }
{
    held.retain(|held| is_left(kept, pairs, held.0));
}

// Whether a part that was held is still held after the parts of the publications `pairs` were dropped.
fn is_left(kept: &PacketTable, pairs: &[(u32, u16)], part: Part) -> bool
    ensures { result ≡ is_left pairs.now kept.now.held part }
{
    match pairs {
        [pair] => (part.publisher, part.seq) != *pair,
        _ => kept.has(part),
    }
}

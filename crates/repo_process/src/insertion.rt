ghost use Rattle.std.specs.Prelude.{◌≡◌, ◌==◌, ◌+◌, ◌-◌, ◌≤◌, ◌<◌, ◌↔◌, ℕ, List, [], true, false, length, map};
ghost use Rattle.std.specs.Prelude.{count_by, replicate, vec_len, IfOk, OnOk, OnErr, IsTrue, MatchOption, IfSome, None};
ghost use Rattle.std.specs.Prelude.{Some};
ghost use Rattle.std.specs.List.{All};
ghost use Rattle.repo_object.specs.Objects.{is_object_name, IsContent, IsObject};
ghost use Rattle.repo_process.specs.Processes.{Process, starting, has_index, has_block, present, missing, is_whole};
ghost use Rattle.repo_process.specs.Processes.{with_block, without_block, object_of, closed, block_in};
ghost use Rattle.repo_process.specs.Arrivals.{answer_of_block, is_last, arrived, whole_object, lent_object, reopened};
ghost use Rattle.repo_process.specs.Fields.{blocks_from};

use crate::block_state::BlockState;
use crate::blocks::Blocks;
use ndn_name::Name;
use std::alloc::{AllocError, Global};
use std::marker::Model;
use std::mem;

/// An object whose blocks are received one by one.
#[derive(Debug, Drop)]
pub(crate) struct Insertion {
    name: Name,
    first: u64,
    last: u64,
    // The blocks in order of index. A missing block is empty here, as no block that was received is. There are none
    // once the object is published.
    contents: Vec<Vec<u8>>,
    is_published: bool,
}

impl Model for Insertion {
    ghost use Rattle.repo_process.specs.Processes.{Process};

    ghost Value = { Process };

    ghost use Rattle.repo_process.specs.Fields.{process_of, IsInsertion};

    ghost view = { process_of };

    ghost invariant = { IsInsertion };
}

impl Insertion {
    pub(crate) fn new(
        alloc: Global,
        name: &Name,
        first: u64,
        last: u64,
    ) -> Result<Insertion, AllocError>
        requires name { IsTrue (is_object_name name.now) }
        requires order { first ≤ last }
        requires few { last - first < 200 }
        ensures { IfOk result (λ insertion. insertion ≡ starting name.now first last) }
    {
        name.cite_soundness();
        Ok(Insertion {
            name: name.clone()?,
            first,
            last,
            contents: no_blocks(alloc, (last - first) as usize + 1)?,
            is_published: false,
        })
    }

    /// Takes a block, unless there is one of that index already or the object was published.
    pub(crate) fn block(&mut self, index: u64, content: &[u8]) -> Result<BlockState, AllocError>
        requires { IsContent content.now }
        ensures state { IfOk result (λ state. state ≡ answer_of_block (block_in index content.now (Some self.old))) }
        ensures ok { OnOk result
            (self.new ≡ arrived self.old (block_in index content.now (Some self.old))) }
        ensures err { OnErr result (self.new ≡ self.old) }
    {
        if !self.has_index(index) {
            return Ok(BlockState::Unknown);
        }
        if self.is_published {
            return Ok(BlockState::Complete);
        }
        self.keep(index, content)?;
        Ok(match self.missing() {
            0 => BlockState::Complete,
            missing => BlockState::Kept { missing },
        })
    }

    /// Drops a block.
    pub(crate) fn take_back(&mut self, index: u64)
        requires open { self.old.published ≡ false }
        requires block { IsTrue (has_block self.old index) }
        ensures { self.new ≡ without_block index self.old }
    {
        let alloc = *self.contents.allocator();
        self.contents[(index - self.first) as usize] = Vec::new(alloc);
    }

    /// How many blocks there are, and whether the object was published. Then all of its blocks count.
    pub(crate) fn status(&self) -> (u64, bool)
        ensures present { result.0 ≡ present self.now }
        ensures published { result.1 ≡ self.now.published }
    {
        let blocks = self.last - self.first + 1;
        if self.is_published {
            return (blocks, true);
        }
        (blocks - self.missing(), false)
    }

    /// The object's name and its blocks, if none is missing and it was not published.
    pub(crate) fn whole(&self) -> Option<(&Name, &[Vec<u8>])>
        ensures object { MatchOption result
            (whole_object (Some self.now) ≡ None)
            (λ lent. whole_object (Some self.now) ≡ Some (lent_object lent)) }
        ensures within { IfSome result (λ lent. IsObject (lent_object lent)) }
    {
        if self.is_published || self.missing() != 0 {
            return None;
        }
        Some((&self.name, &self.contents))
    }

    /// The object counts as published, and its blocks are handed over.
    pub(crate) fn close(&mut self) -> Vec<Vec<u8>>
        requires open { self.old.published ≡ false }
        requires whole { IsTrue (is_whole self.old) }
        ensures blocks { map (λ c. c.items) result.items ≡ (object_of self.old).contents }
        ensures back { blocks_from self.old.first (map (λ c. c.items) result.items) ≡ self.old.blocks }
        ensures closed { self.new ≡ closed self.old }
    {
        let alloc = *self.contents.allocator();
        self.is_published = true;
        mem::replace(&mut self.contents, Vec::new(alloc))
    }

    /// The object counts as unpublished again, with these blocks.
    pub(crate) fn reopen(&mut self, contents: Vec<Vec<u8>>)
        requires closed { self.old.published ≡ true }
        requires all { length contents.items ≡ self.old.last + 1 - self.old.first }
        requires contents { All (λ c. IsContent c.items) contents.items }
        ensures { self.new ≡ reopened (map (λ c. c.items) contents.items) self.old }
    {
        self.is_published = false;
        self.contents = contents;
    }

    /// Whether a block of this index would be the last one that is missing.
    pub(crate) fn completes(&self, index: u64) -> bool
        ensures { (content : List ℕ) → IsContent content
            → result ≡ is_last (block_in index content (Some self.now)) }
    {
        if !self.has_index(index) || self.is_published {
            return false;
        }
        let lacks = self.contents[(index - self.first) as usize].is_empty();
        self.missing() <= u64::from(lacks)
    }

    // Whether one of the blocks has this index.
    fn has_index(&self, index: u64) -> bool
        ensures { result ≡ has_index self.now index }
    {
        self.first <= index && index <= self.last
    }

    // How many blocks are missing.
    fn missing(&self) -> u64
        requires { self.now.published ≡ false }
        ensures count { result ≡ missing self.now }
        ensures whole { IsTrue (is_whole self.now) ↔ (result ≡ 0) }
    {
        count_empty(&self.contents) as u64
    }

    // Keeps a block, unless there is one of that index already.
    fn keep(&mut self, index: u64, content: &[u8]) -> Result<(), AllocError>
        requires content { IsContent content.now }
        requires open { self.old.published ≡ false }
        requires index { IsTrue (has_index self.old index) }
        ensures ok { OnOk result (self.new ≡ with_block index content.now self.old) }
        ensures err { OnErr result (self.new ≡ self.old) }
    {
        let place = (index - self.first) as usize;
        if !self.contents[place].is_empty() {
            return Ok(());
        }
        let alloc = *self.contents.allocator();
        self.contents[place] = Vec::from_slice(alloc, content)?;
        Ok(())
    }
}

// How many contents are empty.
fn count_empty(contents: &[Vec<u8>]) -> usize
    ensures { result ≡ count_by (λ c. vec_len c == 0) contents.now }
{
    contents.iter().filter(|content| content.is_empty()).count()
}

// `count` missing blocks: empty contents.
fn no_blocks(alloc: Global, count: usize) -> Result<Vec<Vec<u8>>, AllocError>
    ensures { IfOk result (λ blocks. map (λ c. c.items) blocks.items ≡ replicate count []) }
{
    let mut blocks = Vec::with_capacity(alloc, count)?;
    while blocks.len() < count {
        blocks.push(Vec::new(alloc))?;
    }
    Ok(blocks)
}

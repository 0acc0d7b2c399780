ghost use Rattle.std.specs.Prelude.{◌≡◌, ◌+◌, ◌-◌, ◌≤◌, ◌<◌, ◌↔◌, ℕ, List, [], true, None, Some, Err, false, length};
ghost use Rattle.std.specs.Prelude.{map, option_map, slice_get, IsSomeAnd, IfOk, OnOk, OnErr, IsTrue, IsSome};
ghost use Rattle.std.specs.Prelude.{MatchOption, IfSome};
ghost use Rattle.std.specs.List.{All};
ghost use Rattle.std.specs.Ordering.{nat_cmp};
ghost use Rattle.sorted_lists.specs.SortedList.{Rises, keys, value_of};
ghost use Rattle.repo_object.specs.Objects.{is_object_name, IsContent, IsObject};
ghost use Rattle.repo_process.specs.Processes.{Process, has_block, present, object_of, closed, block_state};
ghost use Rattle.repo_process.specs.Processes.{without_block};
ghost use Rattle.repo_process.specs.Arrivals.{answer_of_block, is_last, whole_object, lent_object, reopened};
ghost use Rattle.repo_process.specs.Fields.{blocks_from};
ghost use Rattle.repo_process.specs.Insertions.{next_number, starts, blocks_process, changes_process};

use crate::block_state::BlockState;
use crate::blocks::Blocks;
use crate::insertion::Insertion;
use crate::start_fault::StartFault;
use ndn_name::Name;
use std::alloc::{AllocError, Global};
use std::marker::Model;

/// The insertion processes of a repository, by number.
#[derive(Debug, Drop)]
pub struct Processes {
    // The processes in order of number. They have the last numbers that were given.
    insertions: Vec<Insertion>,
    // The number that the next process gets, as long as it has at most 32 bits.
    next: u64,
}

// `Processes` are seen as the list of processes by number, beside the number that the next process gets.
impl Model for Processes {
    ghost use Rattle.repo_process.specs.Insertions.{Insertions};

    ghost Value = { Insertions };

    ghost use Rattle.repo_process.specs.Fields.{insertions_of, ProcessesAreNumbered};

    ghost view = { insertions_of };

    ghost invariant = { ProcessesAreNumbered };
}

impl Processes {
    /// No processes. Numbers begin at 1.
    pub fn new(alloc: Global) -> Processes
        ensures { result ≡ record { processes = []; next_process = 1 } }
    {
        Processes {
            insertions: Vec::new(alloc),
            next: 1,
        }
    }

    /// Starts the insertion of an object of this name, whose blocks have the indexes `first` to `last`, and gives its
    /// number: 1, 2, 3 and so on.
    pub fn start(&mut self, name: &Name, first: u64, last: u64) -> Result<u32, StartFault>
        requires name { IsTrue (is_object_name name.now) }
        requires order { first ≤ last }
        requires few { last - first < 200 }
        ensures number { IfOk result (λ number. number ≡ self.old.next_process) }
        ensures ok { OnOk result (self.new ≡ starts name.now first last self.old) }
        ensures spent { (result ≡ Err StartFault.Spent) ↔ (next_number self.old ≡ None) }
        ensures err { OnErr result (self.new ≡ self.old) }
    {
        let Some(number) = self.next() else {
            return Err(StartFault::Spent);
        };
        let alloc = *self.insertions.allocator();
        let insertion = Insertion::new(alloc, name, first, last)?;
        self.insertions.push(insertion)?;
        self.next += 1;
        Ok(number)
    }

    /// The number that the next process gets, or `None` where the numbers are spent. It allocates nothing.
    pub fn next(&self) -> Option<u32>
        ensures { result ≡ next_number self.now }
    {
        u32::try_from(self.next).ok()
    }

    /// Takes a block of a process, unless the process holds one of that index or the object was published.
    pub fn block(
        &mut self,
        process: u32,
        index: u64,
        content: &[u8],
    ) -> Result<BlockState, AllocError>
        requires { IsContent content.now }
        ensures state { IfOk result
            (λ state. state ≡ answer_of_block (block_state self.old.processes process index content.now)) }
        ensures ok { OnOk result (self.new ≡ blocks_process process index content.now self.old) }
        ensures err { OnErr result (self.new ≡ self.old) }
    {
        match self.place(u64::from(process)) {
            Some(place) => self.insertions[place].block(index, content),
            None => Ok(BlockState::Unknown),
        }
    }

    /// Drops a block of a process that was not published. It allocates nothing.
    pub fn take_back(&mut self, process: u32, index: u64)
        requires { IsSomeAnd (value_of nat_cmp self.old.processes process)
            (λ p. (p.published ≡ false) × IsTrue (has_block p index)) }
        ensures { self.new ≡ changes_process process (without_block index) self.old }
    {
        if let Some(place) = self.place(u64::from(process)) {
            self.insertions[place].take_back(index);
        }
    }

    /// How many blocks a process holds, and whether its object was published. Then all of its blocks count.
    pub fn status(&self, process: u64) -> Option<(u64, bool)>
        ensures { result
            ≡ option_map (λ p. (present p, p.published)) (value_of nat_cmp self.now.processes process) }
    {
        let place = self.place(process)?;
        Some(self.insertions[place].status())
    }

    /// A copy of the object of a process, if the process holds all blocks of it and it was not published.
    pub fn object(&self, alloc: Global, process: u32) -> Result<Option<Blocks>, AllocError>
        ensures object { IfOk result
            (λ object. object ≡ whole_object (value_of nat_cmp self.now.processes process)) }
        ensures within { IfOk result (λ object. IfSome object IsObject) }
    {
        let Some((name, contents)) = self.whole(process) else {
            return Ok(None);
        };
        let mut copies = Vec::with_capacity(alloc, contents.len())?;
        for content in contents {
            copies.push(content.to_vec(alloc)?)?;
        }
        Ok(Some(Blocks {
            name: name.clone()?,
            contents: copies,
        }))
    }

    /// The name and the blocks of the object of a process, borrowed, not copied, if the process holds all blocks of it
    /// and it was not published. It allocates nothing.
    pub fn whole(&self, process: u32) -> Option<(&Name, &[Vec<u8>])>
        ensures object { MatchOption result
            (whole_object (value_of nat_cmp self.now.processes process) ≡ None)
            (λ lent. whole_object (value_of nat_cmp self.now.processes process)
            ≡ Some (lent_object lent)) }
        ensures within { IfSome result (λ lent. IsObject (lent_object lent)) }
    {
        let place = self.place(u64::from(process))?;
        self.insertions[place].whole()
    }

    /// The object of a process counts as published, and its blocks are dropped. It allocates nothing.
    pub fn published(&mut self, process: u32)
        requires { IsSome (whole_object (value_of nat_cmp self.old.processes process)) }
        ensures { self.new ≡ changes_process process closed self.old }
    {
        let _blocks = self.hand_over(process);
    }

    /// The object of a process counts as published, and its blocks are handed over, in order of index. It allocates
    /// nothing.
    pub fn hand_over(&mut self, process: u32) -> Vec<Vec<u8>>
        requires { IsSome (whole_object (value_of nat_cmp self.old.processes process)) }
        ensures blocks { option_map (λ o. o.contents)
            (whole_object (value_of nat_cmp self.old.processes process))
            ≡ Some (map (λ c. c.items) result.items) }
        ensures back { IfSome (value_of nat_cmp self.old.processes process)
            (λ p. blocks_from p.first (map (λ c. c.items) result.items) ≡ p.blocks) }
        ensures closed { self.new ≡ changes_process process closed self.old }
    {
        let place = self.place(u64::from(process)).unwrap();
        self.insertions[place].close()
    }

    /// The object of a process counts as unpublished again, with these blocks in order of index: for blocks that were
    /// handed over in vain. It allocates nothing.
    pub fn reopen(&mut self, process: u32, contents: Vec<Vec<u8>>)
        requires closed { IsSomeAnd (value_of nat_cmp self.old.processes process)
            (λ p. (p.published ≡ true) × (length contents.items ≡ p.last + 1 - p.first)) }
        requires contents { All (λ c. IsContent c.items) contents.items }
        ensures { self.new
            ≡ changes_process process (reopened (map (λ c. c.items) contents.items)) self.old }
    {
        let place = self.place(u64::from(process)).unwrap();
        self.insertions[place].reopen(contents);
    }

    /// Whether a block of a process would be the last one that is missing. It allocates nothing.
    pub fn completes(&self, process: u32, index: u64) -> bool
        ensures last { (content : List ℕ) → IsContent content
            → result ≡ is_last (block_state self.now.processes process index content) }
        ensures ordered { Rises nat_cmp (keys self.now.processes) }
    {
        match self.place(u64::from(process)) {
            Some(place) => self.insertions[place].completes(index),
            None => false,
        }
    }

    /// Drops all processes. The number that the next process gets stays as it is. It allocates nothing.
    pub fn clear(&mut self)
        ensures { self.new ≡ record self.old { processes = [] } }
    {
        self.insertions.clear();
    }

    // The place of the process of that number, if there is one.
    fn place(&self, process: u64) -> Option<usize>
        ensures { MatchOption result
            (value_of nat_cmp self.now.processes process ≡ None)
            (λ i. option_map (λ p. p.0) (slice_get self.now.processes i) ≡ Some process) }
    {
        let first = self.next - self.insertions.len() as u64;
        if process < first {
            return None;
        }
        if self.next <= process {
            return None;
        }
        Some((process - first) as usize)
    }
}

// What is read of a world.
ghost use Rattle.std.specs.Prelude.{◌≡◌, ◌<◌, ◌≤◌, ℕ, None, length, map, IfOk};
ghost use Rattle.sorted_lists.specs.Range.{numbers_from};
ghost use Rattle.repo_plan.specs.Parts.{part_cmp};
ghost use Rattle.sorted_lists.specs.SortedList.{value_of};
ghost use Rattle.bench_world.specs.Serving.{lossless};
ghost use Rattle.bench_world.specs.Worlds.{state_at};
ghost use Rattle.bench_world.specs.Runs.{IsStep};
ghost use Rattle.bench_world.specs.MemberTotals.{totals_in, HasFewTotals};
ghost use Rattle.bench_world.specs.EventValues.{EventValue, report_value, dump_report};

use super::World;
use crate::event::{EventError, Happened};
use repo_catalog::Entry;
use repo_member::Member;
use repo_plan::Part;
use std::alloc::{AllocError, Global};
use svs_vector::Vector;

impl World {
    /// Which numbers a member knows.
    pub(crate) fn vector(&mut self, m: u32) -> Result<Happened, EventError>
        requires there { m < length self.old.members }
        requires few { self.old.steps < 100000 }
        ensures { IsStep (lossless self.old.keys) (EventValue.Vector m) self.old result self.new }
    {
        let numbers = known(self.alloc, self.members[m as usize].vector())?;
        let members = self.numbered()?;
        self.count();
        Ok(Happened::Vector {
            m,
            members,
            numbers,
        })
    }

    /// What a member's catalogue lists.
    pub(crate) fn catalogue(&mut self, m: u32) -> Result<Happened, EventError>
        requires there { m < length self.old.members }
        requires few { self.old.steps < 100000 }
        ensures { IsStep (lossless self.old.keys) (EventValue.Catalogue m) self.old result self.new }
    {
        let entries = copied(self.alloc, self.member(m).catalogue().entries())?;
        self.count();
        Ok(Happened::Catalogue {
            m,
            count: entries.len() as u64,
            entries,
        })
    }

    /// The counts of sync Interests, deliveries, attempts, parts and octets.
    pub(crate) fn traffic(&mut self) -> Happened
        requires few { self.old.steps < 100000 }
        ensures { IsStep (lossless self.old.keys) EventValue.Traffic self.old (Ok result) self.new }
    {
        let tally = self.tally();
        self.count();
        Happened::Traffic {
            syncs: tally.syncs,
            delivered: tally.delivered,
            attempts: tally.attempts,
            parts: tally.parts,
            octets: tally.octets,
        }
    }

    /// The totals of all catalogues.
    pub(crate) fn summary(&mut self) -> Result<Happened, EventError>
        requires few { self.old.steps < 100000 }
        ensures { IsStep (lossless self.old.keys) EventValue.Summary self.old result self.new }
    {
        let members = self.numbered()?;
        let sums = add_up(self.alloc, self.members.as_slice())?;
        self.count();
        Ok(Happened::Summary {
            members,
            entries: sums.entries,
            segments: sums.segments,
            octets: sums.octets,
        })
    }

    /// Which octets the packet of a part has, if the member holds it.
    pub(crate) fn dump(&mut self, m: u32, p: u32, s: u32, x: u32) -> Result<Happened, EventError>
        requires there { m < length self.old.members }
        requires small { (s < 65536) × (x < 65536) }
        requires few { self.old.steps < 100000 }
        ensures { IsStep (lossless self.old.keys) (EventValue.Dump m p s x) self.old result self.new }
    {
        let part = Part {
            publisher: p,
            seq: s as u16,
            part: x as u16,
        };
        let happened = dumped(self.alloc, m, &self.members[m as usize], part)?;
        self.count();
        Ok(happened)
    }

    // The numbers of the members.
    fn numbered(&self) -> Result<Vec<u32>, AllocError>
        ensures { IfOk result (λ numbers. numbers.items ≡ numbers_from 0 (length self.now.members)) }
    {
        let count = self.members.len() as u32;
        let mut numbers = Vec::with_capacity(self.alloc, count as usize)?;
        for number in 0..count {
            numbers.push(number)?;
        }
        Ok(numbers)
    }
}

// The numbers of a vector.
fn known(alloc: Global, vector: &Vector) -> Result<Vec<u64>, AllocError>
    requires { length vector.now ≤ 16 }
    ensures { IfOk result (λ numbers. numbers.items ≡ vector.now) }
{
    let mut numbers = Vec::with_capacity(alloc, vector.members())?;
    for publisher in 0..vector.members() as u32 {
        numbers.push(u64::from(vector.get(publisher)))?;
    }
    Ok(numbers)
}

// The totals of catalogues, one after another.
#[derive(Drop)]
struct SummaryColumns {
    entries: Vec<u64>,
    segments: Vec<u64>,
    octets: Vec<u64>,
}

// The totals of each member's catalogue.
fn add_up(alloc: Global, members: &[Member]) -> Result<SummaryColumns, AllocError>
    requires { (j : ℕ) → j < length members.now → HasFewTotals (totals_in (state_at members.now j)) }
    ensures entries { IfOk result (λ sums. sums.entries.items ≡ map (λ a. (totals_in a).entries) members.now) }
    ensures segments { IfOk result (λ sums. sums.segments.items ≡ map (λ a. (totals_in a).segments) members.now) }
    ensures octets { IfOk result (λ sums. sums.octets.items ≡ map (λ a. (totals_in a).octets) members.now) }
{
    let mut sums = SummaryColumns {
        entries: Vec::with_capacity(alloc, members.len())?,
        segments: Vec::with_capacity(alloc, members.len())?,
        octets: Vec::with_capacity(alloc, members.len())?,
    };
    for member in members {
        let (entries, segments, octets) = member.catalogue().totals();
        sums.entries.push(u64::from(entries))?;
        sums.segments.push(segments)?;
        sums.octets.push(octets)?;
    }
    Ok(sums)
}

// Copies of entries.
fn copied(alloc: Global, entries: &[Entry]) -> Result<Vec<Entry>, AllocError>
    ensures { IfOk result (λ copies. copies.items ≡ entries.now) }
{
    let mut copies = Vec::with_capacity(alloc, entries.len())?;
    for entry in entries {
        copies.push(entry.clone()?)?;
    }
    Ok(copies)
}

// The report of a packet that a member holds or doesn't.
fn dumped(alloc: Global, m: u32, member: &Member, part: Part) -> Result<Happened, AllocError>
    ensures { IfOk result (λ happened. report_value happened
        ≡ dump_report m (value_of part_cmp member.now.store part)) }
{
    match member.packet(part) {
        Some(octets) => Ok(Happened::DumpHex {
            m,
            octets: octets.to_vec(alloc)?,
        }),
        None => Ok(Happened::DumpNone { m }),
    }
}

ghost use Rattle.std.specs.Prelude.{ℕ, ◌≡◌, ◌+◌, ◌<◌, ◌≤◌, ◌||◌, ◌&&◌, [], true, false, not, length, is_some};
ghost use Rattle.std.specs.Prelude.{IfSome, OnOk};
ghost use Rattle.std.specs.Ordering.{eq_by_cmp};
ghost use Rattle.sorted_lists.specs.SortedList.{IsExact, without_key, last_up_to, first_from};
ghost use Rattle.sorted_lists.specs.Runs.{IsRuns, IsNumberFrom, Number, has, has_number, number_cmp, next, start_at};
ghost use Rattle.sorted_lists.specs.Runs.{end_at};

use crate::sorted_map::SortedMap;
use std::alloc::{AllocError, Global};
use std::marker::Model;

/// A set of numbers, of several things each, with capacity that is reserved beforehand.
///
/// It is kept as runs of numbers that follow one another, which neither overlap nor touch, so that a set of many
/// numbers with few gaps is small. A contract sees the runs, and for how many more there is capacity.
#[derive(Debug, Drop)]
pub struct Runs<P: Ord + Copy> {
    // By a run's first number its last.
    map: SortedMap<(P, u16), (P, u16)>,
}

impl<P: Ord + Copy> Model for Runs<P> {
    ghost use Rattle.sorted_lists.specs.SortedList.{IsExact};
    ghost use Rattle.sorted_lists.specs.Runs.{RunsState, IsRuns};

    ghost Value = { RunsState P };

    ghost view = { λ s. record { runs = s.map.entries; spare = s.map.spare } };

    ghost invariant = { λ s. IsExact P.cmp × IsRuns P.cmp s.map.entries };
}

impl<P: Ord + Copy> Runs<P> {
    /// The empty set, without capacity.
    pub fn new(alloc: Global) -> Runs<P>
        requires { IsExact P.cmp }
        ensures runs { result.runs ≡ [] }
        ensures spare { result.spare ≡ 0 }
    {
        Runs {
            map: SortedMap::new(alloc),
        }
    }

    /// Whether the set has the number. One look-up.
    pub fn contains(&self, number: (P, u16)) -> bool
        ensures { result ≡ has_number P.cmp self.now number }
    {
        holds(&self.map, number)
    }

    /// How many runs there are.
    pub fn count(&self) -> usize
        ensures { result ≡ length self.now.runs }
    {
        self.map.len()
    }

    /// The least number of this thing, from this one on, that the set does not have. One look-up.
    pub fn gap_from(&self, number: (P, u16)) -> u32
        ensures from { number.1 ≤ result }
        ensures gap { has_number P.cmp self.now (number.0, result) ≡ false }
        ensures none_before { (n : ℕ) → number.1 ≤ n → n < result → has_number P.cmp self.now (number.0, n) ≡ true }
    {
        match self.map.last_up_to(number) {
            Some((_, last)) if number.cmp(&last).is_le() => u32::from(last.1) + 1,
            _ => u32::from(number.1),
        }
    }

    /// The least number of this thing, from this one on, that the set has. Two look-ups.
    pub fn number_from(&self, number: (P, u16)) -> Option<u16>
        ensures { IsNumberFrom P.cmp self.now number result }
    {
        if holds(&self.map, number) {
            return Some(number.1);
        }
        match self.map.first_from(number) {
            Some((first, _)) if first.0.cmp(&number.0).is_eq() => Some(first.1),
            _ => None,
        }
    }

    /// Reserves capacity for `n` more runs.
    pub fn reserve(&mut self, n: usize) -> Result<(), AllocError>
        ensures runs { self.new.runs ≡ self.old.runs }
        ensures grows { self.old.spare ≤ self.new.spare }
        ensures room { OnOk result (n ≤ self.new.spare) }
    {
        self.map.reserve(n)
    }

    /// The set has the number from now on.
    pub fn insert(&mut self, number: (P, u16))
        requires { 0 < self.old.spare }
        ensures set { IsRuns P.cmp self.new.runs }
        ensures numbers { (q : Number P) → has_number P.cmp self.new q
            ≡ (eq_by_cmp (number_cmp P.cmp) q number || has_number P.cmp self.old q) }
        ensures spare { self.old.spare ≤ self.new.spare + 1 }
    {
        let Some(first) = start_of(&self.map, number) else {
            return;
        };
        let last = take_end_of(&mut self.map, number);
        self.map.insert(first, last);
    }

    /// The set has no number of the thing from now on. Takes a look-up and a removal for each run of the thing.
    pub fn remove_all(&mut self, thing: P)
        ensures set { IsRuns P.cmp self.new.runs }
        ensures numbers { (q : Number P) → has_number P.cmp self.new q
            ≡ (not (eq_by_cmp P.cmp thing q.0) && has_number P.cmp self.old q) }
        ensures spare { self.old.spare ≤ self.new.spare }
    {
        while let Some((first, _)) = self.map.first_from((thing, 0)) {
            if thing.cmp(&first.0).is_ne() {
                return;
            }
            self.map.remove(first);
        }
    }
}

// Whether the number is in one of the runs.
fn holds<P: Ord + Copy>(runs: &SortedMap<(P, u16), (P, u16)>, number: (P, u16)) -> bool
    requires exact { IsExact P.cmp }
    requires set { IsRuns P.cmp runs.now.entries }
    ensures { result ≡ has (number_cmp P.cmp) runs.now.entries number }
{
    match runs.last_up_to(number) {
        Some((_, last)) => number.cmp(&last).is_le(),
        None => false,
    }
}

// Where the run of the number begins once the set has it, unless it has it already.
fn start_of<P: Ord + Copy>(
    runs: &SortedMap<(P, u16), (P, u16)>,
    number: (P, u16),
) -> Option<(P, u16)>
    requires exact { IsExact P.cmp }
    requires set { IsRuns P.cmp runs.now.entries }
    ensures lacks { is_some result ≡ not (has (number_cmp P.cmp) runs.now.entries number) }
    ensures start { IfSome result (λ first. first
        ≡ start_at (number_cmp P.cmp) next (last_up_to (number_cmp P.cmp) number runs.now.entries) number) }
{
    match runs.last_up_to(number) {
        Some((_, last)) if number.cmp(&last).is_le() => None,
        Some((first, last)) if is_next(last, number) => Some(first),
        _ => Some(number),
    }
}

// Where it ends. A run that begins right after the number is taken out.
fn take_end_of<P: Ord + Copy>(
    runs: &mut SortedMap<(P, u16), (P, u16)>,
    number: (P, u16),
) -> (P, u16)
    requires exact { IsExact P.cmp }
    requires set { IsRuns P.cmp runs.old.entries }
    requires lacks { has (number_cmp P.cmp) runs.old.entries number ≡ false }
    ensures end { result
        ≡ end_at (number_cmp P.cmp) next (first_from (number_cmp P.cmp) number runs.old.entries) number }
    ensures runs { runs.new.entries ≡ without_key (number_cmp P.cmp) (next number) runs.old.entries }
    ensures spare { runs.old.spare ≤ runs.new.spare }
{
    match runs.first_from(number) {
        Some((first, last)) if is_next(number, first) => {
            runs.remove(first);
            last
        }
        _ => number,
    }
}

// Whether the other number is the next of the same thing.
fn is_next<P: Ord + Copy>(number: (P, u16), other: (P, u16)) -> bool
    ensures { result ≡ eq_by_cmp (number_cmp P.cmp) (next number) other }
{
    number.0.cmp(&other.0).is_eq() && u32::from(number.1) + 1 == u32::from(other.1)
}

ghost use Rattle.std.specs.Prelude.{◌≡◌, ◌<◌, ◌↔◌, length, max, not, replicate, slice_index, slice_set, IfOk, IsFalse};
ghost use Rattle.svs_vector.specs.Vectors.{AreNumbers, join, covers};

use std::alloc::{AllocError, Global};
use std::marker::Model;

/// A state vector: the latest sequence number that is known of each member, 0 where nothing is.
///
/// Contracts see it as the list of these numbers. Only its making takes memory.
#[derive(Debug, Drop)]
pub struct Vector {
    numbers: Vec<u16>,
}

impl Model for Vector {
    ghost use Rattle.std.specs.Prelude.{List, ℕ};

    ghost Value = { List ℕ };

    ghost view = { λ v. v.numbers.items };

    ghost use Rattle.svs_vector.specs.Vectors.{AreNumbers};

    // No number takes more than 16 bits.
    ghost invariant = { λ v. AreNumbers v.numbers.items };
}

impl Vector {
    /// The vector of a group of `members` members before anything is known: a zero for each.
    pub fn new(alloc: Global, members: usize) -> Result<Vector, AllocError>
        ensures { IfOk result (λ v. v ≡ replicate members 0) }
    {
        Ok(Vector {
            numbers: vec![in alloc; 0; members]?,
        })
    }

    // The vector of these numbers.
    pub(crate) fn of(alloc: Global, numbers: &[u16]) -> Result<Vector, AllocError>
        ensures { IfOk result (λ v. v ≡ numbers.now) }
    {
        Ok(Vector {
            numbers: numbers.to_vec(alloc)?,
        })
    }

    pub fn copy(&self, alloc: Global) -> Result<Vector, AllocError>
        ensures { IfOk result (λ v. v ≡ self.now) }
    {
        Vector::of(alloc, &self.numbers)
    }

    /// Takes the other's numbers for its own. It allocates nothing.
    pub fn copy_from(&mut self, other: &Vector)
        requires { length self.old ≡ length other.now }
        ensures { self.new ≡ other.now }
    {
        self.numbers.copy_from_slice(&other.numbers);
    }

    /// How many members there are.
    //
    // A caller sees the value alone, so `numbers` states what holds of every vector.
    pub fn members(&self) -> usize
        ensures len { result ≡ length self.now }
        ensures numbers { AreNumbers self.now }
    {
        self.numbers.len()
    }

    pub fn get(&self, member: u32) -> u16
        requires { member < length self.now }
        ensures { result ≡ slice_index self.now member }
    {
        self.numbers[member as usize]
    }

    /// Takes the greater of the member's number and `n`.
    pub fn raise(&mut self, member: u32, n: u16)
        requires { member < length self.old }
        ensures { self.new ≡ slice_set self.old member (max (slice_index self.old member) n) }
    {
        let number = &mut self.numbers[member as usize];
        *number = (*number).max(n);
    }

    /// Takes the greater number in each place, and returns whether anything changed.
    pub fn join(&mut self, other: &Vector) -> bool
        requires { length self.old ≡ length other.now }
        ensures joined { self.new ≡ join self.old other.now }
        ensures width { length self.new ≡ length self.old }
        ensures changed { IsFalse result ↔ (self.new ≡ self.old) }
    {
        take_greater(&mut self.numbers, &other.numbers)
    }

    /// Whether the other has no greater number than this one.
    pub fn covers(&self, other: &Vector) -> bool
        requires { length self.now ≡ length other.now }
        ensures { result ≡ covers self.now other.now }
    {
        has_none_greater(&self.numbers, &other.numbers)
    }
}

#[tactic(auto, unfolding(crate::specs::Vectors::join, crate::specs::Vectors::covers))]
fn take_greater(numbers: &mut [u16], others: &[u16]) -> bool
    requires { length numbers.old ≡ length others.now }
    ensures joined { numbers.new ≡ join numbers.old others.now }
    ensures changed { result ≡ not (covers numbers.old others.now) }
{
    let mut changed = false;
    for (i, other) in others.iter().enumerate() {
        if numbers[i] < *other {
            numbers[i] = *other;
            changed = true;
        }
    }
    changed
}

#[tactic(auto, unfolding(crate::specs::Vectors::covers))]
fn has_none_greater(numbers: &[u16], others: &[u16]) -> bool
    requires { length numbers.now ≡ length others.now }
    ensures { result ≡ covers numbers.now others.now }
{
    for (i, received) in others.iter().enumerate() {
        if numbers[i] < *received {
            return false;
        }
    }
    true
}

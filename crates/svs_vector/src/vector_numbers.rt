ghost use Rattle.std.specs.Prelude.{◌≡◌, ◌<◌, ◌≤◌, length, slice_index, take, IfOk};

use crate::roster::MEMBER_LIMIT;
use crate::vector::Vector;
use std::alloc::{AllocError, Global};
use std::marker::Model;

/// The numbers of a state vector, one a member, as they are read: nothing is allocated for
/// them.
#[derive(Debug, Drop)]
pub struct VectorNumbers {
    // Those after the members' mean nothing.
    numbers: [u16; MEMBER_LIMIT],
    members: usize,
}

// They are seen as the list of the members' numbers.
impl Model for VectorNumbers {
    ghost use Rattle.std.specs.Prelude.{List, ℕ, ◌≤◌, take};
    ghost use Rattle.svs_vector.specs.Format.{member_limit};

    ghost Value = { List ℕ };

    ghost view = { λ t. take t.members t.numbers };

    ghost invariant = { λ t. t.members ≤ member_limit };
}

impl VectorNumbers {
    // The first numbers, one for each of `members` members.
    pub(crate) fn new(numbers: [u16; MEMBER_LIMIT], members: usize) -> VectorNumbers
        requires { members ≤ MEMBER_LIMIT }
        ensures { result ≡ take members numbers }
    {
        VectorNumbers { numbers, members }
    }

    pub fn get(&self, member: u32) -> u16
        requires { member < length self.now }
        ensures { result ≡ slice_index self.now member }
    {
        self.numbers[member as usize]
    }

    /// The vector of these numbers.
    pub fn to_vector(&self, alloc: Global) -> Result<Vector, AllocError>
        ensures { IfOk result (λ v. v ≡ self.now) }
    {
        let (received, _) = self.numbers.split_at(self.members);
        Vector::of(alloc, received)
    }
}

// The numbers of vectors.
ghost use Rattle.std.specs.Prelude.{◌≡◌, ◌≤◌, length, IfOk};

use std::alloc::{AllocError, Global};
use svs_vector::Vector;

/// The numbers of a vector.
pub(crate) fn numbers(alloc: Global, vector: &Vector) -> Result<Vec<u16>, AllocError>
    requires { length vector.now ≤ 16 }
    ensures { IfOk result (λ numbers. numbers.items ≡ vector.now) }
{
    let mut numbers = Vec::with_capacity(alloc, vector.members())?;
    for member in 0..vector.members() as u32 {
        numbers.push(vector.get(member))?;
    }
    Ok(numbers)
}

/// The vector of these numbers.
pub(crate) fn vector_of(alloc: Global, numbers: &[u16]) -> Result<Vector, AllocError>
    requires { length numbers.now ≤ 16 }
    ensures { IfOk result (λ vector. vector ≡ numbers.now) }
{
    let mut vector = Vector::new(alloc, numbers.len())?;
    for (member, number) in numbers.iter().enumerate() {
        vector.raise(member as u32, *number);
    }
    Ok(vector)
}

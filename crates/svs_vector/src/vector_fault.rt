use std::alloc::AllocError;
use thiserror::Error;

/// Why octets are no state vector of a group, or why one was not made.
#[derive(Clone, Copy, Debug, PartialEq, Eq, Error)]
pub enum VectorFault {
    /// The element at this offset, counted from the first octet, breaks the form of a state vector.
    #[error("the element at {at} breaks the state vector")]
    BadVector { at: usize },
    /// A member's number exceeds 65,535.
    #[error("the number {number} of member {member} exceeds 65535")]
    NumberTooLarge { member: u32, number: u64 },
    #[error("out of memory")]
    NoMemory,
}

impl From<AllocError> for VectorFault {
    ghost use Rattle.std.specs.Prelude.{◌≡◌};
    ghost use Rattle.svs_vector.specs.declared.vector_fault.VectorFault.TheVariants.{NoMemory};

    ghost from_gives = { λ _ fault. fault ≡ NoMemory };

    fn from(_: AllocError) -> VectorFault {
        VectorFault::NoMemory
    }
}

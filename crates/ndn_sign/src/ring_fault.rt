use std::alloc::AllocError;
use thiserror::Error;

/// Why a pair was not added to a ring of keys.
#[derive(Clone, Copy, Debug, PartialEq, Eq, Error)]
pub enum RingFault {
    /// The name is there already, as that pair's.
    #[error("the key name is that of pair {number} already")]
    Duplicate { number: u32 },
    #[error("out of memory")]
    NoMemory,
}

impl From<AllocError> for RingFault {
    ghost use Rattle.std.specs.Prelude.{◌≡◌};
    ghost use Rattle.ndn_sign.specs.declared.ring_fault.RingFault.TheVariants.{NoMemory};

    ghost from_gives = { λ _ fault. fault ≡ NoMemory };

    fn from(_: AllocError) -> RingFault {
        RingFault::NoMemory
    }
}

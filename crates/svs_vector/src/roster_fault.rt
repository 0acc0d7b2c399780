use std::alloc::AllocError;
use thiserror::Error;

/// Why a name was not added to a roster.
#[derive(Clone, Copy, Debug, PartialEq, Eq, Error)]
pub enum RosterFault {
    /// The name is that member's already.
    #[error("the name is that of member {member} already")]
    Duplicate { member: u32 },
    /// There are 16 members.
    #[error("there are 16 members already")]
    Full,
    #[error("out of memory")]
    NoMemory,
}

impl From<AllocError> for RosterFault {
    ghost use Rattle.std.specs.Prelude.{◌≡◌};
    ghost use Rattle.svs_vector.specs.declared.roster_fault.RosterFault.TheVariants.{NoMemory};

    ghost from_gives = { λ _ fault. fault ≡ NoMemory };

    fn from(_: AllocError) -> RosterFault {
        RosterFault::NoMemory
    }
}

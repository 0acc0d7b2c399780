use std::alloc::{AllocError, AllocFailed};
use thiserror::Error;

/// Why a line is refused because of earlier lines.
#[derive(Clone, Copy, Debug, PartialEq, Eq, Error)]
pub enum CheckFault {
    #[error("no group yet")]
    NoGroup,
    #[error("a declaration after an event")]
    Late,
    #[error("an unknown label")]
    UnknownLabel,
    #[error("declared before")]
    Duplicate,
    #[error("too many members, clients or mirrors")]
    Limit,
    #[error("a total is passed")]
    TooLarge,
    #[error("out of memory")]
    NoMemory,
}

impl From<AllocError> for CheckFault {
    ghost use Rattle.std.specs.Prelude.{◌≡◌};
    ghost use Rattle.script_lang.specs.declared.check_fault.CheckFault.TheVariants.{NoMemory};

    ghost from_gives = { λ _ e. e ≡ NoMemory };

    fn from(_error: AllocError) -> CheckFault {
        CheckFault::NoMemory
    }
}

impl<T: Drop> From<AllocFailed<T>> for CheckFault {
    ghost use Rattle.std.specs.Prelude.{◌≡◌};
    ghost use Rattle.script_lang.specs.declared.check_fault.CheckFault.TheVariants.{NoMemory};

    ghost from_gives = { λ _ e. e ≡ NoMemory };

    fn from(_error: AllocFailed<T>) -> CheckFault {
        CheckFault::NoMemory
    }
}

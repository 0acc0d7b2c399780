ghost use Rattle.std.specs.Prelude.{◌≡◌};

use std::alloc::{AllocError, AllocFailed};
use thiserror::Error;

/// Why an insertion was not started.
#[derive(Clone, Copy, Debug, PartialEq, Eq, Error)]
pub enum StartFault {
    /// The last number, 4,294,967,295, was given.
    #[error("the numbers of processes are spent")]
    Spent,
    #[error("out of memory")]
    NoMemory,
}

impl StartFault {
    /// The fault as running out of memory: no other is possible where a number is left.
    pub fn only_memory(self) -> AllocError
        requires { self ≡ StartFault.NoMemory }
    {
        AllocError
    }
}

impl From<AllocError> for StartFault {
    ghost use Rattle.std.specs.Prelude.{◌≡◌};
    ghost use Rattle.repo_process.specs.declared.start_fault.StartFault.TheVariants.{NoMemory};

    ghost from_gives = { λ _ fault. fault ≡ NoMemory };

    fn from(_: AllocError) -> StartFault {
        StartFault::NoMemory
    }
}

impl<T: Drop> From<AllocFailed<T>> for StartFault {
    ghost use Rattle.std.specs.Prelude.{◌≡◌};
    ghost use Rattle.repo_process.specs.declared.start_fault.StartFault.TheVariants.{NoMemory};

    ghost from_gives = { λ _ fault. fault ≡ NoMemory };

    fn from(_: AllocFailed<T>) -> StartFault {
        StartFault::NoMemory
    }
}

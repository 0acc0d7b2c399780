ghost use Rattle.std.specs.Prelude.{◌≡◌};
ghost use Rattle.repo_io.specs.declared.read_fault.ReadFault.TheVariants.{Failed, NoMemory};

use crate::failed::Failed as SourceFailed;
use std::alloc::AllocError;

/// Why the input is not there.
#[derive(Clone, Copy, Debug, PartialEq, Eq)]
pub enum ReadFault {
    /// The source failed.
    Failed,
    /// Memory ran out.
    NoMemory,
}

impl From<SourceFailed> for ReadFault {
    ghost from_gives = { λ _ fault. fault ≡ Failed };

    fn from(_failed: SourceFailed) -> ReadFault {
        ReadFault::Failed
    }
}

impl From<AllocError> for ReadFault {
    ghost from_gives = { λ _ fault. fault ≡ NoMemory };

    fn from(_error: AllocError) -> ReadFault {
        ReadFault::NoMemory
    }
}

ghost use Rattle.std.specs.Prelude.{◌≡◌};

use std::alloc::AllocError;
use thiserror::Error;

/// Why a member or a client was not added to a group.
#[derive(Clone, Copy, Debug, PartialEq, Eq, Error)]
pub enum GroupFault {
    /// A member or a client has the name.
    #[error("a member or a client has the name already")]
    Duplicate,
    /// There are 16 members, or 16 clients.
    #[error("there are 16 of its kind already")]
    Full,
    #[error("out of memory")]
    NoMemory,
}

impl GroupFault {
    /// Out of memory: the only fault that a new name can have, where there is a number for it.
    pub fn only_memory(self) -> AllocError
        requires { self ≡ GroupFault.NoMemory }
    {
        AllocError
    }
}

impl From<AllocError> for GroupFault {
    ghost use Rattle.std.specs.Prelude.{◌≡◌};
    ghost use Rattle.repo_member.specs.declared.group_fault.GroupFault.TheVariants.{NoMemory};

    ghost from_gives = { λ _ fault. fault ≡ NoMemory };

    fn from(_: AllocError) -> GroupFault {
        GroupFault::NoMemory
    }
}

ghost use Rattle.std.specs.Prelude.{◌≡◌};

use ndn_tlv::TlvFault;
use std::alloc::{AllocError, AllocFailed};
use thiserror::Error;

/// Why octets or a text are no name (NDN Packet Format 0.3, "Name"), or why a name was not made.
///
/// `at` is the offset of the component's element from the packet's beginning. For a text it is the
/// first octet of the component's text, after its slash.
#[derive(Clone, Copy, Debug, PartialEq, Eq, Error)]
pub enum NameFault {
    #[error("{0}")]
    Tlv(TlvFault),
    /// The component's type exceeds 65,535.
    #[error("the type of the component at {at} exceeds 65535")]
    BadComponent { at: usize },
    /// The component has type 1 or 2, but not 32 octets.
    #[error("the digest at {at} has not 32 octets")]
    BadDigestLength { at: usize },
    /// The value would exceed 1,000 octets.
    #[error("the name exceeds 1000 octets")]
    NameTooLong,
    /// The text begins no URI of a name with its octet at `place`, or ends there too early.
    #[error("the text leaves the form of a name at {place}")]
    BadUri { place: usize },
    #[error("out of memory")]
    NoMemory,
}

impl NameFault {
    /// Running out of memory, which is all that a name within its limit can meet.
    pub fn only_memory(self) -> AllocError
        requires { self ≡ NameFault.NoMemory }
    {
        AllocError
    }
}

impl From<TlvFault> for NameFault {
    ghost use Rattle.std.specs.Prelude.{◌≡◌};
    ghost use Rattle.ndn_name.specs.declared.name_fault.NameFault.TheVariants.{Tlv};

    ghost from_gives = { λ fault e. e ≡ Tlv fault };

    fn from(fault: TlvFault) -> NameFault {
        NameFault::Tlv(fault)
    }
}

impl From<AllocError> for NameFault {
    ghost use Rattle.std.specs.Prelude.{◌≡◌};
    ghost use Rattle.ndn_name.specs.declared.name_fault.NameFault.TheVariants.{NoMemory};

    ghost from_gives = { λ _ e. e ≡ NoMemory };

    fn from(_error: AllocError) -> NameFault {
        NameFault::NoMemory
    }
}

impl<T: Drop> From<AllocFailed<T>> for NameFault {
    ghost use Rattle.std.specs.Prelude.{◌≡◌};
    ghost use Rattle.ndn_name.specs.declared.name_fault.NameFault.TheVariants.{NoMemory};

    ghost from_gives = { λ _ e. e ≡ NoMemory };

    fn from(_error: AllocFailed<T>) -> NameFault {
        NameFault::NoMemory
    }
}

ghost use Rattle.std.specs.Prelude.{◌≡◌};

use ndn_tlv::{FieldError, TlvFault};
use std::alloc::AllocError;
use thiserror::Error;

/// The fields of Interest and Data packets that a fault may name (NDN Packet Format 0.3).
#[derive(Clone, Copy, Debug, PartialEq, Eq)]
pub enum Field {
    Name,
    CanBePrefix,
    MustBeFresh,
    Nonce,
    InterestLifetime,
    HopLimit,
    ParametersDigest,
    MetaInfo,
    ContentType,
    FreshnessPeriod,
    FinalBlockId,
    SignatureInfo,
    SignatureType,
    KeyLocator,
    SignatureValue,
}

/// Why octets are no packet. `at` is an offset from the packet's beginning.
#[derive(Clone, Copy, Debug, PartialEq, Eq, Error)]
pub enum PacketFault {
    #[error("{0}")]
    Tlv(TlvFault),
    /// There are more than 8,800 octets.
    #[error("the packet exceeds 8800 octets")]
    PacketTooLong,
    #[error("the packet has type {typ}")]
    WrongType { typ: u32 },
    /// Octets follow the packet's element.
    #[error("octets follow the packet at {at}")]
    TrailingOctets { at: usize },
    /// An element that must be understood has no place where it stands.
    #[error("the critical element {typ} at {at} has no place there")]
    Critical { typ: u32, at: usize },
    #[error("the field {field:?} is missing")]
    Missing { field: Field },
    /// The field's content breaks its rule.
    #[error("the field {field:?} at {at} breaks its rule")]
    BadField { field: Field, at: usize },
}

impl From<TlvFault> for PacketFault {
    ghost use Rattle.std.specs.Prelude.{◌≡◌};
    ghost use Rattle.ndn_name.specs.declared.fault.PacketFault.TheVariants.{Tlv};

    ghost from_gives = { λ fault e. e ≡ Tlv fault };

    fn from(fault: TlvFault) -> PacketFault {
        PacketFault::Tlv(fault)
    }
}

impl From<FieldError> for PacketFault {
    ghost use Rattle.std.specs.Prelude.{◌≡◌};
    ghost use Rattle.ndn_name.specs.Faults.{packet_fault};

    ghost from_gives = { λ fault e. e ≡ packet_fault fault };

    fn from(fault: FieldError) -> PacketFault {
        match fault {
            FieldError::Tlv(fault) => PacketFault::Tlv(fault),
            FieldError::Critical { typ, at } => PacketFault::Critical { typ, at },
        }
    }
}

/// Why a packet was not written.
#[derive(Clone, Copy, Debug, PartialEq, Eq, Error)]
pub enum PacketWriteFault {
    /// The packet would have `octets` octets, and the most is 8,800.
    #[error("the packet would have {octets} octets")]
    TooLong { octets: usize },
    #[error("out of memory")]
    NoMemory,
}

impl PacketWriteFault {
    /// Running out of memory, which is all that a packet within its limit can meet.
    pub fn only_memory(self) -> AllocError
        requires { self ≡ PacketWriteFault.NoMemory }
    {
        AllocError
    }
}

use ndn_interest::SignatureError;
use ndn_name::PacketFault;
use svs_vector::VectorFault;
use thiserror::Error;

/// Why octets are no sync Interest that a member takes, in the order of the tests.
#[derive(Clone, Copy, Debug, PartialEq, Eq, Error)]
pub enum SyncRefusal {
    /// The octets are no Interest.
    #[error("{0}")]
    Packet(PacketFault),
    /// The name is not the group's, version 2 and a parameters digest.
    #[error("the name is not that of the group's sync Interests")]
    WrongGroup,
    #[error("the Interest is not signed")]
    Unsigned,
    #[error("the parameters digest is not that of the parameters")]
    ParamsDigest,
    /// The Interest is not signed by HMAC with SHA-256, or names no key of the ring.
    #[error("no key of the ring is named")]
    UnknownKey,
    #[error("the signature is not that of the key")]
    BadSignature,
    /// The parameters begin with no state vector, or with one that has too large a number.
    #[error("{0}")]
    Vector(VectorFault),
    #[error("out of memory")]
    NoMemory,
}

impl From<PacketFault> for SyncRefusal {
    ghost use Rattle.std.specs.Prelude.{◌≡◌};
    ghost use Rattle.svs_sync.specs.declared.sync_refusal.SyncRefusal.TheVariants.{Packet};

    ghost from_gives = { λ fault refusal. refusal ≡ Packet fault };

    fn from(fault: PacketFault) -> SyncRefusal {
        SyncRefusal::Packet(fault)
    }
}

impl From<SignatureError> for SyncRefusal {
    ghost use Rattle.std.specs.Prelude.{◌≡◌};
    ghost use Rattle.svs_sync.specs.SyncInterest.{unsigned_as};

    ghost from_gives = { λ refusal as_sync. as_sync ≡ unsigned_as refusal };

    fn from(refusal: SignatureError) -> SyncRefusal {
        match refusal {
            SignatureError::Unsigned => SyncRefusal::Unsigned,
            SignatureError::ParamsDigest => SyncRefusal::ParamsDigest,
            SignatureError::UnknownKey => SyncRefusal::UnknownKey,
            SignatureError::BadSignature => SyncRefusal::BadSignature,
        }
    }
}

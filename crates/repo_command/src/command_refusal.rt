ghost use Rattle.std.specs.Prelude.{◌≡◌, ◌≢◌};
ghost use Rattle.repo_command.specs.StatusCodes.{refusal_code};

use crate::status_codes::{MALFORMED, NOT_VALIDATED};
use ndn_interest::SignatureError;
use ndn_name::PacketFault;
use std::alloc::AllocError;
use thiserror::Error;

/// Why octets are no command that a repository takes, in the order of the tests.
#[derive(Clone, Copy, Debug, PartialEq, Eq, Error)]
pub enum CommandRefusal {
    /// They are no Interest.
    #[error("{0}")]
    Packet(PacketFault),
    /// The name is not the node's, a verb and a parameters digest.
    #[error("the name is not that of a command for this node")]
    OtherName,
    #[error("the Interest is not signed")]
    Unsigned,
    #[error("the parameters digest is not that of the parameters")]
    ParamsDigest,
    /// The Interest is not signed by HMAC with SHA-256, or names no key of the ring.
    #[error("no key of the ring is named")]
    UnknownKey,
    #[error("the signature is not that of the key")]
    BadSignature,
    /// The parameters do not say what the verb needs, or go beyond its limits.
    #[error("the parameters are not those of the verb")]
    BadParameter,
    #[error("out of memory")]
    NoMemory,
}

impl CommandRefusal {
    /// The status code that a repository answers to a command that it refuses. Running out of memory is no refusal of a
    /// command, and is answered by none.
    pub fn status_code(self) -> u16
        requires { self ≢ CommandRefusal.NoMemory }
        ensures { result ≡ refusal_code self }
    {
        match self {
            CommandRefusal::ParamsDigest
            | CommandRefusal::UnknownKey
            | CommandRefusal::BadSignature => NOT_VALIDATED,
            CommandRefusal::Packet(_)
            | CommandRefusal::OtherName
            | CommandRefusal::Unsigned
            | CommandRefusal::BadParameter => MALFORMED,
            CommandRefusal::NoMemory => unreachable!(),
        }
    }
}

impl From<PacketFault> for CommandRefusal {
    ghost use Rattle.std.specs.Prelude.{◌≡◌};
    ghost use Rattle.repo_command.specs.declared.command_refusal.CommandRefusal.TheVariants.{Packet};

    ghost from_gives = { λ fault refusal. refusal ≡ Packet fault };

    fn from(fault: PacketFault) -> CommandRefusal {
        CommandRefusal::Packet(fault)
    }
}

impl From<SignatureError> for CommandRefusal {
    ghost use Rattle.std.specs.Prelude.{◌≡◌};
    ghost use Rattle.repo_command.specs.Refusals.{unsigned_as};

    ghost from_gives = { λ refusal as_command. as_command ≡ unsigned_as refusal };

    fn from(refusal: SignatureError) -> CommandRefusal {
        match refusal {
            SignatureError::Unsigned => CommandRefusal::Unsigned,
            SignatureError::ParamsDigest => CommandRefusal::ParamsDigest,
            SignatureError::UnknownKey => CommandRefusal::UnknownKey,
            SignatureError::BadSignature => CommandRefusal::BadSignature,
        }
    }
}

impl From<AllocError> for CommandRefusal {
    ghost use Rattle.std.specs.Prelude.{◌≡◌};
    ghost use Rattle.repo_command.specs.declared.command_refusal.CommandRefusal.TheVariants.{NoMemory};

    ghost from_gives = { λ _ refusal. refusal ≡ NoMemory };

    fn from(_error: AllocError) -> CommandRefusal {
        CommandRefusal::NoMemory
    }
}

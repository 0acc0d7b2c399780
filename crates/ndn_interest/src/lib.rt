//! Interests of NDN Packet Format 0.3 over lent octets: reading them, which octets are signed, the
//! digest of their parameters, who signed them, and writing them, plain or with parameters and a
//! signature.
//!
//! What is promised of it: `docs/promises/packets.md`.
#![tactic(auto)]

mod interest_fields;
mod interest_view;
mod laws;
mod parameters_digest;
mod signature_error;
mod signer;
mod write;

pub use interest_view::InterestView;
pub use laws::{
    interest_is_spelled, signed_interests_are_complete, signers_are_tested,
    written_interest_has_its_digest, written_interest_has_its_signer, written_interest_is_read,
    written_plain_is_read,
};
pub use signature_error::SignatureError;
pub use signer::signer_of;
pub use write::{write_plain, write_signed};

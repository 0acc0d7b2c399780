//! What Interest and Data packets of NDN Packet Format 0.3 share: the element that a packet is, the
//! numbers and names in its fields, and what it says of its signature.
//!
//! What is promised of it: `docs/promises/packets.md`.
#![tactic(auto)]

mod contents;
mod laws;
mod outer;
mod signature_info;
mod written;

pub use contents::{bad_field, first_element, name_in, number_in};
pub use laws::constants_are_the_definitions;
pub use outer::{PACKET_LIMIT, outer_element};
pub use signature_info::{SIGNATURE_HMAC_WITH_SHA256, SignatureInfo};
pub use written::{
    DIGEST_ELEMENT_LEN, element_len, number_field_len, put_signature_info, signature_info_len,
};

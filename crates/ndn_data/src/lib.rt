//! Data packets of NDN Packet Format 0.3 over lent octets: reading them, which octets are signed,
//! which names they satisfy, and writing them with a signature.
//!
//! What is promised of it: `docs/promises/packets.md`.
#![tactic(auto)]

mod data_fields;
mod data_view;
mod full_name;
mod laws;
mod meta_info;
mod write;

pub use data_view::DataView;
pub use laws::{contents_fit, data_is_spelled, written_data_is_read};
pub use write::write_signed;

//! The packets that a member of a repository group holds, by their parts, and which of them answers
//! an Interest.
//!
//! What is promised of it: `docs/promises/repo_store.md`.
#![tactic(auto)]

mod blocks;
mod index;
mod laws;
mod names;
mod packet_table;
mod settled;
mod store;

pub use laws::{
    different_octets_are_of_parts, dropped_parts_are_gone, got_packets_are_data, put_packet_is_got,
    put_part_is_among_the_parts, satisfying_is_decided, served_packet_is_of_its_part,
    served_part_is_the_least,
};
pub use store::Store;

//! Sync Interests and the suppression of State Vector Sync: how a member announces to the others its
//! state vector, and what it takes from them; when it sends, and when it doesn't because others
//! have sent what it knows.
//!
//! What is promised of it: `docs/promises/svs_sync.md`.
#![tactic(auto)]

mod fired;
mod laws;
mod machine;
mod mode;
mod sync_interest;
mod sync_refusal;

pub use fired::Fired;
pub use laws::{
    made_sync_interests_are_checked, received_vectors_have_all_members, sync_interests_are_tested,
    sync_refusals_are_of_the_octets, what_is_kept_is_the_join,
};
pub use machine::Machine;
pub use mode::Mode;
pub use sync_interest::{check_numbers, check_sync, make_sync};
pub use sync_refusal::SyncRefusal;

//! State vectors of a group whose members are numbered from 0: one sequence number a member, joined by taking the
//! greater number in each place (State Vector Sync).
//!
//! What is promised of it: `docs/promises/svs_vector.md`.
#![tactic(auto)]

mod entry;
mod laws;
mod read;
mod roster;
mod roster_fault;
mod types;
mod vector;
mod vector_fault;
mod vector_laws;
mod vector_numbers;
mod write;

pub use laws::{
    covers_is_nothing_gained, join_is_associative, join_is_commutative, join_is_idempotent,
    join_is_the_least_that_covers_both, join_takes_the_greater, joins_are_the_join_of_all,
    joins_in_any_order_give_the_same,
};
pub use roster::{MEMBER_LIMIT, Roster};
pub use roster_fault::RosterFault;
pub use vector::Vector;
pub use vector_fault::VectorFault;
pub use vector_laws::{
    constants_are_the_formats, entries_are_written_in_canonical_order,
    entries_tell_the_same_in_any_order, state_vectors_tell_their_entries,
    vector_faults_are_of_the_octets, written_vectors_are_read_back,
};
pub use vector_numbers::VectorNumbers;

//! The catalogue of a member: the objects that it published or fetched whole and checked, in order of publisher and
//! number, and found by name too.
//!
//! What is promised of it: `docs/promises/repo_catalog.md`.
#![tactic(auto)]

mod by_name;
mod catalogue;
mod entry;
mod entry_row;
mod entry_totals;
mod laws;
mod merge;
mod name_index;
mod search;

pub use catalogue::Catalogue;
pub use entry::Entry;
pub use laws::{
    added_entries_are_found, entries_added_together_are_found, entries_removed_together_are_gone,
    entries_tell_all_of_a_catalogue, first_named_is_least, removed_entries_are_gone,
};

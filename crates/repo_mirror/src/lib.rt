//! A mirror of a group: it publishes nothing, and fetches only what its pattern accepts. It needs every record of a
//! publisher that it asks, since only the record has the name.
//!
//! What is promised of it: `docs/promises/repo_mirror.md`.
#![tactic(auto)]

mod group_laws;
mod laws;
mod learning;
mod mirror;

pub use group_laws::{
    a_settled_mirror_joins, gathering_gains_those, mirrors_gain_what_comes, mirrors_learn_all,
    mirrors_list_what_is_accepted, mirrors_want_those, settled_mirrors_hold_what_comes,
};
pub use laws::{
    calls_keep_mirrors_sound, calls_take_nothing_from_mirrors, consistent_mirrors_stay_consistent,
    mirrors_are_holders, mirrors_are_the_groups, planned_jobs_can_be_taken,
};
pub use mirror::Mirror;

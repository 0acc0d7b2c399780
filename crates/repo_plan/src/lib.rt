//! The fetch plan of one member of a repository group: which parts of the known publications it holds, which it still
//! wants, and which of those its fetchers claim.
//!
//! What is promised of it: `docs/promises/repo_plan.md`.
#![tactic(auto)]

mod laws;
mod part;
mod plan;
mod shape;

pub use laws::{
    calls_keep_plans_sound, claims_are_wanted_once, least_unclaimed_parts_are_claimed,
    listed_parts_are_wanted_once, parts_are_listed_in_turn, released_parts_can_be_claimed,
    wanted_parts_are_listed,
};
pub use part::Part;
pub use plan::{FetcherBusy, FetcherIdle, HasParts, Plan, least_of_some};
pub use shape::Shape;

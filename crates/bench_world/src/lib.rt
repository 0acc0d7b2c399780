//! All members of a group with what was sent between them, one event at a time.
//!
//! `World` holds the members with their packets and keys; each step is that of the group's model, with the octets that
//! the model leaves out.
//!
//! What is promised of it: `docs/promises/bench_world.md`.
#![tactic(auto)]

mod answering;
mod event;
mod fetch;
mod fetch_all;
mod hearing;
mod holder;
mod issued;
mod laws;
mod lenders;
mod lending;
mod member_fetches;
mod member_fetching;
mod mirror_fetches;
mod mirror_fetching;
mod numbers;
mod others;
mod settling;
mod step;
mod sync_exchange;
mod touched;
mod unsettled;
mod world;

pub use event::{Event, EventError, Happened, StepFault};
pub use laws::{
    a_settle_can_be_made_again, claimed_parts_can_be_answered, workers_make_no_difference,
};
pub use world::{MirrorFault, World};

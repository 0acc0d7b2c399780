//! A live group: members under locks, each with three actors in threads of their own that publish, hear and fetch; and
//! after them a settle, which makes every member's catalogue the join of what all published.
//!
//! What is promised of it: `docs/promises/live_group.md`.
#![tactic(auto)]

mod acting;
mod actor_job;
mod closed_place;
mod ends;
mod gate;
mod handle;
mod jobs;
mod locked_member;
mod opened;
mod run;
mod running;
mod seat;
mod sender;
mod ticketed;

pub use gate::{Gate, OpenGate};
pub use running::run_group;

//! The end of a live group: the rest of each list is published, and a settle of journal events makes every member's
//! catalogue the join of all lists.
//!
//! What is promised of it: `docs/promises/live_settle.md`.
#![tactic(auto)]

mod gather;
mod hearing;
mod ran;
mod ready;
mod settling;

pub use ran::Ran;
pub use settling::settle;

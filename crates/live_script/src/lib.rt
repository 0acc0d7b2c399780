//! The input of a live group: its name, its members, and what these are to publish, tested line by line.
//!
//! What is promised of it: `docs/promises/live_script.md`.
#![tactic(auto)]

mod error;
mod laws;
mod members;
mod script;
mod totals;

pub use error::LineError;
pub use laws::lines_are_judged;
pub use members::Members;
pub use script::Script;

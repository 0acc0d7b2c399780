//! What the actors of a live group do, as the whole list of their calls. Each member has three actors: one publishes
//! the member's list and hears, and two fetch.
//!
//! What is promised of it: `docs/promises/live_actors.md`.
#![tactic(auto)]

mod actor;
mod actors;
mod noted;
mod places;

pub use actor::Actor;
pub use actors::act;
pub use noted::Noted;
pub use places::Places;

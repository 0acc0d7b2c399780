//! A bounded inbox that threads share: each of its ports puts values, and the one mouth takes them. What
//! a port delivers is what it put, in its order, each once.
//!
//! What is promised of it: `docs/promises/live_inbox.md`.
#![tactic(auto)]

mod close;
mod inbox;
mod knowledge;
mod mouth;
mod open;
mod port;
mod rule;
mod steps;

pub use inbox::Inbox;
pub use mouth::Mouth;
pub use port::Port;

//! The network and the random draws of a bench, as values whose answers are functions of what they hold, so that a run
//! can be repeated; and what was sent in one.
//!
//! What is promised of it: `docs/promises/bench_net.md`.
#![tactic(auto)]

mod draws;
mod net;
mod seeded;
mod sent;
mod table_net;
mod tally;

pub use draws::{Draws, FixedDraws};
pub use net::{Net, OpenNet};
pub use seeded::Seeded;
pub use sent::Sent;
pub use table_net::TableNet;
pub use tally::Tally;

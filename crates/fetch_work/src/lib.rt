//! Workers that fetch the parts of jobs in threads, over a board that shares the jobs out.
//!
//! What is promised of it: `docs/promises/fetch_work.md`.
#![tactic(auto)]

mod contents;
mod laws;
mod link;
mod link_trial;
mod outcome;
mod phases;
mod team;
mod trial;
mod turns;
mod worker;

pub use contents::{digest_workers, digests};
pub use laws::phases_are_alike;
pub use link::{Lending, Link, Reply};
pub use outcome::PhaseOutcome;
pub use phases::phase;
pub use worker::Worker;

//! The runs of one script under many seeds: how often what is sent is lost, and what that costs, is drawn by a seed.
//!
//! What is promised of it: `docs/promises/lab_seeds.md`.
#![tactic(auto)]

mod counted;
mod end;
mod figures;
mod input;
mod ranks;
mod running;
mod script_run;
mod seed;
mod text;

pub use running::seeds;
pub use seed::seeded;

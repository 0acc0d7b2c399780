//! A run from a source to a sink: a script is carried out line by line over the world of its group, and its report is
//! written; or octets are inspected; or a script is generated.
//!
//! What is promised of it: `docs/promises/repo_top.md`.
#![tactic(auto)]

mod asked;
mod generator;
mod inspection;
mod laws;
mod running;
mod top;
mod words;

pub use laws::{small_inspections, small_scripts};
pub use repo_io::{Failed, ReadSource, Sink, Source, Status, VecSink, VecSource, WriteSink};
pub use top::run;

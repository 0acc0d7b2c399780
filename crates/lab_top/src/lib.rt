//! The call of the lab: the words of a command line are one of its forms, whose text over the input of a source is
//! written to a sink.
//!
//! What is promised of it: `docs/promises/lab_top.md`.
#![tactic(auto)]

mod asked;
mod laws;
mod top;
mod words;

pub use lab_text::LabStatus;
pub use laws::lint_tells_where_runs_end;
pub use repo_io::{Failed, ReadSource, Sink, Source, VecSink, VecSource, WriteSink};
pub use top::run_lab;

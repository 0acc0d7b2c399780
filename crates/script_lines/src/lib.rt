//! The lines of a script, carried out one by one: each is read, tested against what the lines before it declared, and
//! carried out in the world of its group, and its report is written. The caller can look at the world between lines.
//!
//! What is promised of it: `docs/promises/script_lines.md`.
#![tactic(auto)]

mod accepting;
mod error;
mod event_report;
mod line_events;
mod line_reader;
mod run_state;
mod script;

pub use error::{LineError, put_line_error};
pub use line_reader::{LineReader, Next};
pub use script::Script;

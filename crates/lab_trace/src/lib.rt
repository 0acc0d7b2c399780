//! A form of the lab: the trace of a script, which is its transcript with notes of what each member and each mirror is
//! after a line: its timer, its vector, how many parts it holds and wants, and how many entries it lists.
//!
//! What is promised of it: `docs/promises/lab_trace.md`.
#![tactic(auto)]

mod laws;
mod note;
mod noting;
mod tracing;
mod values;

pub use laws::{a_note_is_of_a_state, a_reader_knows_the_state};
pub use tracing::trace;

//! A run of a live group from a source to a sink: the lines of the input are tested, the group runs in threads, and the
//! journals and catalogues of its members are written.
//!
//! What is promised of it: `docs/promises/live_top.md`.
#![tactic(auto)]

mod input;
mod laws;
mod live_report;
mod top;

pub use laws::{journals_are_printed_whole, publishers_are_members};
pub use top::run_live;

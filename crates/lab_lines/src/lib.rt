//! The lines of a script with notes, carried out one by one for a form of the lab, which says what is written of each:
//! a transcript of the script, or a check of the reports that its notes expect.
//!
//! What is promised of it: `docs/promises/lab_lines.md`.
#![tactic(auto)]

mod carrying;
mod checking;
mod form;
mod laws;
mod over;
mod reading;
mod reading_on;
mod totals;
mod transcribing;

pub use checking::check;
pub use form::Form;
pub use laws::{
    a_transcript_has_the_script, a_transcript_is_its_own_transcript, a_transcript_is_the_same,
};
pub use reading::run_form;
pub use transcribing::transcript;

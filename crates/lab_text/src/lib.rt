//! The texts of the lab: notes in a script, what a transcript writes of a line and its report, and where an expected
//! report differs from the one that came.
//!
//! What is promised of it: `docs/promises/lab_text.md`.
#![tactic(auto)]

mod cutting;
mod difference;
mod laws;
mod limits;
mod note;
mod status;
mod sum;
mod transcript;
mod writing;

pub use cutting::{split_first_line, without_feed};
pub use difference::put_difference;
pub use laws::{
    lines_are_shown_as_they_stand, lines_follow_lines, notes_are_read_back, notes_begin_alike,
    small_texts, the_same_is_equal, transcripts_are_read_back, what_differs_lies_between,
};
pub use limits::{MOST_LINES, MOST_OCTETS};
pub use note::{after_spaces, is_note, is_report_note, note_text, put_note_line};
pub use status::LabStatus;
pub use sum::put_sum;
pub use transcript::{put_line, put_report, shown_text};

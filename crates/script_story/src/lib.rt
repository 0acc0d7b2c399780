//! The run of a script, and what holds of every run. A run is defined line by line, by values: it has
//! no packets, no buffers and no workers.
//!
//! What is promised of it: `docs/promises/script_story.md`.
#![tactic(auto)]

mod ending;
mod headline;
mod laws;

pub use ending::Ending;
pub use headline::{
    a_settle_line_joins, catalogue_lines_show_what_is_held, entries_tell_what_dumps_show,
    held_parts_passed_their_checks, informed_members_join_without_a_settle,
    lines_reach_sound_groups, listed_objects_stay_listed, mirrors_list_what_they_ask_for,
    news_is_announced_once, news_is_announced_whole, printed_catalogues_list_what_is_held,
    printed_labels_are_declared, runs_are_their_lines, settled_catalogues_list_what_was_held,
    workers_make_no_difference,
};
pub use laws::{first_run, small_runs, syntax_is_of_the_grammar};

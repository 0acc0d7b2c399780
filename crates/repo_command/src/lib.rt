//! Commands of the repo protocol and their answers, in this project's profile: what a client asks a repository for by a
//! signed Interest, what a repository takes of it, and what it says to it.
//!
//! What is promised of it: `docs/promises/repo_command.md`.
#![tactic(auto)]

mod answer;
mod answer_fields;
mod command;
mod command_interest;
mod command_refusal;
mod element_types;
mod laws;
mod parameters;
pub mod status_codes;
mod verb;

pub use answer::{Answer, read_answer, write_answer};
pub use command::Command;
pub use command_interest::{KEY_NAME_LIMIT, check_command, make_command};
pub use command_refusal::CommandRefusal;
pub use laws::{
    command_refusals_are_of_the_octets, commands_are_tested, element_types_are_the_profiles,
    made_commands_are_checked, order_tables_are_the_profiles, status_codes_are_the_profiles,
    taken_commands_are_within_limits, written_answers_are_read,
};

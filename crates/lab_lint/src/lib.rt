//! The lines of a script that are refused before anything is carried out, each with the word that is wrong and what was
//! expected there.
//!
//! What is promised of it: `docs/promises/lab_lint.md`.
#![tactic(auto)]

mod columns;
mod expected;
mod finding;
mod labels;
mod linter;
mod linting;

pub use linting::lint;

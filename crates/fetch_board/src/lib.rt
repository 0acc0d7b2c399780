//! A board on which threads claim items of work: an item is held by one seat at a time and finished by one, and none is
//! forgotten.
//!
//! What is promised of it: `docs/promises/fetch_board.md`.
#![tactic(auto)]

mod board;
mod close;
mod outcome;
mod plays;
mod rule;
mod seat;
mod seat_knowledge;
mod taken;
mod turns;
mod word;

pub use board::Board;
pub use outcome::Outcome;
pub use seat::Seat;
pub use taken::{Seen, Taken};
pub use word::Word;

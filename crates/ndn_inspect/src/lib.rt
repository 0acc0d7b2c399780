//! Octets as a text for people: a line for each element of NDN Packet Format 0.3, those inside another one deeper.
//!
//! What is promised of it: `docs/promises/ndn_inspect.md`.
#![tactic(auto)]

mod inspector;
mod laws;
mod line;
mod types;

pub use inspector::inspect;
pub use laws::lines_are_those_of_elements;

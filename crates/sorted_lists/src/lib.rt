//! Maps and sets in order of their keys, with capacity reserved beforehand, so that later changes allocate nothing. A
//! contract sees each as a list in order.
//!
//! What is promised of it: `docs/promises/sorted_lists.md`.
#![tactic(auto)]

mod block;
mod block_map;
mod runs;
mod sorted_map;
pub mod table;

pub use runs::Runs;
pub use sorted_map::SortedMap;

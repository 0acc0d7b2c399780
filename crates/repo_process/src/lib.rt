//! Insertions of objects whose blocks are received one by one (repo protocol): each is a process with a number, which
//! is complete once all of its blocks were received.
//!
//! What is promised of it: `docs/promises/repo_process.md`.
#![tactic(auto)]

mod block_state;
mod blocks;
mod insertion;
mod laws;
mod processes;
mod start_fault;

pub use block_state::BlockState;
pub use blocks::Blocks;
pub use laws::{
    blocks_are_segments, blocks_stay_until_taken_back, complete_processes_have_all_blocks,
};
pub use processes::Processes;
pub use start_fault::StartFault;

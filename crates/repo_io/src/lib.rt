//! Where a run reads and writes: a source of octets and a sink for them, over a reader and a writer or in memory, which
//! count their faults; and what a run answers.
//!
//! What is promised of it: `docs/promises/repo_io.md`.
#![tactic(auto)]

mod failed;
mod laws;
mod read_fault;
mod read_source;
mod reading;
mod sink;
mod source;
mod status;
mod vec_sink;
mod vec_source;
mod write_sink;
mod writing;

pub use failed::Failed;
pub use laws::lines_are_the_input;
pub use read_fault::ReadFault;
pub use read_source::ReadSource;
pub use reading::read_up_to;
pub use sink::Sink;
pub use source::Source;
pub use status::Status;
pub use vec_sink::VecSink;
pub use vec_source::VecSource;
pub use write_sink::WriteSink;
pub use writing::{WriteFault, write_whole};

//! Captures of packets in the classic pcap format, as Wireshark and tshark open them: frames of Ethernet with packets
//! of NDN in them, written one by one and read back.
//!
//! What is promised of it: `docs/promises/lab_capture.md`.
#![tactic(auto)]

mod answers;
mod asking;
mod capturing;
mod fault;
mod frame;
mod frames;
mod gains;
mod held;
mod known;
mod laws;
mod mirrored;
mod reading;
mod replies;
mod station;
mod writing;

pub use capturing::capture;
pub use fault::CaptureFault;
pub use frame::Frame;
pub use laws::{
    answers_are_read_in_reports, arrivals_are_held, captures_are_read_back, sync_frames_were_sent,
};
pub use reading::read_capture;
pub use station::Station;
pub use writing::{put_capture_head, put_frame};

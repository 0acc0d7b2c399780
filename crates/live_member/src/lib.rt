//! A member of a live group as it stands under its lock: what it has, a journal of all that was done with it, and the
//! objects that it is still to publish. The journal replays to the member.
//!
//! What is promised of it: `docs/promises/live_member.md`.
#![tactic(auto)]

mod calls;
mod event;
mod lent;
mod limits;
mod lists;
mod live;
mod octets;
mod told;

pub use event::{LiveEntry, LiveEvent, LiveReply};
pub use lent::Lent;
pub use limits::{OBJECT_LIMIT, PART_LIMIT, are_within_limits, count_parts};
pub use lists::Lists;
pub use live::{Live, NextTold};
pub use octets::Octets;
pub use told::Told;

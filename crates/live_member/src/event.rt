use crate::octets::Octets;
use repo_plan::Part;

/// What was done with a member. Fetchers are numbered from 1.
#[derive(Debug, Drop)]
pub enum LiveEvent {
    /// It published the next object of its list.
    Publish,
    /// It heard a sync Interest.
    Hear { octets: Octets },
    /// A fetcher claimed a part.
    Claim { f: u8 },
    /// A fetcher was given the packet of a part.
    Accept { f: u8, part: Part },
    /// A fetcher's claim ended.
    Lose { f: u8 },
}

/// The reply to a `LiveEvent`.
#[derive(Clone, Copy, Debug, PartialEq, Eq)]
pub enum LiveReply {
    Published { seq: u16 },
    Steady,
    Suppressed,
    Claimed { part: Part },
    NoPart,
    Kept,
    Lost { part: Part },
    /// Nothing changed but the journal.
    Refused,
    /// The journal has no capacity left, and nothing changed.
    Full,
}

/// One entry of a journal.
#[derive(Debug, Drop)]
pub struct LiveEntry {
    pub event: LiveEvent,
    pub reply: LiveReply,
}

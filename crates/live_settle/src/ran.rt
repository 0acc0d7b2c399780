use live_member::LiveEntry;
use repo_member::Member;

/// The journal of a member of a live group, and the member at the end.
#[derive(Drop)]
pub struct Ran {
    pub journal: Vec<LiveEntry>,
    pub member: Member,
}

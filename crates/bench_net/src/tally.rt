/// Counts over a run of a group.
#[derive(Clone, Copy, Debug, PartialEq, Eq, Default)]
pub struct Tally {
    /// The sync Interests that were sent.
    pub syncs: u64,
    /// The deliveries of sync Interests.
    pub delivered: u64,
    /// The attempts at parts.
    pub attempts: u64,
    /// The parts that were fetched.
    pub parts: u64,
    /// The octets that were fetched.
    pub octets: u64,
}

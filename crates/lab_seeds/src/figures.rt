// What a script cost, and its result.
#[derive(Clone, Copy)]
pub(crate) struct Figures {
    // The sync Interests that were sent.
    pub(crate) syncs: u64,
    // The sync Interests that were delivered.
    pub(crate) delivered: u64,
    // The attempts at parts.
    pub(crate) attempts: u64,
    // The parts that were fetched.
    pub(crate) parts: u64,
    // The octets that were fetched.
    pub(crate) octets: u64,
    // The entries that all members' catalogues list.
    pub(crate) listed: u64,
}

// The figures of a script without an event.
pub(crate) const NO_FIGURES: Figures = Figures {
    syncs: 0,
    delivered: 0,
    attempts: 0,
    parts: 0,
    octets: 0,
    listed: 0,
};

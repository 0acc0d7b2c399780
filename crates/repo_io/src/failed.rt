// How often a read or write that signals interrupt is made within one call. A signal each hundredth of a second must
// come for more than two hours before the call fails, and one that can only be interrupted ends the run within seconds.
pub(crate) const TRIES: u32 = 1_000_000;

/// Octets could not be given or taken.
#[derive(Clone, Copy, Debug, PartialEq, Eq)]
pub struct Failed;

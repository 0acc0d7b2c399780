/// Whether a member is steady, or suppressed: it doesn't send its vector as long as others may send it first.
#[derive(Clone, Copy, Debug, PartialEq, Eq)]
pub enum Mode {
    Steady,
    /// A vector was heard that lacks something, so the member is to send soon, unless others do.
    Suppressed,
}

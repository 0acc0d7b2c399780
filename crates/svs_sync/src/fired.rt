/// What a member does when its timer is asked.
#[derive(Clone, Copy, Debug, PartialEq, Eq)]
pub enum Fired {
    /// The deadline hasn't come.
    Early,
    /// Others have sent what this member knows.
    Quiet,
    /// The member sends its vector.
    Send,
}

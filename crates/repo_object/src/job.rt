use crate::want::Want;

/// A want that fetchers try, whose attempts are counted from `base` on.
#[derive(Debug, Drop)]
pub struct Job {
    pub want: Want,
    /// How many attempts were made before.
    pub base: u32,
}

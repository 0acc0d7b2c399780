/// An actor of a member.
#[derive(Clone, Copy, Debug)]
pub enum Actor {
    /// It publishes the member's list, and hears.
    Publish { member: u32 },
    /// It fetches, as fetcher 1 or 2 of the member.
    First { member: u32 },
    Second { member: u32 },
}

/// The result of a claim: the attempt that the seat may now make, or the state of the item.
#[derive(Clone, Copy, Debug, PartialEq, Eq)]
pub enum Taken {
    Yes { attempt: u32 },
    Held,
    Done,
    Spent,
}

/// What an item stands at.
#[derive(Clone, Copy, Debug, PartialEq, Eq)]
pub enum Seen {
    Wanted { attempt: u32 },
    Held { attempt: u32 },
    Done,
    Spent,
}

/// How many lines an input may have, its notes among them.
pub const MOST_LINES: u32 = 1_000_000;

/// How many octets an input may have, its notes among them.
pub const MOST_OCTETS: usize = 300_000_000;

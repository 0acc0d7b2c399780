/// How many octets a script may have.
pub const SCRIPT_LIMIT: usize = 16_777_216;

/// How many lines a script may have. Blank lines and comments count too.
pub const LINES_LIMIT: u32 = 100_000;

/// How many octets a line may have, with its carriage return and without its line feed.
pub const LINE_LIMIT: usize = 32_768;

/// How many members there may be, and how many clients.
pub const MEMBERS_LIMIT: usize = 16;

/// How many mirrors there may be.
pub const MIRRORS_LIMIT: usize = 4;

/// How many octets the contents of all `publish` and `block` lines may have together.
pub const CONTENTS_LIMIT: u64 = 67_108_864;

/// How many parts may be counted over a script: for each `publish` line the record, the index packets and the segments,
/// and one for each `withdraw`, `insert`, `order` and `block` line.
pub const PARTS_LIMIT: u64 = 100_000;

/// How many `settle` lines a script may have.
pub const SETTLES_LIMIT: u64 = 1_000;

// The greatest numbers of octets: in the value of a node's or the group's name, in the value of an object's name, in a
// key, in the packet on a `hear`, `order`, `ask` or `feed` line, and in the content of a segment, of a block and of a
// publication.
pub(crate) const NODE_NAME: u64 = 200;

pub(crate) const OBJECT_NAME: u64 = 400;

pub(crate) const KEY: u64 = 128;

pub(crate) const INJECTION: u64 = 9_000;

pub(crate) const SEGMENT: u32 = 8_000;

pub(crate) const BLOCK: u64 = 8_000;

pub(crate) const CONTENT: u64 = 16_000_000;

// How many segments a publication may have, how many of them a record or an index packet lists, and how many
// blocks an insertion may have.
pub(crate) const SEGMENTS: u64 = 20_000;

pub(crate) const LISTED: u64 = 200;

pub(crate) const BLOCKS: u64 = 200;

// How many fetchers a member has, how many workers share a fetch or a settle, how often a fetch asks for a part, how
// many of a thousand attempts may be lost, and how many milliseconds a line may advance.
pub(crate) const FETCHERS: u32 = 16;

pub(crate) const WORKERS: u32 = 16;

pub(crate) const TRIES: u32 = 16;

pub(crate) const LOSS: u32 = 1_000;

pub(crate) const ADVANCE: u64 = 1_000_000_000;

// The greatest number of a publication, and of a part of one: 20,000 segments stand after 100 index packets.
pub(crate) const NUMBERS: u32 = 65_535;

pub(crate) const LAST_PART: u32 = 20_100;

// The greatest number that a word can be: one of 18 digits.
pub(crate) const ANY: u64 = 999_999_999_999_999_999;

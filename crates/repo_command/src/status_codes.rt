//! The status codes of answers, in this project's profile of the repo protocol.

/// An insertion has begun.
pub const ACCEPTED: u16 = 100;

/// What was asked for is done.
pub const DONE: u16 = 200;

/// Blocks of the insertion are missing.
pub const IN_PROGRESS: u16 = 300;

/// The command is not signed by a client.
pub const NOT_VALIDATED: u16 = 401;

/// The command is not one that can be carried out.
pub const MALFORMED: u16 = 403;

/// There is no such process, or no such object.
pub const NOT_FOUND: u16 = 404;

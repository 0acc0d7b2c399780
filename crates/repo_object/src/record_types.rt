//! The types of the elements of records and index packets that are this project's own.

pub(crate) const SEGMENT_COUNT: u32 = 129;

pub(crate) const DIGEST: u32 = 131;

pub(crate) const WITHDRAWS: u32 = 133;

pub(crate) const INDEX_DIGEST: u32 = 135;

//! The types of the elements of a state vector, in this project's profile of State Vector Sync.

pub(crate) const STATE_VECTOR: u32 = 201;

pub(crate) const STATE_VECTOR_ENTRY: u32 = 202;

pub(crate) const SEQ_NO: u32 = 204;

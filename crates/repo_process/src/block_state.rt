/// How an insertion stands after a block.
#[derive(Clone, Copy, Debug, PartialEq, Eq)]
pub enum BlockState {
    /// There is no such process, or none of its blocks has that index.
    Unknown,
    /// The process has the block, and `missing` other blocks are still missing.
    Kept { missing: u64 },
    /// No block is missing, or the object is published already.
    Complete,
}

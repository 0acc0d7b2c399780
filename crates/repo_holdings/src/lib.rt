//! What is held of a group's publications: the plan of the parts that are held and wanted, the store of their packets,
//! and the catalogue of the objects that are stored whole and not withdrawn, under one invariant.
//!
//! What is promised of it: `docs/promises/repo_holdings.md`.
#![tactic(auto)]

mod changes;
mod contents;
mod holdings;
mod notes;
mod record_summary;

pub use contents::ContentsDigest;
pub use holdings::{Holdings, StoredParent, Taken, Tried, Whole};
pub use record_summary::{Arrival, RecordSummary};

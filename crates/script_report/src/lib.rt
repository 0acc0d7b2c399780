//! The lines of a report: one call for each form of line, which appends exactly its octets or changes
//! nothing. Beside them the reasons for which a line of the input is refused, with their numbers and words.
//!
//! What is promised of it: `docs/promises/script_report.md`.
#![tactic(auto)]

mod commands;
mod ending;
mod events;
mod journal;
mod labels;
mod laws;
mod line;
mod mirrors;
mod packet_lines;
mod parts;
mod piece;
mod readings;
mod refusal;
mod watchers;

pub use commands::{
    put_block_200, put_block_300, put_block_404, put_block_published, put_delete, put_insert,
    put_order, put_status,
};
pub use ending::{REPORT_LIMIT, put_foreign, put_refused};
pub use events::{
    put_advance, put_deliver_steady, put_deliver_suppressed, put_fire_early, put_fire_quiet,
    put_fire_sent, put_publish, put_restart, put_sync, put_withdraw,
};
pub use journal::{
    put_journal, put_journal_claim_none, put_journal_claim_part, put_journal_claim_refused,
    put_journal_feed_kept, put_journal_feed_refused, put_journal_hear_refused,
    put_journal_hear_steady, put_journal_hear_suppressed, put_journal_lose_part,
    put_journal_lose_refused, put_journal_publish,
};
pub use labels::{label, publisher_labels};
pub use laws::limits_are_these;
pub use mirrors::{put_mcatalogue, put_mdeliver, put_mfetch};
pub use packet_lines::{
    put_ask_found, put_ask_none, put_ask_refused, put_dump_hex, put_dump_none, put_hear_refused,
    put_hear_steady, put_hear_suppressed,
};
pub use parts::{
    put_answer_kept, put_answer_none, put_claim_none, put_claim_part, put_feed_kept,
    put_feed_refused, put_fetch, put_lose, put_settle,
};
pub use readings::{put_catalogue, put_summary, put_traffic, put_vector};
pub use refusal::Refusal;
pub use watchers::{put_told, put_watch};

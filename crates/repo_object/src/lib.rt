//! Publications of a repository group as packets: cutting a content into segments, the packets of objects and
//! withdrawals, records and index packets and what they say, the wants of parts, and whether octets pass for a want.
//!
//! What is promised of it: `docs/promises/repo_object.md`.
#![tactic(auto)]

mod body;
mod checked;
mod contents;
mod cutting;
mod digests_view;
mod expected;
mod job;
mod laws;
mod listing_view;
mod name_parts;
mod names;
mod object;
mod packet;
mod packets;
mod part_refusal;
mod record;
mod record_fault;
mod record_fields;
mod record_types;
mod record_view;
mod shown;
mod verdict;
mod want;

pub use checked::{Checked, check_packet, check_part};
pub use cutting::{CutFault, cut};
pub use digests_view::DigestsView;
pub use expected::Expected;
pub use job::Job;
pub use laws::{
    cut_pieces_are_the_content, each_kind_has_its_own_table, index_packets_are_read_so,
    limits_are_the_definitions, names_tell_parts_apart, packets_are_read_back, packets_fit,
    packets_pass_for_their_wants, packets_that_pass_are_the_parts, passing_is_every_check,
    passing_packets_are_asked_for, records_are_read_so, records_are_what_their_fields_say,
    wants_are_plain_interests,
};
pub use listing_view::ListingView;
pub use names::{NODE_NAME_LIMIT, key_name};
pub use object::{
    CONTENT_LIMIT, MOST_LISTED, OBJECT_NAME_LIMIT, Object, SEGMENT_LIMIT, is_object_name,
};
pub use packet::Packet;
pub use packets::{packet_of, packets_of, shared_packets_of, withdrawal_packet};
pub use part_refusal::PartRefusal;
pub use record::{Listing, Record, is_record, read_index, read_record};
pub use record_fault::RecordFault;
pub use record_view::RecordView;
pub use want::{Want, want_index, want_record, want_segment};

//! One member of a repository group: what it published, which parts it holds, wants and fetches, and its catalogue; and
//! the group with its members' and clients' keys.
//!
//! What is promised of it: `docs/promises/repo_member.md`.
#![tactic(auto)]

mod group;
mod group_fault;
mod laws;
mod member;
mod nodes;
mod post;
mod refusals;

pub use group::Group;
pub use group_fault::GroupFault;
pub use laws::{
    calls_keep_members_sound, claimed_parts_are_accepted, claims_differ,
    commands_and_blocks_are_events, consistent_members_store_what_was_published,
    consistently_stored_lasts, fetching_and_inserting_are_the_groups,
    fetching_and_obeying_keep_members_consistent, fetching_is_events,
    held_parts_passed_their_checks, hidden_publications_are_gone, holders_take_what_was_published,
    holders_want_what_was_published, made_orders_are_taken, members_list_what_the_group_says,
    members_want_what_the_group_says, planned_jobs_can_be_taken, publications_last,
    published_packets_pass, publishing_and_syncing_are_events,
    publishing_and_syncing_are_the_groups, publishing_keeps_members_consistent, settles_are_events,
    syncing_keeps_members_consistent, syncs_of_members_are_taken, vectors_only_rise,
};
pub use member::{Answered, Blocked, FetchCounts, Fire, Member, Published};
pub use refusals::{AcceptRefusal, HearRefusal, PublishRefusal, WantFault, WithdrawRefusal};

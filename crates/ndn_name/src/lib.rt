//! Names of NDN Packet Format 0.3: views that borrow a packet's octets, owned names, their
//! canonical order and their URI text, and the faults that packets share.
//!
//! What is promised of it: `docs/promises/ndn_name.md`.
#![tactic(auto)]

mod append;
mod component_view;
mod components;
mod fault;
mod laws;
mod name;
mod name_fault;
mod name_view;
mod order;
mod uri_component;
mod uri_digits;
mod uri_form;
mod uri_print;
mod uri_read;
mod uri_size;
mod uri_value;

pub use component_view::ComponentView;
pub use fault::{Field, PacketFault, PacketWriteFault};
pub use laws::{
    canonical_order_is_of_octets, canonical_order_is_total, encoded_names_are_read,
    equal_octets_are_equal_names, equals_are_in_no_order, limits_are_of_the_format,
    prefixes_come_first, printed_names_are_computed, printed_names_are_read,
    read_names_are_encoded, texts_are_computed, texts_have_one_answer, uris_are_visible,
    worked_texts,
};
pub use name::{NAME_LIMIT, Name, full_name};
pub use name_fault::NameFault;
pub use name_view::NameView;
pub use uri_size::plain_uri_len;

ghost use Rattle.std.specs.Prelude.{◌≡◌, ◌≤◌, length, MatchResult, Ok, Err, IfOk, OnOk};
ghost use Rattle.ndn_tlv.specs.Spelling.{element};
ghost use Rattle.ndn_tlv.specs.Elements.{item, placed};
ghost use Rattle.ndn_packet.specs.Outer.{packet_limit, outer_of};

use crate::contents::first_element;
use ndn_name::PacketFault;
use ndn_tlv::{Element, TlvFault};

/// How many octets a packet may have.
pub const PACKET_LIMIT: usize = 8_800;

/// The element of this type that the octets are.
pub fn outer_element(octets: &[u8], typ: u32) -> Result<Element<'_>, PacketFault>
    ensures read { MatchResult result
        (λ e. outer_of typ octets.now ≡ Ok (item e))
        (λ fault. outer_of typ octets.now ≡ Err fault) }
    ensures whole { IfOk result (λ e. octets.now ≡ element typ e.value.now) }
    ensures placed { IfOk result (λ e. item e ≡ placed 0 typ e.value.now) }
    ensures short { OnOk result (length octets.now ≤ packet_limit) }
{
    if octets.len() > PACKET_LIMIT {
        return Err(PacketFault::PacketTooLong);
    }
    let outer = first_element(TlvFault::Truncated { at: 0 }.into(), octets, 0)?;
    if outer.typ != typ {
        return Err(PacketFault::WrongType { typ: outer.typ });
    }
    if outer.end < octets.len() {
        return Err(PacketFault::TrailingOctets { at: outer.end });
    }
    Ok(outer)
}

ghost use Rattle.std.specs.Prelude.{◌≡◌, ◌+◌, ◌^◌, ◌<◌, ◌≤◌, length, MatchResult, IfOk, Ok, Err};
ghost use Rattle.ndn_tlv.specs.Elements.{item};
ghost use Rattle.ndn_packet.specs.Contents.{first_of, number_in, name_in, fault_of_name};

use ndn_name::{Field, NameFault, NameView, PacketFault};
use ndn_tlv::{Element, Reader, read_number};

/// The fault of a field whose content breaks its rule.
pub fn bad_field(field: Field, element: Element<'_>) -> PacketFault
    ensures { result ≡ PacketFault.BadField field element.entry.start }
{
    PacketFault::BadField {
        field,
        at: element.start,
    }
}

/// The first of the elements that octets at offset `base` of a packet are. Where there is none, the
/// fault is `absent`.
pub fn first_element(
    absent: PacketFault,
    octets: &[u8],
    base: usize,
) -> Result<Element<'_>, PacketFault>
    requires { base + length octets.now < 2 ^ 64 }
    ensures read { MatchResult result
        (λ e. first_of absent base octets.now ≡ Ok (item e))
        (λ fault. first_of absent base octets.now ≡ Err fault) }
    ensures within { IfOk result
        (λ e. e.value_start + length e.value.now ≤ base + length octets.now) }
{
    let Some(first) = Reader::new(octets, base).next()? else {
        return Err(absent);
    };
    Ok(first)
}

/// The number that a field's element holds.
pub fn number_in(field: Field, element: Element<'_>) -> Result<u64, PacketFault>
    ensures { MatchResult result
        (λ n. number_in field (item element.entry) ≡ Ok n)
        (λ fault. number_in field (item element.entry) ≡ Err fault) }
{
    read_number(element.value).ok_or(bad_field(field, element))
}

/// The name that an element's value is. A component that may not be is the fault `bad`.
pub fn name_in<'p>(bad: PacketFault, element: Element<'p>) -> Result<NameView<'p>, PacketFault>
    requires { element.value_start + length element.value.now < 2 ^ 64 }
    ensures { MatchResult result
        (λ name. name_in bad (item element.entry) ≡ Ok name)
        (λ fault. name_in bad (item element.entry) ≡ Err fault) }
{
    match NameView::read(element.value, element.value_start) {
        Ok(name) => Ok(name),
        Err(fault) => Err(fault_of_name(bad, fault)),
    }
}

// The fault of a field that holds a name.
fn fault_of_name(bad: PacketFault, fault: NameFault) -> PacketFault
    ensures { result ≡ fault_of_name bad fault }
{
    match fault {
        NameFault::Tlv(fault) => PacketFault::Tlv(fault),
        _ => bad,
    }
}

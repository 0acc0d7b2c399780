ghost use Rattle.std.specs.Prelude.{◌≡◌, ◌+◌, ◌<◌, ◌≤◌, ◌↔◌, ◌⊎◌, ◌++◌, length, take, IsTrue, IfErr, OnOk, OnErr, Err};
ghost use Rattle.ndn_tlv.specs.Spelling.{element, head, number};

use crate::name::NAME_LIMIT;
use crate::name_fault::NameFault;
use ndn_tlv::head_len;
use std::alloc::AllocError;

// Appends a component to the value of a name, whole or not at all.
pub(crate) fn append_component(
    octets: &mut Vec<u8>,
    typ: u16,
    value: &[u8],
) -> Result<(), NameFault>
    requires typ { 0 < typ }
    requires short { length octets.old.items ≤ NAME_LIMIT }
    ensures ok { OnOk result (octets.new.items ≡ octets.old.items ++ element typ value.now) }
    ensures too_long { (result ≡ Err NameFault.NameTooLong)
        ↔ (NAME_LIMIT < length (octets.old.items ++ element typ value.now)) }
    ensures refused { IfErr result
        (λ fault. (fault ≡ NameFault.NameTooLong) ⊎ (fault ≡ NameFault.NoMemory)) }
    ensures err { OnErr result (octets.new.items ≡ octets.old.items) }
{
    let before = octets.len();
    if !has_room(before, typ, value.len()) {
        return Err(NameFault::NameTooLong);
    }
    if append_parts(octets, typ, value).is_err() {
        octets.truncate(before);
        return Err(NameFault::NoMemory);
    }
    Ok(())
}

// Whether a component of this type whose value has `len` octets fits into a name whose value has `octets`.
fn has_room(octets: usize, typ: u16, len: usize) -> bool
    requires { octets ≤ NAME_LIMIT }
    ensures { IsTrue result ↔ (octets + (length (head typ len) + len) ≤ NAME_LIMIT) }
{
    let room = NAME_LIMIT - octets;
    len <= room && head_len(u32::from(typ), len) <= room - len
}

// Appends the parts of a component that fits into the name, as far as memory goes.
fn append_parts(octets: &mut Vec<u8>, typ: u16, value: &[u8]) -> Result<(), AllocError>
    requires { length value.now ≤ NAME_LIMIT }
    ensures ok { OnOk result (octets.new.items ≡ octets.old.items ++ element typ value.now) }
    ensures prefix { take (length octets.old.items) octets.new.items ≡ octets.old.items }
{
    append_number(octets, typ)?;
    append_number(octets, value.len() as u16)?;
    octets.extend_from_slice(value)
}

// Appends a type or a length in its shortest form.
#[tactic(auto, unfolding(ndn_tlv::specs::Spelling::number))]
fn append_number(octets: &mut Vec<u8>, n: u16) -> Result<(), AllocError>
    ensures ok { OnOk result (octets.new.items ≡ octets.old.items ++ number n) }
    ensures err { OnErr result (octets.new.items ≡ octets.old.items) }
{
    if n < 253 {
        return octets.extend_from_slice(&[n as u8]);
    }
    let [high, low] = n.to_be_bytes();
    octets.extend_from_slice(&[253, high, low])
}

ghost use Rattle.std.specs.Prelude.{◌≡◌, ◌+◌, ◌^◌, ◌<◌, ◌≤◌, ◌++◌, length, take, OnOk, OnErr};
ghost use Rattle.ndn_tlv.specs.Spelling.{head, element};
ghost use Rattle.ndn_tlv.specs.NumberField.{number_field};
ghost use Rattle.ndn_packet.specs.Written.{written_info};

use crate::signature_info::SIGNATURE_HMAC_WITH_SHA256;
use ndn_name::Name;
use ndn_tlv::{Writer, head_len, types};
use std::alloc::AllocError;

/// How many octets an element has whose value is a digest or a mac, and whose type takes one octet.
pub const DIGEST_ELEMENT_LEN: usize = 34;

/// How many octets an element of this type has whose value has `len` octets.
pub fn element_len(typ: u32, len: usize) -> usize
    requires { len + 18 < 2 ^ 64 }
    ensures exact { result ≡ length (head typ len) + len }
    ensures small { result ≤ len + 18 }
{
    head_len(typ, len) + len
}

/// How many octets a number takes as a number field.
pub fn number_field_len(n: u64) -> usize
    ensures exact { result ≡ length (number_field n) }
    ensures small { result ≤ 8 }
{
    match n {
        0..=0xff => 1,
        0x100..=0xffff => 2,
        0x1_0000..=0xffff_ffff => 4,
        _ => 8,
    }
}

// How many octets the element of the signature type has.
const SIGNATURE_TYPE_LEN: usize = 3;

/// How many octets the value of a signature info has that names this key.
pub fn signature_info_len(key_name: &Name) -> usize
    ensures exact { result ≡ length (written_info key_name.now) }
    ensures small { result ≤ 1_100 }
{
    let locator = element_len(types::NAME, key_name.octets().len());
    SIGNATURE_TYPE_LEN + element_len(types::KEY_LOCATOR, locator)
}

/// Appends a signature info in an element of this type: the packet is signed by HMAC with SHA-256
/// under the key of this name.
pub fn put_signature_info(writer: &mut Writer, typ: u32, key_name: &Name) -> Result<(), AllocError>
    requires { 0 < typ }
    ensures ok { OnOk result (writer.new ≡ writer.old ++ element typ (written_info key_name.now)) }
    ensures err { OnErr result (writer.new ≡ writer.old) }
{
    let before = writer.octets().len();
    let put = put_info_parts(writer, typ, key_name);
    if put.is_err() {
        writer.truncate(before);
    }
    put
}

// Appends the parts of a signature info, as far as memory goes.
fn put_info_parts(writer: &mut Writer, typ: u32, key_name: &Name) -> Result<(), AllocError>
    requires { 0 < typ }
    ensures ok { OnOk result (writer.new ≡ writer.old ++ element typ (written_info key_name.now)) }
    ensures prefix { take (length writer.old) writer.new ≡ writer.old }
{
    let name = key_name.octets();
    writer.put_head(typ, signature_info_len(key_name))?;
    writer.put_number(types::SIGNATURE_TYPE, SIGNATURE_HMAC_WITH_SHA256)?;
    writer.put_head(types::KEY_LOCATOR, element_len(types::NAME, name.len()))?;
    writer.put(types::NAME, name)
}

ghost use Rattle.std.specs.Prelude.{◌≡◌, ℕ, ◌+◌, ◌^◌, ◌-◌, ◌<◌, ◌≤◌, [], ◌∷◌, ◌++◌, ◌↔◌, length, min, IfOk, OnOk, Err};
ghost use Rattle.sha2.specs.Sha256.{sha256};
ghost use Rattle.ndn_tlv.specs.Types as standard;
ghost use Rattle.ndn_tlv.specs.Spelling.{head};
ghost use Rattle.ndn_name.specs.Names.{encoding};
ghost use Rattle.ndn_packet.specs.Outer.{packet_limit};
ghost use Rattle.ndn_interest.specs.WrittenInterest.{written_flag, written_plain, written_signed_parameters};
ghost use Rattle.ndn_interest.specs.WrittenInterest.{written_digested, written_interest, with_digest};

use ndn_name::{Name, PacketWriteFault};
use ndn_packet::{
    DIGEST_ELEMENT_LEN, PACKET_LIMIT, element_len, put_signature_info, signature_info_len,
};
use ndn_sign::{digest, hmac};
use ndn_tlv::{Writer, head_len, types};
use std::alloc::{AllocError, Global};

// The type of the component with the parameters digest, as an element's.
const PARAMETERS_DIGEST: u32 = types::PARAMETERS_SHA256_DIGEST_COMPONENT as u32;

/// Writes an Interest of this name, which a Data packet's full name may go on from where
/// `can_be_prefix` says so.
pub fn write_plain(alloc: Global, name: &Name, can_be_prefix: bool) -> Result<Vec<u8>, AllocError>
    requires { 0 < length name.now }
    ensures { IfOk result (λ octets. octets.items ≡ written_plain name.now can_be_prefix) }
{
    let name = name.octets();
    let body = element_len(types::NAME, name.len()) + flag_len(can_be_prefix);
    let mut writer = Writer::with_capacity(alloc, element_len(types::INTEREST, body))?;
    writer.put_head(types::INTEREST, body)?;
    writer.put(types::NAME, name)?;
    put_flag(&mut writer, can_be_prefix)?;
    Ok(writer.finish())
}

// How many octets CanBePrefix has, where that is asked.
fn flag_len(can_be_prefix: bool) -> usize
    ensures exact { result ≡ length (written_flag can_be_prefix) }
    ensures small { result ≤ 18 }
{
    if can_be_prefix {
        return element_len(types::CAN_BE_PREFIX, 0);
    }
    0
}

// Appends CanBePrefix, where that is asked.
fn put_flag(writer: &mut Writer, can_be_prefix: bool) -> Result<(), AllocError>
    ensures { OnOk result (writer.new ≡ writer.old ++ written_flag can_be_prefix) }
{
    if can_be_prefix {
        return writer.put(types::CAN_BE_PREFIX, &[]);
    }
    Ok(())
}

/// Writes an Interest of this name with the parameters digest after it, with these parameters,
/// signed by HMAC with SHA-256 under the key of that name.
///
/// The number of octets that is too large is given up to the greatest `usize`.
pub fn write_signed(
    alloc: Global,
    name: &Name,
    parameters: &[u8],
    key_name: &Name,
    key: &[u8],
) -> Result<Vec<u8>, PacketWriteFault>
    ensures ok { IfOk result
        (λ octets. octets.items ≡ written_interest name.now parameters.now key_name.now key.now) }
    ensures fits { OnOk result
        (length (written_interest name.now parameters.now key_name.now key.now) ≤ packet_limit) }
    ensures too_long { (n : ℕ) → (result ≡ Err (PacketWriteFault.TooLong n))
        ↔ ((packet_limit < length (written_interest name.now parameters.now key_name.now key.now))
        × (n ≡ min (length (written_interest name.now parameters.now key_name.now key.now))
        usize.MAX)) }
{
    let digested = digested_len(parameters, key_name);
    let body = digested.saturating_add(name_len(name));
    let octets = body.saturating_add(head_len(types::INTEREST, body));
    if octets > PACKET_LIMIT {
        return Err(PacketWriteFault::TooLong { octets });
    }
    match write_parts(alloc, name, parameters, key_name, key) {
        Ok(packet) => Ok(packet),
        Err(_) => Err(PacketWriteFault::NoMemory),
    }
}

// How many octets the element of the name with its parameters digest has.
fn name_len(name: &Name) -> usize
    ensures exact { result
        ≡ length (head standard.Name (length (encoding name.now) + 34))
        + (length (encoding name.now) + 34) }
    ensures small { result ≤ 1_100 }
{
    element_len(types::NAME, name.octets().len() + DIGEST_ELEMENT_LEN)
}

// How many octets what the parameters digest is of has, up to the greatest `usize`.
fn digested_len(parameters: &[u8], key_name: &Name) -> usize
    ensures { result
        ≡ min (length (written_signed_parameters parameters.now key_name.now) + 34) usize.MAX }
{
    let info = element_len(types::INTEREST_SIGNATURE_INFO, signature_info_len(key_name));
    let around = info + DIGEST_ELEMENT_LEN;
    let len = parameters.len();
    len.saturating_add(around + head_len(types::APPLICATION_PARAMETERS, len))
}

// The Interest, signed.
fn write_parts(
    alloc: Global,
    name: &Name,
    parameters: &[u8],
    key_name: &Name,
    key: &[u8],
) -> Result<Vec<u8>, AllocError>
    requires { length (written_signed_parameters parameters.now key_name.now) + 34 ≤ packet_limit }
    ensures { IfOk result
        (λ octets. octets.items ≡ written_interest name.now parameters.now key_name.now key.now) }
{
    let digested = digested(alloc, name, parameters, key_name, key)?;
    with_digest(alloc, name, digested.octets())
}

// Parameters and signature, which the parameters digest is of.
fn digested(
    alloc: Global,
    name: &Name,
    parameters: &[u8],
    key_name: &Name,
    key: &[u8],
) -> Result<Writer, AllocError>
    ensures { IfOk result
        (λ writer. writer ≡ written_digested name.now parameters.now key_name.now key.now) }
{
    let mut writer = Writer::with_capacity(alloc, digested_len(parameters, key_name))?;
    writer.put(types::APPLICATION_PARAMETERS, parameters)?;
    put_signature_info(&mut writer, types::INTEREST_SIGNATURE_INFO, key_name)?;
    let mac = hmac(key, name.octets(), writer.octets());
    writer.put(types::INTEREST_SIGNATURE_VALUE, &mac)?;
    Ok(writer)
}

// The Interest of these parameters and signature.
fn with_digest(alloc: Global, name: &Name, digested: &[u8]) -> Result<Vec<u8>, AllocError>
    requires { length digested.now ≤ packet_limit }
    ensures { IfOk result (λ octets. octets.items ≡ with_digest name.now digested.now) }
{
    let components = name.octets();
    let len = components.len() + DIGEST_ELEMENT_LEN;
    let body = element_len(types::NAME, len) + digested.len();
    let mut writer = Writer::with_capacity(alloc, element_len(types::INTEREST, body))?;
    writer.put_head(types::INTEREST, body)?;
    writer.put_head(types::NAME, len)?;
    writer.put_octets(components)?;
    writer.put(PARAMETERS_DIGEST, &digest(digested))?;
    writer.put_octets(digested)?;
    Ok(writer.finish())
}

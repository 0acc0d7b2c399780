ghost use Rattle.std.specs.Prelude.{◌≡◌, ℕ, ◌+◌, ◌^◌, ◌-◌, ◌<◌, ◌≤◌, ◌++◌, ◌↔◌, length, min, IfOk, OnOk, Err};
ghost use Rattle.ndn_packet.specs.Outer.{packet_limit};
ghost use Rattle.ndn_data.specs.WrittenData.{final_block, written_meta, written_data, unsigned, signed};

use ndn_name::{Name, PacketWriteFault};
use ndn_packet::{
    DIGEST_ELEMENT_LEN, PACKET_LIMIT, element_len, number_field_len, put_signature_info,
    signature_info_len,
};
use ndn_sign::hmac;
use ndn_tlv::{Writer, head_len, types};
use std::alloc::{AllocError, Global};

// The type of the component that names a segment, as an element's.
const SEGMENT: u32 = types::SEGMENT_NAME_COMPONENT as u32;

// A packet before it is signed.
#[derive(Clone, Copy)]
struct Unsigned<'a> {
    name: &'a Name,
    last: Option<u64>,
    content: &'a [u8],
    key_name: &'a Name,
}

/// Writes a Data packet of this name and content, and where it is given the number of the object's
/// last segment, signed by HMAC with SHA-256 under the key of that name.
///
/// The number of octets that is too large is given up to the greatest `usize`.
pub fn write_signed(
    alloc: Global,
    name: &Name,
    last: Option<u64>,
    content: &[u8],
    key_name: &Name,
    key: &[u8],
) -> Result<Vec<u8>, PacketWriteFault>
    ensures ok { IfOk result
        (λ octets. octets.items ≡ written_data name.now last content.now key_name.now key.now) }
    ensures fits { OnOk result
        (length (written_data name.now last content.now key_name.now key.now) ≤ packet_limit) }
    ensures too_long { (n : ℕ) → (result ≡ Err (PacketWriteFault.TooLong n))
        ↔ ((packet_limit < length (written_data name.now last content.now key_name.now key.now))
        × (n ≡ min (length (written_data name.now last content.now key_name.now key.now))
        usize.MAX)) }
{
    let unsigned = Unsigned {
        name,
        last,
        content,
        key_name,
    };
    let body = unsigned.body_len();
    let octets = body.saturating_add(head_len(types::DATA, body));
    if octets > PACKET_LIMIT {
        return Err(PacketWriteFault::TooLong { octets });
    }
    match unsigned.write(alloc, body, key) {
        Ok(packet) => Ok(packet),
        Err(_) => Err(PacketWriteFault::NoMemory),
    }
}

impl Unsigned<'_> {
    // How many octets the value of the packet's element has, with the signature.
    fn body_len(&self) -> usize
        ensures { result ≡ min (length (unsigned self.now) + 34) usize.MAX }
    {
        let around = element_len(types::NAME, self.name.octets().len())
            + meta_len(self.last)
            + element_len(types::SIGNATURE_INFO, signature_info_len(self.key_name))
            + DIGEST_ELEMENT_LEN;
        let content = self.content.len();
        content.saturating_add(around + head_len(types::CONTENT, content))
    }

    // The packet, signed. Its element's value has `body` octets.
    fn write(&self, alloc: Global, body: usize, key: &[u8]) -> Result<Vec<u8>, AllocError>
        requires long { body ≡ length (unsigned self.now) + 34 }
        requires short { body ≤ packet_limit }
        ensures { IfOk result (λ octets. octets.items ≡ signed (unsigned self.now) key.now) }
    {
        let mut writer = Writer::with_capacity(alloc, element_len(types::DATA, body))?;
        writer.put_head(types::DATA, body)?;
        let head = writer.octets().len();
        self.put(&mut writer)?;
        let (_, portion) = writer.octets().split_at(head);
        let mac = hmac(key, portion, &[]);
        writer.put(types::SIGNATURE_VALUE, &mac)?;
        Ok(writer.finish())
    }

    // Appends the fields that are signed.
    fn put(&self, writer: &mut Writer) -> Result<(), AllocError>
        ensures { OnOk result (writer.new ≡ writer.old ++ unsigned self.now) }
    {
        writer.put(types::NAME, self.name.octets())?;
        put_meta(writer, self.last)?;
        writer.put(types::CONTENT, self.content)?;
        put_signature_info(writer, types::SIGNATURE_INFO, self.key_name)
    }
}

// How many octets the meta info has.
fn meta_len(last: Option<u64>) -> usize
    ensures exact { result ≡ length (written_meta last) }
    ensures small { result ≤ 100 }
{
    match last {
        None => 0,
        Some(last) => element_len(types::META_INFO, final_block_len(last)),
    }
}

// How many octets the FinalBlockId of a last segment of this number has.
fn final_block_len(last: u64) -> usize
    ensures exact { result ≡ length (final_block last) }
    ensures small { result ≤ 80 }
{
    let component = element_len(SEGMENT, number_field_len(last));
    element_len(types::FINAL_BLOCK_ID, component)
}

// Appends the meta info, if there is one.
fn put_meta(writer: &mut Writer, last: Option<u64>) -> Result<(), AllocError>
    ensures { OnOk result (writer.new ≡ writer.old ++ written_meta last) }
{
    let Some(last) = last else {
        return Ok(());
    };
    let component = element_len(SEGMENT, number_field_len(last));
    writer.put_head(types::META_INFO, final_block_len(last))?;
    writer.put_head(types::FINAL_BLOCK_ID, component)?;
    writer.put_number(SEGMENT, last)
}

// The contents of records and index packets.
ghost use Rattle.std.specs.Prelude.{◌≡◌, ◌≤◌, ◌<◌, ◌++◌, length, IfOk, OnOk};
ghost use Rattle.std.specs.List.{flat_map};
ghost use Rattle.ndn_tlv.specs.Spelling.{element};
ghost use Rattle.repo_object.specs.Limits.{segment_limit};
ghost use Rattle.repo_object.specs.Publication.{record_content, index_content, digest_type};
ghost use Rattle.repo_object.specs.Publication.RecordSays.{WithdrawsNumber};
ghost use Rattle.repo_object.specs.Records.{listed_record};

use crate::record_types;
use ndn_name::Name;
use ndn_packet::{DIGEST_ELEMENT_LEN, element_len};
use ndn_tlv::{Writer, types};
use repo_plan::Shape;
use std::alloc::{AllocError, Global};

// The content of the record of an object of this name and of `segments` segments, which lists these digests.
pub(crate) fn listing_content(
    alloc: Global,
    name: &Name,
    segments: u16,
    digests: &[[u8; 32]],
) -> Result<Vec<u8>, AllocError>
    requires few { segments ≤ segment_limit }
    requires listed { length digests.now ≤ segment_limit }
    ensures { IfOk result (λ content. content.items
        ≡ record_content (listed_record name.now segments digests.now)) }
{
    let octets = name.octets();
    let room = element_len(types::NAME, octets.len()) + DIGEST_ELEMENT_LEN * (1 + digests.len());
    let mut writer = Writer::with_capacity(alloc, room)?;
    writer.put(types::NAME, octets)?;
    writer.put_number(record_types::SEGMENT_COUNT, u64::from(segments))?;
    put_digests(&mut writer, digest_type(segments), digests)?;
    Ok(writer.finish())
}

// The content of an index packet that lists these digests.
pub(crate) fn index_content(alloc: Global, digests: &[[u8; 32]]) -> Result<Vec<u8>, AllocError>
    requires { length digests.now ≤ segment_limit }
    ensures { IfOk result (λ content. content.items ≡ index_content digests.now) }
{
    let mut writer = Writer::with_capacity(alloc, DIGEST_ELEMENT_LEN * digests.len())?;
    put_digests(&mut writer, record_types::DIGEST, digests)?;
    Ok(writer.finish())
}

// The content of the record that withdraws the publication of number `withdrawn`.
pub(crate) fn withdrawal_content(alloc: Global, withdrawn: u16) -> Result<Vec<u8>, AllocError>
    ensures { IfOk result (λ content. content.items ≡ record_content (WithdrawsNumber withdrawn)) }
{
    let mut writer = Writer::new(alloc);
    writer.put_number(record_types::WITHDRAWS, u64::from(withdrawn))?;
    Ok(writer.finish())
}

// The type of the elements in which the record of an object of `segments` segments lists digests.
fn digest_type(segments: u16) -> u32
    requires { segments ≤ segment_limit }
    ensures same { result ≡ digest_type segments }
    ensures some { 0 < result }
{
    if Shape::of(segments).index == 0 {
        return record_types::DIGEST;
    }
    record_types::INDEX_DIGEST
}

// Appends these digests, each in an element of this type.
fn put_digests(writer: &mut Writer, typ: u32, digests: &[[u8; 32]]) -> Result<(), AllocError>
    requires { 0 < typ }
    ensures { OnOk result (writer.new ≡ writer.old ++ flat_map (element typ) digests.now) }
{
    for digest in digests {
        writer.put(typ, digest)?;
    }
    Ok(())
}

ghost use Rattle.std.specs.Prelude.{◌≡◌, ◌+◌, ◌-◌, ◌*◌, ◌≤◌, ◌<◌, [], ◌∷◌, ◌++◌, length, map};
ghost use Rattle.std.specs.Prelude.{option_map, slice_get, IsOk, IfOk, None, if◌then◌else◌};
ghost use Rattle.std.specs.List.{All};
ghost use Rattle.sha2.specs.Sha256.{sha256};
ghost use Rattle.ndn_name.specs.Names.{encoding};
ghost use Rattle.ndn_packet.specs.Outer.{packet_limit};
ghost use Rattle.ndn_data.specs.Data.{data_of};
ghost use Rattle.ndn_data.specs.WrittenData.{written_data};
ghost use Rattle.repo_plan.specs.Parts.{most_listed, index_packets, shape_of_segments};
ghost use Rattle.repo_object.specs.Limits.{node_name_limit, object_name_limit, segment_limit, content_limit};
ghost use Rattle.repo_object.specs.Objects.{publisher, IsContent};
ghost use Rattle.repo_object.specs.Objects.Post.{Offers, Withdraws};
ghost use Rattle.repo_object.specs.Publication.{packets, packet_at, record_content, index_content};
ghost use Rattle.repo_object.specs.Publication.{index_contents, segment_packet, segment_packets_from, packets_under};
ghost use Rattle.repo_object.specs.Publication.{listed_by, is_indexed, count_listed};
ghost use Rattle.repo_object.specs.Records.{listed_record};

use crate::contents::{index_content, listing_content, withdrawal_content};
use crate::names::{key_name, record_name, segment_name};
use crate::object::{MOST_LISTED, Object};
use crate::packet::Packet;
use ndn_data::write_signed;
use ndn_name::{Name, PacketWriteFault};
use repo_plan::Shape;
use std::alloc::{AllocError, Global};

/// The packets of an object as publication `seq` of `node` in `group`, signed with the node's key: the record, the
/// index packets, and the segments, each kind in order.
pub fn packets_of(
    alloc: Global,
    object: &Object,
    seq: u16,
    node: &Name,
    group: &Name,
    key: &[u8],
) -> Result<Vec<Vec<u8>>, AllocError>
    requires node { length (encoding node.now) ≤ node_name_limit }
    requires group { length (encoding group.now) ≤ node_name_limit }
    ensures { IfOk result (λ made. map (λ packet. packet.items) made.items
        ≡ packets (publisher node.now group.now key.now) seq (Offers object.now)) }
{
    octets_of(
        alloc,
        &shared_packets_of(alloc, object, seq, node, group, key)?,
    )
}

/// The packets of an object's publication, as [`packets_of`] gives them, as packets that can be shared and have their
/// digests: the record and the index packets list digests of others.
pub fn shared_packets_of(
    alloc: Global,
    object: &Object,
    seq: u16,
    node: &Name,
    group: &Name,
    key: &[u8],
) -> Result<Vec<Packet>, AllocError>
    requires node { length (encoding node.now) ≤ node_name_limit }
    requires group { length (encoding group.now) ≤ node_name_limit }
    ensures { IfOk result (λ made. made.items
        ≡ packets (publisher node.now group.now key.now) seq (Offers object.now)) }
{
    let (record, mut indexes, mut segments) = made(alloc, object, seq, node, group, key)?;
    let mut packets = Vec::with_capacity(alloc, 1 + indexes.len() + segments.len())?;
    packets.push(Packet::new(alloc, record, None)?)?;
    packets.append(&mut indexes)?;
    packets.append(&mut segments)?;
    Ok(packets)
}

/// The packet of part `part`, counted from 0, of the publication whose packets [`packets_of`] gives, or `None` if it
/// has no such part.
///
/// A segment's packet is made alone. For an index packet the segments that it lists are made too, and for the record
/// all other packets.
pub fn packet_of(
    alloc: Global,
    object: &Object,
    seq: u16,
    part: u16,
    node: &Name,
    group: &Name,
    key: &[u8],
) -> Result<Option<Vec<u8>>, AllocError>
    requires node { length (encoding node.now) ≤ node_name_limit }
    requires group { length (encoding group.now) ≤ node_name_limit }
    ensures { IfOk result (λ packet. option_map (λ p. p.items) packet
        ≡ packet_at (publisher node.now group.now key.now) seq (Offers object.now) part) }
{
    let Some(after) = part.checked_sub(1) else {
        let (record, _, _) = made(alloc, object, seq, node, group, key)?;
        return Ok(Some(record));
    };
    let shape = Shape::of(object.contents().len() as u16);
    let key_name = key_name(node)?;
    let Some(i) = after.checked_sub(shape.index) else {
        let name = record_name(node, group, seq)?;
        let packet = index_alone(alloc, object, &name, shape, after, &key_name, key)?;
        return Ok(Some(packet));
    };
    segment_alone(alloc, object, i, &key_name, key)
}

/// The packet of the record that withdraws publication `withdrawn` of `node` in `group`, signed with the node's key. It
/// is the only packet of the node's publication `seq`.
pub fn withdrawal_packet(
    alloc: Global,
    withdrawn: u16,
    seq: u16,
    node: &Name,
    group: &Name,
    key: &[u8],
) -> Result<Vec<u8>, AllocError>
    requires some { 0 < withdrawn }
    requires earlier { withdrawn < seq }
    requires node { length (encoding node.now) ≤ node_name_limit }
    requires group { length (encoding group.now) ≤ node_name_limit }
    ensures made { IfOk result (λ packet. packet.items ∷ []
        ≡ packets (publisher node.now group.now key.now) seq (Withdraws withdrawn)) }
    ensures data { IfOk result (λ packet. IsOk (data_of packet.items)) }
{
    let content = withdrawal_content(alloc, withdrawn)?;
    let name = record_name(node, group, seq)?;
    let key_name = key_name(node)?;
    write_packet(alloc, &name, None, &content, &key_name, key)
}

// All packets of an object's publication: the record, the index packets and the segments.
fn made(
    alloc: Global,
    object: &Object,
    seq: u16,
    node: &Name,
    group: &Name,
    key: &[u8],
) -> Result<(Vec<u8>, Vec<Packet>, Vec<Packet>), AllocError>
    requires node { length (encoding node.now) ≤ node_name_limit }
    requires group { length (encoding group.now) ≤ node_name_limit }
    ensures made { IfOk result (λ made. made.0.items ∷ (made.1.items ++ made.2.items)
        ≡ packets (publisher node.now group.now key.now) seq (Offers object.now)) }
    ensures data { IfOk result (λ made. IsOk (data_of made.0.items)) }
{
    let key_name = key_name(node)?;
    let name = record_name(node, group, seq)?;
    let contents = object.contents();
    let count = contents.len() as u16;
    let last = count.saturating_sub(1);
    let segments = segments_from(alloc, object.name(), last, 0, contents, &key_name, key)?;
    let indexes = index_packets(alloc, &name, &segments, &key_name, key)?;
    let digests = digests_of(alloc, listed(&segments, &indexes))?;
    let record = listing_packet(alloc, &name, object.name(), count, &digests, &key_name, key)?;
    Ok((record, indexes, segments))
}

// The packets that the record lists: the index packets if there are any, and else the segments.
fn listed<'m>(segments: &'m [Packet], indexes: &'m [Packet]) -> &'m [Packet]
    requires { length indexes.now ≡ index_packets (length segments.now) }
    ensures same { result.now ≡ (if is_indexed (length segments.now) then indexes.now else segments.now) }
    ensures count { length result.now ≡ count_listed (length segments.now) }
{
    if indexes.is_empty() {
        return segments;
    }
    indexes
}

// The octets of packets, copied.
fn octets_of(alloc: Global, packets: &[Packet]) -> Result<Vec<Vec<u8>>, AllocError>
    ensures { IfOk result (λ copied. map (λ octets. octets.items) copied.items ≡ packets.now) }
{
    let mut copied = Vec::with_capacity(alloc, packets.len())?;
    for packet in packets {
        copied.push(packet.octets().to_vec(alloc)?)?;
    }
    Ok(copied)
}

// The digests of packets.
fn digests_of(alloc: Global, packets: &[Packet]) -> Result<Vec<[u8; 32]>, AllocError>
    ensures { IfOk result (λ digests. digests.items ≡ map sha256 packets.now) }
{
    let mut digests = Vec::with_capacity(alloc, packets.len())?;
    for packet in packets {
        digests.push(packet.digest())?;
    }
    Ok(digests)
}

// The packets of the segments from number `first` on, which have these contents, of an object of this name whose last
// segment has number `last`.
fn segments_from(
    alloc: Global,
    name: &Name,
    last: u16,
    first: u16,
    contents: &[Vec<u8>],
    key_name: &Name,
    key: &[u8],
) -> Result<Vec<Packet>, AllocError>
    requires name { length (encoding name.now) ≤ object_name_limit }
    requires last { last < segment_limit }
    requires numbers { first + length contents.now ≤ segment_limit }
    requires contents { All (λ c. IsContent c.items) contents.now }
    requires key_name { length (encoding key_name.now) ≤ 205 }
    ensures made { IfOk result (λ made. made.items ≡ segment_packets_from key_name.now key.now name.now last first
        (map (λ c. c.items) contents.now)) }
    ensures count { IfOk result (λ made. length made.items ≡ length contents.now) }
{
    let mut packets = Vec::with_capacity(alloc, contents.len())?;
    for (i, content) in contents.iter().enumerate() {
        let number = first + i as u16;
        let octets = numbered_packet(alloc, name, last, number, content, key_name, key)?;
        let packet = Packet::new(alloc, octets, None)?;
        packets.push(packet)?;
    }
    Ok(packets)
}

// The index packets under the record's name `name` that list the packets `segments`.
fn index_packets(
    alloc: Global,
    name: &Name,
    segments: &[Packet],
    key_name: &Name,
    key: &[u8],
) -> Result<Vec<Packet>, AllocError>
    requires name { length (encoding name.now) ≤ 404 }
    requires few { length segments.now ≤ segment_limit }
    requires key_name { length (encoding key_name.now) ≤ 205 }
    ensures made { IfOk result (λ made. made.items
        ≡ packets_under key_name.now key.now name.now (index_contents segments.now)) }
    ensures count { IfOk result (λ made. length made.items ≡ index_packets (length segments.now)) }
{
    let count = Shape::of(segments.len() as u16).index;
    let last = count.saturating_sub(1);
    let mut packets = Vec::with_capacity(alloc, usize::from(count))?;
    for k in 0..count {
        let octets = index_packet(alloc, name, last, k, listed_by(segments, k), key_name, key)?;
        let packet = Packet::new(alloc, octets, None)?;
        packets.push(packet)?;
    }
    Ok(packets)
}

// Index packet `k` of an object's publication. Of the segments, only those that it lists are made for it.
fn index_alone(
    alloc: Global,
    object: &Object,
    name: &Name,
    shape: Shape,
    k: u16,
    key_name: &Name,
    key: &[u8],
) -> Result<Vec<u8>, AllocError>
    requires name { length (encoding name.now) ≤ 404 }
    requires shape { shape ≡ shape_of_segments (length object.now.contents) }
    requires index { k < shape.index }
    requires key_name { length (encoding key_name.now) ≤ 205 }
    ensures { IfOk result (λ packet. packet.items ≡ segment_packet key_name.now key.now name.now (shape.index - 1) k
        (index_content (map sha256 (listed_by (packets_under key_name.now key.now object.now.name object.now.contents)
        k)))) }
{
    let contents = listed_by(object.contents(), k);
    let first = k * MOST_LISTED as u16;
    let last = shape.segments - 1;
    let segments = segments_from(alloc, object.name(), last, first, contents, key_name, key)?;
    index_packet(alloc, name, shape.index - 1, k, &segments, key_name, key)
}

// The packet of segment `i` of an object, or `None` where it has no such segment.
fn segment_alone(
    alloc: Global,
    object: &Object,
    i: u16,
    key_name: &Name,
    key: &[u8],
) -> Result<Option<Vec<u8>>, AllocError>
    requires { length (encoding key_name.now) ≤ 205 }
    ensures { IfOk result (λ packet. option_map (λ p. p.items) packet
        ≡ slice_get (packets_under key_name.now key.now object.now.name object.now.contents) i) }
{
    let contents = object.contents();
    let Some(content) = contents.get(usize::from(i)) else {
        return Ok(None);
    };
    let last = contents.len() as u16 - 1;
    let packet = numbered_packet(alloc, object.name(), last, i, content, key_name, key)?;
    Ok(Some(packet))
}

// The elements of `all` that index packet `k` lists: 200 from place `200 k` on, or fewer where `all` ends before.
fn listed_by<T>(all: &[T], k: u16) -> &[T]
    requires { k * most_listed ≤ length all.now }
    ensures same { result.now ≡ listed_by all.now k }
    ensures few { length result.now ≤ most_listed }
{
    let (_, others) = all.split_at(usize::from(k) * MOST_LISTED);
    let (listed, _) = others.split_at(others.len().min(MOST_LISTED));
    listed
}

// Index packet `k` under the record's name `name`, which lists the packets `listed`. The last one has number `last`.
fn index_packet(
    alloc: Global,
    name: &Name,
    last: u16,
    k: u16,
    listed: &[Packet],
    key_name: &Name,
    key: &[u8],
) -> Result<Vec<u8>, AllocError>
    requires name { length (encoding name.now) ≤ 404 }
    requires last { last < segment_limit }
    requires number { k < segment_limit }
    requires few { length listed.now ≤ most_listed }
    requires key_name { length (encoding key_name.now) ≤ 205 }
    ensures written { IfOk result (λ packet. packet.items
        ≡ segment_packet key_name.now key.now name.now last k (index_content (map sha256 listed.now))) }
    ensures data { IfOk result (λ packet. IsOk (data_of packet.items)) }
{
    let digests = digests_of(alloc, listed)?;
    let content = index_content(alloc, &digests)?;
    numbered_packet(alloc, name, last, k, &content, key_name, key)
}

// Packet `i` under the name `name`, where the last one has number `last`.
fn numbered_packet(
    alloc: Global,
    name: &Name,
    last: u16,
    i: u16,
    content: &[u8],
    key_name: &Name,
    key: &[u8],
) -> Result<Vec<u8>, AllocError>
    requires name { length (encoding name.now) ≤ 404 }
    requires content { length content.now ≤ content_limit }
    requires key_name { length (encoding key_name.now) ≤ 205 }
    ensures written { IfOk result (λ packet. packet.items
        ≡ segment_packet key_name.now key.now name.now last i content.now) }
    ensures data { IfOk result (λ packet. IsOk (data_of packet.items)) }
{
    let name = segment_name(name.clone()?, i)?;
    write_packet(alloc, &name, Some(u64::from(last)), content, key_name, key)
}

// The packet of a record of the name `name` that lists `digests`, of an object of the name `object` and of `segments`
// segments.
fn listing_packet(
    alloc: Global,
    name: &Name,
    object: &Name,
    segments: u16,
    digests: &[[u8; 32]],
    key_name: &Name,
    key: &[u8],
) -> Result<Vec<u8>, AllocError>
    requires name { length (encoding name.now) ≤ 404 }
    requires object { length (encoding object.now) ≤ object_name_limit }
    requires few { segments ≤ segment_limit }
    requires count { length digests.now ≡ count_listed segments }
    requires key_name { length (encoding key_name.now) ≤ 205 }
    ensures written { IfOk result (λ packet. packet.items ≡ written_data name.now None
        (record_content (listed_record object.now segments digests.now)) key_name.now key.now) }
    ensures data { IfOk result (λ packet. IsOk (data_of packet.items)) }
{
    let content = listing_content(alloc, object, segments, digests)?;
    write_packet(alloc, name, None, &content, key_name, key)
}

// A signed packet. It must be within the limit of octets.
fn write_packet(
    alloc: Global,
    name: &Name,
    last: Option<u64>,
    content: &[u8],
    key_name: &Name,
    key: &[u8],
) -> Result<Vec<u8>, AllocError>
    requires { length (written_data name.now last content.now key_name.now key.now) ≤ packet_limit }
    ensures written { IfOk result
        (λ packet. packet.items ≡ written_data name.now last content.now key_name.now key.now) }
    ensures data { IfOk result (λ packet. IsOk (data_of packet.items)) }
{
    name.cite_soundness();
    key_name.cite_soundness();
    write_signed(alloc, name, last, content, key_name, key).map_err(PacketWriteFault::only_memory)
}

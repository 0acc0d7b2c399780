// The contents of publications, joined, and their digests.
ghost use Rattle.std.specs.Prelude.{◌≡◌, ◌≤◌, length, option_map, IfSome, IsSomeAnd};
ghost use Rattle.std.specs.List.{All};
ghost use Rattle.sha2.specs.Sha256.{sha256};
ghost use Rattle.sorted_lists.specs.SortedList.{value_of};
ghost use Rattle.repo_plan.specs.Parts.{IsShape, part_cmp};
ghost use Rattle.repo_object.specs.Packets.{packet_content};
ghost use Rattle.repo_holdings.specs.Listed.{whole_at, contents_joined};
ghost use Rattle.repo_holdings.specs.Contents.{IsOver, IsDigestIn};

use ndn_data::DataView;
use repo_object::Checked;
use repo_plan::{Part, Shape};
use repo_store::Store;
use sha2::{Digest, Sha256};

/// How many octets the contents of a publication's segments have together, and the SHA-256 of them joined.
#[derive(Clone, Copy, Debug, PartialEq, Eq)]
pub struct ContentsDigest {
    pub publisher: u32,
    pub seq: u16,
    pub octets: u64,
    pub digest: [u8; 32],
}

// How many octets the contents of an object that is stored whole have together, and their digest: as `digests` gives
// them, or else computed now. What `digests` gives is found where `digests` is in order.
pub(crate) fn given_or_made(
    store: &Store,
    publisher: u32,
    seq: u16,
    shape: Shape,
    digests: &[ContentsDigest],
) -> (u64, [u8; 32])
    requires sized { IsShape shape }
    requires digests { All (IsDigestIn store.now.packets) digests.now }
    requires whole { IsSomeAnd (whole_at store.now.packets (publisher, seq))
        (IsOver (contents_joined store.now.packets (publisher, seq) shape)) }
    ensures octets { result.0 ≡ length (contents_joined store.now.packets (publisher, seq) shape) }
    ensures digest { result.1 ≡ sha256 (contents_joined store.now.packets (publisher, seq) shape) }
{
    match digests.binary_search_by_key(&(publisher, seq), |d| (d.publisher, d.seq)) {
        Ok(place) => (digests[place].octets, digests[place].digest),
        Err(_) => contents_digest(store, publisher, seq, shape),
    }
}

// How many octets the contents of the segments of a publication of that shape have together, and their digest.
fn contents_digest(store: &Store, publisher: u32, seq: u16, shape: Shape) -> (u64, [u8; 32])
    requires { IsShape shape }
    ensures octets { result.0 ≡ length (contents_joined store.now.packets (publisher, seq) shape) }
    ensures digest { result.1 ≡ sha256 (contents_joined store.now.packets (publisher, seq) shape) }
{
    let mut octets = 0;
    let mut digest = Sha256::new();
    for x in 0..shape.segments {
        let part = Part {
            publisher,
            seq,
            part: shape.index + 1 + x,
        };
        let content = stored_content(store, part).unwrap_or(&[]);
        octets += content.len() as u64;
        digest.update(content);
    }
    (octets, digest.finalize())
}

// The content of the packet of a part, if one is stored.
pub(crate) fn stored_content(store: &Store, part: Part) -> Option<&[u8]>
    ensures exact { option_map (λ content. content.now) result
        ≡ option_map packet_content (value_of part_cmp store.now.packets part) }
    ensures short { IfSome result (λ content. length content.now ≤ 8800) }
{
    let packet = store.packet(part)?;
    Some(packet.content())
}

// The content of a packet that was received and checked.
pub(crate) fn content_of<'a>(checked: &Checked<'a>) -> &'a [u8]
    ensures exact { result.now ≡ packet_content checked.now.octets }
    ensures short { length result.now ≤ 8800 }
{
    match DataView::read(checked.octets()) {
        Ok(data) => data.content,
        Err(_) => &[],
    }
}

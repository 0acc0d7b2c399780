ghost use Rattle.std.specs.Prelude.{◌≡◌, ◌<◌, ◌==◌, ◌||◌, not, length, MatchResult, Ok, Err};
ghost use Rattle.ndn_data.specs.Data.{data_seen};
ghost use Rattle.repo_object.specs.Records.{record_of};
ghost use Rattle.repo_object.specs.Shown.{octets_shown};
ghost use Rattle.repo_object.specs.Verdict.{is_all_signed, locates, names_key, is_signed_by, may_say};
ghost use Rattle.repo_object.specs.Verdict.{lists_as_many, is_well_stated, packet_verdict, key_at};

use crate::expected::Expected;
use crate::part_refusal::PartRefusal;
use crate::record::is_index;
use crate::record_view::RecordView;
use crate::shown::Shown;
use ndn_data::DataView;
use ndn_name::NameView;
use ndn_packet::SIGNATURE_HMAC_WITH_SHA256;
use ndn_sign::KeyRing;
use repo_plan::Part;

// Whether what is shown, which is the packet `view`, is what `want` expects, under the key that the ring has at
// `number`, or the first reason why not.
pub(crate) fn evaluate(
    want: &Expected<'_>,
    ring: &KeyRing,
    number: u32,
    shown: &Shown<'_>,
    view: &DataView<'_>,
) -> Result<(), PartRefusal>
    requires { number < length ring.now }
    ensures { MatchResult result
        (λ _. packet_verdict want.now (key_at ring.now number).name (key_at ring.now number).key
        (octets_shown shown.now) (data_seen view.now)
        ≡ Ok (data_seen view.now))
        (λ refusal. packet_verdict want.now (key_at ring.now number).name (key_at ring.now number).key
        (octets_shown shown.now) (data_seen view.now)
        ≡ Err refusal) }
{
    if !is_all_signed(view) {
        return Err(PartRefusal::UnsignedOctets);
    }
    if !want.has_name(view) {
        return Err(PartRefusal::OtherName);
    }
    if !want.has_digest(shown) {
        return Err(PartRefusal::OtherDigest);
    }
    if !names_key(ring.name(number), view) {
        return Err(PartRefusal::UnknownKey);
    }
    if !is_signed_by(ring, number, view) {
        return Err(PartRefusal::BadSignature);
    }
    if !is_well_stated(want, view) {
        return Err(PartRefusal::BadRecord);
    }
    Ok(())
}

// Whether the packet has no octets but those that are signed, and the signature after them.
fn is_all_signed(view: &DataView<'_>) -> bool
    ensures { result ≡ is_all_signed (data_seen view.now) }
{
    view.all_signed()
}

// Whether the packet says that it is signed by HMAC with SHA-256 under the key of the name `key_name`.
fn names_key(key_name: &[u8], view: &DataView<'_>) -> bool
    ensures { result ≡ names_key key_name.now (data_seen view.now) }
{
    view.signature_type == SIGNATURE_HMAC_WITH_SHA256 && locates(key_name, &view.locator)
}

fn locates(key_name: &[u8], locator: &Option<NameView<'_>>) -> bool
    ensures { result ≡ locates key_name.now locator.now }
{
    match locator {
        Some(name) => name.octets() == key_name,
        None => false,
    }
}

// Whether the signature is the mac of the signed portion under the key that the ring has at `number`.
fn is_signed_by(ring: &KeyRing, number: u32, view: &DataView<'_>) -> bool
    requires { number < length ring.now }
    ensures { result ≡ is_signed_by (key_at ring.now number).key (data_seen view.now) }
{
    ring.check_mac(number, view.signed_portion(), &[], view.signature)
}

// Whether the content is what the want asks for: of part 0, a record that the publication may have, and of an index
// packet, the number of digests that the want says.
fn is_well_stated(want: &Expected<'_>, view: &DataView<'_>) -> bool
    ensures { result ≡ is_well_stated want.now (data_seen view.now) }
{
    may_say(want.part(), view.content) && lists_as_many(want.lists(), view.content)
}

// Whether `content` is a record's that the publication may have. For a part after the record, every content passes.
fn may_say(part: Part, content: &[u8]) -> bool
    ensures { result ≡ (not (part.part == 0) || may_say part.seq (record_of content.now)) }
{
    if part.part != 0 {
        return true;
    }
    match RecordView::read(content) {
        Some(RecordView::Lists(_)) => true,
        Some(RecordView::Withdraws { seq }) => seq < part.seq,
        None => false,
    }
}

// Whether `content` is that of an index packet with `count` digests. Every content passes for `None`.
fn lists_as_many(count: Option<u16>, content: &[u8]) -> bool
    ensures { result ≡ lists_as_many count content.now }
{
    match count {
        Some(count) => is_index(content, count),
        None => true,
    }
}

ghost use Rattle.std.specs.Prelude.{◌≡◌, ◌↔◌, IsTrue};
ghost use Rattle.ndn_name.specs.Names.{full_name};

use ndn_name::NameView;
use ndn_tlv::types;

// Whether the names are the same.
pub(crate) fn is_same_name(a: &NameView<'_>, b: &NameView<'_>) -> bool
    ensures { IsTrue result ↔ (a.now ≡ b.now) }
{
    a.octets() == b.octets()
}

// Whether the name is the full name of a packet of that name and digest.
pub(crate) fn is_full_name(name: &NameView<'_>, of: &NameView<'_>, digest: &[u8; 32]) -> bool
    ensures { IsTrue result ↔ (name.now ≡ full_name of.now digest.now) }
{
    if !of.is_prefix_of(name) {
        return false;
    }
    if name.len() - of.len() != 1 {
        return false;
    }
    let last = name.component(of.len());
    if last.typ != types::IMPLICIT_SHA256_DIGEST_COMPONENT {
        return false;
    }
    last.value == digest.as_slice()
}

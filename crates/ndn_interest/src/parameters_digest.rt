ghost use Rattle.std.specs.Prelude.{◌≡◌, option_map, IsTrue};
ghost use Rattle.ndn_name.specs.Names.{component, encoding};
ghost use Rattle.ndn_interest.specs.Interest.{last_component, without_last, ends_in_digest};

use ndn_name::{ComponentView, NameView};
use ndn_packet::DIGEST_ELEMENT_LEN;
use ndn_tlv::types;

// The last component of a name, if it has one.
pub(crate) fn last_component<'p>(name: &NameView<'p>) -> Option<ComponentView<'p>>
    ensures { option_map component result ≡ last_component name.now }
{
    match name.len() {
        0 => None,
        len => Some(name.component(len - 1)),
    }
}

// Whether the last component of a name is a parameters digest.
pub(crate) fn ends_in_digest(name: &NameView<'_>) -> bool
    ensures { result ≡ ends_in_digest name.now }
{
    match last_component(name) {
        Some(last) => last.typ == types::PARAMETERS_SHA256_DIGEST_COMPONENT,
        None => false,
    }
}

// The components before the parameters digest at the end of a name, as octets.
pub(crate) fn before_digest<'p>(name: &NameView<'p>) -> &'p [u8]
    requires { IsTrue (ends_in_digest name.now) }
    ensures { result.now ≡ encoding (without_last name.now) }
{
    let octets = name.octets();
    let (components, _) = octets.split_at(octets.len() - DIGEST_ELEMENT_LEN);
    components
}

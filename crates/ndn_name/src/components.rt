ghost use Rattle.std.specs.Prelude.{◌≡◌, ◌+◌, ◌^◌, ◌<◌, length, MatchResult, Ok, Err, Some, slice_get};
ghost use Rattle.ndn_tlv.specs.Elements.{item};
ghost use Rattle.ndn_name.specs.Names.{IsName, IsValue, component, component_of, components, name_of};

use crate::component_view::ComponentView;
use crate::name_fault::NameFault;
use ndn_tlv::{Element, Reader, types};

// The component that an element is.
pub(crate) fn component_of(element: Element<'_>) -> Result<ComponentView<'_>, NameFault>
    ensures { MatchResult result (λ c. component_of (item element.entry) ≡ Ok (component c))
        (λ f. component_of (item element.entry) ≡ Err f) }
{
    let Ok(typ) = u16::try_from(element.typ) else {
        return Err(NameFault::BadComponent { at: element.start });
    };
    if typ <= types::PARAMETERS_SHA256_DIGEST_COMPONENT && element.value.len() != 32 {
        return Err(NameFault::BadDigestLength { at: element.start });
    }
    Ok(ComponentView {
        typ,
        value: element.value,
    })
}

// How many components a value has that begins at offset `base`.
pub(crate) fn count_components(value: &[u8], base: usize) -> Result<usize, NameFault>
    requires { base + length value.now < 2 ^ 64 }
    ensures read { MatchResult result (λ _. name_of base value.now ≡ Ok (components value.now))
        (λ fault. name_of base value.now ≡ Err fault) }
    ensures value { MatchResult result (λ len. IsValue value.now len) (λ _. Unit {0}) }
{
    let mut elements = Reader::new(value, base);
    let mut len = 0usize;
    while let Some(element) = elements.next()? {
        component_of(element)?;
        len += 1;
    }
    Ok(len)
}

// A component of a value, counted from 0.
pub(crate) fn component_at(octets: &[u8], i: usize) -> ComponentView<'_>
    requires name { IsName (components octets.now) }
    requires in_range { i < length (components octets.now) }
    ensures { slice_get (components octets.now) i ≡ Some (component result) }
{
    let mut elements = Reader::new(octets, 0);
    let mut left = i;
    while let Ok(Some(element)) = elements.next() {
        if left == 0 {
            return ComponentView {
                typ: element.typ as u16,
                value: element.value,
            };
        }
        left -= 1;
    }
    unreachable!()
}

ghost use Rattle.std.specs.Prelude.{◌≡◌, ◌+◌, ◌^◌, ◌<◌, ◌↔◌, length, IsTrue, MatchResult, IfOk, Ok, Err, Some};
ghost use Rattle.std.specs.Prelude.{slice_get};
ghost use Rattle.ndn_name.specs.Names.{IsName, IsValue, component, components, encoding, name_of};
ghost use Rattle.ndn_name.specs.CanonicalOrder.{IsPrefix, canonical_cmp};

use crate::component_view::ComponentView;
use crate::components::{component_at, count_components};
use crate::name_fault::NameFault;
use std::cmp::Ordering;
use std::marker::Model;

/// A name whose octets are lent from a packet.
#[derive(Debug, Drop)]
pub struct NameView<'p> {
    // The value of the Name element.
    octets: &'p [u8],
    // How many components there are.
    len: usize,
}

// A view is seen as the list of its components.
impl<'p> Model for NameView<'p> {
    ghost use Rattle.std.specs.Prelude.{ℕ, List};
    ghost use Rattle.ndn_name.specs.Names.{IsValue, components};

    ghost Value = { List (ℕ × List ℕ) };

    ghost view = { λ v. components v.octets.now };

    ghost invariant = { λ v. IsValue v.octets.now v.len };
}

impl<'p> NameView<'p> {
    /// The name whose value these octets are, which begin at offset `base` of their packet.
    pub fn read(value: &'p [u8], base: usize) -> Result<NameView<'p>, NameFault>
        requires { base + length value.now < 2 ^ 64 }
        ensures read { MatchResult result (λ name. name_of base value.now ≡ Ok name)
            (λ fault. name_of base value.now ≡ Err fault) }
        ensures spelled { IfOk result (λ name. value.now ≡ encoding name) }
    {
        let len = count_components(value, base)?;
        Ok(NameView { octets: value, len })
    }

    // The name of `len` components whose value these octets are.
    pub(crate) fn of_value(octets: &'p [u8], len: usize) -> NameView<'p>
        requires { IsValue octets.now len }
        ensures { result ≡ components octets.now }
    {
        NameView { octets, len }
    }

    /// How many components the name has.
    pub fn len(&self) -> usize
        ensures { result ≡ length self.now }
    {
        self.len
    }

    /// The value of the Name element.
    pub fn octets(&self) -> &'p [u8]
        ensures spelled { result.now ≡ encoding self.now }
        ensures name { IsName self.now }
    {
        self.octets
    }

    /// A component, counted from 0.
    pub fn component(&self, i: usize) -> ComponentView<'p>
        requires { i < length self.now }
        ensures { slice_get self.now i ≡ Some (component result) }
    {
        component_at(self.octets, i)
    }

    /// The canonical order of the two names.
    pub fn compare(&self, other: &NameView<'_>) -> Ordering
        ensures { result ≡ canonical_cmp self.now other.now }
    {
        self.octets.cmp(other.octets)
    }

    /// Whether the other name begins with the components of this one, as it does where they are
    /// equal.
    pub fn is_prefix_of(&self, other: &NameView<'_>) -> bool
        ensures { IsTrue result ↔ IsPrefix self.now other.now }
    {
        other.octets.starts_with(self.octets)
    }
}

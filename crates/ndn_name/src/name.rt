ghost use Rattle.std.specs.Prelude.{◌≡◌, ◌<◌, ◌≤◌, ◌↔◌, ◌⊎◌, [], ◌∷◌, ◌++◌, length, IfOk, IfErr, OnOk, OnErr, Err};
ghost use Rattle.ndn_tlv.specs.NumberField.{number_field};
ghost use Rattle.ndn_tlv.specs.Types as types;
ghost use Rattle.ndn_name.specs.Names.{IsName, encoding, full_name};

use crate::append::append_component;
use crate::name_fault::NameFault;
use crate::name_view::NameView;
use ndn_tlv::types;
use std::alloc::{AllocError, Global};
use std::marker::Model;

/// How many octets the value of an owned name may have.
pub const NAME_LIMIT: usize = 1_000;

/// A name that owns its octets: at most 1,000 octets of value.
#[derive(Debug, Drop)]
pub struct Name {
    // The value of the Name element.
    octets: Vec<u8>,
    // How many components there are.
    len: usize,
}

// A name is seen as the list of its components.
impl Model for Name {
    ghost use Rattle.std.specs.Prelude.{ℕ, List, ◌≤◌, length};
    ghost use Rattle.ndn_name.specs.Names.{IsValue, components, name_limit};

    ghost Value = { List (ℕ × List ℕ) };

    ghost view = { λ n. components n.octets.items };

    ghost invariant = { λ n. IsValue n.octets.items n.len × (length n.octets.items ≤ name_limit) };
}

impl Name {
    /// The empty name.
    pub fn new(alloc: Global) -> Name
        ensures { result ≡ [] }
    {
        Name {
            octets: Vec::new(alloc),
            len: 0,
        }
    }

    /// The name of a view, with octets of its own.
    pub fn from_view(alloc: Global, view: &NameView<'_>) -> Result<Name, NameFault>
        ensures ok { IfOk result (λ name. name ≡ view.now) }
        ensures too_long { (result ≡ Err NameFault.NameTooLong)
            ↔ (NAME_LIMIT < length (encoding view.now)) }
        ensures refused { IfErr result
            (λ fault. (fault ≡ NameFault.NameTooLong) ⊎ (fault ≡ NameFault.NoMemory)) }
    {
        if view.octets().len() > NAME_LIMIT {
            return Err(NameFault::NameTooLong);
        }
        Ok(Name::from_short(alloc, view)?)
    }

    /// The name of a view that is within the limit, with octets of its own.
    pub fn from_short(alloc: Global, view: &NameView<'_>) -> Result<Name, AllocError>
        requires { length (encoding view.now) ≤ NAME_LIMIT }
        ensures same { IfOk result (λ name. name ≡ view.now) }
        ensures valid { IfOk result IsName }
    {
        let octets = view.octets();
        Ok(Name {
            octets: Vec::from_slice(alloc, octets)?,
            len: view.len(),
        })
    }

    /// The value of the Name element.
    pub fn octets(&self) -> &[u8]
        ensures spelled { result.now ≡ encoding self.now }
        ensures name { IsName self.now }
        ensures short { length result.now ≤ NAME_LIMIT }
    {
        &self.octets
    }

    /// What holds of every name. Costs nothing, and is called for its clauses.
    pub fn cite_soundness(&self)
        ensures name { IsName self.now }
        ensures short { length (encoding self.now) ≤ NAME_LIMIT }
    {
        let _ = &self.octets;
    }

    /// The same name, lent.
    pub fn view(&self) -> NameView<'_>
        ensures { result ≡ self.now }
    {
        NameView::of_value(&self.octets, self.len)
    }

    /// Appends a component.
    pub fn push(&mut self, typ: u16, value: &[u8]) -> Result<(), NameFault>
        requires typ { 0 < typ }
        requires digest { typ ≤ types.ParametersSha256DigestComponent → length value.now ≡ 32 }
        ensures ok { OnOk result (self.new ≡ self.old ++ (typ, value.now) ∷ []) }
        ensures too_long { (result ≡ Err NameFault.NameTooLong)
            ↔ (NAME_LIMIT < length (encoding (self.old ++ (typ, value.now) ∷ []))) }
        ensures refused { IfErr result
            (λ fault. (fault ≡ NameFault.NameTooLong) ⊎ (fault ≡ NameFault.NoMemory)) }
        ensures err { OnErr result (self.new ≡ self.old) }
    {
        append_component(&mut self.octets, typ, value)?;
        self.len += 1;
        Ok(())
    }

    /// Appends a component whose value is a number, in the fewest octets that a number field may
    /// have.
    pub fn push_number(&mut self, typ: u16, n: u64) -> Result<(), NameFault>
        requires { types.ParametersSha256DigestComponent < typ }
        ensures ok { OnOk result (self.new ≡ self.old ++ (typ, number_field n) ∷ []) }
        ensures too_long { (result ≡ Err NameFault.NameTooLong)
            ↔ (NAME_LIMIT < length (encoding (self.old ++ (typ, number_field n) ∷ []))) }
        ensures refused { IfErr result
            (λ fault. (fault ≡ NameFault.NameTooLong) ⊎ (fault ≡ NameFault.NoMemory)) }
        ensures err { OnErr result (self.new ≡ self.old) }
    {
        if let Ok(n) = u8::try_from(n) {
            self.push(typ, &n.to_be_bytes())
        } else if let Ok(n) = u16::try_from(n) {
            self.push(typ, &n.to_be_bytes())
        } else if let Ok(n) = u32::try_from(n) {
            self.push(typ, &n.to_be_bytes())
        } else {
            self.push(typ, &n.to_be_bytes())
        }
    }
}

impl Clone for Name {
    ghost is_clone = { λ name copy. copy ≡ name };

    fn clone(&self) -> Result<Name, AllocError> {
        Ok(Name {
            octets: self.octets.clone()?,
            len: self.len,
        })
    }
}

/// The full name of a Data packet: its name with its implicit digest, the SHA-256 of the packet,
/// after it.
pub fn full_name(alloc: Global, name: &Name, digest: &[u8; 32]) -> Result<Name, NameFault>
    ensures ok { IfOk result (λ full. full ≡ full_name name.now digest.now) }
    ensures fits { OnOk result (length (encoding (full_name name.now digest.now)) ≤ NAME_LIMIT) }
    ensures too_long { result ≡ Err NameFault.NameTooLong
        → NAME_LIMIT < length (encoding (full_name name.now digest.now)) }
    ensures refused { IfErr result
        (λ fault. (fault ≡ NameFault.NameTooLong) ⊎ (fault ≡ NameFault.NoMemory)) }
{
    let mut full = Name::from_view(alloc, &name.view())?;
    full.push(types::IMPLICIT_SHA256_DIGEST_COMPONENT, digest)?;
    Ok(full)
}

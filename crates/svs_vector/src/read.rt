ghost use Rattle.std.specs.Prelude.{◌≡◌, ◌+◌, ◌^◌, ◌<◌, ◌⊎◌, length, replicate, MatchResult, IfOk, IfErr, Ok};
ghost use Rattle.std.specs.Prelude.{Err, IsOk};
ghost use Rattle.ndn_tlv.specs.Elements.{item, elements};
ghost use Rattle.svs_vector.specs.StateVector.{with_vector_entry, vector_in, vector_among, vector_of};

use crate::entry::{entry_in, fault_in};
use crate::roster::{MEMBER_LIMIT, Roster};
use crate::types;
use crate::vector::Vector;
use crate::vector_fault::VectorFault;
use crate::vector_numbers::VectorNumbers;
use ndn_tlv::{Element, FieldReader, Place, Reader};
use std::alloc::Global;

#[derive(Clone, Copy, Debug)]
pub(crate) enum VectorField {
    Entry,
}

pub(crate) const VECTOR_PLACES: [Place<VectorField>; 1] = [Place {
    typ: types::STATE_VECTOR_ENTRY,
    field: VectorField::Entry,
    repeats: true,
}];

impl Vector {
    /// The state vector that the octets begin with, of the members of a roster, as
    /// [`VectorNumbers::read`] reads it.
    pub fn read(alloc: Global, octets: &[u8], roster: &Roster) -> Result<Vector, VectorFault>
        ensures ok { IfOk result (λ vector. vector_of roster.now octets.now ≡ Ok vector) }
        ensures width { IfOk result (λ vector. length vector ≡ length roster.now) }
        ensures fault { IfErr result (λ fault.
            (vector_of roster.now octets.now ≡ Err fault) ⊎ (fault ≡ VectorFault.NoMemory)) }
        ensures memory { result ≡ Err VectorFault.NoMemory → IsOk (vector_of roster.now octets.now) }
    {
        let received = VectorNumbers::read(octets, roster)?;
        Ok(received.to_vector(alloc)?)
    }
}

impl VectorNumbers {
    /// The numbers of the state vector that the octets begin with, of the members of a roster. It
    /// allocates nothing.
    ///
    /// Entries come in any order, and a node's greatest number counts. Nodes that are no members
    /// are passed over.
    pub fn read(octets: &[u8], roster: &Roster) -> Result<VectorNumbers, VectorFault>
        ensures received { MatchResult result
            (λ received. vector_of roster.now octets.now ≡ Ok received)
            (λ fault. vector_of roster.now octets.now ≡ Err fault) }
        ensures width { IfOk result (λ received. length received ≡ length roster.now) }
    {
        let element = vector_element(octets)?;
        let mut numbers = [0; MEMBER_LIMIT];
        let members = roster.len();
        let (received, _) = numbers.split_at_mut(members);
        take_entries(received, element, roster)?;
        Ok(VectorNumbers::new(numbers, members))
    }
}

// Takes the entries of a state vector into numbers of which nothing is known.
fn take_entries(
    numbers: &mut [u16],
    element: Element<'_>,
    roster: &Roster,
) -> Result<(), VectorFault>
    requires fits { element.value_start + length element.value.now < 2 ^ 64 }
    requires empty { numbers.old ≡ replicate (length roster.now) 0 }
    ensures { MatchResult result
        (λ _. vector_in roster.now (item element.entry) ≡ Ok numbers.new)
        (λ fault. vector_in roster.now (item element.entry) ≡ Err fault) }
{
    let elements = Reader::new(element.value, element.value_start);
    let mut fields = FieldReader::new(elements, &VECTOR_PLACES);
    loop {
        match fields.next() {
            Ok(Some(next)) => take_entry(numbers, next.0, next.1, roster)?,
            Ok(None) => return Ok(()),
            Err(fault) => return Err(fault_in(element, fault)),
        }
    }
}

fn take_entry(
    numbers: &mut [u16],
    field: VectorField,
    element: Element<'_>,
    roster: &Roster,
) -> Result<(), VectorFault>
    requires fits { element.value_start + length element.value.now < 2 ^ 64 }
    requires width { length numbers.old ≡ length roster.now }
    ensures { MatchResult result
        (λ _. with_vector_entry roster.now numbers.old (field, item element.entry) ≡ Ok numbers.new)
        (λ fault. with_vector_entry roster.now numbers.old (field, item element.entry) ≡ Err fault) }
{
    let (name, number) = entry_in(element)?;
    let Some(member) = roster.find(&name) else {
        return Ok(());
    };
    let Ok(n) = u16::try_from(number) else {
        return Err(VectorFault::NumberTooLarge { member, number });
    };
    let known = &mut numbers[member as usize];
    *known = (*known).max(n);
    Ok(())
}

// The element of a state vector that the octets begin with.
fn vector_element(octets: &[u8]) -> Result<Element<'_>, VectorFault>
    ensures read { MatchResult result
        (λ e. vector_among (elements 0 octets.now).items ≡ Ok (item e))
        (λ fault. vector_among (elements 0 octets.now).items ≡ Err fault) }
    ensures fits { IfOk result (λ e. e.value_start + length e.value.now < 2 ^ 64) }
{
    match Reader::new(octets, 0).next() {
        Ok(Some(element)) if element.typ == types::STATE_VECTOR => Ok(element),
        _ => Err(VectorFault::BadVector { at: 0 }),
    }
}

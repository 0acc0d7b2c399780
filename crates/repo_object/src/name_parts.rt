ghost use Rattle.std.specs.Prelude.{◌≡◌, ◌≢◌, ◌+◌, ◌≤◌, ◌<◌, ◌++◌, ℕ, List, length, OnOk, MatchOption};
ghost use Rattle.std.specs.Str.{bytes_eq};
ghost use Rattle.ndn_tlv.specs.Spelling.{element};
ghost use Rattle.repo_object.specs.NameParts.{numbered, spelled};

use ndn_packet::{element_len, number_field_len};
use ndn_tlv::{Writer, types};
use std::alloc::AllocError;

// A name in parts, which are written one after the other: octets of components, the number of a publication, and the
// number of a segment or an index packet.
#[derive(Drop)]
pub(crate) struct NameParts<'n> {
    pub(crate) first: &'n [u8],
    pub(crate) second: &'n [u8],
    pub(crate) seq: Option<u16>,
    pub(crate) segment: Option<u16>,
}

// The types of the components whose values are numbers, as types of elements.
const SEQUENCE_NUM: u32 = types::SEQUENCE_NUM_NAME_COMPONENT as u32;

const SEGMENT: u32 = types::SEGMENT_NAME_COMPONENT as u32;

impl NameParts<'_> {
    // How many octets the name has.
    pub(crate) fn len(&self) -> usize
        requires { length (spelled self.now) ≤ 900 }
        ensures { result ≡ length (spelled self.now) }
    {
        let numbers = number_len(SEQUENCE_NUM, self.seq) + number_len(SEGMENT, self.segment);
        self.first.len() + self.second.len() + numbers
    }

    // Whether `octets` are the name's octets. It allocates nothing.
    pub(crate) fn is(&self, octets: &[u8]) -> bool
        ensures { result ≡ bytes_eq octets.now (spelled self.now) }
    {
        let Some(rest) = after(octets, self.first) else {
            return false;
        };
        let Some(rest) = after(rest, self.second) else {
            return false;
        };
        let Some(rest) = after_number(rest, SEQUENCE_NUM as u8, self.seq) else {
            return false;
        };
        let Some(rest) = after_number(rest, SEGMENT as u8, self.segment) else {
            return false;
        };
        rest.is_empty()
    }

    // Appends the name's octets.
    pub(crate) fn put(&self, writer: &mut Writer) -> Result<(), AllocError>
        ensures { OnOk result (writer.new ≡ writer.old ++ spelled self.now) }
    {
        writer.put_octets(self.first)?;
        writer.put_octets(self.second)?;
        put_number(writer, SEQUENCE_NUM, self.seq)?;
        put_number(writer, SEGMENT, self.segment)
    }
}

// How many octets the component of type `typ` has whose value is `number`: 0 for `None`.
fn number_len(typ: u32, number: Option<u16>) -> usize
    ensures exact { result ≡ length (numbered typ number) }
    ensures small { result ≤ 26 }
{
    match number {
        Some(n) => element_len(typ, number_field_len(u64::from(n))),
        None => 0,
    }
}

// Appends the component of type `typ` whose value is `number`, and nothing for `None`.
fn put_number(writer: &mut Writer, typ: u32, number: Option<u16>) -> Result<(), AllocError>
    requires { 0 < typ }
    ensures { OnOk result (writer.new ≡ writer.old ++ numbered typ number) }
{
    match number {
        Some(n) => writer.put_number(typ, u64::from(n)),
        None => Ok(()),
    }
}

// The octets after `prefix`, or `None` if `octets` don't begin with it.
fn after<'o>(octets: &'o [u8], prefix: &[u8]) -> Option<&'o [u8]>
    ensures { MatchOption result ((rest : List ℕ) → octets.now ≢ prefix.now ++ rest)
        (λ rest. octets.now ≡ prefix.now ++ rest.now) }
{
    octets.strip_prefix(prefix)
}

// The octets after the component of type `typ` and of this value, or `None` if `octets` don't begin with it.
fn after_component<'o>(octets: &'o [u8], typ: u8, value: &[u8]) -> Option<&'o [u8]>
    requires typ { typ < 253 }
    requires short { length value.now < 253 }
    ensures { MatchOption result ((rest : List ℕ) → octets.now ≢ element typ value.now ++ rest)
        (λ rest. octets.now ≡ element typ value.now ++ rest.now) }
{
    let Some(rest) = after(octets, &[typ, value.len() as u8]) else {
        return None;
    };
    after(rest, value)
}

// The octets after the component of type `typ` whose value is `number`, or `None` if `octets` don't begin with it.
// Without a number they are all octets.
fn after_number(octets: &[u8], typ: u8, number: Option<u16>) -> Option<&[u8]>
    requires { typ < 253 }
    ensures { MatchOption result ((rest : List ℕ) → octets.now ≢ numbered typ number ++ rest)
        (λ rest. octets.now ≡ numbered typ number ++ rest.now) }
{
    match number {
        None => Some(octets),
        Some(n) if n < 256 => after_component(octets, typ, &(n as u8).to_be_bytes()),
        Some(n) => after_component(octets, typ, &n.to_be_bytes()),
    }
}

ghost use Rattle.std.specs.Prelude.{◌≡◌, ◌+◌, ◌*◌, ◌<◌, ◌≤◌, ◌++◌, length, map, IfOk, OnOk};
ghost use Rattle.std.specs.List.{flat_map};
ghost use Rattle.svs_vector.specs.Format.{member_limit};
ghost use Rattle.svs_vector.specs.WrittenVector.{entry_value, in_canonical_order, known_entries, lent_entries};
ghost use Rattle.svs_vector.specs.WrittenVector.{written_entry, written_vector};

use crate::roster::Roster;
use crate::types::{SEQ_NO, STATE_VECTOR, STATE_VECTOR_ENTRY};
use crate::vector::Vector;
use ndn_name::Name;
use ndn_packet::{element_len, number_field_len};
use ndn_tlv::Writer;
use ndn_tlv::types::NAME;
use std::alloc::{AllocError, Global};
use std::collections::BTreeMap;

impl Vector {
    /// The StateVector element of the members of a roster.
    ///
    /// It has an entry for each member whose number is not 0, in canonical order of the node names.
    pub fn write(&self, alloc: Global, roster: &Roster) -> Result<Vec<u8>, AllocError>
        requires { length self.now ≡ length roster.now }
        ensures ok { IfOk result (λ octets. octets.items ≡ written_vector roster.now self.now) }
        ensures members { length self.now ≤ member_limit }
    {
        let entries = self.known_entries(alloc, roster)?;
        let len = entries_len(&entries);
        let mut writer = Writer::with_capacity(alloc, element_len(STATE_VECTOR, len))?;
        writer.put_head(STATE_VECTOR, len)?;
        put_entries(&mut writer, &entries)?;
        Ok(writer.finish())
    }

    // The members of whom something is known, in canonical order.
    fn known_entries<'r>(
        &self,
        alloc: Global,
        roster: &'r Roster,
    ) -> Result<BTreeMap<&'r Name, u16>, AllocError>
        requires { length self.now ≡ length roster.now }
        ensures known { IfOk result (λ entries.
            lent_entries entries ≡ in_canonical_order (known_entries roster.now self.now)) }
        ensures few { IfOk result (λ entries. length entries.entries ≤ member_limit) }
        ensures members { length self.now ≤ member_limit }
    {
        let mut entries = BTreeMap::new(alloc);
        for member in 0..roster.len() as u32 {
            let number = self.get(member);
            if number != 0 {
                entries.insert(roster.name(member), number)?;
            }
        }
        Ok(entries)
    }
}

// How many octets the entries have.
fn entries_len(entries: &BTreeMap<&Name, u16>) -> usize
    requires { length entries.now.entries ≤ member_limit }
    ensures exact { result ≡ length (flat_map written_entry (lent_entries entries.now)) }
    ensures small { result ≤ 1_100 * length entries.now.entries }
{
    let mut len = 0;
    for (name, number) in entries {
        len += element_len(STATE_VECTOR_ENTRY, entry_len(name, *number));
    }
    len
}

// Appends the entries, one after another.
fn put_entries(writer: &mut Writer, entries: &BTreeMap<&Name, u16>) -> Result<(), AllocError>
    ensures { OnOk result
        (writer.new ≡ writer.old ++ flat_map written_entry (lent_entries entries.now)) }
{
    for (name, number) in entries {
        put_entry(writer, name, *number)?;
    }
    Ok(())
}

// How many octets the value of an entry has.
fn entry_len(name: &Name, number: u16) -> usize
    ensures exact { result ≡ length (entry_value (name.now, number)) }
    ensures small { result ≤ 1_060 }
{
    element_len(NAME, name.octets().len())
        + element_len(SEQ_NO, number_field_len(u64::from(number)))
}

fn put_entry(writer: &mut Writer, name: &Name, number: u16) -> Result<(), AllocError>
    ensures { OnOk result (writer.new ≡ writer.old ++ written_entry (name.now, number)) }
{
    writer.put_head(STATE_VECTOR_ENTRY, entry_len(name, number))?;
    writer.put(NAME, name.octets())?;
    writer.put_number(SEQ_NO, u64::from(number))
}

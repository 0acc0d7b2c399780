ghost use Rattle.std.specs.Prelude.{◌≡◌, ◌+◌, ◌^◌, ◌<◌, length, MatchResult, Ok, Err};
ghost use Rattle.ndn_tlv.specs.Elements.{item, elements};
ghost use Rattle.svs_vector.specs.StateVector.{end_of, fault_in, with_entry_field, entry_fields, entry_in};
ghost use Rattle.svs_vector.specs.StateVector.{entry_so_far, both};

use crate::types::SEQ_NO;
use crate::vector_fault::VectorFault;
use ndn_name::NameView;
use ndn_tlv::types::NAME;
use ndn_tlv::{Element, FieldError, FieldReader, Place, Reader, read_number};

#[derive(Clone, Copy, Debug)]
pub(crate) enum EntryField {
    Name,
    SeqNo,
}

pub(crate) const ENTRY_PLACES: [Place<EntryField>; 2] = [
    Place {
        typ: NAME,
        field: EntryField::Name,
        repeats: false,
    },
    Place {
        typ: SEQ_NO,
        field: EntryField::SeqNo,
        repeats: false,
    },
];

// The fields as far as they have come.
#[derive(Drop)]
pub(crate) struct EntryFields<'p> {
    name: Option<NameView<'p>>,
    number: Option<u64>,
}

// The node name and the number of an entry.
pub(crate) fn entry_in(element: Element<'_>) -> Result<(NameView<'_>, u64), VectorFault>
    requires { element.value_start + length element.value.now < 2 ^ 64 }
    ensures { MatchResult result
        (λ entry. entry_in (item element.entry) ≡ Ok (entry.0, entry.1))
        (λ fault. entry_in (item element.entry) ≡ Err fault) }
{
    let gathered = EntryFields::of_fields(element)?;
    gathered.into_entry(element)
}

impl<'p> EntryFields<'p> {
    fn of_fields(element: Element<'p>) -> Result<EntryFields<'p>, VectorFault>
        requires { element.value_start + length element.value.now < 2 ^ 64 }
        ensures { MatchResult result
            (λ g. entry_fields (item element.entry) ≡ Ok (entry_so_far g))
            (λ fault. entry_fields (item element.entry) ≡ Err fault) }
    {
        let elements = Reader::new(element.value, element.value_start);
        let mut fields = FieldReader::new(elements, &ENTRY_PLACES);
        let mut gathered = EntryFields {
            name: None,
            number: None,
        };
        loop {
            match fields.next() {
                Ok(Some(next)) => gathered.take(next.0, next.1)?,
                Ok(None) => return Ok(gathered),
                Err(fault) => return Err(fault_in(element, fault)),
            }
        }
    }

    fn take(&mut self, field: EntryField, element: Element<'p>) -> Result<(), VectorFault>
        requires { element.value_start + length element.value.now < 2 ^ 64 }
        ensures { MatchResult result
            (λ _. with_entry_field (entry_so_far self.old) (field, item element.entry)
            ≡ Ok (entry_so_far self.new))
            (λ fault. with_entry_field (entry_so_far self.old) (field, item element.entry)
            ≡ Err fault) }
    {
        let bad = VectorFault::BadVector { at: element.start };
        match field {
            EntryField::Name => match NameView::read(element.value, element.value_start) {
                Ok(name) => self.name = Some(name),
                Err(_) => return Err(bad),
            },
            EntryField::SeqNo => match read_number(element.value) {
                Some(number) => self.number = Some(number),
                None => return Err(bad),
            },
        }
        Ok(())
    }

    fn into_entry(self, element: Element<'_>) -> Result<(NameView<'p>, u64), VectorFault>
        ensures { MatchResult result
            (λ entry. both (item element.entry) (entry_so_far self.entry).name
            (entry_so_far self.entry).number ≡ Ok (entry.0, entry.1))
            (λ fault. both (item element.entry) (entry_so_far self.entry).name
            (entry_so_far self.entry).number ≡ Err fault) }
    {
        match (self.name, self.number) {
            (Some(name), Some(number)) => Ok((name, number)),
            _ => Err(VectorFault::BadVector { at: element.start }),
        }
    }
}

// The fault of the fields in an element.
pub(crate) fn fault_in(element: Element<'_>, fault: FieldError) -> VectorFault
    requires { element.value_start + length element.value.now < 2 ^ 64 }
    ensures { result ≡ fault_in (item element.entry) fault }
{
    let at = match fault {
        FieldError::Tlv(_) => end_of_elements(element),
        FieldError::Critical { typ: _, at } => at,
    };
    VectorFault::BadVector { at }
}

// Where the elements end that an element's value begins with.
fn end_of_elements(element: Element<'_>) -> usize
    requires { element.value_start + length element.value.now < 2 ^ 64 }
    ensures { result
        ≡ end_of element.entry.value_start (elements element.entry.value_start element.entry.value.now).items }
{
    let mut elements = Reader::new(element.value, element.value_start);
    let mut end = element.value_start;
    while let Ok(Some(next)) = elements.next() {
        end = next.end;
    }
    end
}

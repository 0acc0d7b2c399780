ghost use Rattle.std.specs.Prelude.{◌≡◌, ◌+◌, ◌^◌, ◌<◌, length, MatchResult, Ok, Err};
ghost use Rattle.ndn_tlv.specs.Elements.{item};
ghost use Rattle.ndn_packet.specs.SignatureInfo.{locator_in, with_info_field, info_fields, info_from, info_in, info};
ghost use Rattle.ndn_packet.specs.SignatureInfo.{info_so_far};

use crate::contents::{bad_field, first_element, name_in, number_in};
use ndn_name::{Field, NameView, PacketFault};
use ndn_tlv::{Element, FieldReader, Place, Reader, types};

/// The signature type of HMAC with SHA-256 (SignatureHmacWithSha256).
pub const SIGNATURE_HMAC_WITH_SHA256: u64 = 4;

/// What a packet says of its signature (NDN Packet Format 0.3, "Signature").
#[derive(Debug, Drop)]
pub struct SignatureInfo<'p> {
    pub signature_type: u64,
    /// The key's name, where the key locator is a name.
    pub locator: Option<NameView<'p>>,
}

#[derive(Clone, Copy, Debug)]
enum InfoField {
    SignatureType,
    KeyLocator,
}

const SIGNATURE_INFO: [Place<InfoField>; 2] = [
    Place {
        typ: types::SIGNATURE_TYPE,
        field: InfoField::SignatureType,
        repeats: false,
    },
    Place {
        typ: types::KEY_LOCATOR,
        field: InfoField::KeyLocator,
        repeats: false,
    },
];

// The fields as far as they have come.
#[derive(Drop)]
struct InfoFields<'p> {
    signature_type: Option<u64>,
    locator: Option<NameView<'p>>,
}

impl<'p> SignatureInfo<'p> {
    /// The signature info that an element is.
    pub fn read(element: Element<'p>) -> Result<SignatureInfo<'p>, PacketFault>
        requires { element.value_start + length element.value.now < 2 ^ 64 }
        ensures { MatchResult result
            (λ i. info_in (item element.entry) ≡ Ok (info i))
            (λ fault. info_in (item element.entry) ≡ Err fault) }
    {
        let gathered = InfoFields::of_fields(element)?;
        gathered.into_info()
    }
}

impl<'p> InfoFields<'p> {
    fn of_fields(element: Element<'p>) -> Result<InfoFields<'p>, PacketFault>
        requires { element.value_start + length element.value.now < 2 ^ 64 }
        ensures { MatchResult result
            (λ g. info_fields (item element.entry) ≡ Ok (info_so_far g))
            (λ fault. info_fields (item element.entry) ≡ Err fault) }
    {
        let elements = Reader::new(element.value, element.value_start);
        let mut fields = FieldReader::new(elements, &SIGNATURE_INFO);
        let mut gathered = InfoFields {
            signature_type: None,
            locator: None,
        };
        while let Some(next) = fields.next()? {
            let (field, element) = next;
            gathered.take(field, element)?;
        }
        Ok(gathered)
    }

    fn take(&mut self, field: InfoField, element: Element<'p>) -> Result<(), PacketFault>
        requires { element.value_start + length element.value.now < 2 ^ 64 }
        ensures { MatchResult result
            (λ _. with_info_field (info_so_far self.old) (field, item element.entry)
            ≡ Ok (info_so_far self.new))
            (λ fault. with_info_field (info_so_far self.old) (field, item element.entry)
            ≡ Err fault) }
    {
        match field {
            InfoField::SignatureType => {
                self.signature_type = Some(number_in(Field::SignatureType, element)?);
            }
            InfoField::KeyLocator => self.locator = locator_in(element)?,
        }
        Ok(())
    }

    fn into_info(self) -> Result<SignatureInfo<'p>, PacketFault>
        ensures { MatchResult result
            (λ i. info_from (info_so_far self.entry) ≡ Ok (info i))
            (λ fault. info_from (info_so_far self.entry) ≡ Err fault) }
    {
        let missing = PacketFault::Missing {
            field: Field::SignatureType,
        };
        Ok(SignatureInfo {
            signature_type: self.signature_type.ok_or(missing)?,
            locator: self.locator,
        })
    }
}

// The name in a key locator, if it is one that has a name.
fn locator_in(element: Element<'_>) -> Result<Option<NameView<'_>>, PacketFault>
    requires { element.value_start + length element.value.now < 2 ^ 64 }
    ensures { MatchResult result
        (λ locator. locator_in (item element.entry) ≡ Ok locator)
        (λ fault. locator_in (item element.entry) ≡ Err fault) }
{
    let bad = bad_field(Field::KeyLocator, element);
    let first = first_element(bad, element.value, element.value_start)?;
    match first.typ {
        types::NAME => Ok(Some(name_in(bad, first)?)),
        types::KEY_DIGEST => Ok(None),
        _ => Err(bad),
    }
}

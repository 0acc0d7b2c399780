ghost use Rattle.std.specs.Prelude.{◌≡◌, ◌+◌, ◌≤◌, length, MatchResult, Ok, Err, IfOk, OnOk, IfSome};
ghost use Rattle.ndn_tlv.specs.Types as standard;
ghost use Rattle.ndn_tlv.specs.Spelling.{element};
ghost use Rattle.ndn_tlv.specs.Elements.{item, placed};
ghost use Rattle.ndn_packet.specs.Outer.{packet_limit};
ghost use Rattle.ndn_data.specs.Signed.{Signs};
ghost use Rattle.ndn_data.specs.Data.{with_data_field, data_fields, data_so_far, NameStartsBy};

use crate::meta_info::{MetaInfo, PLAIN};
use ndn_name::{Field, NameView, PacketFault};
use ndn_packet::{SignatureInfo, bad_field, name_in};
use ndn_tlv::{Element, FieldReader, Place, Reader, types};

#[derive(Clone, Copy)]
enum DataField {
    Name,
    MetaInfo,
    Content,
    SignatureInfo,
    SignatureValue,
}

const DATA: [Place<DataField>; 5] = [
    Place {
        typ: types::NAME,
        field: DataField::Name,
        repeats: false,
    },
    Place {
        typ: types::META_INFO,
        field: DataField::MetaInfo,
        repeats: false,
    },
    Place {
        typ: types::CONTENT,
        field: DataField::Content,
        repeats: false,
    },
    Place {
        typ: types::SIGNATURE_INFO,
        field: DataField::SignatureInfo,
        repeats: false,
    },
    Place {
        typ: types::SIGNATURE_VALUE,
        field: DataField::SignatureValue,
        repeats: false,
    },
];

// The fields of a packet as far as they have come.
#[derive(Drop)]
pub(crate) struct DataFields<'p> {
    // With its element's offset.
    pub(crate) name: Option<(usize, NameView<'p>)>,
    pub(crate) meta: MetaInfo<'p>,
    pub(crate) content: &'p [u8],
    pub(crate) info: Option<SignatureInfo<'p>>,
    // With the octets that it signs.
    pub(crate) signature: Option<(&'p [u8], &'p [u8])>,
}

impl<'p> DataFields<'p> {
    // The fields of the packet whose octets these are and whose element is `outer`.
    pub(crate) fn of_fields(
        octets: &'p [u8],
        outer: Element<'p>,
    ) -> Result<DataFields<'p>, PacketFault>
        requires whole { octets.now ≡ element standard.Data outer.value.now }
        requires placed { item outer ≡ placed 0 standard.Data outer.value.now }
        requires short { length octets.now ≤ packet_limit }
        ensures read { MatchResult result
            (λ g. data_fields octets.now (item outer.entry) ≡ Ok (data_so_far g))
            (λ fault. data_fields octets.now (item outer.entry) ≡ Err fault) }
        ensures signs { IfOk result
            (λ g. IfSome g.signature (λ s. Signs outer.entry.value.now s.1.now s.0.now)) }
    {
        let elements = Reader::new(outer.value, outer.value_start);
        let mut fields = FieldReader::new(elements, &DATA);
        let mut gathered = DataFields {
            name: None,
            meta: PLAIN,
            content: &[],
            info: None,
            signature: None,
        };
        while let Some(next) = fields.next()? {
            let (field, element) = next;
            gathered.take(octets, field, element)?;
        }
        Ok(gathered)
    }

    fn take(
        &mut self,
        octets: &'p [u8],
        field: DataField,
        element: Element<'p>,
    ) -> Result<(), PacketFault>
        requires fits { element.value_start + length element.value.now ≤ length octets.now }
        requires starts { NameStartsBy element.start self.old }
        requires ends { element.start ≤ length octets.now }
        ensures taken { MatchResult result
            (λ _. with_data_field octets.now (data_so_far self.old) (field, item element.entry)
            ≡ Ok (data_so_far self.new))
            (λ fault. with_data_field octets.now (data_so_far self.old) (field, item element.entry)
            ≡ Err fault) }
        ensures starts { OnOk result (NameStartsBy element.entry.start self.new) }
    {
        match field {
            DataField::Name => {
                let name = name_in(bad_field(Field::Name, element), element)?;
                self.name = Some((element.start, name));
            }
            DataField::MetaInfo => self.meta = MetaInfo::read(element)?,
            DataField::Content => self.content = element.value,
            DataField::SignatureInfo => self.info = Some(SignatureInfo::read(element)?),
            DataField::SignatureValue => {
                let signed = match &self.name {
                    None => &octets[..0],
                    Some((start, _)) => &octets[*start..element.start],
                };
                self.signature = Some((element.value, signed));
            }
        }
        Ok(())
    }
}

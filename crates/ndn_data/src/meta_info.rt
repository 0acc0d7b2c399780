ghost use Rattle.std.specs.Prelude.{◌≡◌, ◌+◌, ◌<◌, ◌^◌, length, MatchResult, Ok, Err};
ghost use Rattle.ndn_tlv.specs.Elements.{item};
ghost use Rattle.ndn_name.specs.Names.{component};
ghost use Rattle.ndn_data.specs.MetaInfo.{with_meta_field, meta_in, final_block_in, meta};

use ndn_name::{ComponentView, Field, PacketFault};
use ndn_packet::{bad_field, name_in, number_in};
use ndn_tlv::{Element, FieldReader, Place, Reader, types};

// What a packet says of its content.
#[derive(Clone, Copy)]
pub(crate) struct MetaInfo<'p> {
    pub(crate) content_type: u64,
    // The last component of the name of the object's last segment.
    pub(crate) last: Option<ComponentView<'p>>,
}

#[derive(Clone, Copy)]
enum MetaField {
    ContentType,
    FreshnessPeriod,
    FinalBlockId,
}

const META_INFO: [Place<MetaField>; 3] = [
    Place {
        typ: types::CONTENT_TYPE,
        field: MetaField::ContentType,
        repeats: false,
    },
    Place {
        typ: types::FRESHNESS_PERIOD,
        field: MetaField::FreshnessPeriod,
        repeats: false,
    },
    Place {
        typ: types::FINAL_BLOCK_ID,
        field: MetaField::FinalBlockId,
        repeats: false,
    },
];

// The content type of a plain content (BLOB).
const BLOB: u64 = 0;

// The meta info of a packet that has none.
pub(crate) const PLAIN: MetaInfo<'static> = MetaInfo {
    content_type: BLOB,
    last: None,
};

impl<'p> MetaInfo<'p> {
    // The meta info that an element is.
    pub(crate) fn read(element: Element<'p>) -> Result<MetaInfo<'p>, PacketFault>
        requires { element.value_start + length element.value.now < 2 ^ 64 }
        ensures { MatchResult result
            (λ m. meta_in (item element.entry) ≡ Ok (meta m))
            (λ fault. meta_in (item element.entry) ≡ Err fault) }
    {
        let elements = Reader::new(element.value, element.value_start);
        let mut fields = FieldReader::new(elements, &META_INFO);
        let mut gathered = PLAIN;
        while let Some(next) = fields.next()? {
            let (field, element) = next;
            gathered.take(field, element)?;
        }
        Ok(gathered)
    }

    fn take(&mut self, field: MetaField, element: Element<'p>) -> Result<(), PacketFault>
        requires { element.value_start + length element.value.now < 2 ^ 64 }
        ensures { MatchResult result
            (λ _. with_meta_field (meta self.old) (field, item element.entry) ≡ Ok (meta self.new))
            (λ fault. with_meta_field (meta self.old) (field, item element.entry) ≡ Err fault) }
    {
        match field {
            MetaField::ContentType => {
                self.content_type = number_in(Field::ContentType, element)?;
            }
            MetaField::FreshnessPeriod => {
                number_in(Field::FreshnessPeriod, element)?;
            }
            MetaField::FinalBlockId => self.last = Some(final_block_in(element)?),
        }
        Ok(())
    }
}

// The one component that a FinalBlockId holds.
fn final_block_in(element: Element<'_>) -> Result<ComponentView<'_>, PacketFault>
    requires { element.value_start + length element.value.now < 2 ^ 64 }
    ensures { MatchResult result
        (λ c. final_block_in (item element.entry) ≡ Ok (component c))
        (λ fault. final_block_in (item element.entry) ≡ Err fault) }
{
    let bad = bad_field(Field::FinalBlockId, element);
    let name = name_in(bad, element)?;
    if name.len() != 1 {
        return Err(bad);
    }
    Ok(name.component(0))
}

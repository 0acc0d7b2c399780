ghost use Rattle.ndn_data.specs.Signed.{IsShort, IsWholeWhenLong};

use crate::data_fields::DataFields;
use crate::full_name::{is_full_name, is_same_name};
use ndn_name::{ComponentView, Field, NameView, PacketFault};
use ndn_packet::{element_len, outer_element};
use ndn_tlv::types;

/// A Data packet whose octets are lent.
#[derive(Debug, Drop)]
pub struct DataView<'p> {
    pub name: NameView<'p>,
    /// Empty where the packet has none.
    pub content: &'p [u8],
    /// That of a plain content (0), where the packet says nothing.
    pub content_type: u64,
    /// The last component of the name of the object's last segment (FinalBlockId).
    pub last: Option<ComponentView<'p>>,
    /// As `ndn_packet::SIGNATURE_HMAC_WITH_SHA256`.
    pub signature_type: u64,
    /// The key's name, where the key locator is a name.
    pub locator: Option<NameView<'p>>,
    pub signature: &'p [u8],
    // What the signature signs.
    signed: &'p [u8],
    // The value of the packet's element.
    value: &'p [u8],
    ghost short: { IsShort signed.now signature.now },
    ghost whole: { IsWholeWhenLong value.now signed.now signature.now },
}

impl<'p> DataView<'p> {
    ghost use Rattle.std.specs.Prelude.{◌≡◌, ◌↔◌, IsTrue, MatchResult, IfSome, Ok, Err};
    ghost use Rattle.ndn_name.specs.CanonicalOrder.{IsPrefix};
    ghost use Rattle.ndn_data.specs.Data.{data_of, data_from, data_seen, data_so_far, IsAllSigned, Satisfies};
    ghost use Rattle.ndn_data.specs.Signed.{Signs};

    /// The Data packet that the octets are.
    pub fn read(octets: &'p [u8]) -> Result<DataView<'p>, PacketFault>
        ensures { MatchResult result
            (λ d. data_of octets.now ≡ Ok (data_seen d))
            (λ fault. data_of octets.now ≡ Err fault) }
    {
        let outer = outer_element(octets, types::DATA)?;
        let gathered = DataFields::of_fields(octets, outer)?;
        DataView::of(outer.value, gathered)
    }

    // The packet of this value that the fields make.
    fn of(value: &'p [u8], gathered: DataFields<'p>) -> Result<DataView<'p>, PacketFault>
        requires { IfSome gathered.signature (λ s. Signs value.now s.1.now s.0.now) }
        ensures { MatchResult result
            (λ d. data_from value.now (data_so_far gathered.entry) ≡ Ok (data_seen d))
            (λ fault. data_from value.now (data_so_far gathered.entry) ≡ Err fault) }
    {
        let missing = |field| PacketFault::Missing { field };
        let (_, name) = gathered.name.ok_or(missing(Field::Name))?;
        let info = gathered.info.ok_or(missing(Field::SignatureInfo))?;
        let (signature, signed) = gathered.signature.ok_or(missing(Field::SignatureValue))?;
        Ok(DataView {
            name,
            content: gathered.content,
            content_type: gathered.meta.content_type,
            last: gathered.meta.last,
            signature_type: info.signature_type,
            locator: info.locator,
            signature,
            signed,
            value,
        })
    }

    /// The octets that are signed: from the beginning of the Name to the beginning of the
    /// SignatureValue, with what was passed over between them.
    pub fn signed_portion(&self) -> &'p [u8]
        ensures { result.now ≡ (data_seen self.now).signed }
    {
        self.signed
    }

    /// Whether the packet has no octets but those that are signed, and the signature after them.
    pub fn all_signed(&self) -> bool
        ensures { IsTrue result ↔ IsAllSigned (data_seen self.now) }
    {
        let signature = element_len(types::SIGNATURE_VALUE, self.signature.len());
        self.value.len() == self.signed.len() + signature
    }

    /// Whether an Interest of this name asks for the packet, whose digest is given: by its name or
    /// by its full name, or by a prefix of the full name, where the Interest allows that
    /// (CanBePrefix).
    pub fn satisfies(&self, name: &NameView<'_>, can_be_prefix: bool, digest: &[u8; 32]) -> bool
        ensures { IsTrue result ↔ Satisfies name.now can_be_prefix digest.now (data_seen self.now) }
    {
        is_full_name(name, &self.name, digest)
            || if can_be_prefix {
                name.is_prefix_of(&self.name)
            } else {
                is_same_name(name, &self.name)
            }
    }
}

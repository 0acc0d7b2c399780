ghost use Rattle.std.specs.Prelude.{◌≡◌, ◌≤◌, ◌↔◌, length, is_some, option_map, IsTrue, MatchResult, MatchOption, IfOk};
ghost use Rattle.std.specs.Prelude.{Ok, Err, Some, None};
ghost use Rattle.std.specs.Option.{option_map_or};
ghost use Rattle.ndn_packet.specs.SignatureInfo.{info};
ghost use Rattle.ndn_interest.specs.Interest.{interest_of, interest_from, ends_in_digest, signed_of, signature_parts};
ghost use Rattle.ndn_interest.specs.Interest.{interest_seen, interest_so_far, ParametersStartBy, IsDigested};

use crate::interest_fields::InterestFields;
use crate::parameters_digest::{before_digest, ends_in_digest, last_component};
use ndn_name::{Field, NameView, PacketFault};
use ndn_packet::{SignatureInfo, outer_element};
use ndn_sign::digest;
use ndn_tlv::types;

/// An Interest whose octets are lent.
#[derive(Debug, Drop)]
pub struct InterestView<'p> {
    pub name: NameView<'p>,
    pub can_be_prefix: bool,
    pub must_be_fresh: bool,
    pub nonce: Option<u32>,
    /// In milliseconds.
    pub lifetime: Option<u64>,
    pub hop_limit: Option<u8>,
    pub parameters: Option<&'p [u8]>,
    /// As `ndn_packet::SIGNATURE_HMAC_WITH_SHA256`.
    pub signature_type: Option<u64>,
    /// The key's name, where the key locator is a name.
    pub locator: Option<NameView<'p>>,
    pub signature: Option<&'p [u8]>,
    // What is signed, in two pieces.
    signed: Option<(&'p [u8], &'p [u8])>,
    // From the beginning of the parameters' element to the end of the packet.
    digested: Option<&'p [u8]>,
}

impl<'p> InterestView<'p> {
    /// The Interest that the octets are.
    ///
    /// One with a signature but without parameters, or without what says how it is signed, is read
    /// and counts as unsigned.
    pub fn read(octets: &'p [u8]) -> Result<InterestView<'p>, PacketFault>
        ensures { MatchResult result
            (λ i. interest_of octets.now ≡ Ok (interest_seen i))
            (λ fault. interest_of octets.now ≡ Err fault) }
    {
        let outer = outer_element(octets, types::INTEREST)?;
        let gathered = InterestFields::of_fields(octets, outer)?;
        InterestView::of(octets, gathered)
    }

    // The Interest of these octets that the fields make.
    fn of(octets: &'p [u8], gathered: InterestFields<'p>) -> Result<InterestView<'p>, PacketFault>
        requires { ParametersStartBy (length octets.now) gathered }
        ensures { MatchResult result
            (λ i. interest_from octets.now (interest_so_far gathered.entry) ≡ Ok (interest_seen i))
            (λ fault. interest_from octets.now (interest_so_far gathered.entry) ≡ Err fault) }
    {
        let missing = |field| PacketFault::Missing { field };
        let name = gathered.name.ok_or(missing(Field::Name))?;
        if gathered.parameters.is_some() && !ends_in_digest(&name) {
            return Err(missing(Field::ParametersDigest));
        }
        if gathered.info.is_some() && gathered.signature.is_none() {
            return Err(missing(Field::SignatureValue));
        }
        let is_complete = gathered.parameters.is_some() && gathered.info.is_some();
        let signed = signed_of(&name, is_complete, gathered.signature);
        let (signature_type, locator) = parts_of(gathered.info);
        Ok(InterestView {
            name,
            can_be_prefix: gathered.can_be_prefix,
            must_be_fresh: gathered.must_be_fresh,
            nonce: gathered.nonce,
            lifetime: gathered.lifetime,
            hop_limit: gathered.hop_limit,
            parameters: gathered.parameters.map(|(_, value)| value),
            signature_type,
            locator,
            signature: gathered.signature.map(|(value, _)| value),
            signed,
            digested: gathered.parameters.map(|(start, _)| &octets[start..]),
        })
    }

    /// The octets that are signed, in two pieces: the name's components without the last, which is
    /// the parameters digest, and what stands from the beginning of ApplicationParameters to the
    /// beginning of InterestSignatureValue, with what was passed over between them. None where the
    /// Interest counts as unsigned.
    pub fn signed_portion(&self) -> Option<(&'p [u8], &'p [u8])>
        ensures { MatchOption result
            ((interest_seen self.now).signed ≡ None)
            (λ pieces. (interest_seen self.now).signed ≡ Some (pieces.0.now, pieces.1.now)) }
    {
        self.signed
    }

    /// Whether the Interest has parameters, and the last component of its name is their digest: the
    /// SHA-256 of the octets from the beginning of ApplicationParameters to the packet's end.
    pub fn params_digest_matches(&self) -> bool
        ensures { IsTrue result ↔ IsDigested (interest_seen self.now) }
    {
        match (self.digested, last_component(&self.name)) {
            (Some(octets), Some(last)) => {
                last.typ == types::PARAMETERS_SHA256_DIGEST_COMPONENT
                    && last.value == digest(octets).as_slice()
            }
            _ => false,
        }
    }
}

// What is signed, in two pieces, where the Interest has parameters and says how it is signed.
fn signed_of<'p>(
    name: &NameView<'p>,
    is_complete: bool,
    signature: Option<(&'p [u8], Option<&'p [u8]>)>,
) -> Option<(&'p [u8], &'p [u8])>
    requires { IsTrue is_complete → IsTrue (ends_in_digest name.now) }
    ensures { option_map (λ s. (s.0.now, s.1.now)) result
        ≡ signed_of name.now is_complete (signature_parts signature.entry) }
{
    if !is_complete {
        return None;
    }
    let (_, portion) = signature?;
    let portion = portion?;
    Some((before_digest(name), portion))
}

// How a packet is signed and the name of the key, where it says so.
fn parts_of<'p>(signature_info: Option<SignatureInfo<'p>>) -> (Option<u64>, Option<NameView<'p>>)
    ensures typ { result.0
        ≡ option_map (λ i. i.signature_type) (option_map info signature_info.entry) }
    ensures locator { result.1
        ≡ option_map_or (λ i. i.locator) (option_map info signature_info.entry) None }
{
    match signature_info {
        None => (None, None),
        Some(info) => (Some(info.signature_type), info.locator),
    }
}

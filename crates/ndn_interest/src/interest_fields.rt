ghost use Rattle.std.specs.Prelude.{◌≡◌, ◌+◌, ◌≤◌, ◌^◌, ◌<◌, length, MatchResult, Ok, Err, IfOk, OnOk};
ghost use Rattle.ndn_tlv.specs.Elements.{item};
ghost use Rattle.ndn_interest.specs.Interest.{interest_name_in, flag_in, nonce_in, hop_limit_in, with_interest_field};
ghost use Rattle.ndn_interest.specs.Interest.{interest_fields, interest_so_far, ParametersStartBy};

use ndn_name::{Field, NameView, PacketFault};
use ndn_packet::{SignatureInfo, bad_field, name_in, number_in};
use ndn_tlv::{Element, FieldReader, Place, Reader, types};

#[derive(Clone, Copy)]
enum InterestField {
    Name,
    CanBePrefix,
    MustBeFresh,
    ForwardingHint,
    Nonce,
    InterestLifetime,
    HopLimit,
    ApplicationParameters,
    InterestSignatureInfo,
    InterestSignatureValue,
}

const INTEREST: [Place<InterestField>; 10] = [
    Place {
        typ: types::NAME,
        field: InterestField::Name,
        repeats: false,
    },
    Place {
        typ: types::CAN_BE_PREFIX,
        field: InterestField::CanBePrefix,
        repeats: false,
    },
    Place {
        typ: types::MUST_BE_FRESH,
        field: InterestField::MustBeFresh,
        repeats: false,
    },
    Place {
        typ: types::FORWARDING_HINT,
        field: InterestField::ForwardingHint,
        repeats: false,
    },
    Place {
        typ: types::NONCE,
        field: InterestField::Nonce,
        repeats: false,
    },
    Place {
        typ: types::INTEREST_LIFETIME,
        field: InterestField::InterestLifetime,
        repeats: false,
    },
    Place {
        typ: types::HOP_LIMIT,
        field: InterestField::HopLimit,
        repeats: false,
    },
    Place {
        typ: types::APPLICATION_PARAMETERS,
        field: InterestField::ApplicationParameters,
        repeats: false,
    },
    Place {
        typ: types::INTEREST_SIGNATURE_INFO,
        field: InterestField::InterestSignatureInfo,
        repeats: false,
    },
    Place {
        typ: types::INTEREST_SIGNATURE_VALUE,
        field: InterestField::InterestSignatureValue,
        repeats: false,
    },
];

// The fields of an Interest as far as they have come.
#[derive(Drop)]
pub(crate) struct InterestFields<'p> {
    pub(crate) name: Option<NameView<'p>>,
    pub(crate) can_be_prefix: bool,
    pub(crate) must_be_fresh: bool,
    pub(crate) nonce: Option<u32>,
    pub(crate) lifetime: Option<u64>,
    pub(crate) hop_limit: Option<u8>,
    // With their element's offset.
    pub(crate) parameters: Option<(usize, &'p [u8])>,
    pub(crate) info: Option<SignatureInfo<'p>>,
    // With the octets from the parameters up to it, where there are parameters.
    pub(crate) signature: Option<(&'p [u8], Option<&'p [u8]>)>,
}

impl<'p> InterestFields<'p> {
    // The fields of the packet whose octets these are and whose element is `outer`.
    pub(crate) fn of_fields(
        octets: &'p [u8],
        outer: Element<'p>,
    ) -> Result<InterestFields<'p>, PacketFault>
        requires { outer.value_start + length outer.value.now ≤ length octets.now }
        ensures read { MatchResult result
            (λ g. interest_fields octets.now (item outer.entry) ≡ Ok (interest_so_far g))
            (λ fault. interest_fields octets.now (item outer.entry) ≡ Err fault) }
        ensures starts { IfOk result (ParametersStartBy (length octets.now)) }
    {
        let elements = Reader::new(outer.value, outer.value_start);
        let mut fields = FieldReader::new(elements, &INTEREST);
        let mut gathered = InterestFields {
            name: None,
            can_be_prefix: false,
            must_be_fresh: false,
            nonce: None,
            lifetime: None,
            hop_limit: None,
            parameters: None,
            info: None,
            signature: None,
        };
        while let Some(next) = fields.next()? {
            let (field, element) = next;
            gathered.take(octets, field, element)?;
        }
        Ok(gathered)
    }

    fn take(
        &mut self,
        octets: &'p [u8],
        field: InterestField,
        element: Element<'p>,
    ) -> Result<(), PacketFault>
        requires fits { element.value_start + length element.value.now ≤ length octets.now }
        requires starts { ParametersStartBy element.start self.old }
        requires ends { element.start ≤ length octets.now }
        ensures taken { MatchResult result
            (λ _. with_interest_field octets.now (interest_so_far self.old) (field, item element.entry)
            ≡ Ok (interest_so_far self.new))
            (λ fault. with_interest_field octets.now (interest_so_far self.old) (field, item element.entry)
            ≡ Err fault) }
        ensures starts { OnOk result (ParametersStartBy element.entry.start self.new) }
    {
        match field {
            InterestField::Name => self.name = Some(interest_name_in(element)?),
            InterestField::CanBePrefix => {
                self.can_be_prefix = flag_in(Field::CanBePrefix, element)?;
            }
            InterestField::MustBeFresh => {
                self.must_be_fresh = flag_in(Field::MustBeFresh, element)?;
            }
            InterestField::ForwardingHint => {}
            InterestField::Nonce => self.nonce = Some(nonce_in(element)?),
            InterestField::InterestLifetime => {
                self.lifetime = Some(number_in(Field::InterestLifetime, element)?);
            }
            InterestField::HopLimit => self.hop_limit = Some(hop_limit_in(element)?),
            InterestField::ApplicationParameters => {
                self.parameters = Some((element.start, element.value));
            }
            InterestField::InterestSignatureInfo => {
                self.info = Some(SignatureInfo::read(element)?);
            }
            InterestField::InterestSignatureValue => {
                let portion = match self.parameters {
                    None => None,
                    Some((start, _)) => Some(&octets[start..element.start]),
                };
                self.signature = Some((element.value, portion));
            }
        }
        Ok(())
    }
}

// The name of an Interest, which has one component at least.
fn interest_name_in<'p>(element: Element<'p>) -> Result<NameView<'p>, PacketFault>
    requires { element.value_start + length element.value.now < 2 ^ 64 }
    ensures { MatchResult result
        (λ name. interest_name_in (item element.entry) ≡ Ok name)
        (λ fault. interest_name_in (item element.entry) ≡ Err fault) }
{
    let bad = bad_field(Field::Name, element);
    let name = name_in(bad, element)?;
    if name.len() == 0 {
        return Err(bad);
    }
    Ok(name)
}

// A field that is there without a value.
fn flag_in(field: Field, element: Element<'_>) -> Result<bool, PacketFault>
    ensures { MatchResult result
        (λ b. flag_in field (item element.entry) ≡ Ok b)
        (λ fault. flag_in field (item element.entry) ≡ Err fault) }
{
    if !element.value.is_empty() {
        return Err(bad_field(field, element));
    }
    Ok(true)
}

// A nonce of four octets.
fn nonce_in(element: Element<'_>) -> Result<u32, PacketFault>
    ensures { MatchResult result
        (λ n. nonce_in (item element.entry) ≡ Ok n)
        (λ fault. nonce_in (item element.entry) ≡ Err fault) }
{
    match element.value {
        [a, b, c, d] => Ok(u32::from_be_bytes([*a, *b, *c, *d])),
        _ => Err(bad_field(Field::Nonce, element)),
    }
}

// A hop limit of one octet.
fn hop_limit_in(element: Element<'_>) -> Result<u8, PacketFault>
    ensures { MatchResult result
        (λ n. hop_limit_in (item element.entry) ≡ Ok n)
        (λ fault. hop_limit_in (item element.entry) ≡ Err fault) }
{
    match element.value {
        [n] => Ok(*n),
        _ => Err(bad_field(Field::HopLimit, element)),
    }
}

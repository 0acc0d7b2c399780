ghost use Rattle.std.specs.Prelude.{◌≡◌, ◌+◌, ◌^◌, ◌<◌, length, MatchResult, Ok, Err};
ghost use Rattle.ndn_name.specs.Uri.{IsEscaped, IsValueText, are_periods, is_unreserved};
ghost use Rattle.ndn_name.specs.UriReading.{ReadsText, octet_at};

use crate::name_fault::NameFault;
use crate::uri_digits::pair_at;
use std::alloc::Global;

// Whether an octet stands for itself in a text.
pub(crate) fn is_unreserved(octet: u8) -> bool
    ensures { result ≡ is_unreserved octet }
{
    octet.is_ascii_alphanumeric() || matches!(octet, b'-' | b'.' | b'_' | b'~')
}

// The octet whose text is at the start of a text that begins at place `at`, and what follows it.
#[tactic(auto, unfolding(crate::specs::UriReading::octet_at))]
pub(crate) fn octet_at(text: &[u8], at: usize) -> Result<(u8, &[u8]), NameFault>
    requires { at + length text.now < 2 ^ 63 }
    ensures { MatchResult result (λ x. octet_at at text.now ≡ Ok (x.0, x.1.now))
        (λ f. octet_at at text.now ≡ Err f) }
{
    match text {
        [b'%', rest @ ..] => pair_at(rest, at + 1),
        [octet, rest @ ..] if is_unreserved(*octet) => Ok((*octet, rest)),
        _ => Err(NameFault::BadUri { place: at }),
    }
}

// The octets that the text is the escapes of.
fn unescape(alloc: Global, text: &[u8], at: usize) -> Result<Vec<u8>, NameFault>
    requires { at + length text.now < 2 ^ 63 }
    ensures { ReadsText (λ v. v.items) IsEscaped at text.now result }
{
    let mut octets = Vec::new(alloc);
    let mut rest = text;
    while !rest.is_empty() {
        let (octet, following) = octet_at(rest, at + (text.len() - rest.len()))?;
        octets.push(octet)?;
        rest = following;
    }
    Ok(octets)
}

// The value whose text this is: three periods or more, alone, stand for three fewer.
pub(crate) fn read_value(alloc: Global, text: &[u8], at: usize) -> Result<Vec<u8>, NameFault>
    requires { at + length text.now < 2 ^ 63 }
    ensures { ReadsText (λ v. v.items) IsValueText at text.now result }
{
    let mut value = unescape(alloc, text, at)?;
    if !are_periods(&value) {
        return Ok(value);
    }
    if value.len() < 3 {
        return Err(NameFault::BadUri {
            place: at + text.len(),
        });
    }
    value.truncate(value.len() - 3);
    Ok(value)
}

// Whether the octets are periods alone, as they are where there are none.
pub(crate) fn are_periods(octets: &[u8]) -> bool
    ensures { result ≡ are_periods octets.now }
{
    octets.iter().all(|octet| *octet == b'.')
}

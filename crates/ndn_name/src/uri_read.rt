ghost use Rattle.std.specs.Prelude.{◌≡◌, ◌≢◌, ◌+◌, ◌^◌, ◌<◌, ◌≤◌, [], ◌∷◌, ◌++◌, ◌⊎◌, ◌↔◌, length, map, codes};
ghost use Rattle.std.specs.Prelude.{MatchOption, MatchResult, IfOk, IfErr, OnOk, None, Some, Ok, Err, List};
ghost use Rattle.std.specs.List.{AllByRecursion};
ghost use Rattle.ndn_name.specs.Names.{Component, encoding};
ghost use Rattle.ndn_name.specs.Uri.{IsPath, IsRooted, IsUri, name_of_parts};
ghost use Rattle.ndn_name.specs.UriVerdict.{IsUriVerdict, first_bad_digest};
ghost use Rattle.ndn_name.specs.UriReading.{BeginsWithAnother, BreaksOff, MayBeAppended, ReadsText, uri_part};
ghost use Rattle.ndn_name.specs.UriText.{plain_name_of_text};

use crate::name::{NAME_LIMIT, Name};
use crate::name_fault::NameFault;
use crate::uri_component::{read_component, split_once};
use crate::uri_form::{PartValue, UriPart};
use ndn_tlv::types;
use std::alloc::Global;

impl Name {
    /// The name whose URI the text is.
    ///
    /// A place in a fault counts the octets of the text before it.
    pub fn from_uri(alloc: Global, text: &str) -> Result<Name, NameFault>
        ensures answer { result ≢ Err NameFault.NoMemory → IsUriVerdict text.now result }
        ensures plain { (name : List Component)
            → plain_name_of_text text.now ≡ Some name → length (encoding name) ≤ NAME_LIMIT
            → (result ≡ Ok name) ⊎ (result ≡ Err NameFault.NoMemory) }
    {
        let parts = read_uri(alloc, text.as_bytes())?;
        if let Some(at) = first_bad_digest(&parts) {
            return Err(NameFault::BadDigestLength { at });
        }
        name_of_parts(alloc, &parts)
    }
}

// The parts of the text of a name.
fn read_uri(alloc: Global, text: &[u8]) -> Result<Vec<UriPart>, NameFault>
    requires { length text.now < 2 ^ 63 }
    ensures { ReadsText (λ v. map uri_part v.items) IsUri 0 text.now result }
{
    match after_scheme(text) {
        Ok(path) => read_rooted(alloc, path, 4),
        Err(0) => read_rooted(alloc, text, 0),
        Err(place) => Err(NameFault::BadUri { place }),
    }
}

// What follows the scheme at the start, or how much of the scheme is there.
pub(crate) fn after_scheme(text: &[u8]) -> Result<&[u8], usize>
    ensures { MatchResult result
        (λ path. text.now ≡ codes "ndn:" ++ path.now) (BreaksOff (codes "ndn:") text.now) }
{
    let mut rest = text;
    for (place, octet) in b"ndn:".iter().enumerate() {
        let Some(following) = after_octet(rest, *octet) else {
            return Err(place);
        };
        rest = following;
    }
    Ok(rest)
}

// What follows an octet at the start, where it is there.
pub(crate) fn after_octet(text: &[u8], octet: u8) -> Option<&[u8]>
    ensures { MatchOption result (BeginsWithAnother octet text.now)
        (λ rest. text.now ≡ octet ∷ rest.now) }
{
    match text {
        [first, rest @ ..] if *first == octet => Some(rest),
        _ => None,
    }
}

// The parts of a text that begins with a slash at place `at`.
fn read_rooted(alloc: Global, text: &[u8], at: usize) -> Result<Vec<UriPart>, NameFault>
    requires { at + length text.now < 2 ^ 63 }
    ensures { ReadsText (λ v. map uri_part v.items) (IsRooted at) at text.now result }
{
    let Some(path) = after_octet(text, b'/') else {
        return Err(NameFault::BadUri { place: at });
    };
    if path.is_empty() {
        return Ok(Vec::new(alloc));
    }
    read_path(alloc, path, at)
}

// The parts of a text that follows a slash at place `at`.
fn read_path(alloc: Global, path: &[u8], at: usize) -> Result<Vec<UriPart>, NameFault>
    requires { at + 1 + length path.now < 2 ^ 63 }
    ensures { ReadsText (λ v. map uri_part v.items) (IsPath at) at (47 ∷ path.now) result }
{
    let mut parts = Vec::new(alloc);
    let mut left = Some(path);
    while let Some(text) = left {
        let at = at + 1 + (path.len() - text.len());
        let (first, following) = split_once(text, b'/');
        let (typ, value) = read_component(alloc, first, at)?;
        parts.push(UriPart { at, typ, value })?;
        left = following;
    }
    Ok(parts)
}

// Where the first digest stands that has not 32 octets.
fn first_bad_digest(parts: &[UriPart]) -> Option<usize>
    ensures { result ≡ first_bad_digest (map uri_part parts.now) }
{
    for part in parts {
        if part.typ <= types::PARAMETERS_SHA256_DIGEST_COMPONENT && !part.value.is_digest() {
            return Some(part.at);
        }
    }
    None
}

// The name of the parts.
fn name_of_parts(alloc: Global, parts: &[UriPart]) -> Result<Name, NameFault>
    requires { AllByRecursion MayBeAppended (name_of_parts (map uri_part parts.now)) }
    ensures ok { IfOk result (λ name. name ≡ name_of_parts (map uri_part parts.now)) }
    ensures fits { OnOk result (length (encoding (name_of_parts (map uri_part parts.now))) ≤ NAME_LIMIT) }
    ensures too_long { result ≡ Err NameFault.NameTooLong
        → NAME_LIMIT < length (encoding (name_of_parts (map uri_part parts.now))) }
    ensures refused { IfErr result
        (λ fault. (fault ≡ NameFault.NameTooLong) ⊎ (fault ≡ NameFault.NoMemory)) }
{
    let mut name = Name::new(alloc);
    for part in parts {
        push_part(&mut name, part)?;
    }
    Ok(name)
}

// Appends a part.
fn push_part(name: &mut Name, part: &UriPart) -> Result<(), NameFault>
    requires { MayBeAppended (uri_part part.now).1 }
    ensures ok { OnOk result (name.new ≡ name.old ++ (uri_part part.now).1 ∷ []) }
    ensures too_long { (result ≡ Err NameFault.NameTooLong)
        ↔ (NAME_LIMIT < length (encoding (name.old ++ (uri_part part.now).1 ∷ []))) }
    ensures refused { IfErr result
        (λ fault. (fault ≡ NameFault.NameTooLong) ⊎ (fault ≡ NameFault.NoMemory)) }
{
    match &part.value {
        PartValue::Octets(value) => name.push(part.typ, value),
        PartValue::Number(n) => name.push_number(part.typ, *n),
    }
}

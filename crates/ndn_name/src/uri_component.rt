ghost use Rattle.std.specs.Prelude.{◌≡◌, ◌+◌, ◌^◌, ◌<◌, length, IfSome, IfNone};
ghost use Rattle.std.specs.Option.{option_copied};
ghost use Rattle.ndn_name.specs.declared.uri_form.Form.{Form};
ghost use Rattle.ndn_name.specs.Uri.{IsComponentText, headed};
ghost use Rattle.ndn_name.specs.UriReading.{HasNoHead, IsHead, IsTail, ReadsText, Splits, keyword_of, value_octets};

use crate::name_fault::NameFault;
use crate::uri_digits::{read_decimal, read_digest};
use crate::uri_form::{Form, PartValue};
use crate::uri_value::read_value;
use ndn_tlv::types;
use std::alloc::Global;

// The component whose text this is, which begins at place `at`.
pub(crate) fn read_component(
    alloc: Global,
    text: &[u8],
    at: usize,
) -> Result<(u16, PartValue), NameFault>
    requires { at + length text.now < 2 ^ 63 }
    ensures { ReadsText (λ x. (x.0, value_octets x.1)) IsComponentText at text.now result }
{
    match split_head(text) {
        Some((form, head, tail)) => read_tail(alloc, form, tail, at + head.len() + 1),
        None => {
            let value = read_value(alloc, text, at)?;
            Ok((types::GENERIC_NAME_COMPONENT, PartValue::Octets(value)))
        }
    }
}

// The form that the text has, its head, and what follows the equals sign, where it has a head.
pub(crate) fn split_head(text: &[u8]) -> Option<(Form, &[u8], &[u8])>
    ensures some { IfSome result (λ x. IsHead x.0 x.1.now × (text.now ≡ headed x.1.now x.2.now)) }
    ensures none { IfNone result (HasNoHead text.now) }
{
    let (head, following) = split_once(text, b'=');
    let tail = following?;
    let form = form_of(head)?;
    Some((form, head, tail))
}

// The component whose text this is after a head of this form.
fn read_tail(
    alloc: Global,
    form: Form,
    tail: &[u8],
    at: usize,
) -> Result<(u16, PartValue), NameFault>
    requires { at + length tail.now < 2 ^ 63 }
    ensures { ReadsText (λ x. (x.0, value_octets x.1)) (IsTail form) at tail.now result }
{
    match form {
        Form::Digest(typ) => {
            let digest = read_digest(tail, at)?;
            Ok((typ, PartValue::Octets(Vec::from_slice(alloc, &digest)?)))
        }
        Form::Number(typ) => Ok((typ, PartValue::Number(read_decimal(tail, at, u64::MAX)?))),
        Form::Escaped(typ) => Ok((typ, PartValue::Octets(read_value(alloc, tail, at)?))),
    }
}

// How the value after this head is written, where it is a head.
fn form_of(head: &[u8]) -> Option<Form>
    ensures some { IfSome result (λ form. IsHead form head.now) }
    ensures none { IfNone result ((form : Form) → IsHead form head.now → ⊥) }
{
    if let Some(form) = keyword(head) {
        return Some(form);
    }
    let Ok(typ) = read_decimal(head, 0, 65_535) else {
        return None;
    };
    if typ == 0 {
        return None;
    }
    Some(Form::Escaped(typ as u16))
}

// What a keyword says.
fn keyword(head: &[u8]) -> Option<Form>
    ensures { result ≡ keyword_of head.now }
{
    if head == b"sha256digest".as_slice() {
        Some(Form::Digest(types::IMPLICIT_SHA256_DIGEST_COMPONENT))
    } else if head == b"params-sha256".as_slice() {
        Some(Form::Digest(types::PARAMETERS_SHA256_DIGEST_COMPONENT))
    } else if head == b"seg".as_slice() {
        Some(Form::Number(types::SEGMENT_NAME_COMPONENT))
    } else if head == b"v".as_slice() {
        Some(Form::Number(types::VERSION_NAME_COMPONENT))
    } else if head == b"seq".as_slice() {
        Some(Form::Number(types::SEQUENCE_NUM_NAME_COMPONENT))
    } else {
        None
    }
}

// What stands before the first such octet, and what after it, if there is one.
pub(crate) fn split_once(text: &[u8], octet: u8) -> (&[u8], Option<&[u8]>)
    ensures { Splits octet text.now result.0.now (option_copied result.1) }
{
    for (i, found) in text.iter().enumerate() {
        if *found == octet {
            return (&text[..i], Some(&text[i + 1..]));
        }
    }
    (text, None)
}

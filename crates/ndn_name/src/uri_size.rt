ghost use Rattle.std.specs.Prelude.{◌≡◌, ◌+◌, ◌*◌, ◌^◌, ◌<◌, ◌≤◌, ◌==◌, length, option_and_then, IfSome};
ghost use Rattle.std.specs.List.{slice_split};
ghost use Rattle.std.specs.Option.{option_map};
ghost use Rattle.ndn_tlv.specs.Spelling.{element, head};
ghost use Rattle.ndn_name.specs.Names.{encoding};
ghost use Rattle.ndn_name.specs.UriReading.{shape, tail_of_text};
ghost use Rattle.ndn_name.specs.UriText.{component_of_text, components_of_texts, digest_of_text, number_of_text};
ghost use Rattle.ndn_name.specs.UriText.{plain_component, plain_name, plain_name_of_text, value_of_text};

use crate::uri_component::{split_head, split_once};
use crate::uri_digits::{read_decimal, read_digest};
use crate::uri_form::Form;
use crate::uri_print::width_of;
use crate::uri_read::{after_octet, after_scheme};
use crate::uri_value::octet_at;
use ndn_tlv::{head_len, types};

/// How many octets the value of the name has whose URI the text is, where the name has no digest: no
/// component of type 1 or 2.
///
/// It allocates nothing, and the name may be longer than a `Name` can be. Where it isn't,
/// `Name::from_uri` gives it.
pub fn plain_uri_len(text: &str) -> Option<usize>
    ensures { result ≡ option_map (λ name. length (encoding name)) (plain_name_of_text text.now) }
{
    let text = text.as_bytes();
    let path = after_octet(after_scheme(text).unwrap_or(text), b'/')?;
    if path.is_empty() {
        return Some(0);
    }
    path_len(path)
}

// The same for what stands after the first slash, where that is something.
fn path_len(path: &[u8]) -> Option<usize>
    requires { length path.now + 1 < 2 ^ 63 }
    ensures { result ≡ option_map (λ name. length (encoding name))
        (option_and_then plain_name (components_of_texts (slice_split (λ o. o == 47) path.now))) }
{
    let mut len = 0;
    let mut left = Some(path);
    while let Some(text) = left {
        let (first, following) = split_once(text, b'/');
        len += component_len(first)?;
        left = following;
    }
    Some(len)
}

// How many octets the component takes in its name whose text this is, where it is no digest.
fn component_len(text: &[u8]) -> Option<usize>
    requires { length text.now + 1 < 2 ^ 63 }
    ensures exact { result ≡ option_map (λ c. length (element c.0 c.1))
        (option_and_then plain_component (component_of_text text.now)) }
    ensures small { IfSome result (λ len. len ≤ 2 * length text.now + 2) }
{
    let (typ, len) = component_shape(text)?;
    if typ <= types::PARAMETERS_SHA256_DIGEST_COMPONENT {
        return None;
    }
    Some(head_len(u32::from(typ), len) + len)
}

// The type of the component whose text this is, and how many octets its value has.
fn component_shape(text: &[u8]) -> Option<(u16, usize)>
    requires { length text.now + 1 < 2 ^ 63 }
    ensures exact { result ≡ option_map shape (component_of_text text.now) }
    ensures small { IfSome result (λ x. length (head x.0 x.1) + x.1 ≤ 2 * length text.now + 2) }
{
    match split_head(text) {
        Some((form, _, tail)) => tail_shape(form, tail),
        None => Some((types::GENERIC_NAME_COMPONENT, value_len(text)?)),
    }
}

// The same of what follows a head of this form.
fn tail_shape(form: Form, tail: &[u8]) -> Option<(u16, usize)>
    requires { length tail.now < 2 ^ 63 }
    ensures exact { result ≡ option_map shape (tail_of_text form tail.now) }
    ensures small { IfSome result (λ x. length (head x.0 x.1) + x.1 ≤ 2 * length tail.now + 6) }
{
    match form {
        Form::Digest(typ) => Some((typ, digest_len(tail)?)),
        Form::Number(typ) => Some((typ, number_len(tail)?)),
        Form::Escaped(typ) => Some((typ, value_len(tail)?)),
    }
}

// How many octets the digest has whose digits the text is.
fn digest_len(text: &[u8]) -> Option<usize>
    requires { length text.now < 2 ^ 63 }
    ensures exact { result ≡ option_map length (digest_of_text text.now) }
    ensures small { IfSome result (λ len. len ≤ length text.now) }
{
    match read_digest(text, 0) {
        Ok(digest) => Some(digest.len()),
        Err(_) => None,
    }
}

// How many octets the number takes whose decimal text this is.
fn number_len(text: &[u8]) -> Option<usize>
    requires { length text.now < 2 ^ 63 }
    ensures exact { result ≡ option_map length (number_of_text text.now) }
    ensures small { IfSome result (λ len. len ≤ 2 * length text.now + 2) }
    ensures narrow { IfSome result (λ len. len ≤ 8) }
{
    match read_decimal(text, 0, u64::MAX) {
        Ok(n) => Some(width_of(n)),
        Err(_) => None,
    }
}

// How many octets the value has whose text this is.
fn value_len(text: &[u8]) -> Option<usize>
    requires { length text.now < 2 ^ 63 }
    ensures exact { result ≡ option_map length (value_of_text text.now) }
    ensures small { IfSome result (λ len. len ≤ length text.now) }
{
    let mut len = 0usize;
    let mut periods = true;
    let mut rest = text;
    while !rest.is_empty() {
        match octet_at(rest, 0) {
            Ok((octet, following)) => {
                len += 1;
                periods &= octet == b'.';
                rest = following;
            }
            Err(_) => return None,
        }
    }
    if periods {
        len.checked_sub(3)
    } else {
        Some(len)
    }
}

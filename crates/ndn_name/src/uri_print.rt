ghost use Rattle.std.specs.Prelude.{◌≡◌, ◌++◌, ◌<◌, IfOk, OnOk, OnErr, false, string_bytes, length, take, decimal};
ghost use Rattle.std.specs.Fmt.{digit_glyph};
ghost use Rattle.std.specs.List.{flat_map};
ghost use Rattle.ndn_tlv.specs.NumberField.{number_field, number_of};
ghost use Rattle.ndn_name.specs.Uri.{component_text, digest_text, escape_of, in_shortest_width, number_text, hex_pair};
ghost use Rattle.ndn_name.specs.Uri.{plain_text, uri, value_text};

use crate::name::Name;
use crate::name_view::NameView;
use crate::uri_value::{are_periods, is_unreserved};
use itoa::Buffer;
use ndn_tlv::{Reader, read_number, types};
use std::alloc::{AllocError, Global};

impl Name {
    /// The URI of the name: of the texts that it has, the one that is printed.
    pub fn to_uri(&self, alloc: Global) -> Result<String, AllocError>
        ensures { IfOk result (λ text. string_bytes text ≡ uri self.now) }
    {
        let mut text = Vec::with_capacity(alloc, self.octets().len())?;
        self.view().put_uri(&mut text)?;
        Ok(String::from_utf8(text).unwrap())
    }
}

impl NameView<'_> {
    /// Appends the URI of the name, whole or not at all.
    pub fn put_uri(&self, out: &mut Vec<u8>) -> Result<(), AllocError>
        ensures ok { OnOk result (out.new.items ≡ out.old.items ++ uri self.now) }
        ensures err { OnErr result (out.new.items ≡ out.old.items) }
    {
        let before = out.len();
        let appended = self.put_uri_parts(out);
        if appended.is_err() {
            out.truncate(before);
        }
        appended
    }

    // Appends the parts of the URI, as far as memory goes.
    fn put_uri_parts(&self, out: &mut Vec<u8>) -> Result<(), AllocError>
        ensures ok { OnOk result (out.new.items ≡ out.old.items ++ uri self.now) }
        ensures prefix { take (length out.old.items) out.new.items ≡ out.old.items }
    {
        if self.len() == 0 {
            return out.extend_from_slice(b"/");
        }
        let mut elements = Reader::new(self.octets(), 0);
        while let Ok(Some(element)) = elements.next() {
            out.extend_from_slice(b"/")?;
            put_component(out, element.typ as u16, element.value)?;
        }
        Ok(())
    }
}

// The functions below append as far as memory goes.

// Appends the text of a component.
fn put_component(out: &mut Vec<u8>, typ: u16, value: &[u8]) -> Result<(), AllocError>
    ensures ok { OnOk result (out.new.items ≡ out.old.items ++ component_text (typ, value.now)) }
    ensures prefix { take (length out.old.items) out.new.items ≡ out.old.items }
{
    match typ {
        types::IMPLICIT_SHA256_DIGEST_COMPONENT => put_digest(out, "sha256digest=", value),
        types::PARAMETERS_SHA256_DIGEST_COMPONENT => put_digest(out, "params-sha256=", value),
        types::SEGMENT_NAME_COMPONENT => put_number(out, "seg=", typ, value),
        types::VERSION_NAME_COMPONENT => put_number(out, "v=", typ, value),
        types::SEQUENCE_NUM_NAME_COMPONENT => put_number(out, "seq=", typ, value),
        _ => put_plain(out, typ, value),
    }
}

// Appends a word, and the digits of a digest.
fn put_digest(out: &mut Vec<u8>, word: &str, digest: &[u8]) -> Result<(), AllocError>
    ensures ok { OnOk result (out.new.items ≡ out.old.items
        ++ (word.now ++ digest_text digest.now)) }
    ensures prefix { take (length out.old.items) out.new.items ≡ out.old.items }
{
    out.extend_from_slice(word.as_bytes())?;
    put_digits(out, digest)
}

// Appends two digits for each octet.
fn put_digits(out: &mut Vec<u8>, octets: &[u8]) -> Result<(), AllocError>
    ensures ok { OnOk result (out.new.items ≡ out.old.items ++ digest_text octets.now) }
    ensures prefix { take (length out.old.items) out.new.items ≡ out.old.items }
{
    for octet in octets {
        out.extend_from_slice(&pair(*octet, false))?;
    }
    Ok(())
}

// The two hexadecimal digits of an octet.
fn pair(octet: u8, upper: bool) -> [u8; 2]
    ensures { result ≡ hex_pair upper octet }
{
    [digit(octet / 16, upper), digit(octet % 16, upper)]
}

// A hexadecimal digit.
fn digit(value: u8, upper: bool) -> u8
    requires { value < 16 }
    ensures { result ≡ digit_glyph upper value }
{
    match value {
        0..=9 => b'0' + value,
        _ if upper => b'A' + (value - 10),
        _ => b'a' + (value - 10),
    }
}

// Appends a word and the number, where the value is a number in its shortest width, and else the
// value.
fn put_number(out: &mut Vec<u8>, word: &str, typ: u16, value: &[u8]) -> Result<(), AllocError>
    ensures ok { OnOk result (out.new.items ≡ out.old.items
        ++ number_text word.now (in_shortest_width value.now (number_of value.now))
        (typ, value.now)) }
    ensures prefix { take (length out.old.items) out.new.items ≡ out.old.items }
{
    let Some(n) = shortest_number(value) else {
        return put_plain(out, typ, value);
    };
    out.extend_from_slice(word.as_bytes())?;
    put_decimal(out, n)
}

// Appends a number in decimal.
fn put_decimal(out: &mut Vec<u8>, n: u64) -> Result<(), AllocError>
    ensures ok { OnOk result (out.new.items ≡ out.old.items ++ decimal n) }
    ensures prefix { take (length out.old.items) out.new.items ≡ out.old.items }
{
    out.extend_from_slice(Buffer::new().format(n).as_bytes())
}

// The number that the value is in its shortest width.
fn shortest_number(value: &[u8]) -> Option<u64>
    ensures { result ≡ in_shortest_width value.now (number_of value.now) }
{
    let n = read_number(value)?;
    if width_of(n) == value.len() {
        Some(n)
    } else {
        None
    }
}

// How many octets a number takes as the value of a number field.
pub(crate) fn width_of(n: u64) -> usize
    ensures { result ≡ length (number_field n) }
{
    if n < 256 {
        1
    } else if n < 65_536 {
        2
    } else if n < 4_294_967_296 {
        4
    } else {
        8
    }
}

// Appends the type, unless it is that of most components, and the escaped value.
fn put_plain(out: &mut Vec<u8>, typ: u16, value: &[u8]) -> Result<(), AllocError>
    ensures ok { OnOk result (out.new.items ≡ out.old.items ++ plain_text (typ, value.now)) }
    ensures prefix { take (length out.old.items) out.new.items ≡ out.old.items }
{
    if typ != types::GENERIC_NAME_COMPONENT {
        put_decimal(out, u64::from(typ))?;
        out.extend_from_slice(b"=")?;
    }
    put_value(out, value)
}

// Appends an escaped value.
fn put_value(out: &mut Vec<u8>, value: &[u8]) -> Result<(), AllocError>
    ensures ok { OnOk result (out.new.items ≡ out.old.items ++ value_text value.now) }
    ensures prefix { take (length out.old.items) out.new.items ≡ out.old.items }
{
    if !are_periods(value) {
        return put_octets(out, value);
    }
    out.extend_from_slice(b"...")?;
    put_octets(out, value)
}

// Appends the escapes of octets.
fn put_octets(out: &mut Vec<u8>, octets: &[u8]) -> Result<(), AllocError>
    ensures ok { OnOk result (out.new.items ≡ out.old.items ++ flat_map escape_of octets.now) }
    ensures prefix { take (length out.old.items) out.new.items ≡ out.old.items }
{
    for octet in octets {
        put_octet(out, *octet)?;
    }
    Ok(())
}

// Appends an octet, or its escape.
fn put_octet(out: &mut Vec<u8>, octet: u8) -> Result<(), AllocError>
    ensures ok { OnOk result (out.new.items ≡ out.old.items ++ escape_of octet) }
    ensures prefix { take (length out.old.items) out.new.items ≡ out.old.items }
{
    if is_unreserved(octet) {
        return out.extend_from_slice(&[octet]);
    }
    let [high, low] = pair(octet, true);
    out.extend_from_slice(&[b'%', high, low])
}

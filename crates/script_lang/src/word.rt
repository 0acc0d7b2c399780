ghost use Rattle.std.specs.Prelude.{◌≡◌, ◌≤◌, ◌&&◌, nat_le, IfOk};
ghost use Rattle.std.specs.List.{list_all, slice_split};
ghost use Rattle.std.specs.Option.{option_copied, option_map};
ghost use Rattle.std.specs.Char.{is_ascii_digit};
ghost use Rattle.std.specs.String.{string_bytes};
ghost use Rattle.ndn_name.specs.UriText.{after_word, cut_at};
ghost use Rattle.script_lang.specs.Forms.{publisher_value};
ghost use Rattle.script_lang.specs.Kinds.{CONTENT, LABEL, N, Named, Number, Octets, PUBLISHER, Text, URI, filled_of};
ghost use Rattle.script_lang.specs.Kinds.{hex_of};
ghost use Rattle.script_lang.specs.Kinds.{is_label, is_label_octet, is_numeral, mapped, octets_within, word_of};
ghost use Rattle.script_lang.specs.Reading.{Gives};

use crate::line_fault::LineFault;
use ndn_name::{Name, NameFault, plain_uri_len};
use std::alloc::Global;

fn is_label(word: &str) -> bool
    ensures { result ≡ is_label word.now }
{
    let [first, others @ ..] = word.as_bytes() else {
        return false;
    };
    first.is_ascii_lowercase() && others.len() <= 15 && are_label_octets(others)
}

fn are_label_octets(octets: &[u8]) -> bool
    ensures { result ≡ list_all is_label_octet octets.now }
{
    octets.iter().all(|octet| octet.is_ascii_lowercase() || octet.is_ascii_digit())
}

// The label that a word is.
#[tactic(auto, unfolding(crate::specs::Kinds::label_of))]
pub(crate) fn label_in(alloc: Global, word: &str) -> Result<String, LineFault>
    ensures { Gives (λ label. Text (string_bytes label)) result (word_of LABEL word.now) }
{
    if !is_label(word) {
        return Err(LineFault::Syntax);
    }
    Ok(String::from_str(alloc, word)?)
}

// The publisher that a word names: a label, or `None` for `*`, which stands for every publisher.
#[tactic(auto, unfolding(crate::specs::Kinds::publisher_of))]
pub(crate) fn publisher_in(alloc: Global, word: &str) -> Result<Option<String>, LineFault>
    ensures { Gives publisher_value result (word_of PUBLISHER word.now) }
{
    if word == "*" {
        return Ok(None);
    }
    Ok(Some(label_in(alloc, word)?))
}

fn is_numeral(word: &str) -> bool
    ensures { result ≡ is_numeral word.now }
{
    let [first, others @ ..] = word.as_bytes() else {
        return false;
    };
    others.len() <= 17 && (*first != b'0' || others.is_empty()) && are_digits(word.as_bytes())
}

fn are_digits(octets: &[u8]) -> bool
    ensures { result ≡ list_all is_ascii_digit octets.now }
{
    octets.iter().all(|octet| octet.is_ascii_digit())
}

// The number that a word is, within this range.
#[tactic(auto, unfolding(crate::specs::Kinds::numeral_of))]
pub(crate) fn number_in(least: u64, most: u64, word: &str) -> Result<u64, LineFault>
    ensures gives { Gives (λ number. Number number) result (word_of (N least most) word.now) }
    ensures within { IfOk result (λ number. number ≤ most) }
{
    if !is_numeral(word) {
        return Err(LineFault::Syntax);
    }
    match word.parse() {
        Ok(number) if least <= number && number <= most => Ok(number),
        Ok(_) => Err(LineFault::Limit),
        // A numeral has at most 18 digits.
        Err(_) => unreachable!(),
    }
}

// The number that a word is, within this range, which is below 2 ^ 32.
pub(crate) fn small_in(least: u32, most: u32, word: &str) -> Result<u32, LineFault>
    ensures { Gives (λ number. Number number) result (word_of (N least most) word.now) }
{
    Ok(number_in(u64::from(least), u64::from(most), word)? as u32)
}

pub(crate) fn is_within(least: u64, most: u64, len: usize) -> bool
    ensures { result ≡ (nat_le least len && nat_le len most) }
{
    (least..=most).contains(&(len as u64))
}

// The octets, or `Limit` if there aren't `least` to `most` of them.
fn within(least: u64, most: u64, octets: Vec<u8>) -> Result<Vec<u8>, LineFault>
    ensures { Gives (λ octets. octets.items) result (octets_within least most octets.items) }
{
    if is_within(least, most, octets.len()) {
        Ok(octets)
    } else {
        Err(LineFault::Limit)
    }
}

// The octets that a hexadecimal text stands for.
#[tactic(auto, unfolding(crate::specs::Kinds::hex_of))]
pub(crate) fn hex_in(alloc: Global, least: u64, most: u64, word: &str) -> Result<Vec<u8>, LineFault>
    ensures { Gives (λ octets. Octets octets.items) result (mapped Octets (hex_of least most word.now)) }
{
    match hex::decode(alloc, word) {
        Ok(octets) => within(least, most, octets),
        Err(hex::FromHexError::OutOfMemory) => Err(LineFault::NoMemory),
        Err(_) => Err(LineFault::Syntax),
    }
}

// The text after `prefix`, if `text` begins with it.
fn after<'a>(prefix: &str, text: &'a str) -> Option<&'a str>
    ensures { option_copied result ≡ after_word prefix.now text.now }
{
    text.strip_prefix(prefix)
}

// The text before the first colon and the text after it, if there is a colon.
fn cut_at_colon(text: &str) -> Option<(&str, &str)>
    ensures { option_map (λ parts. (parts.0.now, parts.1.now)) result ≡ cut_at 58 text.now }
{
    text.split_once(':')
}

// The octets that `N:N` stands for: the first number is their count, the second the octet that is repeated.
#[tactic(auto, unfolding(crate::specs::Kinds::filled_of, crate::specs::Kinds::numeral_of))]
fn filled_in(alloc: Global, least: u64, most: u64, counts: &str) -> Result<Vec<u8>, LineFault>
    ensures { Gives (λ octets. octets.items) result (filled_of least most counts.now) }
{
    let Some((size, octet)) = cut_at_colon(counts) else {
        return Err(LineFault::Syntax);
    };
    if !is_numeral(size) {
        return Err(LineFault::Syntax);
    }
    let octet = number_in(0, 255, octet)?;
    let size = number_in(least, most, size)?;
    Ok(vec![in alloc; octet as u8; size as usize]?)
}

// The octets of a text, or `Limit` if there aren't `least` to `most` of them.
fn text_in(alloc: Global, least: u64, most: u64, text: &str) -> Result<Vec<u8>, LineFault>
    ensures { Gives (λ octets. octets.items) result (octets_within least most text.now) }
{
    if !is_within(least, most, text.len()) {
        return Err(LineFault::Limit);
    }
    Ok(Vec::from_slice(alloc, text.as_bytes())?)
}

// The octets that a content stands for.
#[tactic(auto, unfolding(crate::specs::Kinds::content_of))]
pub(crate) fn content_in(
    alloc: Global,
    least: u64,
    most: u64,
    word: &str,
) -> Result<Vec<u8>, LineFault>
    ensures { Gives (λ octets. Octets octets.items) result (word_of (CONTENT least most) word.now) }
{
    if let Some(text) = after("text:", word) {
        text_in(alloc, least, most, text)
    } else if let Some(digits) = after("hex:", word) {
        hex_in(alloc, least, most, digits)
    } else if let Some(counts) = after("fill:", word) {
        filled_in(alloc, least, most, counts)
    } else {
        Err(LineFault::Syntax)
    }
}

// The name whose URI a word is, or `Limit` if its value doesn't have `least` to `most` octets.
#[tactic(auto, unfolding(crate::specs::Kinds::uri_of))]
pub(crate) fn name_in(alloc: Global, least: u64, most: u64, word: &str) -> Result<Name, LineFault>
    requires { most ≤ 1000 }
    ensures { Gives (λ name. Named name) result (word_of (URI least most) word.now) }
{
    let Some(len) = plain_uri_len(word) else {
        return Err(LineFault::Syntax);
    };
    if !is_within(least, most, len) {
        return Err(LineFault::Limit);
    }
    // `plain_uri_len` accepted the text, so nothing can fail here but memory.
    Ok(Name::from_uri(alloc, word).map_err(NameFault::only_memory)?)
}

ghost use Rattle.std.specs.Prelude.{◌≡◌, ◌++◌, codes, decimal, map, slice_get, OnOk};
ghost use Rattle.std.specs.List.{flat_map};
ghost use Rattle.script_lang.specs.Forms.{form};
ghost use Rattle.script_lang.specs.WordPlaces.{kind_of, place_name, place_names};
ghost use Rattle.lab_lint.specs.Expected.{form_text, kind_text, missing_text, place_text, range_text, spaced_name};
ghost use Rattle.lab_lint.specs.Expected.{surplus_text, together_text, word_text, wrong_column, wrong_text, from_last};

use crate::columns::{column_of, from_place, from_verb, unprintable_column, words_on};
use itoa::Buffer;
use script_lang::{LINE_LIMIT, LineFault, Place, Verb, WordKind, Wrong};
use std::alloc::AllocError;

// How many segments a publication has at most, and how many blocks an insertion.
const SEGMENTS: u64 = 20_000;

const BLOCKS: u64 = 200;

// Each call appends its text. Where memory runs out, a part of it may stand there.

// What is expected where a line is wrong.
pub(crate) fn put_wrong(
    out: &mut Vec<u8>,
    body: &[u8],
    wrong: Wrong,
    fault: LineFault,
) -> Result<(), AllocError>
    ensures { OnOk result (out.new.items ≡ out.old.items ++ wrong_text fault wrong body.now) }
{
    match wrong {
        Wrong::Length => {
            put(out, "a line has at most ")?;
            put_number(out, LINE_LIMIT as u64)?;
            put(out, " octets")
        }
        Wrong::Octet => put(out, "an octet is not printable"),
        Wrong::FirstWord => put(out, "no line begins so"),
        Wrong::Word { verb, place } => put_place(out, verb, place, fault),
        Wrong::Missing { verb, place } => put_missing(out, verb, place),
        Wrong::Surplus { verb, count } => {
            out.extend_from_slice(from_last(body, verb))?;
            put_surplus(out, count)?;
            put_form(out, verb)
        }
        Wrong::Together { verb } => put_together(out, verb),
    }
}

// The column of the first octet that is wrong.
pub(crate) fn wrong_column(body: &[u8], wrong: Wrong) -> usize
    ensures { result ≡ wrong_column wrong body.now }
{
    match wrong {
        Wrong::Length => LINE_LIMIT + 1,
        Wrong::Octet => unprintable_column(body),
        Wrong::FirstWord => column_of(body, from_verb(body)),
        Wrong::Word { place, .. } => column_of(body, from_place(body, place)),
        Wrong::Missing { .. } => column_of(body, &[]),
        Wrong::Surplus { verb, .. } | Wrong::Together { verb } => {
            column_of(body, from_last(body, verb))
        }
    }
}

// A line from the last word of its form on.
fn from_last(body: &[u8], verb: Verb) -> &[u8]
    ensures { result.now ≡ from_last verb body.now }
{
    words_on(from_verb(body), verb.places().len())
}

// The verb, and what its words are called.
fn put_form(out: &mut Vec<u8>, verb: Verb) -> Result<(), AllocError>
    ensures { OnOk result (out.new.items ≡ out.old.items ++ form_text verb) }
{
    put(out, verb.word())?;
    put_names(out, verb.places())
}

fn put_names(out: &mut Vec<u8>, places: &[Place]) -> Result<(), AllocError>
    ensures { OnOk result (out.new.items
        ≡ out.old.items ++ flat_map spaced_name (map place_name places.now)) }
{
    let mut rest = places;
    while let [place, others @ ..] = rest {
        put(out, " ")?;
        put(out, place.name)?;
        rest = others;
    }
    Ok(())
}

// What is expected of the word at a place, and the form of its line where it is not in the grammar.
fn put_place(
    out: &mut Vec<u8>,
    verb: Verb,
    place: usize,
    fault: LineFault,
) -> Result<(), AllocError>
    ensures { OnOk result (out.new.items ≡ out.old.items
        ++ place_text fault verb (slice_get (place_names verb) place) (slice_get (form verb).kinds place)) }
{
    match verb.places().get(place) {
        Some(place) => put_word(out, verb, place.name, place.kind, fault),
        None => put_form(out, verb),
    }
}

fn put_word(
    out: &mut Vec<u8>,
    verb: Verb,
    name: &str,
    kind: WordKind,
    fault: LineFault,
) -> Result<(), AllocError>
    ensures { OnOk result (out.new.items ≡ out.old.items ++ word_text fault verb name.now (kind_of kind)) }
{
    match fault {
        LineFault::Syntax => {
            put(out, name)?;
            put(out, kind_text(kind))?;
            put(out, "; ")?;
            put_form(out, verb)
        }
        LineFault::Limit => {
            put(out, name)?;
            put_range(out, kind)
        }
        LineFault::NoMemory => Ok(()),
    }
}

// What a word of a kind is.
fn kind_text(kind: WordKind) -> &'static str
    ensures { result.now ≡ kind_text (kind_of kind) }
{
    match kind {
        WordKind::Label => " is a lower-case letter and up to 15 lower-case letters or digits",
        WordKind::Publisher => " is a label, or * for every publisher",
        WordKind::Number { .. } => " is a number of up to 18 digits",
        WordKind::Uri { .. } => " is the URI of a name",
        WordKind::Hex { .. } => " is pairs of hexadecimal digits",
        WordKind::Content { .. } => " is text: and octets, hex: and digits, or fill:N:N",
    }
}

// The range of a kind. Labels have none.
fn put_range(out: &mut Vec<u8>, kind: WordKind) -> Result<(), AllocError>
    ensures { OnOk result (out.new.items ≡ out.old.items ++ range_text (kind_of kind)) }
{
    match kind {
        WordKind::Label | WordKind::Publisher => put(out, kind_text(kind)),
        WordKind::Number { least, most } => put_between(out, " is ", least, most, ""),
        WordKind::Uri { least, most } => put_between(out, " has ", least, most, " octets"),
        WordKind::Hex { most } => {
            put(out, " has 1 to ")?;
            put_number(out, most)?;
            put(out, " octets")
        }
        WordKind::Content { least, most } => {
            put_between(out, " has ", least, most, " octets, each 0 to 255")
        }
    }
}

fn put_between(
    out: &mut Vec<u8>,
    before: &str,
    least: u64,
    most: u64,
    after: &str,
) -> Result<(), AllocError>
    ensures { OnOk result (out.new.items ≡ out.old.items
        ++ before.now ++ decimal least ++ codes " to " ++ decimal most ++ after.now) }
{
    put(out, before)?;
    put_number(out, least)?;
    put(out, " to ")?;
    put_number(out, most)?;
    put(out, after)
}

// Appends that the word at `place` is missing.
#[tactic(auto, using(crate::proofs::PlaceNames::name_there, crate::proofs::PlaceNames::no_name_there))]
fn put_missing(out: &mut Vec<u8>, verb: Verb, place: usize) -> Result<(), AllocError>
    ensures { OnOk result (out.new.items ≡ out.old.items
        ++ missing_text verb (slice_get (place_names verb) place)) }
{
    match verb.places().get(place) {
        Some(place) => put_missing_name(out, verb, place.name),
        None => put_form(out, verb),
    }
}

fn put_missing_name(out: &mut Vec<u8>, verb: Verb, name: &str) -> Result<(), AllocError>
    ensures { OnOk result (out.new.items ≡ out.old.items ++ (name.now ++ codes " is missing; " ++ form_text verb)) }
{
    put(out, name)?;
    put_then_form(out, verb, " is missing; ")
}

fn put_then_form(out: &mut Vec<u8>, verb: Verb, before: &str) -> Result<(), AllocError>
    ensures { OnOk result (out.new.items ≡ out.old.items ++ (before.now ++ form_text verb)) }
{
    put(out, before)?;
    put_form(out, verb)
}

// Appends that a line has `count` words too many.
fn put_surplus(out: &mut Vec<u8>, count: usize) -> Result<(), AllocError>
    ensures { OnOk result (out.new.items ≡ out.old.items ++ surplus_text count) }
{
    if count == 1 {
        put(out, " has one word too many; ")
    } else {
        put(out, " has ")?;
        put_number(out, count as u64)?;
        put(out, " words too many; ")
    }
}

// Appends what is expected of words that leave a range together.
fn put_together(out: &mut Vec<u8>, verb: Verb) -> Result<(), AllocError>
    ensures { OnOk result (out.new.items ≡ out.old.items ++ together_text verb) }
{
    match verb {
        Verb::Insert => {
            put(out, "FIRST to LAST are 1 to ")?;
            put_number(out, BLOCKS)?;
            put(out, " blocks")
        }
        _ => {
            put(out, "CONTENT has at most ")?;
            put_number(out, SEGMENTS)?;
            put(out, " segments of SIZE octets")
        }
    }
}

pub(crate) fn put(out: &mut Vec<u8>, text: &str) -> Result<(), AllocError>
    ensures { OnOk result (out.new.items ≡ out.old.items ++ text.now) }
{
    out.extend_from_slice(text.as_bytes())
}

pub(crate) fn put_number(out: &mut Vec<u8>, number: u64) -> Result<(), AllocError>
    ensures { OnOk result (out.new.items ≡ out.old.items ++ decimal number) }
{
    out.extend_from_slice(Buffer::new().format(number).as_bytes())
}

ghost use Rattle.std.specs.Prelude.{◌≡◌, ℕ, [], map, IfOk};
ghost use Rattle.script_lang.specs.declared.line_fault.LineFault.{LineFault};
ghost use Rattle.script_lang.specs.Kinds.{mapped, word_of};
ghost use Rattle.script_lang.specs.Reading.{Gives};
ghost use Rattle.script_lang.specs.WordPlaces.{kind_of, place_kind};
ghost use Rattle.script_lang.specs.WrongWords.{is_refused, wrong_from, wrong_in, wrong_in_words, wrong_of};
ghost use Rattle.script_lang.specs.WrongWords.{wrong_within};

use crate::limits::LINE_LIMIT;
use crate::line_fault::LineFault;
use crate::place::{Place, WordKind};
use crate::read::{are_printable, spaced, without_return};
use crate::verb::Verb;
use crate::word::{content_in, hex_in, is_within, label_in, number_in, publisher_in};
use ndn_name::plain_uri_len;
use std::alloc::{AllocError, Global};

/// Where a line that is refused is wrong.
///
/// Places count the words after the verb, from 0.
#[derive(Clone, Copy)]
pub enum Wrong {
    /// The line is too long.
    Length,
    /// An octet of the line is not printable.
    Octet,
    /// The first word of the line is no verb.
    FirstWord,
    /// The word at this place is refused as one of its kind.
    Word { verb: Verb, place: usize },
    /// There is no word at this place.
    Missing { verb: Verb, place: usize },
    /// The line has `count` words more than its form.
    Surplus { verb: Verb, count: usize },
    /// Each word is one of its kind, but together their values are out of range.
    Together { verb: Verb },
}

/// Where the line of `octets` is wrong, if `read_line` refuses it with this fault.
pub fn find_wrong(alloc: Global, octets: &[u8], fault: LineFault) -> Result<Wrong, AllocError>
    ensures { IfOk result (λ wrong. wrong ≡ wrong_of fault octets.now) }
{
    match octets {
        [line @ .., b'\n'] => find_within(alloc, line, without_return(line), fault),
        line => find_within(alloc, line, line, fault),
    }
}

fn find_within(
    alloc: Global,
    line: &[u8],
    body: &[u8],
    fault: LineFault,
) -> Result<Wrong, AllocError>
    ensures { IfOk result (λ wrong. wrong ≡ wrong_within fault line.now body.now) }
{
    if line.len() > LINE_LIMIT {
        return Ok(Wrong::Length);
    }
    find_in(alloc, body, fault)
}

fn find_in(alloc: Global, body: &[u8], fault: LineFault) -> Result<Wrong, AllocError>
    ensures { IfOk result (λ wrong. wrong ≡ wrong_in fault body.now) }
{
    if !are_printable(body) {
        return Ok(Wrong::Octet);
    }
    // What is printable is ASCII.
    let Ok(text) = str::from_utf8(body) else {
        unreachable!()
    };
    let words = spaced(alloc, text)?;
    find_in_words(alloc, &words, fault)
}

fn find_in_words(alloc: Global, words: &[&str], fault: LineFault) -> Result<Wrong, AllocError>
    ensures { IfOk result (λ wrong. wrong ≡ wrong_in_words fault (map (λ word. word.now) words.now)) }
{
    let [verb, others @ ..] = words else {
        return Ok(Wrong::FirstWord);
    };
    match Verb::of(verb) {
        Some(verb) => find_among(alloc, others, verb, verb.places(), fault),
        None => Ok(Wrong::FirstWord),
    }
}

// The first of the words after the verb that is wrong at its place.
#[tactic(auto, unfolding(crate::specs::WrongWords::wrong_from))]
fn find_among(
    alloc: Global,
    words: &[&str],
    verb: Verb,
    places: &[Place],
    fault: LineFault,
) -> Result<Wrong, AllocError>
    ensures { IfOk result (λ wrong. wrong
        ≡ wrong_from fault verb 0 (map place_kind places.now) (map (λ word. word.now) words.now)) }
{
    let mut left = words;
    let mut rest = places;
    let mut place = 0;
    while let [first, others @ ..] = rest {
        let [word, more @ ..] = left else {
            return Ok(Wrong::Missing { verb, place });
        };
        if is_refused(alloc, word, first.kind, fault)? {
            return Ok(Wrong::Word { verb, place });
        }
        left = more;
        rest = others;
        place += 1;
    }
    Ok(beyond(left, verb))
}

// Where a line is wrong if no word at a place is: in the surplus `words`, or in all of its words together.
#[tactic(auto, unfolding(crate::specs::WrongWords::wrong_from))]
fn beyond(words: &[&str], verb: Verb) -> Wrong
    ensures { (fault : LineFault) (place : ℕ)
        → result ≡ wrong_from fault verb place [] (map (λ word. word.now) words.now) }
{
    if words.is_empty() {
        Wrong::Together { verb }
    } else {
        Wrong::Surplus {
            verb,
            count: words.len(),
        }
    }
}

// Whether a word is refused by this fault as one of this kind.
fn is_refused(
    alloc: Global,
    word: &str,
    kind: WordKind,
    fault: LineFault,
) -> Result<bool, AllocError>
    ensures { IfOk result (λ refused. refused ≡ is_refused fault (word_of (kind_of kind) word.now)) }
{
    match evaluated(alloc, word, kind) {
        Ok(()) => Ok(false),
        Err(LineFault::Syntax) => Ok(matches!(fault, LineFault::Syntax)),
        Err(LineFault::Limit) => Ok(matches!(fault, LineFault::Limit)),
        Err(LineFault::NoMemory) => Err(AllocError),
    }
}

// Reads a word as one of this kind, and drops the value.
#[tactic(auto, unfolding(crate::specs::Kinds::uri_of))]
fn evaluated(alloc: Global, word: &str, kind: WordKind) -> Result<(), LineFault>
    ensures { Gives (λ x. x) result (mapped (λ _. tt) (word_of (kind_of kind) word.now)) }
{
    match kind {
        WordKind::Label => label_in(alloc, word).map(|_| ()),
        WordKind::Publisher => publisher_in(alloc, word).map(|_| ()),
        WordKind::Number { least, most } => number_in(least, most, word).map(|_| ()),
        WordKind::Uri { least, most } => match plain_uri_len(word) {
            None => Err(LineFault::Syntax),
            Some(len) if is_within(least, most, len) => Ok(()),
            Some(_) => Err(LineFault::Limit),
        },
        WordKind::Hex { most } => hex_in(alloc, 1, most, word).map(|_| ()),
        WordKind::Content { least, most } => content_in(alloc, least, most, word).map(|_| ()),
    }
}

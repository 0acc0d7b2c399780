ghost use Rattle.std.specs.Prelude.{◌≡◌, not, ◌==◌, map, true, IfOk};
ghost use Rattle.std.specs.List.{list_all, find};
ghost use Rattle.std.specs.Option.{option_map, option_copied};
ghost use Rattle.script_lang.specs.Forms.{stated};
ghost use Rattle.script_lang.specs.Lines.{line_of, line_within, line_in, line_in_words, says_nothing, is_printable};
ghost use Rattle.script_lang.specs.Lines.{spaced_words, without_return};
ghost use Rattle.script_lang.specs.Reading.{Gives};

use crate::cursor::Cursor;
use crate::form;
use crate::limits::LINE_LIMIT;
use crate::line::Line;
use crate::line_fault::LineFault;
use crate::verb::Verb;
use std::alloc::{AllocError, Global};

/// The line that octets are, which end with their line feed or with the input.
///
/// `None` is an empty line or a comment.
pub fn read_line(alloc: Global, octets: &[u8]) -> Result<Option<Line>, LineFault>
    ensures { Gives (option_map stated) result (line_of octets.now) }
{
    match octets {
        [line @ .., b'\n'] => read_within(alloc, line, without_return(line)),
        line => read_within(alloc, line, line),
    }
}

// The line without a carriage return at its end.
pub(crate) fn without_return(line: &[u8]) -> &[u8]
    ensures { result.now ≡ without_return line.now }
{
    match line {
        [prefix @ .., b'\r'] => prefix,
        _ => line,
    }
}

fn read_within(alloc: Global, line: &[u8], body: &[u8]) -> Result<Option<Line>, LineFault>
    ensures { Gives (option_map stated) result (line_within line.now body.now) }
{
    if line.len() > LINE_LIMIT {
        return Err(LineFault::Limit);
    }
    read_body(alloc, body)
}

fn read_body(alloc: Global, body: &[u8]) -> Result<Option<Line>, LineFault>
    ensures { Gives (option_map stated) result (line_in body.now) }
{
    if says_nothing(body) {
        return Ok(None);
    }
    if !are_printable(body) {
        return Err(LineFault::Syntax);
    }
    // What is printable is ASCII.
    let Ok(text) = str::from_utf8(body) else {
        unreachable!()
    };
    let words = spaced(alloc, text)?;
    let line = read_words(alloc, &words)?;
    Ok(Some(line))
}

// Whether a line is empty, spaces alone, or a comment.
fn says_nothing(octets: &[u8]) -> bool
    ensures { result ≡ says_nothing octets.now }
{
    matches!(first_other(octets), None | Some(b'#'))
}

// The first octet that is no space.
fn first_other(octets: &[u8]) -> Option<u8>
    ensures { result ≡ find (λ octet. not (octet == 32)) octets.now }
{
    octets.iter().find(|octet| **octet != b' ').copied()
}

pub(crate) fn are_printable(octets: &[u8]) -> bool
    ensures { result ≡ list_all is_printable octets.now }
{
    octets.iter().all(|octet| (b' '..=b'~').contains(octet))
}

// The words of a text, which spaces separate.
pub(crate) fn spaced(alloc: Global, text: &str) -> Result<Vec<&str>, AllocError>
    ensures { IfOk result (λ words. map (λ word. word.now) words.items ≡ spaced_words text.now) }
{
    text.split(' ')
        .filter(|word| !word.is_empty())
        .collect(alloc)
}

fn read_words(alloc: Global, words: &[&str]) -> Result<Line, LineFault>
    ensures { Gives stated result (line_in_words (map (λ word. word.now) words.now)) }
{
    let [verb, others @ ..] = words else {
        return Err(LineFault::Syntax);
    };
    match Verb::of(verb) {
        Some(verb) => form::line_of(alloc, verb, Cursor::new(others)),
        None => Err(LineFault::Syntax),
    }
}

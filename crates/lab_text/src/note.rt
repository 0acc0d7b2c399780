ghost use Rattle.std.specs.Prelude.{◌≡◌};
ghost use Rattle.lab_text.specs.Notes.{after_one_space, after_spaces, is_note, is_report_note, note_line, note_text};
ghost use Rattle.lab_text.specs.Writing.{Appends};

use crate::cutting::without_feed;
use crate::writing::{all_or_nothing, write_line};
use std::alloc::AllocError;

/// Whether a line is a note: `#>` or `#=` stands after its spaces.
pub fn is_note(line: &[u8]) -> bool
    ensures { result ≡ is_note line.now }
{
    matches!(after_spaces(line), [b'#', b'>' | b'=', ..])
}

/// Whether a line is a note of a report: `#>` stands after its spaces.
pub fn is_report_note(line: &[u8]) -> bool
    ensures { result ≡ is_report_note line.now }
{
    matches!(after_spaces(line), [b'#', b'>', ..])
}

/// What a note says after its mark and one space, without its line feed. A carriage return at its end belongs to it.
pub fn note_text(note: &[u8]) -> &[u8]
    ensures { result.now ≡ note_text note.now }
{
    match after_spaces(without_feed(note)) {
        [_, _, text @ ..] => after_one_space(text),
        _ => &[],
    }
}

/// Appends what a note says, and a line feed. Where memory runs out nothing changes.
pub fn put_note_line(out: &mut Vec<u8>, note: &[u8]) -> Result<(), AllocError>
    ensures { Appends (note_line note.now) out.old.items out.new.items result }
{
    let before = out.len();
    let written = write_line(out, b"", note_text(note));
    all_or_nothing(out, before, written)
}

/// What stands after the spaces with which a line begins.
pub fn after_spaces(line: &[u8]) -> &[u8]
    ensures { result.now ≡ after_spaces line.now }
{
    let mut rest = line;
    while let Some((first, others)) = rest.split_first() {
        if *first != b' ' {
            return rest;
        }
        rest = others;
    }
    rest
}

fn after_one_space(text: &[u8]) -> &[u8]
    ensures { result.now ≡ after_one_space text.now }
{
    match text {
        [b' ', text @ ..] => text,
        _ => text,
    }
}

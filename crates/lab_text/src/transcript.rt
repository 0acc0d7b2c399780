ghost use Rattle.std.specs.Prelude.{◌≡◌};
ghost use Rattle.lab_text.specs.Transcripts.{report_notes, shown_line, shown_text};
ghost use Rattle.lab_text.specs.Writing.{Appends};

use crate::cutting::without_feed;
use crate::writing::{all_or_nothing, write_line, write_marked};
use script_lang::LINE_LIMIT;
use std::alloc::AllocError;

/// Appends a line as it stands, with a line feed, which is added where it lacks one; of a line that is too long its
/// first 32,769 octets. Where memory runs out nothing changes.
pub fn put_line(out: &mut Vec<u8>, line: &[u8]) -> Result<(), AllocError>
    ensures { Appends (shown_line line.now) out.old.items out.new.items result }
{
    let before = out.len();
    let written = write_line(out, b"", shown_text(line));
    all_or_nothing(out, before, written)
}

/// Appends a report as notes: each of its lines after `#> `. Where memory runs out nothing changes.
pub fn put_report(out: &mut Vec<u8>, report: &[u8]) -> Result<(), AllocError>
    ensures { Appends (report_notes report.now) out.old.items out.new.items result }
{
    let before = out.len();
    let written = write_marked(out, b"#> ", report);
    all_or_nothing(out, before, written)
}

/// What is shown of a line, without its line feed: of a line that is too long its first 32,769 octets.
pub fn shown_text(line: &[u8]) -> &[u8]
    ensures { result.now ≡ shown_text line.now }
{
    let text = without_feed(line);
    let (shown, _) = text.split_at((LINE_LIMIT + 1).min(text.len()));
    shown
}

ghost use Rattle.script_report.specs.Texts.{refused_text, foreign_text};
ghost use Rattle.script_report.specs.Pieces.{Appends};

use crate::line::put_line;
use crate::piece::Piece::{Number, Word};
use std::alloc::AllocError;

/// The most octets that the lines of a report have together, a line `refused` or `foreign` not counted.
pub const REPORT_LIMIT: usize = 268_435_456;

/// The script's line of this number is refused; the report ends.
pub fn put_refused(out: &mut Vec<u8>, line: u64, number: u64, word: &str) -> Result<(), AllocError>
    ensures { Appends (refused_text line number word.now) out.old.items out.new.items result }
{
    put_line(out, "refused", &[Number(line), Number(number), Word(word)])
}

/// The script's line of this number brought octets that no member made; the report ends.
pub fn put_foreign(out: &mut Vec<u8>, line: u64) -> Result<(), AllocError>
    ensures { Appends (foreign_text line) out.old.items out.new.items result }
{
    put_line(out, "foreign", &[Number(line)])
}

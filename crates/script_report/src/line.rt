ghost use Rattle.std.specs.Prelude.{◌≡◌, ◌++◌, take, OnOk, MatchResult};
ghost use Rattle.script_report.specs.Texts.{line};
ghost use Rattle.script_report.specs.Pieces.{Appends, KeepsPrefix, words_in};

use crate::piece::{Piece, put_pieces};
use std::alloc::AllocError;

// Appends a line: its first word, the words of the pieces, and a line feed.
pub(crate) fn put_line(
    out: &mut Vec<u8>,
    first: &str,
    pieces: &[Piece<'_>],
) -> Result<(), AllocError>
    ensures { Appends (line first.now (words_in pieces.now)) out.old.items out.new.items result }
{
    let before = out.len();
    let written = write_line(out, first, pieces);
    all_or_nothing(out, before, written)
}

// Appends a line: its first word, the words of the pieces, and a line feed. Where memory ran out, a part of the line
// may have been appended.
#[tactic(auto, unfolding(crate::specs::Texts::line))]
pub(crate) fn write_line(
    out: &mut Vec<u8>,
    first: &str,
    pieces: &[Piece<'_>],
) -> Result<(), AllocError>
    ensures ok { OnOk result (out.new.items ≡ out.old.items ++ line first.now (words_in pieces.now)) }
    ensures kept { KeepsPrefix out.old.items out.new.items }
{
    out.extend_from_slice(first.as_bytes())?;
    put_pieces(out, pieces)?;
    out.extend_from_slice(b"\n")
}

// Takes away what was written after the first `before` octets, where memory ran out.
pub(crate) fn all_or_nothing(
    out: &mut Vec<u8>,
    before: usize,
    written: Result<(), AllocError>,
) -> Result<(), AllocError>
    ensures same { result ≡ written }
    ensures cut { MatchResult written (λ _. out.new.items ≡ out.old.items)
        (λ _. out.new.items ≡ take before out.old.items) }
{
    if written.is_err() {
        out.truncate(before);
    }
    written
}

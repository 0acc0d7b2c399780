ghost use Rattle.std.specs.Prelude.{◌≡◌, ◌++◌, take, OnOk, MatchResult};
ghost use Rattle.lab_text.specs.LineTexts.{line_texts, marked_line, marked_lines};
ghost use Rattle.lab_text.specs.Writing.{KeepsPrefix};

use crate::cutting::{split_first_line, without_feed};
use std::alloc::AllocError;

// Appends a mark, a text and a line feed. Where memory ran out, what was there is a prefix still.
pub(crate) fn write_line(out: &mut Vec<u8>, mark: &[u8], text: &[u8]) -> Result<(), AllocError>
    ensures ok { OnOk result (out.new.items ≡ out.old.items ++ marked_line mark.now text.now) }
    ensures kept { KeepsPrefix out.old.items out.new.items }
{
    out.extend_from_slice(mark)?;
    out.extend_from_slice(text)?;
    out.extend_from_slice(b"\n")
}

// Appends the lines of octets, each after a mark and with a line feed.
pub(crate) fn write_marked(out: &mut Vec<u8>, mark: &[u8], octets: &[u8]) -> Result<(), AllocError>
    ensures ok { OnOk result (out.new.items ≡ out.old.items ++ marked_lines mark.now (line_texts octets.now)) }
    ensures kept { KeepsPrefix out.old.items out.new.items }
{
    let mut rest = octets;
    while let Some((line, others)) = split_first_line(rest) {
        write_line(out, mark, without_feed(line))?;
        rest = others;
    }
    Ok(())
}

// Takes away what was written after the first `before` octets, where memory ran out.
pub(crate) fn all_or_nothing(
    out: &mut Vec<u8>,
    before: usize,
    written: Result<(), AllocError>,
) -> Result<(), AllocError>
    ensures same { result ≡ written }
    ensures cut { MatchResult written (λ _. out.new.items ≡ out.old.items)
        (λ _. out.new.items ≡ take before out.old.items) }
{
    if written.is_err() {
        out.truncate(before);
    }
    written
}

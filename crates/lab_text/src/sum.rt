ghost use Rattle.std.specs.Prelude.{◌≡◌, ◌++◌, OnOk};
ghost use Rattle.lab_text.specs.Differences.{sum_text};
ghost use Rattle.lab_text.specs.Writing.{Appends, KeepsPrefix};

use crate::writing::{all_or_nothing, write_line};
use itoa::Buffer;
use std::alloc::AllocError;

/// Appends how many of `lines` lines differ: `same 7` or `differs 1 of 7`, with a line feed. Where memory runs out
/// nothing changes.
pub fn put_sum(out: &mut Vec<u8>, differing: u64, lines: u64) -> Result<(), AllocError>
    ensures { Appends (sum_text differing lines) out.old.items out.new.items result }
{
    let before = out.len();
    let written = write_sum(out, differing, lines);
    all_or_nothing(out, before, written)
}

fn write_sum(out: &mut Vec<u8>, differing: u64, lines: u64) -> Result<(), AllocError>
    ensures ok { OnOk result (out.new.items ≡ out.old.items ++ sum_text differing lines) }
    ensures kept { KeepsPrefix out.old.items out.new.items }
{
    if differing == 0 {
        out.extend_from_slice(b"same ")?;
    } else {
        out.extend_from_slice(b"differs ")?;
        out.extend_from_slice(Buffer::new().format(differing).as_bytes())?;
        out.extend_from_slice(b" of ")?;
    }
    write_line(out, Buffer::new().format(lines).as_bytes(), b"")
}

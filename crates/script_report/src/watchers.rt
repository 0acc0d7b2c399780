ghost use Rattle.std.specs.Prelude.{◌≡◌, map, length, string_bytes};
ghost use Rattle.script_report.specs.Texts.{told_text, watch_text};
ghost use Rattle.script_report.specs.Pieces.{Appends};

use crate::line::put_line;
use crate::piece::Piece::{Number, Word};
use crate::readings::put_listing;
use repo_catalog::Entry;
use std::alloc::AllocError;

/// A member has the watcher `w` now.
pub fn put_watch(out: &mut Vec<u8>, m: &str, w: u64) -> Result<(), AllocError>
    ensures { Appends (watch_text m.now w) out.old.items out.new.items result }
{
    put_line(out, "watch", &[Word(m), Number(w)])
}

/// The news of the watcher `w` of a member: how many entries, and the entries, each under its publisher's label.
pub fn put_told(
    out: &mut Vec<u8>,
    m: &str,
    w: u64,
    count: u64,
    labels: &[String],
    entries: &[Entry],
) -> Result<(), AllocError>
    requires { length labels.now ≡ length entries.now }
    ensures { Appends (told_text m.now w count (map string_bytes labels.now) entries.now)
        out.old.items out.new.items result }
{
    put_listing(
        out,
        "told",
        &[Word(m), Number(w), Number(count)],
        labels,
        entries,
    )
}

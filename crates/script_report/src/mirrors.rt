ghost use Rattle.std.specs.Prelude.{◌≡◌, map, length, string_bytes};
ghost use Rattle.script_report.specs.Texts.{mcatalogue_text, mdeliver_text, mfetch_text};
ghost use Rattle.script_report.specs.Pieces.{Appends};

use crate::line::put_line;
use crate::parts::put_fetched;
use crate::piece::Piece::{Number, Word};
use crate::readings::put_listing;
use repo_catalog::Entry;
use std::alloc::AllocError;

/// A mirror heard the `k`th sync Interest.
pub fn put_mdeliver(out: &mut Vec<u8>, k: u64, l: &str) -> Result<(), AllocError>
    ensures { Appends (mdeliver_text k l.now) out.old.items out.new.items result }
{
    put_line(out, "mdeliver", &[Number(k), Word(l)])
}

/// A fetch of a mirror: `planned` parts were planned, and `kept` of them were received, in `attempts` attempts.
pub fn put_mfetch(
    out: &mut Vec<u8>,
    l: &str,
    planned: u64,
    kept: u64,
    attempts: u64,
) -> Result<(), AllocError>
    ensures { Appends (mfetch_text l.now planned kept attempts) out.old.items out.new.items result }
{
    put_fetched(out, "mfetch", l, planned, kept, attempts)
}

/// The catalogue of a mirror and its entries, each under its publisher's label.
pub fn put_mcatalogue(
    out: &mut Vec<u8>,
    l: &str,
    count: u64,
    labels: &[String],
    entries: &[Entry],
) -> Result<(), AllocError>
    requires { length labels.now ≡ length entries.now }
    ensures { Appends (mcatalogue_text l.now count (map string_bytes labels.now) entries.now)
        out.old.items out.new.items result }
{
    put_listing(
        out,
        "mcatalogue",
        &[Word(l), Number(count)],
        labels,
        entries,
    )
}

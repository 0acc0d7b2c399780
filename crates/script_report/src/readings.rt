ghost use Rattle.std.specs.Prelude.{◌≡◌, ◌++◌, map, length, string_bytes, OnOk};
ghost use Rattle.script_report.specs.Texts.{catalogue_text, entries_text, entry_text, line, summary_text, totals_text};
ghost use Rattle.script_report.specs.Texts.{traffic_text, vector_text};
ghost use Rattle.script_report.specs.Pieces.{Appends, KeepsPrefix, words_in};

use crate::line::{all_or_nothing, put_line, write_line};
use crate::piece::Piece;
use crate::piece::Piece::{Counts, Hex, Number, Uri, Word};
use repo_catalog::Entry;
use std::alloc::AllocError;

/// A member's state vector, one number for each label.
pub fn put_vector(
    out: &mut Vec<u8>,
    m: &str,
    labels: &[String],
    numbers: &[u64],
) -> Result<(), AllocError>
    requires { length labels.now ≡ length numbers.now }
    ensures { Appends (vector_text m.now (map string_bytes labels.now) numbers.now)
        out.old.items out.new.items result }
{
    put_line(out, "vector", &[Word(m), Counts(labels, numbers)])
}

/// A catalogue and its entries, each under its publisher's label.
pub fn put_catalogue(
    out: &mut Vec<u8>,
    m: &str,
    count: u64,
    labels: &[String],
    entries: &[Entry],
) -> Result<(), AllocError>
    requires { length labels.now ≡ length entries.now }
    ensures { Appends (catalogue_text m.now count (map string_bytes labels.now) entries.now)
        out.old.items out.new.items result }
{
    put_listing(out, "catalogue", &[Word(m), Number(count)], labels, entries)
}

// A line, and the entries that it counts.
pub(crate) fn put_listing(
    out: &mut Vec<u8>,
    first: &str,
    pieces: &[Piece<'_>],
    labels: &[String],
    entries: &[Entry],
) -> Result<(), AllocError>
    ensures { Appends (line first.now (words_in pieces.now) ++ entries_text (map string_bytes labels.now) entries.now)
        out.old.items out.new.items result }
{
    let before = out.len();
    let written = write_listing(out, first, pieces, labels, entries);
    all_or_nothing(out, before, written)
}

fn write_listing(
    out: &mut Vec<u8>,
    first: &str,
    pieces: &[Piece<'_>],
    labels: &[String],
    entries: &[Entry],
) -> Result<(), AllocError>
    ensures ok { OnOk result (out.new.items ≡ out.old.items
        ++ (line first.now (words_in pieces.now) ++ entries_text (map string_bytes labels.now) entries.now)) }
    ensures kept { KeepsPrefix out.old.items out.new.items }
{
    write_line(out, first, pieces)?;
    write_entries(out, labels, entries)
}

fn write_entries(out: &mut Vec<u8>, labels: &[String], entries: &[Entry]) -> Result<(), AllocError>
    ensures ok { OnOk result (out.new.items ≡ out.old.items
        ++ entries_text (map string_bytes labels.now) entries.now) }
    ensures kept { KeepsPrefix out.old.items out.new.items }
{
    for (label, entry) in labels.iter().zip(entries) {
        write_entry(out, label, entry)?;
    }
    Ok(())
}

fn write_entry<'a>(out: &mut Vec<u8>, label: &'a str, entry: &'a Entry) -> Result<(), AllocError>
    ensures ok { OnOk result (out.new.items ≡ out.old.items ++ entry_text label.now entry.now) }
    ensures kept { KeepsPrefix out.old.items out.new.items }
{
    write_line(
        out,
        "entry",
        &[
            Word(label),
            Number(u64::from(entry.seq)),
            Uri(&entry.name),
            Word("segments"),
            Number(u64::from(entry.segments)),
            Word("octets"),
            Number(entry.octets),
            Word("sha256"),
            Hex(&entry.digest),
        ],
    )
}

/// A line for each member: its label, and the totals of its catalogue.
pub fn put_summary(
    out: &mut Vec<u8>,
    labels: &[String],
    entries: &[u64],
    segments: &[u64],
    octets: &[u64],
) -> Result<(), AllocError>
    requires entries { length labels.now ≡ length entries.now }
    requires segments { length labels.now ≡ length segments.now }
    requires octets { length labels.now ≡ length octets.now }
    ensures { Appends (summary_text (map string_bytes labels.now) entries.now segments.now octets.now)
        out.old.items out.new.items result }
{
    let before = out.len();
    let written = write_summary(out, labels, entries, segments, octets);
    all_or_nothing(out, before, written)
}

fn write_summary(
    out: &mut Vec<u8>,
    labels: &[String],
    entries: &[u64],
    segments: &[u64],
    octets: &[u64],
) -> Result<(), AllocError>
    requires entries { length labels.now ≡ length entries.now }
    requires segments { length labels.now ≡ length segments.now }
    requires octets { length labels.now ≡ length octets.now }
    ensures ok { OnOk result (out.new.items ≡ out.old.items
        ++ summary_text (map string_bytes labels.now) entries.now segments.now octets.now) }
    ensures kept { KeepsPrefix out.old.items out.new.items }
{
    for (i, label) in labels.iter().enumerate() {
        write_totals(out, label, entries[i], segments[i], octets[i])?;
    }
    Ok(())
}

fn write_totals(
    out: &mut Vec<u8>,
    member: &str,
    entries: u64,
    segments: u64,
    octets: u64,
) -> Result<(), AllocError>
    ensures ok { OnOk result (out.new.items ≡ out.old.items ++ totals_text member.now entries segments octets) }
    ensures kept { KeepsPrefix out.old.items out.new.items }
{
    write_line(
        out,
        "summary",
        &[
            Word(member),
            Word("entries"),
            Number(entries),
            Word("segments"),
            Number(segments),
            Word("octets"),
            Number(octets),
        ],
    )
}

/// The counts of the script: sync Interests sent and delivered, attempts, and parts that were received, with their
/// octets.
pub fn put_traffic(
    out: &mut Vec<u8>,
    syncs: u64,
    delivered: u64,
    attempts: u64,
    parts: u64,
    octets: u64,
) -> Result<(), AllocError>
    ensures { Appends (traffic_text syncs delivered attempts parts octets)
        out.old.items out.new.items result }
{
    put_line(
        out,
        "traffic",
        &[
            Word("syncs"),
            Number(syncs),
            Word("delivered"),
            Number(delivered),
            Word("attempts"),
            Number(attempts),
            Word("parts"),
            Number(parts),
            Word("octets"),
            Number(octets),
        ],
    )
}

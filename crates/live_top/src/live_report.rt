ghost use Rattle.std.specs.Prelude.{◌≡◌, ◌++◌, codes, map, string_bytes, IfOk, OnOk};
ghost use Rattle.script_report.specs.Pieces.{Appends};
ghost use Rattle.live_top.specs.Journals.{catalogue_lines, catalogues, entry_line, feed_line, journal_lines};
ghost use Rattle.live_top.specs.Journals.{journals, live_text, part_line};

use live_member::LiveEntry;
use live_member::LiveEvent::{Accept, Claim, Hear, Lose, Publish};
use live_member::LiveReply::{Claimed, Kept, Lost, NoPart, Published, Refused, Steady, Suppressed};
use live_settle::Ran;
use repo_catalog::Entry;
use repo_plan::Part;
use script_report::{
    label, publisher_labels, put_catalogue, put_journal, put_journal_claim_none,
    put_journal_claim_part, put_journal_claim_refused, put_journal_feed_kept,
    put_journal_feed_refused, put_journal_hear_refused, put_journal_hear_steady,
    put_journal_hear_suppressed, put_journal_lose_part, put_journal_lose_refused,
    put_journal_publish,
};
use std::alloc::{AllocError, Global};

// The journals of all members, in order, and then their catalogues.
pub(crate) fn live_text(
    alloc: Global,
    labels: &[String],
    rans: &[Ran],
) -> Result<Vec<u8>, AllocError>
    ensures { IfOk result (λ text. text.items ≡ live_text (map string_bytes labels.now) rans.now) }
{
    let mut text = Vec::new(alloc);
    put_journals(&mut text, labels, rans)?;
    put_catalogues(&mut text, labels, rans)?;
    Ok(text)
}

fn put_journals(text: &mut Vec<u8>, labels: &[String], rans: &[Ran]) -> Result<(), AllocError>
    ensures { OnOk result (text.new.items ≡ text.old.items
        ++ journals (map string_bytes labels.now) (map string_bytes labels.now) rans.now) }
{
    for (own, ran) in labels.iter().zip(rans) {
        put_entries(text, labels, own, &ran.journal)?;
    }
    Ok(())
}

// Writes the journal of the member with the label `own`.
fn put_entries(
    text: &mut Vec<u8>,
    labels: &[String],
    own: &str,
    entries: &[LiveEntry],
) -> Result<(), AllocError>
    ensures { OnOk result (text.new.items ≡ text.old.items
        ++ journal_lines (map string_bytes labels.now) own.now entries.now) }
{
    put_journal(text, own, entries.len() as u64)?;
    for entry in entries {
        put_entry(text, labels, entry)?;
    }
    Ok(())
}

// Writes the line of an entry. An entry of a form that no journal has gets no line.
fn put_entry(text: &mut Vec<u8>, labels: &[String], entry: &LiveEntry) -> Result<(), AllocError>
    ensures { Appends (entry_line (map string_bytes labels.now) entry.now) text.old.items text.new.items result }
{
    match (&entry.event, entry.reply) {
        (Publish, Published { seq }) => put_journal_publish(text, u64::from(seq)),
        (Hear { octets }, Steady) => put_journal_hear_steady(text, octets.as_slice()),
        (Hear { octets }, Suppressed) => put_journal_hear_suppressed(text, octets.as_slice()),
        (Hear { octets }, Refused) => put_journal_hear_refused(text, octets.as_slice()),
        (Claim { f }, Claimed { part }) => put_claimed(text, labels, *f, part),
        (Claim { f }, NoPart) => put_journal_claim_none(text, u64::from(*f)),
        (Claim { f }, Refused) => put_journal_claim_refused(text, u64::from(*f)),
        (Accept { f, part }, Kept) => put_kept(text, labels, *f, *part),
        (Accept { f, part }, Refused) => put_not_kept(text, labels, *f, *part),
        (Lose { f }, Lost { part }) => put_lost(text, labels, *f, part),
        (Lose { f }, Refused) => put_journal_lose_refused(text, u64::from(*f)),
        _ => Ok(()),
    }
}

fn put_claimed(text: &mut Vec<u8>, labels: &[String], f: u8, part: Part) -> Result<(), AllocError>
    ensures { Appends (part_line (map string_bytes labels.now) (codes "claim") f part)
        text.old.items text.new.items result }
{
    let publisher = label(labels, part.publisher);
    let (seq, x) = place_of(part);
    put_journal_claim_part(text, u64::from(f), publisher, seq, x)
}

fn put_kept(text: &mut Vec<u8>, labels: &[String], f: u8, part: Part) -> Result<(), AllocError>
    ensures { Appends (feed_line (map string_bytes labels.now) f part (codes "kept"))
        text.old.items text.new.items result }
{
    let publisher = label(labels, part.publisher);
    let (seq, x) = place_of(part);
    put_journal_feed_kept(text, u64::from(f), publisher, seq, x)
}

fn put_not_kept(text: &mut Vec<u8>, labels: &[String], f: u8, part: Part) -> Result<(), AllocError>
    ensures { Appends (feed_line (map string_bytes labels.now) f part (codes "refused"))
        text.old.items text.new.items result }
{
    let publisher = label(labels, part.publisher);
    let (seq, x) = place_of(part);
    put_journal_feed_refused(text, u64::from(f), publisher, seq, x)
}

fn put_lost(text: &mut Vec<u8>, labels: &[String], f: u8, part: Part) -> Result<(), AllocError>
    ensures { Appends (part_line (map string_bytes labels.now) (codes "lose") f part)
        text.old.items text.new.items result }
{
    let publisher = label(labels, part.publisher);
    let (seq, x) = place_of(part);
    put_journal_lose_part(text, u64::from(f), publisher, seq, x)
}

// The number of a part's publication, and the part's place in it.
fn place_of(part: Part) -> (u64, u64)
    ensures seq { result.0 ≡ part.seq }
    ensures place { result.1 ≡ part.part }
{
    (u64::from(part.seq), u64::from(part.part))
}

fn put_catalogues(text: &mut Vec<u8>, labels: &[String], rans: &[Ran]) -> Result<(), AllocError>
    ensures { OnOk result (text.new.items ≡ text.old.items
        ++ catalogues (map string_bytes labels.now) (map string_bytes labels.now) rans.now) }
{
    for (own, ran) in labels.iter().zip(rans) {
        put_listed(text, labels, own, ran.member.catalogue().entries())?;
    }
    Ok(())
}

// Writes the catalogue of the member with the label `own`.
fn put_listed(
    text: &mut Vec<u8>,
    labels: &[String],
    own: &str,
    entries: &[Entry],
) -> Result<(), AllocError>
    ensures { Appends (catalogue_lines (map string_bytes labels.now) own.now entries.now)
        text.old.items text.new.items result }
{
    let publishers = publisher_labels(*text.allocator(), labels, entries)?;
    put_catalogue(text, own, entries.len() as u64, &publishers, entries)
}

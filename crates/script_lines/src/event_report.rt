ghost use Rattle.std.specs.Prelude.{◌<◌, map, length, string_bytes};
ghost use Rattle.std.specs.List.{All};
ghost use Rattle.script_report.specs.Pieces.{Appends};
ghost use Rattle.bench_world.specs.EventValues.{report_value};
ghost use Rattle.bench_world.specs.Steps.{NamesInRange};
ghost use Rattle.script_story.specs.ReportTexts.{listing_text, news_text, of_commands, of_group, of_insertions};
ghost use Rattle.script_story.specs.ReportTexts.{of_packets, of_parts, report_text_if, report_text};

mod refusal_text;

use crate::event_report::refusal_text::{hear_refusal, packet_fault, part_refusal};
use bench_world::Happened;
use repo_catalog::Entry;
use script_report::{
    label, publisher_labels, put_advance, put_answer_kept, put_answer_none, put_ask_found,
    put_ask_none, put_ask_refused, put_block_200, put_block_300, put_block_404,
    put_block_published, put_catalogue, put_claim_none, put_claim_part, put_delete,
    put_deliver_steady, put_deliver_suppressed, put_dump_hex, put_dump_none, put_feed_kept,
    put_feed_refused, put_fetch, put_fire_early, put_fire_quiet, put_fire_sent, put_hear_refused,
    put_hear_steady, put_hear_suppressed, put_insert, put_lose, put_mcatalogue, put_order,
    put_publish, put_restart, put_settle, put_status, put_summary, put_sync, put_told, put_traffic,
    put_vector, put_withdraw,
};
use std::alloc::AllocError;

// Writes the report of an event's outcome, under the labels of the members. Like `event_of_line` it goes by kinds of
// lines.
pub(crate) fn put_event_report(
    report: &mut Vec<u8>,
    labels: &[String],
    happened: &Happened,
) -> Result<(), AllocError>
    requires all { NamesInRange (length labels.now) (report_value happened.now) }
    ensures { Appends (report_text (map string_bytes labels.now) (report_value happened.now))
        report.old.items report.new.items result }
{
    match happened {
        Happened::Publish {
            m,
            seq,
            segments,
            sync,
        } => put_publish(report, label(labels, *m), *seq, *segments, *sync),
        Happened::Withdraw {
            m,
            seq,
            withdrawn,
            sync,
        } => put_withdraw(report, label(labels, *m), *seq, *withdrawn, *sync),
        Happened::DeliverSteady { k, m } => put_deliver_steady(report, *k, label(labels, *m)),
        Happened::DeliverSuppressed { k, m } => {
            put_deliver_suppressed(report, *k, label(labels, *m))
        }
        Happened::Sync { k, octets } => put_sync(report, *k, octets),
        Happened::Advance { now } => put_advance(report, *now),
        Happened::FireEarly { m } => put_fire_early(report, label(labels, *m)),
        Happened::FireQuiet { m } => put_fire_quiet(report, label(labels, *m)),
        Happened::FireSent { m, k } => put_fire_sent(report, label(labels, *m), *k),
        Happened::Restart { m } => put_restart(report, label(labels, *m)),
        _ => put_of_group(report, labels, happened),
    }
}

// Writes the report of what members have or of the whole group, or of a kind of `put_of_parts`.
fn put_of_group(
    report: &mut Vec<u8>,
    labels: &[String],
    happened: &Happened,
) -> Result<(), AllocError>
    requires all { NamesInRange (length labels.now) (report_value happened.now) }
    ensures { Appends (report_text_if of_group (map string_bytes labels.now) (report_value happened.now))
        report.old.items report.new.items result }
{
    let alloc = *report.allocator();
    match happened {
        Happened::Vector { m, numbers, .. } => {
            put_vector(report, label(labels, *m), labels, numbers)
        }
        Happened::Catalogue { m, count, entries } => {
            let publishers = publisher_labels(alloc, labels, entries)?;
            put_catalogue(report, label(labels, *m), *count, &publishers, entries)
        }
        Happened::Settle { syncs, kept } => put_settle(report, *syncs, *kept),
        Happened::Summary {
            entries,
            segments,
            octets,
            ..
        } => put_summary(report, labels, entries, segments, octets),
        Happened::Traffic {
            syncs,
            delivered,
            attempts,
            parts,
            octets,
        } => put_traffic(report, *syncs, *delivered, *attempts, *parts, *octets),
        _ => put_of_parts(report, labels, happened),
    }
}

// Writes the report of parts that are claimed, or of a kind of `put_of_packets`.
fn put_of_parts(
    report: &mut Vec<u8>,
    labels: &[String],
    happened: &Happened,
) -> Result<(), AllocError>
    requires all { NamesInRange (length labels.now) (report_value happened.now) }
    ensures { Appends (report_text_if of_parts (map string_bytes labels.now) (report_value happened.now))
        report.old.items report.new.items result }
{
    match happened {
        Happened::ClaimPart {
            m,
            f,
            publisher,
            seq,
            x,
        } => put_claim_part(
            report,
            label(labels, *m),
            *f,
            label(labels, *publisher),
            *seq,
            *x,
        ),
        Happened::ClaimNone { m, f } => put_claim_none(report, label(labels, *m), *f),
        Happened::Lose {
            m,
            f,
            publisher,
            seq,
            x,
        } => put_lose(
            report,
            label(labels, *m),
            *f,
            label(labels, *publisher),
            *seq,
            *x,
        ),
        Happened::AnswerKept { m, f } => put_answer_kept(report, label(labels, *m), *f),
        Happened::AnswerNone { m, f } => put_answer_none(report, label(labels, *m), *f),
        _ => put_of_packets(report, labels, happened),
    }
}

// Writes the report of fetches, of packets that are printed or given, or of a kind of `put_of_insertions`.
fn put_of_packets(
    report: &mut Vec<u8>,
    labels: &[String],
    happened: &Happened,
) -> Result<(), AllocError>
    requires all { NamesInRange (length labels.now) (report_value happened.now) }
    ensures { Appends (report_text_if of_packets (map string_bytes labels.now) (report_value happened.now))
        report.old.items report.new.items result }
{
    let alloc = *report.allocator();
    match happened {
        Happened::Fetch {
            m,
            planned,
            kept,
            attempts,
        } => put_fetch(report, label(labels, *m), *planned, *kept, *attempts),
        Happened::DumpHex { m, octets } => put_dump_hex(report, label(labels, *m), octets),
        Happened::DumpNone { m } => put_dump_none(report, label(labels, *m)),
        Happened::HearSteady { m } => put_hear_steady(report, label(labels, *m)),
        Happened::HearSuppressed { m } => put_hear_suppressed(report, label(labels, *m)),
        Happened::HearRefused { m, refusal } => {
            let refusal = hear_refusal(alloc, labels, refusal)?;
            put_hear_refused(report, label(labels, *m), &refusal)
        }
        Happened::AskFound { m, octets } => put_ask_found(report, label(labels, *m), octets),
        Happened::AskNone { m } => put_ask_none(report, label(labels, *m)),
        Happened::AskRefused { m, refusal } => {
            let refusal = packet_fault(alloc, refusal)?;
            put_ask_refused(report, label(labels, *m), &refusal)
        }
        Happened::FeedKept { m, f } => put_feed_kept(report, label(labels, *m), *f),
        Happened::FeedRefused { m, f, refusal } => {
            let refusal = part_refusal(alloc, refusal)?;
            put_feed_refused(report, label(labels, *m), *f, &refusal)
        }
        _ => put_of_insertions(report, labels, happened),
    }
}

// Writes the report of an insertion and its blocks, or of a kind of `put_of_commands`.
fn put_of_insertions(
    report: &mut Vec<u8>,
    labels: &[String],
    happened: &Happened,
) -> Result<(), AllocError>
    requires all { NamesInRange (length labels.now) (report_value happened.now) }
    ensures { Appends (report_text_if of_insertions (map string_bytes labels.now) (report_value happened.now))
        report.old.items report.new.items result }
{
    match happened {
        Happened::Insert {
            m,
            code,
            process,
            inserted,
            deleted,
        } => put_insert(
            report,
            label(labels, *m),
            *code,
            *process,
            *inserted,
            *deleted,
        ),
        Happened::Status {
            m,
            code,
            process,
            inserted,
            deleted,
        } => put_status(
            report,
            label(labels, *m),
            *code,
            *process,
            *inserted,
            *deleted,
        ),
        Happened::Block300 { m } => put_block_300(report, label(labels, *m)),
        Happened::Block404 { m } => put_block_404(report, label(labels, *m)),
        Happened::Block200 { m } => put_block_200(report, label(labels, *m)),
        Happened::BlockPublished { m, seq, sync } => {
            put_block_published(report, label(labels, *m), *seq, *sync)
        }
        _ => put_of_commands(report, labels, happened),
    }
}

// Writes the report of a command as octets or of a deletion, and nothing of any other event.
fn put_of_commands(
    report: &mut Vec<u8>,
    labels: &[String],
    happened: &Happened,
) -> Result<(), AllocError>
    requires all { NamesInRange (length labels.now) (report_value happened.now) }
    ensures { Appends (report_text_if of_commands (map string_bytes labels.now) (report_value happened.now))
        report.old.items report.new.items result }
{
    match happened {
        Happened::Order {
            m,
            code,
            process,
            inserted,
            deleted,
        } => put_order(
            report,
            label(labels, *m),
            *code,
            *process,
            *inserted,
            *deleted,
        ),
        Happened::Delete {
            m,
            code,
            process,
            inserted,
            deleted,
        } => put_delete(
            report,
            label(labels, *m),
            *code,
            *process,
            *inserted,
            *deleted,
        ),
        _ => Ok(()),
    }
}

// Writes what is reported to watcher `number` of member `m`.
pub(crate) fn put_news(
    report: &mut Vec<u8>,
    labels: &[String],
    m: u32,
    number: u32,
    entries: &[Entry],
) -> Result<(), AllocError>
    requires there { m < length labels.now }
    requires publishers { All (λ entry. entry.publisher < length labels.now) entries.now }
    ensures { Appends (news_text (map string_bytes labels.now) m number entries.now)
        report.old.items report.new.items result }
{
    let publishers = publisher_labels(*report.allocator(), labels, entries)?;
    put_told(
        report,
        label(labels, m),
        u64::from(number),
        entries.len() as u64,
        &publishers,
        entries,
    )
}

// Writes what a mirror lists.
pub(crate) fn put_mirrored(
    report: &mut Vec<u8>,
    labels: &[String],
    mirror: &str,
    entries: &[Entry],
) -> Result<(), AllocError>
    ensures { Appends (listing_text (map string_bytes labels.now) mirror.now entries.now)
        report.old.items report.new.items result }
{
    let publishers = publisher_labels(*report.allocator(), labels, entries)?;
    put_mcatalogue(report, mirror, entries.len() as u64, &publishers, entries)
}

ghost use Rattle.std.specs.Prelude.{codes};
ghost use Rattle.script_report.specs.Texts.{journal_text, journal_publish_text, journal_hear_text, journal_part_text};
ghost use Rattle.script_report.specs.Texts.{journal_fetcher_text, journal_feed_text};
ghost use Rattle.script_report.specs.Pieces.{Appends};

use crate::line::put_line;
use crate::piece::Piece::{Hex, Number, Word};
use std::alloc::AllocError;

/// The first line of the journal of a member of a live group: `count` entries follow.
pub fn put_journal(out: &mut Vec<u8>, m: &str, count: u64) -> Result<(), AllocError>
    ensures { Appends (journal_text m.now count) out.old.items out.new.items result }
{
    put_line(out, "journal", &[Word(m), Number(count)])
}

/// The member published the next object of its list, under its number `seq`.
pub fn put_journal_publish(out: &mut Vec<u8>, seq: u64) -> Result<(), AllocError>
    ensures { Appends (journal_publish_text seq) out.old.items out.new.items result }
{
    put_line(out, "publish", &[Number(seq)])
}

/// The member heard a sync Interest, and is steady.
pub fn put_journal_hear_steady(out: &mut Vec<u8>, octets: &[u8]) -> Result<(), AllocError>
    ensures { Appends (journal_hear_text octets.now (codes "steady")) out.old.items out.new.items result }
{
    put_hear(out, octets, "steady")
}

/// The member heard a sync Interest, and is suppressed.
pub fn put_journal_hear_suppressed(out: &mut Vec<u8>, octets: &[u8]) -> Result<(), AllocError>
    ensures { Appends (journal_hear_text octets.now (codes "suppressed")) out.old.items out.new.items result }
{
    put_hear(out, octets, "suppressed")
}

/// Octets were refused as a sync Interest.
pub fn put_journal_hear_refused(out: &mut Vec<u8>, octets: &[u8]) -> Result<(), AllocError>
    ensures { Appends (journal_hear_text octets.now (codes "refused")) out.old.items out.new.items result }
{
    put_hear(out, octets, "refused")
}

// Octets that were heard, with their result.
fn put_hear<'a>(out: &mut Vec<u8>, octets: &'a [u8], how: &'a str) -> Result<(), AllocError>
    ensures { Appends (journal_hear_text octets.now how.now) out.old.items out.new.items result }
{
    put_line(out, "hear", &[Hex(octets), Word(how)])
}

/// A fetcher claimed part `x` of a publication: its record where `x` is 0, else an index packet or a segment.
pub fn put_journal_claim_part(
    out: &mut Vec<u8>,
    f: u64,
    label: &str,
    seq: u64,
    x: u64,
) -> Result<(), AllocError>
    ensures { Appends (journal_part_text (codes "claim") f label.now seq x) out.old.items out.new.items result }
{
    put_part(out, "claim", f, label, seq, x)
}

/// There is no part for a fetcher to claim.
pub fn put_journal_claim_none(out: &mut Vec<u8>, f: u64) -> Result<(), AllocError>
    ensures { Appends (journal_fetcher_text (codes "claim") f (codes "none")) out.old.items out.new.items result }
{
    put_line(out, "claim", &[Number(f), Word("none")])
}

/// A fetcher claims a part already.
pub fn put_journal_claim_refused(out: &mut Vec<u8>, f: u64) -> Result<(), AllocError>
    ensures { Appends (journal_fetcher_text (codes "claim") f (codes "refused")) out.old.items out.new.items result }
{
    put_line(out, "claim", &[Number(f), Word("refused")])
}

/// The packet of part `x` of a publication was received for a fetcher's claim, and was kept.
pub fn put_journal_feed_kept(
    out: &mut Vec<u8>,
    f: u64,
    label: &str,
    seq: u64,
    x: u64,
) -> Result<(), AllocError>
    ensures { Appends (journal_feed_text f label.now seq x (codes "kept")) out.old.items out.new.items result }
{
    put_feed(out, f, label, seq, x, "kept")
}

/// The packet of part `x` of a publication was received for a fetcher that doesn't claim it.
pub fn put_journal_feed_refused(
    out: &mut Vec<u8>,
    f: u64,
    label: &str,
    seq: u64,
    x: u64,
) -> Result<(), AllocError>
    ensures { Appends (journal_feed_text f label.now seq x (codes "refused")) out.old.items out.new.items result }
{
    put_feed(out, f, label, seq, x, "refused")
}

// A fetcher, the part whose packet was received, and the result.
fn put_feed<'a>(
    out: &mut Vec<u8>,
    f: u64,
    label: &'a str,
    seq: u64,
    x: u64,
    how: &'a str,
) -> Result<(), AllocError>
    ensures { Appends (journal_feed_text f label.now seq x how.now) out.old.items out.new.items result }
{
    put_line(
        out,
        "feed",
        &[Number(f), Word(label), Number(seq), Number(x), Word(how)],
    )
}

/// A fetcher's claim of part `x` of a publication ended.
pub fn put_journal_lose_part(
    out: &mut Vec<u8>,
    f: u64,
    label: &str,
    seq: u64,
    x: u64,
) -> Result<(), AllocError>
    ensures { Appends (journal_part_text (codes "lose") f label.now seq x) out.old.items out.new.items result }
{
    put_part(out, "lose", f, label, seq, x)
}

/// A fetcher claims no part that it could lose.
pub fn put_journal_lose_refused(out: &mut Vec<u8>, f: u64) -> Result<(), AllocError>
    ensures { Appends (journal_fetcher_text (codes "lose") f (codes "refused")) out.old.items out.new.items result }
{
    put_line(out, "lose", &[Number(f), Word("refused")])
}

// A fetcher, and the part that it claimed or lost.
fn put_part(
    out: &mut Vec<u8>,
    verb: &str,
    f: u64,
    label: &str,
    seq: u64,
    x: u64,
) -> Result<(), AllocError>
    ensures { Appends (journal_part_text verb.now f label.now seq x) out.old.items out.new.items result }
{
    put_line(
        out,
        verb,
        &[Number(f), Word("part"), Word(label), Number(seq), Number(x)],
    )
}

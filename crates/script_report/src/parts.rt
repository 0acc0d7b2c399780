ghost use Rattle.std.specs.Prelude.{codes};
ghost use Rattle.script_report.specs.Texts.{part_text, claim_none_text, answer_kept_text, answer_none_text, fetch_text};
ghost use Rattle.script_report.specs.Texts.{fetched_text, settle_text, feed_kept_text, feed_refused_text};
ghost use Rattle.script_report.specs.Pieces.{Appends};

use crate::line::put_line;
use crate::piece::Piece::{Number, Word};
use std::alloc::AllocError;

/// A fetcher claimed part `x` of a publication: its record where `x` is 0, else an index packet or a segment.
pub fn put_claim_part<'a>(
    out: &mut Vec<u8>,
    m: &'a str,
    f: u64,
    label: &'a str,
    seq: u64,
    x: u64,
) -> Result<(), AllocError>
    ensures { Appends (part_text (codes "claim") m.now f label.now seq x)
        out.old.items out.new.items result }
{
    put_part(out, "claim", m, f, label, seq, x)
}

/// There is no part for a fetcher to claim.
pub fn put_claim_none(out: &mut Vec<u8>, m: &str, f: u64) -> Result<(), AllocError>
    ensures { Appends (claim_none_text m.now f) out.old.items out.new.items result }
{
    put_line(out, "claim", &[Word(m), Number(f), Word("none")])
}

/// A fetcher gave part `x` of a publication back: its record where `x` is 0, else an index packet or a segment.
pub fn put_lose<'a>(
    out: &mut Vec<u8>,
    m: &'a str,
    f: u64,
    label: &'a str,
    seq: u64,
    x: u64,
) -> Result<(), AllocError>
    ensures { Appends (part_text (codes "lose") m.now f label.now seq x)
        out.old.items out.new.items result }
{
    put_part(out, "lose", m, f, label, seq, x)
}

// A fetcher of a member, and the part that it claimed or gave back.
fn put_part<'a>(
    out: &mut Vec<u8>,
    verb: &str,
    m: &'a str,
    f: u64,
    label: &'a str,
    seq: u64,
    x: u64,
) -> Result<(), AllocError>
    ensures { Appends (part_text verb.now m.now f label.now seq x)
        out.old.items out.new.items result }
{
    put_line(
        out,
        verb,
        &[
            Word(m),
            Number(f),
            Word("part"),
            Word(label),
            Number(seq),
            Number(x),
        ],
    )
}

/// A packet that another member answered for a fetcher's claim was kept.
pub fn put_answer_kept(out: &mut Vec<u8>, m: &str, f: u64) -> Result<(), AllocError>
    ensures { Appends (answer_kept_text m.now f) out.old.items out.new.items result }
{
    put_line(out, "answer", &[Word(m), Number(f), Word("kept")])
}

/// Nothing that was answered for a fetcher's claim was kept.
pub fn put_answer_none(out: &mut Vec<u8>, m: &str, f: u64) -> Result<(), AllocError>
    ensures { Appends (answer_none_text m.now f) out.old.items out.new.items result }
{
    put_line(out, "answer", &[Word(m), Number(f), Word("none")])
}

/// A fetch of a member: `planned` parts were planned, and `kept` of them were received, in `attempts` attempts.
pub fn put_fetch(
    out: &mut Vec<u8>,
    m: &str,
    planned: u64,
    kept: u64,
    attempts: u64,
) -> Result<(), AllocError>
    ensures { Appends (fetch_text m.now planned kept attempts) out.old.items out.new.items result }
{
    put_fetched(out, "fetch", m, planned, kept, attempts)
}

// The result of a fetch of a member or a mirror.
pub(crate) fn put_fetched(
    out: &mut Vec<u8>,
    verb: &str,
    label: &str,
    planned: u64,
    kept: u64,
    attempts: u64,
) -> Result<(), AllocError>
    ensures { Appends (fetched_text verb.now label.now planned kept attempts) out.old.items out.new.items result }
{
    put_line(
        out,
        verb,
        &[
            Word(label),
            Word("planned"),
            Number(planned),
            Word("kept"),
            Number(kept),
            Word("attempts"),
            Number(attempts),
        ],
    )
}

/// A settle: `syncs` sync Interests were sent, and `kept` parts became held.
pub fn put_settle(out: &mut Vec<u8>, syncs: u64, kept: u64) -> Result<(), AllocError>
    ensures { Appends (settle_text syncs kept) out.old.items out.new.items result }
{
    put_line(
        out,
        "settle",
        &[Word("syncs"), Number(syncs), Word("kept"), Number(kept)],
    )
}

/// Octets that were handed to a fetcher passed for its claim.
pub fn put_feed_kept(out: &mut Vec<u8>, m: &str, f: u64) -> Result<(), AllocError>
    ensures { Appends (feed_kept_text m.now f) out.old.items out.new.items result }
{
    put_line(out, "feed", &[Word(m), Number(f), Word("kept")])
}

/// Octets that were handed to a fetcher were refused for its claim.
pub fn put_feed_refused<'a>(
    out: &mut Vec<u8>,
    m: &'a str,
    f: u64,
    refusal: &'a str,
) -> Result<(), AllocError>
    ensures { Appends (feed_refused_text m.now f refusal.now) out.old.items out.new.items result }
{
    put_line(
        out,
        "feed",
        &[Word(m), Number(f), Word("refused"), Word(refusal)],
    )
}

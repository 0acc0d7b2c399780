ghost use Rattle.script_report.specs.Texts.{publish_text, withdraw_text, deliver_steady_text, deliver_suppressed_text};
ghost use Rattle.script_report.specs.Texts.{sync_text, advance_text, fire_early_text, fire_quiet_text, fire_sent_text};
ghost use Rattle.script_report.specs.Texts.{restart_text};
ghost use Rattle.script_report.specs.Pieces.{Appends};

use crate::line::put_line;
use crate::piece::Piece::{Hex, Number, Word};
use std::alloc::AllocError;

/// A member published under its number `seq`, and its sync Interest is the `sync`th that was sent.
pub fn put_publish(
    out: &mut Vec<u8>,
    m: &str,
    seq: u64,
    segments: u64,
    sync: u64,
) -> Result<(), AllocError>
    ensures { Appends (publish_text m.now seq segments sync) out.old.items out.new.items result }
{
    put_line(
        out,
        "publish",
        &[
            Word(m),
            Number(seq),
            Word("segments"),
            Number(segments),
            Word("sync"),
            Number(sync),
        ],
    )
}

/// A member withdrew its object of the number `withdrawn` under its number `seq`, and its sync Interest is the
/// `sync`th that was sent.
pub fn put_withdraw(
    out: &mut Vec<u8>,
    m: &str,
    seq: u64,
    withdrawn: u64,
    sync: u64,
) -> Result<(), AllocError>
    ensures { Appends (withdraw_text m.now seq withdrawn sync) out.old.items out.new.items result }
{
    put_line(
        out,
        "withdraw",
        &[
            Word(m),
            Number(seq),
            Word("of"),
            Number(withdrawn),
            Word("sync"),
            Number(sync),
        ],
    )
}

/// A member that heard the `k`th sync Interest is steady.
pub fn put_deliver_steady(out: &mut Vec<u8>, k: u64, m: &str) -> Result<(), AllocError>
    ensures { Appends (deliver_steady_text k m.now) out.old.items out.new.items result }
{
    put_line(out, "deliver", &[Number(k), Word(m), Word("steady")])
}

/// A member that heard the `k`th sync Interest is suppressed.
pub fn put_deliver_suppressed(out: &mut Vec<u8>, k: u64, m: &str) -> Result<(), AllocError>
    ensures { Appends (deliver_suppressed_text k m.now) out.old.items out.new.items result }
{
    put_line(out, "deliver", &[Number(k), Word(m), Word("suppressed")])
}

/// The octets of the `k`th sync Interest.
pub fn put_sync(out: &mut Vec<u8>, k: u64, octets: &[u8]) -> Result<(), AllocError>
    ensures { Appends (sync_text k octets.now) out.old.items out.new.items result }
{
    put_line(out, "sync", &[Number(k), Hex(octets)])
}

/// The time in milliseconds.
pub fn put_advance(out: &mut Vec<u8>, now: u64) -> Result<(), AllocError>
    ensures { Appends (advance_text now) out.old.items out.new.items result }
{
    put_line(out, "advance", &[Word("now"), Number(now)])
}

/// The timer fired before its deadline.
pub fn put_fire_early(out: &mut Vec<u8>, m: &str) -> Result<(), AllocError>
    ensures { Appends (fire_early_text m.now) out.old.items out.new.items result }
{
    put_line(out, "fire", &[Word(m), Word("early")])
}

/// The timer fired, and the member sent nothing: what it heard has all that it knows of.
pub fn put_fire_quiet(out: &mut Vec<u8>, m: &str) -> Result<(), AllocError>
    ensures { Appends (fire_quiet_text m.now) out.old.items out.new.items result }
{
    put_line(out, "fire", &[Word(m), Word("quiet")])
}

/// The timer fired, and the member sent its vector as the `k`th sync Interest.
pub fn put_fire_sent(out: &mut Vec<u8>, m: &str, k: u64) -> Result<(), AllocError>
    ensures { Appends (fire_sent_text m.now k) out.old.items out.new.items result }
{
    put_line(out, "fire", &[Word(m), Word("sent"), Number(k)])
}

/// A member restarted.
pub fn put_restart(out: &mut Vec<u8>, m: &str) -> Result<(), AllocError>
    ensures { Appends (restart_text m.now) out.old.items out.new.items result }
{
    put_line(out, "restart", &[Word(m)])
}

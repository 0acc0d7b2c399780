ghost use Rattle.script_report.specs.Texts.{dump_hex_text, dump_none_text, hear_steady_text, hear_suppressed_text};
ghost use Rattle.script_report.specs.Texts.{hear_refused_text, ask_found_text, ask_none_text, ask_refused_text};
ghost use Rattle.script_report.specs.Pieces.{Appends};

use crate::line::put_line;
use crate::piece::Piece::{Hex, Word};
use std::alloc::AllocError;

/// The packet of a part that a member holds.
pub fn put_dump_hex(out: &mut Vec<u8>, m: &str, octets: &[u8]) -> Result<(), AllocError>
    ensures { Appends (dump_hex_text m.now octets.now) out.old.items out.new.items result }
{
    put_line(out, "dump", &[Word(m), Hex(octets)])
}

/// A member doesn't hold the part.
pub fn put_dump_none(out: &mut Vec<u8>, m: &str) -> Result<(), AllocError>
    ensures { Appends (dump_none_text m.now) out.old.items out.new.items result }
{
    put_line(out, "dump", &[Word(m), Word("none")])
}

/// A member that heard octets is steady.
pub fn put_hear_steady(out: &mut Vec<u8>, m: &str) -> Result<(), AllocError>
    ensures { Appends (hear_steady_text m.now) out.old.items out.new.items result }
{
    put_line(out, "hear", &[Word(m), Word("steady")])
}

/// A member that heard octets is suppressed.
pub fn put_hear_suppressed(out: &mut Vec<u8>, m: &str) -> Result<(), AllocError>
    ensures { Appends (hear_suppressed_text m.now) out.old.items out.new.items result }
{
    put_line(out, "hear", &[Word(m), Word("suppressed")])
}

/// Octets were refused as a sync Interest.
pub fn put_hear_refused<'a>(
    out: &mut Vec<u8>,
    m: &'a str,
    refusal: &'a str,
) -> Result<(), AllocError>
    ensures { Appends (hear_refused_text m.now refusal.now) out.old.items out.new.items result }
{
    put_line(out, "hear", &[Word(m), Word("refused"), Word(refusal)])
}

/// The packet that answers an Interest.
pub fn put_ask_found<'a>(out: &mut Vec<u8>, m: &'a str, octets: &'a [u8]) -> Result<(), AllocError>
    ensures { Appends (ask_found_text m.now octets.now) out.old.items out.new.items result }
{
    put_line(out, "ask", &[Word(m), Word("found"), Hex(octets)])
}

/// Nothing that a member holds answers an Interest.
pub fn put_ask_none(out: &mut Vec<u8>, m: &str) -> Result<(), AllocError>
    ensures { Appends (ask_none_text m.now) out.old.items out.new.items result }
{
    put_line(out, "ask", &[Word(m), Word("none")])
}

/// Octets were refused as an Interest.
pub fn put_ask_refused<'a>(
    out: &mut Vec<u8>,
    m: &'a str,
    refusal: &'a str,
) -> Result<(), AllocError>
    ensures { Appends (ask_refused_text m.now refusal.now) out.old.items out.new.items result }
{
    put_line(out, "ask", &[Word(m), Word("refused"), Word(refusal)])
}

ghost use Rattle.std.specs.Prelude.{◌≡◌, ◌++◌, OnOk};
ghost use Rattle.bench_world.specs.Worlds.{world_of};
ghost use Rattle.lab_picture.specs.Sights.{answer, command, delivery, fetch, mirror_delivery, publication};
ghost use Rattle.lab_picture.specs.Sights.{printed_verb, restart, sight, timer};

use crate::columns::{columns_of, member_column, mirror_column, printed, sender_column};
use crate::marks::{put_arrow, put_band, put_marked};
use crate::shape::Symbol;
use crate::words::{is_word, word};
use bench_world::World;
use script_lang::{Verb, Words};
use std::alloc::AllocError;

// The verb that a report begins with.
fn printed_verb(report: &[u8]) -> Option<Verb>
    ensures { result ≡ printed_verb report.now }
{
    match printed(word(report, 0)) {
        Some(verb) => Verb::of(verb),
        None => None,
    }
}

// Puts down what a line did.
pub(crate) fn put_sight(
    out: &mut Vec<u8>,
    row: u32,
    words: &Words,
    world: &World,
    line: &[u8],
    report: &[u8],
) -> Result<(), AllocError>
    ensures { OnOk result (out.new.items ≡ out.old.items
        ++ sight row words.now (world_of world.now) line.now report.now) }
{
    let Some(verb) = printed_verb(report) else {
        return Ok(());
    };
    match verb {
        Verb::Publish => put_publication(out, Symbol::Publish, row, words, report),
        Verb::Withdraw => put_publication(out, Symbol::Withdraw, row, words, report),
        Verb::Fire => put_timer(out, row, words, report),
        Verb::Deliver => put_delivery(out, row, words, world, report),
        Verb::Mdeliver => put_mirror_delivery(out, row, words, world, report),
        Verb::Answer => put_answer(out, row, words, line, report),
        Verb::Fetch => put_fetch(out, row, member_column(words, word(report, 1)), report),
        Verb::Mfetch => put_fetch(out, row, mirror_column(words, word(report, 1)), report),
        Verb::Settle => put_band(out, row, columns_of(words), word(report, 4)),
        Verb::Restart => put_restart(out, row, words, report),
        Verb::Delete | Verb::Block => put_command(out, row, words, report),
        _ => Ok(()),
    }
}

fn put_publication(
    out: &mut Vec<u8>,
    symbol: Symbol,
    row: u32,
    words: &Words,
    report: &[u8],
) -> Result<(), AllocError>
    ensures { OnOk result (out.new.items ≡ out.old.items ++ publication symbol row words.now report.now) }
{
    let column = member_column(words, word(report, 1));
    let (seq, sync) = (word(report, 2), word(report, 6));
    put_marked(out, symbol, row, column, seq, b" sync ", sync)
}

fn put_timer(out: &mut Vec<u8>, row: u32, words: &Words, report: &[u8]) -> Result<(), AllocError>
    ensures { OnOk result (out.new.items ≡ out.old.items ++ timer row words.now report.now) }
{
    if !is_word(word(report, 2), b"sent") {
        return Ok(());
    }
    let column = member_column(words, word(report, 1));
    put_marked(
        out,
        Symbol::Timer,
        row,
        column,
        b"sync ",
        word(report, 3),
        b"",
    )
}

fn put_delivery(
    out: &mut Vec<u8>,
    row: u32,
    words: &Words,
    world: &World,
    report: &[u8],
) -> Result<(), AllocError>
    ensures { OnOk result (out.new.items ≡ out.old.items
        ++ delivery row words.now (world_of world.now) report.now) }
{
    let suppressed = is_word(word(report, 3), b"suppressed");
    let sync = word(report, 1);
    let from = sender_column(world, sync);
    let to = member_column(words, word(report, 2));
    put_arrow(out, suppressed, row, from, to, b"sync ", sync)
}

fn put_mirror_delivery(
    out: &mut Vec<u8>,
    row: u32,
    words: &Words,
    world: &World,
    report: &[u8],
) -> Result<(), AllocError>
    ensures { OnOk result (out.new.items ≡ out.old.items
        ++ mirror_delivery row words.now (world_of world.now) report.now) }
{
    let sync = word(report, 1);
    let from = sender_column(world, sync);
    let to = mirror_column(words, word(report, 2));
    put_arrow(out, false, row, from, to, b"sync ", sync)
}

fn put_answer(
    out: &mut Vec<u8>,
    row: u32,
    words: &Words,
    line: &[u8],
    report: &[u8],
) -> Result<(), AllocError>
    ensures { OnOk result (out.new.items ≡ out.old.items ++ answer row words.now line.now report.now) }
{
    if !is_word(word(report, 3), b"kept") {
        return Ok(());
    }
    let from = member_column(words, word(line, 3));
    let to = member_column(words, word(report, 1));
    put_arrow(out, false, row, from, to, b"Data", b"")
}

fn put_fetch(
    out: &mut Vec<u8>,
    row: u32,
    column: Option<u32>,
    report: &[u8],
) -> Result<(), AllocError>
    ensures { OnOk result (out.new.items ≡ out.old.items ++ fetch row column report.now) }
{
    let (kept, planned) = (word(report, 5), word(report, 3));
    put_marked(out, Symbol::Fetch, row, column, kept, b" of ", planned)
}

fn put_restart(out: &mut Vec<u8>, row: u32, words: &Words, report: &[u8]) -> Result<(), AllocError>
    ensures { OnOk result (out.new.items ≡ out.old.items ++ restart row words.now report.now) }
{
    let column = member_column(words, word(report, 1));
    put_marked(out, Symbol::Restart, row, column, b"restart", b"", b"")
}

fn put_command(out: &mut Vec<u8>, row: u32, words: &Words, report: &[u8]) -> Result<(), AllocError>
    ensures { OnOk result (out.new.items ≡ out.old.items ++ command row words.now report.now) }
{
    let column = member_column(words, word(report, 1));
    let (verb, code) = (word(report, 0), word(report, 2));
    put_marked(out, Symbol::Command, row, column, verb, b" ", code)
}

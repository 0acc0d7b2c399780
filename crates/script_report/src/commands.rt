ghost use Rattle.std.specs.Prelude.{codes};
ghost use Rattle.script_report.specs.Texts.{command_text, block_300_text, block_404_text, block_200_text};
ghost use Rattle.script_report.specs.Texts.{block_published_text};
ghost use Rattle.script_report.specs.Pieces.{Appends};

use crate::line::put_line;
use crate::piece::Piece::{Field, Number, Word};
use std::alloc::AllocError;

/// The answer to a command that was given as octets. `deleted` is printed as packets.
pub fn put_order(
    out: &mut Vec<u8>,
    m: &str,
    code: u64,
    process: Option<u64>,
    inserted: Option<u64>,
    deleted: Option<u64>,
) -> Result<(), AllocError>
    ensures { Appends (command_text (codes "order") m.now code process inserted deleted)
        out.old.items out.new.items result }
{
    put_command(out, "order", m, code, process, inserted, deleted)
}

/// The answer to an insertion that was asked for. `deleted` is printed as packets.
pub fn put_insert(
    out: &mut Vec<u8>,
    m: &str,
    code: u64,
    process: Option<u64>,
    inserted: Option<u64>,
    deleted: Option<u64>,
) -> Result<(), AllocError>
    ensures { Appends (command_text (codes "insert") m.now code process inserted deleted)
        out.old.items out.new.items result }
{
    put_command(out, "insert", m, code, process, inserted, deleted)
}

/// The answer to a check of a process. `deleted` is printed as packets.
pub fn put_status(
    out: &mut Vec<u8>,
    m: &str,
    code: u64,
    process: Option<u64>,
    inserted: Option<u64>,
    deleted: Option<u64>,
) -> Result<(), AllocError>
    ensures { Appends (command_text (codes "status") m.now code process inserted deleted)
        out.old.items out.new.items result }
{
    put_command(out, "status", m, code, process, inserted, deleted)
}

/// The answer to a deletion. `deleted` is printed as packets.
pub fn put_delete(
    out: &mut Vec<u8>,
    m: &str,
    code: u64,
    process: Option<u64>,
    inserted: Option<u64>,
    deleted: Option<u64>,
) -> Result<(), AllocError>
    ensures { Appends (command_text (codes "delete") m.now code process inserted deleted)
        out.old.items out.new.items result }
{
    put_command(out, "delete", m, code, process, inserted, deleted)
}

// What a command was answered: its code, and the fields that the answer has.
fn put_command(
    out: &mut Vec<u8>,
    verb: &str,
    m: &str,
    code: u64,
    process: Option<u64>,
    inserted: Option<u64>,
    deleted: Option<u64>,
) -> Result<(), AllocError>
    ensures { Appends (command_text verb.now m.now code process inserted deleted)
        out.old.items out.new.items result }
{
    put_line(
        out,
        verb,
        &[
            Word(m),
            Number(code),
            Field("process", process),
            Field("inserted", inserted),
            Field("packets", deleted),
        ],
    )
}

/// The block was taken, and blocks of its process are still missing.
pub fn put_block_300(out: &mut Vec<u8>, m: &str) -> Result<(), AllocError>
    ensures { Appends (block_300_text m.now) out.old.items out.new.items result }
{
    put_line(out, "block", &[Word(m), Word("300")])
}

/// There is no such process, or no such block of it.
pub fn put_block_404(out: &mut Vec<u8>, m: &str) -> Result<(), AllocError>
    ensures { Appends (block_404_text m.now) out.old.items out.new.items result }
{
    put_line(out, "block", &[Word(m), Word("404")])
}

/// The object of the process is already published.
pub fn put_block_200(out: &mut Vec<u8>, m: &str) -> Result<(), AllocError>
    ensures { Appends (block_200_text m.now) out.old.items out.new.items result }
{
    put_line(out, "block", &[Word(m), Word("200")])
}

/// The block was the last: the object is published under `seq`, and announced by the `sync`th sync
/// Interest.
pub fn put_block_published(
    out: &mut Vec<u8>,
    m: &str,
    seq: u64,
    sync: u64,
) -> Result<(), AllocError>
    ensures { Appends (block_published_text m.now seq sync) out.old.items out.new.items result }
{
    put_line(
        out,
        "block",
        &[
            Word(m),
            Word("200"),
            Word("published"),
            Number(seq),
            Word("sync"),
            Number(sync),
        ],
    )
}

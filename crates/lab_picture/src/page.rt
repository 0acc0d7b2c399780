ghost use Rattle.std.specs.Prelude.{◌≡◌, ◌++◌, ◌≤◌, OnOk};
ghost use Rattle.lab_picture.specs.Page.{arrow_meaning, below_rows, count_meaning, defined, definitions};
ghost use Rattle.lab_picture.specs.Page.{first_definitions, first_meanings, head, head_definition, label_shape};
ghost use Rattle.lab_picture.specs.Page.{life_shape, lifeline, lifelines, meaning, more_text, other_definitions};
ghost use Rattle.lab_picture.specs.Page.{other_meanings, page, page_width, rows_end, under_rows};

use crate::marks::{column_x, right_end, row_y};
use crate::shape::{Key, Shape, Symbol};
use crate::svg::{put_close, put_mark, put_open, put_words};
use itoa::Buffer;
use std::alloc::AllocError;

// Puts down the symbols, each defined once, and the head of arrows.
#[tactic(auto, unfolding(crate::specs::Page::definitions))]
fn put_definitions(out: &mut Vec<u8>) -> Result<(), AllocError>
    ensures { OnOk result (out.new.items ≡ out.old.items ++ definitions) }
{
    put_open(out, Shape::Definitions, &[])?;
    put_head_definition(out)?;
    put_first_definitions(out)?;
    put_other_definitions(out)?;
    put_close(out, Shape::Definitions)
}

#[tactic(auto, unfolding(crate::specs::Page::head_definition))]
fn put_head_definition(out: &mut Vec<u8>) -> Result<(), AllocError>
    ensures { OnOk result (out.new.items ≡ out.old.items ++ head_definition) }
{
    put_open(out, Shape::Head, &[])?;
    put_mark(out, Shape::HeadPath, &[])?;
    put_close(out, Shape::Head)
}

fn put_defined(out: &mut Vec<u8>, symbol: Symbol) -> Result<(), AllocError>
    ensures { OnOk result (out.new.items ≡ out.old.items ++ defined symbol) }
{
    put_mark(out, Shape::Defined(symbol), &[])
}

#[tactic(auto, unfolding(crate::specs::Page::first_definitions))]
fn put_first_definitions(out: &mut Vec<u8>) -> Result<(), AllocError>
    ensures { OnOk result (out.new.items ≡ out.old.items ++ first_definitions) }
{
    put_defined(out, Symbol::Publish)?;
    put_defined(out, Symbol::Withdraw)?;
    put_defined(out, Symbol::Timer)?;
    put_defined(out, Symbol::Restart)
}

#[tactic(auto, unfolding(crate::specs::Page::other_definitions))]
fn put_other_definitions(out: &mut Vec<u8>) -> Result<(), AllocError>
    ensures { OnOk result (out.new.items ≡ out.old.items ++ other_definitions) }
{
    put_defined(out, Symbol::Command)?;
    put_defined(out, Symbol::Fetch)?;
    put_defined(out, Symbol::Loop)
}

#[tactic(auto, unfolding(crate::specs::Page::lifelines))]
fn put_lifelines(
    out: &mut Vec<u8>,
    members: u32,
    columns: u32,
    bottom: u64,
) -> Result<(), AllocError>
    ensures { OnOk result (out.new.items ≡ out.old.items ++ lifelines members columns bottom) }
{
    for column in 0..columns {
        put_lifeline(out, members, bottom, column)?;
    }
    Ok(())
}

fn put_lifeline(out: &mut Vec<u8>, members: u32, bottom: u64, column: u32) -> Result<(), AllocError>
    ensures { OnOk result (out.new.items ≡ out.old.items ++ lifeline members bottom column) }
{
    let x = column_x(column);
    let ends = [(Key::X1, x), (Key::Y1, 46), (Key::X2, x), (Key::Y2, bottom)];
    put_mark(out, life_shape(members, column), &ends)
}

fn life_shape(members: u32, column: u32) -> Shape
    ensures { result ≡ life_shape members column }
{
    if column < members {
        Shape::Life
    } else {
        Shape::MirrorLife
    }
}

fn label_shape(members: u32, column: u32) -> Shape
    ensures { result ≡ label_shape members column }
{
    if column < members {
        Shape::Label
    } else {
        Shape::MirrorLabel
    }
}

// Puts down the label above a column.
pub(crate) fn put_head(
    out: &mut Vec<u8>,
    members: u32,
    column: u32,
    label: &[u8],
) -> Result<(), AllocError>
    ensures { OnOk result (out.new.items ≡ out.old.items ++ head members column label.now) }
{
    put_words(
        out,
        label_shape(members, column),
        column_x(column),
        34,
        label,
        b"",
        b"",
    )
}

#[tactic(auto, unfolding(crate::specs::Page::more_text))]
fn put_more(out: &mut Vec<u8>, rows: u32, more: u64) -> Result<(), AllocError>
    ensures { OnOk result (out.new.items ≡ out.old.items ++ more_text rows more) }
{
    if more == 0 {
        return Ok(());
    }
    put_words(
        out,
        Shape::More,
        56,
        row_y(rows) + 4,
        b"and ",
        Buffer::new().format(more).as_bytes(),
        b" more",
    )
}

fn rows_end(rows: u32, more: u64) -> u64
    ensures end { result ≡ rows_end rows more }
    ensures few { result ≤ 1000000000000 }
{
    if more == 0 {
        row_y(rows)
    } else {
        row_y(rows) + 28
    }
}

#[tactic(auto, unfolding(crate::specs::Page::meaning))]
fn put_meaning(
    out: &mut Vec<u8>,
    symbol: Symbol,
    x: u64,
    y: u64,
    text: &[u8],
) -> Result<(), AllocError>
    requires right { x ≤ 1000 }
    requires above { y ≤ 2000000000000 }
    ensures { OnOk result (out.new.items ≡ out.old.items ++ meaning symbol x y text.now) }
{
    put_mark(out, Shape::Placed(symbol), &[(Key::X, x), (Key::Y, y)])?;
    put_words(out, Shape::Note, x + 16, y + 4, text, b"", b"")
}

#[tactic(auto, unfolding(crate::specs::Page::arrow_meaning))]
fn put_arrow_meaning(
    out: &mut Vec<u8>,
    shape: Shape,
    x: u64,
    y: u64,
    text: &[u8],
) -> Result<(), AllocError>
    requires right { x ≤ 1000 }
    requires above { y ≤ 2000000000000 }
    ensures { OnOk result (out.new.items ≡ out.old.items ++ arrow_meaning shape x y text.now) }
{
    let ends = [(Key::X1, x), (Key::Y1, y), (Key::X2, x + 24), (Key::Y2, y)];
    put_mark(out, shape, &ends)?;
    put_words(out, Shape::Note, x + 32, y + 4, text, b"", b"")
}

#[tactic(auto, unfolding(crate::specs::Page::count_meaning))]
fn put_count_meaning(out: &mut Vec<u8>, x: u64, y: u64) -> Result<(), AllocError>
    requires right { x ≤ 1000 }
    requires above { y ≤ 2000000000000 }
    ensures { OnOk result (out.new.items ≡ out.old.items ++ count_meaning x y) }
{
    put_words(out, Shape::Count, x, y + 4, b"3", b"", b"")?;
    put_words(out, Shape::Note, x + 6, y + 4, b"entries listed", b"", b"")
}

// Puts down what the marks mean.
#[tactic(auto, unfolding(crate::specs::Page::first_meanings))]
fn put_first_meanings(out: &mut Vec<u8>, y: u64) -> Result<(), AllocError>
    requires { y ≤ 2000000000000 }
    ensures { OnOk result (out.new.items ≡ out.old.items ++ first_meanings y) }
{
    put_meaning(out, Symbol::Publish, 64, y, b"publish")?;
    put_meaning(out, Symbol::Withdraw, 150, y, b"withdraw")?;
    put_meaning(out, Symbol::Timer, 244, y, b"timer sends")?;
    put_meaning(out, Symbol::Restart, 358, y, b"restart")?;
    put_meaning(out, Symbol::Command, 444, y, b"command")
}

#[tactic(auto, unfolding(crate::specs::Page::other_meanings))]
fn put_other_meanings(out: &mut Vec<u8>, y: u64) -> Result<(), AllocError>
    requires { y ≤ 2000000000000 }
    ensures { OnOk result (out.new.items ≡ out.old.items ++ other_meanings y) }
{
    put_meaning(out, Symbol::Fetch, 66, y, b"came of planned")?;
    put_arrow_meaning(out, Shape::Arrow, 202, y, b"sync or Data")?;
    put_arrow_meaning(out, Shape::DashedArrow, 330, y, b"suppressed")?;
    put_count_meaning(out, 460, y)
}

fn page_width(columns: u32) -> u64
    ensures { result ≡ page_width columns }
{
    (right_end(columns) + 72).max(576)
}

// Puts down what stands under the rows.
#[tactic(auto, unfolding(crate::specs::Page::under_rows))]
fn put_under_rows(
    out: &mut Vec<u8>,
    members: u32,
    columns: u32,
    rows: u32,
    width: u64,
    height: u64,
) -> Result<(), AllocError>
    ensures { OnOk result (out.new.items ≡ out.old.items ++ under_rows members columns rows width height) }
{
    put_definitions(out)?;
    put_mark(
        out,
        Shape::Ground,
        &[(Key::Width, width), (Key::Height, height)],
    )?;
    put_lifelines(out, members, columns, row_y(rows) - 14)
}

// Puts down what stands below the rows.
#[tactic(auto, unfolding(crate::specs::Page::below_rows))]
fn put_below_rows(out: &mut Vec<u8>, rows: u32, more: u64) -> Result<(), AllocError>
    ensures { OnOk result (out.new.items ≡ out.old.items ++ below_rows rows more) }
{
    let end = rows_end(rows, more);
    put_more(out, rows, more)?;
    put_first_meanings(out, end + 16)?;
    put_other_meanings(out, end + 40)
}

// Puts down the whole picture.
pub(crate) fn put_page(
    out: &mut Vec<u8>,
    members: u32,
    columns: u32,
    rows: u32,
    more: u64,
    heads: &[u8],
    body: &[u8],
) -> Result<(), AllocError>
    ensures { OnOk result (out.new.items ≡ out.old.items ++ page members columns rows more heads.now body.now) }
{
    let (width, height) = (page_width(columns), rows_end(rows, more) + 60);
    put_open(
        out,
        Shape::Picture,
        &[(Key::Width, width), (Key::Height, height)],
    )?;
    put_under_rows(out, members, columns, rows, width, height)?;
    out.extend_from_slice(heads)?;
    out.extend_from_slice(body)?;
    put_below_rows(out, rows, more)?;
    put_close(out, Shape::Picture)
}

ghost use Rattle.std.specs.Prelude.{◌≡◌, ◌≢◌, ◌++◌, OnOk};
ghost use Rattle.lab_picture.specs.Marks.{arrow, arrow_between, arrow_shape, band, change, changes, column_x, dots};
ghost use Rattle.lab_picture.specs.Marks.{loop_shape, marked, number_at, right_end, row_text, row_y, shown_part};

use crate::shape::{Key, Shape, Symbol};
use crate::svg::{put_mark, put_words};
use itoa::Buffer;
use std::alloc::AllocError;

// The line of a column, counted from 0.
pub(crate) fn column_x(column: u32) -> u64
    ensures { result ≡ column_x column }
{
    464 + 128 * u64::from(column)
}

// The middle of a row, counted from 0.
pub(crate) fn row_y(row: u32) -> u64
    ensures { result ≡ row_y row }
{
    88 + 28 * u64::from(row)
}

// Where the columns end.
pub(crate) fn right_end(columns: u32) -> u64
    ensures { result ≡ right_end columns }
{
    400 + 128 * u64::from(columns)
}

// Puts down a symbol on a column's line, and a text right of it.
pub(crate) fn put_marked(
    out: &mut Vec<u8>,
    symbol: Symbol,
    row: u32,
    column: Option<u32>,
    first: &[u8],
    middle: &[u8],
    last: &[u8],
) -> Result<(), AllocError>
    ensures { OnOk result (out.new.items ≡ out.old.items
        ++ marked symbol row column first.now middle.now last.now) }
{
    let Some(column) = column else {
        return Ok(());
    };
    let (x, y) = (column_x(column), row_y(row));
    put_mark(out, Shape::Placed(symbol), &[(Key::X, x), (Key::Y, y)])?;
    put_words(out, Shape::Note, x + 16, y + 4, first, middle, last)
}

fn arrow_shape(dashed: bool) -> Shape
    ensures { result ≡ arrow_shape dashed }
{
    if dashed {
        Shape::DashedArrow
    } else {
        Shape::Arrow
    }
}

fn loop_shape(dashed: bool) -> Shape
    ensures { result ≡ loop_shape dashed }
{
    if dashed {
        Shape::DashedLoop
    } else {
        Shape::Placed(Symbol::Loop)
    }
}

// Puts down an arrow between two columns' lines, with a text where it begins.
pub(crate) fn put_arrow(
    out: &mut Vec<u8>,
    dashed: bool,
    row: u32,
    from: Option<u32>,
    to: Option<u32>,
    first: &[u8],
    last: &[u8],
) -> Result<(), AllocError>
    ensures { OnOk result (out.new.items ≡ out.old.items ++ arrow dashed row from to first.now last.now) }
{
    let Some(from) = from else {
        return Ok(());
    };
    let Some(to) = to else {
        return Ok(());
    };
    if from == to {
        put_loop(out, dashed, row, from, first, last)
    } else {
        put_straight(out, dashed, row, from, to, first, last)
    }
}

fn put_loop(
    out: &mut Vec<u8>,
    dashed: bool,
    row: u32,
    column: u32,
    first: &[u8],
    last: &[u8],
) -> Result<(), AllocError>
    ensures { OnOk result (out.new.items ≡ out.old.items
        ++ arrow_between dashed row column column first.now last.now) }
{
    let (x, y) = (column_x(column), row_y(row));
    put_mark(out, loop_shape(dashed), &[(Key::X, x), (Key::Y, y)])?;
    put_words(out, Shape::Note, x + 32, y + 4, first, last, b"")
}

fn put_straight(
    out: &mut Vec<u8>,
    dashed: bool,
    row: u32,
    from: u32,
    to: u32,
    first: &[u8],
    last: &[u8],
) -> Result<(), AllocError>
    requires { from ≢ to }
    ensures { OnOk result (out.new.items ≡ out.old.items
        ++ arrow_between dashed row from to first.now last.now) }
{
    let (x, y) = (column_x(from), row_y(row));
    let ends = [
        (Key::X1, x),
        (Key::Y1, y),
        (Key::X2, column_x(to)),
        (Key::Y2, y),
    ];
    put_mark(out, arrow_shape(dashed), &ends)?;
    if from < to {
        put_words(out, Shape::Note, x + 8, y - 5, first, last, b"")
    } else {
        put_words(out, Shape::LeftNote, x - 8, y - 5, first, last, b"")
    }
}

// Puts down a band over all lines.
pub(crate) fn put_band(
    out: &mut Vec<u8>,
    row: u32,
    columns: u32,
    kept: &[u8],
) -> Result<(), AllocError>
    ensures { OnOk result (out.new.items ≡ out.old.items ++ band row columns kept.now) }
{
    let y = row_y(row);
    let width = 128 * u64::from(columns);
    let sides = [
        (Key::X, 400),
        (Key::Y, y - 13),
        (Key::Width, width),
        (Key::Height, 26),
    ];
    put_mark(out, Shape::Band, &sides)?;
    put_words(out, Shape::Note, 472, y + 4, b"kept ", kept, b"")
}

// Puts down the numbers of entries that changed.
pub(crate) fn put_changes(
    out: &mut Vec<u8>,
    row: u32,
    columns: u32,
    before: &[u64],
    now: &[u64],
) -> Result<(), AllocError>
    ensures { OnOk result (out.new.items ≡ out.old.items ++ changes row columns before.now now.now) }
{
    for column in 0..columns {
        put_change(
            out,
            row,
            column,
            number_at(before, column),
            number_at(now, column),
        )?;
    }
    Ok(())
}

fn number_at(numbers: &[u64], place: u32) -> u64
    ensures { result ≡ number_at numbers.now place }
{
    numbers.get(place as usize).copied().unwrap_or(0)
}

fn put_change(
    out: &mut Vec<u8>,
    row: u32,
    column: u32,
    before: u64,
    now: u64,
) -> Result<(), AllocError>
    ensures { OnOk result (out.new.items ≡ out.old.items ++ change row column before now) }
{
    if before == now {
        return Ok(());
    }
    let (x, y) = (column_x(column) - 14, row_y(row) - 5);
    put_words(
        out,
        Shape::Count,
        x,
        y,
        Buffer::new().format(now).as_bytes(),
        b"",
        b"",
    )
}

// Puts down a row: the line's number and its text at the left, and its marks.
pub(crate) fn put_row(
    out: &mut Vec<u8>,
    row: u32,
    columns: u32,
    number: u32,
    line: &[u8],
    marks: &[u8],
) -> Result<(), AllocError>
    ensures { OnOk result (out.new.items ≡ out.old.items ++ row_text row columns number line.now marks.now) }
{
    let y = row_y(row);
    let ends = [
        (Key::X1, 56),
        (Key::Y1, y + 14),
        (Key::X2, right_end(columns)),
        (Key::Y2, y + 14),
    ];
    put_mark(out, Shape::Guide, &ends)?;
    put_words(
        out,
        Shape::Number,
        44,
        y + 4,
        Buffer::new().format(number).as_bytes(),
        b"",
        b"",
    )?;
    put_words(
        out,
        Shape::Text,
        56,
        y + 4,
        shown_part(line),
        dots(line),
        b"",
    )?;
    out.extend_from_slice(marks)
}

fn shown_part(line: &[u8]) -> &[u8]
    ensures { result.now ≡ shown_part line.now }
{
    if line.len() > 40 {
        line.split_at(37).0
    } else {
        line
    }
}

fn dots(line: &[u8]) -> &'static [u8]
    ensures { result.now ≡ dots line.now }
{
    if line.len() > 40 { b"..." } else { b"" }
}

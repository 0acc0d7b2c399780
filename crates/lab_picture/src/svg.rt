ghost use Rattle.std.specs.Prelude.{◌≡◌, ◌++◌, OnOk};
ghost use Rattle.lab_picture.specs.Svg.{attribute, attributes, close_tag, escaped, escaped_octet, mark, open_tag};
ghost use Rattle.lab_picture.specs.Svg.{words_at};

use crate::shape::{Key, Shape};
use itoa::Buffer;
use std::alloc::AllocError;

// Puts down the tag that opens an element.
#[tactic(auto, unfolding(crate::specs::Svg::open_tag))]
pub(crate) fn put_open(
    out: &mut Vec<u8>,
    shape: Shape,
    numbers: &[(Key, u64)],
) -> Result<(), AllocError>
    ensures { OnOk result (out.new.items ≡ out.old.items ++ open_tag shape numbers.now) }
{
    out.extend_from_slice(b"<")?;
    out.extend_from_slice(shape.tag())?;
    out.extend_from_slice(shape.style())?;
    put_attributes(out, numbers)?;
    out.extend_from_slice(b">")
}

fn put_attributes(out: &mut Vec<u8>, numbers: &[(Key, u64)]) -> Result<(), AllocError>
    ensures { OnOk result (out.new.items ≡ out.old.items ++ attributes numbers.now) }
{
    for number in numbers {
        put_attribute(out, number.0, number.1)?;
    }
    Ok(())
}

fn put_attribute(out: &mut Vec<u8>, key: Key, n: u64) -> Result<(), AllocError>
    ensures { OnOk result (out.new.items ≡ out.old.items ++ attribute key n) }
{
    out.extend_from_slice(b" ")?;
    out.extend_from_slice(key.word())?;
    out.extend_from_slice(b"='")?;
    out.extend_from_slice(Buffer::new().format(n).as_bytes())?;
    out.extend_from_slice(b"'")
}

// Puts down the tag that closes an element.
#[tactic(auto, unfolding(crate::specs::Svg::close_tag))]
pub(crate) fn put_close(out: &mut Vec<u8>, shape: Shape) -> Result<(), AllocError>
    ensures { OnOk result (out.new.items ≡ out.old.items ++ close_tag shape) }
{
    out.extend_from_slice(b"</")?;
    out.extend_from_slice(shape.tag())?;
    out.extend_from_slice(b">\n")
}

// Puts down an element with nothing in it.
pub(crate) fn put_mark(
    out: &mut Vec<u8>,
    shape: Shape,
    numbers: &[(Key, u64)],
) -> Result<(), AllocError>
    ensures { OnOk result (out.new.items ≡ out.old.items ++ mark shape numbers.now) }
{
    put_open(out, shape, numbers)?;
    put_close(out, shape)
}

// Puts down three texts one after the other, escaped, at a place.
pub(crate) fn put_words(
    out: &mut Vec<u8>,
    shape: Shape,
    x: u64,
    y: u64,
    first: &[u8],
    middle: &[u8],
    last: &[u8],
) -> Result<(), AllocError>
    ensures { OnOk result (out.new.items ≡ out.old.items ++ words_at shape x y first.now middle.now last.now) }
{
    put_open(out, shape, &[(Key::X, x), (Key::Y, y)])?;
    put_escaped(out, first)?;
    put_escaped(out, middle)?;
    put_escaped(out, last)?;
    put_close(out, shape)
}

fn put_escaped(out: &mut Vec<u8>, text: &[u8]) -> Result<(), AllocError>
    ensures { OnOk result (out.new.items ≡ out.old.items ++ escaped text.now) }
{
    for octet in text {
        put_octet(out, *octet)?;
    }
    Ok(())
}

fn put_octet(out: &mut Vec<u8>, octet: u8) -> Result<(), AllocError>
    ensures { OnOk result (out.new.items ≡ out.old.items ++ escaped_octet octet) }
{
    match octet {
        b'&' => out.extend_from_slice(b"&amp;"),
        b'<' => out.extend_from_slice(b"&lt;"),
        b'>' => out.extend_from_slice(b"&gt;"),
        b'"' => out.extend_from_slice(b"&quot;"),
        b' '..=b'~' => out.extend_from_slice(&[octet]),
        _ => out.extend_from_slice(b" "),
    }
}

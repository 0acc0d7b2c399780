ghost use Rattle.std.specs.Prelude.{◌≡◌, ◌++◌, OnOk, string_bytes};
ghost use Rattle.ndn_tlv.specs.Elements.{item};
ghost use Rattle.ndn_inspect.specs.Inspection.{indent, type_digits, value_digits, element_line, fault_text, fault_line};

use crate::types::{has_elements, name_of};
use ndn_tlv::{Element, TlvFault};
use std::alloc::AllocError;

// Each call appends to a text.

// The line of an element at this depth.
#[tactic(auto, unfolding(crate::specs::Inspection::element_line))]
pub(crate) fn put_line(
    text: &mut String,
    depth: usize,
    element: &Element<'_>,
) -> Result<(), AllocError>
    ensures { OnOk result (string_bytes text.new
        ≡ string_bytes text.old ++ element_line depth (item element.now)) }
{
    put_indent(text, depth)?;
    put_type(text, element.typ)?;
    write!(text, " {} {}", name_of(element.typ), element.value.len())?;
    put_value(text, element)?;
    text.push_str("\n")?;
    Ok(())
}

// The value's digits after a space, unless it is read as elements or empty.
fn put_value(text: &mut String, element: &Element<'_>) -> Result<(), AllocError>
    ensures { OnOk result (string_bytes text.new
        ≡ string_bytes text.old ++ value_digits (item element.now)) }
{
    if has_elements(element.typ) || element.value.is_empty() {
        return Ok(());
    }
    let digits = hex::encode(*text.allocator(), element.value)?;
    write!(text, " {digits}")
}

// Two spaces for each depth.
#[tactic(auto, unfolding(crate::specs::Inspection::indent))]
fn put_indent(text: &mut String, depth: usize) -> Result<(), AllocError>
    ensures { OnOk result (string_bytes text.new ≡ string_bytes text.old ++ indent depth) }
{
    for _level in 0..depth {
        text.push_str("  ")?;
    }
    Ok(())
}

// A type in hexadecimal, of two digits at least.
fn put_type(text: &mut String, typ: u32) -> Result<(), AllocError>
    ensures { OnOk result (string_bytes text.new ≡ string_bytes text.old ++ type_digits typ) }
{
    if typ < 16 {
        text.push_str("0")?;
    }
    write!(text, "{typ:x}")
}

// The line of a fault.
pub(crate) fn put_fault(text: &mut String, fault: TlvFault) -> Result<(), AllocError>
    ensures { OnOk result (string_bytes text.new ≡ string_bytes text.old ++ fault_line fault) }
{
    match fault {
        TlvFault::Truncated { at } => put_word(text, "Truncated", at),
        TlvFault::NotShortest { at } => put_word(text, "NotShortest", at),
        TlvFault::ZeroType { at } => put_word(text, "ZeroType", at),
        TlvFault::TypeTooLarge { at } => put_word(text, "TypeTooLarge", at),
    }
}

fn put_word(text: &mut String, word: &str, at: usize) -> Result<(), AllocError>
    ensures { OnOk result (string_bytes text.new ≡ string_bytes text.old ++ fault_text at word.now) }
{
    writeln!(text, "fault {word} {at}")
}

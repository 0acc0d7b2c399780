ghost use Rattle.std.specs.Prelude.{◌≡◌, ◌++◌, IfOk, is_some, not, string_bytes};
ghost use Rattle.ndn_inspect.specs.Inspection.{inspected, printed_with_fault};

use crate::line::{put_fault, put_line};
use crate::types::has_elements;
use ndn_tlv::{Reader, TlvFault};
use std::alloc::{AllocError, Global};

/// The text that the octets are inspected as, and whether they are elements throughout.
pub fn inspect(alloc: Global, octets: &[u8]) -> Result<(Vec<u8>, bool), AllocError>
    ensures text { IfOk result (λ answer. answer.0.items
        ≡ printed_with_fault (inspected octets.now).text (inspected octets.now).fault) }
    ensures sound { IfOk result (λ answer. answer.1 ≡ not (is_some (inspected octets.now).fault)) }
{
    let mut text = String::new(alloc);
    match put_elements(&mut text, octets)? {
        None => Ok((text.into_bytes(), true)),
        Some(fault) => {
            put_fault(&mut text, fault)?;
            Ok((text.into_bytes(), false))
        }
    }
}

// Appends the lines of the octets, and gives the fault that ends them.
//
// The readers that are open stand in a list, the deepest last, so nesting takes no stack.
fn put_elements(text: &mut String, octets: &[u8]) -> Result<Option<TlvFault>, AllocError>
    ensures text { IfOk result (λ _. string_bytes text.new
        ≡ string_bytes text.old ++ (inspected octets.now).text) }
    ensures fault { IfOk result (λ fault. fault ≡ (inspected octets.now).fault) }
{
    let mut open = Vec::new(*text.allocator());
    open.push(Reader::new(octets, 0))?;
    while let Some(mut reader) = open.pop() {
        let next = match reader.next() {
            Ok(next) => next,
            Err(fault) => return Ok(Some(fault)),
        };
        let Some(element) = next else {
            continue;
        };
        put_line(text, open.len(), &element)?;
        open.push(reader)?;
        if has_elements(element.typ) {
            open.push(Reader::new(element.value, element.value_start))?;
        }
    }
    Ok(None)
}

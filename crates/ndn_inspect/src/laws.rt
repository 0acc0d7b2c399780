ghost use Rattle.std.specs.Prelude.{◌≡◌, ◌+◌, ◌<◌, [], ◌++◌, ℕ, List, Some, Err, length};
ghost use Rattle.ndn_tlv.specs.declared.tlv_fault.TlvFault.{TlvFault};
ghost use Rattle.ndn_tlv.specs.Spelling.{element};
ghost use Rattle.ndn_tlv.specs.Elements.{IsElement, placed, element_at};
ghost use Rattle.ndn_inspect.specs.Inspection.{no_lines, ◌before◌, ◌and_then◌, element_line, inner_lines, lines_at};

/// What octets print: nothing where there are none, and otherwise the line of the element that begins them, the lines
/// of what stands in it, and those of what follows it, or the fault of what no element begins.
pub fn lines_are_those_of_elements()
    ensures nothing { (depth offset : ℕ) → lines_at depth offset [] ≡ no_lines }
    ensures element { (depth offset typ : ℕ) (value rest : List ℕ) → IsElement typ value
        → let e = placed offset typ value in let after = offset + length (element typ value) in
        lines_at depth offset (element typ value ++ rest)
        ≡ (element_line depth e before inner_lines lines_at depth e and_then lines_at depth after rest) }
    ensures fault { (depth offset : ℕ) (octets : List ℕ) (fault : TlvFault)
        → 0 < length octets → element_at offset octets ≡ Err fault
        → lines_at depth offset octets ≡ record { text = []; fault = Some fault } }
{}

ghost use Rattle.std.specs.Prelude.{◌≡◌, ◌∷◌, ◌++◌, codes, map, string_bytes, OnOk};
ghost use Rattle.std.specs.Fmt.{decimal};
ghost use Rattle.hex.specs.Hex.{encode_lower};
ghost use Rattle.ndn_name.specs.Uri.{uri};
ghost use Rattle.script_report.specs.Texts.{field, labelled_numbers, after_spaces};
ghost use Rattle.script_report.specs.Pieces.{KeepsPrefix, words_in, words_of};

use itoa::Buffer;
use ndn_name::Name;
use std::alloc::AllocError;

// What a line says after its first word.
#[derive(Clone, Copy, Debug)]
pub(crate) enum Piece<'a> {
    Word(&'a str),
    Number(u64),
    // Octets as hexadecimal text.
    Hex(&'a [u8]),
    Uri(&'a Name),
    // A word and a number, where there is one.
    Field(&'a str, Option<u64>),
    // For each label and its number: the label, an equals sign and the number.
    Counts(&'a [String], &'a [u64]),
}

// Each call appends words, each after a space. Where memory ran out, the octets still begin with those from before the
// call.

pub(crate) fn put_pieces(out: &mut Vec<u8>, pieces: &[Piece<'_>]) -> Result<(), AllocError>
    ensures ok { OnOk result (out.new.items ≡ out.old.items ++ after_spaces (words_in pieces.now)) }
    ensures kept { KeepsPrefix out.old.items out.new.items }
{
    for piece in pieces {
        put_piece(out, piece)?;
    }
    Ok(())
}

fn put_piece(out: &mut Vec<u8>, piece: &Piece<'_>) -> Result<(), AllocError>
    ensures ok { OnOk result (out.new.items ≡ out.old.items ++ after_spaces (words_of piece.now)) }
    ensures kept { KeepsPrefix out.old.items out.new.items }
{
    match piece {
        Piece::Word(word) => put_word(out, word.as_bytes()),
        Piece::Number(number) => put_word(out, Buffer::new().format(*number).as_bytes()),
        Piece::Hex(octets) => put_hex(out, octets),
        Piece::Uri(name) => put_uri(out, name),
        Piece::Field(word, number) => put_field(out, word, *number),
        Piece::Counts(labels, numbers) => put_counts(out, labels, numbers),
    }
}

fn put_word(out: &mut Vec<u8>, word: &[u8]) -> Result<(), AllocError>
    ensures ok { OnOk result (out.new.items ≡ out.old.items ++ (32 ∷ word.now)) }
    ensures kept { KeepsPrefix out.old.items out.new.items }
{
    out.push(b' ')?;
    out.extend_from_slice(word)
}

fn put_hex(out: &mut Vec<u8>, octets: &[u8]) -> Result<(), AllocError>
    ensures ok { OnOk result (out.new.items ≡ out.old.items ++ (32 ∷ encode_lower octets.now)) }
    ensures kept { KeepsPrefix out.old.items out.new.items }
{
    out.push(b' ')?;
    let before = out.len();
    let digits = octets.len().checked_mul(2).ok_or(AllocError)?;
    let after = before.checked_add(digits).ok_or(AllocError)?;
    out.resize(after, b'0')?;
    // There is capacity for just these digits, so none is refused.
    let _ = hex::encode_to_slice(octets, &mut out[before..]);
    Ok(())
}

#[tactic(auto, using(crate::proofs::Prefixes::keeps_more, crate::proofs::Prefixes::keeps_same))]
fn put_uri(out: &mut Vec<u8>, name: &Name) -> Result<(), AllocError>
    ensures ok { OnOk result (out.new.items ≡ out.old.items ++ (32 ∷ uri name.now)) }
    ensures kept { KeepsPrefix out.old.items out.new.items }
{
    out.push(b' ')?;
    name.view().put_uri(out)
}

fn put_field(out: &mut Vec<u8>, word: &str, number: Option<u64>) -> Result<(), AllocError>
    ensures ok { OnOk result (out.new.items ≡ out.old.items ++ after_spaces (field word.now number)) }
    ensures kept { KeepsPrefix out.old.items out.new.items }
{
    let Some(number) = number else {
        return Ok(());
    };
    put_word(out, word.as_bytes())?;
    put_word(out, Buffer::new().format(number).as_bytes())
}

fn put_counts(out: &mut Vec<u8>, labels: &[String], numbers: &[u64]) -> Result<(), AllocError>
    ensures ok { OnOk result (out.new.items ≡ out.old.items
        ++ after_spaces (labelled_numbers (map string_bytes labels.now) numbers.now)) }
    ensures kept { KeepsPrefix out.old.items out.new.items }
{
    for (label, number) in labels.iter().zip(numbers) {
        put_count(out, label, *number)?;
    }
    Ok(())
}

#[tactic(auto, using(crate::proofs::Prefixes::keeps_more, crate::proofs::Prefixes::keeps_then))]
fn put_count(out: &mut Vec<u8>, label: &str, number: u64) -> Result<(), AllocError>
    ensures ok { OnOk result (out.new.items
        ≡ out.old.items ++ (32 ∷ label.now ++ codes "=" ++ decimal number)) }
    ensures kept { KeepsPrefix out.old.items out.new.items }
{
    put_word(out, label.as_bytes())?;
    out.push(b'=')?;
    out.extend_from_slice(Buffer::new().format(number).as_bytes())
}

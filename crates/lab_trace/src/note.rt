// The text of a note.
ghost use Rattle.std.specs.Prelude.{◌≡◌, [], ◌∷◌, ◌++◌, OnOk, codes, decimal};
ghost use Rattle.lab_trace.specs.NoteTexts.{begun_note, counts_text, field_text, knows_text, mode_text, note_text};
ghost use Rattle.lab_trace.specs.NoteTexts.{timer_text};
ghost use Rattle.lab_trace.specs.SameValues.{values_of};
ghost use Rattle.lab_trace.specs.StateNotes.{member_labels};

use crate::values::{Counts, Figures, Timer};
use itoa::Buffer;
use script_lang::Words;
use std::alloc::AllocError;
use svs_sync::Mode;
use svs_vector::Vector;

// Appends the note of a member or a mirror.
pub(crate) fn put_note(
    note: &mut Vec<u8>,
    words: &Words,
    label: &str,
    known: &Vector,
    figures: Figures,
) -> Result<(), AllocError>
    ensures { OnOk result (note.new.items ≡ note.old.items
        ++ note_text (member_labels words.now) label.now (values_of known.now figures)) }
{
    put_begun(note, label)?;
    put_timer(note, figures.timer)?;
    put_knows(note, words, known)?;
    put_counts(note, figures.counts)
}

fn put_begun(note: &mut Vec<u8>, label: &str) -> Result<(), AllocError>
    ensures { OnOk result (note.new.items ≡ note.old.items ++ begun_note label.now) }
{
    note.extend_from_slice(b"#= ")?;
    note.extend_from_slice(label.as_bytes())
}

fn put_timer(note: &mut Vec<u8>, timer: Option<Timer>) -> Result<(), AllocError>
    ensures { OnOk result (note.new.items ≡ note.old.items ++ timer_text timer) }
{
    let Some(timer) = timer else {
        return Ok(());
    };
    put_mode(note, timer.mode)?;
    put_field(note, b"until", timer.deadline)
}

fn put_mode(note: &mut Vec<u8>, mode: Mode) -> Result<(), AllocError>
    ensures { OnOk result (note.new.items ≡ note.old.items ++ mode_text mode) }
{
    match mode {
        Mode::Steady => note.extend_from_slice(b" steady"),
        Mode::Suppressed => note.extend_from_slice(b" suppressed"),
    }
}

fn put_field(note: &mut Vec<u8>, word: &[u8], n: u64) -> Result<(), AllocError>
    ensures { OnOk result (note.new.items ≡ note.old.items ++ field_text word.now n) }
{
    note.push(b' ')?;
    note.extend_from_slice(word)?;
    note.push(b' ')?;
    note.extend_from_slice(Buffer::new().format(n).as_bytes())
}

// Appends a vector, under the labels of its members.
fn put_knows(note: &mut Vec<u8>, words: &Words, vector: &Vector) -> Result<(), AllocError>
    ensures { OnOk result (note.new.items ≡ note.old.items ++ knows_text (member_labels words.now) vector.now) }
{
    note.extend_from_slice(b" knows")?;
    let count = words.members().min(vector.members()) as u32;
    for member in 0..count {
        put_known(note, words.label(member), vector.get(member))?;
    }
    Ok(())
}

fn put_known(note: &mut Vec<u8>, label: &str, number: u16) -> Result<(), AllocError>
    ensures { OnOk result (note.new.items ≡ note.old.items ++ (32 ∷ (label.now ++ codes "=" ++ decimal number))) }
{
    note.push(b' ')?;
    note.extend_from_slice(label.as_bytes())?;
    note.push(b'=')?;
    note.extend_from_slice(Buffer::new().format(number).as_bytes())
}

// Appends the counts, which end a note.
fn put_counts(note: &mut Vec<u8>, counts: Counts) -> Result<(), AllocError>
    ensures { OnOk result (note.new.items ≡ note.old.items ++ (counts_text counts ++ 10 ∷ [])) }
{
    put_field(note, b"holds", counts.holds)?;
    put_field(note, b"wants", counts.wants)?;
    put_field(note, b"lists", counts.lists)?;
    note.extend_from_slice(b"\n")
}

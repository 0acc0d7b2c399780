// The notes of the members and the mirrors of a world, where they say something new.
ghost use Rattle.std.specs.Prelude.{◌≡◌, ◌<◌, ◌++◌, length, map, IfOk, OnOk};
ghost use Rattle.bench_world.specs.Worlds.{world_of};
ghost use Rattle.script_report.specs.Labels.{label_at};
ghost use Rattle.script_story.specs.Mirrors.{mirror_as, mirror_of};
ghost use Rattle.lab_trace.specs.Changes.{change_text, changed, changes};
ghost use Rattle.lab_trace.specs.NoteTexts.{note_text};
ghost use Rattle.lab_trace.specs.SameValues.{values_of};
ghost use Rattle.lab_trace.specs.StateNotes.{member_figures, member_labels, member_values, members_values};
ghost use Rattle.lab_trace.specs.StateNotes.{mirror_figures, mirror_values, mirrors_values};
ghost use Rattle.lab_trace.specs.Trace.{member_notes, mirror_notes};

use crate::note::put_note;
use crate::values::{Counts, Figures, Timer, Values};
use bench_world::World;
use script_lang::Words;
use script_report::label;
use std::alloc::{AllocError, Global};
use std::mem;
use svs_vector::Vector;

// Appends a note of each member of which the last note says something else.
pub(crate) fn note_members(
    alloc: Global,
    last: &mut Vec<Values>,
    words: &Words,
    world: &World,
    text: &mut Vec<u8>,
) -> Result<(), AllocError>
    ensures kept { OnOk result (last.new.items ≡ members_values (world_of world.now)) }
    ensures text { OnOk result (text.new.items ≡ text.old.items
        ++ member_notes words.now (changes last.old.items (members_values (world_of world.now)))) }
{
    let mut noted = mem::replace(last, Vec::new(alloc)).into_iter();
    world.cite_soundness();
    for m in 0..world.group().roster().len() as u32 {
        let member = note_member(alloc, noted.next(), words, world, m, text)?;
        last.push(member)?;
    }
    Ok(())
}

// Appends a note of each mirror of which the last note says something else.
pub(crate) fn note_mirrors(
    alloc: Global,
    last: &mut Vec<Values>,
    words: &Words,
    world: &World,
    text: &mut Vec<u8>,
) -> Result<(), AllocError>
    ensures kept { OnOk result (last.new.items
        ≡ mirrors_values (map mirror_as world.now.mirrors) (world_of world.now)) }
    ensures text { OnOk result (text.new.items ≡ text.old.items ++ mirror_notes words.now
        (changes last.old.items (mirrors_values (map mirror_as world.now.mirrors) (world_of world.now)))) }
{
    let mut noted = mem::replace(last, Vec::new(alloc)).into_iter();
    for i in 0..world.mirrors() as u32 {
        let mirror = note_mirror(alloc, noted.next(), words, world, i, text)?;
        last.push(mirror)?;
    }
    Ok(())
}

// Appends a note of the member `m`, unless the last note says the same, and returns what the member is now.
fn note_member(
    alloc: Global,
    last: Option<Values>,
    words: &Words,
    world: &World,
    m: u32,
    text: &mut Vec<u8>,
) -> Result<Values, AllocError>
    requires there { m < length world.now.members }
    ensures kept { IfOk result (λ now. now ≡ member_values (world_of world.now) m) }
    ensures text { OnOk result (text.new.items ≡ text.old.items ++ change_text (member_labels words.now)
        (label_at (member_labels words.now) m) (changed last (member_values (world_of world.now) m))) }
{
    let known = world.member(m).vector();
    let figures = member_figures(world, m);
    note_values(
        alloc,
        last,
        words,
        member_label(words, m),
        known,
        figures,
        text,
    )
}

// Appends a note of the mirror `i`, unless the last note says the same, and returns what the mirror is now.
fn note_mirror(
    alloc: Global,
    last: Option<Values>,
    words: &Words,
    world: &World,
    i: u32,
    text: &mut Vec<u8>,
) -> Result<Values, AllocError>
    requires there { i < length world.now.mirrors }
    ensures kept { IfOk result (λ now. now
        ≡ mirror_values (world_of world.now) (map mirror_as world.now.mirrors) i) }
    ensures text { OnOk result (text.new.items ≡ text.old.items ++ change_text (member_labels words.now)
        (label_at words.now.mirrors i)
        (changed last (mirror_values (world_of world.now) (map mirror_as world.now.mirrors) i))) }
{
    let known = world.mirror(i).vector();
    let figures = mirror_figures(world, i);
    note_values(
        alloc,
        last,
        words,
        label(words.mirrors(), i),
        known,
        figures,
        text,
    )
}

fn note_values(
    alloc: Global,
    last: Option<Values>,
    words: &Words,
    label: &str,
    known: &Vector,
    figures: Figures,
    text: &mut Vec<u8>,
) -> Result<Values, AllocError>
    ensures kept { IfOk result (λ now. now ≡ values_of known.now figures) }
    ensures text { OnOk result (text.new.items ≡ text.old.items ++ change_text (member_labels words.now) label.now
        (changed last (values_of known.now figures))) }
{
    match last {
        Some(last) if last.are(known, figures) => Ok(last),
        _ => note_new(alloc, words, label, known, figures, text),
    }
}

fn note_new(
    alloc: Global,
    words: &Words,
    label: &str,
    known: &Vector,
    figures: Figures,
    text: &mut Vec<u8>,
) -> Result<Values, AllocError>
    ensures kept { IfOk result (λ now. now ≡ values_of known.now figures) }
    ensures text { OnOk result (text.new.items ≡ text.old.items
        ++ note_text (member_labels words.now) label.now (values_of known.now figures)) }
{
    put_note(text, words, label, known, figures)?;
    Ok(Values {
        known: known.copy(alloc)?,
        figures,
    })
}

// The label of the member `m`, or `?` where there is no such member.
fn member_label(words: &Words, m: u32) -> &str
    ensures { result.now ≡ label_at (member_labels words.now) m }
{
    if (m as usize) < words.members() {
        words.label(m)
    } else {
        "?"
    }
}

fn member_figures(world: &World, m: u32) -> Figures
    requires there { m < length world.now.members }
    ensures { result ≡ member_figures (world_of world.now) m }
{
    let member = world.member(m);
    world.cite_soundness();
    Figures {
        timer: Some(Timer {
            mode: member.mode(),
            deadline: member.deadline(),
        }),
        counts: Counts {
            holds: member.held_count(),
            wants: member.wanted_count(),
            lists: member.listed_count() as u64,
        },
    }
}

fn mirror_figures(world: &World, i: u32) -> Figures
    requires there { i < length world.now.mirrors }
    ensures { result ≡ mirror_figures (world_of world.now) (mirror_of (map mirror_as world.now.mirrors) i) }
{
    let mirror = world.mirror(i);
    world.cite_soundness();
    Figures {
        timer: None,
        counts: Counts {
            holds: mirror.held_count(),
            wants: mirror.wanted_count(),
            lists: mirror.listed_count() as u64,
        },
    }
}

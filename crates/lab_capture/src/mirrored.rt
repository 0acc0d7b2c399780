// The packets that mirrors gained.
ghost use Rattle.std.specs.Prelude.{◌≡◌, ◌<◌, ◌++◌, length, map, IfOk, IfSome, OnOk};
ghost use Rattle.std.specs.Option.{option_map};
ghost use Rattle.std.specs.List.{flat_map};
ghost use Rattle.sorted_lists.specs.Range.{numbers_from};
ghost use Rattle.script_lang.specs.Forms.{stated};
ghost use Rattle.script_story.specs.Mirrors.{mirror_as, mirror_of};
ghost use Rattle.bench_world.specs.Worlds.{world_of};
ghost use Rattle.lab_capture.specs.Capturings.{holder_of};
ghost use Rattle.lab_capture.specs.Frames.{frames_text, mirror_if, mirror_in, mirror_packet, mirror_part, mirror_parts};
ghost use Rattle.lab_capture.specs.Frames.{mirrors_before, mirrors_of, stored_by};

use crate::frames::mirror_at;
use crate::gains::put_gained_if;
use crate::held::{HeldParts, Holding, next_held};
use crate::known::mirror_named;
use bench_world::World;
use repo_plan::Part;
use script_lang::{Line, Words};
use std::alloc::{AllocError, Global};

// The mirrors that ask for parts in a line, with the parts whose packets they store before it.
pub(crate) fn mirrors_before(
    alloc: Global,
    words: &Words,
    world: &World,
    line: &Option<Line>,
) -> Result<Vec<Holding>, AllocError>
    ensures { IfOk result (λ holders. map holder_of holders.items ≡ mirrors_before words.now (world_of world.now)
        (map mirror_as world.now.mirrors) (option_map stated line.now)) }
{
    match line {
        Some(line) => mirrors_of(alloc, words, world, line),
        None => Ok(Vec::new(alloc)),
    }
}

fn mirrors_of(
    alloc: Global,
    words: &Words,
    world: &World,
    line: &Line,
) -> Result<Vec<Holding>, AllocError>
    ensures { IfOk result (λ holders. map holder_of holders.items ≡ mirrors_of words.now (world_of world.now)
        (map mirror_as world.now.mirrors) (stated line.now).verb (stated line.now).values) }
{
    match line {
        Line::Settle { .. } => all_mirrors(alloc, world),
        Line::Mfetch { l, .. } => mirror_if(alloc, world, mirror_named(words, world, l)),
        _ => Ok(Vec::new(alloc)),
    }
}

// A mirror with the parts whose packets it stores, if a mirror is given.
fn mirror_if(alloc: Global, world: &World, mirror: Option<u32>) -> Result<Vec<Holding>, AllocError>
    requires { IfSome mirror (λ i. i < length world.now.mirrors) }
    ensures { IfOk result (λ holders. map holder_of holders.items
        ≡ mirror_if (world_of world.now) (map mirror_as world.now.mirrors) mirror) }
{
    let mut holders = Vec::new(alloc);
    match mirror {
        Some(i) => {
            holders.push(mirror_in(alloc, world, i)?)?;
            Ok(holders)
        }
        None => Ok(holders),
    }
}

// All mirrors with the parts whose packets they store.
fn all_mirrors(alloc: Global, world: &World) -> Result<Vec<Holding>, AllocError>
    ensures { IfOk result (λ holders. map holder_of holders.items
        ≡ map (mirror_in (world_of world.now) (map mirror_as world.now.mirrors))
        (numbers_from 0 (length world.now.mirrors))) }
{
    let mut holders = Vec::new(alloc);
    for mirror in 0..world.mirrors() as u32 {
        holders.push(mirror_in(alloc, world, mirror)?)?;
    }
    Ok(holders)
}

// A mirror with the parts whose packets it stores.
fn mirror_in(alloc: Global, world: &World, mirror: u32) -> Result<Holding, AllocError>
    requires { mirror < length world.now.mirrors }
    ensures { IfOk result (λ holder. holder_of holder
        ≡ mirror_in (world_of world.now) (map mirror_as world.now.mirrors) mirror) }
{
    world.cite_soundness();
    let held = HeldParts::of(alloc, world.mirror(mirror))?;
    Ok(Holding {
        member: mirror,
        held,
    })
}

// Appends the frames of the parts whose packets mirrors store and didn't store before, in order.
pub(crate) fn put_new_stored(
    out: &mut Vec<u8>,
    world: &World,
    mirrors: &[Holding],
) -> Result<(), AllocError>
    ensures { OnOk result (out.new.items ≡ out.old.items
        ++ frames_text (flat_map (mirror_parts world.now.keys (world_of world.now) (map mirror_as world.now.mirrors))
        (map holder_of mirrors.now))) }
{
    for mirror in mirrors {
        put_mirror(out, world, mirror)?;
    }
    Ok(())
}

// Appends the frames of the parts whose packets one mirror stores and didn't store before, if there is such a mirror.
fn put_mirror(out: &mut Vec<u8>, world: &World, mirror: &Holding) -> Result<(), AllocError>
    ensures { OnOk result (out.new.items ≡ out.old.items
        ++ frames_text (mirror_parts world.now.keys (world_of world.now) (map mirror_as world.now.mirrors)
        (holder_of mirror.now))) }
{
    if (mirror.member as usize) < world.mirrors() {
        put_all_stored(out, world, mirror.member, &mirror.held)
    } else {
        Ok(())
    }
}

// Appends the frames of the parts whose packets a mirror stores and that aren't in `held`.
fn put_all_stored(
    out: &mut Vec<u8>,
    world: &World,
    i: u32,
    held: &HeldParts,
) -> Result<(), AllocError>
    requires { i < length world.now.mirrors }
    ensures { OnOk result (out.new.items ≡ out.old.items
        ++ frames_text (flat_map (mirror_part world.now.keys (world_of world.now)
        (mirror_of (map mirror_as world.now.mirrors) i) i held.now)
        (stored_by (world_of world.now) (mirror_of (map mirror_as world.now.mirrors) i)))) }
{
    world.cite_soundness();
    let mut last = None;
    while let Some(part) = next_held(world.mirror(i), last) {
        put_stored(out, world, i, held, part)?;
        last = Some(part);
    }
    Ok(())
}

// Appends the frames of a part whose packet a mirror stores, if the part isn't in `held`.
fn put_stored(
    out: &mut Vec<u8>,
    world: &World,
    i: u32,
    held: &HeldParts,
    part: Part,
) -> Result<(), AllocError>
    requires { i < length world.now.mirrors }
    ensures { OnOk result (out.new.items ≡ out.old.items
        ++ frames_text (mirror_part world.now.keys (world_of world.now)
        (mirror_of (map mirror_as world.now.mirrors) i) i held.now part)) }
{
    if held.has(part) {
        return Ok(());
    }
    match mirror_packet(world, i, part) {
        Some(packet) => put_gained_if(out, world, mirror_at(world, i), part, packet),
        None => Ok(()),
    }
}

// The packet of a part, if the mirror `i` stores it.
fn mirror_packet(world: &World, i: u32, part: Part) -> Option<&[u8]>
    requires { i < length world.now.mirrors }
    ensures { option_map (λ p. p.now) result ≡ mirror_packet world.now.keys (world_of world.now)
        (mirror_of (map mirror_as world.now.mirrors) i) part }
{
    world.cite_soundness();
    world.mirror(i).packet(part)
}

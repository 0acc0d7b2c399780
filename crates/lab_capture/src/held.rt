// The parts that a member holds.
ghost use Rattle.std.specs.Prelude.{◌≡◌, ◌<◌, List, length, map, IfOk, IfSome};
ghost use Rattle.std.specs.Option.{option_map};
ghost use Rattle.script_lang.specs.Forms.{stated};
ghost use Rattle.sorted_lists.specs.Range.{numbers_from};
ghost use Rattle.bench_world.specs.Worlds.{world_of};
ghost use Rattle.lab_capture.specs.Capturings.{holder_of};
ghost use Rattle.lab_capture.specs.Frames.{holder_in, holders_before};
ghost use Rattle.std.specs.List.{filter};
ghost use Rattle.sorted_lists.specs.SortedList.{contains};
ghost use Rattle.repo_plan.specs.declared.part.Part.{Part};
ghost use Rattle.repo_plan.specs.Parts.{part_cmp};
ghost use Rattle.repo_plan.specs.Leaps.{is_from};
ghost use Rattle.repo_plan.specs.Plan.{first, is_after};
ghost use Rattle.lab_capture.specs.Held.{AreHeld};

use bench_world::World;
use repo_plan::{HasParts, Part};
use script_lang::Line;
use std::alloc::{AllocError, Global};
use std::marker::Model;

// Parts in order, each once.
#[derive(Drop)]
pub(crate) struct HeldParts {
    parts: Vec<Part>,
}

impl Model for HeldParts {
    ghost use Rattle.std.specs.Prelude.{List};
    ghost use Rattle.sorted_lists.specs.SortedList.{Rises};
    ghost use Rattle.repo_plan.specs.declared.part.Part.{Part};
    ghost use Rattle.repo_plan.specs.Parts.{part_cmp};

    ghost Value = { List Part };

    ghost view = { λ h. h.parts.items };

    ghost invariant = { λ h. Rises part_cmp h.parts.items };
}

impl HeldParts {
    // All parts that `holder` holds.
    pub(crate) fn of<H: HasParts>(alloc: Global, holder: &H) -> Result<HeldParts, AllocError>
        ghost held: { List Part }
        requires { AreHeld (H.has holder.now) held }
        ensures { IfOk result (λ parts. parts ≡ held) }
    {
        let mut parts = Vec::new(alloc);
        let mut last = None;
        while let Some(part) = next_held(holder, last) {
            parts.push(part)?;
            last = Some(part);
        }
        Ok(HeldParts { parts })
    }

    // Whether the part is one of the parts that are held.
    pub(crate) fn has(&self, part: Part) -> bool
        ensures { result ≡ contains part_cmp self.now part }
    {
        self.parts.binary_search(&part).is_ok()
    }
}

// The least part that is held and greater than `after`.
pub(crate) fn next_held<H: HasParts>(holder: &H, after: Option<Part>) -> Option<Part>
    ghost held: { List Part }
    requires held { AreHeld (H.has holder.now) held }
    requires after { IfSome after (λ t. t.part < 65535) }
    ensures { result ≡ first (filter (is_after after) held) }
{
    holder.least_from(following(after))
}

// The least part after `after`, or the least of all where none is given.
fn following(after: Option<Part>) -> Part
    requires { IfSome after (λ t. t.part < 65535) }
    ensures { (t : Part) → is_from result t ≡ is_after after t }
{
    match after {
        None => Part {
            publisher: 0,
            seq: 0,
            part: 0,
        },
        Some(last) => Part {
            part: last.part + 1,
            ..last
        },
    }
}

// A member, and the parts that it holds.
#[derive(Drop)]
pub(crate) struct Holding {
    pub member: u32,
    pub held: HeldParts,
}

// The members that gain parts in a line, with what they hold before it: all members where the group settles, else none.
pub(crate) fn holders_before(
    alloc: Global,
    world: &World,
    line: &Option<Line>,
) -> Result<Vec<Holding>, AllocError>
    ensures { IfOk result (λ holders. map holder_of holders.items
        ≡ holders_before (world_of world.now) (option_map stated line.now)) }
{
    match line {
        Some(Line::Settle { .. }) => all_holders(alloc, world),
        _ => Ok(Vec::new(alloc)),
    }
}

// All members with what they hold.
fn all_holders(alloc: Global, world: &World) -> Result<Vec<Holding>, AllocError>
    ensures { IfOk result (λ holders. map holder_of holders.items
        ≡ map (holder_in (world_of world.now)) (numbers_from 0 (length world.now.members))) }
{
    world.cite_soundness();
    let mut holders = Vec::new(alloc);
    for member in 0..world.members() as u32 {
        holders.push(holder_in(alloc, world, member)?)?;
    }
    Ok(holders)
}

// A member with what it holds.
fn holder_in(alloc: Global, world: &World, member: u32) -> Result<Holding, AllocError>
    requires { member < length world.now.members }
    ensures { IfOk result (λ holder. holder_of holder ≡ holder_in (world_of world.now) member) }
{
    world.cite_soundness();
    let held = HeldParts::of(alloc, world.member(member))?;
    Ok(Holding { member, held })
}

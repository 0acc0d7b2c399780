// The packets that members gained in a settle.
ghost use Rattle.std.specs.Prelude.{◌≡◌, ◌<◌, ◌++◌, length, map, OnOk, Some};
ghost use Rattle.std.specs.List.{flat_map};
ghost use Rattle.bench_world.specs.Worlds.{world_of};
ghost use Rattle.group_model.specs.World.{member};
ghost use Rattle.lab_capture.specs.declared.station.Station.TheVariants.{AllMembers};
ghost use Rattle.lab_capture.specs.Captures.{IsStation};
ghost use Rattle.lab_capture.specs.Capturings.{holder_of};
ghost use Rattle.lab_capture.specs.Frames.{frames_text, gained, gained_if, interest_for, new_part, new_parts, sent_if};

use crate::asking::interest_for;
use crate::frames::{is_member, member_at, packet_of, put_sent};
use crate::held::{HeldParts, Holding, next_held};
use crate::station::Station;
use bench_world::World;
use repo_plan::Part;
use std::alloc::AllocError;

// Appends the frames of the parts that members hold and didn't hold before, in order.
pub(crate) fn put_new_parts(
    out: &mut Vec<u8>,
    world: &World,
    holders: &[Holding],
) -> Result<(), AllocError>
    ensures { OnOk result (out.new.items ≡ out.old.items
        ++ frames_text (flat_map (new_parts world.now.keys (world_of world.now)) (map holder_of holders.now))) }
{
    for holder in holders {
        put_holder(out, world, holder)?;
    }
    Ok(())
}

// Appends the frames of the parts that one member holds and didn't hold before, if there is such a member.
fn put_holder(out: &mut Vec<u8>, world: &World, holder: &Holding) -> Result<(), AllocError>
    ensures { OnOk result (out.new.items ≡ out.old.items
        ++ frames_text (new_parts world.now.keys (world_of world.now) (holder_of holder.now))) }
{
    if is_member(world, holder.member) {
        put_all_new(out, world, holder.member, &holder.held)
    } else {
        Ok(())
    }
}

// Appends the frames of the parts that a member holds and that aren't in `held`.
fn put_all_new(out: &mut Vec<u8>, world: &World, m: u32, held: &HeldParts) -> Result<(), AllocError>
    requires { m < length world.now.members }
    ensures { OnOk result (out.new.items ≡ out.old.items
        ++ frames_text (flat_map (new_part world.now.keys (world_of world.now) m held.now)
        (member (world_of world.now) m).held)) }
{
    world.cite_soundness();
    let mut last = None;
    while let Some(part) = next_held(world.member(m), last) {
        put_new_part(out, world, m, held, part)?;
        last = Some(part);
    }
    Ok(())
}

// Appends the frames of a part that a member holds, if it isn't in `held`.
fn put_new_part(
    out: &mut Vec<u8>,
    world: &World,
    m: u32,
    held: &HeldParts,
    part: Part,
) -> Result<(), AllocError>
    requires { m < length world.now.members }
    ensures { OnOk result (out.new.items ≡ out.old.items
        ++ frames_text (new_part world.now.keys (world_of world.now) m held.now part)) }
{
    if held.has(part) {
        return Ok(());
    }
    match packet_of(world, m, part) {
        Some(packet) => put_gained_if(out, world, member_at(world, m), part, packet),
        None => Ok(()),
    }
}

// Appends the frames of a packet that the station `who` gained, if its publisher is a member.
pub(crate) fn put_gained_if(
    out: &mut Vec<u8>,
    world: &World,
    who: Station,
    part: Part,
    packet: &[u8],
) -> Result<(), AllocError>
    requires { IsStation who }
    ensures { OnOk result (out.new.items ≡ out.old.items
        ++ frames_text (gained_if (world_of world.now) who part (Some packet.now))) }
{
    if is_member(world, part.publisher) {
        put_gained(out, world, who, part, packet)
    } else {
        Ok(())
    }
}

// Appends the frames of a packet that the station `who` gained: the Interest for it to all members, if it can be asked
// for, and the packet from the publisher.
fn put_gained(
    out: &mut Vec<u8>,
    world: &World,
    who: Station,
    part: Part,
    packet: &[u8],
) -> Result<(), AllocError>
    requires who { IsStation who }
    requires publisher { part.publisher < length world.now.members }
    ensures { OnOk result (out.new.items ≡ out.old.items
        ++ frames_text (gained (world_of world.now) who part packet.now)) }
{
    put_asking(out, world, who, part, packet)?;
    put_sent(out, world, member_at(world, part.publisher), who, packet)
}

// Appends the frame of the Interest that asks all members for a part, if it can be asked for.
fn put_asking(
    out: &mut Vec<u8>,
    world: &World,
    who: Station,
    part: Part,
    packet: &[u8],
) -> Result<(), AllocError>
    requires { IsStation who }
    ensures { OnOk result (out.new.items ≡ out.old.items
        ++ frames_text (sent_if (world_of world.now) who AllMembers (interest_for part packet.now))) }
{
    let alloc = *out.allocator();
    match interest_for(alloc, part, packet)? {
        Some(interest) => put_sent(out, world, who, Station::AllMembers, &interest),
        None => Ok(()),
    }
}

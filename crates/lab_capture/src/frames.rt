// The frames of a line.
ghost use Rattle.std.specs.Prelude.{◌≡◌, ◌<◌, ◌++◌, [], ◌∷◌, length, map, nat_lt, Some, IfSome, OnOk};
ghost use Rattle.std.specs.List.{flat_map};
ghost use Rattle.std.specs.Option.{option_map};
ghost use Rattle.script_lang.specs.Forms.{stated};
ghost use Rattle.bench_world.specs.Showing.{sender_at};
ghost use Rattle.bench_world.specs.Worlds.{world_of};
ghost use Rattle.lab_capture.specs.declared.station.Station.TheVariants.{AllMembers, Member, Mirror};
ghost use Rattle.lab_capture.specs.Captures.{IsStation};
ghost use Rattle.lab_capture.specs.Frames.{asked, brought, came, came_if, claim_frames, fetch_frames, frames_text};
ghost use Rattle.script_story.specs.Mirrors.{mirror_as};
ghost use Rattle.lab_capture.specs.Frames.{gains, mirror_parts, new_syncs, packet_of, said, said_of, sent_if, sent_now};
ghost use Rattle.lab_capture.specs.Frames.{served_by};
ghost use Rattle.lab_capture.specs.Frames.{sync_to, sync_to_some, want_frames};
ghost use Rattle.lab_capture.specs.Capturings.{asked_by, claimed, fetched, known_as};

use crate::frame::Frame;
use crate::gains::put_new_parts;
use crate::known::{Claim, Fetch, KnownBefore, member_named, mirror_named};
use crate::mirrored::put_new_stored;
use crate::station::Station;
use crate::writing::{FRAME_HEAD_LEN, SNAP_LEN, put_frame};
use bench_world::World;
use repo_object::Job;
use repo_plan::Part;
use script_lang::{Line, Words};
use std::alloc::AllocError;

// Appends the frame of a packet that is sent at the time of the world.
pub(crate) fn put_sent(
    out: &mut Vec<u8>,
    world: &World,
    source: Station,
    destination: Station,
    packet: &[u8],
) -> Result<(), AllocError>
    requires source { IsStation source }
    requires destination { IsStation destination }
    ensures { OnOk result (out.new.items ≡ out.old.items
        ++ frames_text (sent_now (world_of world.now) source destination packet.now ∷ [])) }
{
    if packet.len() > (SNAP_LEN - FRAME_HEAD_LEN) as usize {
        return Ok(());
    }
    put_frame(out, &Frame::at(world.now(), source, destination, packet))
}

// Appends the frame of a packet that is sent at the time of the world, if there is a packet.
pub(crate) fn put_if(
    out: &mut Vec<u8>,
    world: &World,
    source: Station,
    destination: Station,
    packet: Option<&[u8]>,
) -> Result<(), AllocError>
    requires source { IsStation source }
    requires destination { IsStation destination }
    ensures { OnOk result (out.new.items ≡ out.old.items
        ++ frames_text (sent_if (world_of world.now) source destination (option_map (λ p. p.now) packet.entry))) }
{
    match packet {
        Some(packet) => put_sent(out, world, source, destination, packet),
        None => Ok(()),
    }
}

// The station of a member.
pub(crate) fn member_at(world: &World, m: u32) -> Station
    requires { m < length world.now.members }
    ensures member { result ≡ Member m }
    ensures station { IsStation result }
{
    world.cite_soundness();
    world.group().cite_soundness();
    Station::Member(m as u8)
}

// The station of a mirror.
pub(crate) fn mirror_at(world: &World, i: u32) -> Station
    requires { i < length world.now.mirrors }
    ensures mirror { result ≡ Mirror i }
    ensures station { IsStation result }
{
    world.cite_soundness();
    Station::Mirror(i as u8)
}

// Appends the frame of sync Interest `k` to the station `to`, if it was sent.
fn put_sync(out: &mut Vec<u8>, world: &World, to: Station, k: u32) -> Result<(), AllocError>
    requires { IsStation to }
    ensures { OnOk result (out.new.items ≡ out.old.items
        ++ frames_text (sync_to world.now.keys (world_of world.now) to k)) }
{
    match sender_at(world, k) {
        Some(sender) => put_if(out, world, sender, to, world.sync_octets(k)),
        None => Ok(()),
    }
}

// The station of the member that sent the sync Interest of a number.
fn sender_at(world: &World, k: u32) -> Option<Station>
    ensures sender { result ≡ option_map (λ m. Member m) (sender_at (world_of world.now) k) }
    ensures station { IfSome result IsStation }
{
    world.cite_soundness();
    match world.sender(k) {
        Some(m) => Some(Station::Member(m as u8)),
        None => None,
    }
}

// Appends the frames of the sync Interests that were sent after the first `sent` ones, each to all members.
fn put_new_syncs(out: &mut Vec<u8>, world: &World, sent: u32) -> Result<(), AllocError>
    ensures { OnOk result (out.new.items ≡ out.old.items
        ++ frames_text (new_syncs world.now.keys (world_of world.now) sent)) }
{
    world.cite_soundness();
    let last = world.tally().syncs as u32;
    for i in 0..last.saturating_sub(sent) {
        put_sync(out, world, Station::AllMembers, sent + 1 + i)?;
    }
    Ok(())
}

// Appends the frames of a claim: the Interest to the member that is asked, and the packet back, if the asker holds the
// part now.
fn put_claim(out: &mut Vec<u8>, world: &World, claim: &Option<Claim>) -> Result<(), AllocError>
    ensures { OnOk result (out.new.items ≡ out.old.items
        ++ frames_text (claim_frames world.now.keys (world_of world.now) (option_map claimed claim.now))) }
{
    match claim {
        Some(claim) if is_member(world, claim.asker) && is_member(world, claim.asked) => {
            put_want(out, world, claim)
        }
        _ => Ok(()),
    }
}

fn put_want(out: &mut Vec<u8>, world: &World, claim: &Claim) -> Result<(), AllocError>
    requires asker { claim.now.asker < length world.now.members }
    requires asked { claim.now.asked < length world.now.members }
    ensures { OnOk result (out.new.items ≡ out.old.items
        ++ frames_text (want_frames world.now.keys (world_of world.now) (claimed claim.now))) }
{
    let asker = member_at(world, claim.asker);
    let asked = member_at(world, claim.asked);
    put_sent(out, world, asker, asked, &claim.interest)?;
    put_if(
        out,
        world,
        asked,
        asker,
        packet_of(world, claim.asker, claim.part),
    )
}

// The packet of a part that the member holds.
pub(crate) fn packet_of(world: &World, m: u32, part: Part) -> Option<&[u8]>
    requires { m < length world.now.members }
    ensures { option_map (λ p. p.now) result
        ≡ packet_of world.now.keys (world_of world.now) m part }
{
    world.cite_soundness();
    world.member(m).packet(part)
}

// Whether there is a member of this number.
pub(crate) fn is_member(world: &World, m: u32) -> bool
    ensures { result ≡ nat_lt m (length world.now.members) }
{
    (m as usize) < world.members()
}

// Appends the frame of sync Interest `k` to a member, if a member is given.
fn put_delivered(out: &mut Vec<u8>, world: &World, k: u32, m: Option<u32>) -> Result<(), AllocError>
    requires { IfSome m (λ m. m < length world.now.members) }
    ensures { OnOk result (out.new.items ≡ out.old.items
        ++ frames_text (sync_to_some world.now.keys (world_of world.now) k (λ i. Member i) m)) }
{
    match m {
        Some(m) => put_sync(out, world, member_at(world, m), k),
        None => Ok(()),
    }
}

// Appends the frame of sync Interest `k` to a mirror, if a mirror is given.
fn put_mirrored(out: &mut Vec<u8>, world: &World, k: u32, i: Option<u32>) -> Result<(), AllocError>
    requires { IfSome i (λ i. i < length world.now.mirrors) }
    ensures { OnOk result (out.new.items ≡ out.old.items
        ++ frames_text (sync_to_some world.now.keys (world_of world.now) k (λ i. Mirror i) i)) }
{
    match i {
        Some(i) => put_sync(out, world, mirror_at(world, i), k),
        None => Ok(()),
    }
}

// Appends the frame of octets from outside to a member, if a member is given.
fn put_brought(
    out: &mut Vec<u8>,
    world: &World,
    octets: &[u8],
    m: Option<u32>,
) -> Result<(), AllocError>
    requires { IfSome m (λ m. m < length world.now.members) }
    ensures { OnOk result (out.new.items ≡ out.old.items
        ++ frames_text (brought (world_of world.now) octets.now m)) }
{
    match m {
        Some(m) => put_sent(out, world, Station::Outside, member_at(world, m), octets),
        None => Ok(()),
    }
}

// Appends the frames of octets from outside that ask a member for something: the octets, and the packet that the member
// serves.
fn put_asked(
    out: &mut Vec<u8>,
    world: &World,
    octets: &[u8],
    m: Option<u32>,
) -> Result<(), AllocError>
    requires { IfSome m (λ m. m < length world.now.members) }
    ensures { OnOk result (out.new.items ≡ out.old.items
        ++ frames_text (asked world.now.keys (world_of world.now) octets.now m)) }
{
    let Some(m) = m else {
        return Ok(());
    };
    let member = member_at(world, m);
    put_sent(out, world, Station::Outside, member, octets)?;
    put_if(
        out,
        world,
        member,
        Station::Outside,
        served_by(world, m, octets),
    )
}

// The packet that a member serves where octets ask for it, of the packets of the parts that it holds.
fn served_by<'w>(world: &'w World, m: u32, octets: &[u8]) -> Option<&'w [u8]>
    requires { m < length world.now.members }
    ensures { option_map (λ p. p.now) result
        ≡ served_by world.now.keys (world_of world.now) m octets.now }
{
    world.cite_soundness();
    match world.member(m).serve(octets) {
        Ok(packet) => packet,
        Err(_) => None,
    }
}

// Appends the frames of a `deliver`, `mdeliver`, `hear`, `feed` or `ask` line.
fn put_said(
    out: &mut Vec<u8>,
    words: &Words,
    world: &World,
    line: Option<Line>,
) -> Result<(), AllocError>
    ensures { OnOk result (out.new.items ≡ out.old.items
        ++ frames_text (said words.now world.now.keys (world_of world.now) (length world.now.mirrors)
        (option_map stated line))) }
{
    match line {
        Some(line) => put_said_of(out, words, world, line),
        None => Ok(()),
    }
}

fn put_said_of(
    out: &mut Vec<u8>,
    words: &Words,
    world: &World,
    line: Line,
) -> Result<(), AllocError>
    ensures { OnOk result (out.new.items ≡ out.old.items
        ++ frames_text (said_of words.now world.now.keys (world_of world.now) (length world.now.mirrors)
        (stated line).verb (stated line).values)) }
{
    match line {
        Line::Deliver { k, m } => put_delivered(out, world, k, member_named(words, world, &m)),
        Line::Mdeliver { k, l } => put_mirrored(out, world, k, mirror_named(words, world, &l)),
        Line::Hear { m, octets } => {
            put_brought(out, world, &octets, member_named(words, world, &m))
        }
        Line::Feed { m, f: _, octets } => {
            put_brought(out, world, &octets, member_named(words, world, &m))
        }
        Line::Ask { m, octets } => {
            put_asked(out, world, &octets, member_named(words, world, &m))
        }
        _ => Ok(()),
    }
}

// Appends the frames of a line, where `known` was known before it.
pub(crate) fn put_frames(
    out: &mut Vec<u8>,
    words: &Words,
    world: &World,
    line: Option<Line>,
    known: &KnownBefore,
) -> Result<(), AllocError>
    ensures { OnOk result (out.new.items ≡ out.old.items
        ++ (frames_text (said words.now world.now.keys (world_of world.now) (length world.now.mirrors)
        (option_map stated line))
        ++ (frames_text (new_syncs world.now.keys (world_of world.now) known.now.sent)
        ++ (frames_text (gains world.now.keys (world_of world.now) (known_as known.now))
        ++ frames_text (flat_map (mirror_parts world.now.keys (world_of world.now)
        (map mirror_as world.now.mirrors)) (known_as known.now).mirrors))))) }
{
    put_said(out, words, world, line)?;
    put_new_syncs(out, world, known.sent)?;
    put_gains(out, world, known)?;
    put_new_stored(out, world, &known.mirrors)
}

// Appends the frames of a claim, of a fetch and of a settle.
fn put_gains(out: &mut Vec<u8>, world: &World, known: &KnownBefore) -> Result<(), AllocError>
    ensures { OnOk result (out.new.items ≡ out.old.items
        ++ frames_text (gains world.now.keys (world_of world.now) (known_as known.now))) }
{
    put_claim(out, world, &known.claim)?;
    put_fetch(out, world, &known.fetch)?;
    put_new_parts(out, world, &known.holders)
}

// Appends the frames of a fetch, in order of the parts.
fn put_fetch(out: &mut Vec<u8>, world: &World, fetch: &Option<Fetch>) -> Result<(), AllocError>
    ensures { OnOk result (out.new.items ≡ out.old.items
        ++ frames_text (fetch_frames world.now.keys (world_of world.now) (option_map fetched fetch.now))) }
{
    match fetch {
        Some(fetch) if is_member(world, fetch.asker) => {
            put_all(out, world, fetch.asker, &fetch.jobs)
        }
        _ => Ok(()),
    }
}

fn put_all(out: &mut Vec<u8>, world: &World, m: u32, jobs: &[Job]) -> Result<(), AllocError>
    requires { m < length world.now.members }
    ensures { OnOk result (out.new.items ≡ out.old.items
        ++ frames_text (flat_map (came world.now.keys (world_of world.now) m) (map asked_by jobs.now))) }
{
    for job in jobs {
        put_came(out, world, m, job)?;
    }
    Ok(())
}

// Appends the frames of a part for which the member `m` asked all members; none where it doesn't hold the part now.
fn put_came(out: &mut Vec<u8>, world: &World, m: u32, job: &Job) -> Result<(), AllocError>
    requires { m < length world.now.members }
    ensures { OnOk result (out.new.items ≡ out.old.items
        ++ frames_text (came world.now.keys (world_of world.now) m (asked_by job.now))) }
{
    match packet_of(world, m, job.want.part()) {
        Some(packet) => put_packet(out, world, m, job, packet),
        None => Ok(()),
    }
}

// Appends the frames of a part for which the member `m` asked all members, with the packet that answered.
fn put_packet(
    out: &mut Vec<u8>,
    world: &World,
    m: u32,
    job: &Job,
    packet: &[u8],
) -> Result<(), AllocError>
    requires { m < length world.now.members }
    ensures { OnOk result (out.new.items ≡ out.old.items
        ++ frames_text (came_if (world_of world.now) m (asked_by job.now) (Some packet.now))) }
{
    let publisher = job.want.part().publisher;
    if is_member(world, publisher) {
        put_answered(out, world, m, job.want.interest(), publisher, packet)
    } else {
        Ok(())
    }
}

// Appends the frames of an Interest of the member `m` to all members, and of the packet from its publisher.
fn put_answered(
    out: &mut Vec<u8>,
    world: &World,
    m: u32,
    interest: &[u8],
    publisher: u32,
    packet: &[u8],
) -> Result<(), AllocError>
    requires member { m < length world.now.members }
    requires publisher { publisher < length world.now.members }
    ensures { OnOk result (out.new.items ≡ out.old.items
        ++ frames_text (sent_now (world_of world.now) (Member m) AllMembers interest.now
        ∷ sent_now (world_of world.now) (Member publisher) (Member m) packet.now ∷ [])) }
{
    let asker = member_at(world, m);
    put_sent(out, world, asker, Station::AllMembers, interest)?;
    put_sent(out, world, member_at(world, publisher), asker, packet)
}

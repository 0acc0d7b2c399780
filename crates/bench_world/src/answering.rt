// Packets that are received for what fetchers claim.
ghost use Rattle.std.specs.Prelude.{◌≡◌, ◌⊎◌, ◌↔◌, Ok, Err, Some, None, IfOk, IfErr, OnOk, OnErr};
ghost use Rattle.std.specs.Prelude.{unwrap_or, option_map, slice_set, []};
ghost use Rattle.std.specs.Str.{bytes_eq};
ghost use Rattle.repo_plan.specs.Plan.{claim_of};
ghost use Rattle.repo_store.specs.Served.{served};
ghost use Rattle.group_model.specs.Publications.{Logs};
ghost use Rattle.group_model.specs.Events.Response.{Another};
ghost use Rattle.repo_member.specs.MemberState.{member_plan};
ghost use Rattle.repo_member.specs.InGroup.{published_packet};
ghost use Rattle.repo_member.specs.ConsistentMembers.{published_want};
ghost use Rattle.bench_world.specs.Conditions.{CanCompare, CanWant, CanAccept, CanGetAt, CanAnswerAt};
ghost use Rattle.bench_world.specs.Worlds.{state_at};
ghost use Rattle.bench_world.specs.Serving.{octets_response, packet_response, found};
ghost use Rattle.bench_world.specs.Answering.{answered, claim_in, holder_response, outside_response, lender_of, fed_as};
ghost use Rattle.bench_world.specs.Answering.{kept_of};
ghost use Rattle.bench_world.specs.Answering.{accepts_claimed, after_claimed};

use crate::event::EventError;
use crate::others::{Others, put_back};
use repo_member::{Group, Member, WantFault};
use repo_object::{PartRefusal, Want, check_part};
use repo_plan::Part;
use std::alloc::{AllocError, Global};

/// The result of octets for a fetcher's part.
#[derive(Clone, Copy, Debug)]
pub(crate) enum Fed {
    Kept,
    Refused { refusal: PartRefusal },
}

// Whether octets are the packet of a part, by what its publisher stores, or else by its log.
fn is_its_packet(
    g: &Group,
    publisher: &Member,
    part: Part,
    octets: &[u8],
) -> Result<bool, AllocError>
    ghost logs: { Logs }
    requires { CanCompare g.now logs publisher.now part }
    ensures { IfOk result (λ same. same ≡ bytes_eq octets.now (unwrap_or (published_packet g.now logs part) [])) }
{
    if let Some(packet) = publisher.packet(part) {
        return Ok(octets == packet);
    }
    let Some(packet) = publisher.logged(g, part)? else {
        unreachable!()
    };
    Ok(octets == packet.as_slice())
}

// The want of what a fetcher claims.
fn want_for(alloc: Global, g: &Group, member: &Member, f: u8) -> Result<Want, EventError>
    ghost logs: { Logs }
    requires { CanWant g.now logs f member.now }
    ensures claim { IfOk result (λ want. claim_of (member_plan member.now) f ≡ Some want.part) }
    ensures want { IfOk result (λ want. want ≡ published_want g.now logs want.part) }
    ensures idle { (result ≡ Err EventError.FetcherIdle) ↔ (claim_of (member_plan member.now) f ≡ None) }
    ensures refused { IfErr result (λ fault. (fault ≡ EventError.NoMemory) ⊎ (fault ≡ EventError.FetcherIdle)) }
{
    match member.want(alloc, g, f) {
        Ok(want) => Ok(want),
        Err(WantFault::FetcherIdle) => Err(EventError::FetcherIdle),
        Err(WantFault::NoMemory) => Err(EventError::NoMemory),
    }
}

// The asker accepts octets for the part that its fetcher `f` claims, if they pass for it and are its publisher's
// packet. Octets that pass and aren't that packet are foreign.
fn accept(
    g: &Group,
    publisher: &Member,
    asker: &mut Member,
    f: u8,
    want: &Want,
    octets: &[u8],
) -> Result<Fed, EventError>
    ghost logs: { Logs }
    requires { CanAccept g.now logs f want.now publisher.now asker.old }
    ensures fed { IfOk result (λ fed. fed ≡ fed_as g.now logs octets.now want.now.part) }
    ensures asker { OnOk result (asker.new ≡ accepts_claimed g.now logs f want.now.part
        (octets_response g.now logs want.now.part octets.now) asker.old) }
    ensures kept { IfOk result (λ fed. answered g.now logs (Some want.now.part)
        (octets_response g.now logs want.now.part octets.now) ≡ Ok (kept_of octets.now fed)) }
    ensures foreign { IfErr result (λ fault. (fault ≡ EventError.NoMemory)
        ⊎ ((fault ≡ EventError.Foreign) × (octets_response g.now logs want.now.part octets.now ≡ Another))) }
    ensures err { OnErr result (asker.new ≡ asker.old) }
{
    let checked = match check_part(want, octets, g.members()) {
        Ok(checked) => checked,
        Err(refusal) => return Ok(Fed::Refused { refusal }),
    };
    if !is_its_packet(g, publisher, want.part(), octets)? {
        return Err(EventError::Foreign);
    }
    // The fetcher claims the part, so only memory can run out.
    match asker.accept_checked(g, f, &checked) {
        Ok(_) => Ok(Fed::Kept),
        Err(_) => Err(EventError::NoMemory),
    }
}

// The packet that a member serves to a want, if it serves one.
fn served_to<'a>(member: &'a Member, want: &Want) -> Option<&'a [u8]>
    ensures { option_map (λ octets. octets.now) result ≡ found (served want.now.interest member.now.store) }
{
    match member.serve(want.interest()) {
        Ok(packet) => packet,
        Err(_) => None,
    }
}

// The asker accepts the packet that was served, if one was: how many octets are kept, if they are.
fn accept_served(
    g: &Group,
    publisher: &Member,
    asker: &mut Member,
    f: u8,
    want: &Want,
    packet: Option<&[u8]>,
) -> Result<Option<u64>, EventError>
    ghost logs: { Logs }
    requires { CanAccept g.now logs f want.now publisher.now asker.old }
    ensures kept { IfOk result (λ kept. answered g.now logs (Some want.now.part)
        (packet_response g.now logs want.now.part (option_map (λ octets. octets.now) packet.entry)) ≡ Ok kept) }
    ensures asker { OnOk result (asker.new ≡ accepts_claimed g.now logs f want.now.part
        (packet_response g.now logs want.now.part (option_map (λ octets. octets.now) packet.entry)) asker.old) }
    ensures refused { IfErr result (λ fault. (fault ≡ EventError.NoMemory)
        ⊎ (answered g.now logs (Some want.now.part)
        (packet_response g.now logs want.now.part (option_map (λ octets. octets.now) packet.entry)) ≡ Err fault)) }
    ensures err { OnErr result (asker.new ≡ asker.old) }
{
    let Some(octets) = packet else {
        return Ok(None);
    };
    match accept(g, publisher, asker, f, want, octets) {
        Ok(Fed::Kept) => Ok(Some(octets.len() as u64)),
        Ok(Fed::Refused { .. }) => Ok(None),
        Err(fault) => Err(fault),
    }
}

// Another member answers, or the asker itself where there is no other: how many octets are kept, if the packet is.
fn answer_from(
    alloc: Global,
    g: &Group,
    publisher: &Member,
    lender: Option<&Member>,
    asker: &mut Member,
    f: u8,
    want: &Want,
) -> Result<Option<u64>, EventError>
    ghost logs: { Logs }
    requires { CanAccept g.now logs f want.now publisher.now asker.old }
    ensures kept { IfOk result
        (λ kept. answered g.now logs (Some want.now.part) (packet_response g.now logs want.now.part
        (found (served want.now.interest (lender_of asker.old (option_map (λ a. a.now) lender.entry)).store)))
        ≡ Ok kept) }
    ensures asker { OnOk result
        (asker.new ≡ accepts_claimed g.now logs f want.now.part (packet_response g.now logs want.now.part
        (found (served want.now.interest (lender_of asker.old (option_map (λ a. a.now) lender.entry)).store)))
        asker.old) }
    ensures refused { IfErr result (λ fault. (fault ≡ EventError.NoMemory)
        ⊎ (answered g.now logs (Some want.now.part) (packet_response g.now logs want.now.part
        (found (served want.now.interest (lender_of asker.old (option_map (λ a. a.now) lender.entry)).store)))
        ≡ Err fault)) }
    ensures err { OnErr result (asker.new ≡ asker.old) }
{
    if let Some(lender) = lender {
        return accept_served(g, publisher, asker, f, want, served_to(lender, want));
    }
    let Some(octets) = served_to(asker, want) else {
        return Ok(None);
    };
    // What a member lends itself is lent as a copy.
    let copy = octets.to_vec(alloc)?;
    accept_served(g, publisher, asker, f, want, Some(copy.as_slice()))
}

// Member `q` answers for the claim of the fetcher `f` of member `m`: how many octets are kept, if the packet is.
pub(crate) fn answer(
    alloc: Global,
    g: &Group,
    members: &mut Vec<Member>,
    m: u32,
    f: u8,
    q: u32,
) -> Result<Option<u64>, EventError>
    ghost logs: { Logs }
    requires { CanAnswerAt g.now logs f m q members.old.items }
    ensures kept { IfOk result (λ kept. answered g.now logs (claim_in members.old.items m f)
        (holder_response g.now logs members.old.items q (claim_in members.old.items m f)) ≡ Ok kept) }
    ensures members { OnOk result (members.new.items ≡ slice_set members.old.items m
        (after_claimed g.now logs f (claim_in members.old.items m f)
        (holder_response g.now logs members.old.items q (claim_in members.old.items m f))
        (state_at members.old.items m))) }
    ensures idle { (result ≡ Err EventError.FetcherIdle) ↔ (claim_in members.old.items m f ≡ None) }
    ensures refused { IfErr result (λ fault. (fault ≡ EventError.NoMemory)
        ⊎ (answered g.now logs (claim_in members.old.items m f)
        (holder_response g.now logs members.old.items q (claim_in members.old.items m f)) ≡ Err fault)) }
    ensures err { OnErr result (members.new.items ≡ members.old.items) }
{
    let want = want_for(alloc, g, &members[m as usize], f)?;
    let mut asker = members.remove(m as usize);
    let others = Others {
        members: members.as_slice(),
        without: m,
    };
    let publisher = others.publisher(want.part());
    let kept = answer_from(alloc, g, publisher, others.get(q), &mut asker, f, &want);
    put_back(members, m, asker);
    kept
}

// The fetcher `f` of member `m` accepts octets from outside, if they are the packet of the part that it claims.
pub(crate) fn feed(
    alloc: Global,
    g: &Group,
    members: &mut Vec<Member>,
    m: u32,
    f: u8,
    octets: &[u8],
) -> Result<Fed, EventError>
    ghost logs: { Logs }
    requires { CanGetAt g.now logs f m members.old.items }
    ensures fed { IfOk result
        (λ fed. option_map (fed_as g.now logs octets.now) (claim_in members.old.items m f) ≡ Some fed) }
    ensures kept { IfOk result (λ fed. answered g.now logs (claim_in members.old.items m f)
        (outside_response g.now logs octets.now (claim_in members.old.items m f)) ≡ Ok (kept_of octets.now fed)) }
    ensures members { OnOk result (members.new.items ≡ slice_set members.old.items m
        (after_claimed g.now logs f (claim_in members.old.items m f)
        (outside_response g.now logs octets.now (claim_in members.old.items m f)) (state_at members.old.items m))) }
    ensures idle { (result ≡ Err EventError.FetcherIdle) ↔ (claim_in members.old.items m f ≡ None) }
    ensures refused { IfErr result (λ fault. (fault ≡ EventError.NoMemory)
        ⊎ (answered g.now logs (claim_in members.old.items m f)
        (outside_response g.now logs octets.now (claim_in members.old.items m f)) ≡ Err fault)) }
    ensures err { OnErr result (members.new.items ≡ members.old.items) }
{
    let want = want_for(alloc, g, &members[m as usize], f)?;
    let mut asker = members.remove(m as usize);
    let others = Others {
        members: members.as_slice(),
        without: m,
    };
    let publisher = others.publisher(want.part());
    let fed = accept(g, publisher, &mut asker, f, &want, octets);
    put_back(members, m, asker);
    fed
}

//! What each call does to the member itself, without the journal.
ghost use Rattle.std.specs.Prelude.{◌≡◌, ◌<◌, ◌^◌, Ok, Some, length, IfOk, OnOk, OnErr};
ghost use Rattle.repo_object.specs.Objects.Post.{Offers};
ghost use Rattle.repo_plan.specs.Plan.{claim_of};
ghost use Rattle.repo_plan.specs.Calls.{IsFetcher};
ghost use Rattle.repo_member.specs.MemberState.{IsOfGroup, publication_limit, next_seq, member_plan, member_publishes};
ghost use Rattle.repo_member.specs.Verdicts.{sync_of, hear_verdict, accept_verdict};
ghost use Rattle.live_member.specs.Calls.{claim_change, claim_reply, lose_change, lose_reply, hear_change, hear_reply};
ghost use Rattle.live_member.specs.Calls.{is_claim, accept_change, accept_reply};

use crate::event::LiveReply;
use repo_member::{Group, HearRefusal, Member, Published};
use repo_object::Object;
use repo_plan::Part;
use std::alloc::AllocError;
use svs_sync::Mode;

pub fn published(
    member: &mut Member,
    g: &Group,
    object: &Object,
    draw: u32,
) -> Result<Published, AllocError>
    requires group { IsOfGroup g.now member.old }
    requires numbers { length member.old.log < publication_limit }
    requires draws { member.old.machine.draws < 2 ^ 62 }
    ensures ok { OnOk result (member.new ≡ member_publishes g.now (Offers object.now) 0 draw member.old) }
    ensures seq { IfOk result (λ published. published.seq ≡ next_seq member.old) }
    ensures sync { IfOk result (λ published.
        published.sync.items ≡ sync_of g.now member.old.number member.new.known) }
    ensures err { OnErr result (member.new ≡ member.old) }
{
    match member.publish(g, object.name(), object.contents(), 0, draw) {
        Ok(published) => Ok(published),
        Err(_) => Err(AllocError),
    }
}

pub fn heard(
    member: &mut Member,
    g: &Group,
    octets: &[u8],
    draw: u32,
) -> Result<LiveReply, AllocError>
    requires group { IsOfGroup g.now member.old }
    requires draws { member.old.machine.draws < 2 ^ 62 }
    ensures ok { OnOk result
        (member.new ≡ hear_change (hear_verdict g.now member.old octets.now) draw member.old) }
    ensures reply { IfOk result (λ reply.
        reply ≡ hear_reply (hear_verdict g.now member.old octets.now) draw member.old) }
    ensures err { OnErr result (member.new ≡ member.old) }
{
    match member.hear(g, octets, 0, draw) {
        Ok(Mode::Steady) => Ok(LiveReply::Steady),
        Ok(Mode::Suppressed) => Ok(LiveReply::Suppressed),
        Err(HearRefusal::NoMemory) => Err(AllocError),
        Err(_) => Ok(LiveReply::Refused),
    }
}

pub fn claimed(member: &mut Member, f: u8) -> LiveReply
    requires { IsFetcher f }
    ensures new { member.new ≡ claim_change f member.old }
    ensures reply { result ≡ claim_reply f member.old }
{
    match member.claim(f) {
        Ok(Some(part)) => LiveReply::Claimed { part },
        Ok(None) => LiveReply::NoPart,
        Err(_) => LiveReply::Refused,
    }
}

pub fn lost(member: &mut Member, f: u8) -> LiveReply
    requires { IsFetcher f }
    ensures new { member.new ≡ lose_change f member.old }
    ensures reply { result ≡ lose_reply f member.old }
{
    match member.lose(f) {
        Ok(part) => LiveReply::Lost { part },
        Err(_) => LiveReply::Refused,
    }
}

/// Gives a fetcher the packet of `part`. If the fetcher claims `part`, the packet has to pass the checks; so it is
/// taken unless memory runs out.
pub fn accepted(
    member: &mut Member,
    g: &Group,
    f: u8,
    part: Part,
    octets: &[u8],
) -> Result<LiveReply, AllocError>
    requires fetcher { IsFetcher f }
    requires group { IsOfGroup g.now member.old }
    requires passes { claim_of (member_plan member.old) f ≡ Some part
        → accept_verdict g.now member.old f octets.now ≡ Ok part }
    ensures ok { OnOk result (member.new ≡ accept_change part octets.now f member.old) }
    ensures reply { IfOk result (λ reply. reply ≡ accept_reply part f member.old) }
    ensures err { OnErr result (member.new ≡ member.old) }
{
    if !claims(member, f, part) {
        return Ok(LiveReply::Refused);
    }
    match member.accept(g, f, octets) {
        Ok(_) => Ok(LiveReply::Kept),
        Err(_) => Err(AllocError),
    }
}

// Whether the fetcher claims the part.
fn claims(member: &Member, f: u8, part: Part) -> bool
    requires { IsFetcher f }
    ensures { result ≡ is_claim part (claim_of (member_plan member.now) f) }
{
    match member.claimed(f) {
        Some(claimed) => part == claimed,
        None => false,
    }
}

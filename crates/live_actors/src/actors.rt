ghost use Rattle.std.specs.Prelude.{◌≡◌, ◌<◌, ◌≤◌, IfOk, OnOk};
ghost use Rattle.repo_plan.specs.Calls.{IsFetcher};
ghost use Rattle.live_actors.specs.ActorCalls.{Makes, EndsClaim, CanPublish, Publishes, PublishesNext, tells};
ghost use Rattle.live_actors.specs.ActorCalls.{HearsSome, Fetches, TakesTurn, IsActorIn, Acts, tickets_of};

use crate::actor::Actor;
use crate::places::Places;
use live_member::{Lent, Lists, LiveReply, Told};
use std::alloc::AllocError;
use std::sync::Wait;
use std::thread::yield_now;

/// How many sync Interests a member hears after each publication at most.
const HEARD_AT_ONCE: u32 = 64;

/// The number of the actor that publishes. An actor that fetches has its fetcher's number.
const PUBLISHER: u8 = 0;

/// Makes all calls of one actor.
pub fn act<L: Lists, R: Wait, P: Places<L>>(
    rt: &R,
    places: &mut P,
    members: u32,
    turns: u32,
    actor: Actor,
) -> Result<(), AllocError>
    requires members { members ≡ (P.progress places.old).members }
    requires actor { IsActorIn (P.progress places.old) actor }
    requires tickets { (P.progress places.old).left ≡ tickets_of actor turns }
    ensures calls { OnOk result (Acts turns actor (P.progress places.old) (P.progress places.new)) }
    ensures tickets { OnOk result ((P.progress places.new).left ≡ 0) }
{
    match actor {
        Actor::Publish { member } => publish(rt, places, members, member)?,
        Actor::First { member } => fetch(places, member, 1, turns)?,
        Actor::Second { member } => fetch(places, member, 2, turns)?,
    }
    Ok(())
}

// The actor that publishes for a member does so until `publish_next` answers `None`. It puts the sync Interest of each
// publication into the inboxes of all other members. After each, the member hears sync Interests from its own inbox.
fn publish<L: Lists, R: Wait, P: Places<L>>(
    rt: &R,
    places: &mut P,
    members: u32,
    member: u32,
) -> Result<(), AllocError>
    requires { CanPublish members member (P.progress places.old) }
    ensures { OnOk result (Publishes member (P.progress places.old) (P.progress places.new)) }
{
    for _round in rt.forever() {
        if !publish_next(places, members, member)? {
            return Ok(());
        }
    }
    unreachable!()
}

// A member publishes its next object, the sync Interest is put into the inboxes of all others, and the member hears
// sync Interests from its own inbox. The answer is whether an object was published.
fn publish_next<L: Lists, P: Places<L>>(
    places: &mut P,
    members: u32,
    member: u32,
) -> Result<bool, AllocError>
    requires { CanPublish members member (P.progress places.old) }
    ensures { IfOk result (λ more. PublishesNext member more (P.progress places.old) (P.progress places.new)) }
{
    places.pass(member, PUBLISHER)?;
    let Some(told) = places.publish_next(member)? else {
        return Ok(false);
    };
    tell_others(places, members, member, &told)?;
    hear_some(places, member)?;
    Ok(true)
}

// Puts a sync Interest into the inboxes of all other members, in order of their numbers.
fn tell_others<L: Lists, P: Places<L>>(
    places: &mut P,
    members: u32,
    member: u32,
    told: &Told<L>,
) -> Result<(), AllocError>
    requires { members ≡ (P.progress places.old).senders }
    ensures { OnOk result (Makes (tells members member told.now) (P.progress places.old) (P.progress places.new)) }
{
    for other in 0..members {
        if other != member {
            places.tell(other, told)?;
        }
    }
    Ok(())
}

// A member hears sync Interests from its inbox until it is empty, and at most 64.
fn hear_some<L: Lists, P: Places<L>>(places: &mut P, member: u32) -> Result<(), AllocError>
    requires { member < (P.progress places.old).members }
    ensures { OnOk result (HearsSome member (P.progress places.old) (P.progress places.new)) }
{
    for _heard in 0..HEARD_AT_ONCE {
        let Some(told) = places.take()? else {
            return Ok(());
        };
        places.pass(member, PUBLISHER)?;
        places.hear(member, &told)?;
    }
    Ok(())
}

// A fetcher makes `turns` turns. Each begins with a claim. If a part is claimed, its publisher is asked to lend the
// packet, and the claim ends with `accept`, or with `lose` if nothing was lent.
fn fetch<L: Lists, P: Places<L>>(
    places: &mut P,
    member: u32,
    f: u8,
    turns: u32,
) -> Result<(), AllocError>
    requires member { member < (P.progress places.old).members }
    requires fetcher { IsFetcher f }
    requires two { f ≤ 2 }
    requires tickets { turns ≤ (P.progress places.old).left }
    ensures { OnOk result (Fetches member f turns (P.progress places.old) (P.progress places.new)) }
{
    for _turn in 0..turns {
        take_turn(places, member, f)?;
    }
    Ok(())
}

// One turn of a fetcher. If no part is claimed, other threads may run before the next turn.
fn take_turn<L: Lists, P: Places<L>>(places: &mut P, member: u32, f: u8) -> Result<(), AllocError>
    requires member { member < (P.progress places.old).members }
    requires fetcher { IsFetcher f }
    requires two { f ≤ 2 }
    requires ticket { 0 < (P.progress places.old).left }
    ensures { OnOk result (TakesTurn member f (P.progress places.old) (P.progress places.new)) }
{
    places.pass(member, f)?;
    let LiveReply::Claimed { part } = places.claim(member, f)? else {
        yield_now();
        return Ok(());
    };
    places.pass(member, f)?;
    let lent = places.lend(part.publisher, part)?;
    end_claim(places, member, f, lent)?;
    Ok(())
}

// Ends a claim: with `accept` of what was lent for it, or with `lose` if nothing was.
fn end_claim<L: Lists, P: Places<L>>(
    places: &mut P,
    member: u32,
    by: u8,
    lent: Option<Lent<L>>,
) -> Result<(), AllocError>
    requires member { member < (P.progress places.old).members }
    requires fetcher { IsFetcher by }
    ensures { OnOk result (EndsClaim member by lent (P.progress places.old) (P.progress places.new)) }
{
    places.pass(member, by)?;
    match lent {
        Some(lent) => places.accept(member, by, &lent)?,
        None => places.lose(member, by)?,
    };
    Ok(())
}

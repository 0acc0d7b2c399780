ghost use Rattle.std.specs.Prelude.{◌≡◌, ◌<◌, ◌≤◌};
ghost use Rattle.repo_plan.specs.Parts.{most_segments, part_of};
ghost use Rattle.repo_plan.specs.Sound.{CanBeHeld};
ghost use Rattle.repo_plan.specs.Calls.{IsFetcher};

use crate::expect::{is, same};
use repo_plan::*;
use std::process::Abort;
use std::test::*;

// A part of a publication of the first member.
fn part(seq: u16, part: u16) -> Part
    ensures { result ≡ part_of (0, seq) part }
{
    Part {
        publisher: 0,
        seq,
        part,
    }
}

// Sees that these parts are wanted and claimed by nobody.
fn wants(rt: &(impl Abort + AllocGlobal), plan: &Plan, parts: &[Part]) {
    let wanted = plan.wanted_after(rt.alloc(), None, 10).expect(rt, "memory");
    same(rt, wanted.as_slice(), parts, "wanted");
}

// Sees how many parts are wanted and how many are held.
fn counts(rt: &impl Abort, plan: &Plan, wanted: u64, held: u64) {
    same(rt, plan.wanted_count(), wanted, "wanted");
    same(rt, plan.held_count(), held, "held");
}

#[test]
fn parts_of_one_publication(rt: HostRuntime) {
    let mut plan = Plan::new(rt.alloc(), 2).expect(&rt, "memory");
    plan.raise(0, 1);
    one_claims_the_record(&rt, &mut plan);
    let wanted = plan.release(1).expect(&rt, "a claim");
    assert_eq!(rt; wanted, part(1, 0));
    hold_record(&rt, &mut plan, wanted, 2);
    claim_segments(&rt, &mut plan);
}

fn one_claims_the_record(rt: &impl Abort, plan: &mut Plan) {
    same(rt, plan.claim(1), Ok(Some(part(1, 0))), "claim");
    same(rt, plan.claim(2), Ok(None), "claim");
    same(
        rt,
        plan.claim(1),
        Err(FetcherBusy { part: part(1, 0) }),
        "claim",
    );
}

// The record, of an object of `segments` segments, is held once, and then again.
fn hold_record(rt: &impl Abort, plan: &mut Plan, wanted: Part, segments: u16)
    requires is_record { wanted.part ≡ 0 }
    requires free { CanBeHeld plan.old wanted }
    requires few { segments ≤ most_segments }
{
    let shape = Some(Shape::of(segments));
    assert!(rt; plan.hold(wanted, shape).expect(rt, "memory"));
    assert!(rt; !plan.hold(wanted, shape).expect(rt, "memory"));
}

// What is asked of a plan that holds the record of the first publication alone.
fn claim_segments(rt: &(impl Abort + AllocGlobal), plan: &mut Plan) {
    counts(rt, plan, 2, 1);
    same(rt, plan.claim(1), Ok(Some(part(1, 1))), "claim");
    same(rt, plan.claim(2), Ok(Some(part(1, 2))), "claim");
    same(rt, plan.release(2), Ok(part(1, 2)), "release");
    wants(rt, plan, &[part(1, 2)]);
    same(rt, plan.release(3), Err(FetcherIdle), "release");
    same(rt, plan.release(1), Ok(part(1, 1)), "release");
    // No fetcher claims a part any more.
    plan.end_claims();
    plan.hide(0, 1).expect(rt, "memory");
    wants(rt, plan, &[]);
    counts(rt, plan, 0, 0);
}

#[test]
fn calls_in_room_that_was_made(rt: HostRuntime) {
    let mut plan = Plan::new(rt.alloc(), 1).expect(&rt, "memory");
    plan.raise(0, 1);
    plan.reserve(4).expect(&rt, "memory");
    assert!(rt; plan.hold_reserved(part(1, 0), Some(Shape::of(2))));
    assert!(rt; !plan.hold_reserved(part(1, 0), Some(Shape::of(2))));
    plan.add_attempts_reserved(part(1, 1), 3);
    plan.hide_reserved(0, 1);
    is(&rt, !plan.holds(part(1, 0)), "hidden");
    same(&rt, plan.attempts(part(1, 1)), 3, "attempts");
    wants(&rt, &plan, &[]);
}

#[test]
fn attempts_add_up(rt: HostRuntime) {
    let mut plan = Plan::new(rt.alloc(), 1).expect(&rt, "memory");
    for (sum, more) in [(0, 3), (3, 4)] {
        assert_eq!(rt; plan.attempts(part(1, 1)), sum);
        plan.add_attempts(part(1, 1), more).expect(&rt, "memory");
    }
    same(&rt, plan.attempts(part(1, 1)), 7, "attempts");
    same(&rt, plan.attempts(part(1, 0)), 0, "attempts");
}

// Each record is claimed before it is held, which takes minutes where each claim looks at every number before it.
#[test]
fn every_number_of_a_publisher(rt: HostRuntime) {
    let mut plan = Plan::new(rt.alloc(), 1).expect(&rt, "memory");
    plan.raise(0, 65535);
    for seq in 0..65535 {
        same(&rt, plan.claim(1), Ok(Some(part(seq + 1, 0))), "claim");
        hold_claimed(&rt, &mut plan, 1);
        let next = plan.wanted_after(rt.alloc(), None, 1).expect(&rt, "memory");
        same(&rt, next.is_empty(), seq == 65534, "is empty");
    }
    is(&rt, plan.complete(0, 65535), "complete");
    same(&rt, plan.runs(), 1, "runs");
}

// The part that a fetcher claims is held. A record counts no segment.
fn hold_claimed(rt: &impl Abort, plan: &mut Plan, f: u8)
    requires { IsFetcher f }
    ensures { plan.new.known ≡ plan.old.known }
{
    let wanted = plan.release(f).expect(rt, "a claim");
    let shape = (wanted.part == 0).then_some(Shape::of(0));
    plan.hold(wanted, shape).expect(rt, "memory");
}

// Every second record is held, and fetchers keep the others.
#[test]
fn every_second_number(rt: HostRuntime) {
    let mut plan = Plan::new(rt.alloc(), 1).expect(&rt, "memory");
    plan.raise(0, 65535);
    for pair in 0..4u8 {
        is(&rt, plan.claim(pair * 2 + 1).is_ok(), "claim");
        is(&rt, plan.claim(pair * 2 + 2).is_ok(), "claim");
        hold_claimed(&rt, &mut plan, pair * 2 + 2);
    }
    same(&rt, plan.runs(), 4, "runs");
}

// The record of 201 segments lists two index packets, and these list 200 segments and one.
#[test]
fn segments_after_index_packets(rt: HostRuntime) {
    let mut plan = Plan::new(rt.alloc(), 1).expect(&rt, "memory");
    plan.raise(0, 1);
    claim_record(&rt, &mut plan, 201);
    let shape = Shape {
        index: 2,
        segments: 201,
    };
    same(&rt, plan.shape(0, 1), Some(shape), "shape");
    // The first index packet stays claimed.
    same(&rt, plan.claim(1), Ok(Some(part(1, 1))), "claim");
    same(&rt, plan.claim(2), Ok(Some(part(1, 2))), "claim");
    same(&rt, plan.claim(3), Ok(None), "claim");
    hold_claimed(&rt, &mut plan, 2);
    same(&rt, plan.claim(3), Ok(Some(part(1, 203))), "claim");
    wants(&rt, &plan, &[]);
    // The second index packet lists the last segment alone.
    counts(&rt, &plan, 2, 2);
}

// A fetcher claims the record, which is then held.
fn claim_record(rt: &impl Abort, plan: &mut Plan, segments: u16)
    requires { segments ≤ most_segments }
{
    same(rt, plan.claim(1), Ok(Some(part(1, 0))), "claim");
    let wanted = plan.release(1).expect(rt, "a claim");
    assert_eq!(rt; wanted, part(1, 0));
    hold_record(rt, plan, wanted, segments);
}

// Each part of the largest publication, one after another.
#[test]
fn every_part_of_a_publication(rt: HostRuntime) {
    let mut plan = Plan::new(rt.alloc(), 1).expect(&rt, "memory");
    plan.raise(0, 1);
    claim_record(&rt, &mut plan, 20000);
    for x in 0..20100 {
        same(&rt, plan.claim(1), Ok(Some(part(1, x + 1))), "claim");
        is(&rt, !plan.complete(0, 1), "complete");
        hold_claimed(&rt, &mut plan, 1);
    }
    is(&rt, plan.complete(0, 1), "complete");
}

// The first publications of two members have two segments. Two others hold the record of one each, and the first
// segment.
#[test]
fn parts_that_others_hold(rt: HostRuntime) {
    let mut others = Vec::new(rt.alloc());
    others.push(holder(&rt, 1)).expect(&rt, "memory");
    others.push(holder(&rt, 0)).expect(&rt, "memory");
    wants_of(&rt, others.as_slice());
}

// A plan that holds the first two parts of a member's first publication.
fn holder(rt: &(impl Abort + AllocGlobal), publisher: u32) -> Plan
    requires { publisher < 2 }
{
    let mut plan = Plan::new(rt.alloc(), 2).expect(rt, "memory");
    plan.raise(publisher, 1);
    hold_next(rt, &mut plan);
    hold_next(rt, &mut plan);
    plan
}

// The least wanted part is held. A record counts two segments.
fn hold_next(rt: &impl Abort, plan: &mut Plan) {
    assert!(rt; plan.claim(1).is_ok());
    let wanted = plan.release(1).expect(rt, "a claim");
    let shape = (wanted.part == 0).then_some(Shape::of(2));
    plan.hold(wanted, shape).expect(rt, "memory");
}

// What a plan wants of others, before and after it holds a record.
fn wants_of(rt: &(impl Abort + AllocGlobal), others: &[Plan]) {
    let mut plan = Plan::new(rt.alloc(), 2).expect(rt, "memory");
    plan.raise(0, 2);
    plan.raise(1, 1);
    let other = Part {
        publisher: 1,
        ..part(1, 0)
    };
    lists_held(rt, &plan, others, (None, 10), &[part(1, 0), other]);
    lists_held(rt, &plan, others, (None, 1), &[part(1, 0)]);
    lists_held(rt, &plan, others, (Some(part(1, 0)), 10), &[other]);
    hold_next(rt, &mut plan);
    lists_held(rt, &plan, others, (None, 10), &[part(1, 1), other]);
    lists_held(rt, &plan, &[], (None, 10), &[]);
}

// Sees that `parts` are the first `most` parts after `after` that are wanted and held by one of the others.
fn lists_held(
    rt: &(impl Abort + AllocGlobal),
    plan: &Plan,
    others: &[Plan],
    (after, most): (Option<Part>, usize),
    parts: &[Part],
) {
    let wanted = plan
        .wanted_held_after(rt.alloc(), others, after, most)
        .expect(rt, "memory");
    assert_eq!(rt; wanted.as_slice(), parts);
}

ghost use Rattle.std.specs.Prelude.{◌≡◌, ◌<◌, ◌^◌, length};

mod hostile;
mod interests;

use crate::expect::same;
use std::process::Abort;
use std::test::*;
use svs_sync::*;
use svs_vector::Vector;

// Draws, and when a Steady member is due that was reset at time 5 with each.
const PERIODIC: [(u32, u64); 4] = [
    (0, 27_005),
    (6_000, 33_005),
    (6_001, 27_005),
    (6_102, 27_106),
];

#[test]
fn periods(rt: HostRuntime) {
    for (draw, due) in &PERIODIC {
        let machine = Machine::new(rt.alloc(), 1, 5, *draw).expect(&rt, "memory");
        is_steady(&rt, &machine, *due, 1);
    }
}

// Sees that a member is Steady, when it is due and what its next draw is.
fn is_steady(rt: &impl Abort, machine: &Machine, due: u64, next_draw: u64) {
    same(rt, machine.mode(), Mode::Steady, "steady");
    same(rt, machine.deadline(), due, "deadline");
    same(rt, machine.next_draw(), next_draw, "steady");
}

// What a member of two knows, or hears, of publications of the first.
fn vector(rt: &(impl Abort + AllocGlobal), seq: u16) -> Vector
    ensures { length result ≡ 2 }
{
    let mut vector = Vector::new(rt.alloc(), 2).expect(rt, "memory");
    vector.raise(0, seq);
    vector
}

// A member that knows of one publication hears of none at time 10, with draw 302.
#[test]
fn a_member_that_others_do_not_tell_for_sends(rt: HostRuntime) {
    let known = vector(&rt, 1);
    let mut machine = Machine::new(rt.alloc(), 2, 0, 0).expect(&rt, "memory");
    is_reported_of_none(&rt, &mut machine, &known);
    sends(&rt, &mut machine, &known);
    is_steady(&rt, &machine, 27_111, 3);
}

fn is_reported_of_none(rt: &(impl Abort + AllocGlobal), machine: &mut Machine, known: &Vector)
    requires few { machine.old.draws < 2 ^ 61 }
    requires known { length known.now ≡ machine.old.members }
    requires two { machine.old.members ≡ 2 }
    ensures { machine.new.members ≡ 2 }
{
    let told = vector(rt, 0);
    let mode = machine.heard(10, &told, known, 302);
    same(rt, mode, Mode::Suppressed, "told of none");
    same(rt, machine.deadline(), 111, "deadline");
    same(rt, machine.next_draw(), 2, "next draw");
}

fn sends(rt: &impl Abort, machine: &mut Machine, known: &Vector)
    requires { length known.now ≡ machine.old.members }
{
    assert!(rt; machine.next_draw() == 2);
    same(rt, machine.fired(110, known, 0), Fired::Early, "at 110");
    same(rt, machine.fired(111, known, 0), Fired::Send, "at 111");
}

// A member that knows of two publications hears of one at time 0, and then of both. Each draw
// is 100.
#[test]
fn a_member_that_others_tell_for_is_quiet(rt: HostRuntime) {
    let known = vector(&rt, 2);
    let mut machine = Machine::new(rt.alloc(), 2, 0, 100).expect(&rt, "memory");
    is_reported_of_both(&rt, &mut machine, &known);
    is_quiet(&rt, &mut machine, &known);
    is_steady(&rt, &machine, 27_200, 3);
}

fn is_reported_of_both(rt: &(impl Abort + AllocGlobal), machine: &mut Machine, known: &Vector)
    requires few { machine.old.draws < 2 ^ 61 }
    requires known { length known.now ≡ machine.old.members }
    requires two { machine.old.members ≡ 2 }
    ensures { machine.new.members ≡ 2 }
{
    let told = vector(rt, 1);
    same(
        rt,
        machine.fired(27_099, known, 100),
        Fired::Early,
        "at 27099",
    );
    let mode = machine.heard(0, &told, known, 100);
    same(rt, mode, Mode::Suppressed, "told of one");
    same(rt, machine.deadline(), 100, "deadline");
    let mode = machine.heard(0, known, known, 100);
    same(rt, mode, Mode::Suppressed, "told of both");
    same(rt, machine.deadline(), 100, "deadline");
}

fn is_quiet(rt: &impl Abort, machine: &mut Machine, known: &Vector)
    requires { length known.now ≡ machine.old.members }
{
    assert!(rt; machine.next_draw() == 2);
    same(rt, machine.fired(99, known, 100), Fired::Early, "at 99");
    same(rt, machine.fired(100, known, 100), Fired::Quiet, "at 100");
}

#[test]
fn publishing_and_starting_again_begin_anew(rt: HostRuntime) {
    let mut machine = Machine::new(rt.alloc(), 1, 0, 0).expect(&rt, "memory");
    machine.published(7, 1);
    is_steady(&rt, &machine, 27_008, 2);
    machine.reset(9, 2);
    is_steady(&rt, &machine, 27_011, 3);
}

ghost use Rattle.std.specs.Prelude.{◌≡◌, ◌≤◌, OnSome};
ghost use Rattle.fetch_board.specs.Seats.{fresh};
ghost use Rattle.repo_tests.specs.Shared.{HaveShared};

use crate::expect::{is, same};
use fetch_board::*;
use std::alloc::Global;
use std::test::*;

// Two seats share two items of two tries each.
fn share_with_two_tries(board: &Board<u32>, one: &mut Seat<u32>, two: &mut Seat<u32>) -> Option<()>
    requires board { (board.now.items ≡ 2) × (board.now.tries ≡ 2) }
    requires seats { (one.old ≡ fresh board.now 1) × (two.old ≡ fresh board.now 1) }
    ensures { OnSome result (HaveShared board.now one.new two.new) }
{
    let Taken::Yes { attempt: 0 } = board.claim(one, 0) else {
        return None;
    };
    let Taken::Held = board.claim(two, 0) else {
        return None;
    };
    board.give_back(one, 0);
    let Taken::Yes { attempt: 1 } = board.claim(two, 0) else {
        return None;
    };
    board.spend(two, 0);
    let Taken::Spent = board.claim(one, 0) else {
        return None;
    };
    let Taken::Yes { attempt: 0 } = board.claim(one, 1) else {
        return None;
    };
    board.finish(one, 1, 7);
    let Taken::Done = board.claim(two, 1) else {
        return None;
    };
    Some(())
}

// Two seats share two items of one try each.
fn share_with_one_try(board: &Board<u32>, one: &mut Seat<u32>, two: &mut Seat<u32>) -> Option<()>
    requires board { (board.now.items ≡ 2) × (board.now.tries ≡ 1) }
    requires seats { (one.old ≡ fresh board.now 1) × (two.old ≡ fresh board.now 1) }
    ensures { OnSome result (HaveShared board.now one.new two.new) }
{
    let Taken::Yes { attempt: 0 } = board.claim(one, 0) else {
        return None;
    };
    let Taken::Held = board.claim(two, 0) else {
        return None;
    };
    board.spend(one, 0);
    let Taken::Spent = board.claim(two, 0) else {
        return None;
    };
    let Taken::Yes { attempt: 0 } = board.claim(one, 1) else {
        return None;
    };
    board.finish(one, 1, 7);
    let Taken::Done = board.claim(two, 1) else {
        return None;
    };
    Some(())
}

fn share(board: &Board<u32>, one: &mut Seat<u32>, two: &mut Seat<u32>) -> Option<()>
    requires board { (board.now.items ≡ 2) × (board.now.tries ≤ 2) }
    requires seats { (one.old ≡ fresh board.now 1) × (two.old ≡ fresh board.now 1) }
    ensures { OnSome result (HaveShared board.now one.new two.new) }
{
    if board.tries() == 1 {
        share_with_one_try(board, one, two)
    } else {
        share_with_two_tries(board, one, two)
    }
}

// What became of two items that two seats shared.
fn outcome(alloc: Global, tries: u32) -> Option<Outcome<u32>>
    requires { (1 ≤ tries) × (tries ≤ 2) }
{
    let Ok((board, mut seats)) = Board::<u32>::new(alloc, 2, tries, 2) else {
        return None;
    };
    let mut one = seats.pop()?;
    let mut two = seats.pop()?;
    share(&board, &mut one, &mut two)?;
    board.join(&mut one, two);
    board.close(one).ok()
}

// How often each item may be tried, and how often each was then.
const SHARED: [(u32, [u32; 2]); 2] = [(1, [1, 1]), (2, [2, 1])];

#[test]
fn two_seats_share_two_items(rt: HostRuntime) {
    for (tries, attempts) in &SHARED {
        assert!(rt; 1 <= *tries && *tries <= 2);
        let shared = outcome(rt.alloc(), *tries).expect(&rt, "an outcome");
        same(&rt, shared.values.as_slice(), &[None, Some(7)], "values");
        same(&rt, shared.attempts.as_slice(), attempts, "attempts");
    }
}

#[test]
fn a_board_may_have_no_items(rt: HostRuntime) {
    let made = Board::<u32>::new(rt.alloc(), 0, 1, 1);
    let (board, mut seats) = made.expect(&rt, "memory");
    let seat = seats.pop().expect(&rt, "a seat");
    let outcome = board.close(seat).expect(&rt, "memory");
    is(&rt, outcome.values.is_empty(), "no values");
    is(&rt, outcome.attempts.is_empty(), "no attempts");
}

#[test]
fn a_look_reports_the_word(rt: HostRuntime) {
    let made = Board::<u32>::new(rt.alloc(), 1, 2, 1);
    let (board, mut seats) = made.expect(&rt, "memory");
    let mut seat = seats.pop().expect(&rt, "a seat");
    let seen = board.look(&mut seat, 0);
    same(&rt, seen, Seen::Wanted { attempt: 0 }, "a look");
}

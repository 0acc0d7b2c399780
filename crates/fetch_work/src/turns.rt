ghost use Rattle.std.specs.Prelude.{◌≡◌, ℕ, ◌<◌, ◌≤◌};
ghost use Rattle.fetch_board.specs.Counts.{items};
ghost use Rattle.fetch_board.specs.Seats.{IsSeatOf};
ghost use Rattle.fetch_board.specs.Answers.{Rests};
ghost use Rattle.fetch_work.specs.Works.{Works, Visits, Scans, HasNothing};

use crate::trial::Trial;
use fetch_board::{Board, Seat, Taken};

// Claims the item where it is wanted, and makes one attempt. True where it gave the item back.
fn visit<T: Trial>(
    board: &Board<T::Value>,
    seat: &mut Seat<T::Value>,
    trial: &T,
    count: usize,
    item: usize,
) -> bool
    requires seat { IsSeatOf board.now seat.old }
    requires item { (item < board.now.items) × (count ≡ board.now.items) }
    requires can { (i a : ℕ) → i < count → a < board.now.tries → T.can trial.now i a }
    requires works { Works (T.packet_at trial.now) count board.now.tries seat.old }
    ensures seat { IsSeatOf board.now seat.new }
    ensures visits { Visits (T.packet_at trial.now) count board.now.tries item seat.old result seat.new }
{
    let tries = board.tries();
    let Taken::Yes { attempt: before } = board.claim(seat, item) else {
        return false;
    };
    match trial.attempt(item, before) {
        Some(value) => {
            board.finish(seat, item, value);
            false
        }
        None if before + 1 < tries => {
            board.give_back(seat, item);
            true
        }
        None => {
            board.spend(seat, item);
            false
        }
    }
}

// Visits each item from `from` to `to` once. True where it gave one back.
fn scan<T: Trial>(
    board: &Board<T::Value>,
    seat: &mut Seat<T::Value>,
    trial: &T,
    count: usize,
    from: usize,
    to: usize,
) -> bool
    requires seat { IsSeatOf board.now seat.old }
    requires range { (from ≤ to) × (to ≤ count) × (count ≡ board.now.items) }
    requires can { (i a : ℕ) → i < count → a < board.now.tries → T.can trial.now i a }
    requires works { Works (T.packet_at trial.now) count board.now.tries seat.old }
    ensures seat { IsSeatOf board.now seat.new }
    ensures scans { Scans (T.packet_at trial.now) count board.now.tries from to seat.old result seat.new }
{
    let mut gave_back = false;
    for item in from..to {
        gave_back |= visit(board, seat, trial, count, item);
    }
    gave_back
}

// Visits each item once: those from `first` on, and then those before it. True where it gave one back.
fn round<T: Trial>(
    board: &Board<T::Value>,
    seat: &mut Seat<T::Value>,
    trial: &T,
    count: usize,
    first: usize,
) -> bool
    requires seat { IsSeatOf board.now seat.old }
    requires range { (first ≤ count) × (count ≡ board.now.items) }
    requires can { (i a : ℕ) → i < count → a < board.now.tries → T.can trial.now i a }
    requires works { Works (T.packet_at trial.now) count board.now.tries seat.old }
    ensures seat { IsSeatOf board.now seat.new }
    ensures scans { Scans (T.packet_at trial.now) count board.now.tries 0 count seat.old result seat.new }
{
    let after = scan(board, seat, trial, count, first, count);
    let before = scan(board, seat, trial, count, 0, first);
    after || before
}

// Makes attempts at the items in rounds from `first` on, until a round gives none back.
pub(crate) fn work<T: Trial>(
    board: &Board<T::Value>,
    seat: &mut Seat<T::Value>,
    trial: &T,
    count: usize,
    first: usize,
)
    requires seat { IsSeatOf board.now seat.old × HasNothing seat.old }
    requires count { count ≡ board.now.items }
    requires can { (i a : ℕ) → i < count → a < board.now.tries → T.can trial.now i a }
    ensures seat { IsSeatOf board.now seat.new × (seat.new.shares ≡ seat.old.shares) }
    ensures rests { Rests seat.new }
    ensures passed { (i : ℕ) → i < count → 0 < items i seat.new.passed }
    ensures works { Works (T.packet_at trial.now) count board.now.tries seat.new }
{
    let first = first.min(count);
    loop {
        if !round(board, seat, trial, count, first) {
            return;
        }
    }
}

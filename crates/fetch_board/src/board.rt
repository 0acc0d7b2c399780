ghost use Rattle.std.specs.Prelude.{◌≡◌, ℕ, ◌-◌, ◌<◌, ◌≤◌, length, IfOk, All, None, slice_index_or};
ghost use Rattle.fetch_board.specs.Counts.{items};
ghost use Rattle.fetch_board.specs.Seats.{IsSeatOf, fresh};
ghost use Rattle.fetch_board.specs.Answers.{Rests, Settled};

use crate::close::{discard, settle, vacant};
use crate::outcome::Outcome;
use crate::plays::Shares;
use crate::rule::{BoardLimits, BoardRule};
use crate::seat::Seat;
use crate::seat_knowledge::SeatKnowledge;
use atomic_table::Table;
use std::alloc::{AllocError, Global};
use std::marker::Model;

/// A word and a place for each of a number of items, which the threads that have a seat share.
///
/// The word says what its item stands at: wanted, held, done or spent, and how many attempts at it ended without a
/// value. The place takes the value. Both change by single atomic steps: no call waits for another.
#[derive(Drop)]
pub struct Board<T> {
    pub(crate) table: Table<Option<T>, SeatKnowledge<T>, BoardLimits, BoardRule, Global>,
    pub(crate) items: usize,
    pub(crate) tries: u32,
    // For the outcome of `close`. No other file reaches it, so that the calls on a shared board can make nothing.
    alloc: Global,
}

// What is fixed of it. All seats change words and places, so no contract can say what these are.
impl<T> Model for Board<T> {
    ghost use Rattle.fetch_board.specs.Seats.{BoardTerms};

    ghost Value = { BoardTerms };

    ghost use Rattle.fetch_board.specs.Boards.{IsLaidOut};

    ghost view = { λ b. record {
      board = b.table.shared.table_id;
      items = b.items;
      tries = b.tries;
      seats = b.table.shared.key.seats;
    } };

    ghost invariant = { λ b. IsLaidOut b.table.shared.table_id b.items b.tries b.table.shared.key.tries };
}

impl<T: Drop> Board<T> {
    /// A board whose items are all wanted, and its seats.
    pub fn new(
        alloc: Global,
        items: usize,
        tries: u32,
        seats: usize,
    ) -> Result<(Board<T>, Vec<Seat<T>>), AllocError>
        requires items { items ≤ 4096 }
        requires tries { (1 ≤ tries) × (tries ≤ 16) }
        requires seats { (1 ≤ seats) × (seats ≤ 16) }
        ensures board { IfOk result (λ r. (r.0.items ≡ items) × (r.0.tries ≡ tries) × (r.0.seats ≡ seats)) }
        ensures count { IfOk result (λ r. length r.1.items ≡ seats) }
        ensures seats { IfOk result (λ r. All (λ seat. seat ≡ fresh r.0 1) r.1.items) }
    {
        // A board of no items keeps one word that nobody asks for.
        let cells = items.max(1);
        let words = vec![in alloc; 0u64; cells]?;
        let terms = BoardLimits {
            tries,
            seats: seats as u64,
        };
        let (table, inner) = Table::vacant(alloc, words.as_slice(), cells, &terms)?;
        let board = Board {
            table,
            items,
            tries,
            alloc,
        };
        let dealt = board.deal(alloc, Seat { inner }, seats)?;
        Ok((board, dealt))
    }

    // A seat that stands for several, taken apart into seats that stand for one each.
    fn deal(
        &self,
        alloc: Global,
        mut first: Seat<T>,
        seats: usize,
    ) -> Result<Vec<Seat<T>>, AllocError>
        requires first { first ≡ fresh self.now seats }
        requires some { 1 ≤ seats }
        ensures count { IfOk result (λ v. length v.items ≡ seats) }
        ensures seats { IfOk result (λ v. All (λ seat. seat ≡ fresh self.now 1) v.items) }
    {
        let mut dealt = Vec::with_capacity(alloc, seats)?;
        for _ in 1..seats {
            dealt.push(self.split(&mut first))?;
        }
        dealt.push(first)?;
        Ok(dealt)
    }

    // A seat of its own for one of those that the seat stands for.
    fn split(&self, seat: &mut Seat<T>) -> Seat<T>
        requires seat { IsSeatOf self.now seat.old }
        requires shares { 1 < seat.old.shares }
        ensures old { seat.new ≡ record seat.old { shares = seat.old.shares - 1 } }
        ensures new { result ≡ fresh self.now 1 }
    {
        let inner = self.table.shared.split_seat::<Shares>(&mut seat.inner);
        Seat { inner }
    }

    /// How many attempts an item may have.
    pub fn tries(&self) -> u32
        ensures same { result ≡ self.now.tries }
        ensures within { (1 ≤ result) × (result ≤ 16) }
    {
        self.tries
    }

    /// Closes the board for the seat that all others were joined into, and gives what became of the items. The board is
    /// gone, also where memory ran out.
    pub fn close(self, seat: Seat<T>) -> Result<Outcome<T>, AllocError>
        requires seat { IsSeatOf self seat }
        requires shares { seat.shares ≡ self.seats }
        requires rests { Rests seat }
        requires passed { (i : ℕ) → i < self.items → 0 < items i seat.passed }
        ensures count { IfOk result (λ o. length o.values.items ≡ self.items) }
        ensures counts { IfOk result (λ o. length o.attempts.items ≡ self.items) }
        ensures settled { IfOk result (λ o. (i : ℕ) → i < self.items
            → Settled seat i (slice_index_or o.values.items i None) (slice_index_or o.attempts.items i 0)) }
    {
        let Board {
            table,
            items,
            tries,
            alloc,
        } = self;
        let Seat { inner } = seat;
        let values = vacant(alloc, items)?;
        let attempts = vec![in alloc; 0u32; items]?;
        let mut closed = table.close_with(inner);
        let outcome = settle(&mut closed, values, attempts, tries);
        discard(closed, items);
        Ok(outcome)
    }
}

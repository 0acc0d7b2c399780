ghost use Rattle.std.specs.Prelude.{◌≡◌, ◌≢◌, ℕ, ◌+◌, ◌<◌, ◌≤◌, MatchOption};
ghost use Rattle.fetch_board.specs.declared.word.Word.{Word as WordOf};
ghost use Rattle.fetch_board.specs.declared.word.Word.TheVariants.{Wanted};
ghost use Rattle.fetch_board.specs.declared.taken.Taken.TheVariants as answer;
ghost use Rattle.fetch_board.specs.Counts.{items};
ghost use Rattle.fetch_board.specs.Seats.{IsSeatOf, Holds, items_of, returned, finished, forgone, combined};
ghost use Rattle.fetch_board.specs.Answers.{Decides, Takes, Finds, Once, known, after_claim, seen_word};

use crate::board::Board;
use crate::plays::{Agree, Claim, File, GiveBack, Look, Recall, Reserve, Shares, Spend};
use crate::seat::Seat;
use crate::taken::{Seen, Taken};
use crate::word::{SPENT, Word, word_of};

impl<T: Drop> Board<T> {
    // One step of a claim, which expects that the item is wanted after `attempt` attempts. Else the word that it found.
    fn try_claim(&self, seat: &mut Seat<T>, item: usize, attempt: u32) -> Option<Word>
        requires seat { IsSeatOf self.now seat.old }
        requires item { item < self.now.items }
        requires attempt { attempt < 16 }
        ensures seat { IsSeatOf self.now seat.new }
        ensures claimed { MatchOption result
            (Decides item seat.old (answer.Yes attempt) seat.new)
            (λ word. Finds item word seat.old seat.new × (word ≢ Wanted attempt)) }
        ensures few { self.now.tries ≤ 16 }
    {
        let expected = 4 * u64::from(attempt);
        let found = self
            .table
            .shared
            .compare_exchange::<Claim>(&mut seat.inner, item, expected, expected + 1);
        if found == expected {
            return None;
        }
        Some(word_of(found))
    }

    /// Claims an item that is wanted, in at most one step more than there are tries. Or else says what it stood at.
    pub fn claim(&self, seat: &mut Seat<T>, item: usize) -> Taken
        requires seat { IsSeatOf self.now seat.old }
        requires item { item < self.now.items }
        requires unheld { items item (items_of seat.old.held) ≡ 0 }
        ensures seat { IsSeatOf self.now seat.new }
        ensures taken { Takes item seat.old result seat.new }
        ensures known { known seat.new ≡ after_claim item result (known seat.old) }
    {
        let mut attempt = 0;
        loop {
            match self.try_claim(seat, item, attempt) {
                None => return Taken::Yes { attempt },
                Some(Word::Wanted(ended)) => attempt = ended,
                Some(Word::Held(_)) => return Taken::Held,
                Some(Word::Done(_)) => return Taken::Done,
                Some(Word::Spent) => return Taken::Spent,
            }
        }
    }

    /// What the item stands at.
    pub fn look(&self, seat: &mut Seat<T>, item: usize) -> Seen
        requires seat { IsSeatOf self.now seat.old }
        requires item { item < self.now.items }
        ensures seat { IsSeatOf self.now seat.new }
        ensures seen { (word : WordOf) × Finds item word seat.old seat.new × (result ≡ seen_word word) }
    {
        let found = self.table.shared.load::<Look>(&mut seat.inner, item);
        word_of(found).seen()
    }

    /// Gives an item back that the seat holds, for any seat to claim, with one attempt more that ended. The seat owes
    /// it until it is met claimed, finished or spent.
    pub fn give_back(&self, seat: &mut Seat<T>, item: usize)
        requires seat { IsSeatOf self.now seat.old }
        requires item { item < self.now.items }
        requires held { (a : ℕ) × Holds item a seat.old × (a + 1 < self.now.tries) }
        ensures seat { IsSeatOf self.now seat.new }
        ensures returned { seat.new ≡ returned item seat.old }
    {
        let words = &self.table.shared;
        let found = words.load::<Recall>(&mut seat.inner, item);
        // From held(a), which is 4a + 1, to wanted(a + 1).
        words.store::<GiveBack>(&mut seat.inner, item, found + 3);
    }

    /// Finishes an item that the seat holds: the value goes to its place, and then the item is done.
    pub fn finish(&self, seat: &mut Seat<T>, item: usize, value: T)
        requires seat { IsSeatOf self.now seat.old }
        requires item { item < self.now.items }
        requires held { (a : ℕ) × Holds item a seat.old }
        ensures seat { IsSeatOf self.now seat.new }
        ensures within { (a : ℕ) → Holds item a seat.old → a < self.now.tries }
        ensures finished { (a : ℕ) → Holds item a seat.old → seat.new ≡ finished item a value seat.old }
    {
        let words = &self.table.shared;
        let found = words.load::<Reserve>(&mut seat.inner, item);
        // The place was empty.
        drop(words.exchange(&mut seat.inner, item, Some(value)));
        // From held(a) to done(a).
        words.store::<File>(&mut seat.inner, item, found + 1);
    }

    /// Spends an item that the seat holds, whose last attempt ended without a value.
    pub fn spend(&self, seat: &mut Seat<T>, item: usize)
        requires seat { IsSeatOf self.now seat.old }
        requires item { item < self.now.items }
        requires held { (a : ℕ) × Holds item a seat.old × (a + 1 ≡ self.now.tries) }
        ensures seat { IsSeatOf self.now seat.new }
        ensures spent { seat.new ≡ forgone item seat.old }
    {
        self.table
            .shared
            .store::<Spend>(&mut seat.inner, item, SPENT);
    }

    /// What one seat knows goes to another, which then stands for both.
    pub fn join(&self, into: &mut Seat<T>, from: Seat<T>)
        requires into { IsSeatOf self.now into.old }
        requires from { IsSeatOf self.now from }
        ensures seat { IsSeatOf self.now into.new }
        ensures joined { into.new ≡ combined into.old from }
        ensures once { Once into.new }
    {
        let Seat { inner } = from;
        let words = &self.table.shared;
        words.join_seat::<Shares>(&mut into.inner, inner);
        words.load::<Agree>(&mut into.inner, 0);
    }
}

ghost use Rattle.std.specs.Prelude.{◌≡◌, ◌≢◌, ℕ, ◌+◌, ◌/◌, ◌<◌, ◌≤◌, length, IfOk};
ghost use Rattle.core.specs.Mem.Slots.{slots_items, slots_len, IsFull};
ghost use mathlib.Core.Option.{some};
ghost use lib.ListN.{get_elem?};
ghost use Rattle.fetch_board.specs.Places.{IsOutcome, TakenBelow};

use crate::outcome::Outcome;
use crate::word::SPENT;
use atomic_table::Closed;
use std::alloc::{AllocError, Global};

// So many places without a value.
pub(crate) fn vacant<T: Drop>(alloc: Global, items: usize) -> Result<Vec<Option<T>>, AllocError>
    ensures { IfOk result (λ v. length v.items ≡ items) }
{
    let mut values = Vec::with_capacity(alloc, items)?;
    for _ in 0..items {
        values.push(None)?;
    }
    Ok(values)
}

// How many attempts the word of an item has that was finished or spent.
fn attempts_of(word: u64, tries: u32) -> u32
    requires { word ≢ 3 → word / 4 < tries }
    ensures spent { word ≡ 3 → result ≡ tries }
    ensures done { word ≢ 3 → result ≡ word / 4 + 1 }
{
    match word {
        SPENT => tries,
        done => (done / 4) as u32 + 1,
    }
}

// Takes each item's value out of its place, and the number of attempts that its word has.
pub(crate) fn settle<T: Drop>(
    closed: &mut Closed<Option<T>, Global>,
    mut values: Vec<Option<T>>,
    mut attempts: Vec<u32>,
    tries: u32,
) -> Outcome<T>
    requires full { IsFull closed.old.words × IsFull closed.old.slots }
    requires even { slots_len closed.old.words ≡ slots_len closed.old.slots }
    requires room { length values.items ≤ slots_len closed.old.slots }
    requires counts { length attempts.items ≡ length values.items }
    requires words { (i n : ℕ) → i < length values.items → get_elem? (slots_items closed.old.words) i ≡ some n
        → n ≢ 3 → n / 4 < tries }
    ensures same { slots_len closed.new.slots ≡ slots_len closed.old.slots }
    ensures taken { TakenBelow closed.new.slots (length values.items) }
    ensures outcome { IsOutcome closed.old.words closed.old.slots (length values.items) tries
        result.values.items result.attempts.items }
{
    for i in 0..values.len() {
        attempts[i] = attempts_of(closed.word(i), tries);
        values[i] = closed.take(i);
    }
    Outcome { values, attempts }
}

// Drops the values from the place `from` on, and the memory.
pub(crate) fn discard<T: Drop>(mut closed: Closed<Option<T>, Global>, from: usize)
    requires { (from ≤ slots_len closed.slots) × TakenBelow closed.slots from }
{
    for i in from..closed.slot_count() {
        drop(closed.take(i));
    }
    closed.free();
}

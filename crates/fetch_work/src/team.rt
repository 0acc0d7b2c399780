ghost use Rattle.std.specs.Prelude.{◌≡◌, ℕ, ◌<◌, ◌≤◌, length, fold, All, IfOk, None, slice_index_or};
ghost use Rattle.fetch_board.specs.Seats.{fresh, combined, IsSeatOf};
ghost use Rattle.fetch_work.specs.Teams.{HasWorked, IsFirst};

use crate::trial::Trial;
use crate::turns::work;
use crate::worker::Worker;
use fetch_board::{Board, Outcome, Seat};
use std::alloc::{AllocError, Global};
use std::thread;
use std::thread::Threads;

// A worker for each seat. Their first items are spread evenly over all items.
fn spread<T: Drop>(
    alloc: Global,
    seats: Vec<Seat<T>>,
    items: usize,
) -> Result<Vec<Worker<T>>, AllocError>
    requires few { (length seats.items ≤ 16) × (items ≤ 4096) }
    ensures { IfOk result (λ workers. workers.items ≡ seats.items) }
{
    let count = seats.len();
    let mut workers = Vec::with_capacity(alloc, count)?;
    for seat in seats {
        let first = workers.len() * items / count;
        workers.push(Worker::beginning_at(seat, first))?;
    }
    Ok(workers)
}

// The work of one worker in a phase.
fn worked<T: Trial>(
    board: &Board<T::Value>,
    worker: Worker<T::Value>,
    trial: &T,
    items: usize,
) -> Seat<T::Value>
    requires worker { worker ≡ fresh board.now 1 }
    requires items { items ≡ board.now.items }
    requires can { (i a : ℕ) → i < items → a < board.now.tries → T.can trial.now i a }
    ensures { HasWorked (T.packet_at trial.now) items board.now result }
{
    let Worker { mut seat, first } = worker;
    work(board, &mut seat, trial, items, first);
    seat
}

// The work of all workers, each in a thread of its own. Where a thread can't be started, another does its worker's work
// as well.
fn work_all<T: Trial + Sync, R: Threads + Sync>(
    rt: &R,
    board: &Board<T::Value>,
    workers: Vec<Worker<T::Value>>,
    trial: &T,
    items: usize,
) -> Result<Vec<Seat<T::Value>>, AllocError>
    requires workers { All (λ worker. worker ≡ fresh board.now 1) workers.items }
    requires items { items ≡ board.now.items }
    requires can { (i a : ℕ) → i < items → a < board.now.tries → T.can trial.now i a }
    ensures count { IfOk result (λ v. length v.items ≡ length workers.items) }
    ensures each { IfOk result (λ v. All (λ seat. HasWorked (T.packet_at trial.now) items board.now seat) v.items) }
{
    thread::map_vec(
        rt,
        workers,
        &|worker: Worker<T::Value>| -> Seat<T::Value>
            requires worker { worker ≡ fresh board.now 1 }
            requires items { items ≡ board.now.items }
            requires can { (i a : ℕ) → i < items → a < board.now.tries → T.can trial.now i a }
            ensures { HasWorked (T.packet_at trial.entry.now) items board.entry.now result }
        { worked(board, worker, trial, items) },
    )
}

// Joins what the other seats know to the one seat.
fn join_all<T: Drop>(board: &Board<T>, mut seat: Seat<T>, others: Vec<Seat<T>>) -> Seat<T>
    requires seat { IsSeatOf board.now seat }
    requires others { All (λ other. IsSeatOf board.now other) others.items }
    ensures board { IsSeatOf board.now result }
    ensures joined { result ≡ fold combined seat others.items }
{
    for other in others {
        board.join(&mut seat, other);
    }
    seat
}

/// Tries each item by `workers` workers.
pub(crate) fn run<T: Trial + Sync, R: Threads + Sync>(
    rt: &R,
    alloc: Global,
    trial: &T,
    items: usize,
    tries: u32,
    workers: u32,
) -> Result<Outcome<T::Value>, AllocError>
    requires items { items ≤ 4096 }
    requires tries { (1 ≤ tries) × (tries ≤ 16) }
    requires workers { (1 ≤ workers) × (workers ≤ 16) }
    requires can { (i a : ℕ) → i < items → a < tries → T.can trial.now i a }
    ensures count { IfOk result (λ o. length o.values.items ≡ items) }
    ensures counts { IfOk result (λ o. length o.attempts.items ≡ items) }
    ensures first { IfOk result (λ o. (i : ℕ) → i < items
        → IsFirst (T.packet_at trial.now i) tries
        (slice_index_or o.values.items i None) (slice_index_or o.attempts.items i 0)) }
{
    let (board, seats) = Board::new(alloc, items, tries, workers as usize)?;
    let team = spread(alloc, seats, items)?;
    let mut seats = work_all(rt, &board, team, trial, items)?;
    let Some(seat) = seats.pop() else {
        unreachable!()
    };
    let seat = join_all(&board, seat, seats);
    board.close(seat)
}

ghost use Rattle.std.specs.Prelude.{◌≡◌, ℕ, ◌<◌, length, All};
ghost use Rattle.fetch_board.specs.Counts.{items};
ghost use Rattle.fetch_board.specs.Seats.{IsSeatOf};
ghost use Rattle.fetch_board.specs.Answers.{Rests};
ghost use Rattle.fetch_work.specs.Attempts.{packet_at, job_at, CanBeTried};
ghost use Rattle.fetch_work.specs.Works.{HasNothing, HasTried};

use crate::link::Link;
use crate::link_trial::LinkTrial;
use crate::turns::work;
use fetch_board::{Board, Seat};
use ndn_sign::KeyRing;
use repo_object::{Checked, Job};
use std::marker::Model;

/// A fetcher with a seat at a board of jobs.
#[derive(Drop)]
pub struct Worker<T> {
    pub(crate) seat: Seat<T>,
    // The item at which its rounds begin.
    pub(crate) first: usize,
}

// A worker is seen as its seat.
impl<T> Model for Worker<T> {
    ghost use Rattle.fetch_board.specs.Seats.{SeatData};

    ghost Value = { SeatData T };

    ghost view = { λ w. w.seat };
}

impl<T> Worker<T> {
    pub fn new(seat: Seat<T>) -> Worker<T>
        ensures { result ≡ seat }
    {
        Worker::beginning_at(seat, 0)
    }

    /// A worker whose rounds begin at item `first`, so that workers that begin together meet different items.
    pub(crate) fn beginning_at(seat: Seat<T>, first: usize) -> Worker<T>
        ensures { result ≡ seat }
    {
        Worker { seat, first }
    }

    pub fn into_seat(self) -> Seat<T>
        ensures { result ≡ self }
    {
        let Worker { seat, first: _ } = self;
        seat
    }
}

impl<'p> Worker<Checked<'p>> {
    /// Tries the jobs of a board, item `i` being job `i`, until none of them is wanted any more.
    ///
    /// It allocates nothing. It makes at most one attempt for each item and each of its tries, and goes round the items
    /// at most once more than that.
    pub fn work<L: Link>(
        &mut self,
        board: &Board<Checked<'p>>,
        link: &'p L,
        jobs: &'p [Job],
        ring: &'p KeyRing,
    )
        requires seat { IsSeatOf board.now self.old × HasNothing self.old }
        requires count { length jobs.now ≡ board.now.items }
        requires jobs { All (λ job. CanBeTried (length ring.now) board.now.tries job) jobs.now }
        ensures seat { IsSeatOf board.now self.new }
        ensures shares { self.new.shares ≡ self.old.shares }
        ensures rests { Rests self.new }
        ensures passed { (i : ℕ) → i < length jobs.now → 0 < items i self.new.passed }
        ensures tried { HasTried (λ i. packet_at (L.answer link.now) ring.now (job_at jobs.now i)) (length jobs.now)
            board.now.tries self.new }
    {
        let trial = LinkTrial { link, jobs, ring };
        work(board, &mut self.seat, &trial, jobs.len(), self.first);
    }
}

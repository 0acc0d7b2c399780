use crate::seat_knowledge::SeatKnowledge;
use std::marker::Model;

/// A right to take part in the work of one board. It has no bytes, and may go to another thread.
#[derive(Drop)]
pub struct Seat<T> {
    pub(crate) inner: atomic_table::Seat<Option<T>, SeatKnowledge<T>>,
}

// What it knows.
impl<T> Model for Seat<T> {
    ghost use Rattle.fetch_board.specs.Seats.{SeatData};

    ghost Value = { SeatData T };

    ghost use Rattle.fetch_board.specs.Steps.{data_of, IsBetweenCalls};

    ghost view = { λ s. data_of s.inner.table_id s.inner.me.0 };

    ghost invariant = { λ s. IsBetweenCalls s.inner.me };
}

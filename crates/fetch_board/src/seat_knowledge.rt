use crate::word::Word;
use std::collections::LinkedList;

// What a seat knows, for the rule. A program makes no value of it.
pub(crate) struct SeatKnowledge<T> {
    pub tries: u32,
    pub shares: u64,
    pub held: LinkedList<(usize, u32)>,
    pub placing: LinkedList<(usize, u32)>,
    pub done: LinkedList<(usize, u32, T)>,
    pub spent: LinkedList<usize>,
    pub tried: LinkedList<(usize, u32)>,
    pub owed: LinkedList<usize>,
    pub passed: LinkedList<usize>,
    pub seen: LinkedList<(usize, u32)>,
    pub learnt: Option<(usize, Word)>,
}

use live_member::Lists;
use std::marker::Brand;
use std::sync::ledger::Ledger;

/// What a run stands for, the ledger of its tickets, and how many turns each fetcher makes.
pub trait Run: Lists + Ledger {
    ghost use Rattle.std.specs.Prelude.{ℕ};

    ghost turns: { ℕ };
}

impl Run for Brand {
    ghost turns = { 0 };
}

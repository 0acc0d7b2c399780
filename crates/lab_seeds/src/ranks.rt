ghost use Rattle.std.specs.Prelude.{◌≡◌, ◌<◌, length, IfOk};
ghost use Rattle.lab_seeds.specs.Ranks.{greatest, least, median, ranks_among};

use crate::figures::Figures;
use std::alloc::{AllocError, Global};

// The least, the median and the greatest of figures, number by number.
#[derive(Clone, Copy)]
pub(crate) struct Ranks {
    pub(crate) least: Figures,
    pub(crate) median: Figures,
    pub(crate) greatest: Figures,
}

// The least, the median and the greatest of one kind of number.
#[derive(Clone, Copy)]
struct Rank {
    least: u64,
    median: u64,
    greatest: u64,
}

// The ranks of some figures.
pub(crate) fn ranks_of(alloc: Global, all: &[Figures]) -> Result<Ranks, AllocError>
    requires { 0 < length all.now }
    ensures { IfOk result (λ ranks. ranks ≡ ranks_among all.now) }
{
    let syncs = rank_of(all.iter().map(|f| f.syncs).collect(alloc)?);
    let delivered = rank_of(all.iter().map(|f| f.delivered).collect(alloc)?);
    let attempts = rank_of(all.iter().map(|f| f.attempts).collect(alloc)?);
    let parts = rank_of(all.iter().map(|f| f.parts).collect(alloc)?);
    let octets = rank_of(all.iter().map(|f| f.octets).collect(alloc)?);
    let listed = rank_of(all.iter().map(|f| f.listed).collect(alloc)?);
    Ok(Ranks {
        least: Figures {
            syncs: syncs.least,
            delivered: delivered.least,
            attempts: attempts.least,
            parts: parts.least,
            octets: octets.least,
            listed: listed.least,
        },
        median: Figures {
            syncs: syncs.median,
            delivered: delivered.median,
            attempts: attempts.median,
            parts: parts.median,
            octets: octets.median,
            listed: listed.median,
        },
        greatest: Figures {
            syncs: syncs.greatest,
            delivered: delivered.greatest,
            attempts: attempts.greatest,
            parts: parts.greatest,
            octets: octets.greatest,
            listed: listed.greatest,
        },
    })
}

// The ranks of some numbers, which are sorted for it.
fn rank_of(mut numbers: Vec<u64>) -> Rank
    requires { 0 < length numbers.items }
    ensures least { result.least ≡ least numbers.items }
    ensures median { result.median ≡ median numbers.items }
    ensures greatest { result.greatest ≡ greatest numbers.items }
{
    numbers.sort_unstable();
    let last = numbers.len() - 1;
    Rank {
        least: numbers[0],
        median: numbers[last / 2],
        greatest: numbers[last],
    }
}

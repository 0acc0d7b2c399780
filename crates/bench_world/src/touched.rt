// The publications of which somebody gained something since some time.
ghost use Rattle.std.specs.Prelude.{◌≡◌, true, false, []};
ghost use Rattle.repo_plan.specs.Parts.{pair_of};
ghost use Rattle.repo_plan.specs.Leaps.{IsLeastFrom};
ghost use Rattle.bench_world.specs.Touching.{touches, Notes};

use repo_plan::Part;
use sorted_lists::SortedMap;
use std::alloc::Global;

/// A set of publications that were touched, or all publications.
#[derive(Drop)]
pub(crate) struct Touched {
    all: bool,
    publications: SortedMap<(u32, u16), ()>,
}

impl Touched {
    /// No publication is touched.
    pub(crate) fn none(alloc: Global) -> Touched
        ensures all { result.all ≡ false }
        ensures publications { result.publications.entries ≡ [] }
    {
        Touched {
            all: false,
            publications: SortedMap::new(alloc),
        }
    }

    /// Every publication is touched.
    pub(crate) fn all(alloc: Global) -> Touched
        ensures { result.all ≡ true }
    {
        Touched {
            all: true,
            publications: SortedMap::new(alloc),
        }
    }

    /// Whether the publication of the part is touched.
    pub(crate) fn has(&self, part: Part) -> bool
        ensures { result ≡ touches self.now (pair_of part) }
    {
        self.all || self.publications.get((part.publisher, part.seq)).is_some()
    }

    /// The least part of a touched publication that is not below `part`.
    pub(crate) fn first_from(&self, part: Part) -> Option<Part>
        ensures { IsLeastFrom (λ u. touches self.now (pair_of u)) part result }
    {
        if self.has(part) {
            return Some(part);
        }
        match self.publications.first_from((part.publisher, part.seq)) {
            Some(((publisher, seq), _)) => Some(Part {
                publisher,
                seq,
                part: 0,
            }),
            None => None,
        }
    }

    /// Notes the publication as touched. Where there is no memory to note it, all are touched from then on.
    pub(crate) fn note(&mut self, publisher: u32, seq: u16)
        ensures { Notes self.old (publisher, seq) self.new }
    {
        if self.all {
            return;
        }
        match self.publications.reserve(1) {
            Ok(()) => self.publications.insert((publisher, seq), ()),
            Err(_) => self.all = true,
        }
    }
}

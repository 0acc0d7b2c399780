ghost use Rattle.std.specs.Prelude.{◌≡◌, map, IfOk, OnOk, OnErr};
ghost use Rattle.repo_catalog.specs.Entries.{publication_of, IsCatalogue};
ghost use Rattle.repo_watch.specs.Watching.{watching, news, with_news};

use crate::announced::{add, pass};
use crate::filter::Filter;
use crate::pattern::Pattern;
use repo_catalog::{Catalogue, Entry};
use std::alloc::{AllocError, Global};
use std::marker::Model;

// One watcher.
#[derive(Debug, Drop)]
pub(crate) struct Watcher {
    pattern: Pattern,
    announced: Vec<(u32, u16)>,
}

impl Model for Watcher {
    ghost use Rattle.repo_plan.specs.Parts.{pair_cmp};
    ghost use Rattle.sorted_lists.specs.SortedList.{Rises};
    ghost use Rattle.repo_watch.specs.Watching.{Watching};

    ghost Value = { Watching };

    ghost view = { λ w. record { pattern = w.pattern; announced = w.announced.items } };

    ghost invariant = { λ w. Rises pair_cmp w.announced.items };
}

impl Watcher {
    // A watcher that counts as reported what is catalogued already.
    pub(crate) fn new(
        alloc: Global,
        pattern: Pattern,
        catalogue: &Catalogue,
    ) -> Result<Watcher, AllocError>
        ensures { IfOk result (λ w. w ≡ watching pattern catalogue.now.entries) }
    {
        let announced = publications(alloc, catalogue.entries())?;
        Ok(Watcher { pattern, announced })
    }

    // Tells the news of a catalogue.
    pub(crate) fn take(
        &mut self,
        alloc: Global,
        filter: &Filter,
        catalogue: &Catalogue,
    ) -> Result<Vec<(u32, u16)>, AllocError>
        ensures news { IfOk result (λ pairs. pairs.items ≡ news self.old catalogue.now.entries) }
        ensures ok { OnOk result (self.new ≡ with_news self.old catalogue.now.entries) }
        ensures err { OnErr result (self.new ≡ self.old) }
    {
        let pairs = self.news(alloc, filter, catalogue.entries())?;
        add(alloc, &mut self.announced, &pairs)?;
        Ok(pairs)
    }

    // The publications of these entries that the pattern accepts and that were not reported, in one pass over both. The
    // rule is asked of those alone that were not reported.
    fn news(
        &self,
        alloc: Global,
        filter: &Filter,
        entries: &[Entry],
    ) -> Result<Vec<(u32, u16)>, AllocError>
        requires { IsCatalogue entries.now }
        ensures { IfOk result (λ pairs. pairs.items ≡ news self.now entries.now) }
    {
        let mut pairs = Vec::new(alloc);
        let mut announced = self.announced.as_slice();
        for entry in entries {
            let pair = (entry.publisher, entry.seq);
            let (was_announced, after) = pass(announced, pair);
            if !was_announced && filter.wants(&self.pattern, entry.publisher, &entry.name) {
                pairs.push(pair)?;
            }
            announced = after;
        }
        Ok(pairs)
    }
}

// The publications of these entries.
fn publications(alloc: Global, entries: &[Entry]) -> Result<Vec<(u32, u16)>, AllocError>
    ensures { IfOk result (λ pairs. pairs.items ≡ map publication_of entries.now) }
{
    entries
        .iter()
        .map(|entry| (entry.publisher, entry.seq))
        .collect(alloc)
}

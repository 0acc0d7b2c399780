// The totals of the objects of entries.
ghost use Rattle.std.specs.Prelude.{◌≡◌, ◌∷◌, [], List};
ghost use Rattle.repo_catalog.specs.EntryTotals.{totals_of};

use crate::entry::Entry;

// How many segments and octets the objects of some entries have together, both modulo 2^64. So no sum is too large to
// be kept, and one that is below 2^64 is exact, whatever came and went before.
#[derive(Debug, Drop)]
pub(crate) struct EntryTotals {
    pub(crate) segments: u64,
    pub(crate) octets: u64,
}

impl EntryTotals {
    // The sums of no entries.
    pub(crate) fn new() -> EntryTotals
        ensures { result ≡ totals_of [] }
    {
        EntryTotals {
            segments: 0,
            octets: 0,
        }
    }

    // The sums with one more entry.
    pub(crate) fn add(&mut self, entry: &Entry)
        ensures { (es : List Entry) → self.old ≡ totals_of es → self.new ≡ totals_of (entry.now ∷ es) }
    {
        self.segments = self.segments.wrapping_add(u64::from(entry.segments));
        self.octets = self.octets.wrapping_add(entry.octets);
    }

    // The sums without one of their entries.
    pub(crate) fn subtract(&mut self, entry: &Entry)
        ensures { (es : List Entry) → self.old ≡ totals_of (entry.now ∷ es) → self.new ≡ totals_of es }
    {
        self.segments = self.segments.wrapping_sub(u64::from(entry.segments));
        self.octets = self.octets.wrapping_sub(entry.octets);
    }
}

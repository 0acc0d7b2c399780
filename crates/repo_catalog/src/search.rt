// Where entries stand that are in order, and which publications are among others.
ghost use Rattle.std.specs.Prelude.{◌≡◌, length};
ghost use Rattle.std.specs.List.Sorted.{IsSearchInRange, IsBinarySearchResult};
ghost use Rattle.sorted_lists.specs.SortedList.{Rises, contains};
ghost use Rattle.repo_plan.specs.Parts.{pair_cmp};
ghost use Rattle.repo_catalog.specs.Entries.{beside};

use crate::entry::Entry;

// Where the entry of a publication stands, or else would stand.
pub(crate) fn place_of(entries: &[Entry], pair: (u32, u32)) -> Result<usize, usize>
    ensures bound { IsSearchInRange result (length entries.now) }
    ensures position { IsBinarySearchResult (beside pair) entries.now result }
{
    entries.binary_search_by_key(&pair, |entry| (entry.publisher, u32::from(entry.seq)))
}

// Whether a publication is among some, which are in order.
pub(crate) fn is_among(publications: &[(u32, u16)], pair: (u32, u16)) -> bool
    ensures { Rises pair_cmp publications.now → result ≡ contains pair_cmp publications.now pair }
{
    publications.binary_search(&pair).is_ok()
}

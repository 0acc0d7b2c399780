ghost use Rattle.repo_catalog.specs.Laws.{AddsOne, RemovesOne, AddsAll, RemovesAll, EntriesTellAll, FirstIsLeast};

/// An entry that is added is found under its publisher and number, where there was none, and every other entry as
/// before.
pub fn added_entries_are_found()
    ensures { AddsOne }
{}

/// An entry that is removed is found no more, and every other entry as before.
pub fn removed_entries_are_gone()
    ensures { RemovesOne }
{}

/// After entries are added together, a publication has the entry that it had, or else the first of these.
pub fn entries_added_together_are_found()
    ensures { AddsAll }
{}

/// Publications whose entries are removed together have none, and all others theirs as before.
pub fn entries_removed_together_are_gone()
    ensures { RemovesAll }
{}

/// Catalogues that have the same entry for each publisher and number are the same.
pub fn entries_tell_all_of_a_catalogue()
    ensures { EntriesTellAll }
{}

/// The first entry of a name is that of the least publisher and number.
pub fn first_named_is_least()
    ensures { FirstIsLeast }
{}

// Look-ups by name, in the index and among what waits for its place there.
ghost use Rattle.std.specs.Prelude.{◌≡◌, true, Some, IfOk, option_map};
ghost use Rattle.std.specs.List.{filter};
ghost use Rattle.sorted_lists.specs.Least.{IsFirstBy, IsFirstThat, lesser_by};
ghost use Rattle.repo_plan.specs.Parts.{pair_cmp};
ghost use Rattle.repo_catalog.specs.Entries.{publication_of, entry_of, lists, first_named, all_named, IsCatalogue};
ghost use Rattle.repo_catalog.specs.NameKeys.{hash_of, has_name, IsIndexOf, IsSoughtKey};

use crate::entry::Entry;
use crate::name_index::{NameIndex, name_hash};
use crate::search::place_of;
use ndn_name::NameView;
use std::alloc::{AllocError, Global};

// The least publication whose object has the name.
pub(crate) fn first_named(
    names: &NameIndex,
    entries: &[Entry],
    name: &NameView<'_>,
) -> Option<(u32, u16)>
    requires in_order { IsCatalogue entries.now }
    requires indexed { IsIndexOf entries.now names.now.keys names.now.waiting }
    ensures { result ≡ option_map publication_of (first_named name.now entries.now) }
{
    lesser(
        first_indexed(names, entries, name, name_hash(name), (0, 0)),
        first_waiting(names.waiting(), entries, name),
    )
}

// The publications whose objects have the name, in order. Those that wait are collected once and sorted in among the
// others. One may wait twice, where its entry was removed and added again.
pub(crate) fn all_named(
    alloc: Global,
    names: &NameIndex,
    entries: &[Entry],
    name: &NameView<'_>,
) -> Result<Vec<(u32, u16)>, AllocError>
    requires in_order { IsCatalogue entries.now }
    requires indexed { IsIndexOf entries.now names.now.keys names.now.waiting }
    ensures { IfOk result (λ pairs. pairs.items ≡ all_named name.now entries.now) }
{
    let mut pairs = all_waiting(alloc, names.waiting(), entries, name)?;
    let hash = name_hash(name);
    let mut from = (0, 0);
    while let Some((publisher, seq)) = first_indexed(names, entries, name, hash, from) {
        pairs.push((publisher, seq))?;
        from = (publisher, u32::from(seq) + 1);
    }
    pairs.sort_unstable();
    pairs.dedup();
    Ok(pairs)
}

// The least publication from this one on, of those whose keys are in the index, whose object has the name, which has
// the hash.
fn first_indexed(
    names: &NameIndex,
    entries: &[Entry],
    name: &NameView<'_>,
    hash: u64,
    from: (u32, u32),
) -> Option<(u32, u16)>
    requires hash { hash ≡ hash_of name.now }
    requires in_order { IsCatalogue entries.now }
    requires indexed { IsIndexOf entries.now names.now.keys names.now.waiting }
    ensures { IsFirstBy pair_cmp (λ p. p) (IsSoughtKey name.now from entries.now names.now.keys) result }
{
    let mut from = from;
    while let Some((other, pair)) = names.first_from((hash, from)) {
        if other != hash {
            return None;
        }
        let entry = listed(entries, pair);
        if entry.name.view().compare(name).is_eq() {
            return Some((entry.publisher, entry.seq));
        }
        from = (entry.publisher, u32::from(entry.seq) + 1);
    }
    None
}

// The least publication, of those that wait, whose object has the name.
fn first_waiting(
    waiting: &[(u32, u16)],
    entries: &[Entry],
    name: &NameView<'_>,
) -> Option<(u32, u16)>
    requires { IsCatalogue entries.now }
    ensures { IsFirstThat pair_cmp (λ p. p) waiting.now (has_name name.now entries.now) result }
{
    let mut least = None;
    for publication in waiting {
        if has_name(entries, name, *publication) {
            least = lesser(least, Some(*publication));
        }
    }
    least
}

// The publications, of those that wait, whose objects have the name.
fn all_waiting(
    alloc: Global,
    waiting: &[(u32, u16)],
    entries: &[Entry],
    name: &NameView<'_>,
) -> Result<Vec<(u32, u16)>, AllocError>
    requires { IsCatalogue entries.now }
    ensures { IfOk result (λ pairs. pairs.items ≡ filter (has_name name.now entries.now) waiting.now) }
{
    let mut pairs = Vec::new(alloc);
    for publication in waiting {
        if has_name(entries, name, *publication) {
            pairs.push(*publication)?;
        }
    }
    Ok(pairs)
}

// Whether the publication has an entry, whose object has the name.
fn has_name(entries: &[Entry], name: &NameView<'_>, publication: (u32, u16)) -> bool
    requires { IsCatalogue entries.now }
    ensures { result ≡ has_name name.now entries.now publication }
{
    match place_of(entries, (publication.0, u32::from(publication.1))) {
        Ok(place) => entries[place].name.view().compare(name).is_eq(),
        Err(_) => false,
    }
}

// The lesser of two publications.
fn lesser(a: Option<(u32, u16)>, b: Option<(u32, u16)>) -> Option<(u32, u16)>
    ensures { result ≡ lesser_by pair_cmp (λ p. p) a b }
{
    match (a, b) {
        (Some(x), Some(y)) => { if x > y { Some(y) } else { Some(x) } }
        (None, other) => other,
        (some, None) => some,
    }
}

// The entry of a publication that has one.
fn listed(entries: &[Entry], pair: (u32, u32)) -> &Entry
    requires in_order { IsCatalogue entries.now }
    requires there { lists pair entries.now ≡ true }
    ensures { entry_of pair entries.now ≡ Some result.now }
{
    let place = place_of(entries, pair).unwrap();
    &entries[place]
}

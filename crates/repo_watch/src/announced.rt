// What a watcher was given: publications in order, each once.
ghost use Rattle.std.specs.Prelude.{◌≡◌, length, IfOk, OnOk, OnErr};
ghost use Rattle.std.specs.List.Sorted.{IsSearchInRange, IsBinarySearchResult};
ghost use Rattle.sorted_lists.specs.SortedList.{Rises, contains, insert_keys};
ghost use Rattle.repo_plan.specs.Parts.{pair_cmp};
ghost use Rattle.repo_watch.specs.Watching.{announced_after};

use std::alloc::{AllocError, Global};
use std::cmp::Ordering;

// Whether the publication is among them, beside those that stand after it. Who asks for publications in order, each
// time of those after the last one, compares one pair for each that was reported.
pub(crate) fn pass(announced: &[(u32, u16)], pair: (u32, u16)) -> (bool, &[(u32, u16)])
    requires { Rises pair_cmp announced.now }
    ensures announced { result.0 ≡ contains pair_cmp announced.now pair }
    ensures after { result.1.now ≡ announced_after pair announced.now }
{
    let Some((first, after)) = announced.split_first() else {
        return (false, announced);
    };
    match first.cmp(&pair) {
        Ordering::Less => search(after, pair),
        Ordering::Equal => (true, after),
        Ordering::Greater => (false, announced),
    }
}

// The same by halves.
fn search(announced: &[(u32, u16)], pair: (u32, u16)) -> (bool, &[(u32, u16)])
    requires { Rises pair_cmp announced.now }
    ensures announced { result.0 ≡ contains pair_cmp announced.now pair }
    ensures after { result.1.now ≡ announced_after pair announced.now }
{
    match place(announced, pair) {
        Ok(place) => (true, announced.split_at(place + 1).1),
        Err(place) => (false, announced.split_at(place).1),
    }
}

// Where the publication stands, or else would stand.
fn place(announced: &[(u32, u16)], pair: (u32, u16)) -> Result<usize, usize>
    ensures bound { IsSearchInRange result (length announced.now) }
    ensures position { IsBinarySearchResult (λ one. pair_cmp one pair) announced.now result }
{
    announced.binary_search_by_key(&pair, |&announced| announced)
}

// Adds publications that are in order too. Where all of them stand after those that were reported, they are appended.
pub(crate) fn add(
    alloc: Global,
    announced: &mut Vec<(u32, u16)>,
    pairs: &[(u32, u16)],
) -> Result<(), AllocError>
    requires rises { Rises pair_cmp announced.old.items }
    requires pairs_rise { Rises pair_cmp pairs.now }
    ensures ok { OnOk result (announced.new.items ≡ insert_keys pair_cmp pairs.now announced.old.items) }
    ensures err { OnErr result (announced.new.items ≡ announced.old.items) }
{
    let Some(&first) = pairs.first() else {
        return Ok(());
    };
    match place(announced, first) {
        Err(place) if place == announced.len() => announced.extend_from_slice(pairs),
        _ => {
            *announced = merged(alloc, announced, pairs)?;
            Ok(())
        }
    }
}

// Those that were reported, with others that are in order too, in one pass over both.
fn merged(
    alloc: Global,
    announced: &[(u32, u16)],
    pairs: &[(u32, u16)],
) -> Result<Vec<(u32, u16)>, AllocError>
    requires rises { Rises pair_cmp announced.now }
    requires pairs_rise { Rises pair_cmp pairs.now }
    ensures { IfOk result (λ all. all.items ≡ insert_keys pair_cmp pairs.now announced.now) }
{
    let mut all = Vec::with_capacity(alloc, announced.len())?;
    let mut rest = announced;
    for &pair in pairs {
        if let Err(place) = place(rest, pair) {
            let (before, after) = rest.split_at(place);
            all.extend_from_slice(before)?;
            all.push(pair)?;
            rest = after;
        }
    }
    all.extend_from_slice(rest)?;
    Ok(all)
}

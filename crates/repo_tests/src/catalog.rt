ghost use Rattle.std.specs.Prelude.{◌≡◌, ◌≤◌, length, IfOk};
ghost use Rattle.repo_catalog.specs.Entries.{AreApart};

use crate::expect::{is, same};
use ndn_name::{Name, NameFault};
use repo_catalog::*;
use std::process::Abort;
use std::test::*;

fn name_of(rt: &(impl Abort + AllocGlobal), uri: &str) -> Name {
    Name::from_uri(rt.alloc(), uri).expect(rt, "a name")
}

// An entry of an object of two segments, whose name is given as its URI.
fn entry(rt: &impl AllocGlobal, publisher: u32, seq: u16, uri: &str) -> Result<Entry, NameFault>
    ensures { IfOk result (λ e. (e.publisher ≡ publisher) × (e.seq ≡ seq) × (e.segments ≡ 2) × (e.octets ≡ 300)) }
{
    Ok(Entry {
        publisher,
        seq,
        name: Name::from_uri(rt.alloc(), uri)?,
        segments: 2,
        octets: 300,
        digest: [7; 32],
    })
}

// The same, which is there.
fn made(rt: &(impl Abort + AllocGlobal), publisher: u32, seq: u16, uri: &str) -> Entry
    ensures publication { (result.publisher ≡ publisher) × (result.seq ≡ seq) }
    ensures sizes { (result.segments ≡ 2) × (result.octets ≡ 300) }
{
    entry(rt, publisher, seq, uri).expect(rt, "an entry")
}

// Publisher, number, name, and whether the entry is added.
const ADDED: [(u32, u16, &str, bool); 6] = [
    (1, 2, "/b", true),
    (0, 7, "/a", true),
    (1, 2, "/c", false),
    (0, 9, "/b", true),
    (1, 1, "/a", true),
    (0, 7, "/a", false),
];

// Their order.
const LISTED: [(u32, u16); 4] = [(0, 7), (0, 9), (1, 1), (1, 2)];

// The first entry of each name.
const FIRST: [(&str, Option<(u32, u16)>); 3] = [
    ("/a", Some((0, 7))),
    ("/b", Some((0, 9))),
    ("/c", None),
];

// The same without that of publisher 0 and number 9.
const LEFT: [(&str, Option<(u32, u16)>); 3] = [
    ("/a", Some((0, 7))),
    ("/b", Some((1, 2))),
    ("/c", None),
];

fn filled(rt: &(impl Abort + AllocGlobal)) -> Catalogue {
    let mut catalogue = Catalogue::new(rt.alloc());
    for (publisher, seq, uri, added) in &ADDED {
        adds(rt, &mut catalogue, made(rt, *publisher, *seq, uri), *added);
    }
    catalogue
}

fn adds(rt: &impl Abort, catalogue: &mut Catalogue, entry: Entry, added: bool) {
    let is_added = catalogue.add(entry).expect(rt, "memory");
    is(rt, is_added == added, "added");
}

// Those with five more, of which that of publisher 0 and number 9 is there already.
const MERGED: [(u32, u16); 8] = [
    (0, 1),
    (0, 7),
    (0, 9),
    (1, 1),
    (1, 2),
    (2, 3),
    (2, 9),
    (3, 1),
];

// Publications that are removed together. The last has no entry.
const GONE: [(u32, u16); 3] = [(0, 1), (1, 1), (1, 9)];

// What is left, and one that was removed and is added again.
const KEPT: [(u32, u16); 7] = [(0, 7), (0, 9), (1, 1), (1, 2), (2, 3), (2, 9), (3, 1)];

fn compare_order(rt: &impl Abort, catalogue: &Catalogue, pairs: &[(u32, u16)]) {
    same(rt, catalogue.entries().len(), pairs.len(), "entries");
    for (entry, pair) in catalogue.entries().iter().zip(pairs) {
        same(rt, (entry.publisher, entry.seq), *pair, "an entry");
        is(
            rt,
            catalogue.entry(pair.0, pair.1) == Some(entry),
            "the entry",
        );
    }
    is(rt, catalogue.entry(1, 3).is_none(), "no entry");
}

fn compare_named(
    rt: &(impl Abort + AllocGlobal),
    catalogue: &Catalogue,
    uri: &str,
    pairs: &[(u32, u16)],
) {
    let name = name_of(rt, uri);
    let named = catalogue
        .named(rt.alloc(), &name.view())
        .expect(rt, "memory");
    same(rt, named.as_slice(), pairs, uri);
}

// Five entries in no order.
fn fresh(rt: &impl AllocGlobal) -> Result<Vec<Entry>, NameFault>
    ensures apart { IfOk result (λ fresh. AreApart fresh.items) }
    ensures len { IfOk result (λ fresh. length fresh.items ≡ 5) }
{
    let first = entry(rt, 2, 3, "/a")?;
    let second = entry(rt, 0, 9, "/d")?;
    let third = entry(rt, 0, 1, "/b")?;
    let fourth = entry(rt, 3, 1, "/c")?;
    let fifth = entry(rt, 2, 9, "/a")?;
    let mut fresh = Vec::new(rt.alloc());
    fresh.push(first)?;
    fresh.push(second)?;
    fresh.push(third)?;
    fresh.push(fourth)?;
    fresh.push(fifth)?;
    Ok(fresh)
}

// One entry.
fn alone(rt: &impl AllocGlobal) -> Result<Vec<Entry>, NameFault>
    ensures apart { IfOk result (λ fresh. AreApart fresh.items) }
    ensures len { IfOk result (λ fresh. length fresh.items ≡ 1) }
{
    let first = entry(rt, 1, 1, "/a")?;
    let mut fresh = Vec::new(rt.alloc());
    fresh.push(first)?;
    Ok(fresh)
}

fn compare_first(
    rt: &(impl Abort + AllocGlobal),
    catalogue: &Catalogue,
    names: &[(&str, Option<(u32, u16)>)],
) {
    for (uri, first) in names {
        let name = name_of(rt, uri);
        same(rt, catalogue.first_named(&name.view()), *first, uri);
    }
}

#[test]
fn objects_by_publisher_and_number(rt: HostRuntime) {
    let mut catalogue = filled(&rt);
    compare_order(&rt, &catalogue, &LISTED);
    compare_first(&rt, &catalogue, &FIRST);
    is(&rt, catalogue.remove(0, 9), "removed");
    is(&rt, !catalogue.remove(0, 9), "removed before");
    compare_first(&rt, &catalogue, &LEFT);
}

#[test]
fn many_objects_at_once(rt: HostRuntime) {
    let mut catalogue = filled(&rt);
    catalogue.reserve(5).expect(&rt, "memory");
    add_fresh(&rt, &mut catalogue);
    compare_order(&rt, &catalogue, &MERGED);
    compare_named(&rt, &catalogue, "/a", &[(0, 7), (1, 1), (2, 3), (2, 9)]);
    compare_named(&rt, &catalogue, "/b", &[(0, 1), (0, 9), (1, 2)]);
    compare_named(&rt, &catalogue, "/d", &[]);
    catalogue.remove_all(&GONE);
    compare_named(&rt, &catalogue, "/b", &[(0, 9), (1, 2)]);
    catalogue.reserve(1).expect(&rt, "memory");
    add_one_again(&rt, &mut catalogue);
    compare_order(&rt, &catalogue, &KEPT);
    compare_named(&rt, &catalogue, "/a", &[(0, 7), (1, 1), (2, 3), (2, 9)]);
    compare_indexed(&rt, &mut catalogue);
}

// The removal puts all names into the index. Then that of the entry which is added waits.
fn compare_indexed(rt: &(impl Abort + AllocGlobal), catalogue: &mut Catalogue) {
    is(rt, catalogue.remove(1, 1), "removed");
    compare_named(rt, catalogue, "/a", &[(0, 7), (2, 3), (2, 9)]);
    catalogue.reserve(1).expect(rt, "memory");
    add_one_again(rt, catalogue);
    compare_named(rt, catalogue, "/a", &[(0, 7), (1, 1), (2, 3), (2, 9)]);
}

fn add_fresh(rt: &(impl Abort + AllocGlobal), catalogue: &mut Catalogue)
    requires { 5 ≤ catalogue.old.spare }
{
    let mut more = fresh(rt).expect(rt, "entries");
    catalogue.add_all_reserved(&mut more);
    is(rt, more.is_empty(), "moved");
}

// No name is in the index yet. That of an entry that was removed and is added again waits twice.
fn add_one_again(rt: &(impl Abort + AllocGlobal), catalogue: &mut Catalogue)
    requires { 1 ≤ catalogue.old.spare }
{
    let mut more = alone(rt).expect(rt, "an entry");
    catalogue.add_all_reserved(&mut more);
    is(rt, more.is_empty(), "moved");
}

#[test]
fn room_totals_and_equality(rt: HostRuntime) {
    let mut catalogue = Catalogue::new(rt.alloc());
    catalogue.reserve(3).expect(&rt, "memory");
    assert!(rt; catalogue.add_reserved(made(&rt, 3, 1, "/z")));
    assert!(rt; !catalogue.add_reserved(made(&rt, 3, 1, "/y")));
    assert!(rt; catalogue.add_reserved(made(&rt, 2, 5, "/z")));
    same(&rt, catalogue.totals(), (2, 4, 600), "totals");
    is_made_again(&rt, &catalogue);
}

// A catalogue of the same entries, which come in another order.
fn is_made_again(rt: &(impl Abort + AllocGlobal), catalogue: &Catalogue) {
    let mut other = Catalogue::new(rt.alloc());
    adds(rt, &mut other, made(rt, 2, 5, "/z"), true);
    is(rt, !other.same(catalogue), "one entry");
    adds(rt, &mut other, made(rt, 3, 1, "/z"), true);
    is(rt, other.same(catalogue), "both entries");
}

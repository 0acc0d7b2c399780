ghost use Rattle.std.specs.Prelude.{◌≡◌};
ghost use Rattle.repo_watch.specs.Patterns.{accepts, is_publisher, begins_with};

use crate::expect::{is, same};
use ndn_name::Name;
use repo_catalog::{Catalogue, Entry};
use repo_watch::{Filter, Pattern, TakeFault, Watchers};
use std::process::Abort;
use std::test::*;

// Whether the pattern accepts the publisher's object of this name.
pub(crate) fn is_for(pattern: &Pattern, publisher: u32, name: &Name) -> bool
    ensures { result ≡ accepts pattern.now publisher name.now }
{
    is_publisher(pattern.publisher, publisher) && begins_with(&pattern.prefix, name)
}

fn is_publisher(asked: Option<u32>, publisher: u32) -> bool
    ensures { result ≡ is_publisher asked publisher }
{
    match asked {
        None => true,
        Some(asked) => asked == publisher,
    }
}

fn begins_with(prefix: &Name, name: &Name) -> bool
    ensures { result ≡ begins_with prefix.now name.now }
{
    prefix.view().is_prefix_of(&name.view())
}

fn name_of(rt: &(impl Abort + AllocGlobal), uri: &str) -> Name {
    Name::from_uri(rt.alloc(), uri).expect(rt, "a name")
}

fn list(
    rt: &(impl Abort + AllocGlobal),
    catalogue: &mut Catalogue,
    publisher: u32,
    seq: u16,
    uri: &str,
) {
    let entry = Entry {
        publisher,
        seq,
        name: name_of(rt, uri),
        segments: 1,
        octets: 3,
        digest: [7; 32],
    };
    catalogue.add(entry).expect(rt, "memory");
}

// Who asks for the objects of a publisher, or of all, under a prefix gets this number.
fn compare_add(
    rt: &(impl Abort + AllocGlobal),
    watchers: &mut Watchers,
    catalogue: &Catalogue,
    (publisher, uri): (Option<u32>, &str),
    number: u32,
) {
    let prefix = name_of(rt, uri);
    let added = watchers.add(Pattern { publisher, prefix }, catalogue);
    same(rt, added, Ok(number), uri);
}

// The watcher is given these publications. There is no third one.
fn compare_take(
    rt: &(impl Abort + AllocGlobal),
    watchers: &mut Watchers,
    catalogue: &Catalogue,
    number: u32,
    pairs: &[(u32, u16)],
) {
    let filter = Filter::new(|pattern: &Pattern, publisher: u32, name: &Name| {
        is_for(pattern, publisher, name)
    });
    let reported = watchers
        .take(rt.alloc(), number, &filter, catalogue)
        .expect(rt, "a watcher");
    same(rt, reported.as_slice(), pairs, "publications");
    let missing = watchers.take(rt.alloc(), 3, &filter, catalogue);
    is(
        rt,
        missing.err() == Some(TakeFault::NoSuchWatch),
        "no third watcher",
    );
}

fn compare_reported(
    rt: &(impl Abort + AllocGlobal),
    watchers: &mut Watchers,
    catalogue: &mut Catalogue,
) {
    list(rt, catalogue, 1, 1, "/doc/a");
    compare_add(rt, watchers, catalogue, (None, "/doc"), 1);
    compare_add(rt, watchers, catalogue, (Some(0), "/"), 2);
    list(rt, catalogue, 0, 1, "/x");
    list(rt, catalogue, 0, 2, "/doc");
    list(rt, catalogue, 1, 2, "/doc/b");
    compare_take(rt, watchers, catalogue, 1, &[(0, 2), (1, 2)]);
    compare_take(rt, watchers, catalogue, 1, &[]);
    catalogue.remove(1, 2);
    list(rt, catalogue, 1, 2, "/doc/b");
    list(rt, catalogue, 0, 3, "/doc/c");
    compare_take(rt, watchers, catalogue, 1, &[(0, 3)]);
    compare_take(rt, watchers, catalogue, 2, &[(0, 1), (0, 2), (0, 3)]);
}

#[test]
fn news_is_announced_once(rt: HostRuntime) {
    let mut catalogue = Catalogue::new(rt.alloc());
    let mut watchers = Watchers::new(rt.alloc());
    compare_reported(&rt, &mut watchers, &mut catalogue);
}

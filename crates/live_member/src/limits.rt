//! Which lists a live group may have.
ghost use Rattle.std.specs.Prelude.{ℕ, ◌≡◌, ◌≤◌, ◌*◌, ◌↔◌, IsTrue, List, map, length, sum_by};
ghost use Rattle.std.specs.List.{All};
ghost use Rattle.repo_object.specs.Objects.{IsObject};
ghost use Rattle.group_model.specs.Publications.{all_parts};
ghost use Rattle.live_member.specs.Meanings.{meaning_of, as_posts, object_limit, part_count, IsWithinLimits};

use repo_member::Group;
use repo_object::Object;
use repo_plan::Shape;

/// How many objects all lists together have at most.
pub const OBJECT_LIMIT: u32 = 200;

/// How many parts the objects of all lists together have at most: records, index packets and segments.
pub const PART_LIMIT: u32 = 4_000;

/// Whether `lists` can be the lists of a live group: one for each member, with at most 200 objects and 4,000 parts in
/// all.
pub fn are_within_limits(g: &Group, lists: &[Vec<Object>]) -> bool
    ensures { (draws : List ℕ) → IsTrue result
        ↔ IsWithinLimits (meaning_of g.now (map (λ l. l.items) lists.now) draws) }
{
    g.cite_soundness();
    if lists.len() != g.roster().len() || !are_few(lists) {
        return false;
    }
    count_parts(lists) <= PART_LIMIT
}

// Whether all lists together have at most 200 objects.
fn are_few(lists: &[Vec<Object>]) -> bool
    ensures { IsTrue result ↔ (sum_by length (map (λ l. l.items) lists.now) ≤ object_limit) }
{
    let mut left = OBJECT_LIMIT as usize;
    for list in lists {
        if left < list.len() {
            return false;
        }
        left -= list.len();
    }
    true
}

/// How many parts the objects of all lists have. There are at most 200 objects.
pub fn count_parts(lists: &[Vec<Object>]) -> u32
    requires { sum_by length (map (λ l. l.items) lists.now) ≤ object_limit }
    ensures parts { result ≡ length (all_parts (map as_posts (map (λ l. l.items) lists.now))) }
    ensures objects { All (λ l. All IsObject l.items) lists.now }
{
    let mut parts = 0;
    for list in lists {
        parts += count_in_list(list);
    }
    parts
}

// How many parts the objects of one list have.
fn count_in_list(list: &[Object]) -> u32
    requires { length list.now ≤ object_limit }
    ensures parts { result ≡ sum_by part_count list.now }
    ensures few { result ≤ length list.now * 131071 }
    ensures objects { All IsObject list.now }
{
    let mut parts = 0;
    for object in list {
        parts += part_count(object);
    }
    parts
}

// How many parts an object has.
fn part_count(object: &Object) -> u32
    ensures parts { result ≡ part_count object.now }
    ensures few { result ≤ 131071 }
    ensures object { IsObject object.now }
{
    let segments = object.contents().len();
    Shape::of(segments as u16).last_part() + 1
}

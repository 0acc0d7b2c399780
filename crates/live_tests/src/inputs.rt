// What tests of live groups begin with: the group of alice and bob, and objects.
ghost use Rattle.std.specs.Prelude.{ℕ, ◌≡◌, ◌<◌, ◌≤◌, List, ◌∷◌, []};
ghost use Rattle.repo_object.specs.Limits.{content_limit};
ghost use Rattle.repo_member.specs.Groups.{IsPlainNodeName};
ghost use Rattle.live_member.specs.Meanings.{meaning_of, IsWithinLimits};

use live_member::are_within_limits;
use ndn_name::Name;
use repo_member::Group;
use repo_object::{NODE_NAME_LIMIT, Object, cut, is_object_name};
use std::process::Abort;
use std::test::*;

pub(crate) const ALICE: u32 = 0;

pub(crate) const BOB: u32 = 1;

// The name of a group, a node or an object.
#[tactic(auto, using(crate::proofs::NodeNames::plain_name))]
fn name(rt: &(impl Abort + AllocGlobal), text: &str) -> Name
    ensures { IsPlainNodeName result }
{
    let name = Name::from_uri(rt.alloc(), text).expect(rt, "a name");
    assert!(rt; is_object_name(&name.view()));
    assert!(rt; name.octets().len() <= NODE_NAME_LIMIT);
    name
}

// The group "/g" of alice and bob.
pub(crate) fn two_members(rt: &(impl Abort + AllocGlobal)) -> Group {
    let mut g = Group::new(rt.alloc(), &name(rt, "/g")).expect(rt, "memory");
    assert_eq!(rt; g.add_member(&name(rt, "/alice"), b"k1"), Ok(ALICE));
    assert_eq!(rt; g.add_member(&name(rt, "/bob"), b"k2"), Ok(BOB));
    g
}

// An object with a segment for every `size` octets.
pub(crate) fn object(
    rt: &(impl Abort + AllocGlobal),
    text: &str,
    content: &[u8],
    size: usize,
) -> Object
    requires some { 0 < size }
    requires few { size ≤ content_limit }
{
    let name = name(rt, text);
    assert!(rt; is_object_name(&name.view()));
    let contents = cut(rt.alloc(), content, size).expect(rt, "few segments");
    Object::from_parts(name, contents)
}

pub(crate) fn pair<T: Drop>(rt: &(impl Abort + AllocGlobal), first: T, second: T) -> Vec<T>
    ensures { result.items ≡ first ∷ second ∷ [] }
{
    let mut both = Vec::new(rt.alloc());
    both.push(first).expect(rt, "memory");
    both.push(second).expect(rt, "memory");
    both
}

// The objects "/doc/a" and "/doc/b" of one segment each.
pub(crate) fn two_objects(rt: &(impl Abort + AllocGlobal)) -> Vec<Object> {
    let first = object(rt, "/doc/a", b"abc", 8000);
    let second = object(rt, "/doc/b", b"de", 8000);
    pair(rt, first, second)
}

// The lists of alice and bob again, which are within the limits.
pub(crate) fn limited(
    rt: &(impl Abort + AllocGlobal),
    g: &Group,
    alices: Vec<Object>,
    bobs: Vec<Object>,
) -> (Vec<Object>, Vec<Object>)
    ensures { (draws : List ℕ)
        → IsWithinLimits (meaning_of g.now (result.0.items ∷ result.1.items ∷ []) draws) }
{
    let mut lists = pair(rt, alices, bobs);
    assert!(rt; are_within_limits(g, &lists));
    let first = lists.remove(0);
    let second = lists.remove(0);
    (first, second)
}

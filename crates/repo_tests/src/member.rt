ghost use Rattle.std.specs.Prelude.{◌≡◌, ◌<◌, length};
ghost use Rattle.repo_member.specs.MemberState.{IsOfGroup};
ghost use Rattle.repo_member.specs.Groups.{HaveKeys, IsKey, IsPlainNodeName};

mod commands;
mod fetched;
mod withdrawn;
mod worked;

use crate::expect::{is, same, same_text};
use ndn_name::Name;
use repo_member::*;
use repo_object::{NODE_NAME_LIMIT, PartRefusal, is_object_name};
use std::fmt::Display;
use std::process::Abort;
use std::test::*;
use svs_sync::{Mode, SyncRefusal};
use worked::FIVE_OF_BOB;

const ALICE: u32 = 0;

const BOB: u32 = 1;

const CAROL: u32 = 2;

// The draw that each call is given. Each is made at time 0.
const DRAW: u32 = 100;

// The name of a group or a node.
#[tactic(auto, using(crate::proofs::NodeNames::plain_name))]
pub(crate) fn node_name(rt: &(impl Abort + AllocGlobal), text: &str) -> Name
    ensures { IsPlainNodeName result }
{
    let name = Name::from_uri(rt.alloc(), text).expect(rt, "a name");
    assert!(rt; is_object_name(&name.view()));
    assert!(rt; name.octets().len() <= NODE_NAME_LIMIT);
    name
}

// Adds a member of this name, or a client.
fn add(
    rt: &(impl Abort + AllocGlobal),
    g: &mut Group,
    text: &str,
    key: &[u8],
    is_client: bool,
) -> Result<u32, GroupFault>
    requires { IsKey key.now }
{
    let name = node_name(rt, text);
    if is_client {
        return g.add_client(&name, key);
    }
    g.add_member(&name, key)
}

// The group "/g" of alice, bob and carol.
pub(crate) fn three_members(rt: &(impl Abort + AllocGlobal)) -> Group
    ensures { length result.members.names ≡ 3 }
{
    let mut g = Group::new(rt.alloc(), &node_name(rt, "/g")).expect(rt, "memory");
    same(
        rt,
        add(rt, &mut g, "/alice", b"k1", false),
        Ok(ALICE),
        "add",
    );
    same(rt, add(rt, &mut g, "/bob", b"k2", false), Ok(BOB), "add");
    same(
        rt,
        add(rt, &mut g, "/carol", b"k3", false),
        Ok(CAROL),
        "add",
    );
    assert_eq!(rt; g.roster().len(), 3);
    g
}

// A member of this number that knows of nothing.
fn member(rt: &(impl Abort + AllocGlobal), g: &Group, number: u32) -> Member
    requires { number < length g.now.members.names }
{
    Member::new(rt.alloc(), g, number, 0, DRAW).expect(rt, "memory")
}

// What calls ask for: the group is the member's, and few draws were used.
fn ready(rt: &impl Abort, g: &Group, member: &Member)
    ensures group { IsOfGroup g.now member.now }
    ensures keys { HaveKeys g.now.members }
    ensures draws { member.now.machine.draws < 100000 }
{
    g.cite_soundness();
    assert!(rt; member.vector().members() == g.roster().len());
    assert!(rt; member.next_draw() < 100_000);
}

#[test]
fn nobody_reports_of_more_than_was_published(rt: HostRuntime) {
    let g = three_members(&rt);
    let mut bob = member(&rt, &g, BOB);
    refuses_five_of_its_own(&rt, &g, &mut bob);
    is_unchanged(&rt, &bob);
}

fn refuses_five_of_its_own(rt: &impl Abort, g: &Group, bob: &mut Member) {
    let ahead = HearRefusal::OwnNumberAhead { own: 0, told: 5 };
    ready(rt, g, bob);
    same(rt, bob.hear(g, &FIVE_OF_BOB, 0, DRAW), Err(ahead), "hear");
    ready(rt, g, bob);
    same(rt, bob.join_from(g, &FIVE_OF_BOB), Err(ahead), "join from");
}

fn is_unchanged(rt: &impl Abort, bob: &Member) {
    let vector = bob.vector();
    assert_eq!(rt; vector.members(), 3);
    same(
        rt,
        (vector.get(ALICE), vector.get(BOB), vector.get(CAROL)),
        (0, 0, 0),
        "get",
    );
    same(rt, (bob.log_len(), bob.mode()), (0, Mode::Steady), "mode");
    same(rt, bob.next_draw(), 1, "next draw");
    is(rt, bob.catalogue().entries().is_empty(), "entries");
}

#[test]
fn numbers_are_spent(rt: HostRuntime) {
    let g = three_members(&rt);
    let mut alice = member(&rt, &g, ALICE);
    spend_all(&rt, &g, &mut alice);
    same(
        &rt,
        (alice.log_len(), alice.next_draw()),
        (65_535, 65_536),
        "next draw",
    );
    same(&rt, alice.catalogue().entries().len(), 65_535, "entries");
    withdrawn::refuses_for_numbers(&rt, &g, &mut alice);
}

// Publishes an object without contents under each number.
fn spend_all(rt: &(impl Abort + AllocGlobal), g: &Group, alice: &mut Member) {
    let name = node_name(rt, "/e");
    for seq in 0..u16::MAX {
        let published = publish(rt, g, alice, &name).expect(rt, "a number");
        same(rt, published.seq, seq + 1, "seq");
    }
    let spent = PublishRefusal::NumbersSpent { log: 65_535 };
    same(
        rt,
        publish(rt, g, alice, &name).err(),
        Some(spent),
        "publish",
    );
}

// Publishes an object without contents.
fn publish(
    rt: &impl Abort,
    g: &Group,
    alice: &mut Member,
    name: &Name,
) -> Result<Published, PublishRefusal> {
    assert!(rt; is_object_name(&name.view()));
    ready(rt, g, alice);
    alice.publish(g, name, &[], 0, DRAW)
}

#[test]
fn groups_take_each_name_once_and_sixteen_members(rt: HostRuntime) {
    let mut g = three_members(&rt);
    take_each_name_once(&rt, &mut g);
    take_sixteen(&rt, &mut g);
}

fn take_each_name_once(rt: &(impl Abort + AllocGlobal), g: &mut Group) {
    same(rt, add(rt, g, "/carl", b"k", true), Ok(0), "add");
    for (name, is_client) in &[
        ("/alice", false),
        ("/alice", true),
        ("/carl", false),
        ("/carl", true),
    ] {
        let added = add(rt, g, name, b"k", *is_client);
        same(rt, added, Err(GroupFault::Duplicate), name);
    }
}

// With the members "/n/3" to "/n/15" the group is full, and takes clients still.
fn take_sixteen(rt: &(impl Abort + AllocGlobal), g: &mut Group) {
    for number in 3..16u32 {
        let name = format!(in rt.alloc(); "/n/{number}").expect(rt, "memory");
        same(rt, add(rt, g, &name, b"k", false), Ok(number), "add");
    }
    for (name, is_client, answer) in &[
        ("/n", false, Err(GroupFault::Full)),
        ("/bob", false, Err(GroupFault::Duplicate)),
        ("/n", true, Ok(1)),
    ] {
        same(rt, add(rt, g, name, b"k", *is_client), *answer, name);
    }
    assert_eq!(rt; g.roster().len(), 16);
}

// What is printed.
fn print<T: Display>(rt: &(impl Abort + AllocGlobal), printed: &T, text: &str) {
    let made = format!(in rt.alloc(); "{printed}").expect(rt, "memory");
    same_text(rt, &made, text);
}

fn print_faults(rt: &(impl Abort + AllocGlobal)) {
    let taken = "a member or a client has the name already";
    print(rt, &GroupFault::Duplicate, taken);
    print(rt, &GroupFault::Full, "there are 16 of its kind already");
    print(rt, &GroupFault::NoMemory, "out of memory");
    print(rt, &WantFault::FetcherIdle, "the fetcher claims no part");
    print(rt, &WantFault::NoMemory, "out of memory");
}

fn print_refusals(rt: &(impl Abort + AllocGlobal)) {
    let spent = PublishRefusal::NumbersSpent { log: 65_535 };
    let all = "all numbers are spent: the log has 65535 publications";
    print(rt, &spent, all);
    print(rt, &PublishRefusal::NoMemory, "out of memory");
    let none = WithdrawRefusal::NoSuchNumber { seq: 3 };
    print(
        rt,
        &none,
        "there is no object of number 3 that is not withdrawn",
    );
    print(rt, &WithdrawRefusal::NumbersSpent { log: 65_535 }, all);
    print(rt, &WithdrawRefusal::NoMemory, "out of memory");
    let ahead = HearRefusal::OwnNumberAhead { own: 0, told: 5 };
    let more = "5 publications of this member are told, and it made 0";
    print(rt, &ahead, more);
    let unsigned = HearRefusal::Sync(SyncRefusal::Unsigned);
    print(rt, &unsigned, "the Interest is not signed");
    print(rt, &HearRefusal::NoMemory, "out of memory");
}

fn print_refusals_of_parts(rt: &(impl Abort + AllocGlobal)) {
    let idle = AcceptRefusal::FetcherIdle;
    print(rt, &idle, "the fetcher claims no part");
    let bad_signature = AcceptRefusal::Refused(PartRefusal::BadSignature);
    let not_the_mac = "the signature is not the mac of what is signed";
    print(rt, &bad_signature, not_the_mac);
    print(rt, &AcceptRefusal::NoMemory, "out of memory");
}

#[test]
fn refusals_are_printed(rt: HostRuntime) {
    print_faults(&rt);
    print_refusals(&rt);
    print_refusals_of_parts(&rt);
}

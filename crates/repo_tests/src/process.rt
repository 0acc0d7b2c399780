ghost use Rattle.std.specs.Prelude.{◌-◌, ◌<◌, ◌≤◌, IsTrue};
ghost use Rattle.repo_object.specs.Objects.{is_object_name};

use crate::expect::{is, same, same_octets};
use ndn_name::Name;
use repo_object::is_object_name;
use repo_process::*;
use std::process::Abort;
use std::test::*;

// The name of the object that is inserted.
fn object_name(rt: &(impl Abort + AllocGlobal)) -> Name
    ensures { IsTrue (is_object_name result) }
{
    let name = Name::from_uri(rt.alloc(), "/in").expect(rt, "a name");
    assert!(rt; is_object_name(&name.view()));
    name
}

// A process of the blocks 5 and 6.
fn started(rt: &(impl Abort + AllocGlobal)) -> Processes {
    let mut processes = Processes::new(rt.alloc());
    let number = processes.start(&object_name(rt), 5, 6).expect(rt, "memory");
    same(rt, number, 1, "the first");
    processes
}

// The results of blocks, one after another: process, index, and the state of the process then.
const BLOCKS: [(u32, u64, BlockState); 8] = [
    (2, 5, BlockState::Unknown),
    (0, 5, BlockState::Unknown),
    (1, 4, BlockState::Unknown),
    (1, 7, BlockState::Unknown),
    (1, 6, BlockState::Kept { missing: 1 }),
    (1, 6, BlockState::Kept { missing: 1 }),
    (1, 5, BlockState::Complete),
    (1, 6, BlockState::Complete),
];

#[test]
fn blocks_come_in_any_order(rt: HostRuntime) {
    let mut processes = started(&rt);
    same(&rt, processes.status(1), Some((0, false)), "no block");
    for (process, index, state) in &BLOCKS {
        gives(&rt, &mut processes, *process, *index, *state);
    }
    same(&rt, processes.status(1), Some((2, false)), "both blocks");
    same(&rt, processes.status(2), None, "no process");
}

fn gives(rt: &impl Abort, processes: &mut Processes, process: u32, index: u64, state: BlockState) {
    let answered = processes.block(process, index, b"a").expect(rt, "memory");
    same(rt, answered, state, "a block");
}

// A process whose blocks have come: "ab", and then "c" and another one in its place.
fn complete(rt: &(impl Abort + AllocGlobal)) -> Processes {
    let mut processes = started(rt);
    processes.block(1, 6, b"c").expect(rt, "memory");
    processes.block(1, 6, b"another").expect(rt, "memory");
    processes.block(1, 5, b"ab").expect(rt, "memory");
    processes
}

#[test]
fn blocks_are_the_object(rt: HostRuntime) {
    let processes = complete(&rt);
    let object = processes.object(rt.alloc(), 1).expect(&rt, "memory");
    is_the_object(&rt, &object.expect(&rt, "an object"));
    let other = processes.object(rt.alloc(), 2).expect(&rt, "memory");
    is(&rt, other.is_none(), "no process");
}

fn is_the_object(rt: &impl Abort, object: &Blocks) {
    same_octets(rt, object.name.octets(), &[8, 2, 0x69, 0x6e], "name");
    let [first, second] = object.contents.as_slice() else {
        panic!(rt; "two contents");
    };
    same_octets(rt, first, b"ab", "first");
    same_octets(rt, second, b"c", "second");
}

#[test]
fn numbers_go_on(rt: HostRuntime) {
    let mut processes = started(&rt);
    starts(&rt, &mut processes, 0, 199, 2);
    same(&rt, processes.next(), Some(3), "next");
    processes.clear();
    same(&rt, processes.status(1), None, "cleared");
    starts(&rt, &mut processes, u64::MAX, u64::MAX, 3);
    same(&rt, processes.status(3), Some((0, false)), "the third");
    gives(&rt, &mut processes, 3, u64::MAX, BlockState::Complete);
}

// The next process, of these blocks, has this number.
fn starts(
    rt: &(impl Abort + AllocGlobal),
    processes: &mut Processes,
    first: u64,
    last: u64,
    number: u32,
)
    requires order { first ≤ last }
    requires few { last - first < 200 }
{
    let started = processes.start(&object_name(rt), first, last);
    same(rt, started.expect(rt, "memory"), number, "number");
}

#[test]
fn published_processes_keep_no_blocks(rt: HostRuntime) {
    let mut processes = complete(&rt);
    if processes.whole(1).is_some() {
        processes.published(1);
    }
    same(&rt, processes.status(1), Some((2, true)), "published");
    is(&rt, processes.whole(1).is_none(), "no blocks");
    gives(&rt, &mut processes, 1, 5, BlockState::Complete);
    gives(&rt, &mut processes, 1, 7, BlockState::Unknown);
}

#[test]
fn a_block_is_taken_back(rt: HostRuntime) {
    let mut processes = Processes::new(rt.alloc());
    processes
        .start(&object_name(&rt), 5, 5)
        .expect(&rt, "memory");
    assert!(rt; processes.completes(1, 5));
    is(&rt, !processes.completes(1, 6), "another block");
    is(&rt, !processes.completes(2, 5), "no process");
    processes.block(1, 5, b"a").expect(&rt, "memory");
    processes.take_back(1, 5);
    same(&rt, processes.status(1), Some((0, false)), "no block");
}

ghost use Rattle.std.specs.Prelude.{◌≡◌, ◌≤◌, IfOk};
ghost use Rattle.live_inbox.specs.Ends.{IsPortOf, IsMouthOf};

use live_inbox::*;
use std::alloc::{AllocError, Global};
use std::sync::Wait;
use std::test::*;
use std::thread::{Threads, join, yield_now};

// How often a thread tries before it gives up.
const TRIES: u32 = 100_000;

// What each of these puts and takes answers, at an inbox of two values.
#[derive(Drop)]
struct Answers {
    puts: [Result<(), u32>; 6],
    takes: [Option<u32>; 4],
}

fn in_turn<R: Wait>(
    rt: &R,
    inbox: &Inbox<u32>,
    one: &mut Port<u32>,
    two: &mut Port<u32>,
    mouth: &mut Mouth<u32>,
) -> Answers
    requires one { IsPortOf inbox.now one.old }
    requires two { IsPortOf inbox.now two.old }
    requires mouth { IsMouthOf inbox.now mouth.old }
    ensures one { IsPortOf inbox.now one.new }
    ensures two { IsPortOf inbox.now two.new }
    ensures mouth { IsMouthOf inbox.now mouth.new }
{
    let first = inbox.put(rt, one, 1);
    let second = inbox.put(rt, two, 2);
    let full = inbox.put(rt, one, 3);
    let prefix = inbox.take(rt, mouth);
    let room = inbox.put(rt, one, 3);
    let next = inbox.take(rt, mouth);
    let last = inbox.take(rt, mouth);
    let empty = inbox.take(rt, mouth);
    let third = inbox.put(rt, two, 4);
    let fourth = inbox.put(rt, one, 5);
    Answers {
        puts: [first, second, full, room, third, fourth],
        takes: [prefix, next, last, empty],
    }
}

fn answers_and_rest<R: Wait>(
    rt: &R,
    alloc: Global,
) -> Result<Option<(Answers, Vec<u32>)>, AllocError> {
    let (inbox, mut ports, mut mouth) = Inbox::<u32>::new(alloc, 2, 2)?;
    let Some(mut two) = ports.pop() else {
        return Ok(None);
    };
    let Some(mut one) = ports.pop() else {
        return Ok(None);
    };
    let answers = in_turn(rt, &inbox, &mut one, &mut two, &mut mouth);
    ports.push(one)?;
    ports.push(two)?;
    let left = inbox.close(rt, alloc, ports, mouth)?;
    Ok(Some((answers, left)))
}

#[test]
fn values_come_in_the_order_in_which_they_were_put(rt: HostRuntime) -> Result<(), Fail> {
    let (answers, left) = answers_and_rest(&rt, rt.alloc())?.expect(&rt, "two ports");
    assert!(rt; answers.puts == [Ok(()), Ok(()), Err(3), Ok(()), Ok(()), Ok(())]);
    assert!(rt; answers.takes == [Some(1), Some(2), Some(3), None]);
    assert!(rt; left.as_slice() == [4, 5].as_slice());
    Ok(())
}

// Puts up to `count` values, numbered from `first` on, into an inbox, and counts those that it took.
fn put_some<R: Wait>(
    rt: &R,
    inbox: &Inbox<u32>,
    port: &mut Port<u32>,
    first: u32,
    count: u32,
) -> u32
    requires values { (first ≤ 10000) × (count ≤ 10000) }
    requires port { IsPortOf inbox.now port.old }
    ensures port { IsPortOf inbox.now port.new }
{
    let mut put = 0;
    for _ in 0..TRIES {
        if put >= count {
            break;
        }
        match inbox.put(rt, port, first + put) {
            Ok(()) => put += 1,
            Err(_) => yield_now(),
        }
    }
    put
}

// Takes up to `count` values.
fn take_some<R: Wait>(
    rt: &R,
    alloc: Global,
    inbox: &Inbox<u32>,
    mouth: &mut Mouth<u32>,
    count: usize,
) -> Result<Vec<u32>, AllocError>
    requires mouth { IsMouthOf inbox.now mouth.old }
    ensures mouth { IsMouthOf inbox.now mouth.new }
{
    let mut taken = Vec::new(alloc);
    for _ in 0..TRIES {
        if taken.len() >= count {
            break;
        }
        match inbox.take(rt, mouth) {
            Some(value) => taken.push(value)?,
            None => yield_now(),
        }
    }
    Ok(taken)
}

fn largest<R: Wait>(
    rt: &R,
    alloc: Global,
) -> Result<Option<(u32, Vec<u32>, Vec<u32>)>, AllocError> {
    let (inbox, mut ports, mut mouth) = Inbox::<u32>::new(alloc, 64, 1)?;
    let Some(mut last) = ports.pop() else {
        return Ok(None);
    };
    let put = put_some(rt, &inbox, &mut last, 0, 65);
    let taken = take_some(rt, alloc, &inbox, &mut mouth, 2)?;
    ports.push(last)?;
    let left = inbox.close(rt, alloc, ports, mouth)?;
    Ok(Some((put, taken, left)))
}

#[test]
fn an_inbox_holds_sixty_four_values(rt: HostRuntime) -> Result<(), Fail> {
    let (put, taken, left) = largest(&rt, rt.alloc())?.expect(&rt, "a port");
    assert!(rt; put == 64);
    assert!(rt; taken.as_slice() == [0, 1].as_slice());
    assert!(rt; left.len() == 62 && left.iter().copied().eq(2..64));
    Ok(())
}

// How many ports there are, and how many values are left where nothing was put.
fn unused<R: Wait>(rt: &R, alloc: Global) -> Result<(usize, usize), AllocError> {
    let (inbox, ports, mouth) = Inbox::<u32>::new(alloc, 1, 16)?;
    let count = ports.len();
    let left = inbox.close(rt, alloc, ports, mouth)?;
    Ok((count, left.len()))
}

#[test]
fn an_inbox_has_sixteen_ports(rt: HostRuntime) -> Result<(), Fail> {
    let counts = unused(&rt, rt.alloc())?;
    assert!(rt; counts == (16, 0));
    Ok(())
}

// A port and how many values the inbox took of it.
#[derive(Drop)]
struct Put {
    port: Port<u32>,
    count: u32,
}

fn put_from<R: Wait>(rt: &R, inbox: &Inbox<u32>, mut port: Port<u32>, first: u32) -> Put
    requires value { first ≤ 10000 }
    requires port { IsPortOf inbox.now port }
    ensures port { IsPortOf inbox.now result.port }
{
    let count = put_some(rt, inbox, &mut port, first, 300);
    Put { port, count }
}

// A mouth and what it took.
#[derive(Drop)]
struct Taken {
    mouth: Mouth<u32>,
    values: Result<Vec<u32>, AllocError>,
}

fn take_all<R: Wait>(rt: &R, alloc: Global, inbox: &Inbox<u32>, mut mouth: Mouth<u32>) -> Taken
    requires { IsMouthOf inbox.now mouth }
    ensures { IsMouthOf inbox.now result.mouth }
{
    let values = take_some(rt, alloc, inbox, &mut mouth, 600);
    Taken { mouth, values }
}

// A thread puts, and another takes.
fn pass<R: Threads + Wait + Sync>(
    rt: &R,
    alloc: Global,
    inbox: &Inbox<u32>,
    port: Port<u32>,
    mouth: Mouth<u32>,
) -> (Put, Taken)
    requires port { IsPortOf inbox.now port }
    requires mouth { IsMouthOf inbox.now mouth }
    ensures port { IsPortOf inbox.now result.0.port }
    ensures mouth { IsMouthOf inbox.now result.1.mouth }
{
    join(
        rt,
        move || -> Put
            requires { IsPortOf inbox.now port }
            ensures { IsPortOf inbox.entry.now result.port }
        { put_from(rt, inbox, port, 1000) },
        move || -> Taken
            requires { IsMouthOf inbox.now mouth }
            ensures { IsMouthOf inbox.entry.now result.mouth }
        { take_all(rt, alloc, inbox, mouth) },
    )
}

// A third thread puts, too.
fn pass_two<R: Threads + Wait + Sync>(
    rt: &R,
    alloc: Global,
    inbox: &Inbox<u32>,
    one: Port<u32>,
    two: Port<u32>,
    mouth: Mouth<u32>,
) -> (Put, (Put, Taken))
    requires one { IsPortOf inbox.now one }
    requires two { IsPortOf inbox.now two }
    requires mouth { IsMouthOf inbox.now mouth }
    ensures one { IsPortOf inbox.now result.0.port }
    ensures two { IsPortOf inbox.now result.1.0.port }
    ensures mouth { IsMouthOf inbox.now result.1.1.mouth }
{
    join(
        rt,
        move || -> Put
            requires { IsPortOf inbox.now one }
            ensures { IsPortOf inbox.entry.now result.port }
        { put_from(rt, inbox, one, 0) },
        move || -> (Put, Taken)
            requires { IsPortOf inbox.now two × IsMouthOf inbox.now mouth }
            ensures { IsPortOf inbox.entry.now result.0.port × IsMouthOf inbox.entry.now result.1.mouth }
        { pass(rt, alloc, inbox, two, mouth) },
    )
}

// How many values each of two ports put, and the values as they were taken and then left.
#[derive(Drop)]
struct Passed {
    counts: [u32; 2],
    values: Vec<u32>,
}

fn pass_all<R: Threads + Wait + Sync>(rt: &R, alloc: Global) -> Result<Option<Passed>, AllocError> {
    let (inbox, mut ports, mouth) = Inbox::<u32>::new(alloc, 4, 2)?;
    let Some(two) = ports.pop() else {
        return Ok(None);
    };
    let Some(one) = ports.pop() else {
        return Ok(None);
    };
    let (one, (two, taken)) = pass_two(rt, alloc, &inbox, one, two, mouth);
    let Put {
        port: first,
        count: one,
    } = one;
    let Put {
        port: second,
        count: two,
    } = two;
    let Taken { mouth, values } = taken;
    ports.push(first)?;
    ports.push(second)?;
    let mut left = inbox.close(rt, alloc, ports, mouth)?;
    let mut values = values?;
    values.append(&mut left)?;
    Ok(Some(Passed {
        counts: [one, two],
        values,
    }))
}

#[test]
fn what_threads_put_comes_once_and_in_the_order_of_each(rt: HostRuntime) -> Result<(), Fail> {
    let passed = pass_all(&rt, rt.alloc())?.expect(&rt, "two ports");
    let [one, two] = passed.counts;
    let values = passed.values.as_slice();
    assert!(rt; values.len() as u64 == u64::from(one) + u64::from(two));
    assert!(rt;
        values
            .iter()
            .copied()
            .filter(|value| *value < 1000)
            .eq(0..one)
    );
    assert!(rt;
        values
            .iter()
            .copied()
            .filter(|value| *value >= 1000)
            .eq((1000..2000).take(two as usize))
    );
    Ok(())
}

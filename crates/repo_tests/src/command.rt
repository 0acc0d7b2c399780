ghost use Rattle.std.specs.Prelude.{◌≡◌, ◌≤◌, length};
ghost use Rattle.ndn_name.specs.Names.{encoding};
ghost use Rattle.repo_command.specs.Commands.{named_length};

mod answers;
mod hostile;
mod parameters;

use crate::expect::{is, same_octets, same_of};
use crate::worked::INSERT;
use answers::ANSWERS;
use hostile::HOSTILE;
use ndn_interest::write_signed;
use ndn_name::{Name, NameView};
use ndn_sign::KeyRing;
use parameters::PARAMETERS;
use repo_command::*;
use std::process::Abort;
use std::test::*;

// The values of the names "/alice", "/in", "/carl/KEY" and "/dora/KEY".
const ALICE: &[u8] = &[8, 5, 0x61, 0x6c, 0x69, 0x63, 0x65];

const IN: &[u8] = &[8, 2, 0x69, 0x6e];

const CARL_KEY: &[u8] = &[8, 4, 0x63, 0x61, 0x72, 0x6c, 8, 3, 0x4b, 0x45, 0x59];

const DORA_KEY: &[u8] = &[8, 4, 0x64, 0x6f, 0x72, 0x61, 8, 3, 0x4b, 0x45, 0x59];

fn name(rt: &(impl Abort + AllocGlobal), value: &[u8]) -> Name
    requires { length value.now ≤ 200 }
    ensures { length (encoding result) ≡ length value.now }
{
    let view = NameView::read(value, 0).expect(rt, "a name");
    Name::from_view(rt.alloc(), &view).expect(rt, "memory")
}

// The keys of dora and carl.
fn two_clients(rt: &(impl Abort + AllocGlobal)) -> KeyRing {
    let mut ring = KeyRing::new(rt.alloc());
    ring.add(DORA_KEY, b"k5").expect(rt, "memory");
    ring.add(CARL_KEY, b"k4").expect(rt, "memory");
    ring
}

// Whose command alice takes, and which, or why she takes none.
fn taken(rt: &(impl Abort + AllocGlobal), octets: &[u8]) -> Result<(u32, Command), CommandRefusal> {
    let node = name(rt, ALICE);
    let clients = two_clients(rt);
    check_command(rt.alloc(), octets, &node, &clients)
}

// The command is refused so, or taken.
fn is_refused(
    rt: &(impl Abort + AllocGlobal),
    octets: &[u8],
    refusal: Option<CommandRefusal>,
    row: &[u8],
) {
    same_of(rt, taken(rt, octets).err(), refusal, row);
}

#[test]
fn carl_asks_alice_to_insert(rt: HostRuntime) {
    let command = Command::Insert {
        name: name(&rt, IN),
        first: 5,
        last: 6,
    };
    is_made(&rt, &command);
    let (client, asked) = taken(&rt, &INSERT).expect(&rt, "a command");
    is(&rt, client == 1 && asked == command, "the insertion");
}

fn is_made(rt: &(impl Abort + AllocGlobal), command: &Command)
    requires { named_length command.now ≤ 400 }
{
    let node = name(rt, ALICE);
    let key_name = name(rt, CARL_KEY);
    let made = make_command(rt.alloc(), &node, command, &key_name, b"k4");
    same_octets(
        rt,
        made.expect(rt, "memory").as_slice(),
        &INSERT,
        "a command",
    );
}

#[test]
fn hostile_commands(rt: HostRuntime) {
    for (octets, first) in &HOSTILE {
        is_refused(&rt, octets, Some(*first), octets);
    }
}

// Parameters under a verb, signed by carl.
fn signed(rt: &(impl Abort + AllocGlobal), verb: &[u8], parameters: &[u8]) -> Vec<u8> {
    let mut node = name(rt, ALICE);
    node.push(8, verb).expect(rt, "a short name");
    let key_name = name(rt, CARL_KEY);
    write_signed(rt.alloc(), &node, parameters, &key_name, b"k4").expect(rt, "memory")
}

#[test]
fn parameters_are_those_of_their_verb(rt: HostRuntime) {
    for (verb, parameters, is_asked) in &PARAMETERS {
        let octets = signed(&rt, verb, parameters);
        let bad = (!*is_asked).then_some(CommandRefusal::BadParameter);
        is_refused(&rt, &octets, bad, parameters);
    }
}

#[test]
fn answers_are_one_element(rt: HostRuntime) {
    for (octets, answer) in &ANSWERS {
        same_of(&rt, read_answer(octets), *answer, octets);
    }
}

#[test]
fn a_process_was_started(rt: HostRuntime) {
    let answer = Answer {
        code: 100,
        process: Some(1),
        inserted: None,
        deleted: None,
    };
    let octets = write_answer(rt.alloc(), &answer).expect(&rt, "memory");
    let wanted = [0xcf, 6, 0xce, 1, 1, 0xd0, 1, 0x64];
    same_octets(&rt, octets.as_slice(), &wanted, "an answer");
}

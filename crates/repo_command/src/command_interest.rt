ghost use Rattle.std.specs.Prelude.{◌≡◌, ◌≤◌, ◌⊎◌, ◌++◌, length, IsOk, IfOk, OnOk, MatchResult, Ok, Err};
ghost use Rattle.ndn_name.specs.Names.{encoding};
ghost use Rattle.repo_command.specs.Commands.{CommandIsSpelled, command_interest, written_parameters, parameters_value};
ghost use Rattle.repo_command.specs.Commands.{named_length};
ghost use Rattle.repo_command.specs.Verdict.{command_verdict};
ghost use Rattle.repo_command.specs.Verbs.{verb_of};

use crate::command::Command;
use crate::command_refusal::CommandRefusal;
use crate::element_types::{END_BLOCK_ID, PROCESS_ID, REPO_COMMAND_PARAMETER, START_BLOCK_ID};
use crate::parameters::Parameters;
use crate::verb::{Verb, command_name, verb_in};
use ndn_interest::{InterestView, signer_of, write_signed};
use ndn_name::{Name, PacketWriteFault};
use ndn_sign::KeyRing;
use ndn_tlv::{Writer, types};
use repo_object::{NODE_NAME_LIMIT, OBJECT_NAME_LIMIT};
use std::alloc::{AllocError, Global};

/// How many octets of value the name of a key may have: a node's name, with the component `KEY` after it.
pub const KEY_NAME_LIMIT: usize = 205;

/// Makes the Interest of a command for the repository of a node, signed with a client's key (NDN Packet Format 0.3,
/// "Signed Interest").
pub fn make_command(
    alloc: Global,
    node: &Name,
    command: &Command,
    key_name: &Name,
    key: &[u8],
) -> Result<Vec<u8>, AllocError>
    requires node { length (encoding node.now) ≤ NODE_NAME_LIMIT }
    requires name { named_length command.now ≤ OBJECT_NAME_LIMIT }
    requires key_name { length (encoding key_name.now) ≤ KEY_NAME_LIMIT }
    ensures { IfOk result (λ octets. octets.items
        ≡ command_interest node.now command.now key_name.now key.now) }
{
    let name = command_name(node, verb_of(command))?;
    let parameters = write_parameters(alloc, command)?;
    write_signed(alloc, &name, &parameters, key_name, key).map_err(PacketWriteFault::only_memory)
}

fn verb_of(command: &Command) -> Verb
    ensures { result ≡ verb_of command.now }
{
    match command {
        Command::Insert { .. } => Verb::Insert,
        Command::Check { .. } => Verb::Check,
        Command::Delete { .. } => Verb::Delete,
    }
}

// The RepoCommandParameter of a command.
fn write_parameters(alloc: Global, command: &Command) -> Result<Vec<u8>, AllocError>
    ensures { IfOk result (λ octets. octets.items ≡ written_parameters command.now) }
{
    let mut value = Writer::new(alloc);
    put_fields(&mut value, command)?;
    let mut writer = Writer::new(alloc);
    writer.put(REPO_COMMAND_PARAMETER, value.octets())?;
    Ok(writer.finish())
}

// Appends the fields that a command's verb needs.
fn put_fields(writer: &mut Writer, command: &Command) -> Result<(), AllocError>
    ensures { OnOk result (writer.new ≡ writer.old ++ parameters_value command.now) }
{
    match command {
        Command::Insert { name, first, last } => {
            writer.put(types::NAME, name.octets())?;
            writer.put_number(START_BLOCK_ID, *first)?;
            writer.put_number(END_BLOCK_ID, *last)
        }
        Command::Check { process } => writer.put_number(PROCESS_ID, *process),
        Command::Delete { name } => writer.put(types::NAME, name.octets()),
    }
}

/// Checks the octets of a command for a node, and gives the number of the client's key in the ring, and the command.
///
/// The client is known by its key alone. What follows the RepoCommandParameter is passed over. Only a name in the
/// command takes memory, and that comes last.
pub fn check_command(
    alloc: Global,
    octets: &[u8],
    node: &Name,
    ring: &KeyRing,
) -> Result<(u32, Command), CommandRefusal>
    ensures verdict { MatchResult result
        (λ taken. command_verdict node.now ring.now octets.now ≡ Ok (taken.0, taken.1))
        (λ refusal. (command_verdict node.now ring.now octets.now ≡ Err refusal)
        ⊎ ((refusal ≡ CommandRefusal.NoMemory) × IsOk (command_verdict node.now ring.now octets.now))) }
    ensures spelled { IfOk result (λ taken. CommandIsSpelled taken.1) }
{
    let interest = InterestView::read(octets)?;
    let verb = verb_in(&interest.name, node).ok_or(CommandRefusal::OtherName)?;
    let client = signer_of(&interest, ring)?;
    let parameters = Parameters::read(interest.parameters.unwrap_or(&[]))?;
    let command = parameters.into_command(alloc, verb)?;
    Ok((client, command))
}

// The frames of commands and their replies.
ghost use Rattle.std.specs.Prelude.{◌≡◌, ◌<◌, ◌≤◌, ◌++◌, length, IfOk, IfSome, OnOk};
ghost use Rattle.std.specs.Option.{option_map};
ghost use Rattle.script_lang.specs.Forms.{stated};
ghost use Rattle.repo_command.specs.Commands.{named_length};
ghost use Rattle.repo_member.specs.Commanded.{order_made};
ghost use Rattle.bench_world.specs.Worlds.{world_of};
ghost use Rattle.lab_capture.specs.declared.station.Station.TheVariants.{Client};
ghost use Rattle.lab_capture.specs.Answers.{answer_report};
ghost use Rattle.lab_capture.specs.Captures.{IsStation};
ghost use Rattle.lab_capture.specs.Frames.{below, frames_text, member_named};
ghost use Rattle.lab_capture.specs.Replies.{client_named, commanded, exchanged, is_short, ordered, replies};
ghost use Rattle.lab_capture.specs.Replies.{replies_of, reply_of};

use crate::answers::answer_report;
use crate::frames::{member_at, put_if, put_sent};
use crate::known::{below, member_named};
use crate::station::Station;
use bench_world::World;
use repo_command::{Answer, Command, make_command};
use repo_member::Group;
use repo_object::{OBJECT_NAME_LIMIT, key_name};
use script_lang::{Line, Words};
use std::alloc::{AllocError, Global};

// Appends the frames of a line that gives a member a command, by what the line states, if anything, and by its report.
pub(crate) fn put_replies(
    out: &mut Vec<u8>,
    words: &Words,
    world: &World,
    line: &Option<Line>,
    report: &[u8],
) -> Result<(), AllocError>
    ensures { OnOk result (out.new.items ≡ out.old.items
        ++ frames_text (replies words.now world.now.keys (world_of world.now) (option_map stated line.now)
        report.now)) }
{
    match line {
        Some(line) => put_replies_of(out, words, world, line, report),
        None => Ok(()),
    }
}

fn put_replies_of(
    out: &mut Vec<u8>,
    words: &Words,
    world: &World,
    line: &Line,
    report: &[u8],
) -> Result<(), AllocError>
    ensures { OnOk result (out.new.items ≡ out.old.items
        ++ frames_text (replies_of words.now world.now.keys (world_of world.now) (stated line.now).verb
        (stated line.now).values (answer_report report.now))) }
{
    match line {
        Line::Order { m, octets } => {
            put_ordered(out, world, member_named(words, world, m), octets, report)
        }
        Line::Insert {
            m,
            client,
            name,
            first,
            last,
        } => {
            let command = Command::Insert {
                name: name.clone()?,
                first: *first,
                last: *last,
            };
            put_commanded(out, words, world, m, client, &command, report)
        }
        Line::Status { m, client, process } => {
            let command = Command::Check {
                process: u64::from(*process),
            };
            put_commanded(out, words, world, m, client, &command, report)
        }
        Line::Delete { m, client, name } => {
            let command = Command::Delete {
                name: name.clone()?,
            };
            put_commanded(out, words, world, m, client, &command, report)
        }
        _ => Ok(()),
    }
}

// Appends the frames of an `order` line: octets from outside to a member, and its reply.
fn put_ordered(
    out: &mut Vec<u8>,
    world: &World,
    m: Option<u32>,
    octets: &[u8],
    report: &[u8],
) -> Result<(), AllocError>
    requires { IfSome m (λ m. m < length world.now.members) }
    ensures { OnOk result (out.new.items ≡ out.old.items
        ++ frames_text (ordered world.now.keys (world_of world.now) m octets.now (answer_report report.now))) }
{
    match m {
        Some(m) => put_exchanged(out, world, Station::Outside, m, octets, report),
        None => Ok(()),
    }
}

// Appends the frames of a client's command and of the member's reply.
fn put_commanded(
    out: &mut Vec<u8>,
    words: &Words,
    world: &World,
    m: &str,
    client: &str,
    command: &Command,
    report: &[u8],
) -> Result<(), AllocError>
    ensures { OnOk result (out.new.items ≡ out.old.items
        ++ frames_text (commanded world.now.keys (world_of world.now)
        (member_named words.now (world_of world.now) m.now)
        (client_named words.now world.now.keys client.now) command.now (answer_report report.now))) }
{
    match (
        member_named(words, world, m),
        client_named(words, world, client),
    ) {
        (Some(m), Some(client)) if is_short(command) => {
            put_made(out, world, m, client, command, report)
        }
        _ => Ok(()),
    }
}

fn put_made(
    out: &mut Vec<u8>,
    world: &World,
    m: u32,
    client: u32,
    command: &Command,
    report: &[u8],
) -> Result<(), AllocError>
    requires there { m < length world.now.members }
    requires client { client < length world.now.keys.clients.names }
    requires short { named_length command.now ≤ OBJECT_NAME_LIMIT }
    ensures { OnOk result (out.new.items ≡ out.old.items
        ++ frames_text (exchanged world.now.keys (world_of world.now) (Client client) m
        (order_made world.now.keys m client command.now) (answer_report report.now))) }
{
    world.cite_soundness();
    let octets = made(*out.allocator(), world.group(), m, client, command)?;
    put_exchanged(out, world, client_at(world, client), m, &octets, report)
}

// Appends the frames of octets from the station `client` to the member `m`, and of the member's reply, if there is one.
fn put_exchanged(
    out: &mut Vec<u8>,
    world: &World,
    client: Station,
    m: u32,
    octets: &[u8],
    report: &[u8],
) -> Result<(), AllocError>
    requires station { IsStation client }
    requires there { m < length world.now.members }
    ensures { OnOk result (out.new.items ≡ out.old.items
        ++ frames_text (exchanged world.now.keys (world_of world.now) client m octets.now
        (answer_report report.now))) }
{
    let member = member_at(world, m);
    let answer = answer_report(*out.allocator(), report)?;
    let reply = reply_of(world, m, octets, answer)?;
    put_sent(out, world, client, member, octets)?;
    put_if(out, world, member, client, reply.as_deref())
}

// The packet by which the member `m` replies to octets, if it gave an answer to them.
fn reply_of(
    world: &World,
    m: u32,
    octets: &[u8],
    answer: Option<Answer>,
) -> Result<Option<Vec<u8>>, AllocError>
    requires { m < length world.now.members }
    ensures { IfOk result (λ reply. option_map (λ r. r.items) reply
        ≡ reply_of world.now.keys m octets.now answer) }
{
    world.cite_soundness();
    match answer {
        Some(answer) => world.member(m).reply(world.group(), octets, &answer),
        None => Ok(None),
    }
}

// The Interest of a client's command for a member.
fn made(
    alloc: Global,
    g: &Group,
    m: u32,
    client: u32,
    command: &Command,
) -> Result<Vec<u8>, AllocError>
    requires there { m < length g.now.members.names }
    requires client { client < length g.now.clients.names }
    requires short { named_length command.now ≤ OBJECT_NAME_LIMIT }
    ensures { IfOk result (λ octets. octets.items ≡ order_made g.now m client command.now) }
{
    g.cite_soundness();
    let key_name = key_name(g.client_names().name(client))?;
    let key = g.clients().key(client);
    make_command(alloc, g.roster().name(m), command, &key_name, key)
}

// The number of the client with this label.
fn client_named(words: &Words, world: &World, label: &str) -> Option<u32>
    ensures named { result ≡ client_named words.now world.now.keys label.now }
    ensures there { IfSome result (λ client. client < length world.now.keys.clients.names) }
{
    below(words.client(label), world.group().client_names().len())
}

// The station of a client.
fn client_at(world: &World, client: u32) -> Station
    requires { client < length world.now.keys.clients.names }
    ensures client { result ≡ Client client }
    ensures station { IsStation result }
{
    world.group().cite_soundness();
    Station::Client(client as u8)
}

// Whether the name in a command is no longer than an object's name may be.
fn is_short(command: &Command) -> bool
    ensures { result ≡ is_short command.now }
{
    match command {
        Command::Insert { name, .. } | Command::Delete { name } => {
            name.octets().len() <= OBJECT_NAME_LIMIT
        }
        Command::Check { .. } => true,
    }
}

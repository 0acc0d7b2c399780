// Commands.
ghost use Rattle.std.specs.Prelude.{◌≡◌, ◌⊎◌, ◌+◌, ◌<◌, ◌≤◌, true, false, IsTrue, length, IfOk, IfErr, OnOk};
ghost use Rattle.std.specs.Prelude.{OnErr};
ghost use Rattle.repo_object.specs.Objects.{is_object_name};
ghost use Rattle.repo_command.specs.Commands.{is_command, CommandIsSpelled};
ghost use Rattle.group_model.specs.Limits.{IsShortInsertion};
ghost use Rattle.repo_member.specs.Commanded.{coded, order_of, order_made};
ghost use Rattle.bench_world.specs.Serving.{lossless};
ghost use Rattle.bench_world.specs.Commanding.{may_order, IsIssued};
ghost use Rattle.bench_world.specs.EventValues.{EventValue, report_value, order_report};
ghost use Rattle.bench_world.specs.Runs.{IsStep};

use super::World;
use crate::event::{EventError, Happened};
use crate::issued::{IssuedCommand, IssuedCommands};
use ndn_name::Name;
use repo_command::{Answer, Command, CommandRefusal, check_command, make_command};
use repo_member::Group;
use repo_object::key_name;
use std::alloc::{AllocError, Global};

impl World {
    // A client makes a command for a member, and the member carries it out: what the member answers.
    fn issue(&mut self, m: u32, client: u32, command: Command) -> Result<Answer, AllocError>
        requires there { m < length self.old.members }
        requires client { client < length self.old.keys.clients.names }
        requires spelled { CommandIsSpelled command }
        requires command { is_command command ≡ true }
        requires short { IsShortInsertion command }
        requires few { self.old.steps < 100000 }
        ensures issued { IfOk result (IsIssued self.old m client command self.new) }
        ensures err { OnErr result (self.new ≡ self.old) }
    {
        self.group.cite_soundness();
        let octets = made(self.alloc, &self.group, m, client, &command)?;
        self.issued.reserve(1)?;
        let member = &mut self.members[m as usize];
        let answered = member.command(&self.group, &octets)?;
        self.issued.add_reserved(IssuedCommand {
            member: m,
            client,
            command,
        });
        self.steps += 1;
        Ok(answered.answer)
    }

    /// A client asks a member to take an object, whose blocks have the indexes `first` to `last`.
    pub(crate) fn insert(
        &mut self,
        m: u32,
        client: u32,
        name: &Name,
        first: u64,
        last: u64,
    ) -> Result<Happened, EventError>
        requires there { m < length self.old.members }
        requires client { client < length self.old.keys.clients.names }
        requires name { IsTrue (is_object_name name.now) }
        requires order { first ≤ last }
        requires blocks { last < first + 200 }
        requires few { self.old.steps < 100000 }
        ensures { IsStep (lossless self.old.keys) (EventValue.Insert m client name.now first last)
            self.old result self.new }
    {
        name.cite_soundness();
        let command = Command::Insert {
            name: name.clone()?,
            first,
            last,
        };
        let Ok(answer) = self.issue(m, client, command) else {
            return Err(EventError::NoMemory);
        };
        Ok(Happened::Insert {
            m,
            code: u64::from(answer.code),
            process: answer.process,
            inserted: answer.inserted,
            deleted: answer.deleted,
        })
    }

    /// A client asks a member how an insertion process stands.
    pub(crate) fn status(
        &mut self,
        m: u32,
        client: u32,
        process: u32,
    ) -> Result<Happened, EventError>
        requires there { m < length self.old.members }
        requires client { client < length self.old.keys.clients.names }
        requires few { self.old.steps < 100000 }
        ensures { IsStep (lossless self.old.keys) (EventValue.Status m client process) self.old result self.new }
    {
        let command = Command::Check {
            process: u64::from(process),
        };
        let Ok(answer) = self.issue(m, client, command) else {
            return Err(EventError::NoMemory);
        };
        Ok(Happened::Status {
            m,
            code: u64::from(answer.code),
            process: answer.process,
            inserted: answer.inserted,
            deleted: answer.deleted,
        })
    }

    /// A client asks a member to drop every object of this name.
    pub(crate) fn delete(
        &mut self,
        m: u32,
        client: u32,
        name: &Name,
    ) -> Result<Happened, EventError>
        requires there { m < length self.old.members }
        requires client { client < length self.old.keys.clients.names }
        requires name { IsTrue (is_object_name name.now) }
        requires few { self.old.steps < 100000 }
        ensures { IsStep (lossless self.old.keys) (EventValue.Delete m client name.now) self.old result self.new }
    {
        name.cite_soundness();
        let command = Command::Delete {
            name: name.clone()?,
        };
        let Ok(answer) = self.issue(m, client, command) else {
            return Err(EventError::NoMemory);
        };
        Ok(Happened::Delete {
            m,
            code: u64::from(answer.code),
            process: answer.process,
            inserted: answer.inserted,
            deleted: answer.deleted,
        })
    }

    /// A member is given octets as a command.
    ///
    /// They are foreign where they pass, and the client whose command they are didn't make that command for the member.
    pub(crate) fn order(&mut self, m: u32, octets: &[u8]) -> Result<Happened, EventError>
        requires there { m < length self.old.members }
        requires few { self.old.steps < 100000 }
        ensures { IsStep (lossless self.old.keys) (EventValue.Order m octets.now) self.old result self.new }
    {
        let verdict = order_verdict(self.alloc, &self.group, &self.issued, m, octets)?;
        let member = &mut self.members[m as usize];
        let answered = member.command_checked(&self.group, octets, verdict)?;
        self.steps += 1;
        Ok(ordered(m, answered.answer))
    }
}

// The Interest of a client's command for a member.
fn made(
    alloc: Global,
    g: &Group,
    m: u32,
    client: u32,
    command: &Command,
) -> Result<Vec<u8>, AllocError>
    requires there { m < length g.now.members.names }
    requires client { client < length g.now.clients.names }
    requires command { is_command command.now ≡ true }
    ensures { IfOk result (λ octets. octets.items ≡ order_made g.now m client command.now) }
{
    g.cite_soundness();
    let key_name = key_name(g.client_names().name(client))?;
    let octets = make_command(
        alloc,
        g.roster().name(m),
        command,
        &key_name,
        g.clients().key(client),
    )?;
    Ok(octets)
}

// The verdict on octets that a member is given as a command. They are foreign where they pass, and the client whose
// command they are didn't make that command for the member.
fn order_verdict(
    alloc: Global,
    g: &Group,
    issued: &IssuedCommands,
    m: u32,
    octets: &[u8],
) -> Result<Result<(u32, Command), CommandRefusal>, EventError>
    requires { m < length g.now.members.names }
    ensures verdict { IfOk result (λ verdict. coded verdict ≡ order_of g.now m octets.now) }
    ensures spelled { IfOk result (λ verdict. IfOk verdict (λ order. CommandIsSpelled order.1)) }
    ensures issued { OnOk result (may_order issued.now.commands m (order_of g.now m octets.now) ≡ true) }
    ensures refused { IfErr result (λ fault. (fault ≡ EventError.NoMemory) ⊎ ((fault ≡ EventError.Foreign)
        × (may_order issued.now.commands m (order_of g.now m octets.now) ≡ false))) }
{
    g.cite_soundness();
    match check_command(alloc, octets, g.roster().name(m), g.clients()) {
        Ok((client, command)) => {
            let order = IssuedCommand {
                member: m,
                client,
                command,
            };
            if issued.has(&order) {
                Ok(Ok((client, order.command)))
            } else {
                Err(EventError::Foreign)
            }
        }
        Err(CommandRefusal::NoMemory) => Err(EventError::NoMemory),
        refused => Ok(refused),
    }
}

// The report of an order.
fn ordered(m: u32, answer: Answer) -> Happened
    ensures { report_value result ≡ order_report m answer }
{
    Happened::Order {
        m,
        code: u64::from(answer.code),
        process: answer.process,
        inserted: answer.inserted,
        deleted: answer.deleted,
    }
}

// The commands that clients made.
ghost use Rattle.std.specs.Prelude.{◌≡◌, ◌-◌, ◌<◌, [], ◌∷◌, ◌++◌, max, OnOk, OnErr};
ghost use Rattle.bench_world.specs.Commanding.{is_issued};

use indexmap::IndexSet;
use repo_command::Command;
use std::alloc::{AllocError, Global};
use std::hash::{Hash, Hasher};
use std::marker::Model;

// A command that a client made for a member.
#[derive(PartialEq, Eq, Drop)]
pub(crate) struct IssuedCommand {
    pub(crate) member: u32,
    pub(crate) client: u32,
    pub(crate) command: Command,
}

impl Hash for IssuedCommand {
    ghost use Rattle.bench_world.specs.IssuedCommands.{issued_input, issued_alike};

    ghost hash_input = { issued_input };

    ghost respects_eq = { issued_alike };

    fn hash<H: Hasher>(&self, state: &mut H) {
        self.member.hash(state);
        self.client.hash(state);
        match &self.command {
            Command::Insert { name, first, last } => {
                name.octets().hash(state);
                first.hash(state);
                last.hash(state);
            }
            Command::Check { process } => process.hash(state),
            Command::Delete { name } => name.octets().hash(state),
        }
    }
}

// The commands that clients made, in the order of making, with capacity for more.
//
// Whether one was made is found in a time that doesn't grow with the list.
#[derive(Drop)]
pub(crate) struct IssuedCommands {
    // Each command that was made, once.
    commands: IndexSet<IssuedCommand>,
    // The commands in the order of making, each by its number in `commands`. Only clauses read this list: the group
    // lists a command as often as it was made, and a ghost field is no list.
    made: Vec<usize>,
    spare: usize,
}

// Contracts see the commands as a list, with the number of commands for which there is capacity.
impl Model for IssuedCommands {
    ghost use Rattle.bench_world.specs.IssuedList.{IssuedList};

    ghost Value = { IssuedList };

    ghost use Rattle.bench_world.specs.IssuedFields.{commands_made, AreIssued};

    ghost view = { λ s. record { commands = commands_made s.commands.keys s.made.items; spare = s.spare } };

    ghost invariant = { AreIssued };
}

impl IssuedCommands {
    ghost use Rattle.bench_world.specs.IssuedCommands.{issued_of};

    pub(crate) fn new(alloc: Global) -> IssuedCommands
        ensures { result ≡ record { commands = []; spare = 0 } }
    {
        IssuedCommands {
            commands: IndexSet::new(alloc),
            made: Vec::new(alloc),
            spare: 0,
        }
    }

    // Reserves capacity for `n` commands, unless there is as much already.
    pub(crate) fn reserve(&mut self, n: usize) -> Result<(), AllocError>
        ensures ok { OnOk result (self.new ≡ record self.old { spare = max self.old.spare n }) }
        ensures err { OnErr result (self.new ≡ self.old) }
    {
        if self.spare < n {
            self.commands.reserve(n)?;
            self.made.reserve(n)?;
            self.spare = n;
        }
        Ok(())
    }

    // Appends a command, for which capacity was reserved. It allocates nothing.
    pub(crate) fn add_reserved(&mut self, command: IssuedCommand)
        requires { 0 < self.old.spare }
        ensures made { self.new.commands ≡ self.old.commands ++ issued_of command ∷ [] }
        ensures spare { self.new.spare ≡ self.old.spare - 1 }
    {
        let (number, _) = self.commands.insert_full(command).unwrap();
        self.made.push(number).unwrap();
        self.spare -= 1;
    }

    // Whether that client made that command for that member.
    pub(crate) fn has(&self, command: &IssuedCommand) -> bool
        ensures { result ≡ is_issued self.now.commands command.now.member (command.now.client, command.now.command) }
    {
        self.commands.contains(command)
    }
}

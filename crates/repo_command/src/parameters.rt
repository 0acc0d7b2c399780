ghost use Rattle.std.specs.Prelude.{◌≡◌, ◌+◌, ◌^◌, ◌<◌, ◌≤◌, ◌⊎◌, length, IsOk, IfOk, MatchResult, Ok, Err};
ghost use Rattle.ndn_name.specs.Names.{encoding};
ghost use Rattle.ndn_tlv.specs.Elements.{item, elements};
ghost use Rattle.repo_command.specs.Commands.{CommandIsSpelled};
ghost use Rattle.repo_command.specs.Parameters.{parameters, with_parameter, parameters_in, parameters_of};
ghost use Rattle.repo_command.specs.Parameters.{parameter_among, parameter_number, object_name_of, range_of};
ghost use Rattle.repo_command.specs.Parameters.{command_from};

use crate::command::Command;
use crate::command_refusal::CommandRefusal;
use crate::element_types::{END_BLOCK_ID, PROCESS_ID, REPO_COMMAND_PARAMETER, START_BLOCK_ID};
use crate::verb::Verb;
use ndn_name::{Name, NameView};
use ndn_tlv::{Element, FieldReader, Place, Reader, read_number, types};
use repo_object::{OBJECT_NAME_LIMIT, is_object_name};
use std::alloc::Global;

#[derive(Clone, Copy, Debug)]
pub(crate) enum ParameterField {
    Name,
    StartBlockId,
    EndBlockId,
    ProcessId,
}

pub(crate) const PARAMETER: [Place<ParameterField>; 4] = [
    Place {
        typ: types::NAME,
        field: ParameterField::Name,
        repeats: false,
    },
    Place {
        typ: START_BLOCK_ID,
        field: ParameterField::StartBlockId,
        repeats: false,
    },
    Place {
        typ: END_BLOCK_ID,
        field: ParameterField::EndBlockId,
        repeats: false,
    },
    Place {
        typ: PROCESS_ID,
        field: ParameterField::ProcessId,
        repeats: false,
    },
];

// How many blocks an insertion may have.
const BLOCK_LIMIT: u64 = 200;

// The fields of a RepoCommandParameter as far as they have come.
#[derive(Drop)]
pub(crate) struct Parameters<'p> {
    name: Option<NameView<'p>>,
    first: Option<u64>,
    last: Option<u64>,
    process: Option<u64>,
}

impl<'p> Parameters<'p> {
    // What the RepoCommandParameter says that the octets begin with. What follows it is not looked at.
    pub(crate) fn read(octets: &'p [u8]) -> Result<Parameters<'p>, CommandRefusal>
        ensures { MatchResult result
            (λ p. parameters_of octets.now ≡ Ok (parameters p))
            (λ refusal. parameters_of octets.now ≡ Err refusal) }
    {
        let element = parameter_element(octets)?;
        Parameters::of_fields(element)
    }

    fn of_fields(element: Element<'p>) -> Result<Parameters<'p>, CommandRefusal>
        requires { element.value_start + length element.value.now < 2 ^ 64 }
        ensures { MatchResult result
            (λ p. parameters_in (item element.entry) ≡ Ok (parameters p))
            (λ refusal. parameters_in (item element.entry) ≡ Err refusal) }
    {
        let elements = Reader::new(element.value, element.value_start);
        let mut fields = FieldReader::new(elements, &PARAMETER);
        let mut gathered = Parameters {
            name: None,
            first: None,
            last: None,
            process: None,
        };
        loop {
            match fields.next() {
                Ok(Some(next)) => gathered.take(next.0, next.1)?,
                Ok(None) => return Ok(gathered),
                Err(_) => return Err(CommandRefusal::BadParameter),
            }
        }
    }

    fn take(&mut self, field: ParameterField, element: Element<'p>) -> Result<(), CommandRefusal>
        requires { element.value_start + length element.value.now < 2 ^ 64 }
        ensures { MatchResult result
            (λ _. with_parameter (parameters self.old) (field, item element.entry)
            ≡ Ok (parameters self.new))
            (λ refusal. with_parameter (parameters self.old) (field, item element.entry)
            ≡ Err refusal) }
    {
        match field {
            ParameterField::Name => match NameView::read(element.value, element.value_start) {
                Ok(name) => self.name = Some(name),
                Err(_) => return Err(CommandRefusal::BadParameter),
            },
            ParameterField::StartBlockId => self.first = Some(number_in(element)?),
            ParameterField::EndBlockId => self.last = Some(number_in(element)?),
            ParameterField::ProcessId => self.process = Some(number_in(element)?),
        }
        Ok(())
    }

    // The command of that verb with these parameters. Only its name takes memory.
    pub(crate) fn into_command(self, alloc: Global, verb: Verb) -> Result<Command, CommandRefusal>
        ensures command { MatchResult result
            (λ command. command_from verb (parameters self.entry) ≡ Ok command)
            (λ refusal. (command_from verb (parameters self.entry) ≡ Err refusal)
            ⊎ ((refusal ≡ CommandRefusal.NoMemory) × IsOk (command_from verb (parameters self.entry)))) }
        ensures spelled { IfOk result CommandIsSpelled }
    {
        match verb {
            Verb::Insert => {
                let name = object_name(self.name)?;
                let (first, last) = range(self.first, self.last)?;
                let name = Name::from_short(alloc, &name)?;
                Ok(Command::Insert { name, first, last })
            }
            Verb::Check => match self.process {
                Some(process) => Ok(Command::Check { process }),
                None => Err(CommandRefusal::BadParameter),
            },
            Verb::Delete => {
                let name = object_name(self.name)?;
                let name = Name::from_short(alloc, &name)?;
                Ok(Command::Delete { name })
            }
        }
    }
}

// The element of a RepoCommandParameter that the octets begin with.
fn parameter_element(octets: &[u8]) -> Result<Element<'_>, CommandRefusal>
    ensures read { MatchResult result
        (λ e. parameter_among (elements 0 octets.now).items ≡ Ok (item e))
        (λ refusal. parameter_among (elements 0 octets.now).items ≡ Err refusal) }
    ensures fits { IfOk result (λ e. e.value_start + length e.value.now < 2 ^ 64) }
{
    match Reader::new(octets, 0).next() {
        Ok(Some(element)) if element.typ == REPO_COMMAND_PARAMETER => Ok(element),
        _ => Err(CommandRefusal::BadParameter),
    }
}

// The number that a field's element holds.
fn number_in(element: Element<'_>) -> Result<u64, CommandRefusal>
    ensures { MatchResult result
        (λ n. parameter_number (item element.entry) ≡ Ok n)
        (λ refusal. parameter_number (item element.entry) ≡ Err refusal) }
{
    read_number(element.value).ok_or(CommandRefusal::BadParameter)
}

// The name that is given, where an object may have it.
fn object_name(name: Option<NameView<'_>>) -> Result<NameView<'_>, CommandRefusal>
    ensures given { MatchResult result
        (λ given. object_name_of name.entry ≡ Ok given)
        (λ refusal. object_name_of name.entry ≡ Err refusal) }
    ensures short { IfOk result (λ given. length (encoding given) ≤ OBJECT_NAME_LIMIT) }
{
    match name {
        Some(name) if is_object_name(&name) => Ok(name),
        _ => Err(CommandRefusal::BadParameter),
    }
}

// The indexes of the first and the last block, where they are given and there are not too many blocks.
fn range(first: Option<u64>, last: Option<u64>) -> Result<(u64, u64), CommandRefusal>
    ensures { MatchResult result
        (λ given. range_of first last ≡ Ok given)
        (λ refusal. range_of first last ≡ Err refusal) }
{
    match (first, last) {
        (Some(first), Some(last)) if first <= last && last - first < BLOCK_LIMIT => {
            Ok((first, last))
        }
        _ => Err(CommandRefusal::BadParameter),
    }
}

ghost use Rattle.std.specs.Prelude.{◌≡◌, ◌≢◌, ◌<◌, ◌==◌, ◌∷◌, [], length, position, IfErr, IfOk, IfSome};
ghost use Rattle.repo_io.specs.Lines.{lines};
ghost use Rattle.live_top.specs.Outcomes.{Outcome, outcome_of};
ghost use Rattle.live_top.specs.Inputs.{IsHaltedAt, IsRead, Stops, halt_at};

use live_script::{LineError, Script};
use repo_io::{ReadFault, Source, read_up_to};
use script_lang::SCRIPT_LIMIT;
use script_report::Refusal;
use std::alloc::Global;

// Why no group runs.
#[derive(Clone, Copy, Debug, PartialEq, Eq)]
pub(crate) enum InputError {
    // The source failed.
    Failed,
    // The line, counted from 1, is the first that is refused.
    Refused { line: u32, why: Refusal },
    NoMemory,
}

impl From<ReadFault> for InputError {
    ghost use Rattle.std.specs.Prelude.{◌≡◌};
    ghost use Rattle.live_top.specs.Inputs.{halt_of};

    ghost from_gives = { λ fault halt. halt ≡ halt_of fault };

    fn from(fault: ReadFault) -> InputError {
        match fault {
            ReadFault::Failed => InputError::Failed,
            ReadFault::NoMemory => InputError::NoMemory,
        }
    }
}

// Reads the input to its end and takes its lines. Of an input beyond the limit, the octet after the limit is the last
// that is read.
pub(crate) fn read_script<S: Source>(alloc: Global, source: &mut S) -> Result<Script, InputError>
    ensures read { IfOk result (IsRead (S.left source.old) (S.left source.new)) }
    ensures halted { IfErr result
        (IsHaltedAt (S.left source.old) (S.faults source.old) (S.faults source.new)) }
{
    // One octet more than an input may have, so that a longer input is noticed.
    let input = read_up_to(alloc, source, SCRIPT_LIMIT + 1)?;
    script_of(alloc, &input)
}

// Takes each line of the input.
fn script_of(alloc: Global, input: &[u8]) -> Result<Script, InputError>
    ensures taken { IfOk result (λ script. outcome_of input.now ≡ Outcome.Taken script) }
    ensures halted { IfErr result (Stops (outcome_of input.now)) }
{
    let mut script = Script::new(alloc);
    let mut rest = input;
    while !rest.is_empty() {
        let (line, after) = first_line(rest);
        let number = script.next_line();
        script = match script.take(line) {
            Ok(next) => next,
            Err(error) => return Err(halt_at(number, error)),
        };
        rest = after;
    }
    Ok(script)
}

// Why nothing runs where a line isn't taken.
fn halt_at(line: u32, error: LineError) -> InputError
    ensures { result ≡ halt_at line error }
{
    match error {
        LineError::Refused(why) => InputError::Refused { line, why },
        LineError::NoMemory => InputError::NoMemory,
    }
}

// The first line, with its line feed, and the octets after it.
fn first_line(octets: &[u8]) -> (&[u8], &[u8])
    requires { octets.now ≢ [] }
    ensures cut { lines octets.now ≡ result.0.now ∷ lines result.1.now }
    ensures shorter { length result.1.now < length octets.now }
{
    match find_feed(octets) {
        Some(at) => octets.split_at(at + 1),
        None => octets.split_at(octets.len()),
    }
}

// The place of the first line feed.
fn find_feed(octets: &[u8]) -> Option<usize>
    ensures place { result ≡ position (λ octet. octet == 10) octets.now }
    ensures within { IfSome result (λ at. at < length octets.now) }
{
    octets.iter().position(|octet| *octet == b'\n')
}

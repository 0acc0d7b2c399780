ghost use Rattle.std.specs.Prelude.{◌≡◌, ◌^◌, ◌<◌, ◌≤◌, ◌↔◌, ◌++◌, ◌∷◌, [], ℕ, List, Ok, Err, Some, IsTrue, length};
ghost use Rattle.std.specs.Prelude.{slice_get, if◌then◌else◌, IfErr, ◌≢◌};
ghost use Rattle.ndn_tlv.specs.Types as standard;
ghost use Rattle.ndn_name.specs.Names.{Component, IsName, encoding};
ghost use Rattle.ndn_sign.specs.Ring.{NamedKey, key_number, pair};
ghost use Rattle.repo_command.specs.declared.answer.Answer.{Answer};
ghost use Rattle.repo_command.specs.declared.command.Command.{Command};
ghost use Rattle.repo_command.specs.declared.command_refusal.CommandRefusal.TheVariants.{BadParameter, NoMemory};
ghost use Rattle.repo_command.specs.declared.verb.Verb.{Verb};
ghost use Rattle.repo_command.specs.ElementTypes as types;
ghost use Rattle.repo_command.specs.OrderTables.{repo_command_parameter, repo_command_response};
ghost use Rattle.repo_command.specs.StatusCodes as status;
ghost use Rattle.repo_command.specs.Verbs.{verb_component, verb_in};
ghost use Rattle.repo_command.specs.Commands.{named_length, is_command, command_interest, CommandIsSpelled};
ghost use Rattle.repo_command.specs.Verdict.{command_verdict};
ghost use Rattle.repo_command.specs.Answers.{written_answer, answer_of, IsAnswer};

use crate::answer_fields::RESPONSE;
use crate::element_types::{
    DELETE_NUM, END_BLOCK_ID, INSERT_NUM, PROCESS_ID, REPO_COMMAND_PARAMETER,
    REPO_COMMAND_RESPONSE, START_BLOCK_ID, STATUS_CODE,
};
use crate::parameters::PARAMETER;
use crate::status_codes::{ACCEPTED, DONE, IN_PROGRESS, MALFORMED, NOT_FOUND, NOT_VALIDATED};

/// The order tables of commands and answers are those of the profile.
pub fn order_tables_are_the_profiles()
    ensures parameter { PARAMETER ≡ repo_command_parameter }
    ensures response { RESPONSE ≡ repo_command_response }
{}

/// The types of the elements of commands and answers are those of the profile.
pub fn element_types_are_the_profiles()
    ensures parameter_type { REPO_COMMAND_PARAMETER ≡ types.RepoCommandParameter }
    ensures response_type { REPO_COMMAND_RESPONSE ≡ types.RepoCommandResponse }
    ensures first { START_BLOCK_ID ≡ types.StartBlockId }
    ensures last { END_BLOCK_ID ≡ types.EndBlockId }
    ensures process { PROCESS_ID ≡ types.ProcessId }
    ensures code { STATUS_CODE ≡ types.StatusCode }
    ensures inserted { INSERT_NUM ≡ types.InsertNum }
    ensures deleted { DELETE_NUM ≡ types.DeleteNum }
{}

/// The status codes are those of the profile.
pub fn status_codes_are_the_profiles()
    ensures accepted { ACCEPTED ≡ status.Accepted }
    ensures done { DONE ≡ status.Done }
    ensures in_progress { IN_PROGRESS ≡ status.InProgress }
    ensures not_validated { NOT_VALIDATED ≡ status.NotValidated }
    ensures malformed { MALFORMED ≡ status.Malformed }
    ensures not_found { NOT_FOUND ≡ status.NotFound }
{}

/// The command that was made is checked: it is the command that was given, with the number of the client's key in the
/// ring. One that goes beyond the limits is refused as such.
pub fn made_commands_are_checked()
    ensures { (node key_name : List Component) (command : Command) (key : List ℕ) (ring : List NamedKey) (client : ℕ)
        → IsName node → length (encoding node) ≤ 200 → CommandIsSpelled command → named_length command ≤ 400
        → IsName key_name → length (encoding key_name) ≤ 205
        → key_number (encoding key_name) ring ≡ Some client
        → slice_get ring client ≡ Some (pair (encoding key_name) key)
        → command_verdict node ring (command_interest node command key_name key)
        ≡ (if is_command command then Ok (client, command) else Err BadParameter) }
{}

/// What is taken is within the limits of commands, and of a client of the ring.
pub fn taken_commands_are_within_limits()
    ensures { (node : List Component) (ring : List NamedKey) (octets : List ℕ) (client : ℕ) (command : Command)
        → command_verdict node ring octets ≡ Ok (client, command)
        → IsTrue (is_command command) × (client < length ring) }
{}

/// The refusal of octets follows from the octets, and is never out of memory: each has its status code.
pub fn command_refusals_are_of_the_octets()
    ensures { (node : List Component) (ring : List NamedKey) (octets : List ℕ)
        → IfErr (command_verdict node ring octets) (λ refusal. refusal ≢ NoMemory) }
{}

/// What the test of a command's name says: it is the node's, the verb and one parameters digest.
pub fn commands_are_tested()
    ensures { (node name : List Component) (verb : Verb) → IsName node → IsName name
        → (verb_in node name ≡ Some verb)
        ↔ ((digest : List ℕ)
        × (name ≡ node ++ verb_component verb ∷ (standard.ParametersSha256DigestComponent, digest) ∷ [])) }
{}

/// An answer that was written is read back.
pub fn written_answers_are_read()
    ensures { (answer : Answer) → IsAnswer answer → answer_of (written_answer answer) ≡ Some answer }
{}

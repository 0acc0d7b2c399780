ghost use Rattle.std.specs.Prelude.{◌≡◌, ◌≢◌, ◌⊎◌, ◌<◌, ℕ, [], None, Some, IfSome, map, string_bytes};
ghost use Rattle.std.specs.Option.{option_map};
ghost use Rattle.repo_io.specs.Outside.{GainsText, GainsPrefix, HasRisen};
ghost use Rattle.repo_io.specs.Statuses.{IsEndOfRun};
ghost use Rattle.script_story.specs.Answers.{status_of};
ghost use Rattle.script_story.specs.Evaluation.{env_by};
ghost use Rattle.repo_top.specs.Carrying.{Known, WritesLines};
ghost use Rattle.repo_top.specs.Forms.{IsRun, asked_of, asked_run};
ghost use Rattle.repo_top.specs.Generator.{gen_text};
ghost use Rattle.repo_top.specs.Inspection.{inspect_run};
ghost use Rattle.repo_top.specs.Outcomes.{HasCause, LeavesLast, ReadsInput, ReportsRun, UsageIsOfWords};

use crate::asked::{Asked, asked_of};
use crate::generator::{GenerateError, GeneratorInputs, write_script};
use crate::inspection::{MOST_OCTETS, tell_inspection};
use crate::running::run_script;
use bench_net::{Draws, Net};
use bench_world::World;
use repo_io::{ReadFault, Sink, Source, Status, read_up_to, write_whole};
use std::alloc::Global;
use std::thread::Threads;

/// Does what the words ask for. `run` carries out the script of the source line by line: it holds at most 65,536 octets
/// that it has read and not carried out, and writes the report of a line before it carries out the next. `inspect`
/// reads hexadecimal digits to their end, and writes the lines of the elements that their octets are. `gen` with a
/// number of members, a number of objects and a seed writes a script line by line.
///
/// `end` becomes the last world of a script that is done and has an event.
pub fn run<R: Threads + Sync, S: Source, K: Sink, N: Net + Sync, D: Draws>(
    rt: &R,
    alloc: Global,
    words: &[String],
    source: &mut S,
    sink: &mut K,
    net: &N,
    draws: &D,
    end: &mut Option<World>,
) -> Status
    requires { end.old ≡ None }

    // `Usage` is answered exactly where the words are no form, and then nothing is read or written.
    ensures usage { UsageIsOfWords (asked_of (map string_bytes words.now)) result
        (source.new ≡ source.old) (sink.new ≡ sink.old) }

    // On `Done`, `Refused` and `Foreign` the status is the end of the run that the words ask for, and what was written
    // is its text. Whatever the status, what was written is a prefix of that text.
    ensures script_run { ReportsRun (asked_run (env_by (D.draw draws.now) (N.passes net.now))
        (asked_of (map string_bytes words.now)) (S.left source.old)) (K.out sink.old) (K.out sink.new) result }

    // A form that reads and is done has read its input to the end. `gen` reads nothing.
    ensures input { ReadsInput (asked_of (map string_bytes words.now)) (S.left source.old) (S.left source.new) result
        (source.new ≡ source.old) (sink.new ≡ sink.old) }

    // On `Done`, `end` is the world of the run, with its mirrors, and there is none in any other case.
    ensures world { LeavesLast (asked_of (map string_bytes words.now))
        (asked_run (env_by (D.draw draws.now) (N.passes net.now)) (asked_of (map string_bytes words.now))
        (S.left source.old)) result end.new }

    // The other answers have their causes. Memory may run out at any time.
    ensures causes { HasCause (asked_of (map string_bytes words.now))
        (asked_run (env_by (D.draw draws.now) (N.passes net.now)) (asked_of (map string_bytes words.now))
        (S.left source.old)) result (HasRisen (S.faults source.old) (S.faults source.new))
        (HasRisen (K.faults sink.old) (K.faults sink.new)) }

    // A script is carried out line by line: each report is written before the next line is carried out, and little is
    // read past the line at which the run stops.
    ensures lines { IsRun (asked_of (map string_bytes words.now)) → Known (S.left source.old) (S.left source.new)
        (WritesLines (env_by (D.draw draws.now) (N.passes net.now)) (K.out sink.old) (K.out sink.new) result) }
{
    match asked_of(words) {
        Some(Asked::Run) => run_script(rt, alloc, source, sink, net, draws, end),
        Some(Asked::Inspect) => inspect(alloc, source, sink),
        Some(Asked::Gen(measures)) => generate(measures, alloc, sink),
        None => Status::Usage,
    }
}

// Writes the script with these numbers of members and objects, and this seed.
fn generate<K: Sink>(measures: GeneratorInputs, alloc: Global, sink: &mut K) -> Status
    requires { 0 < measures.members }
    ensures ends { (result ≡ Status.Done) ⊎ ((result ≡ Status.NoMemory) ⊎ (result ≡ Status.WriteFault)) }
    ensures text { result ≡ Status.Done → GainsText (K.out sink.old) (K.out sink.new) (gen_text measures) }
    ensures write_fault { result ≡ Status.WriteFault
        → HasRisen (K.faults sink.old) (K.faults sink.new) }
    ensures prefix { GainsPrefix (K.out sink.old) (K.out sink.new) (gen_text measures)
        (result ≡ Status.WriteFault) }
{
    match write_script(alloc, sink, measures) {
        Ok(()) => Status::Done,
        Err(GenerateError::Failed) => Status::WriteFault,
        Err(GenerateError::NoMemory) => Status::NoMemory,
    }
}

// Reads the digits, and writes the lines of the elements that they are.
fn inspect<S: Source, K: Sink>(alloc: Global, source: &mut S, sink: &mut K) -> Status
    ensures end { IsEndOfRun result
        → IfSome (option_map inspect_run (S.left source.old)) (λ script_run. result ≡ status_of script_run.ending) }
    ensures text { IsEndOfRun result → IfSome (option_map inspect_run (S.left source.old))
        (λ script_run. GainsText (K.out sink.old) (K.out sink.new) script_run.text) }
    ensures read_to_end { result ≡ Status.Done
        → IfSome (S.left source.old) (λ input. S.left source.new ≡ Some []) }
    ensures read_fault { result ≡ Status.ReadFault
        → HasRisen (S.faults source.old) (S.faults source.new) × (sink.new ≡ sink.old) }
    ensures write_fault { result ≡ Status.WriteFault
        → HasRisen (K.faults sink.old) (K.faults sink.new) }
    ensures never { ((line : ℕ) → result ≢ Status.Foreign line) × (result ≢ Status.Usage) }
    ensures prefix { IfSome (option_map inspect_run (S.left source.old))
        (λ script_run. GainsPrefix (K.out sink.old) (K.out sink.new) script_run.text (result ≡ Status.WriteFault)) }
    ensures complete { ¬ HasRisen (S.faults source.old) (S.faults source.new)
        → ¬ HasRisen (K.faults sink.old) (K.faults sink.new)
        → IfSome (option_map inspect_run (S.left source.old))
        (λ script_run. (result ≡ status_of script_run.ending) ⊎ (result ≡ Status.NoMemory)) }
{
    // One octet more than an input may have, so that a longer input is recognised.
    let input = match read_up_to(alloc, source, MOST_OCTETS + 1) {
        Ok(input) => input,
        Err(ReadFault::Failed) => return Status::ReadFault,
        Err(ReadFault::NoMemory) => return Status::NoMemory,
    };
    write_inspection(alloc, input, sink)
}

// Inspects the input, and writes the text of the inspection.
fn write_inspection<K: Sink>(alloc: Global, input: Vec<u8>, sink: &mut K) -> Status
    ensures ends { (result ≡ status_of (inspect_run input.items).ending)
        ⊎ ((result ≡ Status.NoMemory) ⊎ (result ≡ Status.WriteFault)) }
    ensures text { IsEndOfRun result
        → GainsText (K.out sink.old) (K.out sink.new) (inspect_run input.items).text }
    ensures write_fault { result ≡ Status.WriteFault
        → HasRisen (K.faults sink.old) (K.faults sink.new) }
    ensures never_foreign { (line : ℕ) → result ≢ Status.Foreign line }
    ensures prefix { GainsPrefix (K.out sink.old) (K.out sink.new) (inspect_run input.items).text
        (result ≡ Status.WriteFault) }
{
    let Ok(printed) = tell_inspection(alloc, input) else {
        return Status::NoMemory;
    };
    match write_whole(sink, &printed.text) {
        Ok(()) => Status::from(printed.ending),
        Err(_) => Status::WriteFault,
    }
}

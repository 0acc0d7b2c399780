ghost use Rattle.std.specs.Prelude.{◌≡◌, ◌≢◌, Some, map, string_bytes};
ghost use Rattle.repo_io.specs.Outside.{GainsPrefix, GainsText, HasRisen};
ghost use Rattle.lab_text.specs.Outcomes.{HasCause, WritesOutcome};
ghost use Rattle.lab_top.specs.Forms.{IsWithin, asked_of};
ghost use Rattle.lab_top.specs.Lab.{ReadsInput, UsageIsOfWords, lab_outcome};
ghost use Rattle.lab_top.specs.Usage.{usage_text};

use crate::asked::{Asked, asked_of};
use lab_capture::capture;
use lab_lines::{check, transcript};
use lab_lint::lint;
use lab_picture::draw;
use lab_seeds::{seeded, seeds};
use lab_text::LabStatus;
use lab_trace::trace;
use repo_io::{Sink, Source, write_whole};
use std::alloc::Global;
use std::thread::Threads;

// A line for each form.
const USAGE: &str = "ndnlab transcript [SEED]\n\
    ndnlab trace [SEED]\n\
    ndnlab check [SEED]\n\
    ndnlab lint\n\
    ndnlab seeds FIRST LAST WORKERS\n\
    ndnlab capture [SEED]\n\
    ndnlab draw [SEED]\n";

/// Does what the words ask for, over the script of the source, and writes its text to the sink. A seed decides the
/// draws of the members and what the network loses; `ndnrepo run` has those of seed 0.
///
/// Words that are no form are answered by a line for each form.
pub fn run_lab<R: Threads + Sync, S: Source, K: Sink>(
    rt: &R,
    alloc: Global,
    words: &[String],
    source: &mut S,
    sink: &mut K,
) -> LabStatus
    // The status is `Usage` exactly where the words are no form. Then nothing is read, and the usage is written, unless
    // the sink fails.
    ensures usage { UsageIsOfWords (asked_of (map string_bytes words.now)) result (source.new ≡ source.old)
        (K.out sink.old) (K.out sink.new) (HasRisen (K.faults sink.old) (K.faults sink.new)) }

    // On `Done`, `Refused`, `Foreign` and `Differs` the status is the one of the outcome that the words ask for, and
    // what was written is its text. In any case what was written is a prefix of that text.
    ensures writes { WritesOutcome (lab_outcome (asked_of (map string_bytes words.now)) (S.left source.old))
        (K.out sink.old) (K.out sink.new) result }

    // The other answers have their causes. Memory may run out at any time.
    ensures causes { HasCause (lab_outcome (asked_of (map string_bytes words.now)) (S.left source.old)) result
        (HasRisen (S.faults source.old) (S.faults source.new)) (HasRisen (K.faults sink.old) (K.faults sink.new)) }

    // What a transcript, a trace or a capture has of a line is written before the next one is looked for, and little is
    // read past the line that stops the script.
    ensures input { ReadsInput (asked_of (map string_bytes words.now)) (S.left source.old) (S.left source.new)
        (K.out sink.old) (K.out sink.new) result }
{
    match asked_of(words) {
        Some(asked) => run_form(rt, alloc, asked, source, sink),
        None => write_usage(sink),
    }
}

// Does what was asked for.
fn run_form<R: Threads + Sync, S: Source, K: Sink>(
    rt: &R,
    alloc: Global,
    asked: Asked,
    source: &mut S,
    sink: &mut K,
) -> LabStatus
    requires { IsWithin asked }
    ensures writes { WritesOutcome (lab_outcome (Some asked) (S.left source.old))
        (K.out sink.old) (K.out sink.new) result }
    ensures causes { HasCause (lab_outcome (Some asked) (S.left source.old)) result
        (HasRisen (S.faults source.old) (S.faults source.new)) (HasRisen (K.faults sink.old) (K.faults sink.new)) }
    ensures input { ReadsInput (Some asked) (S.left source.old) (S.left source.new)
        (K.out sink.old) (K.out sink.new) result }
    ensures never_usage { result ≢ LabStatus.Usage }
{
    match asked {
        Asked::Transcript(seed) => {
            let env = seeded(seed);
            transcript(rt, alloc, source, sink, &env, &env)
        }
        Asked::Trace(seed) => {
            let env = seeded(seed);
            trace(rt, alloc, source, sink, &env, &env)
        }
        Asked::Check(seed) => {
            let env = seeded(seed);
            check(rt, alloc, source, sink, &env, &env)
        }
        Asked::Lint => lint(alloc, source, sink),
        Asked::Seeds(span) => {
            let workers = span.workers as u32;
            seeds(rt, alloc, span.first, span.last, workers, source, sink)
        }
        Asked::Capture(seed) => {
            let env = seeded(seed);
            capture(rt, alloc, source, sink, &env, &env)
        }
        Asked::Draw(seed) => {
            let env = seeded(seed);
            draw(rt, alloc, source, sink, &env, &env)
        }
    }
}

// Writes a line for each form.
fn write_usage<K: Sink>(sink: &mut K) -> LabStatus
    ensures usage { result ≡ LabStatus.Usage }
    ensures whole { ¬ HasRisen (K.faults sink.old) (K.faults sink.new)
        → GainsText (K.out sink.old) (K.out sink.new) usage_text }
    ensures prefix { GainsPrefix (K.out sink.old) (K.out sink.new) usage_text (result ≡ LabStatus.WriteFault) }
{
    let _ = write_whole(sink, USAGE.as_bytes());
    LabStatus::Usage
}

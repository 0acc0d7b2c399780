ghost use Rattle.std.specs.Prelude.{◌≡◌, ◌≢◌, ◌≤◌, None, Err, IfErr, IfOk};
ghost use Rattle.repo_io.specs.Outside.{HasRisen};
ghost use Rattle.repo_io.specs.Lines.{lines};
ghost use Rattle.script_story.specs.Evaluation.{env_by};
ghost use Rattle.script_lines.specs.Reading.{LineIsBegun};
ghost use Rattle.script_lines.specs.Scripts.{IsScript, reached};
ghost use Rattle.repo_top.specs.Carrying.{Finishes, Halts, Known, Ran, Stops, Took};

use bench_net::{Draws, Net};
use bench_world::World;
use repo_io::{Sink, Source, Status, write_whole};
use script_lines::{LineError, LineReader, Next, Script, put_line_error};
use std::alloc::Global;
use std::thread::Threads;

// Carries out the script of the source, one line after another, each before more is read than the reader can hold.
// Where the script is done, `end` becomes its world.
pub(crate) fn run_script<R: Threads + Sync, S: Source, K: Sink, N: Net + Sync, D: Draws>(
    rt: &R,
    alloc: Global,
    source: &mut S,
    sink: &mut K,
    net: &N,
    draws: &D,
    end: &mut Option<World>,
) -> Status
    requires { end.old ≡ None }
    ensures ran { Known (S.left source.old) (S.left source.new)
        (Ran (env_by (D.draw draws.now) (N.passes net.now)) (K.out sink.old) (K.out sink.new) result end.new) }
    ensures no_world { result ≢ Status.Done → end.new ≡ None }
    ensures read_fault { result ≡ Status.ReadFault
        → HasRisen (S.faults source.old) (S.faults source.new) }
    ensures write_fault { result ≡ Status.WriteFault
        → HasRisen (K.faults sink.old) (K.faults sink.new) }
    ensures never_usage { result ≢ Status.Usage }
{
    let Ok(mut reader) = LineReader::new(alloc) else {
        return Status::NoMemory;
    };
    let mut script = Script::new(alloc);
    let mut report = Vec::new(alloc);
    loop {
        match reader.next(source) {
            Ok(Next::Line(count)) => {
                let line = reader.prefix(count);
                script = match carry_out(rt, script, line, &mut report, sink, net, draws) {
                    Ok(next) => next,
                    Err(status) => return status,
                };
                reader.pass(count);
            }
            Ok(Next::Last) => {
                let line = reader.held();
                return run_last(rt, script, line, &mut report, sink, net, draws, end);
            }
            Err(_) => return Status::ReadFault,
        }
    }
}

// Carries out the last line, if there is one. Where the script is done, `end` becomes its world.
fn run_last<R: Threads + Sync, K: Sink, N: Net + Sync, D: Draws>(
    rt: &R,
    script: Script,
    line: &[u8],
    report: &mut Vec<u8>,
    sink: &mut K,
    net: &N,
    draws: &D,
    end: &mut Option<World>,
) -> Status
    requires is { IsScript script }
    requires last { LineIsBegun line.now }
    ensures finishes { Finishes (env_by (D.draw draws.now) (N.passes net.now)) (reached script) (lines line.now)
        end.new (K.out sink.old) (K.out sink.new) result }
    ensures no_world { result ≢ Status.Done → end.new ≡ end.old }
    ensures write_fault { result ≡ Status.WriteFault
        → HasRisen (K.faults sink.old) (K.faults sink.new) }
    ensures never_usage { result ≢ Status.Usage }
{
    if line.is_empty() {
        *end = script.into_world();
        return Status::Done;
    }
    match carry_out(rt, script, line, report, sink, net, draws) {
        Ok(next) => {
            *end = next.into_world();
            Status::Done
        }
        Err(status) => status,
    }
}

// Carries out the next line, which includes its line feed, and writes its report. Where the run stops at the line, its
// `refused` or `foreign` line is written instead.
fn carry_out<R: Threads + Sync, K: Sink, N: Net + Sync, D: Draws>(
    rt: &R,
    script: Script,
    line: &[u8],
    report: &mut Vec<u8>,
    sink: &mut K,
    net: &N,
    draws: &D,
) -> Result<Script, Status>
    requires { IsScript script }
    ensures took { IfOk result (λ next. Took (env_by (D.draw draws.now) (N.passes net.now)) (reached script)
        line.now (reached next) (K.out sink.old) (K.out sink.new)) }
    ensures is { IfOk result IsScript }
    ensures stops { IfErr result (Stops (env_by (D.draw draws.now) (N.passes net.now)) (reached script) line.now
        (K.out sink.old) (K.out sink.new)) }
    ensures risen { result ≡ Err Status.WriteFault
        → HasRisen (K.faults sink.old) (K.faults sink.new) }
    ensures faults { K.faults sink.old ≤ K.faults sink.new }
{
    let number = script.next_line();
    match script.take(rt, line, report, net, draws) {
        Ok(next) => match write_whole(sink, report) {
            Ok(()) => Ok(next),
            Err(_) => Err(Status::WriteFault),
        },
        Err(error) => Err(write_stop(report, number, error, sink)),
    }
}

// Writes why the run stops at the line of this number.
fn write_stop<K: Sink>(report: &mut Vec<u8>, line: u32, error: LineError, sink: &mut K) -> Status
    ensures halts { Halts line error (K.out sink.old) (K.out sink.new) result }
    ensures risen { result ≡ Status.WriteFault → HasRisen (K.faults sink.old) (K.faults sink.new) }
    ensures faults { K.faults sink.old ≤ K.faults sink.new }
{
    let Ok(status) = put_line_error(report, line, error) else {
        return Status::NoMemory;
    };
    match write_whole(sink, report) {
        Ok(()) => status,
        Err(_) => Status::WriteFault,
    }
}

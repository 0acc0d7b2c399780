ghost use Rattle.std.specs.Prelude.{◌≡◌, ◌≢◌, []};
ghost use Rattle.repo_io.specs.Lines.{lines};
ghost use Rattle.repo_io.specs.Outside.{HasRisen};
ghost use Rattle.script_story.specs.Evaluation.{env_by};
ghost use Rattle.script_story.specs.ScriptRun.{nothing_reached};
ghost use Rattle.script_lines.specs.Reading.{LineIsBegun};
ghost use Rattle.script_lines.specs.Scripts.{IsScript, reached};
ghost use Rattle.lab_lines.specs.Carrying.{CanGoOn, Ends, IsSettled, RunEnds, passed};
ghost use Rattle.lab_lines.specs.Folding.{outcome_of, ran_from};
ghost use Rattle.lab_lines.specs.Written.{CarriesOut, Known};

use crate::carrying::{Page, end_form, pass_line};
use crate::form::Form;
use crate::over::Over;
use crate::reading_on::after_stop;
use crate::totals::Totals;
use bench_net::{Draws, Net};
use lab_text::LabStatus;
use repo_io::{Sink, Source};
use script_lines::{LineReader, Next, Script};
use script_story::Ending;
use std::alloc::Global;
use std::thread::Threads;

/// Carries out the script of the source line by line for a form, and writes what the form writes: the text of each line
/// before the next line is looked for, and then that of the end. At most 65,536 octets are held that were read and not
/// passed.
pub fn run_form<R: Threads + Sync, F: Form, S: Source, K: Sink, N: Net + Sync, D: Draws>(
    rt: &R,
    alloc: Global,
    form: &mut F,
    source: &mut S,
    sink: &mut K,
    net: &N,
    draws: &D,
) -> LabStatus
    // What was written is what the form makes of the script, line by line, and the status is its status.
    ensures { CarriesOut F.form (env_by (D.draw draws.now) (N.passes net.now)) form.old (S.left source.old)
        (S.left source.new) (K.out sink.old) (K.out sink.new) (HasRisen (S.faults source.old) (S.faults source.new))
        (HasRisen (K.faults sink.old) (K.faults sink.new)) result }
{
    let Ok(mut reader) = LineReader::new(alloc) else {
        return LabStatus::NoMemory;
    };
    let mut page = Page::new(alloc);
    run_lines(
        rt,
        Script::new(alloc),
        form,
        &mut reader,
        &mut page,
        source,
        sink,
        net,
        draws,
    )
}

// Passes one line after another, each before more is read than the reader can hold.
fn run_lines<R: Threads + Sync, F: Form, S: Source, K: Sink, N: Net + Sync, D: Draws>(
    rt: &R,
    begun: Script,
    form: &mut F,
    reader: &mut LineReader,
    page: &mut Page,
    source: &mut S,
    sink: &mut K,
    net: &N,
    draws: &D,
) -> LabStatus
    requires empty { reader.old ≡ [] }
    requires begun { reached begun ≡ nothing_reached }
    requires is { IsScript begun }
    ensures runs { Known (S.left source.old) (S.left source.new) (RunEnds F.form
        (env_by (D.draw draws.now) (N.passes net.now)) form.old (K.out sink.old) (K.out sink.new) result) }
    ensures read_fault { result ≡ LabStatus.ReadFault → HasRisen (S.faults source.old) (S.faults source.new) }
    ensures write_fault { result ≡ LabStatus.WriteFault → HasRisen (K.faults sink.old) (K.faults sink.new) }
    ensures never_usage { result ≢ LabStatus.Usage }
{
    let mut script = begun;
    let mut totals = Totals::new();
    loop {
        match reader.next(source) {
            Ok(Next::Line(count)) => {
                let line = reader.prefix(count);
                script = match pass_line(
                    rt,
                    script,
                    line,
                    &mut totals,
                    form,
                    page,
                    sink,
                    net,
                    draws,
                ) {
                    Ok(next) => next,
                    Err(Over::Stopped(ending)) => {
                        return after_stop(count, ending, totals, form, reader, page, source, sink);
                    }
                    Err(Over::Faulted(status)) => return status,
                };
                reader.pass(count);
            }
            Ok(Next::Last) => {
                let line = reader.held();
                return run_last(rt, script, line, totals, form, page, sink, net, draws);
            }
            Err(_) => return LabStatus::ReadFault,
        }
    }
}

// Passes the last line, if there is one, and ends the form.
fn run_last<R: Threads + Sync, F: Form, K: Sink, N: Net + Sync, D: Draws>(
    rt: &R,
    script: Script,
    line: &[u8],
    totals: Totals,
    form: &mut F,
    page: &mut Page,
    sink: &mut K,
    net: &N,
    draws: &D,
) -> LabStatus
    requires goes_on { CanGoOn script totals }
    requires last { LineIsBegun line.now }
    ensures ends { Ends (outcome_of F.form (ran_from F.form (env_by (D.draw draws.now) (N.passes net.now))
        (passed totals (reached script)) form.old (lines line.now))) (K.out sink.old) (K.out sink.new) result }
    ensures settled { IsSettled result }
    ensures write_fault { result ≡ LabStatus.WriteFault → HasRisen (K.faults sink.old) (K.faults sink.new) }
{
    if line.is_empty() {
        return end_form(form, Ending::Done, page, sink);
    }
    let mut totals = totals;
    match pass_line(rt, script, line, &mut totals, form, page, sink, net, draws) {
        Ok(_) => end_form(form, Ending::Done, page, sink),
        Err(Over::Stopped(ending)) => end_form(form, ending, page, sink),
        Err(Over::Faulted(status)) => status,
    }
}

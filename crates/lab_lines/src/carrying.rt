ghost use Rattle.std.specs.Prelude.{◌≡◌, ◌≤◌, None, Err, length, IfErr, IfOk, OnOk, option_map};
ghost use Rattle.script_story.specs.Evaluation.{env_by};
ghost use Rattle.script_lines.specs.Scripts.{reached};
ghost use Rattle.script_lines.specs.LineErrors.{line_error_text};
ghost use Rattle.lab_text.specs.Transcripts.{shown_text};
ghost use Rattle.lab_lines.specs.Carrying.{CanGoOn, CountsFaults, Ends, IsEndingOf, IsOver, IsSettled, IsStopWritten};
ghost use Rattle.lab_lines.specs.Carrying.{Passes, Writes, passed};
ghost use Rattle.lab_lines.specs.Folding.{lined};

use crate::form::Form;
use crate::over::Over;
use crate::totals::Totals;
use bench_net::{Draws, Net};
use lab_text::{LabStatus, is_note, shown_text};
use repo_io::{Sink, write_whole};
use script_lines::{LineError, Script, put_line_error};
use script_report::Refusal;
use script_story::Ending;
use std::alloc::{AllocError, Global};
use std::thread::Threads;

// The report of a line, and what a form writes of it.
#[derive(Drop)]
pub(crate) struct Page {
    pub report: Vec<u8>,
    pub text: Vec<u8>,
}

impl Page {
    pub fn new(alloc: Global) -> Page {
        Page {
            report: Vec::new(alloc),
            text: Vec::new(alloc),
        }
    }
}

// Passes the next line, which includes its line feed, and writes what the form writes of it.
pub(crate) fn pass_line<R: Threads + Sync, F: Form, K: Sink, N: Net + Sync, D: Draws>(
    rt: &R,
    script: Script,
    line: &[u8],
    totals: &mut Totals,
    form: &mut F,
    page: &mut Page,
    sink: &mut K,
    net: &N,
    draws: &D,
) -> Result<Script, Over>
    requires goes_on { CanGoOn script totals.old }
    requires short { length line.now ≤ 65536 }
    ensures passes { IfOk result (λ next. Passes F.form (env_by (D.draw draws.now) (N.passes net.now))
        (passed totals.old (reached script)) form.old line.now (passed totals.new (reached next)) form.new
        (K.out sink.old) (K.out sink.new)) }
    ensures goes_on { IfOk result (λ next. CanGoOn next totals.new) }
    ensures over { IfErr result (IsOver F.form (env_by (D.draw draws.now) (N.passes net.now))
        (passed totals.old (reached script)) form.old line.now totals.new form.new
        (K.out sink.old) (K.out sink.new)) }
    ensures faults { CountsFaults (result ≡ Err (Over.Faulted LabStatus.WriteFault)) (K.faults sink.old)
        (K.faults sink.new) }
{
    let number = script.next_line();
    let fits = totals.fits(line);
    totals.count(line);
    if !fits {
        return Err(stop_beyond(number, &script, line, form, page, sink));
    }
    if is_note(line) {
        return match form.note(line) {
            Ok(()) => Ok(script),
            Err(_) => Err(Over::Faulted(LabStatus::NoMemory)),
        };
    }
    let Ok(()) = look(&script, line, form) else {
        return Err(Over::Faulted(LabStatus::NoMemory));
    };
    match script.take(rt, line, &mut page.report, net, draws) {
        Ok(next) => match write_line(number, line, Some(&next), form, page, sink) {
            Ok(()) => Ok(next),
            Err(status) => Err(Over::Faulted(status)),
        },
        Err(error) => Err(stop_at(number, line, error, form, page, sink)),
    }
}

// Lets the form look at the script before a line of it.
fn look<F: Form>(script: &Script, line: &[u8], form: &mut F) -> Result<(), AllocError>
    ensures { OnOk result
        (form.new ≡ F.form.before form.old (reached script.now).state (shown_text line.now)) }
{
    form.before(script, shown_text(line))
}

// Lets the form look at the script before a line beyond the limits, and writes that the script stops at it.
fn stop_beyond<F: Form, K: Sink>(
    number: u32,
    script: &Script,
    line: &[u8],
    form: &mut F,
    page: &mut Page,
    sink: &mut K,
) -> Over
    ensures stops { IsStopWritten F.form number line.now (LineError.Refused Refusal.Limit)
        (F.form.before form.old (reached script.now).state (shown_text line.now)) form.new
        (K.out sink.old) (K.out sink.new) result }
    ensures faults { CountsFaults (result ≡ Over.Faulted LabStatus.WriteFault) (K.faults sink.old) (K.faults sink.new) }
{
    let Ok(()) = look(script, line, form) else {
        return Over::Faulted(LabStatus::NoMemory);
    };
    let beyond = LineError::Refused(Refusal::Limit);
    stop_at(number, line, beyond, form, page, sink)
}

// Writes that the script stops for this reason at the line of this number.
fn stop_at<F: Form, K: Sink>(
    number: u32,
    line: &[u8],
    error: LineError,
    form: &mut F,
    page: &mut Page,
    sink: &mut K,
) -> Over
    ensures stops { IsStopWritten F.form number line.now error form.old form.new (K.out sink.old) (K.out sink.new)
        result }
    ensures no_memory { error ≡ LineError.NoMemory → (result ≡ Over.Faulted LabStatus.NoMemory)
        × (K.out sink.new ≡ K.out sink.old) }
    ensures faults { CountsFaults (result ≡ Over.Faulted LabStatus.WriteFault) (K.faults sink.old) (K.faults sink.new) }
{
    let Ok(ending) = put_ending(&mut page.report, number, error) else {
        return Over::Faulted(LabStatus::NoMemory);
    };
    match write_line(number, line, None, form, page, sink) {
        Ok(()) => Over::Stopped(ending),
        Err(status) => Over::Faulted(status),
    }
}

// Writes into `report`, in place of its octets, why the script stops at the line of this number.
fn put_ending(report: &mut Vec<u8>, line: u32, error: LineError) -> Result<Ending, AllocError>
    ensures ending { IfOk result (IsEndingOf line error) }
    ensures text { OnOk result (report.new.items ≡ line_error_text line error) }
{
    put_line_error(report, line, error)?;
    match error {
        LineError::Refused(refusal) => Ok(Ending::Refused {
            line,
            number: refusal.number(),
        }),
        LineError::Foreign => Ok(Ending::Foreign { line }),
        LineError::NoMemory => Err(AllocError),
    }
}

// Writes what the form writes of a line that has the page's report.
fn write_line<F: Form, K: Sink>(
    number: u32,
    line: &[u8],
    after: Option<&Script>,
    form: &mut F,
    page: &mut Page,
    sink: &mut K,
) -> Result<(), LabStatus>
    ensures writes { Writes (F.form.text form.old (lined number (shown_text line.now) page.old.report.items
        (option_map (λ script. (reached script.now).state) after.entry))) (K.out sink.old) (K.out sink.new) result }
    ensures kept { OnOk result (form.new ≡ F.form.line form.old (lined number (shown_text line.now)
        page.old.report.items (option_map (λ script. (reached script.now).state) after.entry))) }
    ensures faults { CountsFaults (result ≡ Err LabStatus.WriteFault) (K.faults sink.old) (K.faults sink.new) }
{
    page.text.clear();
    match form.line(
        number,
        shown_text(line),
        &page.report,
        after,
        &mut page.text,
    ) {
        Ok(()) => write_text(&page.text, sink),
        Err(_) => Err(LabStatus::NoMemory),
    }
}

// Writes a text.
fn write_text<K: Sink>(text: &[u8], sink: &mut K) -> Result<(), LabStatus>
    ensures writes { Writes text.now (K.out sink.old) (K.out sink.new) result }
    ensures faults { CountsFaults (result ≡ Err LabStatus.WriteFault) (K.faults sink.old) (K.faults sink.new) }
{
    match write_whole(sink, text) {
        Ok(()) => Ok(()),
        Err(_) => Err(LabStatus::WriteFault),
    }
}

// Ends the form with the script.
pub(crate) fn end_form<F: Form, K: Sink>(
    form: &mut F,
    ending: Ending,
    page: &mut Page,
    sink: &mut K,
) -> LabStatus
    ensures ends { Ends (F.form.end form.old ending) (K.out sink.old) (K.out sink.new) result }
    ensures settled { IsSettled result }
    ensures faults { CountsFaults (result ≡ LabStatus.WriteFault) (K.faults sink.old) (K.faults sink.new) }
{
    page.text.clear();
    let Ok(status) = form.end(ending, &mut page.text) else {
        return LabStatus::NoMemory;
    };
    match write_text(&page.text, sink) {
        Ok(()) => status,
        Err(fault) => fault,
    }
}

ghost use Rattle.std.specs.Prelude.{◌≡◌, ◌≢◌, ◌≤◌, ◌&&◌, length, take, drop, IfErr, IfOk, OnErr, Err};
ghost use Rattle.std.specs.Io.KnownBytes.{Keeps, prepend_known};
ghost use Rattle.repo_io.specs.Outside.{HasRisen};
ghost use Rattle.script_lang.specs.Lines.{ends_with};
ghost use Rattle.lab_lines.specs.Carrying.{EndsAfter, IsPiece, IsUnread, NotesAreRead, RestIsPassed, RestIsRead};
ghost use Rattle.lab_lines.specs.Folding.{fits};
ghost use Rattle.lab_lines.specs.Written.{Known};
ghost use Rattle.lab_text.specs.Notes.{is_note};

use crate::carrying::{Page, end_form};
use crate::form::Form;
use crate::totals::Totals;
use lab_text::{LabStatus, is_note};
use repo_io::{Failed, Sink, Source};
use script_lines::{LineReader, Next};
use script_story::Ending;

// The script stopped at a line, of which the first `count` octets held are: a form that reads on takes the notes right
// after the line, and then it ends.
pub(crate) fn after_stop<F: Form, S: Source, K: Sink>(
    count: usize,
    ending: Ending,
    totals: Totals,
    form: &mut F,
    reader: &mut LineReader,
    page: &mut Page,
    source: &mut S,
    sink: &mut K,
) -> LabStatus
    requires within { count ≤ length reader.old }
    ensures ends { Known (S.left source.old) (S.left source.new) (EndsAfter F.form ending totals.lines totals.octets
        form.old (take count reader.old) (drop count reader.old) (K.out sink.old) (K.out sink.new) result) }
    ensures never_usage { result ≢ LabStatus.Usage }
    ensures read_fault { result ≡ LabStatus.ReadFault → HasRisen (S.faults source.old) (S.faults source.new) }
    ensures write_fault { result ≡ LabStatus.WriteFault → HasRisen (K.faults sink.old) (K.faults sink.new) }
{
    if !form.reads_on() {
        return end_form(form, ending, page, sink);
    }
    let ended = has_end(reader.prefix(count));
    reader.pass(count);
    match read_on(ended, totals, form, reader, source) {
        Ok(()) => end_form(form, ending, page, sink),
        Err(status) => status,
    }
}

// Takes the notes right after a line. `ended` says whether the end of the line was passed.
fn read_on<F: Form, S: Source>(
    ended: bool,
    totals: Totals,
    form: &mut F,
    reader: &mut LineReader,
    source: &mut S,
) -> Result<(), LabStatus>
    ensures read { Known (S.left source.old) (S.left source.new)
        (RestIsRead F.form ended totals form.old form.new reader.old result) }
    ensures unread { IfErr result IsUnread }
    ensures read_fault { result ≡ Err LabStatus.ReadFault → HasRisen (S.faults source.old) (S.faults source.new) }
{
    if ended {
        return read_notes(totals, form, reader, source);
    }
    let mut totals = totals;
    match pass_rest(&mut totals, reader, source) {
        Ok(()) => read_notes(totals, form, reader, source),
        Err(_) => Err(LabStatus::ReadFault),
    }
}

// Passes the rest of a line whose line feed is not among the octets so far, or so much of it that nothing after it is
// within the limits.
fn pass_rest<S: Source>(
    totals: &mut Totals,
    reader: &mut LineReader,
    source: &mut S,
) -> Result<(), Failed>
    ensures passed { Known (S.left source.old) (S.left source.new)
        (RestIsPassed totals.old totals.new reader.old reader.new result) }
    ensures risen { OnErr result (HasRisen (S.faults source.old) (S.faults source.new)) }
    ensures faults { S.faults source.old ≤ S.faults source.new }
{
    while totals.is_open() {
        let (count, ended) = next_piece(reader, source)?;
        totals.count_more(reader.prefix(count));
        reader.pass(count);
        if ended {
            return Ok(());
        }
    }
    Ok(())
}

// Takes the notes at the beginning of the octets that are held or unread.
fn read_notes<F: Form, S: Source>(
    totals: Totals,
    form: &mut F,
    reader: &mut LineReader,
    source: &mut S,
) -> Result<(), LabStatus>
    ensures read { Known (S.left source.old) (S.left source.new)
        (NotesAreRead F.form totals form.old form.new reader.old result) }
    ensures unread { IfErr result IsUnread }
    ensures read_fault { result ≡ Err LabStatus.ReadFault → HasRisen (S.faults source.old) (S.faults source.new) }
{
    let mut totals = totals;
    loop {
        let Ok((count, _)) = next_piece(reader, source) else {
            return Err(LabStatus::ReadFault);
        };
        let line = reader.prefix(count);
        if !is_next_note(totals, line) {
            return Ok(());
        }
        let Ok(()) = form.note(line) else {
            return Err(LabStatus::NoMemory);
        };
        totals.count(line);
        reader.pass(count);
    }
}

// Whether the next line is a note within the limits.
fn is_next_note(totals: Totals, line: &[u8]) -> bool
    ensures { result ≡ (fits totals.lines totals.octets line.now && is_note line.now) }
{
    totals.fits(line) && is_note(line)
}

// The number of octets that are the next line, or the next piece of one that is too long, and whether the line ends
// with them.
fn next_piece<S: Source>(reader: &mut LineReader, source: &mut S) -> Result<(usize, bool), Failed>
    ensures kept { Keeps (prepend_known reader.old (S.left source.old)) (prepend_known reader.new (S.left source.new)) }
    ensures few { length reader.new ≤ 65536 }
    ensures piece { IfOk result (λ piece. IsPiece reader.new (S.left source.new) piece.0 piece.1) }
    ensures risen { OnErr result (HasRisen (S.faults source.old) (S.faults source.new)) }
    ensures faults { S.faults source.old ≤ S.faults source.new }
{
    match reader.next(source)? {
        Next::Line(count) => Ok((count, has_end(reader.prefix(count)))),
        Next::Last => Ok((reader.held().len(), true)),
    }
}

// Whether a line feed ends the octets.
fn has_end(octets: &[u8]) -> bool
    ensures { result ≡ ends_with 10 octets.now }
{
    matches!(octets, [.., b'\n'])
}

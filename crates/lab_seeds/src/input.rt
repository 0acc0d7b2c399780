ghost use Rattle.std.specs.Prelude.{◌≡◌, [], true, false, length, Err, Ok, IfOk};
ghost use Rattle.repo_io.specs.Lines.{lines};
ghost use Rattle.repo_io.specs.Outside.{HasRisen};
ghost use Rattle.script_lines.specs.Reading.{LineIsBegun};
ghost use Rattle.lab_text.specs.LineTexts.{without_feed};
ghost use Rattle.lab_text.specs.Notes.{is_note};
ghost use Rattle.lab_seeds.specs.Inputs.{fits, fits_input, fits_script, no_totals, script_from, script_lines_are};
ghost use Rattle.lab_seeds.specs.Inputs.{with_line};
ghost use Rattle.lab_seeds.specs.Reading.{AreWithin, IsRead, Known, Takes, lines_before, lines_read, octets_of};

use lab_text::{MOST_LINES, MOST_OCTETS, is_note, without_feed};
use repo_io::{ReadFault, Source};
use script_lang::{LINE_LIMIT, LINES_LIMIT, SCRIPT_LIMIT};
use script_lines::{LineReader, Next};
use std::alloc::{AllocError, Global};

// The lines of a script without its notes, each with its line feed.
#[derive(Drop)]
pub(crate) struct ScriptLines {
    pub(crate) lines: Vec<Vec<u8>>,
    // Whether another line follows these, which exceeds a limit.
    pub(crate) cut: bool,
}

// How much was read of an input, and how much of that is of its script.
#[derive(Clone, Copy)]
struct Totals {
    lines: u32,
    octets: usize,
    script_lines: u32,
    script_octets: usize,
}

impl Totals {
    fn new() -> Totals
        ensures { result ≡ no_totals }
    {
        Totals {
            lines: 0,
            octets: 0,
            script_lines: 0,
            script_octets: 0,
        }
    }

    // Whether one more line exceeds no limit.
    fn fits(&self, line: &[u8]) -> bool
        requires { AreWithin self.now }
        ensures { result ≡ fits self.now line.now }
    {
        self.fits_input(line) && (is_note(line) || self.fits_script(line))
    }

    // Whether one more line exceeds no limit of a line or of the input.
    fn fits_input(&self, line: &[u8]) -> bool
        requires { AreWithin self.now }
        ensures { result ≡ fits_input self.now line.now }
    {
        without_feed(line).len() <= LINE_LIMIT
            && self.lines < MOST_LINES
            && self.octets + line.len() <= MOST_OCTETS
    }

    // Whether one more line of the script exceeds no limit of the script.
    fn fits_script(&self, line: &[u8]) -> bool
        requires { AreWithin self.now }
        ensures { result ≡ fits_script self.now line.now }
    {
        self.script_lines < LINES_LIMIT && self.script_octets + line.len() <= SCRIPT_LIMIT
    }

    // Counts a line that exceeds no limit.
    fn count(self, line: &[u8]) -> Totals
        requires within { AreWithin self }
        requires fits { fits self line.now ≡ true }
        ensures counted { result ≡ with_line self line.now }
        ensures within { AreWithin result }
    {
        let lines = self.lines + 1;
        let octets = self.octets + line.len();
        if is_note(line) {
            return Totals {
                lines,
                octets,
                ..self
            };
        }
        Totals {
            lines,
            octets,
            script_lines: self.script_lines + 1,
            script_octets: self.script_octets + line.len(),
        }
    }
}

// The lines of a script so far, and how much was read.
#[derive(Drop)]
struct SoFar {
    alloc: Global,
    lines: Vec<Vec<u8>>,
    totals: Totals,
}

impl SoFar {
    fn new(alloc: Global) -> SoFar
        ensures lines { octets_of result.lines.items ≡ [] }
        ensures totals { result.totals ≡ no_totals }
    {
        SoFar {
            alloc,
            lines: Vec::new(alloc),
            totals: Totals::new(),
        }
    }

    // Takes one more line, unless it exceeds a limit. A note is counted, and not kept.
    fn take(&mut self, line: &[u8]) -> Result<bool, AllocError>
        requires { AreWithin self.old.totals }
        ensures within { AreWithin self.new.totals }
        ensures taken { result ≡ Ok true → Takes self.old line.now self.new }
        ensures cut { result ≡ Ok false → fits self.old.totals line.now ≡ false }
        ensures same { result ≡ Ok false → octets_of self.new.lines.items ≡ octets_of self.old.lines.items }
    {
        if !self.totals.fits(line) {
            return Ok(false);
        }
        let totals = self.totals.count(line);
        if !is_note(line) {
            self.lines.push(line.to_vec(self.alloc)?)?;
        }
        self.totals = totals;
        Ok(true)
    }

    // The script, where no line follows those that were taken.
    fn whole(self) -> ScriptLines
        ensures { lines_read result ≡ script_lines_are (octets_of self.lines.items) false }
    {
        ScriptLines {
            lines: self.lines,
            cut: false,
        }
    }

    // The script before a line that exceeds a limit.
    fn cut_off(self) -> ScriptLines
        ensures { lines_read result ≡ script_lines_are (octets_of self.lines.items) true }
    {
        ScriptLines {
            lines: self.lines,
            cut: true,
        }
    }

    // The whole script, with the octets that stand after the last line feed.
    fn finish(mut self, last: &[u8]) -> Result<ScriptLines, AllocError>
        requires within { AreWithin self.totals }
        requires begun { LineIsBegun last.now }
        ensures { IfOk result (λ script. lines_read script
            ≡ lines_before (octets_of self.lines.items) (script_from self.totals (lines last.now))) }
    {
        if last.is_empty() {
            return Ok(self.whole());
        }
        if !self.take(last)? {
            return Ok(self.cut_off());
        }
        Ok(self.whole())
    }
}

// Reads the script of the source. After the first line that exceeds a limit no more is read.
pub(crate) fn read_script<S: Source>(
    alloc: Global,
    source: &mut S,
) -> Result<ScriptLines, ReadFault>
    ensures read { IfOk result (λ script. Known (S.left source.old) (S.left source.new) (IsRead script)) }
    ensures risen { result ≡ Err ReadFault.Failed → HasRisen (S.faults source.old) (S.faults source.new) }
{
    let mut reader = LineReader::new(alloc)?;
    read_lines(alloc, &mut reader, source)
}

// Reads line by line.
fn read_lines<S: Source>(
    alloc: Global,
    reader: &mut LineReader,
    source: &mut S,
) -> Result<ScriptLines, ReadFault>
    requires { reader.old ≡ [] }
    ensures read { IfOk result (λ script. Known (S.left source.old) (S.left source.new) (IsRead script)) }
    ensures risen { result ≡ Err ReadFault.Failed → HasRisen (S.faults source.old) (S.faults source.new) }
{
    let mut so_far = SoFar::new(alloc);
    loop {
        match reader.next(source)? {
            Next::Line(count) => {
                if !so_far.take(reader.prefix(count))? {
                    return Ok(so_far.cut_off());
                }
                reader.pass(count);
            }
            Next::Last => return Ok(so_far.finish(reader.held())?),
        }
    }
}

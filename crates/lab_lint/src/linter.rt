ghost use Rattle.std.specs.Prelude.{◌≡◌, ◌≤◌, ◌+◌, ◌++◌, true, IfOk, OnOk};
ghost use Rattle.script_lang.specs.Checking.{after_line};
ghost use Rattle.script_lang.specs.Forms.{stated};
ghost use Rattle.script_lang.specs.Lines.{line_of};
ghost use Rattle.lab_lint.specs.Carrying.{EvaluatesSo, PassesSo};
ghost use Rattle.lab_lint.specs.Findings.{finding_text, input_finding};
ghost use Rattle.lab_lint.specs.Linting.{after_note, after_refused, after_taken, checked, fits, is_within_script};
ghost use Rattle.lab_lint.specs.Linting.{evaluated, nothing_passed, read};

use crate::columns::body_of;
use crate::finding::{put_check_finding, put_input_finding, put_line_finding, put_script_finding};
use lab_text::{MOST_LINES, MOST_OCTETS};
use script_lang::{CheckFault, LINES_LIMIT, Line, LineFault, SCRIPT_LIMIT, Words, read_line};
use std::alloc::{AllocError, Global};
use std::marker::Model;

// The result of the lines so far.
#[derive(Drop)]
pub(crate) struct Linter {
    alloc: Global,
    // How many lines there were, notes among them, and how many octets they have.
    lines: u32,
    octets: usize,
    // How many lines of the script there were.
    number: u32,
    // How many lines of the script weren't refused, how many octets those have, and what they declared.
    taken: u32,
    script: usize,
    words: Words,
}

// A linter is seen as the result of the lines so far.
impl Model for Linter {
    ghost use Rattle.std.specs.Prelude.{◌≤◌};
    ghost use Rattle.lab_lint.specs.Linting.{Passed};

    ghost Value = { Passed };

    ghost view = { λ l. record {
      lines = l.lines;
      octets = l.octets;
      number = l.number;
      taken = l.taken;
      script = l.script;
      declared = l.words;
    } };

    ghost invariant = { λ l. (l.lines ≤ 1000000) × (l.octets ≤ 300000000) × (l.number ≤ l.lines)
        × (l.taken ≤ l.number) × (l.taken ≤ 100000) × (l.script ≤ 16777216) };
}

impl Linter {
    // A linter before the first line.
    pub(crate) fn new(alloc: Global) -> Linter
        ensures { result ≡ nothing_passed }
    {
        Linter {
            alloc,
            lines: 0,
            octets: 0,
            number: 0,
            taken: 0,
            script: 0,
            words: Words::new(alloc),
        }
    }

    // Whether one more line is within the limits of an input.
    pub(crate) fn fits(&self, line: &[u8]) -> bool
        ensures { result ≡ fits self.now line.now }
    {
        self.lines < MOST_LINES && line.len() <= MOST_OCTETS - self.octets
    }

    // Whether one more line that is taken is within the limits of a script.
    fn is_within_script(&self, line: &[u8]) -> bool
        ensures { result ≡ is_within_script self.now line.now }
    {
        self.taken < LINES_LIMIT && line.len() <= SCRIPT_LIMIT - self.script
    }

    // Passes a note.
    pub(crate) fn pass_note(&mut self, note: &[u8])
        requires { fits self.old note.now ≡ true }
        ensures { self.new ≡ after_note self.old note.now }
    {
        self.lines += 1;
        self.octets += note.len();
    }

    // Passes a line of the script, and appends what is wrong with it where it is refused.
    pub(crate) fn pass_line(&mut self, line: &[u8], out: &mut Vec<u8>) -> Result<(), AllocError>
        requires { fits self.old line.now ≡ true }
        ensures { OnOk result (PassesSo self.old line.now (evaluated self.old line.now) self.new
            out.old.items out.new.items) }
    {
        if !self.is_within_script(line) {
            put_script_finding(out, self.number + 1)?;
            self.pass_refused(line);
            return Ok(());
        }
        if evaluate(self.alloc, &mut self.words, self.number + 1, line, out)? {
            self.pass_refused(line);
        } else {
            self.pass_taken(line);
        }
        Ok(())
    }

    // Passes a line that is refused.
    fn pass_refused(&mut self, line: &[u8])
        requires { fits self.old line.now ≡ true }
        ensures { self.new ≡ after_refused self.old line.now }
    {
        self.lines += 1;
        self.octets += line.len();
        self.number += 1;
    }

    // Passes a line that isn't refused. What it declares is kept already.
    fn pass_taken(&mut self, line: &[u8])
        requires fits { fits self.old line.now ≡ true }
        requires within { is_within_script self.old line.now ≡ true }
        ensures { self.new ≡ after_taken self.old line.now self.old.declared }
    {
        self.lines += 1;
        self.octets += line.len();
        self.number += 1;
        self.taken += 1;
        self.script += line.len();
    }

    // Appends that one more line is beyond the limits of an input.
    pub(crate) fn put_beyond(&self, out: &mut Vec<u8>) -> Result<(), AllocError>
        ensures { OnOk result (out.new.items ≡ out.old.items ++ finding_text (self.now.number + 1) input_finding) }
    {
        put_input_finding(out, self.number + 1)
    }

    // How many lines of the script there were.
    pub(crate) fn number(&self) -> u32
        ensures number { result ≡ self.now.number }
        ensures few { result ≤ 1000000 }
    {
        self.number
    }

    // How many lines of the script weren't refused.
    pub(crate) fn taken(&self) -> u32
        ensures { result ≡ self.now.taken }
    {
        self.taken
    }
}

// Whether a line of the script is refused. If so, what is wrong with it is appended; else what it declares is kept.
fn evaluate(
    alloc: Global,
    words: &mut Words,
    number: u32,
    line: &[u8],
    out: &mut Vec<u8>,
) -> Result<bool, AllocError>
    ensures { IfOk result (λ refused. EvaluatesSo number words.old (read words.old line.now (line_of line.now)) refused
        words.new out.old.items out.new.items) }
{
    match read_line(alloc, line) {
        Ok(Some(read)) => check(words, number, &read, body_of(line), out),
        Ok(None) => Ok(false),
        Err(LineFault::Syntax) => {
            put_line_finding(out, alloc, number, line, LineFault::Syntax)?;
            Ok(true)
        }
        Err(LineFault::Limit) => {
            put_line_finding(out, alloc, number, line, LineFault::Limit)?;
            Ok(true)
        }
        Err(LineFault::NoMemory) => Err(AllocError),
    }
}

// Whether a line that was read is refused for what the lines before it declared. If so, what is wrong with it is
// appended; else what it declares is kept.
fn check(
    words: &mut Words,
    number: u32,
    line: &Line,
    body: &[u8],
    out: &mut Vec<u8>,
) -> Result<bool, AllocError>
    ensures { IfOk result (λ refused. EvaluatesSo number words.old
        (checked words.old (stated line.now) body.now (after_line words.old (stated line.now))) refused words.new
        out.old.items out.new.items) }
{
    match words.check(line) {
        Ok(()) => Ok(false),
        Err(CheckFault::NoMemory) => Err(AllocError),
        Err(fault) => {
            put_check_finding(out, number, words, line, body, fault)?;
            Ok(true)
        }
    }
}

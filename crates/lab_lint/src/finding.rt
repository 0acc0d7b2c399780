ghost use Rattle.std.specs.Prelude.{◌≡◌, ◌++◌, codes, decimal, OnOk};
ghost use Rattle.script_lang.specs.Forms.{stated};
ghost use Rattle.script_report.specs.Refusals.{refusal_word};
ghost use Rattle.lab_lint.specs.Columns.{body_of};
ghost use Rattle.lab_lint.specs.Findings.{check_finding, check_text, finding_text, input_finding, line_finding};
ghost use Rattle.lab_lint.specs.Findings.{begin_text, check_refusal, finding_at, from_checked, limits_text};
ghost use Rattle.lab_lint.specs.Findings.{line_refusal, script_finding};

use crate::columns::{body_of, column_of, first_word, from_place, from_verb};
use crate::expected::{put, put_number, put_wrong, wrong_column};
use crate::labels::checked_place;
use lab_text::{MOST_LINES, MOST_OCTETS};
use script_lang::{
    CONTENTS_LIMIT, CheckFault, LINES_LIMIT, Line, LineFault, MEMBERS_LIMIT, MIRRORS_LIMIT,
    PARTS_LIMIT, SCRIPT_LIMIT, SETTLES_LIMIT, Words, find_wrong,
};
use script_report::Refusal;
use std::alloc::{AllocError, Global};

// Each call appends the line of text that says what is wrong with line `number` of a script. Where memory runs out, a
// part of that text may be appended.

// Appends what is wrong with a line that can't be read.
pub(crate) fn put_line_finding(
    out: &mut Vec<u8>,
    alloc: Global,
    number: u32,
    line: &[u8],
    fault: LineFault,
) -> Result<(), AllocError>
    ensures { OnOk result (out.new.items ≡ out.old.items ++ finding_text number (line_finding fault line.now)) }
{
    let wrong = find_wrong(alloc, line, fault)?;
    let body = body_of(line);
    put_begin(out, number, line_refusal(fault), wrong_column(body, wrong))?;
    put_wrong(out, body, wrong, fault)?;
    put(out, "\n")
}

// Appends what is wrong with a line that the lines before it don't allow.
pub(crate) fn put_check_finding(
    out: &mut Vec<u8>,
    number: u32,
    words: &Words,
    line: &Line,
    body: &[u8],
    fault: CheckFault,
) -> Result<(), AllocError>
    ensures { OnOk result (out.new.items ≡ out.old.items
        ++ finding_text number (check_finding fault words.now (stated line.now) body.now)) }
{
    let rest = from_checked(body, checked_place(words, line, fault));
    put_at(out, number, body, rest, fault)
}

// Appends what is wrong with a line that is refused for the first word of `rest`.
fn put_at(
    out: &mut Vec<u8>,
    number: u32,
    body: &[u8],
    rest: &[u8],
    fault: CheckFault,
) -> Result<(), AllocError>
    ensures { OnOk result (out.new.items ≡ out.old.items ++ finding_text number (finding_at fault body.now rest.now)) }
{
    put_begin(out, number, check_refusal(fault), column_of(body, rest))?;
    put_checked(out, fault, first_word(rest))?;
    put(out, "\n")
}

// Appends that a script has too many lines or octets.
pub(crate) fn put_script_finding(out: &mut Vec<u8>, number: u32) -> Result<(), AllocError>
    ensures { OnOk result (out.new.items ≡ out.old.items ++ finding_text number script_finding) }
{
    put_begin(out, number, Refusal::Limit, 1)?;
    put_limits(out, "a script", LINES_LIMIT as u64, SCRIPT_LIMIT as u64)?;
    put(out, "\n")
}

// Appends that an input has too many lines or octets.
pub(crate) fn put_input_finding(out: &mut Vec<u8>, number: u32) -> Result<(), AllocError>
    ensures { OnOk result (out.new.items ≡ out.old.items ++ finding_text number input_finding) }
{
    put_begin(out, number, Refusal::Limit, 1)?;
    put_limits(out, "an input", MOST_LINES as u64, MOST_OCTETS as u64)?;
    put(out, "\n")
}

fn put_limits(out: &mut Vec<u8>, subject: &str, lines: u64, octets: u64) -> Result<(), AllocError>
    ensures { OnOk result (out.new.items ≡ out.old.items ++ limits_text subject.now lines octets) }
{
    put(out, subject)?;
    put(out, " has at most ")?;
    put_number(out, lines)?;
    put(out, " lines and ")?;
    put_number(out, octets)?;
    put(out, " octets")
}

// Appends the number of the line, the refusal and the column.
fn put_begin(
    out: &mut Vec<u8>,
    number: u32,
    refusal: Refusal,
    column: usize,
) -> Result<(), AllocError>
    ensures { OnOk result (out.new.items ≡ out.old.items
        ++ begin_text number refusal column) }
{
    put_number(out, u64::from(number))?;
    put(out, " ")?;
    put(out, refusal.word())?;
    put(out, " at ")?;
    put_number(out, column as u64)?;
    put(out, ": ")
}

// A line from the word at `place` on, or from its verb on where no place is given.
fn from_checked(body: &[u8], place: Option<usize>) -> &[u8]
    ensures { result.now ≡ from_checked place body.now }
{
    match place {
        Some(place) => from_place(body, place),
        None => from_verb(body),
    }
}

fn line_refusal(fault: LineFault) -> Refusal
    ensures { result ≡ line_refusal fault }
{
    match fault {
        LineFault::Syntax => Refusal::Syntax,
        LineFault::Limit | LineFault::NoMemory => Refusal::Limit,
    }
}

fn check_refusal(fault: CheckFault) -> Refusal
    ensures { result ≡ check_refusal fault }
{
    match fault {
        CheckFault::NoGroup => Refusal::NoGroup,
        CheckFault::Late => Refusal::Late,
        CheckFault::UnknownLabel => Refusal::UnknownLabel,
        CheckFault::Duplicate => Refusal::Duplicate,
        CheckFault::TooLarge => Refusal::TooLarge,
        CheckFault::Limit | CheckFault::NoMemory => Refusal::Limit,
    }
}

// Appends what is expected where the lines before a line don't allow it: of a word that is unknown or declared already,
// the word itself.
fn put_checked(out: &mut Vec<u8>, fault: CheckFault, word: &[u8]) -> Result<(), AllocError>
    ensures { OnOk result (out.new.items ≡ out.old.items ++ check_text fault word.now) }
{
    match fault {
        CheckFault::NoGroup => put(out, "a group line comes first"),
        CheckFault::Late => put(out, "declarations come before events"),
        CheckFault::UnknownLabel | CheckFault::Duplicate => out.extend_from_slice(word),
        CheckFault::Limit => {
            put(out, "at most ")?;
            put_number(out, MEMBERS_LIMIT as u64)?;
            put(out, " members, as many clients, and ")?;
            put_number(out, MIRRORS_LIMIT as u64)?;
            put(out, " mirrors")
        }
        CheckFault::TooLarge => {
            put(out, "at most ")?;
            put_number(out, CONTENTS_LIMIT)?;
            put(out, " octets of content, ")?;
            put_number(out, PARTS_LIMIT)?;
            put(out, " parts and ")?;
            put_number(out, SETTLES_LIMIT)?;
            put(out, " settles")
        }
        CheckFault::NoMemory => Ok(()),
    }
}

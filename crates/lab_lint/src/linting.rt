ghost use Rattle.std.specs.Prelude.{◌≡◌, ◌≢◌, ◌≤◌, ◌⊎◌, ◌-◌, ◌++◌, Some, IfOk};
ghost use Rattle.std.specs.Option.{option_map};
ghost use Rattle.repo_io.specs.Lines.{lines};
ghost use Rattle.repo_io.specs.Outside.{HasRisen};
ghost use Rattle.lab_text.specs.Outcomes.{HasCause, WritesOutcome};
ghost use Rattle.lab_lint.specs.Linting.{end_of, is_short_note, lint_from, lint_of, linted, nothing_passed, outcome_in};
ghost use Rattle.lab_lint.specs.Linting.{sum_text, with_text};

use crate::expected::{put, put_number};
use crate::linter::Linter;
use lab_text::{LabStatus, MOST_OCTETS, is_note, split_first_line, without_feed};
use repo_io::{ReadFault, Sink, Source, read_up_to, write_whole};
use script_lang::LINE_LIMIT;
use std::alloc::{AllocError, Global};

/// Writes each line of the source's script that is refused before anything is carried out: its number among the lines
/// of the script, the refusal, the column of the word that is wrong and what was expected there; and then how many
/// lines are refused of how many.
///
/// The input is read whole, up to 300,000,000 octets and one more, before anything is written.
pub fn lint<S: Source, K: Sink>(alloc: Global, source: &mut S, sink: &mut K) -> LabStatus
    // Where the text was written to its end, it is the text of the input's outcome (`lint_of`), and the status is that
    // outcome's. In any case what was written is a prefix of that text. Both hold where source and sink know their
    // octets.
    ensures writes { WritesOutcome (option_map lint_of (S.left source.old)) (K.out sink.old) (K.out sink.new) result }

    // The other answers have their causes. Memory may run out at any time.
    ensures causes { HasCause (option_map lint_of (S.left source.old)) result
        (HasRisen (S.faults source.old) (S.faults source.new)) (HasRisen (K.faults sink.old) (K.faults sink.new)) }
    ensures never_usage { result ≢ LabStatus.Usage }
{
    let input = match read_up_to(alloc, source, MOST_OCTETS + 1) {
        Ok(input) => input,
        Err(ReadFault::Failed) => return LabStatus::ReadFault,
        Err(ReadFault::NoMemory) => return LabStatus::NoMemory,
    };
    write_lint(alloc, &input, sink)
}

// Writes what is wrong with the lines of octets.
fn write_lint<K: Sink>(alloc: Global, octets: &[u8], sink: &mut K) -> LabStatus
    ensures writes { WritesOutcome (Some (outcome_in octets.now)) (K.out sink.old) (K.out sink.new) result }
    ensures causes { HasCause (Some (outcome_in octets.now)) result ⊥
        (HasRisen (K.faults sink.old) (K.faults sink.new)) }
    ensures never_usage { result ≢ LabStatus.Usage }
{
    let mut text = Vec::new(alloc);
    let Ok(status) = lint_octets(alloc, octets, &mut text) else {
        return LabStatus::NoMemory;
    };
    match write_whole(sink, &text) {
        Ok(()) => status,
        Err(_) => LabStatus::WriteFault,
    }
}

// How many lines a script has, and how many of them aren't refused.
#[derive(Clone, Copy)]
struct Count {
    number: u32,
    taken: u32,
}

// Appends what is wrong with the lines of `octets`, and how many of how many lines are refused.
fn lint_octets(alloc: Global, octets: &[u8], out: &mut Vec<u8>) -> Result<LabStatus, AllocError>
    ensures status { IfOk result (λ status. status ≡ (outcome_in octets.now).status) }
    ensures text { IfOk result (λ _. out.new.items ≡ out.old.items ++ (outcome_in octets.now).text) }
{
    let count = lint_lines(alloc, octets, out)?;
    put_sum(out, count.number.saturating_sub(count.taken), count.number)
}

// Appends what is wrong with the lines of octets.
fn lint_lines(alloc: Global, octets: &[u8], out: &mut Vec<u8>) -> Result<Count, AllocError>
    ensures { IfOk result (λ count. linted out.new.items count.number count.taken
        ≡ with_text out.old.items (lint_from nothing_passed (lines octets.now))) }
{
    let mut linter = Linter::new(alloc);
    let mut rest = octets;
    while let Some((line, others)) = split_first_line(rest) {
        if !linter.fits(line) {
            linter.put_beyond(out)?;
            return Ok(Count {
                number: linter.number() + 1,
                taken: linter.taken(),
            });
        }
        if is_short_note(line) {
            linter.pass_note(line);
        } else {
            linter.pass_line(line, out)?;
        }
        rest = others;
    }
    Ok(Count {
        number: linter.number(),
        taken: linter.taken(),
    })
}

// Whether a line is a note, and no longer than a line may be. A longer note is evaluated as a line of the script.
fn is_short_note(line: &[u8]) -> bool
    ensures { result ≡ is_short_note line.now }
{
    is_note(line) && without_feed(line).len() <= LINE_LIMIT
}

// Appends how many lines of a script are refused, and returns the status.
fn put_sum(out: &mut Vec<u8>, refused: u32, number: u32) -> Result<LabStatus, AllocError>
    ensures status { IfOk result (λ status. status ≡ end_of refused) }
    ensures text { IfOk result (λ _. out.new.items ≡ out.old.items ++ sum_text refused number) }
{
    if refused == 0 {
        put(out, "clean ")?;
        put_number(out, u64::from(number))?;
        put(out, "\n")?;
        return Ok(LabStatus::Done);
    }
    put(out, "refused ")?;
    put_number(out, u64::from(refused))?;
    put(out, " of ")?;
    put_number(out, u64::from(number))?;
    put(out, "\n")?;
    Ok(LabStatus::Refused)
}

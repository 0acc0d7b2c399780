ghost use Rattle.std.specs.Prelude.{◌≡◌, ◌++◌, OnOk};
ghost use Rattle.repo_io.specs.Outside.{HasRisen};
ghost use Rattle.script_story.specs.Evaluation.{env_by};
ghost use Rattle.lab_lines.specs.Check.{check_form, counted, last_text, nothing_checked};
ghost use Rattle.lab_lines.specs.Written.{CarriesOut};

use crate::form::Form;
use crate::reading::run_form;
use bench_net::{Draws, Net};
use lab_text::{LabStatus, is_report_note, put_difference, put_note_line, put_sum};
use repo_io::{Sink, Source};
use script_lines::Script;
use script_story::Ending;
use std::alloc::{AllocError, Global};
use std::marker::Model;
use std::thread::Threads;

// The last line so far with its report and what its notes say, and how many lines before it differ.
#[derive(Drop)]
struct Checking {
    number: u32,
    line: Vec<u8>,
    report: Vec<u8>,
    expected: Vec<u8>,
    differing: u64,
}

impl Model for Checking {
    ghost use Rattle.lab_lines.specs.Check.{Checked};

    ghost Value = { Checked };

    ghost view = { λ c. record {
      number = c.number;
      line = c.line.items;
      report = c.report.items;
      expected = c.expected.items;
      differing = c.differing;
    } };
}

/// Carries out the script of the source, and compares each line's report with the `#>` notes right after the line, line
/// by line. Of each line whose report differs it writes where, and at the end how many lines differ.
pub fn check<R: Threads + Sync, S: Source, K: Sink, N: Net + Sync, D: Draws>(
    rt: &R,
    alloc: Global,
    source: &mut S,
    sink: &mut K,
    net: &N,
    draws: &D,
) -> LabStatus
    // What was written is the check of the input (`check_of`), line by line, and the status is its status.
    ensures { CarriesOut check_form (env_by (D.draw draws.now) (N.passes net.now)) nothing_checked (S.left source.old)
        (S.left source.new) (K.out sink.old) (K.out sink.new) (HasRisen (S.faults source.old) (S.faults source.new))
        (HasRisen (K.faults sink.old) (K.faults sink.new)) result }
{
    run_form(
        rt,
        alloc,
        &mut Checking::new(alloc),
        source,
        sink,
        net,
        draws,
    )
}

impl Checking {
    // The check before the first line.
    fn new(alloc: Global) -> Checking
        ensures { result ≡ nothing_checked }
    {
        Checking {
            number: 0,
            line: Vec::new(alloc),
            report: Vec::new(alloc),
            expected: Vec::new(alloc),
            differing: 0,
        }
    }

    // Compares the last line, and counts it where it differs.
    fn compare(&mut self, text: &mut Vec<u8>) -> Result<(), AllocError>
        ensures text { OnOk result (text.new.items ≡ text.old.items ++ last_text self.old) }
        ensures counted { OnOk result (self.new ≡ counted self.old) }
    {
        let number = u64::from(self.number);
        if put_difference(text, number, &self.line, &self.expected, &self.report)? {
            self.differing = self.differing.saturating_add(1);
        }
        Ok(())
    }
}

impl Form for Checking {
    ghost use Rattle.lab_lines.specs.Check.{check_form};

    ghost form = { check_form };

    fn reads_on(&self) -> bool {
        true
    }

    fn note(&mut self, note: &[u8]) -> Result<(), AllocError> {
        if is_report_note(note) {
            put_note_line(&mut self.expected, note)?;
        }
        Ok(())
    }

    fn before(&mut self, _: &Script, _: &[u8]) -> Result<(), AllocError> {
        Ok(())
    }

    fn line(
        &mut self,
        number: u32,
        line: &[u8],
        report: &[u8],
        _: Option<&Script>,
        text: &mut Vec<u8>,
    ) -> Result<(), AllocError> {
        self.compare(text)?;
        self.number = number;
        replace(&mut self.line, line)?;
        replace(&mut self.report, report)?;
        self.expected.clear();
        Ok(())
    }

    fn end(&mut self, _: Ending, text: &mut Vec<u8>) -> Result<LabStatus, AllocError> {
        self.compare(text)?;
        put_sum(text, self.differing, u64::from(self.number))?;
        if self.differing == 0 {
            Ok(LabStatus::Done)
        } else {
            Ok(LabStatus::Differs)
        }
    }
}

// Replaces the octets of `old` by `octets`.
fn replace(old: &mut Vec<u8>, octets: &[u8]) -> Result<(), AllocError>
    ensures { OnOk result (old.new.items ≡ octets.now) }
{
    old.clear();
    old.extend_from_slice(octets)
}

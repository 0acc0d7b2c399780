ghost use Rattle.repo_io.specs.Outside.{HasRisen};
ghost use Rattle.script_story.specs.Evaluation.{env_by};
ghost use Rattle.lab_lines.specs.Transcript.{transcript_form};
ghost use Rattle.lab_lines.specs.Written.{CarriesOut};

use crate::form::Form;
use crate::reading::run_form;
use bench_net::{Draws, Net};
use lab_text::{LabStatus, put_line, put_report};
use repo_io::{Sink, Source};
use script_lines::Script;
use script_story::Ending;
use std::alloc::{AllocError, Global};
use std::marker::Model;
use std::thread::Threads;

// Each line, and its report as notes.
#[derive(Drop)]
struct Transcribing;

impl Model for Transcribing {
    ghost Value = { Unit {0} };

    ghost view = { λ t. tt {0} };
}

/// Writes the transcript of the script of the source: each line as it stands, and each line of its report after `#> `,
/// both before the next line is looked for. Notes are left out.
pub fn transcript<R: Threads + Sync, S: Source, K: Sink, N: Net + Sync, D: Draws>(
    rt: &R,
    alloc: Global,
    source: &mut S,
    sink: &mut K,
    net: &N,
    draws: &D,
) -> LabStatus
    // What was written is the transcript of the input (`transcript_of`), line by line, and the status is its status.
    ensures { CarriesOut transcript_form (env_by (D.draw draws.now) (N.passes net.now)) (tt {0}) (S.left source.old)
        (S.left source.new) (K.out sink.old) (K.out sink.new) (HasRisen (S.faults source.old) (S.faults source.new))
        (HasRisen (K.faults sink.old) (K.faults sink.new)) result }
{
    run_form(rt, alloc, &mut Transcribing, source, sink, net, draws)
}

impl Form for Transcribing {
    ghost use Rattle.lab_lines.specs.Transcript.{transcript_form};

    ghost form = { transcript_form };

    fn reads_on(&self) -> bool {
        false
    }

    fn note(&mut self, _: &[u8]) -> Result<(), AllocError> {
        Ok(())
    }

    fn before(&mut self, _: &Script, _: &[u8]) -> Result<(), AllocError> {
        Ok(())
    }

    fn line(
        &mut self,
        _: u32,
        line: &[u8],
        report: &[u8],
        _: Option<&Script>,
        text: &mut Vec<u8>,
    ) -> Result<(), AllocError> {
        put_line(text, line)?;
        put_report(text, report)
    }

    fn end(&mut self, ending: Ending, _: &mut Vec<u8>) -> Result<LabStatus, AllocError> {
        match ending {
            Ending::Done => Ok(LabStatus::Done),
            Ending::Refused { .. } => Ok(LabStatus::Refused),
            Ending::Foreign { .. } => Ok(LabStatus::Foreign),
        }
    }
}

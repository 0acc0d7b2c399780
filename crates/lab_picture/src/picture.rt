ghost use Rattle.repo_io.specs.Outside.{HasRisen};
ghost use Rattle.script_story.specs.Evaluation.{env_by};
ghost use Rattle.lab_lines.specs.Written.{CarriesOut};
ghost use Rattle.lab_picture.specs.Drawn.{nothing_drawn};
ghost use Rattle.lab_picture.specs.Pictures.{draw_form};

use crate::drawing::Drawing;
use bench_net::{Draws, Net};
use lab_lines::{Form, run_form};
use lab_text::LabStatus;
use repo_io::{Sink, Source};
use script_lines::Script;
use script_story::Ending;
use std::alloc::{AllocError, Global};
use std::thread::Threads;

/// Carries out the script of the source, and writes at its end an SVG picture of what its members and mirrors did: a
/// column for each of them, and a row for each line of which something is to be seen, at most 2,000.
pub fn draw<R: Threads + Sync, S: Source, K: Sink, N: Net + Sync, D: Draws>(
    rt: &R,
    alloc: Global,
    source: &mut S,
    sink: &mut K,
    net: &N,
    draws: &D,
) -> LabStatus
    // What was written is the picture of the input (`draw_of`), all of it at the end of the script, and the status is
    // its status.
    ensures { CarriesOut draw_form (env_by (D.draw draws.now) (N.passes net.now)) nothing_drawn (S.left source.old)
        (S.left source.new) (K.out sink.old) (K.out sink.new) (HasRisen (S.faults source.old) (S.faults source.new))
        (HasRisen (K.faults sink.old) (K.faults sink.new)) result }
{
    run_form(
        rt,
        alloc,
        &mut Drawing::new(alloc),
        source,
        sink,
        net,
        draws,
    )
}

impl Form for Drawing {
    ghost use Rattle.lab_picture.specs.Pictures.{draw_form};

    ghost form = { draw_form };

    fn reads_on(&self) -> bool {
        false
    }

    fn note(&mut self, _: &[u8]) -> Result<(), AllocError> {
        Ok(())
    }

    fn before(&mut self, _: &Script, _: &[u8]) -> Result<(), AllocError> {
        Ok(())
    }

    fn line(
        &mut self,
        number: u32,
        line: &[u8],
        report: &[u8],
        after: Option<&Script>,
        _: &mut Vec<u8>,
    ) -> Result<(), AllocError> {
        let Some(script) = after else {
            return Ok(());
        };
        match script.world() {
            Some(world) => self.take(number, line, report, script.words(), world),
            None => self.declare(script.words()),
        }
    }

    fn end(&mut self, ending: Ending, text: &mut Vec<u8>) -> Result<LabStatus, AllocError> {
        self.put(text)?;
        match ending {
            Ending::Done => Ok(LabStatus::Done),
            Ending::Refused { .. } => Ok(LabStatus::Refused),
            Ending::Foreign { .. } => Ok(LabStatus::Foreign),
        }
    }
}

ghost use Rattle.std.specs.Prelude.{◌≡◌, ◌++◌, OnOk, Some};
ghost use Rattle.repo_io.specs.Outside.{HasRisen};
ghost use Rattle.script_story.specs.Evaluation.{env_by};
ghost use Rattle.script_lines.specs.Scripts.{reached};
ghost use Rattle.lab_lines.specs.Written.{CarriesOut};
ghost use Rattle.lab_trace.specs.Trace.{nothing_noted, state_noted, state_notes, trace_form};

use crate::noting::{note_members, note_mirrors};
use crate::values::Values;
use bench_net::{Draws, Net};
use lab_lines::{Form, run_form};
use lab_text::{LabStatus, put_line, put_report};
use repo_io::{Sink, Source};
use script_lines::Script;
use script_story::Ending;
use std::alloc::{AllocError, Global};
use std::marker::Model;
use std::thread::Threads;

// What the last notes say of the members, and of the mirrors.
#[derive(Drop)]
struct Tracing {
    alloc: Global,
    members: Vec<Values>,
    mirrors: Vec<Values>,
}

impl Model for Tracing {
    ghost use Rattle.lab_trace.specs.StateNotes.{Noted};

    ghost Value = { Noted };

    ghost view = { λ t. record { members = t.members.items; mirrors = t.mirrors.items } };
}

/// Writes the transcript of the script of the source, and after the report of each line a note of each member, and then
/// of each mirror, of which the last note says something else. All of that is written before the next line is looked
/// for. Notes of the script are left out.
pub fn trace<R: Threads + Sync, S: Source, K: Sink, N: Net + Sync, D: Draws>(
    rt: &R,
    alloc: Global,
    source: &mut S,
    sink: &mut K,
    net: &N,
    draws: &D,
) -> LabStatus
    // What was written is the trace of the input (`trace_of`), line by line, and the status is its status.
    ensures { CarriesOut trace_form (env_by (D.draw draws.now) (N.passes net.now)) nothing_noted (S.left source.old)
        (S.left source.new) (K.out sink.old) (K.out sink.new) (HasRisen (S.faults source.old) (S.faults source.new))
        (HasRisen (K.faults sink.old) (K.faults sink.new)) result }
{
    run_form(
        rt,
        alloc,
        &mut Tracing::new(alloc),
        source,
        sink,
        net,
        draws,
    )
}

impl Tracing {
    // Nothing is noted.
    fn new(alloc: Global) -> Tracing
        ensures { result ≡ nothing_noted }
    {
        Tracing {
            alloc,
            members: Vec::new(alloc),
            mirrors: Vec::new(alloc),
        }
    }

    // Notes what is new after the lines of a script.
    fn note_script(&mut self, script: &Script, text: &mut Vec<u8>) -> Result<(), AllocError>
        ensures kept { OnOk result (self.new ≡ state_noted self.old (Some (reached script.now).state)) }
        ensures text { OnOk result (text.new.items ≡ text.old.items
            ++ state_notes self.old (Some (reached script.now).state)) }
    {
        let Some(world) = script.world() else {
            return Ok(());
        };
        let words = script.words();
        note_members(self.alloc, &mut self.members, words, world, text)?;
        note_mirrors(self.alloc, &mut self.mirrors, words, world, text)
    }
}

impl Form for Tracing {
    ghost use Rattle.lab_trace.specs.Trace.{trace_form};

    ghost form = { trace_form };

    fn reads_on(&self) -> bool {
        false
    }

    fn before(&mut self, _: &Script, _: &[u8]) -> Result<(), AllocError> {
        Ok(())
    }

    fn note(&mut self, _: &[u8]) -> Result<(), AllocError> {
        Ok(())
    }

    fn line(
        &mut self,
        _: u32,
        line: &[u8],
        report: &[u8],
        after: Option<&Script>,
        text: &mut Vec<u8>,
    ) -> Result<(), AllocError> {
        put_line(text, line)?;
        put_report(text, report)?;
        match after {
            Some(script) => self.note_script(script, text),
            None => Ok(()),
        }
    }

    fn end(&mut self, ending: Ending, _: &mut Vec<u8>) -> Result<LabStatus, AllocError> {
        match ending {
            Ending::Done => Ok(LabStatus::Done),
            Ending::Refused { .. } => Ok(LabStatus::Refused),
            Ending::Foreign { .. } => Ok(LabStatus::Foreign),
        }
    }
}

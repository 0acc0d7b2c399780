ghost use Rattle.lab_capture.specs.CaptureForm.{capture_form, head_once, nothing_captured};
ghost use Rattle.lab_capture.specs.Capturings.{known_as};
ghost use Rattle.lab_capture.specs.Frames.{frames_text, line_frames};
ghost use Rattle.lab_capture.specs.Replies.{line_replies};
ghost use Rattle.lab_lines.specs.Written.{CarriesOut};
ghost use Rattle.repo_io.specs.Outside.{HasRisen};
ghost use Rattle.script_lines.specs.Scripts.{reached};
ghost use Rattle.script_story.specs.Evaluation.{env_by};
ghost use Rattle.std.specs.Prelude.{◌≡◌, ◌++◌, OnOk};

use crate::frames::put_frames;
use crate::known::{KnownBefore, known_before, read};
use crate::replies::put_replies;
use crate::writing::put_capture_head;
use bench_net::{Draws, Net};
use lab_lines::{Form, run_form};
use lab_text::LabStatus;
use repo_io::{Sink, Source};
use script_lines::Script;
use script_story::Ending;
use std::alloc::{AllocError, Global};
use std::marker::Model;
use std::thread::Threads;

/// Carries out the script of the source, and writes a capture of the packets that go between its members, mirrors and
/// the outside: the frames of each line before the next line is looked for.
pub fn capture<R: Threads + Sync, S: Source, K: Sink, N: Net + Sync, D: Draws>(
    rt: &R,
    alloc: Global,
    source: &mut S,
    sink: &mut K,
    net: &N,
    draws: &D,
) -> LabStatus
    // What was written is the capture of the input (`capture_of`), line by line, and the status is its status.
    ensures { CarriesOut capture_form (env_by (D.draw draws.now) (N.passes net.now)) nothing_captured
        (S.left source.old) (S.left source.new) (K.out sink.old) (K.out sink.new)
        (HasRisen (S.faults source.old) (S.faults source.new)) (HasRisen (K.faults sink.old) (K.faults sink.new))
        result }
{
    run_form(
        rt,
        alloc,
        &mut Capturing::new(alloc),
        source,
        sink,
        net,
        draws,
    )
}

// A capture that is written line by line: whether its head was written, and what is known before the next line.
#[derive(Drop)]
pub(crate) struct Capturing {
    alloc: Global,
    begun: bool,
    known: KnownBefore,
}

impl Model for Capturing {
    ghost use Rattle.lab_capture.specs.CaptureForm.{Captured};

    ghost Value = { Captured };

    ghost use Rattle.lab_capture.specs.Capturings.{known_as};

    ghost view = { λ c. record { begun = c.begun; known = known_as c.known } };
}

impl Capturing {
    // A capture before the first line.
    pub fn new(alloc: Global) -> Capturing
        ensures { result ≡ nothing_captured }
    {
        Capturing {
            alloc,
            begun: false,
            known: KnownBefore::nothing(alloc),
        }
    }

    // Writes the head, if it wasn't written.
    fn put_head(&self, text: &mut Vec<u8>) -> Result<(), AllocError>
        ensures { OnOk result (text.new.items ≡ text.old.items ++ head_once self.now.begun) }
    {
        if self.begun {
            Ok(())
        } else {
            put_capture_head(text)
        }
    }
}

// Appends the frames of a line that was taken.
fn put_taken(
    alloc: Global,
    text: &mut Vec<u8>,
    script: &Script,
    line: &[u8],
    report: &[u8],
    known: &KnownBefore,
) -> Result<(), AllocError>
    ensures { OnOk result (text.new.items ≡ text.old.items
        ++ frames_text (line_replies (reached script.now).state line.now report.now
        ++ line_frames (reached script.now).state (known_as known.now) line.now)) }
{
    match script.world() {
        Some(world) => {
            let stated = read(alloc, line)?;
            let words = script.words();
            put_replies(text, words, world, &stated, report)?;
            put_frames(text, words, world, stated, known)
        }
        None => Ok(()),
    }
}

impl Form for Capturing {
    ghost use Rattle.lab_capture.specs.CaptureForm.{capture_form};

    ghost form = { capture_form };

    fn reads_on(&self) -> bool {
        false
    }

    fn note(&mut self, _: &[u8]) -> Result<(), AllocError> {
        Ok(())
    }

    fn before(&mut self, script: &Script, line: &[u8]) -> Result<(), AllocError> {
        self.known = known_before(self.alloc, script, line)?;
        Ok(())
    }

    fn line(
        &mut self,
        _: u32,
        line: &[u8],
        report: &[u8],
        after: Option<&Script>,
        text: &mut Vec<u8>,
    ) -> Result<(), AllocError> {
        self.put_head(text)?;
        self.begun = true;
        match after {
            Some(script) => put_taken(self.alloc, text, script, line, report, &self.known),
            None => Ok(()),
        }
    }

    fn end(&mut self, ending: Ending, text: &mut Vec<u8>) -> Result<LabStatus, AllocError> {
        self.put_head(text)?;
        match ending {
            Ending::Done => Ok(LabStatus::Done),
            Ending::Refused { .. } => Ok(LabStatus::Refused),
            Ending::Foreign { .. } => Ok(LabStatus::Foreign),
        }
    }
}

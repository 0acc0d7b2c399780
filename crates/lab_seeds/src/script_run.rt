ghost use Rattle.std.specs.Prelude.{◌≡◌, ◌+◌, IfOk};
ghost use Rattle.bench_net.specs.Keystream.{seeded_draw, seeded_passes};
ghost use Rattle.script_story.specs.Evaluation.{env_by};
ghost use Rattle.script_lines.specs.Scripts.{IsScript, reached};
ghost use Rattle.lab_seeds.specs.Counted.{figures_at};
ghost use Rattle.lab_seeds.specs.Endings.{EndsAfter, IsEndAt, IsEndOf};
ghost use Rattle.lab_seeds.specs.Reading.{lines_read};
ghost use Rattle.lab_seeds.specs.ScriptRuns.{script_story};

use crate::counted::figures_of;
use crate::end::SeedEnd;
use crate::figures::{Figures, NO_FIGURES};
use crate::input::ScriptLines;
use bench_net::Seeded;
use script_lines::{LineError, Script};
use script_report::Refusal;
use std::alloc::{AllocError, Global};
use std::thread::Threads;

// Carries out a script in a world of its own, and returns how its run ended.
pub(crate) fn end_of<R: Threads + Sync>(
    rt: &R,
    alloc: Global,
    script: &ScriptLines,
    seeded: &Seeded,
) -> Result<SeedEnd, AllocError>
    ensures { IfOk result (IsEndOf (script_story (env_by (seeded_draw seeded.now) (seeded_passes seeded.now))
        (lines_read script.now))) }
{
    let mut state = Script::new(alloc);
    let mut report = Vec::new(alloc);
    for line in &script.lines {
        let number = state.next_line();
        state = match state.take(rt, line, &mut report, seeded, seeded) {
            Ok(next) => next,
            Err(error) => return stopped(number, error),
        };
    }
    Ok(end_after(&state, script.cut))
}

// How a run ends that stops at line `line` with this error.
fn stopped(line: u32, error: LineError) -> Result<SeedEnd, AllocError>
    ensures { IfOk result (IsEndAt line error) }
{
    match error {
        LineError::Refused(refusal) => Ok(SeedEnd::Refused { line, refusal }),
        LineError::Foreign => Ok(SeedEnd::Foreign { line }),
        LineError::NoMemory => Err(AllocError),
    }
}

// How a run ends after all lines that were read. If `cut`, another line follows them, which exceeds a limit.
fn end_after(script: &Script, cut: bool) -> SeedEnd
    requires { IsScript script.now }
    ensures { EndsAfter (reached script.now) cut result }
{
    if cut {
        return SeedEnd::Refused {
            line: script.next_line(),
            refusal: Refusal::Limit,
        };
    }
    SeedEnd::Done(figures_at(script))
}

// What is counted after the lines of a script.
fn figures_at(script: &Script) -> Figures
    ensures { result ≡ figures_at (reached script.now).state.world }
{
    match script.world() {
        Some(world) => figures_of(world),
        None => NO_FIGURES,
    }
}

ghost use Rattle.std.specs.Prelude.{◌≡◌, ◌+◌, map, IfErr, IfOk, IfSome};
ghost use Rattle.std.specs.Option.{option_map};
ghost use Rattle.bench_world.specs.Worlds.{world_of};
ghost use Rattle.script_story.specs.Mirrors.{mirror_as};
ghost use Rattle.script_story.specs.Evaluation.{env_by, accepted};
ghost use Rattle.script_story.specs.ScriptRun.{reached_after, evaluated_next, nothing_reached};
ghost use Rattle.script_lines.specs.RunStates.{IsLineError};
ghost use Rattle.script_lines.specs.Scripts.{IsScript, reached};

use crate::error::LineError;
use crate::run_state::RunState;
use bench_net::{Draws, Net};
use bench_world::World;
use script_lang::{LINES_LIMIT, SCRIPT_LIMIT, Words};
use script_report::{REPORT_LIMIT, Refusal};
use std::alloc::Global;
use std::thread::Threads;

/// A script whose lines are carried out one by one. Contracts see the state after the lines so far (`reached`), not a
/// view: a view must be without functions, and the mirrors of a run have one.
#[derive(Drop)]
pub struct Script {
    run_state: RunState,
    // How many lines were carried out, how many octets they have, and how many octets their reports have.
    lines: u32,
    octets: usize,
    printed: usize,
}

impl Script {
    /// A script of which no line was carried out.
    pub fn new(alloc: Global) -> Script
        ensures reached { reached result ≡ nothing_reached }
        ensures is { IsScript result }
    {
        Script {
            run_state: RunState::new(alloc),
            lines: 0,
            octets: 0,
            printed: 0,
        }
    }

    /// The number of the next line, counted from 1.
    pub fn next_line(&self) -> u32
        requires { IsScript self.now }
        ensures { result ≡ (reached self.now).lines + 1 }
    {
        self.lines + 1
    }

    /// Carries out the next line, which includes its line feed, and writes its report into `report`, in place of its
    /// octets; or returns why the line isn't taken.
    pub fn take<R: Threads + Sync, N: Net + Sync, D: Draws>(
        mut self,
        rt: &R,
        line: &[u8],
        report: &mut Vec<u8>,
        net: &N,
        draws: &D,
    ) -> Result<Script, LineError>
        requires { IsScript self }
        ensures taken { IfOk result (λ next. evaluated_next (env_by (D.draw draws.now) (N.passes net.now))
            (reached self) line.now ≡ accepted report.new.items (reached next).state) }
        ensures reached { IfOk result (λ next. reached next
            ≡ reached_after (reached self) line.now report.new.items (reached next).state) }
        ensures is { IfOk result IsScript }
        ensures stopped { IfErr result
            (IsLineError (evaluated_next (env_by (D.draw draws.now) (N.passes net.now)) (reached self) line.now)) }
    {
        if self.lines >= LINES_LIMIT || line.len() > SCRIPT_LIMIT - self.octets {
            return Err(LineError::Refused(Refusal::Limit));
        }
        report.clear();
        self.run_state.take(rt, line, report, net, draws)?;
        if report.len() > REPORT_LIMIT - self.printed {
            return Err(LineError::Refused(Refusal::TooLarge));
        }
        self.lines += 1;
        self.octets += line.len();
        self.printed += report.len();
        Ok(self)
    }

    /// What the lines so far declare.
    pub fn words(&self) -> &Words
        ensures { result.now ≡ (reached self.now).state.declared }
    {
        self.run_state.words()
    }

    /// The world that the events so far made, if there was one.
    pub fn world(&self) -> Option<&World>
        ensures world { option_map (λ world. world_of world.now) result ≡ (reached self.now).state.world }
        ensures keys { IfSome result (λ world. world.now.keys ≡ (reached self.now).state.keys) }
        ensures mirrors { IfSome result (λ world. map mirror_as world.now.mirrors ≡ (reached self.now).state.mirrors) }
    {
        self.run_state.world()
    }

    /// The world that the events made, if there was one, where no line follows.
    pub fn into_world(self) -> Option<World>
        ensures world { option_map world_of result ≡ (reached self).state.world }
        ensures keys { IfSome result (λ world. world.keys ≡ (reached self).state.keys) }
        ensures mirrors { IfSome result (λ world. map mirror_as world.mirrors ≡ (reached self).state.mirrors) }
    {
        self.run_state.into_world()
    }
}

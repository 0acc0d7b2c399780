ghost use Rattle.std.specs.Prelude.{◌≡◌, ◌+◌, ◌<◌, ◌≤◌, ◌++◌, [], ◌∷◌, length, map, string_bytes, unwrap_or, true};
ghost use Rattle.std.specs.Prelude.{false, None, IfOk, IfErr, IfSome, OnOk};
ghost use Rattle.std.specs.Option.{option_map};
ghost use Rattle.script_lang.specs.Forms.{stated};
ghost use Rattle.group_model.specs.World.{initial_world};
ghost use Rattle.group_model.specs.Refusals.{refusal};
ghost use Rattle.repo_member.specs.Groups.{IsPlainNodeName, node_limit};
ghost use Rattle.bench_world.specs.EventValues.{event_value, group_event, event_report};
ghost use Rattle.bench_world.specs.Serving.{environment};
ghost use Rattle.bench_world.specs.CarryingOut.{EventFits};
ghost use Rattle.bench_world.specs.Worlds.{drawing, world_of};
ghost use Rattle.script_story.specs.ReportTexts.{report_text};
ghost use Rattle.script_story.specs.Mirrors.{mirror_as, mirror_begins};
ghost use Rattle.script_story.specs.Evaluation.{acted, acted_by, env_by, group_named, evaluated, evaluated_line};
ghost use Rattle.script_story.specs.Evaluation.{line_taken};
ghost use Rattle.script_story.specs.Evaluation.{mirrors_begin, initial_state, accepted, with_client_too};
ghost use Rattle.script_story.specs.Evaluation.{with_member_too};
ghost use Rattle.script_lines.specs.RunStates.{HasStepped, IsAtEvent, IsBeforeEvents, IsDeclared, IsLine};
ghost use Rattle.script_lines.specs.RunStates.{IsNewNode, IsRunState, IsStillDeclaring, IsLineError, IsLineErrorOf};
ghost use Rattle.script_lines.specs.RunStates.{LineIsChecked, StatesEvent, has_group, has_world, labels_of};
ghost use Rattle.script_lines.specs.RunStates.{mirrors_in, state_of_run, phase_keys, steps, steps_in, world_in};

mod mirroring;
mod watching;

use crate::error::LineError;
use crate::event_report::put_event_report;
use crate::line_events::event_of_line;
use crate::run_state::mirroring::{begin_world, settle_after};
use bench_net::{Draws, Net};
use bench_world::{Event, World};
use ndn_name::Name;
use repo_member::{Group, GroupFault};
use repo_watch::{Pattern, Watchers};
use script_lang::{Line, Words, read_line};
use std::alloc::Global;
use std::mem;
use std::thread::Threads;

// How far a script's declarations and events are. A step takes the world out of the phase and puts it back. A run ends
// at a line that is refused, so the phase isn't used after one.
pub(crate) enum Phase {
    // No group is declared.
    Opening,
    // Members, clients and mirrors may still be declared: the group, and what the mirrors ask for.
    Declaring(Group, Vec<Pattern>),
    // There was an event: the world.
    Acting(World),
}

// A phase is dropped by one call, which is proved once, and not variant by variant wherever one is replaced.
impl Drop for Phase {
    fn drop(self) {
        match self {
            Phase::Opening | Phase::Declaring(_, _) | Phase::Acting(_) => {}
        }
    }
}

// The state after the lines so far.
#[derive(Drop)]
pub(crate) struct RunState {
    alloc: Global,
    words: Words,
    // The labels of the members, and the watchers of each.
    labels: Vec<String>,
    watchers: Vec<Watchers>,
    phase: Phase,
}

impl RunState {
    // The state before the first line.
    pub(crate) fn new(alloc: Global) -> RunState
        ensures initial { state_of_run result ≡ initial_state }
        ensures steps { steps result ≡ 0 }
        ensures is { IsRunState result }
    {
        RunState {
            alloc,
            words: Words::new(alloc),
            labels: Vec::new(alloc),
            watchers: Vec::new(alloc),
            phase: Phase::Opening,
        }
    }

    // Takes a line, which includes its line feed, and writes its report; or returns why the line isn't taken.
    pub(crate) fn take<N: Net + Sync, D: Draws, R: Threads + Sync>(
        &mut self,
        rt: &R,
        line: &[u8],
        report: &mut Vec<u8>,
        net: &N,
        draws: &D,
    ) -> Result<(), LineError>
        requires is { IsRunState self.old }
        requires few { steps self.old < 100000 }
        requires empty { report.old.items ≡ [] }
        ensures taken { OnOk result
            (evaluated (env_by (D.draw draws.now) (N.passes net.now)) (state_of_run self.old) line.now
            ≡ accepted report.new.items (state_of_run self.new)) }
        ensures stopped { IfErr result
            (IsLineError (evaluated (env_by (D.draw draws.now) (N.passes net.now)) (state_of_run self.old) line.now)) }
        ensures is { OnOk result (IsRunState self.new) }
        ensures steps { OnOk result (steps self.new ≤ steps self.old + 1) }
    {
        match read_line(self.alloc, line)? {
            Some(line) => self.take_line(rt, line, report, net, draws),
            None => Ok(()),
        }
    }

    fn take_line<N: Net + Sync, D: Draws, R: Threads + Sync>(
        &mut self,
        rt: &R,
        line: Line,
        report: &mut Vec<u8>,
        net: &N,
        draws: &D,
    ) -> Result<(), LineError>
        requires line { IsLine (stated line) }
        requires is { IsRunState self.old }
        requires few { steps self.old < 100000 }
        requires empty { report.old.items ≡ [] }
        ensures taken { OnOk result
            (evaluated_line (env_by (D.draw draws.now) (N.passes net.now)) (state_of_run self.old)
            (stated line) ≡ accepted report.new.items (state_of_run self.new)) }
        ensures stopped { IfErr result
            (IsLineError (evaluated_line (env_by (D.draw draws.now) (N.passes net.now)) (state_of_run self.old)
            (stated line))) }
        ensures is { OnOk result (IsRunState self.new) }
        ensures steps { OnOk result (steps self.new ≤ steps self.old + 1) }
    {
        self.words.check(&line)?;
        self.follow(rt, line, report, net, draws)
    }

    // Carries out a line that was tested against what the lines before it declared.
    fn follow<N: Net + Sync, D: Draws, R: Threads + Sync>(
        &mut self,
        rt: &R,
        line: Line,
        report: &mut Vec<u8>,
        net: &N,
        draws: &D,
    ) -> Result<(), LineError>
        requires checked { LineIsChecked self.old (stated line) }
        requires few { steps self.old < 100000 }
        requires empty { report.old.items ≡ [] }
        ensures taken { OnOk result
            (line_taken (env_by (D.draw draws.now) (N.passes net.now)) (state_of_run self.old)
            self.old.words (stated line) ≡ accepted report.new.items (state_of_run self.new)) }
        ensures stopped { IfErr result
            (IsLineError (line_taken (env_by (D.draw draws.now) (N.passes net.now)) (state_of_run self.old)
            self.old.words (stated line))) }
        ensures is { OnOk result (IsRunState self.new) }
        ensures steps { OnOk result (steps self.new ≤ steps self.old + 1) }
    {
        match line {
            Line::Group { name } => self.declare_group(&name),
            Line::Member { label, name, key } => self.declare_member(label, &name, &key),
            Line::Client {
                label: _label,
                name,
                key,
            } => self.declare_client(&name, &key),
            Line::Mirror {
                label: _label,
                p,
                name,
            } => self.declare_mirror(&p, name),
            Line::Watch { m, p, name } => self.watch(m, p, name, report, draws),
            Line::Told { m, w } => self.tell(m, w, report, draws),
            Line::Mdeliver { k, l } => self.mirror_hear(k, l, report, draws),
            Line::Mfetch {
                l,
                workers,
                tries,
                loss,
            } => self.mirror_fetch(rt, l, workers, tries, loss, report, net, draws),
            Line::Mcatalogue { l } => self.mirror_list(l, report, draws),
            line => self.act(rt, line, report, net, draws),
        }
    }

    fn declare_group(&mut self, name: &Name) -> Result<(), LineError>
        requires name { IsPlainNodeName name.now }
        requires group { self.old.words.group ≡ true }
        requires early { self.old.words.events ≡ false }
        requires declared { IsDeclared (labels_of self.old) (group_named name.now) (length self.old.watchers.items) 0
            self.old.words }
        ensures state { OnOk result (state_of_run self.new ≡ record {
          declared = self.old.words;
          keys = group_named name.now;
          world = None;
          watchers = self.old.watchers.items;
          mirrors = [];
        }) }
        ensures is { OnOk result (IsRunState self.new) }
        ensures steps { OnOk result (steps self.new ≡ 0) }
        ensures err { IfErr result (λ error. error ≡ LineError.NoMemory) }
    {
        self.phase = Phase::Declaring(Group::new(self.alloc, name)?, Vec::new(self.alloc));
        Ok(())
    }

    fn declare_member(&mut self, label: String, node: &Name, key: &[u8]) -> Result<(), LineError>
        requires node { IsNewNode (phase_keys self.old.phase) node.now key.now }
        requires early { IsBeforeEvents self.old.phase self.old.words }
        requires few { length (phase_keys self.old.phase).members.names < node_limit }
        requires declared { IsDeclared (labels_of self.old ++ string_bytes label ∷ [])
            (with_member_too node.now key.now (phase_keys self.old.phase))
            (length self.old.watchers.items + 1) (length (mirrors_in self.old.phase)) self.old.words }
        ensures state { OnOk result (state_of_run self.new ≡ record {
          declared = self.old.words;
          keys = with_member_too node.now key.now (phase_keys self.old.phase);
          world = None;
          watchers = self.old.watchers.items ++ [] ∷ [];
          mirrors = mirrors_begin (with_member_too node.now key.now (phase_keys self.old.phase))
              (mirrors_in self.old.phase);
        }) }
        ensures is { OnOk result (IsRunState self.new) }
        ensures steps { OnOk result (steps self.new ≡ 0) }
        ensures err { IfErr result (λ error. error ≡ LineError.NoMemory) }
    {
        self.phase.add_member(node, key)?;
        self.labels.push(label)?;
        self.watchers.push(Watchers::new(self.alloc))?;
        Ok(())
    }

    fn declare_client(&mut self, node: &Name, key: &[u8]) -> Result<(), LineError>
        requires node { IsNewNode (phase_keys self.old.phase) node.now key.now }
        requires early { IsBeforeEvents self.old.phase self.old.words }
        requires few { length (phase_keys self.old.phase).clients.names < node_limit }
        requires declared { IsDeclared (labels_of self.old)
            (with_client_too node.now key.now (phase_keys self.old.phase))
            (length self.old.watchers.items) (length (mirrors_in self.old.phase)) self.old.words }
        ensures state { OnOk result (state_of_run self.new ≡ record {
          declared = self.old.words;
          keys = with_client_too node.now key.now (phase_keys self.old.phase);
          world = None;
          watchers = self.old.watchers.items;
          mirrors = mirrors_in self.old.phase;
        }) }
        ensures is { OnOk result (IsRunState self.new) }
        ensures steps { OnOk result (steps self.new ≡ 0) }
        ensures err { IfErr result (λ error. error ≡ LineError.NoMemory) }
    {
        self.phase.add_client(node, key)
    }

    // Carries out the event that a line states, and writes its result.
    fn act<N: Net + Sync, D: Draws, R: Threads + Sync>(
        &mut self,
        rt: &R,
        line: Line,
        report: &mut Vec<u8>,
        net: &N,
        draws: &D,
    ) -> Result<(), LineError>
        requires states { StatesEvent self.old.words line }
        requires at { IsAtEvent self.old }
        requires few { steps self.old < 100000 }
        requires empty { report.old.items ≡ [] }
        ensures taken { OnOk result (acted_by (env_by (D.draw draws.now) (N.passes net.now)) (state_of_run self.old)
            self.old.words (stated line) ≡ accepted report.new.items (state_of_run self.new)) }
        ensures stopped { IfErr result
            (IsLineError (acted_by (env_by (D.draw draws.now) (N.passes net.now)) (state_of_run self.old)
            self.old.words (stated line))) }
        ensures is { OnOk result (IsRunState self.new) }
        ensures steps { OnOk result (steps self.new ≤ steps self.old + 1) }
    {
        let Some(event) = event_of_line(&self.words, line) else {
            unreachable!()
        };
        self.carry_out(rt, &event, report, net, draws)
    }

    // Carries out an event in the world. The first event makes it.
    fn carry_out<N: Net + Sync, D: Draws, R: Threads + Sync>(
        &mut self,
        rt: &R,
        event: &Event,
        report: &mut Vec<u8>,
        net: &N,
        draws: &D,
    ) -> Result<(), LineError>
        requires fits { EventFits (length self.old.words.members) (length self.old.words.clients)
            (event_value event.now) }
        requires at { IsAtEvent self.old }
        requires few { steps self.old < 100000 }
        requires empty { report.old.items ≡ [] }
        ensures taken { OnOk result (acted (env_by (D.draw draws.now) (N.passes net.now)) (state_of_run self.old)
            self.old.words (event_value event.now) ≡ accepted report.new.items (state_of_run self.new)) }
        ensures stopped { IfErr result
            (IsLineError (acted (env_by (D.draw draws.now) (N.passes net.now)) (state_of_run self.old)
            self.old.words (event_value event.now))) }
        ensures is { OnOk result (IsRunState self.new) }
        ensures steps { OnOk result (steps self.new ≤ steps self.old + 1) }
    {
        let phase = mem::replace(&mut self.phase, Phase::Opening);
        let mut world = phase.begin(self.alloc, draws)?;
        step(rt, &mut world, event, &self.labels, report, net, draws)?;
        self.phase = Phase::Acting(world);
        Ok(())
    }

    // What the lines declare.
    pub(crate) fn words(&self) -> &Words
        ensures { result.now ≡ (state_of_run self.now).declared }
    {
        &self.words
    }

    // The world that the events made, if there was one.
    pub(crate) fn world(&self) -> Option<&World>
        ensures world { option_map (λ world. world_of world.now) result ≡ (state_of_run self.now).world }
        ensures keys { IfSome result (λ world. world.now.keys ≡ (state_of_run self.now).keys) }
        ensures mirrors { IfSome result
            (λ world. map mirror_as world.now.mirrors ≡ (state_of_run self.now).mirrors) }
    {
        match &self.phase {
            Phase::Opening | Phase::Declaring(_, _) => None,
            Phase::Acting(world) => Some(world),
        }
    }

    // The world that the events made, if there was one, where no line follows.
    pub(crate) fn into_world(self) -> Option<World>
        ensures world { option_map world_of result ≡ (state_of_run self).world }
        ensures keys { IfSome result (λ world. world.keys ≡ (state_of_run self).keys) }
        ensures mirrors { IfSome result (λ world. map mirror_as world.mirrors ≡ (state_of_run self).mirrors) }
    {
        let RunState { phase, .. } = self;
        phase.into_world()
    }
}

impl Phase {
    fn add_member(&mut self, node: &Name, key: &[u8]) -> Result<(), LineError>
        requires node { IsNewNode (phase_keys self.old) node.now key.now }
        requires there { has_group self.old ≡ true }
        requires unchanged { has_world self.old ≡ false }
        requires few { length (phase_keys self.old).members.names < node_limit }
        ensures keys { OnOk result (phase_keys self.new
            ≡ with_member_too node.now key.now (phase_keys self.old)) }
        ensures declaring { OnOk result (IsStillDeclaring self.new) }
        ensures mirrors { OnOk result (mirrors_in self.new
            ≡ mirrors_begin (with_member_too node.now key.now (phase_keys self.old)) (mirrors_in self.old)) }
        ensures err { IfErr result (λ error. error ≡ LineError.NoMemory) }
    {
        let Phase::Declaring(group, _) = self else {
            unreachable!()
        };
        group
            .add_member(node, key)
            .map_err(GroupFault::only_memory)?;
        Ok(())
    }

    fn add_client(&mut self, node: &Name, key: &[u8]) -> Result<(), LineError>
        requires node { IsNewNode (phase_keys self.old) node.now key.now }
        requires there { has_group self.old ≡ true }
        requires unchanged { has_world self.old ≡ false }
        requires few { length (phase_keys self.old).clients.names < node_limit }
        ensures keys { OnOk result (phase_keys self.new
            ≡ with_client_too node.now key.now (phase_keys self.old)) }
        ensures declaring { OnOk result (IsStillDeclaring self.new) }
        ensures mirrors { OnOk result (mirrors_in self.new ≡ mirrors_in self.old) }
        ensures err { IfErr result (λ error. error ≡ LineError.NoMemory) }
    {
        let Phase::Declaring(group, _) = self else {
            unreachable!()
        };
        group
            .add_client(node, key)
            .map_err(GroupFault::only_memory)?;
        Ok(())
    }

    // Adds a mirror with this pattern.
    fn add_mirror(&mut self, pattern: Pattern) -> Result<(), LineError>
        requires there { has_group self.old ≡ true }
        requires unchanged { has_world self.old ≡ false }
        ensures keys { OnOk result (phase_keys self.new ≡ phase_keys self.old) }
        ensures declaring { OnOk result (IsStillDeclaring self.new) }
        ensures mirrors { OnOk result (mirrors_in self.new ≡ mirrors_in self.old
            ++ mirror_begins (length (phase_keys self.old).members.names) pattern ∷ []) }
        ensures err { IfErr result (λ error. error ≡ LineError.NoMemory) }
    {
        let Phase::Declaring(_, patterns) = self else {
            unreachable!()
        };
        patterns.push(pattern)?;
        Ok(())
    }

    // The world in which an event is carried out. Before the first event its members have nothing, and its mirrors know
    // of no publication.
    fn begin<D: Draws>(self, alloc: Global, draws: &D) -> Result<World, LineError>
        requires there { has_group self ≡ true }
        requires few { length (mirrors_in self) ≤ 4 }
        ensures world { IfOk result (λ world. world_of world ≡ unwrap_or (world_in self)
            (initial_world (drawing (D.draw draws.now)) (length (phase_keys self).members.names))) }
        ensures keys { IfOk result (λ world. world.keys ≡ phase_keys self) }
        ensures mirrors { IfOk result (λ world. map mirror_as world.mirrors ≡ mirrors_in self) }
        ensures steps { IfOk result (λ world. world.steps ≡ steps_in self) }
        ensures err { IfErr result (λ error. error ≡ LineError.NoMemory) }
    {
        match self {
            Phase::Opening => unreachable!(),
            Phase::Declaring(group, patterns) => begin_world(alloc, group, patterns, draws),
            Phase::Acting(world) => Ok(world),
        }
    }

    fn into_world(self) -> Option<World>
        ensures world { option_map world_of result ≡ world_in self }
        ensures keys { IfSome result (λ world. world.keys ≡ phase_keys self) }
        ensures mirrors { IfSome result (λ world. map mirror_as world.mirrors ≡ mirrors_in self) }
    {
        match self {
            Phase::Opening | Phase::Declaring(_, _) => None,
            Phase::Acting(world) => Some(world),
        }
    }
}

// Carries out an event, and writes its result.
fn step<N: Net + Sync, D: Draws, R: Threads + Sync>(
    rt: &R,
    world: &mut World,
    event: &Event,
    labels: &[String],
    report: &mut Vec<u8>,
    net: &N,
    draws: &D,
) -> Result<(), LineError>
    requires fits { EventFits (length world.old.keys.members.names) (length world.old.keys.clients.names)
        (event_value event.now) }
    requires few { world.old.steps < 100000 }
    requires labels { length labels.now ≡ length world.old.keys.members.names }
    requires empty { report.old.items ≡ [] }
    ensures stepped { OnOk result (HasStepped (env_by (D.draw draws.now) (N.passes net.now)) (event_value event.now)
        world.old world.new) }
    ensures report { OnOk result (report.new.items ≡ report_text (map string_bytes labels.now)
        (event_report world.old.keys (environment world.old.keys (D.draw draws.now) (N.passes net.now))
        (world_of world.old)
        (event_value event.now))) }
    ensures stopped { IfErr result (IsLineErrorOf (refusal
        (environment world.old.keys (D.draw draws.now) (N.passes net.now))
        (world_of world.old) (group_event world.old.keys (event_value event.now)))) }
{
    let happened = world.take_event(rt, event, net, draws)?;
    put_event_report(report, labels, &happened)?;
    settle_after(rt, world, event)
}

// What the lines of mirrors do.
ghost use Rattle.std.specs.Prelude.{◌≡◌, ◌<◌, ◌≤◌, ◌+◌, ◌++◌, ◌∷◌, [], length, map, string_bytes, true, false, None};
ghost use Rattle.std.specs.Prelude.{IfErr, IfOk, OnOk, slice_set};
ghost use Rattle.group_model.specs.World.{initial_world, sent_at};
ghost use Rattle.group_model.specs.Refusals.{unless_sent};
ghost use Rattle.bench_world.specs.EventValues.{event_value};
ghost use Rattle.bench_world.specs.Steps.{EventInRange};
ghost use Rattle.bench_world.specs.Worlds.{drawing, world_of};
ghost use Rattle.script_lang.specs.declared.line.Line.TheVariants as line;
ghost use Rattle.script_lang.specs.Forms.{publisher_value, stated};
ghost use Rattle.script_lang.specs.Checking.{are_members, labels_in};
ghost use Rattle.script_report.specs.Texts.{mdeliver_text, mfetch_text};
ghost use Rattle.script_story.specs.Mirrors.{asked_by, attempts_made, gets, mirror_as, mirror_begins, mirror_fetches};
ghost use Rattle.script_story.specs.Mirrors.{mirror_hears, mirror_of, mirror_settles, mirrored_entries};
ghost use Rattle.script_story.specs.StatedEvents.{pattern_for, publisher_number};
ghost use Rattle.script_story.specs.ReportTexts.{listing_text};
ghost use Rattle.script_story.specs.Evaluation.{begun_world, fetched_by, env_by, heard_by, listed_by, mirror_fetched};
ghost use Rattle.script_story.specs.Evaluation.{mirror_heard, mirror_listed, mirrors_after, accepted};
ghost use Rattle.script_lines.specs.RunStates.{FetchFits, IsBeforeEvents, IsDeclared, IsRunState, IsSameGroup};
ghost use Rattle.script_lines.specs.RunStates.{IsLineError, IsLineErrorOf, LineIsChecked, MirrorIsThere, labels_of};
ghost use Rattle.script_lines.specs.RunStates.{mirrors_in};
ghost use Rattle.script_lines.specs.RunStates.{state_of_run, phase_keys, steps};

use super::{Phase, RunState};
use crate::accepting::accepts;
use crate::error::LineError;
use crate::event_report::put_mirrored;
use crate::line_events::{mirror, pattern};
use bench_net::{Draws, Net};
use bench_world::{Event, MirrorFault, World};
use ndn_name::Name;
use repo_member::Group;
use repo_watch::{Filter, Pattern};
use script_report::{put_mdeliver, put_mfetch};
use std::alloc::Global;
use std::mem;
use std::thread::Threads;

impl RunState {
    // Declares one more mirror, with its pattern.
    pub(super) fn declare_mirror(
        &mut self,
        p: &Option<String>,
        prefix: Name,
    ) -> Result<(), LineError>
        requires publisher { are_members self.old.words (labels_in (publisher_value p.now ∷ [])) ≡ true }
        requires early { IsBeforeEvents self.old.phase self.old.words }
        requires declared { IsDeclared (labels_of self.old) (phase_keys self.old.phase)
            (length self.old.watchers.items) (length (mirrors_in self.old.phase) + 1) self.old.words }
        ensures state { OnOk result (state_of_run self.new ≡ record {
          declared = self.old.words;
          keys = phase_keys self.old.phase;
          world = None;
          watchers = self.old.watchers.items;
          mirrors = mirrors_in self.old.phase
              ++ mirror_begins (length (phase_keys self.old.phase).members.names)
              (pattern_for (publisher_number self.old.words (publisher_value p.now)) prefix) ∷ [];
        }) }
        ensures is { OnOk result (IsRunState self.new) }
        ensures steps { OnOk result (steps self.new ≡ 0) }
        ensures err { IfErr result (λ error. error ≡ LineError.NoMemory) }
    {
        let pattern = pattern(&self.words, p, prefix);
        self.phase.add_mirror(pattern)
    }

    // Lets the mirror with this label hear a sync Interest, and writes the report.
    pub(super) fn mirror_hear<D: Draws>(
        &mut self,
        k: u32,
        label: String,
        report: &mut Vec<u8>,
        draws: &D,
    ) -> Result<(), LineError>
        requires checked { LineIsChecked self.old (stated (line.Mdeliver k label)) }
        requires empty { report.old.items ≡ [] }
        ensures taken { OnOk result (heard_by (begun_world (D.draw draws.now) (state_of_run self.old))
            (state_of_run self.old) self.old.words (stated (line.Mdeliver k label)).values
            ≡ accepted report.new.items (state_of_run self.new)) }
        ensures stopped { IfErr result (IsLineError (heard_by (begun_world (D.draw draws.now) (state_of_run self.old))
            (state_of_run self.old) self.old.words (stated (line.Mdeliver k label)).values)) }
        ensures is { OnOk result (IsRunState self.new) }
        ensures steps { OnOk result (steps self.new ≡ steps self.old) }
    {
        let i = mirror(&self.words, &label);
        self.hear_at(i, k, &label, report, draws)
    }

    fn hear_at<D: Draws>(
        &mut self,
        i: u32,
        k: u32,
        label: &str,
        report: &mut Vec<u8>,
        draws: &D,
    ) -> Result<(), LineError>
        requires there { MirrorIsThere self.old i }
        requires empty { report.old.items ≡ [] }
        ensures taken { OnOk result (mirror_heard (begun_world (D.draw draws.now) (state_of_run self.old))
            (state_of_run self.old) self.old.words k i label.now ≡ accepted report.new.items (state_of_run self.new)) }
        ensures stopped { IfErr result (IsLineError (mirror_heard
            (begun_world (D.draw draws.now) (state_of_run self.old))
            (state_of_run self.old) self.old.words k i label.now)) }
        ensures is { OnOk result (IsRunState self.new) }
        ensures steps { OnOk result (steps self.new ≡ steps self.old) }
    {
        let phase = mem::replace(&mut self.phase, Phase::Opening);
        let mut world = phase.begin(self.alloc, draws)?;
        hear(&mut world, i, k, report, label)?;
        self.phase = Phase::Acting(world);
        Ok(())
    }

    // Lets the mirror with this label fetch, and writes what it received.
    pub(super) fn mirror_fetch<N: Net + Sync, D: Draws, R: Threads + Sync>(
        &mut self,
        rt: &R,
        label: String,
        workers: u32,
        tries: u32,
        loss: u32,
        report: &mut Vec<u8>,
        net: &N,
        draws: &D,
    ) -> Result<(), LineError>
        requires checked { LineIsChecked self.old (stated (line.Mfetch label workers tries loss)) }
        requires few { steps self.old < 100000 }
        requires empty { report.old.items ≡ [] }
        ensures taken { OnOk result (fetched_by (env_by (D.draw draws.now) (N.passes net.now))
            (begun_world (D.draw draws.now) (state_of_run self.old))
            (state_of_run self.old) self.old.words (stated (line.Mfetch label workers tries loss)).values
            ≡ accepted report.new.items (state_of_run self.new)) }
        ensures stopped { IfErr result (λ error. error ≡ LineError.NoMemory) }
        ensures is { OnOk result (IsRunState self.new) }
        ensures steps { OnOk result (steps self.new ≤ steps self.old + 1) }
    {
        let i = mirror(&self.words, &label);
        self.fetch_at(rt, i, workers, tries, loss, &label, report, net, draws)
    }

    fn fetch_at<N: Net + Sync, D: Draws, R: Threads + Sync>(
        &mut self,
        rt: &R,
        i: u32,
        workers: u32,
        tries: u32,
        loss: u32,
        label: &str,
        report: &mut Vec<u8>,
        net: &N,
        draws: &D,
    ) -> Result<(), LineError>
        requires there { MirrorIsThere self.old i }
        requires fits { FetchFits workers tries }
        requires few { steps self.old < 100000 }
        requires empty { report.old.items ≡ [] }
        ensures taken { OnOk result (mirror_fetched (env_by (D.draw draws.now) (N.passes net.now))
            (begun_world (D.draw draws.now) (state_of_run self.old)) (state_of_run self.old) self.old.words i
            label.now tries loss ≡ accepted report.new.items (state_of_run self.new)) }
        ensures stopped { IfErr result (λ error. error ≡ LineError.NoMemory) }
        ensures is { OnOk result (IsRunState self.new) }
        ensures steps { OnOk result (steps self.new ≤ steps self.old + 1) }
    {
        let phase = mem::replace(&mut self.phase, Phase::Opening);
        let mut world = phase.begin(self.alloc, draws)?;
        fetch(rt, &mut world, i, workers, tries, loss, report, label, net)?;
        self.phase = Phase::Acting(world);
        Ok(())
    }

    // Writes what the mirror with this label lists.
    pub(super) fn mirror_list<D: Draws>(
        &mut self,
        label: String,
        report: &mut Vec<u8>,
        draws: &D,
    ) -> Result<(), LineError>
        requires checked { LineIsChecked self.old (stated (line.Mcatalogue label)) }
        requires empty { report.old.items ≡ [] }
        ensures taken { OnOk result (listed_by (begun_world (D.draw draws.now) (state_of_run self.old))
            (state_of_run self.old) self.old.words (stated (line.Mcatalogue label)).values
            ≡ accepted report.new.items (state_of_run self.new)) }
        ensures stopped { IfErr result (λ error. error ≡ LineError.NoMemory) }
        ensures is { OnOk result (IsRunState self.new) }
        ensures steps { OnOk result (steps self.new ≡ steps self.old) }
    {
        let i = mirror(&self.words, &label);
        self.list_at(i, &label, report, draws)
    }

    fn list_at<D: Draws>(
        &mut self,
        i: u32,
        label: &str,
        report: &mut Vec<u8>,
        draws: &D,
    ) -> Result<(), LineError>
        requires there { MirrorIsThere self.old i }
        requires empty { report.old.items ≡ [] }
        ensures taken { OnOk result (mirror_listed (begun_world (D.draw draws.now) (state_of_run self.old))
            (state_of_run self.old) self.old.words i label.now ≡ accepted report.new.items (state_of_run self.new)) }
        ensures stopped { IfErr result (λ error. error ≡ LineError.NoMemory) }
        ensures is { OnOk result (IsRunState self.new) }
        ensures steps { OnOk result (steps self.new ≡ steps self.old) }
    {
        let phase = mem::replace(&mut self.phase, Phase::Opening);
        let world = phase.begin(self.alloc, draws)?;
        list(&world, i, report, label, &self.labels)?;
        self.phase = Phase::Acting(world);
        Ok(())
    }
}

// The world of a group, with mirrors of these patterns.
pub(super) fn begin_world<D: Draws>(
    alloc: Global,
    group: Group,
    patterns: Vec<Pattern>,
    draws: &D,
) -> Result<World, LineError>
    requires few { length patterns.items ≤ 4 }
    ensures world { IfOk result (λ world.
        world_of world ≡ initial_world (drawing (D.draw draws.now)) (length group.members.names)) }
    ensures keys { IfOk result (λ world. world.keys ≡ group) }
    ensures mirrors { IfOk result (λ world. map mirror_as world.mirrors
        ≡ map (mirror_begins (length group.members.names)) patterns.items) }
    ensures steps { IfOk result (λ world. world.steps ≡ 0) }
    ensures err { IfErr result (λ error. error ≡ LineError.NoMemory) }
{
    let mut world = World::new(alloc, group, draws)?;
    for pattern in patterns {
        add_mirror(&mut world, pattern)?;
    }
    Ok(world)
}

fn add_mirror(world: &mut World, pattern: Pattern) -> Result<(), LineError>
    requires few { length world.old.mirrors < 4 }
    ensures same { OnOk result (IsSameGroup world.old world.new world.old.steps) }
    ensures mirrors { OnOk result (map mirror_as world.new.mirrors ≡ map mirror_as world.old.mirrors
        ++ mirror_begins (length world.old.keys.members.names) pattern ∷ []) }
    ensures err { IfErr result (λ error. error ≡ LineError.NoMemory) }
{
    world.cite_soundness();
    world.add_mirror(pattern).map_err(MirrorFault::only_memory)?;
    Ok(())
}

// A mirror hears a sync Interest.
fn hear(
    world: &mut World,
    i: u32,
    k: u32,
    report: &mut Vec<u8>,
    label: &str,
) -> Result<(), LineError>
    requires there { i < length world.old.mirrors }
    requires empty { report.old.items ≡ [] }
    ensures sent { OnOk result (unless_sent (world_of world.old) k ≡ None) }
    ensures same { OnOk result (IsSameGroup world.old world.new world.old.steps) }
    ensures mirrors { OnOk result (map mirror_as world.new.mirrors ≡ slice_set (map mirror_as world.old.mirrors) i
        (mirror_hears (sent_at (world_of world.old) k).vector (mirror_of (map mirror_as world.old.mirrors) i))) }
    ensures report { OnOk result (report.new.items ≡ mdeliver_text k label.now) }
    ensures stopped { IfErr result (IsLineErrorOf (unless_sent (world_of world.old) k)) }
{
    world.mirror_learns(i, k)?;
    Ok(put_mdeliver(report, u64::from(k), label)?)
}

// A mirror fetches of members.
fn fetch<N: Net + Sync, R: Threads + Sync>(
    rt: &R,
    world: &mut World,
    i: u32,
    workers: u32,
    tries: u32,
    loss: u32,
    report: &mut Vec<u8>,
    label: &str,
    net: &N,
) -> Result<(), LineError>
    requires there { i < length world.old.mirrors }
    requires fits { FetchFits workers tries }
    requires few { world.old.steps < 100000 }
    requires empty { report.old.items ≡ [] }
    ensures same { OnOk result (IsSameGroup world.old world.new (world.old.steps + 1)) }
    ensures mirrors { OnOk result (map mirror_as world.new.mirrors ≡ slice_set (map mirror_as world.old.mirrors) i
        (mirror_fetches (N.passes net.now) (world_of world.old) i tries loss
        (mirror_of (map mirror_as world.old.mirrors) i))) }
    ensures report { OnOk result (report.new.items ≡ mfetch_text label.now
        (length (asked_by (world_of world.old) (mirror_of (map mirror_as world.old.mirrors) i)))
        (length (gets (N.passes net.now) (world_of world.old) i tries loss
        (mirror_of (map mirror_as world.old.mirrors) i)))
        (attempts_made (N.passes net.now) (world_of world.old) i tries loss
        (mirror_of (map mirror_as world.old.mirrors) i))) }
    ensures err { IfErr result (λ error. error ≡ LineError.NoMemory) }
{
    let filter = Filter::new(|pattern: &Pattern, publisher: u32, name: &Name| {
        accepts(pattern, publisher, name)
    });
    world.cite_soundness();
    let (planned, kept, attempts) = world.mirror_fetch(rt, i, workers, tries, loss, net, &filter)?;
    put_mfetch(report, label, u64::from(planned), u64::from(kept), attempts)?;
    Ok(())
}

// Writes what a mirror lists.
fn list(
    world: &World,
    i: u32,
    report: &mut Vec<u8>,
    label: &str,
    labels: &[String],
) -> Result<(), LineError>
    requires there { i < length world.now.mirrors }
    requires empty { report.old.items ≡ [] }
    ensures report { OnOk result (report.new.items ≡ listing_text (map string_bytes labels.now) label.now
        (mirrored_entries (world_of world.now) (mirror_of (map mirror_as world.now.mirrors) i))) }
    ensures err { IfErr result (λ error. error ≡ LineError.NoMemory) }
{
    put_mirrored(report, labels, label, world.mirror_catalogue(i).entries())?;
    Ok(())
}

// After a settle each mirror gains what members hold.
pub(super) fn settle_after<R: Threads + Sync>(
    rt: &R,
    world: &mut World,
    event: &Event,
) -> Result<(), LineError>
    requires ready { EventInRange (length world.old.keys.members.names) (event_value event.now) }
    ensures same { OnOk result (IsSameGroup world.old world.new world.old.steps) }
    ensures mirrors { OnOk result (map mirror_as world.new.mirrors
        ≡ mirrors_after (world_of world.old) (event_value event.now) (map mirror_as world.old.mirrors)) }
    ensures err { IfErr result (λ error. error ≡ LineError.NoMemory) }
{
    match event {
        Event::Settle { workers } => settle_mirrors(rt, world, *workers),
        _ => Ok(()),
    }
}

fn settle_mirrors<R: Threads + Sync>(
    rt: &R,
    world: &mut World,
    workers: u32,
) -> Result<(), LineError>
    requires workers { (1 ≤ workers) × (workers ≤ 16) }
    ensures same { OnOk result (IsSameGroup world.old world.new world.old.steps) }
    ensures mirrors { OnOk result (map mirror_as world.new.mirrors
        ≡ map (mirror_settles (world_of world.old)) (map mirror_as world.old.mirrors)) }
    ensures err { IfErr result (λ error. error ≡ LineError.NoMemory) }
{
    let filter = Filter::new(|pattern: &Pattern, publisher: u32, name: &Name| {
        accepts(pattern, publisher, name)
    });
    world.cite_soundness();
    world.settle_mirrors(rt, workers, &filter)?;
    Ok(())
}

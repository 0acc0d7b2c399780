// What the lines of watchers do.
ghost use Rattle.std.specs.Prelude.{◌≡◌, ◌<◌, ◌+◌, [], length, map, string_bytes, nat_le, is_some, not, IfErr};
ghost use Rattle.std.specs.Prelude.{IfOk, OnOk, Some, true, false, slice_set};
ghost use Rattle.std.specs.List.{All};
ghost use Rattle.group_model.specs.World.{catalogue_at};
ghost use Rattle.repo_catalog.specs.Entries.{entry_of, lists};
ghost use Rattle.bench_world.specs.Worlds.{world_of};
ghost use Rattle.script_lang.specs.declared.line.Line.TheVariants as line;
ghost use Rattle.script_lang.specs.Forms.{stated};
ghost use Rattle.script_report.specs.Texts.{watch_text};
ghost use Rattle.repo_watch.specs.Watching.{after_add, after_take, most_watchers, watch_of};
ghost use Rattle.script_report.specs.declared.refusal.Refusal.TheVariants as refusal;
ghost use Rattle.script_story.specs.ReportTexts.{news_in, news_text};
ghost use Rattle.script_story.specs.Evaluation.{begun_world, accepted, told_at, told_by, watched, watched_by};
ghost use Rattle.script_story.specs.Evaluation.{watchers_of};
ghost use Rattle.script_lines.specs.RunStates.{IsAtEvent, IsRunState, IsLineError, IsStopWhere, LineIsChecked};
ghost use Rattle.script_lines.specs.RunStates.{state_of_run, steps};

use super::{Phase, RunState};
use crate::accepting::accepts;
use crate::error::LineError;
use crate::event_report::put_news;
use crate::line_events::{member, pattern};
use bench_net::Draws;
use bench_world::World;
use ndn_name::Name;
use repo_catalog::{Catalogue, Entry};
use repo_watch::{Filter, Pattern, Watchers};
use script_report::{label, put_watch};
use std::alloc::{AllocError, Global};
use std::mem;

impl RunState {
    // Gives the member with this label one more watcher, and writes its number.
    pub(super) fn watch<D: Draws>(
        &mut self,
        label: String,
        publisher: Option<String>,
        prefix: Name,
        report: &mut Vec<u8>,
        draws: &D,
    ) -> Result<(), LineError>
        requires checked { LineIsChecked self.old (stated (line.Watch label publisher prefix)) }
        requires empty { report.old.items ≡ [] }
        ensures taken { OnOk result (watched_by (begun_world (D.draw draws.now) (state_of_run self.old))
            (state_of_run self.old) self.old.words (stated (line.Watch label publisher prefix)).values
            ≡ accepted report.new.items (state_of_run self.new)) }
        ensures stopped { IfErr result (IsLineError (watched_by (begun_world (D.draw draws.now) (state_of_run self.old))
            (state_of_run self.old) self.old.words (stated (line.Watch label publisher prefix)).values)) }
        ensures is { OnOk result (IsRunState self.new) }
        ensures steps { OnOk result (steps self.new ≡ steps self.old) }
    {
        let m = member(&self.words, &label);
        let pattern = pattern(&self.words, &publisher, prefix);
        self.give_watcher(m, pattern, report, draws)
    }

    // Reports its news to watcher `number` of the member with this label, and writes them.
    pub(super) fn tell<D: Draws>(
        &mut self,
        label: String,
        number: u32,
        report: &mut Vec<u8>,
        draws: &D,
    ) -> Result<(), LineError>
        requires checked { LineIsChecked self.old (stated (line.Told label number)) }
        requires empty { report.old.items ≡ [] }
        ensures taken { OnOk result (told_by (begun_world (D.draw draws.now) (state_of_run self.old))
            (state_of_run self.old) self.old.words (stated (line.Told label number)).values
            ≡ accepted report.new.items (state_of_run self.new)) }
        ensures stopped { IfErr result (IsLineError (told_by (begun_world (D.draw draws.now) (state_of_run self.old))
            (state_of_run self.old) self.old.words (stated (line.Told label number)).values)) }
        ensures is { OnOk result (IsRunState self.new) }
        ensures steps { OnOk result (steps self.new ≡ steps self.old) }
    {
        let m = member(&self.words, &label);
        self.tell_watcher(m, number, report, draws)
    }

    // Gives member `m` one more watcher, and writes its number.
    fn give_watcher<D: Draws>(
        &mut self,
        m: u32,
        pattern: Pattern,
        report: &mut Vec<u8>,
        draws: &D,
    ) -> Result<(), LineError>
        requires there { m < length self.old.words.members }
        requires at { IsAtEvent self.old }
        requires empty { report.old.items ≡ [] }
        ensures taken { OnOk result
            (watched (begun_world (D.draw draws.now) (state_of_run self.old)) (state_of_run self.old) self.old.words
            m pattern ≡ accepted report.new.items (state_of_run self.new)) }
        ensures stopped { IfErr result (IsLineError
            (watched (begun_world (D.draw draws.now) (state_of_run self.old)) (state_of_run self.old) self.old.words
            m pattern)) }
        ensures is { OnOk result (IsRunState self.new) }
        ensures steps { OnOk result (steps self.new ≡ steps self.old) }
    {
        let phase = mem::replace(&mut self.phase, Phase::Opening);
        let world = phase.begin(self.alloc, draws)?;
        let label = label(&self.labels, m);
        add_watcher(&mut self.watchers, pattern, &world, m, report, label)?;
        self.phase = Phase::Acting(world);
        Ok(())
    }

    // Reports its news to watcher `number` of member `m`, and writes them.
    fn tell_watcher<D: Draws>(
        &mut self,
        m: u32,
        number: u32,
        report: &mut Vec<u8>,
        draws: &D,
    ) -> Result<(), LineError>
        requires there { m < length self.old.words.members }
        requires at { IsAtEvent self.old }
        requires empty { report.old.items ≡ [] }
        ensures taken { OnOk result
            (told_at (begun_world (D.draw draws.now) (state_of_run self.old)) (state_of_run self.old) self.old.words
            m number ≡ accepted report.new.items (state_of_run self.new)) }
        ensures stopped { IfErr result (IsLineError
            (told_at (begun_world (D.draw draws.now) (state_of_run self.old)) (state_of_run self.old) self.old.words
            m number)) }
        ensures is { OnOk result (IsRunState self.new) }
        ensures steps { OnOk result (steps self.new ≡ steps self.old) }
    {
        let phase = mem::replace(&mut self.phase, Phase::Opening);
        let world = phase.begin(self.alloc, draws)?;
        tell_news(
            self.alloc,
            &mut self.watchers,
            number,
            &world,
            m,
            report,
            &self.labels,
        )?;
        self.phase = Phase::Acting(world);
        Ok(())
    }
}

// Adds a watcher to those of member `m`, and writes its number.
fn add_watcher(
    watchers: &mut [Watchers],
    pattern: Pattern,
    world: &World,
    m: u32,
    report: &mut Vec<u8>,
    label: &str,
) -> Result<(), LineError>
    requires there { m < length watchers.old }
    requires each { length watchers.old ≡ length world.now.keys.members.names }
    requires empty { report.old.items ≡ [] }
    ensures room { OnOk result (nat_le most_watchers (length (watchers_of watchers.old m)) ≡ false) }
    ensures watchers { OnOk result (watchers.new ≡ slice_set watchers.old m
        (after_add pattern (catalogue_at (world_of world.now) m) (watchers_of watchers.old m))) }
    ensures report { OnOk result (report.new.items ≡ watch_text label.now (length (watchers_of watchers.old m) + 1)) }
    ensures stopped { IfErr result
        (IsStopWhere (nat_le most_watchers (length (watchers_of watchers.old m))) refusal.Limit) }
{
    world.cite_soundness();
    let catalogue = world.member(m).catalogue();
    let number = watchers[m as usize].add(pattern, catalogue)?;
    put_watch(report, label, u64::from(number))?;
    Ok(())
}

// Reports its news to the watcher of this number, and writes them.
fn tell_news(
    alloc: Global,
    watchers: &mut [Watchers],
    number: u32,
    world: &World,
    m: u32,
    report: &mut Vec<u8>,
    labels: &[String],
) -> Result<(), LineError>
    requires there { m < length watchers.old }
    requires each { length watchers.old ≡ length world.now.keys.members.names }
    requires labels { length labels.now ≡ length world.now.keys.members.names }
    requires empty { report.old.items ≡ [] }
    ensures known { OnOk result (is_some (watch_of number (watchers_of watchers.old m)) ≡ true) }
    ensures watchers { OnOk result (watchers.new ≡ slice_set watchers.old m
        (after_take number (catalogue_at (world_of world.now) m) (watchers_of watchers.old m))) }
    ensures report { OnOk result (report.new.items ≡ news_text (map string_bytes labels.now) m number
        (news_in (watch_of number (watchers_of watchers.old m)) (catalogue_at (world_of world.now) m))) }
    ensures stopped { IfErr result
        (IsStopWhere (not (is_some (watch_of number (watchers_of watchers.old m)))) refusal.NoSuchWatch) }
{
    let filter = Filter::new(|pattern: &Pattern, publisher: u32, name: &Name| {
        accepts(pattern, publisher, name)
    });
    world.cite_soundness();
    let catalogue = world.member(m).catalogue();
    let pairs = watchers[m as usize].take(alloc, number, &filter, catalogue)?;
    let entries = entries_of(alloc, catalogue, &pairs)?;
    put_news(report, labels, m, number, &entries)?;
    Ok(())
}

// Copies of the entries of these publications, which the catalogue lists.
fn entries_of(
    alloc: Global,
    catalogue: &Catalogue,
    pairs: &[(u32, u16)],
) -> Result<Vec<Entry>, AllocError>
    requires { All (λ pair. lists pair catalogue.now.entries ≡ true) pairs.now }
    ensures { IfOk result (λ entries. map Some entries.items
        ≡ map (λ pair. entry_of pair catalogue.now.entries) pairs.now) }
{
    let mut entries = Vec::with_capacity(alloc, pairs.len())?;
    for &(publisher, seq) in pairs {
        let entry = catalogue.entry(publisher, seq).unwrap();
        entries.push(entry.clone()?)?;
    }
    Ok(entries)
}

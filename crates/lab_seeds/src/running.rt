ghost use Rattle.std.specs.Prelude.{◌≡◌, ◌≢◌, ◌+◌, ◌-◌, ◌^◌, ◌<◌, ◌≤◌, ℕ, [], length, map, slice_index_or, IfOk};
ghost use Rattle.std.specs.Prelude.{IfSome, Some};
ghost use Rattle.std.specs.List.{list_all};
ghost use Rattle.std.specs.Option.{option_map};
ghost use Rattle.sorted_lists.specs.Range.{numbers_from};
ghost use Rattle.repo_io.specs.Outside.{HasRisen};
ghost use Rattle.lab_text.specs.Outcomes.{HasCause, WritesOutcome};
ghost use Rattle.lab_seeds.specs.Endings.{AreEnds, HasEnd};
ghost use Rattle.lab_seeds.specs.Ends.{end_is_done};
ghost use Rattle.lab_seeds.specs.Reading.{lines_read};
ghost use Rattle.lab_seeds.specs.Seeding.{WritesSeeds, ends_status, outcome_over, seeds_of};
ghost use Rattle.lab_seeds.specs.ScriptRuns.{seed_run};

use crate::end::SeedEnd;
use crate::input::{ScriptLines, read_script};
use crate::script_run::end_of;
use crate::seed::seeded;
use crate::text::text_of;
use lab_text::LabStatus;
use repo_io::{ReadFault, Sink, Source, write_whole};
use std::alloc::{AllocError, Global};
use std::thread;
use std::thread::Threads;

/// Reads the script of the source, without its notes, and carries it out under each seed from the first to the last, as
/// many at once as there are workers, each in a thread and a world of its own. Then a line is written of each, in the
/// order of seeds, and the least, the median and the greatest of what was counted.
pub fn seeds<R: Threads + Sync, S: Source, K: Sink>(
    rt: &R,
    alloc: Global,
    first: u64,
    last: u64,
    workers: u32,
    source: &mut S,
    sink: &mut K,
) -> LabStatus
    requires order { first ≤ last }
    requires few { last - first < 10000 }
    requires workers { (1 ≤ workers) × (workers ≤ 16) }

    // Where the text was written to its end, it is the text of the runs under the seeds, and the status is theirs,
    // whatever the number of workers and their turns. In any case what was written is a prefix of that text.
    ensures writes { WritesOutcome (option_map (seeds_of first last) (S.left source.old))
        (K.out sink.old) (K.out sink.new) result }

    // The other answers have their causes. Memory may run out at any time.
    ensures causes { HasCause (option_map (seeds_of first last) (S.left source.old)) result
        (HasRisen (S.faults source.old) (S.faults source.new)) (HasRisen (K.faults sink.old) (K.faults sink.new)) }

    // On `Done` the input was read to its end.
    ensures read_to_end { result ≡ LabStatus.Done → IfSome (S.left source.old) (λ _. S.left source.new ≡ Some []) }
    ensures never_usage { result ≢ LabStatus.Usage }
{
    let script = match read_script(alloc, source) {
        Ok(script) => script,
        Err(ReadFault::Failed) => return LabStatus::ReadFault,
        Err(ReadFault::NoMemory) => return LabStatus::NoMemory,
    };
    let count = (last - first) as usize + 1;
    write_seeds(rt, alloc, first, count, workers, &script, sink)
}

// Carries out a script under `count` seeds from `first` on, and writes the result of each seed and of all together.
fn write_seeds<R: Threads + Sync, K: Sink>(
    rt: &R,
    alloc: Global,
    first: u64,
    count: usize,
    workers: u32,
    script: &ScriptLines,
    sink: &mut K,
) -> LabStatus
    requires count { first + count ≤ 2 ^ 64 }
    requires workers { 1 ≤ workers }
    ensures { WritesSeeds (outcome_over (seed_run (lines_read script.now)) (numbers_from first count))
        (K.out sink.old) (K.out sink.new) (HasRisen (K.faults sink.old) (K.faults sink.new)) result }
{
    let Ok(ends) = ends_of(rt, alloc, first, count, workers, script) else {
        return LabStatus::NoMemory;
    };
    let Ok(text) = text_of(alloc, first, &ends) else {
        return LabStatus::NoMemory;
    };
    match write_whole(sink, text.as_bytes()) {
        Ok(()) => status_of(&ends),
        Err(_) => LabStatus::WriteFault,
    }
}

// How the runs of the `count` seeds from `first` on ended, in their order.
fn ends_of<R: Threads + Sync>(
    rt: &R,
    alloc: Global,
    first: u64,
    count: usize,
    workers: u32,
    script: &ScriptLines,
) -> Result<Vec<SeedEnd>, AllocError>
    requires count { first + count ≤ 2 ^ 64 }
    requires workers { 1 ≤ workers }
    ensures ends { IfOk result (λ ends. AreEnds (seed_run (lines_read script.now)) first ends.items) }
    ensures count { IfOk result (λ ends. length ends.items ≡ count) }
{
    let mut room = vec![in alloc; None; count]?;
    ends_in(rt, alloc, first, workers, script, &mut room)
}

// How the runs of the seeds from `first` on ended, in their order: of as many seeds as `room` has places.
fn ends_in<R: Threads + Sync>(
    rt: &R,
    alloc: Global,
    first: u64,
    workers: u32,
    script: &ScriptLines,
    room: &mut [Option<SeedEnd>],
) -> Result<Vec<SeedEnd>, AllocError>
    requires count { first + length room.old ≤ 2 ^ 64 }
    requires workers { 1 ≤ workers }
    ensures ends { IfOk result (λ ends. AreEnds (seed_run (lines_read script.now)) first ends.items) }
    ensures count { IfOk result (λ ends. length ends.items ≡ length room.old) }
{
    put_ends(rt, alloc, first, workers, script, room);
    all_there(alloc, room)
}

// Puts into each place of `room` how the run of its seed ended, from the seed `first` on. Each worker carries out some
// seeds that stand beside each other, one after another.
fn put_ends<R: Threads + Sync>(
    rt: &R,
    alloc: Global,
    first: u64,
    workers: u32,
    script: &ScriptLines,
    room: &mut [Option<SeedEnd>],
)
    requires count { first + length room.old ≤ 2 ^ 64 }
    requires workers { 1 ≤ workers }
    ensures { (k : ℕ) (d : _) → k < length room.new
        → IfSome (slice_index_or room.new k d) (HasEnd (seed_run (lines_read script.now)) (first + k)) }
{
    thread::for_each_mut(
        rt,
        room,
        workers as usize,
        &|place: usize, end: &mut Option<SeedEnd>|
            requires { first + place < 2 ^ 64 }
            ensures { IfSome end.new (HasEnd (seed_run (lines_read script.entry.now)) (first + place)) }
        { *end = seed_end(rt, alloc, script, first + place as u64) },
    );
}

// How the run of a seed ended, unless memory ran out.
fn seed_end<R: Threads + Sync>(
    rt: &R,
    alloc: Global,
    script: &ScriptLines,
    seed: u64,
) -> Option<SeedEnd>
    ensures { IfSome result (HasEnd (seed_run (lines_read script.now)) seed) }
{
    end_of(rt, alloc, script, &seeded(seed)).ok()
}

// The ends, if memory ran out in no run.
fn all_there(alloc: Global, ends: &[Option<SeedEnd>]) -> Result<Vec<SeedEnd>, AllocError>
    ensures { IfOk result (λ all. map Some all.items ≡ ends.now) }
{
    let mut all = Vec::with_capacity(alloc, ends.len())?;
    for end in ends {
        let Some(end) = end else {
            return Err(AllocError);
        };
        all.push(*end)?;
    }
    Ok(all)
}

// The status by how runs ended.
fn status_of(ends: &[SeedEnd]) -> LabStatus
    ensures { result ≡ ends_status ends.now }
{
    if are_done(ends) {
        LabStatus::Done
    } else {
        LabStatus::Refused
    }
}

// Whether all lines were taken under each seed.
fn are_done(ends: &[SeedEnd]) -> bool
    ensures { result ≡ list_all end_is_done ends.now }
{
    ends.iter().all(|end| end.is_done())
}

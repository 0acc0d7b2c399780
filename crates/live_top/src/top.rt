ghost use Rattle.std.specs.Prelude.{◌≡◌, ◌⊎◌, ◌<◌, ◌^◌, ℕ, None, IfSome, IfOk, length, map, string_bytes};
ghost use Rattle.live_member.specs.Meanings.{IsWithinLimits, meaning_of};
ghost use Rattle.live_settle.specs.Rans.{AreRans};
ghost use Rattle.repo_io.specs.Outside.{HasRisen};
ghost use Rattle.live_top.specs.Answers.{HasCause, IsOfLines, LeavesRans, Refuses, Runs, SaysRefused, UsageIsOfWords};
ghost use Rattle.live_top.specs.Answers.{HaveActed, WritesPrefix, is_live};
ghost use Rattle.script_report.specs.Refusals.{refusal_text};
ghost use Rattle.live_top.specs.Outcomes.{first_draws, outcome_of};

use crate::input::{InputError, read_script};
use crate::live_report::live_text;
use bench_net::Draws;
use live_group::{Gate, run_group};
use live_script::{Members, Script};
use live_settle::Ran;
use repo_io::{Sink, Source, Status, write_whole};
use repo_member::Group;
use repo_object::Object;
use script_report::{Refusal, put_refused};
use std::alloc::{AllocError, Global};
use std::sync::Wait;
use std::thread::Threads;

/// Runs the live group of an input, for the word `live`: reads the lines of its name, its members and what these are to
/// publish, lets the members run in threads of their own, and writes the journal and the catalogue of each.
///
/// Each actor of a member passes the gate before each locked call. Nothing is promised of whether the run ends, or of
/// the order of what its threads do. `end` is left with the members of a run that is done, in order.
pub fn run_live<R: Threads + Wait + Sync, S: Source, K: Sink, D: Draws, G: Gate + Sync>(
    rt: &R,
    alloc: Global,
    words: &[String],
    source: &mut S,
    sink: &mut K,
    draws: &D,
    gate: &G,
    end: &mut Option<Vec<Ran>>,
) -> Status
    requires { end.old ≡ None }

    // `Usage` is answered exactly where the words aren't `live`, and then nothing is read or written.
    ensures usage { UsageIsOfWords (map string_bytes words.now) result
        (source.new ≡ source.old) (sink.new ≡ sink.old) }

    // On `Done` and `Refused` the status is the result of the input's lines: the first that is refused, or that all
    // are taken. No line brings octets, so none is foreign.
    ensures lines { IsOfLines (S.left source.old) result }

    // On `Done` the members in `end` ran as the input says, with its group and lists, where every draw of a member is
    // its first. The journal of each replays from the member's initial state to the member, and the member's catalogue
    // is the join of all lists. Before the settle all was done that a member's actors do. Their journals and then their
    // catalogues were written.
    ensures left { LeavesRans (D.draw draws.now) (S.left source.old) (S.left source.new) (K.out sink.old)
        (K.out sink.new) result end.new }

    // On `Refused` what was written is the refusal's line alone.
    ensures refused { (line number : ℕ) → result ≡ Status.Refused line number
        → SaysRefused line number (K.out sink.old) (K.out sink.new) }

    // The other answers have their causes. Memory may run out at any time.
    ensures causes { HasCause (map string_bytes words.now) (S.left source.old) result (sink.new ≡ sink.old)
        (HasRisen (S.faults source.old) (S.faults source.new)) (HasRisen (K.faults sink.old) (K.faults sink.new)) }

    // Whatever the answer is, nothing was written, or a prefix of a text that a run over this input may write. After
    // `WriteFault` it isn't the whole text.
    ensures prefix { IfSome (S.left source.old) (λ input. (sink.new ≡ sink.old)
        ⊎ WritesPrefix (D.draw draws.now) (outcome_of input) (K.out sink.old) (K.out sink.new)
        (result ≡ Status.WriteFault)) }
{
    if !is_live(words) {
        return Status::Usage;
    }
    match read_script(alloc, source) {
        Ok(script) => run_script(rt, alloc, script, sink, draws, gate, end),
        Err(InputError::Refused { line, why }) => refuse(alloc, line, why, sink),
        Err(InputError::Failed) => Status::ReadFault,
        Err(InputError::NoMemory) => Status::NoMemory,
    }
}

// Whether the words ask for a live group.
fn is_live(words: &[String]) -> bool
    ensures { result ≡ is_live (map string_bytes words.now) }
{
    matches!(words, [word] if word.as_str() == "live")
}

// Writes that the line is refused.
fn refuse<K: Sink>(alloc: Global, line: u32, why: Refusal, sink: &mut K) -> Status
    ensures refused { Refuses line why (K.out sink.old) (K.out sink.new) result }
    ensures no_memory { result ≡ Status.NoMemory → sink.new ≡ sink.old }
    ensures write_fault { result ≡ Status.WriteFault → HasRisen (K.faults sink.old) (K.faults sink.new) }
{
    let Ok(text) = refusal_line(alloc, line, why) else {
        return Status::NoMemory;
    };
    match write_whole(sink, &text) {
        Ok(()) => Status::Refused {
            line,
            number: why.number(),
        },
        Err(_) => Status::WriteFault,
    }
}

// The line of a report that says that a line is refused.
fn refusal_line(alloc: Global, line: u32, why: Refusal) -> Result<Vec<u8>, AllocError>
    ensures { IfOk result (λ text. text.items ≡ refusal_text line why) }
{
    let mut text = Vec::new(alloc);
    put_refused(
        &mut text,
        u64::from(line),
        u64::from(why.number()),
        why.word(),
    )?;
    Ok(text)
}

// Runs the group, writes its journals and catalogues, and leaves its members in `end`.
fn run_script<R: Threads + Wait + Sync, K: Sink, D: Draws, G: Gate + Sync>(
    rt: &R,
    alloc: Global,
    script: Script,
    sink: &mut K,
    draws: &D,
    gate: &G,
    end: &mut Option<Vec<Ran>>,
) -> Status
    requires { end.old ≡ None }
    ensures ran { Runs (D.draw draws.now) script (K.out sink.old) (K.out sink.new) end.new result }
    ensures no_memory { result ≡ Status.NoMemory → sink.new ≡ sink.old }
    ensures write_fault { result ≡ Status.WriteFault → HasRisen (K.faults sink.old) (K.faults sink.new) }
{
    let Some(members) = script.into_members() else {
        *end = Some(Vec::new(alloc));
        return Status::Done;
    };
    let Members {
        group,
        labels,
        lists,
    } = members;
    let Ok(rans) = run_members(rt, alloc, &group, lists, draws, gate) else {
        return Status::NoMemory;
    };
    let Ok(text) = live_text(alloc, &labels, &rans) else {
        return Status::NoMemory;
    };
    match write_whole(sink, &text) {
        Ok(()) => {
            *end = Some(rans);
            Status::Done
        }
        Err(_) => Status::WriteFault,
    }
}

// Runs the members of the group, where every draw of a member is its first.
fn run_members<R: Threads + Wait + Sync, D: Draws, G: Gate + Sync>(
    rt: &R,
    alloc: Global,
    group: &Group,
    lists: Vec<Vec<Object>>,
    draws: &D,
    gate: &G,
) -> Result<Vec<Ran>, AllocError>
    requires few { length lists.items < 2 ^ 32 }
    requires within { IsWithinLimits (meaning_of group.now (map (λ l. l.items) lists.items)
        (first_draws (D.draw draws.now) (length lists.items))) }
    ensures ran { IfOk result (λ rans. AreRans (meaning_of group.now (map (λ l. l.items) lists.items)
        (first_draws (D.draw draws.now) (length lists.items))) rans.items) }
    ensures acted { IfOk result (λ rans. HaveActed (meaning_of group.now (map (λ l. l.items) lists.items)
        (first_draws (D.draw draws.now) (length lists.items))) rans.items) }
{
    let values = first_draws(alloc, draws, lists.len() as u32)?;
    run_group(rt, alloc, group, lists, &values, gate)
}

// The first draw of each member.
fn first_draws<D: Draws>(alloc: Global, draws: &D, members: u32) -> Result<Vec<u32>, AllocError>
    ensures { IfOk result (λ values. values.items ≡ first_draws (D.draw draws.now) members) }
{
    let mut values = Vec::new(alloc);
    for member in 0..members {
        values.push(draws.draw(member, 0))?;
    }
    Ok(values)
}

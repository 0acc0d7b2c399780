ghost use Rattle.std.specs.Prelude.{◌≡◌, ◌+◌, ◌^◌, ◌≤◌, ◌++◌, length, IfOk, OnOk, string_bytes};
ghost use Rattle.std.specs.List.{flat_map};
ghost use Rattle.lab_seeds.specs.Texts.{done_text, figures_text, foreign_text, holdings_text, ranks_lines};
ghost use Rattle.lab_seeds.specs.Texts.{ranks_text, refused_text, traffic_text};
ghost use Rattle.lab_seeds.specs.Ends.{end_figures, end_text, ends_text};

use crate::end::{SeedEnd, done_figures};
use crate::figures::Figures;
use crate::ranks::{Ranks, ranks_of};
use std::alloc::{AllocError, Global};

// The text of the runs of the seeds from `first` on, by how they ended.
pub(crate) fn text_of(alloc: Global, first: u64, ends: &[SeedEnd]) -> Result<String, AllocError>
    requires { first + length ends.now ≤ 2 ^ 64 }
    ensures { IfOk result (λ text. string_bytes text
        ≡ ends_text first ends.now ++ ranks_text (flat_map end_figures ends.now)) }
{
    let mut text = String::new(alloc);
    put_ends(&mut text, first, ends)?;
    put_ranks(&mut text, alloc, &done_figures(alloc, ends)?)?;
    Ok(text)
}

// Each call appends its text. Where memory runs out, a part of it may stand there.

// Appends the line of each seed from `first` on.
fn put_ends(text: &mut String, first: u64, ends: &[SeedEnd]) -> Result<(), AllocError>
    requires { first + length ends.now ≤ 2 ^ 64 }
    ensures { OnOk result (string_bytes text.new ≡ string_bytes text.old ++ ends_text first ends.now) }
{
    for (place, end) in ends.iter().enumerate() {
        put_end(text, first + place as u64, *end)?;
    }
    Ok(())
}

fn put_end(text: &mut String, seed: u64, end: SeedEnd) -> Result<(), AllocError>
    ensures { OnOk result (string_bytes text.new ≡ string_bytes text.old ++ end_text seed end) }
{
    match end {
        SeedEnd::Done(figures) => put_done(text, seed, &figures),
        SeedEnd::Refused { line, refusal } => {
            put_refused(text, seed, line, refusal.number(), refusal.word())
        }
        SeedEnd::Foreign { line } => put_foreign(text, seed, line),
    }
}

#[tactic(auto, unfolding(crate::specs::Texts::done_text))]
fn put_done(text: &mut String, seed: u64, figures: &Figures) -> Result<(), AllocError>
    ensures { OnOk result (string_bytes text.new ≡ string_bytes text.old ++ done_text seed figures.now) }
{
    write!(text, "seed {seed} done")?;
    put_figures(text, figures)
}

#[tactic(auto, unfolding(crate::specs::Texts::refused_text))]
fn put_refused(
    text: &mut String,
    seed: u64,
    line: u32,
    number: u32,
    word: &str,
) -> Result<(), AllocError>
    ensures { OnOk result (string_bytes text.new ≡ string_bytes text.old ++ refused_text seed line number word.now) }
{
    write!(text, "seed {seed} refused {line} {number} {word}\n")
}

#[tactic(auto, unfolding(crate::specs::Texts::foreign_text))]
fn put_foreign(text: &mut String, seed: u64, line: u32) -> Result<(), AllocError>
    ensures { OnOk result (string_bytes text.new ≡ string_bytes text.old ++ foreign_text seed line) }
{
    write!(text, "seed {seed} foreign {line}\n")
}

// Appends each figure after its word, and a line feed.
#[tactic(auto, unfolding(crate::specs::Texts::figures_text))]
fn put_figures(text: &mut String, figures: &Figures) -> Result<(), AllocError>
    ensures { OnOk result (string_bytes text.new ≡ string_bytes text.old ++ figures_text figures.now) }
{
    put_traffic(text, figures)?;
    put_holdings(text, figures)?;
    text.push_str("\n")
}

// Appends what was sent and asked for, each number after its word.
#[tactic(auto, unfolding(crate::specs::Texts::traffic_text))]
fn put_traffic(text: &mut String, figures: &Figures) -> Result<(), AllocError>
    ensures { OnOk result (string_bytes text.new ≡ string_bytes text.old ++ traffic_text figures.now) }
{
    let Figures {
        syncs,
        delivered,
        attempts,
        ..
    } = *figures;
    write!(
        text,
        " syncs {syncs} delivered {delivered} attempts {attempts}"
    )
}

// Appends what was fetched and what is listed, each number after its word.
#[tactic(auto, unfolding(crate::specs::Texts::holdings_text))]
fn put_holdings(text: &mut String, figures: &Figures) -> Result<(), AllocError>
    ensures { OnOk result (string_bytes text.new ≡ string_bytes text.old ++ holdings_text figures.now) }
{
    let Figures {
        parts,
        octets,
        listed,
        ..
    } = *figures;
    write!(text, " parts {parts} octets {octets} listed {listed}")
}

// Appends the least, the median and the greatest of some figures, if there are any.
fn put_ranks(text: &mut String, alloc: Global, all: &[Figures]) -> Result<(), AllocError>
    ensures { OnOk result (string_bytes text.new ≡ string_bytes text.old ++ ranks_text all.now) }
{
    if all.is_empty() {
        return Ok(());
    }
    let ranks = ranks_of(alloc, all)?;
    put_ranks_lines(text, &ranks)
}

// Appends the lines of the least, the median and the greatest figures.
#[tactic(auto, unfolding(crate::specs::Texts::ranks_lines))]
fn put_ranks_lines(text: &mut String, ranks: &Ranks) -> Result<(), AllocError>
    ensures { OnOk result (string_bytes text.new ≡ string_bytes text.old ++ ranks_lines ranks.now) }
{
    text.push_str("least")?;
    put_figures(text, &ranks.least)?;
    text.push_str("median")?;
    put_figures(text, &ranks.median)?;
    text.push_str("greatest")?;
    put_figures(text, &ranks.greatest)
}

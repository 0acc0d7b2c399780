ghost use Rattle.std.specs.Prelude.{◌≡◌, IfOk};
ghost use Rattle.std.specs.List.{flat_map};
ghost use Rattle.lab_seeds.specs.Ends.{end_figures, end_is_done};

use crate::figures::Figures;
use script_report::Refusal;
use std::alloc::{AllocError, Global};

// How the run of a seed ended.
#[derive(Clone, Copy)]
pub(crate) enum SeedEnd {
    // All lines were taken. The figures are what was counted.
    Done(Figures),
    // The first line that is refused, counted from 1.
    Refused { line: u32, refusal: Refusal },
    // The first line that brings octets which no member made.
    Foreign { line: u32 },
}

impl SeedEnd {
    // Whether all lines were taken.
    pub(crate) fn is_done(&self) -> bool
        ensures { result ≡ end_is_done self.now }
    {
        matches!(self, SeedEnd::Done(_))
    }
}

// What was counted in those runs whose lines were all taken.
pub(crate) fn done_figures(alloc: Global, ends: &[SeedEnd]) -> Result<Vec<Figures>, AllocError>
    ensures { IfOk result (λ done. done.items ≡ flat_map end_figures ends.now) }
{
    let mut done = Vec::new(alloc);
    for end in ends {
        if let SeedEnd::Done(figures) = end {
            done.push(*figures)?;
        }
    }
    Ok(done)
}

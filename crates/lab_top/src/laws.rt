ghost use Rattle.lab_top.specs.LintLaws.{OtherLinesAreCarriedOut, RefusedLinesEndRuns, TakenLinesAreClean};

/// Lint writes nothing of lines that a run takes. Where it refuses the next line, each run of the script ends at that
/// line with the same refusal. Where it doesn't, a run carries out what the line states, and may end there only because
/// of the state of the group or the length of the report. The lines have no notes, and are within the limits of an
/// input.
pub fn lint_tells_where_runs_end()
    ensures clean { TakenLinesAreClean }
    ensures refused { RefusedLinesEndRuns }
    ensures others { OtherLinesAreCarriedOut }
{}

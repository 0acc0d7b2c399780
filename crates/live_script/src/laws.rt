ghost use Rattle.live_script.specs.Evaluation.{EachLineIsEvaluated};

/// Each line of an input is taken, or refused for one of eight reasons.
pub fn lines_are_judged()
    ensures { EachLineIsEvaluated }
{}

ghost use Rattle.std.specs.Prelude.{◌≡◌, ℕ, List};
ghost use Rattle.std.specs.List.{concat};
ghost use Rattle.repo_io.specs.Lines.{AreLines, lines};

/// The lines of an input are the one way to cut it into lines.
pub fn lines_are_the_input()
    ensures joined { (input : List ℕ) → concat (lines input) ≡ input }
    ensures each { (input : List ℕ) → AreLines (lines input) }
    ensures only { (cut : List (List ℕ)) → AreLines cut → lines (concat cut) ≡ cut }
{}

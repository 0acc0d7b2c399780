ghost use Rattle.std.specs.Prelude.{ℕ, List};
ghost use Rattle.lab_trace.specs.declared.values.Values.{Values};
ghost use Rattle.lab_trace.specs.Laws.{IsKnownBy, IsStateNote};
ghost use Rattle.lab_trace.specs.NoteTexts.{note_text};

/// A member or a mirror without a note after a line still is what its last note says. So a reader who keeps what the
/// last note of each says knows what each is after that line.
pub fn a_reader_knows_the_state()
    ensures { (last now : List Values) → IsKnownBy last now }
{}

/// Each note begins with `#=`, so that a check of a trace passes it over.
pub fn a_note_is_of_a_state()
    ensures { (labels : List (List ℕ)) → (label : List ℕ) → (v : Values) → IsStateNote (note_text labels label v) }
{}

ghost use Rattle.std.specs.Prelude.{◌≡◌, ◌≤◌, ◌+◌, ◌++◌, ◌↔◌, ℕ, List, [], ◌∷◌, true, false, codes, length, map};
ghost use Rattle.std.specs.List.{flat_map};
ghost use Rattle.repo_io.specs.Lines.{IsWhole, lines};
ghost use Rattle.script_lang.specs.Limits.{line_octets};
ghost use Rattle.lab_text.specs.Cutting.{AreWholeLines};
ghost use Rattle.lab_text.specs.Differences.{IsApart, LiesBetween, are_same, difference, differing};
ghost use Rattle.lab_text.specs.Differences.{line_difference_text, sum_text};
ghost use Rattle.lab_text.specs.LineTexts.{are_one_line_each, is_one_line, line_texts, without_feed};
ghost use Rattle.lab_text.specs.Notes.{is_note, is_report_note, note_line, note_text, without_notes};
ghost use Rattle.lab_text.specs.Transcripts.{line_with_report, report_note, shown_line};

/// Octets after lines that end with a line feed are cut into lines for themselves, and each line of an input is one.
pub fn lines_follow_lines()
    ensures then { (octets more : List ℕ) → AreWholeLines octets
        → lines (octets ++ more) ≡ lines octets ++ lines more }
    ensures each { (input : List ℕ) → are_one_line_each (lines input) ≡ true }
{}

/// What is shown of a line is a note only where the line is one, and just where it is one if the line isn't too long.
pub fn notes_begin_alike()
    ensures only { (line : List ℕ) → is_note (shown_line line) ≡ true → is_note line ≡ true }
    ensures just { (line : List ℕ) → length (without_feed line) ≤ line_octets + 1
        → is_note (shown_line line) ≡ is_note line }
{}

/// A line is shown as it stands, and shown again it is the same.
pub fn lines_are_shown_as_they_stand()
    ensures whole { (line : List ℕ) → IsWhole line → length (without_feed line) ≤ line_octets + 1
        → shown_line line ≡ line }
    ensures again { (line : List ℕ) → shown_line (shown_line line) ≡ shown_line line }
{}

/// The lines of a transcript are the line that is shown and the notes of its report, whatever follows; without notes
/// the line is left. The texts of the notes are the lines of the report, and each with a line feed they are the report.
pub fn transcripts_are_read_back()
    ensures lines { (line report more : List ℕ) → is_one_line line ≡ true
        → lines (line_with_report line report ++ more)
        ≡ shown_line line ∷ (map report_note (line_texts report) ++ lines more) }
    ensures script { (line report more : List ℕ) → is_one_line line ≡ true → is_note line ≡ false
        → without_notes (lines (line_with_report line report ++ more))
        ≡ shown_line line ∷ without_notes (lines more) }
    ensures notes { (text : List ℕ) → is_report_note (report_note text) ≡ true }
    ensures texts { (report : List ℕ) → map note_text (map report_note (line_texts report)) ≡ line_texts report }
    ensures report { (report : List ℕ) → AreWholeLines report
        → flat_map note_line (map report_note (line_texts report)) ≡ report }
{}

/// The lines that are read of what notes say are what each note says.
pub fn notes_are_read_back()
    ensures { (notes : List (List ℕ)) → are_one_line_each notes ≡ true
        → line_texts (flat_map note_line notes) ≡ map note_text notes }
{}

/// Lines are the same just where they are equal, and just then nothing differs.
pub fn the_same_is_equal()
    ensures equal { (expected actual : List (List ℕ)) → (are_same expected actual ≡ true) ↔ (expected ≡ actual) }
    ensures none { (expected actual : List (List ℕ)) → (are_same expected actual ≡ true)
        ↔ (differing expected actual ≡ difference [] []) }
{}

/// What differs lies between a common prefix and a common suffix, and neither begins nor ends with a common line.
pub fn what_differs_lies_between()
    ensures between { (expected actual : List (List ℕ)) → LiesBetween expected actual (differing expected actual) }
    ensures apart { (expected actual : List (List ℕ)) → IsApart (differing expected actual) }
{}

/// Small texts, worked out.
pub fn small_texts()
    ensures transcript { line_with_report (codes "deliver 1 bob") (codes "deliver 1 bob steady\n")
        ≡ codes "deliver 1 bob\n#> deliver 1 bob steady\n" }
    ensures difference { line_difference_text 12 (codes "deliver 1 bob\n")
        (codes "same" ∷ codes "deliver 1 bob suppressed" ∷ []) (codes "same" ∷ codes "deliver 1 bob steady" ∷ [])
        ≡ codes "line 12 deliver 1 bob\n- deliver 1 bob suppressed\n+ deliver 1 bob steady\n" }
    ensures no_line { line_difference_text 0 [] (codes "more" ∷ []) [] ≡ codes "line 0\n- more\n" }
    ensures same { sum_text 0 7 ≡ codes "same 7\n" }
    ensures differs { sum_text 1 7 ≡ codes "differs 1 of 7\n" }
{}

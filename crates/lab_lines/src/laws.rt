ghost use Rattle.std.specs.Prelude.{◌≡◌, ℕ, List, map};
ghost use Rattle.repo_io.specs.Lines.{lines};
ghost use Rattle.script_story.specs.Evaluation.{RunEnvironment};
ghost use Rattle.lab_text.specs.Notes.{without_notes};
ghost use Rattle.lab_text.specs.Transcripts.{shown_line};
ghost use Rattle.lab_lines.specs.Check.{check_of};
ghost use Rattle.lab_lines.specs.Laws.{CanBeReadAgain, IsSame};
ghost use Rattle.lab_lines.specs.Transcript.{transcript_of};

use lab_text::LabStatus;

/// Without its notes, the transcript of a script that is done is the script: each line as it is shown, so the last one
/// gets a line feed where it has none.
pub fn a_transcript_has_the_script()
    ensures { (env : RunEnvironment) → (input : List ℕ) → (transcript_of env input).status ≡ LabStatus.Done
        → without_notes (lines (transcript_of env input).text) ≡ map shown_line (without_notes (lines input)) }
{}

/// The transcript of a transcript is itself, and so is its end, where the input's lines are whole and the limits of an
/// input hold of both.
pub fn a_transcript_is_its_own_transcript()
    ensures { (env : RunEnvironment) → (input : List ℕ) → CanBeReadAgain env input
        → transcript_of env (transcript_of env input).text ≡ transcript_of env input }
{}

/// The check of a transcript, under the same draws and network, finds no line that differs.
pub fn a_transcript_is_the_same()
    ensures { (env : RunEnvironment) → (input : List ℕ) → CanBeReadAgain env input
        → IsSame (check_of env (transcript_of env input).text) }
{}

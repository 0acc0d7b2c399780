ghost use Rattle.std.specs.Prelude.{◌≡◌, ◌<◌, ◌^◌, ℕ, List, Option, Some, true};
ghost use Rattle.std.specs.List.{All};
ghost use Rattle.group_model.specs.World.{World};
ghost use Rattle.repo_command.specs.declared.answer.Answer.{Answer};
ghost use Rattle.repo_member.specs.Groups.{GroupKeys};
ghost use Rattle.script_report.specs.Texts.{command_text};
ghost use Rattle.script_story.specs.Evaluation.{State};
ghost use Rattle.lab_capture.specs.Answers.{AreOneAtMost, answer_report, is_one_word};
ghost use Rattle.lab_capture.specs.Captures.{Framed, IsFrame, capture_octets};
ghost use Rattle.lab_capture.specs.Frames.{arrivals, known_before, new_syncs, sync_to_some};
ghost use Rattle.lab_capture.specs.Laws.{AsksOrBrings, WasSent};
ghost use Rattle.lab_capture.specs.declared.station.Station.{Station};

/// No two lists of frames have the same capture, so the frames that are read of a capture are those that were written.
pub fn captures_are_read_back()
    ensures { (frames others : List Framed) → All IsFrame frames → All IsFrame others
        → capture_octets frames ≡ capture_octets others → frames ≡ others }
{}

/// What is read of the report of an answer, which has at most one number besides its code, is that answer.
pub fn answers_are_read_in_reports()
    ensures { (verb label : List ℕ) (answer : Answer) → is_one_word verb ≡ true → is_one_word label ≡ true
        → answer.code < 2 ^ 16 → AreOneAtMost answer.process answer.inserted answer.deleted
        → answer_report (command_text verb label answer.code answer.process answer.inserted answer.deleted)
        ≡ Some answer }
{}

/// Each sync Interest that a frame has was sent, and the frame's source is the member that sent it: in the frames to
/// all members, and in those to one member or one mirror.
pub fn sync_frames_were_sent()
    ensures new { (g : GroupKeys) → (w : World) → (sent : ℕ) → All (WasSent g w) (new_syncs g w sent) }
    ensures heard { (g : GroupKeys) → (w : World) → (k : ℕ) → (kind : ℕ → Station) → (i : Option ℕ)
        → All (WasSent g w) (sync_to_some g w k kind i) }
{}

/// In each frame of parts that are gained in a line, by an answer, a fetch or a settle, is an Interest, or the packet
/// of a part that the frame's destination, a member or a mirror, holds after the line.
pub fn arrivals_are_held()
    ensures { (before after : State) → (line : List ℕ) → (w : World)
        → All (AsksOrBrings after.keys w after.mirrors) (arrivals after (known_before before line) w) }
{}

use lab_text::LabStatus;
use script_story::Ending;

// Why no line follows.
pub(crate) enum Over {
    // The script stops at the line, and what the form writes of that is written.
    Stopped(Ending),
    // Memory ran out, or the sink failed.
    Faulted(LabStatus),
}

ghost use Rattle.std.specs.Prelude.{◌≡◌};
ghost use Rattle.script_story.specs.Answers.{status_of};

use repo_io::Status;

/// How a run ends.
#[derive(Clone, Copy, Debug, PartialEq, Eq)]
pub enum Ending {
    /// Every line was taken.
    Done,
    /// The first line that is refused, counted from 1, and the refusal's number.
    Refused { line: u32, number: u32 },
    /// The first line that brings octets which no member made, counted from 1.
    Foreign { line: u32 },
}

impl From<Ending> for Status {
    ghost from_gives = { λ ending status. status ≡ status_of ending };

    fn from(ending: Ending) -> Status {
        match ending {
            Ending::Done => Status::Done,
            Ending::Refused { line, number } => Status::Refused { line, number },
            Ending::Foreign { line } => Status::Foreign { line },
        }
    }
}

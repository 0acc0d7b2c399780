ghost use Rattle.std.specs.Prelude.{◌≡◌};
ghost use Rattle.repo_io.specs.Statuses.{exit_code};

/// The result of a run.
#[derive(Clone, Copy, Debug, PartialEq, Eq)]
pub enum Status {
    /// The input was read to its end, and the whole report was written.
    Done,
    /// The words are no form of a run.
    Usage,
    /// The line, counted from 1, is the first that is refused; the report ends with its refusal.
    Refused { line: u32, number: u32 },
    /// The source failed.
    ReadFault,
    /// The sink failed.
    WriteFault,
    /// Memory ran out.
    NoMemory,
    /// The line is the first that brings octets which no member published.
    Foreign { line: u32 },
}

impl Status {
    /// The exit status of the program, 0 to 6.
    pub fn code(self) -> u8
        ensures { result ≡ exit_code self }
    {
        match self {
            Status::Done => 0,
            Status::Usage => 1,
            Status::Refused { .. } => 2,
            Status::ReadFault => 3,
            Status::WriteFault => 4,
            Status::NoMemory => 5,
            Status::Foreign { .. } => 6,
        }
    }
}

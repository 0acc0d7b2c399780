ghost use Rattle.std.specs.Prelude.{◌≡◌};
ghost use Rattle.lab_text.specs.Outcomes.{exit_code};

/// How a form of the lab ended. The text that it wrote says at which line and by which refusal.
#[derive(Clone, Copy, Debug, PartialEq, Eq)]
pub enum LabStatus {
    /// The whole text was written, and the input was read to its end; but `check` may end at a line that is refused or
    /// foreign as its notes expect.
    Done,
    /// The words are no form of the lab.
    Usage,
    /// A line is refused.
    Refused,
    /// The source failed.
    ReadFault,
    /// The sink failed.
    WriteFault,
    /// Memory ran out.
    NoMemory,
    /// A line brings octets that no member published.
    Foreign,
    /// `check` found a line whose report is another than the one that its notes expect.
    Differs,
}

impl LabStatus {
    /// The exit status of the program, 0 to 7.
    pub fn code(self) -> u8
        ensures { result ≡ exit_code self }
    {
        match self {
            LabStatus::Done => 0,
            LabStatus::Usage => 1,
            LabStatus::Refused => 2,
            LabStatus::ReadFault => 3,
            LabStatus::WriteFault => 4,
            LabStatus::NoMemory => 5,
            LabStatus::Foreign => 6,
            LabStatus::Differs => 7,
        }
    }
}

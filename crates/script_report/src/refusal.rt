ghost use Rattle.std.specs.Prelude.{◌≡◌};
ghost use Rattle.script_report.specs.Refusals.{refusal_number, refusal_word};

/// Why a line of a script, or of a live group's input, is refused.
#[derive(Clone, Copy, Debug, PartialEq, Eq)]
pub enum Refusal {
    /// The line is not in the grammar.
    Syntax,
    /// A label is not that of a member, of a client where a client stands, or of a mirror where
    /// a mirror stands.
    UnknownLabel,
    /// A second group, or a label or node name that is there already.
    Duplicate,
    /// A size, a number or a count leaves its range.
    Limit,
    /// No sync Interest of this number was sent.
    NoSuchPacket,
    /// The fetcher claims a part already.
    FetcherBusy,
    /// The fetcher claims no part.
    FetcherIdle,
    /// The member has used all numbers of publications.
    NumbersSpent,
    /// The line stands before the group's line.
    NoGroup,
    /// A total would be exceeded.
    TooLarge,
    /// A declaration after an event or, in the input of a live group, a member after a publication.
    Late,
    /// The octets of an inspection are no elements.
    BadPacket,
    /// The member has no object of this number, or has withdrawn it.
    NoSuchNumber,
    /// The member has no watcher of this number.
    NoSuchWatch,
    /// The line is none of the lines of a live group's input.
    NotLive,
}

impl Refusal {
    /// The number of the refusal in the line that reports it, and beside an exit status. No refusal has number 13.
    pub fn number(self) -> u32
        ensures { result ≡ refusal_number self }
    {
        match self {
            Refusal::Syntax => 1,
            Refusal::UnknownLabel => 2,
            Refusal::Duplicate => 3,
            Refusal::Limit => 4,
            Refusal::NoSuchPacket => 5,
            Refusal::FetcherBusy => 6,
            Refusal::FetcherIdle => 7,
            Refusal::NumbersSpent => 8,
            Refusal::NoGroup => 9,
            Refusal::TooLarge => 10,
            Refusal::Late => 11,
            Refusal::BadPacket => 12,
            Refusal::NoSuchNumber => 14,
            Refusal::NoSuchWatch => 15,
            Refusal::NotLive => 16,
        }
    }

    /// Its word, beside the number.
    pub fn word(self) -> &'static str
        ensures { result.now ≡ refusal_word self }
    {
        match self {
            Refusal::Syntax => "Syntax",
            Refusal::UnknownLabel => "UnknownLabel",
            Refusal::Duplicate => "Duplicate",
            Refusal::Limit => "Limit",
            Refusal::NoSuchPacket => "NoSuchPacket",
            Refusal::FetcherBusy => "FetcherBusy",
            Refusal::FetcherIdle => "FetcherIdle",
            Refusal::NumbersSpent => "NumbersSpent",
            Refusal::NoGroup => "NoGroup",
            Refusal::TooLarge => "TooLarge",
            Refusal::Late => "Late",
            Refusal::BadPacket => "BadPacket",
            Refusal::NoSuchNumber => "NoSuchNumber",
            Refusal::NoSuchWatch => "NoSuchWatch",
            Refusal::NotLive => "NotLive",
        }
    }
}

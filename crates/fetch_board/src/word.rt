ghost use Rattle.std.specs.Prelude.{◌≡◌};
ghost use Rattle.fetch_board.specs.Words.{word_code, IsWithinTries};
ghost use Rattle.fetch_board.specs.Answers.{seen_word};

use crate::taken::Seen;

/// The word of an item, as contracts speak of it. The number is that of the attempts that ended without a value.
#[derive(Drop)]
pub enum Word {
    Wanted(u32),
    Held(u32),
    Done(u32),
    Spent,
}

impl Word {
    pub(crate) fn seen(self) -> Seen
        ensures { result ≡ seen_word self }
    {
        match self {
            Word::Wanted(attempt) => Seen::Wanted { attempt },
            Word::Held(attempt) => Seen::Held { attempt },
            Word::Done(_) => Seen::Done,
            Word::Spent => Seen::Spent,
        }
    }
}

// Wanted after a attempts is 4a, held then 4a + 1, done then 4a + 2.
pub(crate) const SPENT: u64 = 3;

pub(crate) fn word_of(code: u64) -> Word
    requires { (w : Word) × (code ≡ word_code w) × IsWithinTries 16 w }
    ensures { (w : Word) → code ≡ word_code w → result ≡ w }
{
    let attempt = (code / 4) as u32;
    match code % 4 {
        0 => Word::Wanted(attempt),
        1 => Word::Held(attempt),
        2 => Word::Done(attempt),
        _ => Word::Spent,
    }
}

ghost use Rattle.std.specs.Prelude.{◌≡◌, map, string_bytes, IfSome, true};
ghost use Rattle.lab_top.specs.Forms.{IsWithin, alone, asked_of, is_span, seed_of, span_from, span_of};
ghost use Rattle.lab_top.specs.Words.{number_of};

use crate::words::number_of;

// What the words of the command line ask for.
#[derive(Clone, Copy)]
pub(crate) enum Asked {
    // The script line by line, each with its report, under this seed.
    Transcript(u64),
    // The transcript under this seed, and what each member and mirror is after each line.
    Trace(u64),
    // Whether each line's report is the one that its notes expect, under this seed.
    Check(u64),
    // Each line that is refused before anything is carried out, and why.
    Lint,
    // How the script ends under each of many seeds.
    Seeds(Span),
    // A capture of the packets, under this seed.
    Capture(u64),
    // A picture of what the members and mirrors did, under this seed.
    Draw(u64),
}

// The seeds from the first to the last, and how many of them are tried at once.
#[derive(Clone, Copy)]
pub(crate) struct Span {
    pub first: u64,
    pub last: u64,
    pub workers: u64,
}

// What the words ask for.
pub(crate) fn asked_of(words: &[String]) -> Option<Asked>
    ensures value { result ≡ asked_of (map string_bytes words.now) }
    ensures within { IfSome result IsWithin }
{
    let [word, others @ ..] = words else {
        return None;
    };
    match word.as_str() {
        "transcript" => seed_of(others).map(Asked::Transcript),
        "trace" => seed_of(others).map(Asked::Trace),
        "check" => seed_of(others).map(Asked::Check),
        "lint" => alone(others),
        "seeds" => span_of(others).map(Asked::Seeds),
        "capture" => seed_of(others).map(Asked::Capture),
        "draw" => seed_of(others).map(Asked::Draw),
        _ => None,
    }
}

fn seed_of(words: &[String]) -> Option<u64>
    ensures { result ≡ seed_of (map string_bytes words.now) }
{
    match words {
        [] => Some(0),
        [word] => number_of(word),
        _ => None,
    }
}

fn alone(words: &[String]) -> Option<Asked>
    ensures { result ≡ alone (map string_bytes words.now) }
{
    words.is_empty().then_some(Asked::Lint)
}

fn span_of(words: &[String]) -> Option<Span>
    ensures value { result ≡ span_of (map string_bytes words.now) }
    ensures within { IfSome result (λ span. is_span span ≡ true) }
{
    match words {
        [first, last, workers] => span_from(number_of(first), number_of(last), number_of(workers)),
        _ => None,
    }
}

fn span_from(first: Option<u64>, last: Option<u64>, workers: Option<u64>) -> Option<Span>
    ensures value { result ≡ span_from first last workers }
    ensures within { IfSome result (λ span. is_span span ≡ true) }
{
    let span = Span {
        first: first?,
        last: last?,
        workers: workers?,
    };
    span.is_span().then_some(span)
}

impl Span {
    fn is_span(&self) -> bool
        ensures { result ≡ is_span self.now }
    {
        self.first <= self.last
            && self.last - self.first < 10_000
            && 1 <= self.workers
            && self.workers <= 16
    }
}

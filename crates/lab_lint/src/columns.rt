ghost use Rattle.std.specs.Prelude.{◌≡◌, ◌<◌, length, not, position, IfSome};
ghost use Rattle.script_lang.specs.Lines.{is_printable, without_return};
ghost use Rattle.lab_lint.specs.Columns.{after_word, body_of, column_of, first_word, from_place, from_verb};
ghost use Rattle.lab_lint.specs.Columns.{unprintable_column, words_on};

use lab_text::after_spaces;

// A line without its line feed and the carriage return before it.
pub(crate) fn body_of(line: &[u8]) -> &[u8]
    ensures { result.now ≡ body_of line.now }
{
    match line {
        [body @ .., b'\n'] => without_return(body),
        _ => line,
    }
}

fn without_return(line: &[u8]) -> &[u8]
    ensures { result.now ≡ without_return line.now }
{
    match line {
        [body @ .., b'\r'] => body,
        _ => line,
    }
}

#[tactic(auto, unfolding(crate::specs::Columns::after_word))]
fn after_word(octets: &[u8]) -> &[u8]
    ensures { result.now ≡ after_word octets.now }
{
    let mut rest = octets;
    while let [first, others @ ..] = rest {
        if *first == b' ' {
            return rest;
        }
        rest = others;
    }
    rest
}

// The word with which octets begin.
pub(crate) fn first_word(octets: &[u8]) -> &[u8]
    ensures { result.now ≡ first_word octets.now }
{
    let (word, _) = octets.split_at(octets.len().saturating_sub(after_word(octets).len()));
    word
}

// `octets`, which begin with a word, without their first `count` words and the spaces after each of them.
#[tactic(auto, using(crate::proofs::WordsOn::one_more, crate::proofs::WordsOn::no_more))]
pub(crate) fn words_on(octets: &[u8], count: usize) -> &[u8]
    ensures { result.now ≡ words_on count octets.now }
{
    let mut rest = octets;
    let mut left = count;
    while left > 0 {
        rest = after_spaces(after_word(rest));
        left -= 1;
    }
    rest
}

// A line from its verb on.
pub(crate) fn from_verb(body: &[u8]) -> &[u8]
    ensures { result.now ≡ from_verb body.now }
{
    after_spaces(body)
}

// A line from the word at a place on.
pub(crate) fn from_place(body: &[u8], place: usize) -> &[u8]
    ensures { result.now ≡ from_place place body.now }
{
    words_on(after_spaces(after_word(from_verb(body))), place)
}

// The column where the rest of a line begins.
pub(crate) fn column_of(body: &[u8], rest: &[u8]) -> usize
    ensures { result ≡ column_of body.now rest.now }
{
    (body.len() + 1).saturating_sub(rest.len())
}

// The column of the first octet that is not printable.
pub(crate) fn unprintable_column(body: &[u8]) -> usize
    ensures { result ≡ unprintable_column body.now }
{
    match find_unprintable(body) {
        Some(before) => before + 1,
        None => 1,
    }
}

fn find_unprintable(body: &[u8]) -> Option<usize>
    ensures place { result ≡ position (λ octet. not (is_printable octet)) body.now }
    ensures within { IfSome result (λ before. before < length body.now) }
{
    body.iter().position(|octet| !(b' '..=b'~').contains(octet))
}

ghost use Rattle.std.specs.Prelude.{◌≡◌, ◌<◌, ◌==◌, ◌||◌, not, length, position, IfSome};
ghost use Rattle.std.specs.Str.{bytes_eq};
ghost use Rattle.lab_picture.specs.Words.{after_word, first_word, from_word, is_gap, next_number, number_of};
ghost use Rattle.lab_picture.specs.Words.{with_digit, word_at};

// The word with the number `number`, counted from 0; nothing where there are fewer words.
pub(crate) fn word(octets: &[u8], number: u32) -> &[u8]
    ensures { result.now ≡ word_at number octets.now }
{
    let mut rest = octets;
    let mut left = number;
    while left > 0 {
        rest = after_word(rest);
        left -= 1;
    }
    first_word(rest)
}

fn first_word(octets: &[u8]) -> &[u8]
    ensures { result.now ≡ first_word octets.now }
{
    let rest = from_word(octets);
    match find_gap(rest) {
        Some(place) => rest.split_at(place).0,
        None => rest,
    }
}

fn after_word(octets: &[u8]) -> &[u8]
    ensures { result.now ≡ after_word octets.now }
{
    let rest = from_word(octets);
    match find_gap(rest) {
        Some(place) => rest.split_at(place).1,
        None => &[],
    }
}

fn from_word(octets: &[u8]) -> &[u8]
    ensures { result.now ≡ from_word octets.now }
{
    match find_word(octets) {
        Some(place) => octets.split_at(place).1,
        None => &[],
    }
}

fn find_word(octets: &[u8]) -> Option<usize>
    ensures place { result ≡ position (λ octet. not (is_gap octet)) octets.now }
    ensures within { IfSome result (λ place. place < length octets.now) }
{
    octets.iter().position(|octet| !is_gap(*octet))
}

fn find_gap(octets: &[u8]) -> Option<usize>
    ensures place { result ≡ position is_gap octets.now }
    ensures within { IfSome result (λ place. place < length octets.now) }
{
    octets.iter().position(|octet| is_gap(*octet))
}

fn is_gap(octet: u8) -> bool
    ensures { result ≡ is_gap octet }
{
    octet == b' ' || octet == b'\n' || octet == b'\r'
}

// Whether the two words are the same.
pub(crate) fn is_word(word: &[u8], other: &[u8]) -> bool
    ensures { result ≡ bytes_eq word.now other.now }
{
    word == other
}

// The number that a word is, if it is below 2 ^ 32.
pub(crate) fn number_of(word: &[u8]) -> Option<u32>
    ensures { result ≡ number_of word.now }
{
    let mut rest = word;
    let mut number = Some(0);
    while let Some((digit, others)) = rest.split_first() {
        number = with_digit(number, *digit);
        rest = others;
    }
    number
}

fn with_digit(number: Option<u32>, digit: u8) -> Option<u32>
    ensures { result ≡ with_digit number digit }
{
    match number {
        Some(number) => next_number(number, digit),
        None => None,
    }
}

fn next_number(number: u32, digit: u8) -> Option<u32>
    ensures { result ≡ next_number number digit }
{
    if !digit.is_ascii_digit() {
        return None;
    }
    let next = u64::from(number) * 10 + u64::from(digit - b'0');
    if next < 4_294_967_296 {
        Some(next as u32)
    } else {
        None
    }
}

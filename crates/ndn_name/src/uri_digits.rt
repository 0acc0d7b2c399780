ghost use Rattle.std.specs.Prelude.{◌≡◌, ◌≢◌, ◌+◌, ◌^◌, ◌<◌, ◌≤◌, length, MatchResult, Ok, Err};
ghost use Rattle.ndn_name.specs.Uri.{IsDecimal, IsDigestText};
ghost use Rattle.ndn_name.specs.UriReading.{ReadsText, digit_at, pair_at, with_digit};

use crate::name_fault::NameFault;

// The hexadecimal digit at the start of a text that begins at place `at`, and what follows it.
#[tactic(auto, unfolding(crate::specs::UriReading::digit_at))]
fn digit_at(text: &[u8], at: usize) -> Result<(u8, &[u8]), NameFault>
    ensures read { MatchResult result (λ x. digit_at at text.now ≡ Ok (x.0, x.1.now))
        (λ f. digit_at at text.now ≡ Err f) }
    ensures small { MatchResult result (λ x. x.0 < 16) (λ _. Unit {0}) }
{
    let [octet, rest @ ..] = text else {
        return Err(NameFault::BadUri { place: at });
    };
    match char::from(*octet).to_digit(16) {
        Some(digit) => Ok((digit as u8, rest)),
        None => Err(NameFault::BadUri { place: at }),
    }
}

// The octet that two hexadecimal digits at the start are, and what follows them.
#[tactic(auto, unfolding(crate::specs::UriReading::pair_at))]
pub(crate) fn pair_at(text: &[u8], at: usize) -> Result<(u8, &[u8]), NameFault>
    requires { at + length text.now < 2 ^ 63 }
    ensures { MatchResult result (λ x. pair_at at text.now ≡ Ok (x.0, x.1.now))
        (λ f. pair_at at text.now ≡ Err f) }
{
    let (high, rest) = digit_at(text, at)?;
    let (low, rest) = digit_at(rest, at + 1)?;
    Ok((high * 16 + low, rest))
}

// The digest whose digits are the text.
pub(crate) fn read_digest(text: &[u8], at: usize) -> Result<[u8; 32], NameFault>
    requires { at + length text.now < 2 ^ 63 }
    ensures read { ReadsText (λ d. d) IsDigestText at text.now result }
    ensures not_memory { result ≢ Err NameFault.NoMemory }
{
    let mut digest = [0; 32];
    let mut rest = text;
    for octet in digest.iter_mut() {
        let (value, following) = pair_at(rest, at + (text.len() - rest.len()))?;
        *octet = value;
        rest = following;
    }
    if rest.is_empty() {
        Ok(digest)
    } else {
        Err(NameFault::BadUri { place: at + 64 })
    }
}

// The number that the text is in decimal, without leading zeros, of at most `most`.
pub(crate) fn read_decimal(text: &[u8], at: usize, most: u64) -> Result<u64, NameFault>
    requires place { at + length text.now < 2 ^ 63 }
    requires digit { 9 ≤ most }
    ensures read { ReadsText (λ n. n) (IsDecimal most) at text.now result }
    ensures not_memory { result ≢ Err NameFault.NoMemory }
{
    let mut number = None;
    for (i, octet) in text.iter().enumerate() {
        let Some(longer) = with_digit(number, *octet, most) else {
            return Err(NameFault::BadUri { place: at + i });
        };
        number = Some(longer);
    }
    match number {
        Some(number) => Ok(number),
        None => Err(NameFault::BadUri { place: at }),
    }
}

// The number with one digit more, where there is such a number.
#[tactic(auto, unfolding(crate::specs::UriReading::with_digit))]
fn with_digit(number: Option<u64>, octet: u8, most: u64) -> Option<u64>
    requires { 9 ≤ most }
    ensures { result ≡ with_digit most number octet }
{
    let digit = u64::from(char::from(octet).to_digit(10)?);
    let Some(n) = number else {
        return Some(digit);
    };
    if n == 0 {
        return None;
    }
    let longer = n.checked_mul(10)?.checked_add(digit)?;
    if longer <= most { Some(longer) } else { None }
}

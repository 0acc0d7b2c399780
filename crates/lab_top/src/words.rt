ghost use Rattle.std.specs.Prelude.{◌≡◌};
ghost use Rattle.std.specs.List.{list_all};
ghost use Rattle.std.specs.Char.{is_ascii_digit};
ghost use Rattle.lab_top.specs.Words.{is_decimal, number_of};

// The number that the word is: decimal digits without a zero before others, where 64 bits hold it.
pub(crate) fn number_of(word: &str) -> Option<u64>
    ensures { result ≡ number_of word.now }
{
    if is_decimal(word) {
        word.parse().ok()
    } else {
        None
    }
}

fn is_decimal(word: &str) -> bool
    ensures { result ≡ is_decimal word.now }
{
    let [first, others @ ..] = word.as_bytes() else {
        return false;
    };
    (*first != b'0' || others.is_empty()) && are_digits(word.as_bytes())
}

fn are_digits(octets: &[u8]) -> bool
    ensures { result ≡ list_all is_ascii_digit octets.now }
{
    octets.iter().all(|octet| octet.is_ascii_digit())
}

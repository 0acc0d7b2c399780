ghost use Rattle.std.specs.Prelude.{◌≡◌, true};
ghost use Rattle.std.specs.List.{list_all};
ghost use Rattle.std.specs.Str.Parse.{digits_value};
ghost use Rattle.std.specs.Char.{is_ascii_digit};
ghost use Rattle.script_lang.specs.Kinds.{is_numeral};
ghost use Rattle.repo_top.specs.Words.{number_within};

// The number that the word is, where it is in this range: decimal digits without a zero in front of others.
pub(crate) fn number_within(least: u64, most: u64, word: &[u8]) -> Option<u64>
    ensures { result ≡ number_within least most word.now }
{
    if !is_numeral(word) {
        return None;
    }
    let number = value_of(word);
    (least <= number && number <= most).then_some(number)
}

fn is_numeral(word: &[u8]) -> bool
    ensures { result ≡ is_numeral word.now }
{
    let [first, others @ ..] = word else {
        return false;
    };
    others.len() <= 17 && (*first != b'0' || others.is_empty()) && are_digits(word)
}

fn are_digits(octets: &[u8]) -> bool
    ensures { result ≡ list_all is_ascii_digit octets.now }
{
    octets.iter().all(|octet| octet.is_ascii_digit())
}

fn value_of(numeral: &[u8]) -> u64
    requires { is_numeral numeral.now ≡ true }
    ensures { result ≡ digits_value 10 numeral.now }
{
    let mut value = 0;
    for digit in numeral {
        value = value * 10 + u64::from(*digit - b'0');
    }
    value
}

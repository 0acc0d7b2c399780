// What the report of a command says of its answer.
ghost use Rattle.std.specs.Prelude.{◌≡◌, ◌≤◌, map, IfOk, IfSome};
ghost use Rattle.std.specs.List.{list_all};
ghost use Rattle.std.specs.Char.{is_ascii_digit};
ghost use Rattle.ndn_name.specs.UriText.{decimal_of_text, is_decimal};
ghost use Rattle.lab_capture.specs.Answers.{answer_field, answer_in, answer_report, answer_with, report_words};

use lab_text::without_feed;
use repo_command::Answer;
use std::alloc::{AllocError, Global};

// The answer that a report says, if it says one.
pub(crate) fn answer_report(alloc: Global, report: &[u8]) -> Result<Option<Answer>, AllocError>
    ensures { IfOk result (λ answer. answer ≡ answer_report report.now) }
{
    let words = report_words(alloc, report)?;
    Ok(answer_in(&words))
}

// The words of a report of one line, which single spaces separate.
fn report_words(alloc: Global, report: &[u8]) -> Result<Vec<&[u8]>, AllocError>
    ensures { IfOk result (λ words. map (λ word. word.now) words.items ≡ report_words report.now) }
{
    without_feed(report)
        .split(|octet| *octet == b' ')
        .collect(alloc)
}

// The answer that the words of a report say.
fn answer_in(words: &[&[u8]]) -> Option<Answer>
    ensures { result ≡ answer_in (map (λ word. word.now) words.now) }
{
    match words {
        [_, _, code] => code_in(code).map(Answer::only),
        [_, _, code, word, number] => answer_with(code_in(code), word, number_in(u64::MAX, number)),
        _ => None,
    }
}

fn answer_with(code: Option<u16>, word: &[u8], number: Option<u64>) -> Option<Answer>
    ensures { result ≡ answer_with code word.now number }
{
    match (code, number) {
        (Some(code), Some(number)) => answer_field(code, word, number),
        _ => None,
    }
}

// An answer of a code and a number, by the word before the number.
fn answer_field(code: u16, word: &[u8], number: u64) -> Option<Answer>
    ensures { result ≡ answer_field code word.now number }
{
    let number = Some(number);
    let answer = Answer::only(code);
    if word == b"process".as_slice() {
        Some(Answer {
            process: number,
            ..answer
        })
    } else if word == b"inserted".as_slice() {
        Some(Answer {
            inserted: number,
            ..answer
        })
    } else if word == b"packets".as_slice() {
        Some(Answer {
            deleted: number,
            ..answer
        })
    } else {
        None
    }
}

// The code that a word is.
fn code_in(word: &[u8]) -> Option<u16>
    ensures { result ≡ decimal_of_text 65535 word.now }
{
    match number_in(u64::from(u16::MAX), word) {
        Some(code) => Some(code as u16),
        None => None,
    }
}

// The number that a word is in decimal, if it is at most `most`.
fn number_in(most: u64, word: &[u8]) -> Option<u64>
    ensures number { result ≡ decimal_of_text most word.now }
    ensures small { IfSome result (λ number. number ≤ most) }
{
    if !is_decimal(word) {
        return None;
    }
    // Digits are ASCII.
    let Ok(text) = str::from_utf8(word) else {
        unreachable!()
    };
    match text.parse() {
        Ok(number) if number <= most => Some(number),
        _ => None,
    }
}

// Digits, without a zero before others.
fn is_decimal(word: &[u8]) -> bool
    ensures { result ≡ is_decimal word.now }
{
    let [first, others @ ..] = word else {
        return false;
    };
    (*first != b'0' || others.is_empty()) && are_digits(word)
}

fn are_digits(octets: &[u8]) -> bool
    ensures { result ≡ list_all is_ascii_digit octets.now }
{
    octets.iter().all(|octet| octet.is_ascii_digit())
}

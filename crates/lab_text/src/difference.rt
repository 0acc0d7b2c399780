ghost use Rattle.std.specs.Prelude.{◌≡◌, ◌<◌, ◌&&◌, ◌++◌, codes, length, not, IfOk, IfSome, MatchOption, OnErr, OnOk};
ghost use Rattle.std.specs.Fmt.{decimal};
ghost use Rattle.lab_text.specs.Differences.{after_common_prefix, are_same, before_common_suffix, difference};
ghost use Rattle.lab_text.specs.Differences.{difference_text, is_empty_list, line_difference_text, numbered_line};
ghost use Rattle.lab_text.specs.LineTexts.{line_texts};
ghost use Rattle.lab_text.specs.Writing.{KeepsPrefix};

use crate::cutting::{split_first_line, split_last_line, without_feed};
use crate::transcript::shown_text;
use crate::writing::{all_or_nothing, write_line, write_marked};
use itoa::Buffer;
use std::alloc::AllocError;

/// Appends where the report of the line of this number differs from the one that was expected: nothing where their
/// lines are the same, without line feeds; else `line 12 deliver 1 bob`, and what lies between the lines with which
/// both begin and those with which both end, after `- ` what was expected and after `+ ` what came. Answers whether
/// they differ. Where memory runs out nothing changes.
pub fn put_difference(
    out: &mut Vec<u8>,
    number: u64,
    line: &[u8],
    expected: &[u8],
    report: &[u8],
) -> Result<bool, AllocError>
    ensures text { OnOk result (out.new.items ≡ out.old.items
        ++ line_difference_text number line.now (line_texts expected.now) (line_texts report.now)) }
    ensures differs { IfOk result (λ differs.
        differs ≡ not (are_same (line_texts expected.now) (line_texts report.now))) }
    ensures kept { OnErr result (out.new.items ≡ out.old.items) }
{
    let (expected, report) = after_common_prefix(expected, report);
    if are_empty(expected, report) {
        return Ok(false);
    }
    let (expected, report) = before_common_suffix(expected, report);
    let before = out.len();
    let written = write_difference(out, number, line, expected, report);
    all_or_nothing(out, before, written)?;
    Ok(true)
}

fn are_empty(expected: &[u8], actual: &[u8]) -> bool
    ensures { result ≡ (is_empty_list (line_texts expected.now) && is_empty_list (line_texts actual.now)) }
{
    expected.is_empty() && actual.is_empty()
}

// What is left of both after the lines with which both begin.
fn after_common_prefix<'a>(expected: &'a [u8], actual: &'a [u8]) -> (&'a [u8], &'a [u8])
    ensures { after_common_prefix (line_texts expected.now) (line_texts actual.now)
        ≡ difference (line_texts result.0.now) (line_texts result.1.now) }
{
    let (mut left, mut right) = (expected, actual);
    while let Some((left_others, right_others)) = after_common_line(left, right) {
        left = left_others;
        right = right_others;
    }
    (left, right)
}

// The same of one line; none where they begin with no common line.
fn after_common_line<'a>(expected: &'a [u8], actual: &'a [u8]) -> Option<(&'a [u8], &'a [u8])>
    ensures lines { MatchOption result
        (after_common_prefix (line_texts expected.now) (line_texts actual.now)
        ≡ difference (line_texts expected.now) (line_texts actual.now))
        (λ left. after_common_prefix (line_texts expected.now) (line_texts actual.now)
        ≡ after_common_prefix (line_texts left.0.now) (line_texts left.1.now)) }
    ensures fewer { IfSome result (λ left. length left.0.now < length expected.now) }
{
    let (line, expected_others) = split_first_line(expected)?;
    let (other, came_others) = split_first_line(actual)?;
    if without_feed(line) != without_feed(other) {
        return None;
    }
    Some((expected_others, came_others))
}

// What is left of both before the lines with which both end.
fn before_common_suffix<'a>(expected: &'a [u8], actual: &'a [u8]) -> (&'a [u8], &'a [u8])
    ensures { before_common_suffix (difference (line_texts expected.now) (line_texts actual.now))
        ≡ difference (line_texts result.0.now) (line_texts result.1.now) }
{
    let (mut left, mut right) = (expected, actual);
    while let Some((left_others, right_others)) = before_common_line(left, right) {
        left = left_others;
        right = right_others;
    }
    (left, right)
}

// The same of one line; none where they end with no common line.
fn before_common_line<'a>(expected: &'a [u8], actual: &'a [u8]) -> Option<(&'a [u8], &'a [u8])>
    ensures lines { MatchOption result
        (before_common_suffix (difference (line_texts expected.now) (line_texts actual.now))
        ≡ difference (line_texts expected.now) (line_texts actual.now))
        (λ left. before_common_suffix (difference (line_texts expected.now) (line_texts actual.now))
        ≡ before_common_suffix (difference (line_texts left.0.now) (line_texts left.1.now))) }
    ensures fewer { IfSome result (λ left. length left.0.now < length expected.now) }
{
    let (expected_others, line) = split_last_line(expected)?;
    let (came_others, other) = split_last_line(actual)?;
    if without_feed(line) != without_feed(other) {
        return None;
    }
    Some((expected_others, came_others))
}

fn write_difference(
    out: &mut Vec<u8>,
    number: u64,
    line: &[u8],
    expected: &[u8],
    actual: &[u8],
) -> Result<(), AllocError>
    ensures ok { OnOk result (out.new.items ≡ out.old.items ++ (numbered_line number line.now
        ++ difference_text (difference (line_texts expected.now) (line_texts actual.now)))) }
    ensures kept { KeepsPrefix out.old.items out.new.items }
{
    write_numbered(out, number, line)?;
    write_marked(out, b"- ", expected)?;
    write_marked(out, b"+ ", actual)
}

fn write_numbered(out: &mut Vec<u8>, number: u64, line: &[u8]) -> Result<(), AllocError>
    ensures ok { OnOk result (out.new.items ≡ out.old.items ++ numbered_line number line.now) }
    ensures kept { KeepsPrefix out.old.items out.new.items }
{
    write_number(out, number)?;
    let text = shown_text(line);
    if text.is_empty() {
        return write_line(out, b"", b"");
    }
    write_line(out, b" ", text)
}

fn write_number(out: &mut Vec<u8>, number: u64) -> Result<(), AllocError>
    ensures ok { OnOk result (out.new.items ≡ out.old.items ++ (codes "line " ++ decimal number)) }
    ensures kept { KeepsPrefix out.old.items out.new.items }
{
    out.extend_from_slice(b"line ")?;
    out.extend_from_slice(Buffer::new().format(number).as_bytes())
}

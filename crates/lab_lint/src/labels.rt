ghost use Rattle.std.specs.Prelude.{◌≡◌, None, Some, if◌then◌else◌};
ghost use Rattle.script_lang.specs.Forms.{stated};
ghost use Rattle.lab_lint.specs.Labels.{checked_place, double_place, is_declared, is_member, unknown_place};

use script_lang::{CheckFault, Line, Words};

// The place of the word for which a line is refused with `fault`, or none where it is refused for its verb.
pub(crate) fn checked_place(words: &Words, line: &Line, fault: CheckFault) -> Option<usize>
    ensures { result ≡ checked_place fault words.now (stated line.now) }
{
    match fault {
        CheckFault::UnknownLabel => unknown_place(words, line),
        CheckFault::Duplicate => double_place(words, line),
        CheckFault::NoGroup
        | CheckFault::Late
        | CheckFault::Limit
        | CheckFault::TooLarge
        | CheckFault::NoMemory => None,
    }
}

// The place of the first label that is unknown.
#[tactic(auto, unfolding(crate::specs::Labels::unknown_from))]
fn unknown_place(words: &Words, line: &Line) -> Option<usize>
    ensures { result ≡ unknown_place words.now (stated line.now) }
{
    match line {
        Line::Mirror { p: Some(p), .. } => unless(is_member(words, p), 1),
        Line::Insert { m, client, .. }
        | Line::Status { m, client, .. }
        | Line::Delete { m, client, .. } => {
            first_of(is_member(words, m), words.client(client).is_some(), 1)
        }
        Line::Answer { m, q, .. } => first_of(is_member(words, m), is_member(words, q), 2),
        Line::Dump { m, p, .. } | Line::Watch { m, p: Some(p), .. } => {
            first_of(is_member(words, m), is_member(words, p), 1)
        }
        Line::Deliver { m, .. } => unless(is_member(words, m), 1),
        Line::Publish { m, .. }
        | Line::Withdraw { m, .. }
        | Line::Fire { m }
        | Line::Restart { m }
        | Line::Vector { m }
        | Line::Catalogue { m }
        | Line::Claim { m, .. }
        | Line::Lose { m, .. }
        | Line::Fetch { m, .. }
        | Line::Hear { m, .. }
        | Line::Order { m, .. }
        | Line::Ask { m, .. }
        | Line::Feed { m, .. }
        | Line::Block { m, .. }
        | Line::Watch { m, p: None, .. }
        | Line::Told { m, .. } => unless(is_member(words, m), 0),
        Line::Mdeliver { l, .. } => unless(words.mirror(l).is_some(), 1),
        Line::Mfetch { l, .. } | Line::Mcatalogue { l } => unless(words.mirror(l).is_some(), 0),
        Line::Group { .. }
        | Line::Member { .. }
        | Line::Client { .. }
        | Line::Mirror { p: None, .. }
        | Line::Sync { .. }
        | Line::Advance { .. }
        | Line::Settle { .. }
        | Line::Summary
        | Line::Traffic => None,
    }
}

fn is_member(words: &Words, label: &str) -> bool
    ensures { result ≡ is_member words.now label.now }
{
    words.member(label).is_some()
}

// The place of the first unknown one of two labels, of which the first is at place 0 and the second at `place`.
fn first_of(first: bool, second: bool, place: usize) -> Option<usize>
    ensures { result ≡ if first then (if second then None else Some place) else Some 0 }
{
    if first {
        unless(second, place)
    } else {
        Some(0)
    }
}

// The place of a label, unless it is known.
fn unless(known: bool, place: usize) -> Option<usize>
    ensures { result ≡ if known then None else Some place }
{
    if known { None } else { Some(place) }
}

// The place of what a line declares a second time.
fn double_place(words: &Words, line: &Line) -> Option<usize>
    ensures { result ≡ double_place words.now (stated line.now) }
{
    match line {
        Line::Member { label, .. } | Line::Client { label, .. } | Line::Mirror { label, .. } => {
            if is_declared(words, label) {
                Some(0)
            } else {
                Some(1)
            }
        }
        Line::Group { .. }
        | Line::Publish { .. }
        | Line::Withdraw { .. }
        | Line::Deliver { .. }
        | Line::Sync { .. }
        | Line::Advance { .. }
        | Line::Fire { .. }
        | Line::Restart { .. }
        | Line::Vector { .. }
        | Line::Catalogue { .. }
        | Line::Claim { .. }
        | Line::Lose { .. }
        | Line::Answer { .. }
        | Line::Fetch { .. }
        | Line::Settle { .. }
        | Line::Dump { .. }
        | Line::Hear { .. }
        | Line::Order { .. }
        | Line::Ask { .. }
        | Line::Feed { .. }
        | Line::Insert { .. }
        | Line::Block { .. }
        | Line::Status { .. }
        | Line::Delete { .. }
        | Line::Watch { .. }
        | Line::Told { .. }
        | Line::Mdeliver { .. }
        | Line::Mfetch { .. }
        | Line::Mcatalogue { .. }
        | Line::Summary
        | Line::Traffic => None,
    }
}

fn is_declared(words: &Words, label: &str) -> bool
    ensures { result ≡ is_declared words.now label.now }
{
    words.member(label).is_some() || words.client(label).is_some() || words.mirror(label).is_some()
}

ghost use Rattle.std.specs.Prelude.{◌≡◌, ◌<◌, ◌==◌, ◌++◌, [], ◌∷◌, length, position, IfSome, MatchOption};
ghost use Rattle.repo_io.specs.Lines.{lines};
ghost use Rattle.lab_text.specs.Cutting.{AreWholeLines, HasOpenEnd};
ghost use Rattle.lab_text.specs.LineTexts.{without_feed};

/// A line without the line feed that ends it.
pub fn without_feed(line: &[u8]) -> &[u8]
    ensures { result.now ≡ without_feed line.now }
{
    match line {
        [text @ .., b'\n'] => text,
        _ => line,
    }
}

/// The first line of octets, with its line feed, and what follows it; none where they are empty.
pub fn split_first_line(octets: &[u8]) -> Option<(&[u8], &[u8])>
    ensures lines { MatchOption result (octets.now ≡ [])
        (λ parts. lines octets.now ≡ parts.0.now ∷ lines parts.1.now) }
    ensures fewer { IfSome result (λ parts. length parts.1.now < length octets.now) }
{
    if octets.is_empty() {
        return None;
    }
    match find_feed(octets) {
        Some(at) => Some(octets.split_at(at + 1)),
        None => Some(octets.split_at(octets.len())),
    }
}

// What stands before the last line of octets, and that line; none where they are empty.
pub(crate) fn split_last_line(octets: &[u8]) -> Option<(&[u8], &[u8])>
    ensures lines { MatchOption result (octets.now ≡ [])
        (λ parts. lines octets.now ≡ lines parts.0.now ++ parts.1.now ∷ []) }
    ensures fewer { IfSome result (λ parts. length parts.0.now < length octets.now) }
{
    let (_, prefix) = octets.split_last()?;
    let before = up_to_last_feed(prefix);
    Some(octets.split_at(before.len()))
}

fn find_feed(octets: &[u8]) -> Option<usize>
    ensures place { result ≡ position (λ octet. octet == 10) octets.now }
    ensures within { IfSome result (λ at. at < length octets.now) }
{
    octets.iter().position(|octet| *octet == b'\n')
}

// What stands up to the last line feed, and it.
fn up_to_last_feed(octets: &[u8]) -> &[u8]
    ensures whole { AreWholeLines result.now }
    ensures rest { HasOpenEnd result.now octets.now }
{
    let mut before = octets;
    while let [others @ .., last] = before {
        if *last == b'\n' {
            return before;
        }
        before = others;
    }
    before
}

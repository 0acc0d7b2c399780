ghost use Rattle.std.specs.Prelude.{◌≡◌, ◌<◌, ◌≤◌, ◌+◌, length, nat_le};
ghost use Rattle.lab_text.specs.Limits.{most_lines, most_octets};
ghost use Rattle.lab_lines.specs.Folding.{fits};

use lab_text::{MOST_LINES, MOST_OCTETS, without_feed};
use script_lang::LINE_LIMIT;

// How many lines and octets of an input were passed.
#[derive(Clone, Copy)]
pub(crate) struct Totals {
    pub lines: u32,
    pub octets: usize,
}

impl Totals {
    // No line and no octet was passed.
    pub fn new() -> Totals
        ensures { result ≡ record { lines = 0; octets = 0 } }
    {
        Totals {
            lines: 0,
            octets: 0,
        }
    }

    // Whether one more line is within the limits.
    pub fn fits(&self, line: &[u8]) -> bool
        ensures { result ≡ fits self.now.lines self.now.octets line.now }
    {
        self.lines < MOST_LINES
            && self.octets <= MOST_OCTETS
            && line.len() <= MOST_OCTETS - self.octets
            && without_feed(line).len() <= LINE_LIMIT
    }

    // Counts one more line.
    pub fn count(&mut self, line: &[u8])
        requires lines { self.old.lines ≤ most_lines }
        requires octets { self.old.octets ≤ most_octets }
        requires short { length line.now ≤ 65536 }
        ensures lines { self.new.lines ≡ self.old.lines + 1 }
        ensures octets { self.new.octets ≡ self.old.octets + length line.now }
    {
        self.lines += 1;
        self.octets += line.len();
    }

    // Counts octets that belong to the last line.
    pub fn count_more(&mut self, octets: &[u8])
        requires octets { self.old.octets ≤ most_octets }
        requires short { length octets.now ≤ 65536 }
        ensures lines { self.new.lines ≡ self.old.lines }
        ensures octets { self.new.octets ≡ self.old.octets + length octets.now }
    {
        self.octets += octets.len();
    }

    // Whether the octets that were passed are within the limit.
    pub fn is_open(&self) -> bool
        ensures { result ≡ nat_le self.now.octets most_octets }
    {
        self.octets <= MOST_OCTETS
    }
}

ghost use Rattle.std.specs.Prelude.{◌≡◌, ◌<◌, ◌≤◌, ◌+◌, ◌^◌, IfNone, IfSome, true, false};
ghost use Rattle.script_lang.specs.Forms.{stated};
ghost use Rattle.script_lang.specs.Checking.{adds, are_within_limits, index_packets, line_totals, publication_parts};
ghost use Rattle.script_lang.specs.Checking.{segments, with_totals};

use crate::limits::{CONTENTS_LIMIT, LISTED, PARTS_LIMIT, SETTLES_LIMIT};
use crate::line::Line;

// Totals over lines: octets of contents, parts, settles.
#[derive(Clone, Copy, Debug)]
pub(crate) struct ScriptTotals {
    contents: u64,
    parts: u64,
    settles: u64,
}

impl ScriptTotals {
    pub(crate) fn none() -> ScriptTotals
        ensures { line_totals result ≡ record { contents = 0; parts = 0; settles = 0 } }
    {
        ScriptTotals {
            contents: 0,
            parts: 0,
            settles: 0,
        }
    }

    // What a line adds to the totals.
    pub(crate) fn of_line(line: &Line) -> ScriptTotals
        ensures adds { line_totals result ≡ adds (stated line.now).verb (stated line.now).values }
        ensures contents { result.contents < 2 ^ 63 }
        ensures parts { result.parts < 2 ^ 63 + 2 ^ 62 }
        ensures settles { result.settles ≤ 1 }
    {
        match line {
            Line::Publish { size, content, .. } => ScriptTotals {
                contents: content.len() as u64,
                parts: publication_parts(segments(content.len() as u64, *size)),
                settles: 0,
            },
            Line::Block { content, .. } => ScriptTotals {
                contents: content.len() as u64,
                parts: 1,
                settles: 0,
            },
            Line::Withdraw { .. } | Line::Insert { .. } | Line::Order { .. } => ScriptTotals {
                parts: 1,
                ..ScriptTotals::none()
            },
            Line::Settle { .. } => ScriptTotals {
                settles: 1,
                ..ScriptTotals::none()
            },
            _ => ScriptTotals::none(),
        }
    }

    // The sums of these totals and `added`, or `None` if a sum is above its limit.
    pub(crate) fn with(self, added: ScriptTotals) -> Option<ScriptTotals>
        requires within { are_within_limits (line_totals self) ≡ true }
        requires contents { added.contents < 2 ^ 63 }
        requires parts { added.parts < 2 ^ 63 + 2 ^ 62 }
        requires settles { added.settles ≤ 1 }
        ensures some { IfSome result
            (λ sums. line_totals sums ≡ with_totals (line_totals self) (line_totals added)) }
        ensures within { IfSome result (λ sums. are_within_limits (line_totals sums) ≡ true) }
        ensures none { IfNone result
            (are_within_limits (with_totals (line_totals self) (line_totals added)) ≡ false) }
    {
        let sums = ScriptTotals {
            contents: self.contents + added.contents,
            parts: self.parts + added.parts,
            settles: self.settles + added.settles,
        };
        if sums.are_within_limits() {
            Some(sums)
        } else {
            None
        }
    }

    fn are_within_limits(&self) -> bool
        ensures { result ≡ are_within_limits (line_totals self.now) }
    {
        self.contents <= CONTENTS_LIMIT
            && self.parts <= PARTS_LIMIT
            && self.settles <= SETTLES_LIMIT
    }
}

// How many segments of `size` octets a content of `len` octets has.
fn segments(len: u64, size: u32) -> u64
    requires { len < 2 ^ 63 }
    ensures count { result ≡ segments len size }
    ensures small { result < 2 ^ 63 }
{
    if size == 0 {
        return 0;
    }
    let size = u64::from(size);
    (len + size - 1) / size
}

// How many parts a publication of `count` segments has: its record, the index packets and the segments.
fn publication_parts(count: u64) -> u64
    requires { count < 2 ^ 63 }
    ensures count { result ≡ publication_parts count }
    ensures small { result < 2 ^ 63 + 2 ^ 62 }
{
    1 + index_packets(count) + count
}

// How many index packets list `count` segments: none where the record lists them itself.
fn index_packets(count: u64) -> u64
    ensures { result ≡ index_packets count }
{
    if count <= LISTED {
        0
    } else {
        count.div_ceil(LISTED)
    }
}

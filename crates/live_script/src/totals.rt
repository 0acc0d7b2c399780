ghost use Rattle.std.specs.Prelude.{◌≡◌, ◌≤◌, true, false, IfNone, IfSome};
ghost use Rattle.script_lang.specs.Checking.{publication_parts};
ghost use Rattle.live_script.specs.Scripts.{are_few, no_totals, totals_view, with_one_more};

use live_member::{OBJECT_LIMIT, PART_LIMIT};
use repo_plan::Shape;

// The most octets that the contents of all publications have.
pub(crate) const CONTENTS_LIMIT: usize = 1_048_576;

// What the publications add up to: how many there are, the octets of their contents, and their parts.
#[derive(Clone, Copy, Debug)]
pub(crate) struct Totals {
    objects: u32,
    contents: usize,
    parts: u32,
}

impl Totals {
    pub(crate) fn none() -> Totals
        ensures { totals_view result ≡ no_totals }
    {
        Totals {
            objects: 0,
            contents: 0,
            parts: 0,
        }
    }

    // The totals with one more publication, of `octets` octets in `segments` segments, unless a limit would be passed.
    pub(crate) fn with(self, octets: usize, segments: usize) -> Option<Totals>
        requires within { are_few (totals_view self) ≡ true }
        requires octets { octets ≤ 16000000 }
        requires segments { segments ≤ 20000 }
        ensures some { IfSome result (λ totals. totals_view totals ≡ with_one_more octets segments (totals_view self)) }
        ensures few { IfSome result (λ totals. are_few (totals_view totals) ≡ true) }
        ensures none { IfNone result (are_few (with_one_more octets segments (totals_view self)) ≡ false) }
    {
        let totals = Totals {
            objects: self.objects + 1,
            contents: self.contents + octets,
            parts: self.parts + part_count(segments),
        };
        totals.are_few().then_some(totals)
    }

    fn are_few(&self) -> bool
        ensures { result ≡ are_few (totals_view self.now) }
    {
        self.objects <= OBJECT_LIMIT && self.contents <= CONTENTS_LIMIT && self.parts <= PART_LIMIT
    }
}

// The number of parts of a publication of `segments` segments.
fn part_count(segments: usize) -> u32
    requires { segments ≤ 20000 }
    ensures count { result ≡ publication_parts segments }
    ensures few { result ≤ 20101 }
{
    Shape::of(segments as u16).last_part() + 1
}

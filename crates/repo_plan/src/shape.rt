ghost use Rattle.std.specs.Prelude.{ℕ, ◌≡◌, ◌+◌, ◌≤◌, ◌<◌, ◌==◌, IfSome};
ghost use Rattle.repo_plan.specs.Parts.{IsShape, most_segments, shape_of_segments};
ghost use Rattle.repo_plan.specs.Parts.{last_part, parent_number, last_known_part};
ghost use Rattle.repo_plan.specs.Counts.{how_many};

/// What a record says of its publication's parts. Part 0 is the record, the parts from 1 on are the index packets, if
/// there are any, and those after them are the segments.
///
/// A record lists up to 200 segments itself. Of a larger publication it lists index packets, and these list the
/// segments, up to 200 each.
#[derive(Clone, Copy, Debug, PartialEq, Eq)]
pub struct Shape {
    /// How many index packets there are.
    pub index: u16,
    /// How many segments there are, at most 20,000.
    pub segments: u16,
}

// So many segments at most are listed by a record or an index packet.
const MOST_LISTED: u16 = 200;

impl Shape {
    /// The shape of a publication by its number of segments.
    pub fn of(segments: u16) -> Shape
        requires { segments ≤ most_segments }
        ensures sized { IsShape result }
        ensures shape { result ≡ shape_of_segments segments }
    {
        let index = if segments <= MOST_LISTED {
            0
        } else {
            segments.div_ceil(MOST_LISTED)
        };
        Shape { index, segments }
    }

    /// How many parts there are besides the record.
    pub fn last_part(self) -> u32
        ensures { result ≡ last_part self }
    {
        u32::from(self.index) + u32::from(self.segments)
    }

    /// The number of the part that lists this one: the record's, or for a segment that of its index packet, where there
    /// are some.
    pub fn parent(self, part: u16) -> u16
        ensures { result ≡ parent_number self part }
    {
        if self.index == 0 || part <= self.index {
            0
        } else {
            1 + (part - self.index - 1) / MOST_LISTED
        }
    }

    // The number after this part and after all that are listed with it.
    pub(crate) fn after_listed_with(self, part: u16) -> u32
        requires { 0 < parent_number self part }
        ensures following { part < result }
        ensures same { (x : ℕ) → part ≤ x → x < result → parent_number self x ≡ parent_number self part }
    {
        u32::from(self.index) + 1 + u32::from(self.parent(part)) * u32::from(MOST_LISTED)
    }

    // The number after the last part that is listed with this one. The record counts as listed by itself.
    pub(crate) fn end_of_list(self, part: u16) -> u32
        requires { part ≤ last_part self }
        ensures following { part < result }
        ensures within { result ≤ last_part self + 1 }
        ensures same { (x : ℕ) → part ≤ x → x < result → parent_number self x ≡ parent_number self part }
    {
        if self.parent(part) > 0 {
            self.after_listed_with(part).min(self.last_part() + 1)
        } else if self.index > 0 {
            u32::from(self.index) + 1
        } else {
            u32::from(self.segments) + 1
        }
    }

    // How many parts the one of this number lists.
    fn lists(self, part: u16) -> u16
        requires { IsShape self }
        ensures { result ≡ how_many (λ x. parent_number self x == part) 1 (last_part self) }
    {
        if part > self.index {
            0
        } else if part > 0 {
            (self.segments - (part - 1) * MOST_LISTED).min(MOST_LISTED)
        } else if self.index > 0 {
            self.index
        } else {
            self.segments
        }
    }
}

// How many parts the one of this number lists, of a publication whose record says this, or is not held.
pub(crate) fn listed_by(shape: Option<Shape>, part: u16) -> u16
    requires { IfSome shape IsShape }
    ensures { IfSome shape (λ n. result ≡ how_many (λ x. parent_number n x == part) 1 (last_part n)) }
{
    match shape {
        Some(shape) => shape.lists(part),
        None => 0,
    }
}

// How many parts besides the record are known of, of a publication whose record says this, or is not held.
pub(crate) fn last_known_part(shape: Option<Shape>) -> u32
    ensures { result ≡ last_known_part shape }
{
    match shape {
        Some(shape) => shape.last_part(),
        None => 0,
    }
}

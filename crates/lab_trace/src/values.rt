// What a note says of a member or a mirror.
ghost use Rattle.std.specs.Prelude.{◌≡◌};
ghost use Rattle.lab_trace.specs.SameValues.{are_same, are_same_figures, is_same_mode, is_same_timer, is_same_vector};
ghost use Rattle.lab_trace.specs.SameValues.{values_of};

use svs_sync::Mode;
use svs_vector::Vector;

// When a member's timer may fire, and whether it was suppressed.
#[derive(Clone, Copy)]
pub(crate) struct Timer {
    pub mode: Mode,
    pub deadline: u64,
}

// How many parts a member or a mirror holds, how many it wants, and how many entries it lists.
#[derive(Clone, Copy)]
pub(crate) struct Counts {
    pub holds: u64,
    pub wants: u64,
    pub lists: u64,
}

// What a note says besides the vector. A mirror has no timer.
#[derive(Clone, Copy)]
pub(crate) struct Figures {
    pub timer: Option<Timer>,
    pub counts: Counts,
}

// All that a note says, except the label.
#[derive(Drop)]
pub(crate) struct Values {
    pub known: Vector,
    pub figures: Figures,
}

impl Values {
    pub(crate) fn are(&self, known: &Vector, figures: Figures) -> bool
        ensures { result ≡ are_same self.now (values_of known.now figures) }
    {
        self.figures.are(figures) && is_same_vector(&self.known, known)
    }
}

impl Figures {
    fn are(self, others: Figures) -> bool
        ensures { result ≡ are_same_figures self others }
    {
        let a = self.counts;
        let b = others.counts;
        is_same_timer(self.timer, others.timer)
            && a.holds == b.holds
            && a.wants == b.wants
            && a.lists == b.lists
    }
}

fn is_same_vector(vector: &Vector, other: &Vector) -> bool
    ensures { result ≡ is_same_vector vector.now other.now }
{
    vector.members() == other.members() && vector.covers(other) && other.covers(vector)
}

fn is_same_timer(timer: Option<Timer>, other: Option<Timer>) -> bool
    ensures { result ≡ is_same_timer timer other }
{
    match (timer, other) {
        (None, None) => true,
        (Some(a), Some(b)) => is_same_mode(a.mode, b.mode) && a.deadline == b.deadline,
        _ => false,
    }
}

fn is_same_mode(mode: Mode, other: Mode) -> bool
    ensures { result ≡ is_same_mode mode other }
{
    match (mode, other) {
        (Mode::Steady, Mode::Steady) => true,
        (Mode::Suppressed, Mode::Suppressed) => true,
        _ => false,
    }
}

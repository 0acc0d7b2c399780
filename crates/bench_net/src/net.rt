ghost use Rattle.std.specs.Prelude.{◌≡◌, ℕ, Bool, true};

/// A network that lends packets and loses them.
///
/// Which attempts it passes is a function of what it holds. It can't fail, and threads share it.
pub trait Net {
    /// The answer, from the same numbers in the same order.
    ghost passes: { Self → ℕ → ℕ → ℕ → ℕ → ℕ → ℕ → Bool };

    /// Whether the asker's attempt at a part passes, where `loss` says how lossy the way is. A member's publications
    /// count from 1, the parts of one from 0, and a member's attempts at one part from 1.
    fn passes(
        &self,
        asker: u32,
        publisher: u32,
        seq: u32,
        part: u32,
        attempt: u32,
        loss: u32,
    ) -> bool
        ensures { result ≡ passes self.now asker publisher seq part attempt loss };

    /// Whether an answer may take long, so that even a few questions are better asked at the same time. This changes no
    /// answer.
    fn may_wait(&self) -> bool {
        true
    }
}

/// The network that passes every attempt.
#[derive(Clone, Copy, Debug)]
pub struct OpenNet;

impl OpenNet {
    pub fn new() -> OpenNet {
        OpenNet
    }
}

impl Net for OpenNet {
    ghost passes = { λ net asker publisher seq part attempt loss. true };

    fn passes(
        &self,
        _asker: u32,
        _publisher: u32,
        _seq: u32,
        _part: u32,
        _attempt: u32,
        _loss: u32,
    ) -> bool {
        true
    }
}

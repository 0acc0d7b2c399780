ghost use Rattle.std.specs.Prelude.{◌≡◌, ◌<◌, ◌≤◌, ℕ, List, length, take, Option, Ok, IfOk, OnErr};
ghost use Rattle.std.specs.Io.KnownBytes.{Appends, Keeps};
ghost use Rattle.repo_io.specs.Outside.{HasRisen};

use crate::failed::Failed;

/// Where a run writes its report.
pub trait Sink {
    /// The octets that it has taken, where they are known. Once known they stay so.
    ghost out: { Self → Option (List ℕ) };

    /// How many calls failed, or took nothing of a piece. The count stays at 18,446,744,073,709,551,615.
    ghost faults: { Self → ℕ };

    /// Takes octets from the start of the piece, and answers how many.
    fn write(&mut self, piece: &[u8]) -> Result<usize, Failed>
        ensures count { IfOk result (λ n. n ≤ length piece.now) }
        ensures given { IfOk result (λ n. Appends (out self.old) (out self.new) (take n piece.now)) }
        ensures refused { result ≡ Ok 0 → 0 < length piece.now
            → HasRisen (faults self.old) (faults self.new) }
        ensures failed { OnErr result (Keeps (out self.old) (out self.new)) }
        ensures risen { OnErr result (HasRisen (faults self.old) (faults self.new)) }
        ensures faults { faults self.old ≤ faults self.new };
}

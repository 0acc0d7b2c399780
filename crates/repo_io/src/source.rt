ghost use Rattle.std.specs.Prelude.{◌≡◌, ◌<◌, ◌≤◌, ℕ, List, length, take, Option, Ok, IfOk, OnErr};
ghost use Rattle.std.specs.Io.KnownBytes.{Consumes, IsAtEnd, Keeps};
ghost use Rattle.repo_io.specs.Outside.{HasRisen};

use crate::failed::Failed;

/// Where a run reads its input.
pub trait Source {
    /// The octets that are not yet read, where they are known. Once known they stay so.
    ghost left: { Self → Option (List ℕ) };

    /// How many calls failed. The count stays at 18,446,744,073,709,551,615.
    ghost faults: { Self → ℕ };

    /// Puts octets at the beginning of `buf`, and returns how many. None for a `buf` that isn't empty is the end.
    fn read(&mut self, buf: &mut [u8]) -> Result<usize, Failed>
        ensures count { IfOk result (λ n. n ≤ length buf.old) }
        ensures taken { IfOk result (λ n. Consumes (left self.old) (left self.new) (take n buf.new)) }
        ensures end { result ≡ Ok 0 → 0 < length buf.old → IsAtEnd (left self.new) }
        ensures failed { OnErr result (Keeps (left self.old) (left self.new)) }
        ensures risen { OnErr result (HasRisen (faults self.old) (faults self.new)) }
        ensures faults { faults self.old ≤ faults self.new };
}

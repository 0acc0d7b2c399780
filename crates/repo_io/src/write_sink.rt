ghost use Rattle.std.specs.Prelude.{◌≡◌, ◌<◌, ◌≤◌, length, take, is_ok, IfOk, OnErr, if◌then◌else◌};
ghost use Rattle.std.specs.Io.KnownBytes.{Appends, Keeps};
ghost use Rattle.repo_io.specs.InMemory.{one_more};
ghost use Rattle.repo_io.specs.Outside.{HasRisen};

use crate::failed::{Failed, TRIES};
use crate::sink::Sink;
use std::io::{ErrorKind, Write};
use std::marker::Model;

/// A sink over a writer. Contracts know of its octets what they know of the writer's: all of a vector, and nothing of
/// standard output.
#[derive(Debug, Drop)]
pub struct WriteSink<W: Write> {
    writer: W,
    faults: u64,
}

impl<W: Write> Model for WriteSink<W> {
    ghost use Rattle.repo_io.specs.InMemory.{Counted};

    ghost Value = { Counted W };

    ghost view = { λ k. record { inner = k.writer; faults = k.faults } };
}

impl<W: Write> WriteSink<W> {
    pub fn new(writer: W) -> WriteSink<W>
        ensures { result ≡ record { inner = writer; faults = 0 } }
    {
        WriteSink { writer, faults: 0 }
    }
}

impl<W: Write> Sink for WriteSink<W> {
    ghost out = { λ k. W.contents k.inner };

    ghost faults = { λ k. k.faults };

    // What the trait says, and: the count rises at each fault of the writer, and where it takes nothing of a piece.
    fn write(&mut self, piece: &[u8]) -> Result<usize, Failed>
        ensures count { IfOk result (λ n. n ≤ length piece.now) }
        ensures taken { IfOk result (λ n. 0 < length piece.now → 0 < n) }
        ensures given { IfOk result (λ n. Appends (W.contents self.old.inner) (W.contents self.new.inner)
            (take n piece.now)) }
        ensures failed { OnErr result (Keeps (W.contents self.old.inner) (W.contents self.new.inner)) }
        ensures risen { OnErr result (HasRisen self.old.faults self.new.faults) }
        ensures faults { self.old.faults ≤ self.new.faults }
        ensures counted { self.new.faults
            ≡ (if is_ok result then self.old.faults else one_more self.old.faults) }
    {
        match write_again(&mut self.writer, piece) {
            Ok(n) if n > 0 || piece.is_empty() => Ok(n),
            _ => {
                self.faults = self.faults.saturating_add(1);
                Err(Failed)
            }
        }
    }
}

// Writes once, and again where a signal interrupts it.
fn write_again<W: Write>(writer: &mut W, piece: &[u8]) -> Result<usize, Failed>
    ensures count { IfOk result (λ n. n ≤ length piece.now) }
    ensures given { IfOk result (λ n. Appends (W.contents writer.old) (W.contents writer.new) (take n piece.now)) }
    ensures failed { OnErr result (Keeps (W.contents writer.old) (W.contents writer.new)) }
{
    for _ in 0..TRIES {
        match writer.write(piece) {
            Ok(n) => return Ok(n),
            Err(e) if e.kind() == ErrorKind::Interrupted => {}
            Err(_) => return Err(Failed),
        }
    }
    Err(Failed)
}

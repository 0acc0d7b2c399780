ghost use Rattle.std.specs.Prelude.{◌≡◌, ◌<◌, ◌≤◌, Ok, length, take, is_ok, IfOk, OnErr, if◌then◌else◌};
ghost use Rattle.std.specs.Io.KnownBytes.{Consumes, IsAtEnd, Keeps};
ghost use Rattle.repo_io.specs.InMemory.{one_more};
ghost use Rattle.repo_io.specs.Outside.{HasRisen};

use crate::failed::{Failed, TRIES};
use crate::source::Source;
use std::io::{ErrorKind, Read};
use std::marker::Model;

/// A source over a reader. Contracts know of its octets what they know of the reader's: all of a slice, and nothing of
/// standard input.
#[derive(Debug, Drop)]
pub struct ReadSource<R: Read> {
    reader: R,
    faults: u64,
}

impl<R: Read> Model for ReadSource<R> {
    ghost use Rattle.repo_io.specs.InMemory.{Counted};

    ghost Value = { Counted R };

    ghost view = { λ s. record { inner = s.reader; faults = s.faults } };
}

impl<R: Read> ReadSource<R> {
    pub fn new(reader: R) -> ReadSource<R>
        ensures { result ≡ record { inner = reader; faults = 0 } }
    {
        ReadSource { reader, faults: 0 }
    }
}

impl<R: Read> Source for ReadSource<R> {
    ghost left = { λ s. R.remaining s.inner };

    ghost faults = { λ s. s.faults };

    // What the trait says, and: the count rises at each fault of the reader, and then alone.
    fn read(&mut self, buf: &mut [u8]) -> Result<usize, Failed>
        ensures count { IfOk result (λ n. n ≤ length buf.old) }
        ensures taken { IfOk result (λ n. Consumes (R.remaining self.old.inner) (R.remaining self.new.inner)
            (take n buf.new)) }
        ensures end { result ≡ Ok 0 → 0 < length buf.old → IsAtEnd (R.remaining self.new.inner) }
        ensures failed { OnErr result (Keeps (R.remaining self.old.inner) (R.remaining self.new.inner)) }
        ensures risen { OnErr result (HasRisen self.old.faults self.new.faults) }
        ensures faults { self.old.faults ≤ self.new.faults }
        ensures counted { self.new.faults
            ≡ (if is_ok result then self.old.faults else one_more self.old.faults) }
    {
        let read = read_again(&mut self.reader, buf);
        if read.is_err() {
            self.faults = self.faults.saturating_add(1);
        }
        read
    }
}

// Reads once, and again where a signal interrupts it.
fn read_again<R: Read>(reader: &mut R, buf: &mut [u8]) -> Result<usize, Failed>
    ensures count { IfOk result (λ n. n ≤ length buf.old) }
    ensures taken { IfOk result (λ n. Consumes (R.remaining reader.old) (R.remaining reader.new) (take n buf.new)) }
    ensures end { result ≡ Ok 0 → 0 < length buf.old → IsAtEnd (R.remaining reader.new) }
    ensures failed { OnErr result (Keeps (R.remaining reader.old) (R.remaining reader.new)) }
{
    for _ in 0..TRIES {
        match reader.read(buf) {
            Ok(n) => return Ok(n),
            Err(e) if e.kind() == ErrorKind::Interrupted => {}
            Err(_) => return Err(Failed),
        }
    }
    Err(Failed)
}

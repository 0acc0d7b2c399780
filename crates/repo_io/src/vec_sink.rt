ghost use Rattle.std.specs.Prelude.{◌≡◌, ◌<◌, ◌≤◌, ◌++◌, [], length, take, Ok, Some, IfOk, OnErr};
ghost use Rattle.repo_io.specs.InMemory.{IsSinkCall};
ghost use Rattle.repo_io.specs.Outside.{HasRisen};

use crate::failed::Failed;
use crate::sink::Sink;
use std::alloc::Global;
use std::marker::Model;

/// A sink that keeps what it takes, for tests: it takes small pieces, and fails where it is asked to.
#[derive(Debug, Drop)]
pub struct VecSink {
    octets: Vec<u8>,
    piece: usize,
    fails: Vec<u64>,
    calls: u64,
    faults: u64,
}

impl Model for VecSink {
    ghost use Rattle.std.specs.Prelude.{◌≤◌};
    ghost use Rattle.repo_io.specs.InMemory.{Store};

    ghost Value = { Store };

    ghost view = { λ k. record {
      out = k.octets.items;
      piece = k.piece;
      fails = k.fails.items;
      calls = k.calls;
      faults = k.faults;
    } };

    ghost invariant = { λ k. 1 ≤ k.piece };
}

impl VecSink {
    /// A sink that takes at most `piece` octets a call. Its calls are numbered from 1; those in `fails` fail, and so
    /// does one whose octets find no memory.
    pub fn new(alloc: Global, piece: usize, fails: Vec<u64>) -> VecSink
        requires { 1 ≤ piece }
        ensures { result ≡ record {
          out = [];
          piece = piece;
          fails = fails.items;
          calls = 0;
          faults = 0;
        } }
    {
        VecSink {
            octets: Vec::new(alloc),
            piece,
            fails,
            calls: 0,
            faults: 0,
        }
    }

    /// What it has taken.
    pub fn octets(&self) -> &[u8]
        ensures { result.now ≡ self.now.out }
    {
        &self.octets
    }
}

impl Sink for VecSink {
    ghost out = { λ k. Some k.out };

    ghost faults = { λ k. k.faults };

    // What the trait says, and: the calls that are listed fail, and those that don't fail take as much as they can.
    fn write(&mut self, piece: &[u8]) -> Result<usize, Failed>
        ensures count { IfOk result (λ n. n ≤ length piece.now) }
        ensures given { IfOk result (λ n. self.new.out ≡ self.old.out ++ take n piece.now) }
        ensures refused { result ≡ Ok 0 → 0 < length piece.now
            → HasRisen self.old.faults self.new.faults }
        ensures failed { OnErr result (self.new.out ≡ self.old.out) }
        ensures risen { OnErr result (HasRisen self.old.faults self.new.faults) }
        ensures faults { self.old.faults ≤ self.new.faults }
        ensures call { IsSinkCall self.old self.new piece.now result }
    {
        self.calls = self.calls.saturating_add(1);
        let n = piece.len().min(self.piece);
        if self.fails.contains(&self.calls) || self.octets.extend_from_slice(&piece[..n]).is_err() {
            self.faults = self.faults.saturating_add(1);
            return Err(Failed);
        }
        Ok(n)
    }
}

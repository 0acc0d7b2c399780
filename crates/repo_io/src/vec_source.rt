ghost use Rattle.std.specs.Prelude.{◌≡◌, ◌<◌, ◌≤◌, ◌++◌, [], length, take, Ok, IfOk, OnErr, Some};
ghost use Rattle.repo_io.specs.InMemory.{IsSourceCall};
ghost use Rattle.repo_io.specs.Outside.{HasRisen};

use crate::failed::Failed;
use crate::source::Source;
use std::marker::Model;

/// A source over octets in memory, for tests: it gives small pieces, and fails where it is asked to.
#[derive(Debug, Drop)]
pub struct VecSource {
    octets: Vec<u8>,
    at: usize,
    piece: usize,
    fails: Vec<u64>,
    calls: u64,
    faults: u64,
}

impl Model for VecSource {
    ghost use Rattle.std.specs.Prelude.{◌≤◌, drop, length};
    ghost use Rattle.repo_io.specs.InMemory.{Supply};

    ghost Value = { Supply };

    ghost view = { λ s. record {
      left = drop s.at s.octets.items;
      piece = s.piece;
      fails = s.fails.items;
      calls = s.calls;
      faults = s.faults;
    } };

    ghost invariant = { λ s. (s.at ≤ length s.octets.items) × (1 ≤ s.piece) };
}

impl VecSource {
    /// A source of these octets that gives at most `piece` of them a call. Its calls are numbered from 1; those in
    /// `fails` fail.
    pub fn new(octets: Vec<u8>, piece: usize, fails: Vec<u64>) -> VecSource
        requires { 1 ≤ piece }
        ensures { result ≡ record {
          left = octets.items;
          piece = piece;
          fails = fails.items;
          calls = 0;
          faults = 0;
        } }
    {
        VecSource {
            octets,
            at: 0,
            piece,
            fails,
            calls: 0,
            faults: 0,
        }
    }
}

impl Source for VecSource {
    ghost left = { λ s. Some s.left };

    ghost faults = { λ s. s.faults };

    // What the trait says, and: the calls that fail are those listed, and the others give as much as they can.
    fn read(&mut self, buf: &mut [u8]) -> Result<usize, Failed>
        ensures count { IfOk result (λ n. n ≤ length buf.old) }
        ensures taken { IfOk result (λ n. self.old.left ≡ take n buf.new ++ self.new.left) }
        ensures end { result ≡ Ok 0 → 0 < length buf.old → self.new.left ≡ [] }
        ensures failed { OnErr result (self.new.left ≡ self.old.left) }
        ensures risen { OnErr result (HasRisen self.old.faults self.new.faults) }
        ensures faults { self.old.faults ≤ self.new.faults }
        ensures call { IsSourceCall self.old self.new (length buf.old) result }
    {
        self.calls = self.calls.saturating_add(1);
        if self.fails.contains(&self.calls) {
            self.faults = self.faults.saturating_add(1);
            return Err(Failed);
        }
        let rest = &self.octets[self.at..];
        let n = rest.len().min(self.piece).min(buf.len());
        buf[..n].copy_from_slice(&rest[..n]);
        self.at += n;
        Ok(n)
    }
}

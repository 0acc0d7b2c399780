ghost use Rattle.std.specs.Prelude.{◌≡◌, ◌<◌, ◌≤◌, ◌+◌, ◌-◌, false, ℕ, [], length, take, drop, slice_range, Ok};
ghost use Rattle.std.specs.Prelude.{IfOk, IfSome, MatchOption, OnErr, ◌==◌, position};
ghost use Rattle.std.specs.Io.KnownBytes.{IsAtEnd, Keeps, prepend_known};
ghost use Rattle.repo_io.specs.Lines.{has_feed};
ghost use Rattle.repo_io.specs.Outside.{HasRisen};
ghost use Rattle.script_lines.specs.Reading.{HasLine, LineIsBegun, IsNext};

use repo_io::{Failed, Source};
use script_lang::LINE_LIMIT;
use std::alloc::{AllocError, Global};
use std::marker::Model;

// At most this many octets are held.
const ROOM: usize = 65_536;

/// The line with which the octets held begin.
#[derive(Clone, Copy, Debug, PartialEq, Eq)]
pub enum Next {
    /// The first octets held are a line with its line feed, or are too long for a line already: their number.
    Line(usize),
    /// The input has ended, and all that is held is the last line.
    Last,
}

/// The octets that were read and not passed yet.
#[derive(Drop)]
pub struct LineReader {
    room: Vec<u8>,
    // Where the octets held begin in `room`.
    start: usize,
    // Where the octets held end in `room`.
    end: usize,
    // No line feed stands between `start` and `searched`.
    searched: usize,
}

// A reader is seen as the octets that it holds.
impl Model for LineReader {
    ghost use Rattle.std.specs.Prelude.{ℕ, List, slice_range};
    ghost use Rattle.script_lines.specs.Reading.{IsReader};

    ghost Value = { List ℕ };

    ghost view = { λ r. slice_range r.room.items r.start r.end };

    ghost invariant = { λ r. IsReader r.room.items r.start r.end r.searched };
}

impl LineReader {
    /// A reader with capacity for 65,536 octets, which holds none.
    pub fn new(alloc: Global) -> Result<LineReader, AllocError>
        ensures { IfOk result (λ reader. reader ≡ []) }
    {
        Ok(LineReader {
            room: vec![in alloc; 0; ROOM]?,
            start: 0,
            end: 0,
            searched: 0,
        })
    }

    /// What is held.
    pub fn held(&self) -> &[u8]
        ensures { result.now ≡ self.now }
    {
        &self.room[self.start..self.end]
    }

    /// The first `count` octets held.
    pub fn prefix(&self, count: usize) -> &[u8]
        requires { count ≤ length self.now }
        ensures { result.now ≡ take count self.now }
    {
        let (prefix, _) = self.held().split_at(count);
        prefix
    }

    /// Passes over the first `count` octets held.
    pub fn pass(&mut self, count: usize)
        requires { count ≤ length self.old }
        ensures { self.new ≡ drop count self.old }
    {
        self.start += count;
        self.searched = self.start;
    }

    /// The line with which the octets held begin. No more is read than is needed to find its end, and nothing where the
    /// octets held have it.
    pub fn next<S: Source>(&mut self, source: &mut S) -> Result<Next, Failed>
        ensures kept { Keeps (prepend_known self.old (S.left source.old)) (prepend_known self.new (S.left source.new)) }
        ensures few { length self.new ≤ 65536 }
        ensures next { IfOk result (IsNext self.new) }
        ensures unread { (count : ℕ) → HasLine count self.old
            → (self.new ≡ self.old) × (source.new ≡ source.old) }
        ensures last { IfOk result (λ next. next ≡ Next.Last → IsAtEnd (S.left source.new)) }
        ensures failed { OnErr result (LineIsBegun self.new) }
        ensures risen { OnErr result (HasRisen (S.faults source.old) (S.faults source.new)) }
        ensures faults { S.faults source.old ≤ S.faults source.new }
    {
        loop {
            if let Some(count) = self.line() {
                return Ok(Next::Line(count));
            }
            if self.read(source)? == 0 {
                return Ok(Next::Last);
            }
        }
    }

    // The number of octets at the start that are a line or too long for one.
    fn line(&mut self) -> Option<usize>
        ensures held { self.new ≡ self.old }
        ensures few { length self.new ≤ 65536 }
        ensures line { MatchOption result (LineIsBegun self.new) (λ count. HasLine count self.new) }
    {
        let held = &self.room[self.start..self.end];
        let found = find_line(held, self.searched - self.start);
        if found.is_none() {
            self.searched = self.end;
        }
        found
    }

    // Reads the octets that one call of the source gives, and returns their number.
    fn read<S: Source>(&mut self, source: &mut S) -> Result<usize, Failed>
        requires { LineIsBegun self.old }
        ensures kept { Keeps (prepend_known self.old (S.left source.old)) (prepend_known self.new (S.left source.new)) }
        ensures count { IfOk result (λ n. length self.new ≡ length self.old + n) }
        ensures few { length self.new ≤ 65536 }
        ensures end { result ≡ Ok 0 → IsAtEnd (S.left source.new) × (self.new ≡ self.old) }
        ensures failed { OnErr result (self.new ≡ self.old) }
        ensures risen { OnErr result (HasRisen (S.faults source.old) (S.faults source.new)) }
        ensures faults { S.faults source.old ≤ S.faults source.new }
    {
        let held = self.end - self.start;
        move_to_start(&mut self.room, self.start, self.end);
        self.start = 0;
        self.end = held;
        self.searched = held;
        let count = read_after(source, &mut self.room, held)?;
        self.end = held + count;
        Ok(count)
    }
}

// The number of octets that are the first line or too long for one. The first `searched` octets have no line feed.
fn find_line(held: &[u8], searched: usize) -> Option<usize>
    requires within { searched ≤ length held.now }
    requires free { has_feed (take searched held.now) ≡ false }
    ensures { MatchOption result (LineIsBegun held.now) (λ count. HasLine count held.now) }
{
    let (_, unsearched) = held.split_at(searched);
    match find_feed(unsearched) {
        Some(at) => Some(searched + at + 1),
        None => (held.len() > LINE_LIMIT).then_some(held.len()),
    }
}

fn find_feed(octets: &[u8]) -> Option<usize>
    ensures place { result ≡ position (λ octet. octet == 10) octets.now }
    ensures within { IfSome result (λ at. at < length octets.now) }
{
    octets.iter().position(|octet| *octet == b'\n')
}

// Moves the octets between two places to the start. The others are of no more use.
fn move_to_start(room: &mut [u8], start: usize, end: usize)
    requires low { start ≤ end }
    requires high { end ≤ length room.old }
    ensures { take (end - start) room.new ≡ slice_range room.old start end }
{
    if start > 0 {
        room.copy_within(start..end, 0);
    }
}

// Reads octets into `room`, after its first `held` octets.
fn read_after<S: Source>(source: &mut S, room: &mut [u8], held: usize) -> Result<usize, Failed>
    requires { held < length room.old }
    ensures prefix { take held room.new ≡ take held room.old }
    ensures count { IfOk result (λ n. held + n ≤ length room.old) }
    ensures kept { IfOk result (λ n. Keeps (prepend_known (take held room.old) (S.left source.old))
        (prepend_known (take (held + n) room.new) (S.left source.new))) }
    ensures end { result ≡ Ok 0 → IsAtEnd (S.left source.new) }
    ensures failed { OnErr result (Keeps (S.left source.old) (S.left source.new)) }
    ensures risen { OnErr result (HasRisen (S.faults source.old) (S.faults source.new)) }
    ensures faults { S.faults source.old ≤ S.faults source.new }
{
    let (_, free) = room.split_at_mut(held);
    source.read(free)
}

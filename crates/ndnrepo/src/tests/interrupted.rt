use super::{INSERTION, compare, report_of, script_of, status_of};
use repo_io::*;
use std::io;
use std::io::{Read, Write};
use std::process::Abort;
use std::test::*;
use std::thread::Threads;

// A reader or a writer that signals an interrupt `times` times before each call that moves octets, at most 20 of them.
#[derive(Drop)]
struct Interrupted<T> {
    inner: T,
    times: u32,
    left: u32,
}

impl<T> Interrupted<T> {
    fn new(inner: T, times: u32) -> Interrupted<T> {
        let left = times;
        Interrupted { inner, times, left }
    }

    // How many of `len` octets this call moves.
    fn turn(&mut self, len: usize) -> io::Result<usize> {
        if self.left > 0 {
            self.left = self.left.saturating_sub(1);
            return Err(io::Error::from(io::ErrorKind::Interrupted));
        }
        self.left = self.times;
        Ok(len.min(20))
    }
}

impl<T: Read> Read for Interrupted<T> {
    fn read(&mut self, buf: &mut [u8]) -> io::Result<usize> {
        let len = self.turn(buf.len())?.min(buf.len());
        self.inner.read(&mut buf[..len])
    }
}

impl<T: Write> Write for Interrupted<T> {
    fn write(&mut self, buf: &[u8]) -> io::Result<usize> {
        let len = self.turn(buf.len())?.min(buf.len());
        self.inner.write(&buf[..len])
    }

    fn flush(&mut self) -> io::Result<()> {
        self.inner.flush()
    }
}

// A run whose reads are interrupted `times.0` times each, and whose writes `times.1` times each.
fn expect_interrupted<R: Threads + Sync + AllocGlobal + Abort>(
    rt: &R,
    script: &str,
    times: (u32, u32),
    wanted: Status,
    text: &str,
) {
    let mut source = ReadSource::new(Interrupted::new(script.as_bytes(), times.0));
    let mut written = Vec::<u8>::new(rt.alloc());
    let mut sink = WriteSink::new(Interrupted::new(&mut written, times.1));
    let answered = status_of(rt, "run", &mut source, &mut sink);
    compare(rt, (answered, &written), wanted, text);
}

// An interrupted read or write is made again, but not for ever.
#[test]
fn interrupted_calls_are_made_again(rt: HostRuntime) {
    let script = script_of(&rt, "", INSERTION);
    let report = report_of(&rt, INSERTION);
    for times in &[(0, 0), (1, 0), (0, 1), (3, 2), (1_000, 1_000)] {
        expect_interrupted(&rt, &script, *times, Status::Done, &report);
    }
    expect_interrupted(&rt, &script, (u32::MAX, 0), Status::ReadFault, "");
    expect_interrupted(&rt, &script, (0, u32::MAX), Status::WriteFault, "");
}

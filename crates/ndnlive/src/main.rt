//! The program `ndnlive`: `live` reads the group, the members and the publications of a live group on standard input,
//! lets the members run in threads, and writes their journals and catalogues on standard output.
//!
//! What is promised of its call `run_live`: `docs/promises/live_top.md`.
#![tactic(auto)]

#[cfg(test)]
mod tests;

use bench_net::Seeded;
use live_group::OpenGate;
use live_top::run_live;
use repo_io::{ReadSource, Status, WriteSink};
use std::env::{self, Env};
use std::io;
use std::process::ExitCode;

fn main(rt: HostRuntime) -> ExitCode {
    let Ok(words) = words(&rt) else {
        return ExitCode::from(Status::NoMemory.code());
    };
    let mut source = ReadSource::new(rt.stdin());
    let mut sink = WriteSink::new(rt.stdout());
    let mut end = None;
    let status = run_live(
        &rt,
        rt.alloc(),
        &words,
        &mut source,
        &mut sink,
        &Seeded::new([0; 32]),
        &OpenGate::new(),
        &mut end,
    );
    ExitCode::from(status.code())
}

// The words of the command line, without the program's name. Where one isn't UTF-8 there are none, since no form has
// such a word, and none without words.
fn words<R: Env + AllocGlobal>(rt: &R) -> io::Result<Vec<String>> {
    let mut words = Vec::new(rt.alloc());
    match env::args(rt) {
        Ok(all) => {
            for word in all.skip(1) {
                words.push(word)?;
            }
        }
        Err(error) if matches!(error.kind(), io::ErrorKind::InvalidData) => {}
        Err(error) => return Err(error),
    }
    Ok(words)
}

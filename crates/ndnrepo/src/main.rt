//! The program `ndnrepo`: `run` reads a script on standard input and writes its report on standard output, `inspect`
//! reads the hexadecimal digits of octets and writes the elements that they are, and `gen` writes a script.
//!
//! What is promised of its call `run`: `docs/promises/repo_top.md`.
#![tactic(auto)]

#[cfg(test)]
mod tests;

use bench_net::Seeded;
use repo_io::{ReadSource, Status, WriteSink};
use repo_top::run;
use std::env::{self, Env};
use std::io;
use std::process::ExitCode;

fn main(rt: HostRuntime) -> ExitCode {
    let Ok(words) = words(&rt) else {
        return ExitCode::from(Status::NoMemory.code());
    };
    let mut source = ReadSource::new(rt.stdin());
    let mut sink = WriteSink::new(rt.stdout());
    let seeded = Seeded::new([0; 32]);
    let mut end = None;
    let status = run(
        &rt,
        rt.alloc(),
        &words,
        &mut source,
        &mut sink,
        &seeded,
        &seeded,
        &mut end,
    );
    ExitCode::from(status.code())
}

// The words of the command line, without the program's name. Where one isn't UTF-8 there are none, since no form has
// such a word, and none without words.
fn words<R: Env + AllocGlobal>(rt: &R) -> io::Result<Vec<String>> {
    let mut words = Vec::new(rt.alloc());
    match env::args(rt) {
        Ok(all) => {
            for word in all.skip(1) {
                words.push(word)?;
            }
        }
        Err(error) if matches!(error.kind(), io::ErrorKind::InvalidData) => {}
        Err(error) => return Err(error),
    }
    Ok(words)
}

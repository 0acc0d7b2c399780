//! The program `ndnlab`: a script on standard input is looked at line by line, or under many seeds, or before anything
//! is carried out, and what is found is written on standard output. `docs/LAB.md` has the words of each form.
//!
//! What is promised of its call `run_lab`: `docs/promises/lab_top.md`.
#![tactic(auto)]

use lab_top::{LabStatus, ReadSource, WriteSink, run_lab};
use std::env::{self, Env};
use std::io;
use std::process::ExitCode;

fn main(rt: HostRuntime) -> ExitCode {
    let Ok(words) = words(&rt) else {
        return ExitCode::from(LabStatus::NoMemory.code());
    };
    let mut source = ReadSource::new(rt.stdin());
    let mut sink = WriteSink::new(rt.stdout());
    let status = run_lab(&rt, rt.alloc(), &words, &mut source, &mut sink);
    ExitCode::from(status.code())
}

// The words of the command line, without the program's name. Where one isn't UTF-8 there are none, since no form has
// such a word, and none without words.
fn words<R: Env + AllocGlobal>(rt: &R) -> io::Result<Vec<String>> {
    let mut words = Vec::new(rt.alloc());
    match env::args(rt) {
        Ok(all) => {
            for word in all.skip(1) {
                words.push(word)?;
            }
        }
        Err(error) if matches!(error.kind(), io::ErrorKind::InvalidData) => {}
        Err(error) => return Err(error),
    }
    Ok(words)
}

//! The program: `lockrun run [SCRIPT]` runs a script over an empty lock table, `lockrun check [FILE]` checks a text
//! of histories, and `lockrun upgrade [FILE]` upgrades one.
//!
//! It passes its words and its streams to `lt_tool`, which decides everything. Read next: `lt_tool/src/job.rt`.
#![tactic(auto)]

use lt_tool::{Failure, Finish, complain, perform, status};
use std::alloc::AllocError;
use std::env;
use std::io::ErrorKind;
use std::process::ExitCode;
use std::random::RandomSource;
use std::sync::Wait;
use std::thread::Threads;

/// The words after the program's name.
fn words(rt: &HostRuntime) -> Result<Vec<String>, Failure> {
    match env::args(rt) {
        Ok(args) => match args.skip(1).collect(rt.alloc()) {
            Ok(words) => Ok(words),
            Err(_) => Err(Failure::Memory),
        },
        Err(e) if e.kind() == ErrorKind::OutOfMemory => Err(Failure::Memory),
        Err(_) => Err(Failure::CommandLine),
    }
}

fn texts<'a>(rt: &HostRuntime, words: &'a [String]) -> Result<Vec<&'a str>, AllocError> {
    words.iter().map(|word| word.as_str()).collect(rt.alloc())
}

/// Does what the words ask for. Both parameters are the same runtime: only `main` may name it as one that has
/// threads, so `main` passes it as both.
fn run<H: Threads + Wait + RandomSource + Sync>(
    threads: &H,
    rt: &HostRuntime,
) -> Result<Finish, Failure> {
    let words = words(rt)?;
    let Ok(texts) = texts(rt, &words) else {
        return Err(Failure::Memory);
    };
    perform(
        threads,
        rt.alloc(),
        rt,
        texts.as_slice(),
        &mut rt.stdin(),
        &mut rt.stdout(),
    )
}

fn main(rt: HostRuntime) -> ExitCode {
    let ending = run(&rt, &rt);
    let _told = complain(&mut rt.stderr(), &ending);
    ExitCode::from(status(&ending))
}

//! The program `locktrace`: works with the traces of lock tables, of any size.
//!
//! - `locktrace sort [FILE]` turns a trace into a text of histories.
//! - `locktrace check [FILE]` gives the verdict of `lockrun check` on a text of histories.
//! - `locktrace audit [FILE]` judges the waits of a trace.
//! - `locktrace explain FILE` says what the rules give for the first faulty line of a text, or summarizes a legal text.
//! - `locktrace show [FILE]` prints the steps of keys as a table.
//! - `locktrace picture [FILE] --key KEY` draws the steps of a key.
//!
//! Every function here is proved to be safe. What the commands promise beyond that, the libraries promise: `lt_trace`
//! sorts, `lt_trace_check` and `lt_checker` check, `lt_trace_waits` judges waits, `lt_trace_statistics` counts,
//! `lt_trace_show` makes tables, and `lt_trace_picture` draws.
//!
//! Read next: `src/task.rt` for what each command does, `locktrace_words` for the command line.
#![tactic(auto)]

mod audit;
mod check;
mod explain;
mod failure;
mod follow;
mod gather;
mod input;
mod output;
mod progress_line;
mod task;

use crate::check::{check_file, len_of_file};
use crate::failure::{TraceFailure, fault_of, status};
use crate::progress_line::ProgressLine;
use crate::task::{STREAMS, TaskNames, names_of, perform};
use locktrace_words::{Task, TaskError, read_task};
use lt_trace_show::{Terminal, width_of};
use std::env::{self, VarError};
use std::io::{ErrorKind, IsTerminal};
use std::process::ExitCode;
use std::thread::Threads;

/// The words after the program's name.
fn words_of(rt: &HostRuntime) -> Result<Vec<String>, TraceFailure> {
    match env::args(rt) {
        Ok(args) => Ok(args.skip(1).collect(rt.alloc())?),
        Err(e) if e.kind() == ErrorKind::OutOfMemory => Err(TraceFailure::Memory),
        Err(_) => Err(TraceFailure::Words),
    }
}

/// The value of an environment variable. `None` if there is none, or if it is not text.
fn variable(rt: &HostRuntime, name: &str) -> Result<Option<String>, TraceFailure> {
    match env::var(rt, name) {
        Ok(value) => Ok(Some(value)),
        Err(VarError::OutOfMemory) => Err(TraceFailure::Memory),
        Err(_) => Ok(None),
    }
}

/// What the environment says of standard output: its width by `COLUMNS`, and no colours by a `NO_COLOR` that is not
/// empty.
fn terminal_of(rt: &HostRuntime) -> Result<Terminal, TraceFailure> {
    let columns = variable(rt, "COLUMNS")?;
    let no_colour = variable(rt, "NO_COLOR")?;
    Ok(Terminal {
        is_terminal: rt.stdout().is_terminal(),
        columns: match &columns {
            Some(word) => width_of(word.as_str()),
            None => None,
        },
        no_colour: match &no_colour {
            Some(value) => !value.is_empty(),
            None => false,
        },
    })
}

/// Does the task. A check of a file uses threads.
fn do_task<H: Threads + Sync>(
    threads: &H,
    rt: &HostRuntime,
    task: &Task,
) -> Result<(), TraceFailure> {
    if let Task::Check(Some(name)) = *task {
        if let Some(len) = len_of_file(rt, name) {
            return check_file(threads, rt, name, &mut ProgressLine::new(rt, Some(len)));
        }
    }
    let mut line = ProgressLine::new(rt, None);
    perform(rt.alloc(), rt, task, rt.stdin(), rt.stdout(), &mut line)
}

fn print_help(rt: &HostRuntime, text: &str) -> Result<(), TraceFailure> {
    match print!(rt; "{text}") {
        Ok(()) => Ok(()),
        Err(e) if e.kind() == ErrorKind::BrokenPipe => Err(TraceFailure::Closed),
        Err(e) => Err(TraceFailure::Write(fault_of(e.kind()))),
    }
}

/// Says on standard error why the program did not do its work, and returns its exit status.
fn tell(rt: &HostRuntime, ending: &Result<(), TraceFailure>, names: &TaskNames) -> u8 {
    let _told = match ending {
        Ok(()) | Err(TraceFailure::Closed) => Ok(()),
        Err(TraceFailure::Read(fault)) => {
            eprintln!(rt; "locktrace: cannot read {}: {fault}", names.input)
        }
        Err(TraceFailure::Write(fault)) => {
            eprintln!(rt; "locktrace: cannot write {}: {fault}", names.output)
        }
        Err(TraceFailure::Temporary) => {
            eprintln!(rt;
                "locktrace: cannot use a temporary file in {}",
                names.folder
            )
        }
        Err(failure) => eprintln!(rt; "locktrace: {failure}"),
    };
    status(ending)
}

/// Says on standard error why the command line is refused, and returns the exit status.
fn tell_words(rt: &HostRuntime, why: &str) -> u8 {
    let _told = eprintln!(rt; "locktrace: command line refused: {why}; see locktrace --help");
    status(&Err(TraceFailure::Words))
}

/// Does what these words ask for, and tells how that ended. Returns the exit status.
fn run_words<H: Threads + Sync>(
    threads: &H,
    rt: &HostRuntime,
    terminal: &Terminal,
    words: &[&str],
) -> Result<u8, TraceFailure> {
    match read_task(rt.alloc(), terminal, words) {
        Ok(task) => Ok(tell(rt, &do_task(threads, rt, &task), &names_of(&task))),
        Err(TaskError::Help(text)) => Ok(tell(rt, &print_help(rt, text.as_str()), &STREAMS)),
        Err(TaskError::Refused(why)) => Ok(tell_words(rt, why.as_str())),
        Err(TaskError::Memory) => Err(TraceFailure::Memory),
    }
}

/// Reads the words, does what they ask for, and tells how that ended. Returns the exit status.
fn run<H: Threads + Sync>(threads: &H, rt: &HostRuntime) -> Result<u8, TraceFailure> {
    let words = words_of(rt)?;
    let texts: Vec<&str> = words.iter().map(|word| word.as_str()).collect(rt.alloc())?;
    let terminal = terminal_of(rt)?;
    run_words(threads, rt, &terminal, texts.as_slice())
}

fn main(rt: HostRuntime) -> ExitCode {
    let status = match run(&rt, &rt) {
        Ok(status) => status,
        Err(failure) => tell(&rt, &Err(failure), &STREAMS),
    };
    ExitCode::from(status)
}

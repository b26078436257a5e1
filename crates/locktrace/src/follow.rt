//! How does a command see the steps of a text, one after the other? [`follow_steps`] reads the text line by line and
//! checks each line. It gives each step to a taker, which asks the checker for what it needs of the key's state.
use crate::failure::{TraceFailure, fault_of, of_check};
use lt_checker::{Checker, Fault, Line, Report};
use std::alloc::Global;
use std::io::{BufRead, ErrorKind, Write};

/// Takes the steps of a text.
pub trait StepTaker {
    /// Takes the step of a line that the checker has just taken, and returns what is to be written for it.
    fn take(&mut self, checker: &Checker, line: Line) -> Result<Vec<u8>, TraceFailure>;
}

/// Appends the next line, with its line end if it has one. Returns how many bytes came; 0 means the end.
pub fn append_line<R: BufRead>(reader: &mut R, line: &mut Vec<u8>) -> Result<usize, TraceFailure> {
    match reader.read_until(b'\n', line) {
        Ok(n) => Ok(n),
        Err(e) if e.kind() == ErrorKind::OutOfMemory => Err(TraceFailure::Memory),
        Err(e) => Err(TraceFailure::Read(fault_of(e.kind()))),
    }
}

/// Writes all of a text.
pub fn write_text<W: Write>(output: &mut W, text: &[u8]) -> Result<(), TraceFailure> {
    match output.write_all(text) {
        Ok(()) => Ok(()),
        Err(e) => Err(TraceFailure::Write(fault_of(e.kind()))),
    }
}

/// Gives a line with its line end to the checker, and its step to the taker. Writes what the taker returns.
fn follow_line<W: Write, T: StepTaker>(
    alloc: Global,
    checker: &mut Checker,
    line: &[u8],
    output: &mut W,
    taker: &mut T,
) -> Result<(), TraceFailure> {
    match checker.take_line(alloc, line) {
        Ok(Some((line, _))) => {
            let text = taker.take(checker, line)?;
            write_text(output, &text)
        }
        Ok(None) => Ok(()),
        Err(error) => Err(of_check(error)),
    }
}

/// The verdict at the end of the text.
fn end(alloc: Global, checker: Checker, rest: &[u8]) -> Result<Report, TraceFailure> {
    match checker.end(alloc, rest) {
        Ok(report) => Ok(report),
        Err(error) => Err(of_check(error)),
    }
}

/// Reads the first line of a text into this one, and begins a check with it.
fn begin<R: BufRead>(reader: &mut R, line: &mut Vec<u8>) -> Result<Checker, TraceFailure> {
    append_line(reader, line)?;
    match Checker::begin(line) {
        Some((checker, _)) => Ok(checker),
        None => Err(TraceFailure::Refused {
            line: 1,
            name: Fault::Header.name(),
        }),
    }
}

/// Reads the next line into this one. Returns whether it has a line end.
fn read_line<R: BufRead>(reader: &mut R, line: &mut Vec<u8>) -> Result<bool, TraceFailure> {
    line.clear();
    append_line(reader, line)?;
    Ok(line.last() == Some(&b'\n'))
}

/// Gives all lines that have a line end to the checker, and their steps to the taker. What follows the last of them is then in
/// `line`.
fn follow_lines<R: BufRead, W: Write, T: StepTaker>(
    alloc: Global,
    checker: &mut Checker,
    line: &mut Vec<u8>,
    reader: &mut R,
    output: &mut W,
    taker: &mut T,
) -> Result<(), TraceFailure> {
    for _ in 0..u64::MAX {
        if !read_line(reader, line)? {
            return Ok(());
        }
        follow_line(alloc, checker, line, output, taker)?;
    }
    Err(TraceFailure::TooLong)
}

/// Reads a text of histories and checks it, gives its steps to the taker, and writes what the taker returns. It stops at
/// the first fault.
pub fn follow_steps<R: BufRead, W: Write, T: StepTaker>(
    alloc: Global,
    reader: &mut R,
    output: &mut W,
    taker: &mut T,
) -> Result<Report, TraceFailure> {
    let mut line = Vec::new(alloc);
    let mut checker = begin(reader, &mut line)?;
    match follow_lines(alloc, &mut checker, &mut line, reader, output, taker) {
        Ok(()) => end(alloc, checker, &line),
        Err(failure) => Err(failure),
    }
}

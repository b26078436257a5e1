//! How does the command `check` read its text? [`check_file`] checks a file in pieces, with as many threads as there
//! are processors. [`check_reader`] checks an input that cannot be read at an offset, such as a pipe, on one thread.
//! Both report their progress on standard error, if it is a terminal.
use crate::failure::{TraceFailure, of_audit};
use crate::follow::write_text;
use crate::input::open;
use crate::output::{Output, ending_of};
use crate::progress_line::ProgressLine;
use lt_checker::Report;
use lt_trace_check::{AuditError, CutPlan, check_pieces, check_stream_with};
use std::alloc::Global;
use std::fs;
use std::io::{BufRead, Write};
use std::thread::{Threads, available_parallelism};

/// The most threads at a time.
const MOST_THREADS: usize = 64;

/// Ends the line of progress, and writes the numbers of the keys and the steps.
fn answer<W: Write>(
    alloc: Global,
    verdict: Result<Report, AuditError>,
    output: &mut W,
    line: &mut ProgressLine,
) -> Result<(), TraceFailure> {
    line.end();
    let report = match verdict {
        Ok(report) => report,
        Err(error) => return Err(of_audit(error)),
    };
    let text = format!(in alloc; "ok {} keys {} steps\n", report.keys, report.steps)?;
    write_text(output, text.as_bytes())
}

/// Checks the text that the reader gives, and writes the numbers of its keys and steps.
pub fn check_reader<R: BufRead, W: Write>(
    alloc: Global,
    reader: &mut R,
    output: &mut W,
    line: &mut ProgressLine,
) -> Result<(), TraceFailure> {
    let verdict = check_stream_with(alloc, reader, line);
    answer(alloc, verdict, output, line)
}

/// The length of the file in bytes, if it is one that can be read at any offset.
pub fn len_of_file(rt: &HostRuntime, name: &str) -> Option<u64> {
    let data = fs::metadata(rt, name).ok()?;
    if data.is_file() {
        Some(data.len())
    } else {
        None
    }
}

/// How many pieces are checked at once: one for each processor.
fn at_once<H: Threads>(threads: &H) -> usize {
    match available_parallelism(threads) {
        Ok(count) => count.get().min(MOST_THREADS),
        Err(_) => 1,
    }
}

/// Checks the file, and writes the numbers of its keys and steps.
pub fn check_file<H: Threads + Sync>(
    threads: &H,
    rt: &HostRuntime,
    name: &str,
    line: &mut ProgressLine,
) -> Result<(), TraceFailure> {
    let file = open(rt, name)?;
    let plan = CutPlan::of_pieces(at_once(threads));
    let verdict = check_pieces(threads, rt.alloc(), &file, &plan, line);
    let mut output = Output::new(rt.stdout());
    let ending = answer(rt.alloc(), verdict, &mut output, line);
    ending_of(ending, &output)
}

//! How does the command `audit` judge the waits of a trace? [`audit`] gives each line to a [`WaitJudge`], and asks it at
//! the end whether a wait is open.
use crate::failure::TraceFailure;
use crate::follow::{append_line, write_text};
use lt_trace_waits::{JudgeError, WaitFault, WaitJudge, WaitPhase};
use std::alloc::Global;
use std::io::{BufRead, Write};

/// What was said last of a wait in this phase.
fn word_of(phase: WaitPhase) -> &'static str {
    match phase {
        WaitPhase::Begun => "began",
        WaitPhase::Asked => "asked",
        WaitPhase::Let => "was let through",
        WaitPhase::Told => "was told",
        WaitPhase::GaveUp => "gave up",
    }
}

/// The failure of a judge.
fn of_judge(error: JudgeError) -> TraceFailure {
    match error {
        JudgeError::Refused { line, fault } => TraceFailure::Refused {
            line,
            name: fault.name(),
        },
        JudgeError::Memory => TraceFailure::Memory,
        JudgeError::TooLong => TraceFailure::TooLong,
    }
}

/// Gives a line to the judge: its bytes, with its line end if it has one, and its number.
fn judge_line(
    alloc: Global,
    judge: &mut WaitJudge,
    line: &[u8],
    number: u64,
) -> Result<(), TraceFailure> {
    let Some((b'\n', bytes)) = line.split_last() else {
        return Err(TraceFailure::Refused {
            line: number,
            name: WaitFault::Shape.name(),
        });
    };
    match judge.take_line(alloc, bytes) {
        Ok(()) => Ok(()),
        Err(error) => Err(of_judge(error)),
    }
}

/// Says that the lines are right, or which wait is open after them.
fn end<W: Write>(
    alloc: Global,
    judge: &WaitJudge,
    lines: u64,
    output: &mut W,
) -> Result<(), TraceFailure> {
    if let Some(request) = judge.first_open() {
        return Err(TraceFailure::Open {
            number: request.number,
            wait: request.wait.wait,
            word: word_of(request.wait.phase),
            line: request.wait.line,
        });
    }
    let text = format!(in alloc; "ok {lines} lines\n")?;
    write_text(output, text.as_bytes())
}

/// Judges the waits of the trace that the reader gives, and writes the number of its lines.
pub fn audit<R: BufRead, W: Write>(
    alloc: Global,
    reader: &mut R,
    output: &mut W,
) -> Result<(), TraceFailure> {
    let mut judge = WaitJudge::new(alloc);
    let mut line = Vec::new(alloc);
    for number in 1..u64::MAX {
        line.clear();
        if append_line(reader, &mut line)? == 0 {
            return end(alloc, &judge, number - 1, output);
        }
        judge_line(alloc, &mut judge, &line, number)?;
    }
    Err(TraceFailure::TooLong)
}

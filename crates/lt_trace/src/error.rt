//! Why can a trace not be sorted? [`SortError`] is the answer to the caller, and [`TraceFault`] the fault of a line.
ghost use Rattle.std.specs.Prelude.{◌≡◌, ◌⊎◌};
ghost use Rattle.lt_trace.specs.Errors.{IsOfOutput};
ghost use Rattle.lt_trace.specs.declared.error.SortError.TheVariants.{Memory};

use std::alloc::{AllocError, AllocFailed};
use std::io::{self, ErrorKind};
use thiserror::Error;

/// What is wrong with a line of a trace.
#[derive(Clone, Copy, Debug, PartialEq, Eq, Error)]
pub enum TraceFault {
    /// The line has no line end or is not the line of a step, its reply does not belong to its call, or a number is
    /// out of its range.
    #[error("Shape")]
    Shape,
    /// The line is no JSON object, or has not exactly the members of a step, each of its type.
    #[error("Json")]
    Json,
}

/// Why a trace was not sorted.
#[derive(Clone, Copy, Debug, PartialEq, Eq, Error)]
pub enum SortError {
    /// The first faulty line, counted from 1 over all lines, and its fault. Nothing was written.
    #[error("line {line}: {fault}")]
    Refused { line: u64, fault: TraceFault },
    /// Memory ran out. A prefix of the output may have been written, unless all lines were still in memory.
    #[error("out of memory")]
    Memory,
    /// A read of the trace failed. Nothing was written.
    #[error("the trace could not be read to its end")]
    Read,
    /// A temporary file could not be created, removed, written or read, or its lines are not those that were
    /// written to it. A prefix of the output may have been written.
    #[error("a temporary file failed")]
    Temporary,
    /// A write of the output failed. A prefix of the output may have been written.
    #[error("the text could not be written to its end")]
    Write,
    /// A key, or the whole trace, has more than 2^64 - 1 steps. A prefix of the output may have been written.
    #[error("a key has too many steps")]
    TooManySteps,
}

impl From<AllocError> for SortError {
    ghost from_gives = { λ _ e. e ≡ Memory };

    fn from(_e: AllocError) -> SortError {
        SortError::Memory
    }
}

impl<T: Drop> From<AllocFailed<T>> for SortError {
    ghost from_gives = { λ _ e. e ≡ Memory };

    fn from(_e: AllocFailed<T>) -> SortError {
        SortError::Memory
    }
}

/// The error of a stream: out of memory, or else this one.
pub(crate) fn stream_error(e: &io::Error, other: SortError) -> SortError
    ensures output { IsOfOutput other → IsOfOutput result }
    ensures either { (result ≡ Memory) ⊎ (result ≡ other) }
{
    if e.kind() == ErrorKind::OutOfMemory {
        SortError::Memory
    } else {
        other
    }
}

/// Why a line was not read: it has this fault, or memory ran out before that was known.
#[derive(Clone, Copy)]
pub(crate) enum TraceLineError {
    Memory,
    Fault(TraceFault),
}

impl From<AllocError> for TraceLineError {
    ghost use Rattle.lt_trace.specs.declared.error.TraceLineError.TheVariants as refusals;

    ghost from_gives = { λ _ e. e ≡ refusals.Memory };

    fn from(_e: AllocError) -> TraceLineError {
        TraceLineError::Memory
    }
}

impl<T: Drop> From<AllocFailed<T>> for TraceLineError {
    ghost use Rattle.lt_trace.specs.declared.error.TraceLineError.TheVariants as refusals;

    ghost from_gives = { λ _ e. e ≡ refusals.Memory };

    fn from(_e: AllocFailed<T>) -> TraceLineError {
        TraceLineError::Memory
    }
}

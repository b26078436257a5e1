//! How does the program end if it could not do its work?
ghost use Rattle.std.specs.Prelude.{◌≡◌};
ghost use Rattle.locktrace.specs.declared.failure.TraceFailure.TheVariants.{Memory};

use lt_checker::CheckError;
use lt_trace::{SortError, TraceFault};
use lt_trace_check::AuditError;
use lt_trace_show::PictureError;
use std::alloc::{AllocError, AllocFailed};
use std::io::ErrorKind;
use thiserror::Error;

/// Why a file could not be read or written.
#[derive(Clone, Copy, Debug, Error)]
pub enum FileFault {
    #[error("no such file or folder")]
    Missing,
    #[error("permission denied")]
    Denied,
    #[error("it is a folder")]
    Folder,
    #[error("no space is left")]
    Full,
    #[error("an error of the system")]
    Other,
}

/// The fault of an error of this kind.
pub fn fault_of(kind: ErrorKind) -> FileFault {
    match kind {
        ErrorKind::NotFound | ErrorKind::NotADirectory => FileFault::Missing,
        ErrorKind::PermissionDenied | ErrorKind::ReadOnlyFilesystem => FileFault::Denied,
        ErrorKind::IsADirectory => FileFault::Folder,
        ErrorKind::StorageFull | ErrorKind::QuotaExceeded | ErrorKind::FileTooLarge => {
            FileFault::Full
        }
        _ => FileFault::Other,
    }
}

/// Why the program did not do its work. Displayed, it is what stands after `locktrace: ` on standard error, unless a
/// file or a folder is to be named there too (`main.rt`).
#[derive(Clone, Copy, Debug, Error)]
pub enum TraceFailure {
    /// A word after the program's name is not text.
    #[error("command line refused: a word is not UTF-8; see locktrace --help")]
    Words,
    /// The first faulty line, counted from 1, and the name of the first fault in it.
    #[error("line {line}: {name}")]
    Refused {
        line: u64,
        name: &'static str,
    },
    /// A wait is open at the end of a trace: what was said of it last, and in which line.
    #[error("at the end, wait {number}.{wait} is open: it {word} in line {line}")]
    Open {
        number: u64,
        wait: u32,
        word: &'static str,
        line: u64,
    },
    /// No line is about the key, or none of its steps is in the range.
    #[error("no such step")]
    NoStep,
    /// A picture shows at most 400 steps.
    #[error("too many steps for a picture: choose at most 400 by --from and --to")]
    TooManySteps,
    #[error("memory")]
    Memory,
    #[error("cannot read: {0}")]
    Read(FileFault),
    #[error("cannot write: {0}")]
    Write(FileFault),
    /// The reader of the output has closed its pipe. The program ends without a message.
    #[error("closed")]
    Closed,
    /// A key of the trace has more than 2^64 - 1 steps, or the text to check did not end within 2^64 - 1 reads.
    #[error("the trace is too long")]
    TooLong,
    /// A temporary file failed.
    #[error("cannot use a temporary file")]
    Temporary,
}

impl From<AllocError> for TraceFailure {
    ghost from_gives = { λ _ e. e ≡ Memory };

    fn from(_e: AllocError) -> TraceFailure {
        TraceFailure::Memory
    }
}

impl<T: Drop> From<AllocFailed<T>> for TraceFailure {
    ghost from_gives = { λ _ e. e ≡ Memory };

    fn from(_e: AllocFailed<T>) -> TraceFailure {
        TraceFailure::Memory
    }
}

/// The failure of a check.
pub fn of_check(error: CheckError) -> TraceFailure {
    match error {
        CheckError::Refused { line, fault } => TraceFailure::Refused {
            line: line as u64,
            name: fault.name(),
        },
        CheckError::Memory => TraceFailure::Memory,
    }
}

/// The failure of an audit.
pub fn of_audit(error: AuditError) -> TraceFailure {
    match error {
        AuditError::Check(refusal) => of_check(refusal),
        AuditError::Read | AuditError::NoSuchLine => TraceFailure::Read(FileFault::Other),
        AuditError::TooLong => TraceFailure::TooLong,
    }
}

/// The failure of a sort.
pub fn of_sort(error: SortError) -> TraceFailure {
    match error {
        SortError::Refused { line, fault } => TraceFailure::Refused {
            line,
            name: match fault {
                TraceFault::Shape => "Shape",
                TraceFault::Json => "Json",
            },
        },
        SortError::Memory => TraceFailure::Memory,
        SortError::Read => TraceFailure::Read(FileFault::Other),
        SortError::Temporary => TraceFailure::Temporary,
        SortError::Write => TraceFailure::Write(FileFault::Other),
        SortError::TooManySteps => TraceFailure::TooLong,
    }
}

/// The failure of a picture.
pub fn of_picture(error: PictureError) -> TraceFailure {
    match error {
        PictureError::Memory => TraceFailure::Memory,
        PictureError::TooManySteps => TraceFailure::TooManySteps,
    }
}

/// The exit status of the program: 0 if it did its work; 1 if a trace or a text was refused, or cannot be drawn; 2 if
/// the command line was refused; 4 if memory ran out; 5 if a read or a write failed, also to a closed pipe.
pub fn status(ending: &Result<(), TraceFailure>) -> u8 {
    match ending {
        Ok(()) => 0,
        Err(
            TraceFailure::Refused { .. }
            | TraceFailure::Open { .. }
            | TraceFailure::NoStep
            | TraceFailure::TooManySteps
            | TraceFailure::TooLong,
        ) => 1,
        Err(TraceFailure::Words) => 2,
        Err(TraceFailure::Memory) => 4,
        Err(
            TraceFailure::Read(_)
            | TraceFailure::Write(_)
            | TraceFailure::Closed
            | TraceFailure::Temporary,
        ) => 5,
    }
}

//! Why a stream has no report, or a line no explanation.
ghost use Rattle.std.specs.Prelude.{◌≡◌};
ghost use Rattle.lt_trace_check.specs.Audit.{out_of_memory};

use lt_checker::CheckError;
use std::alloc::{AllocError, AllocFailed};
use thiserror::Error;

/// Why a stream has no report, or a line no explanation.
#[derive(Clone, Copy, Debug, PartialEq, Eq, Drop, Error)]
pub enum AuditError {
    /// The text was refused, with its first faulty line and the first fault in it, or memory ran out.
    #[error("{0}")]
    Check(CheckError),
    /// A read failed.
    #[error("the histories could not be read")]
    Read,
    /// The text has no line of this number, or that line is its first, which is no step.
    #[error("the histories have no such line")]
    NoSuchLine,
    /// The text did not end within 2^64 - 1 reads.
    #[error("the histories are too long")]
    TooLong,
}

impl From<AllocError> for AuditError {
    ghost from_gives = { λ _ e. e ≡ out_of_memory };

    fn from(_e: AllocError) -> AuditError {
        AuditError::Check(CheckError::Memory)
    }
}

impl<T: Drop> From<AllocFailed<T>> for AuditError {
    ghost from_gives = { λ _ e. e ≡ out_of_memory };

    fn from(_e: AllocFailed<T>) -> AuditError {
        AuditError::Check(CheckError::Memory)
    }
}

//! The faults of a line of a script.
ghost use Rattle.std.specs.Prelude.{◌≡◌};
ghost use Rattle.lt_script.specs.declared.error.LineError.TheVariants.{Memory};

use std::alloc::{AllocError, AllocFailed};
use std::fmt;
use thiserror::Error;

/// What is wrong with a line of a script. Faults are looked for in this order: the first word, the second word, the
/// number of words, and then the remaining words from left to right. In a key with its access, the access is
/// checked first.
#[derive(Clone, Copy, Debug, PartialEq, Eq, Error)]
pub enum ScriptFault {
    /// The first word is not a number from 1 to 64.
    #[error("BadPass")]
    BadPass,
    /// There is no second word, or it is not one of the eight calls.
    #[error("BadCall")]
    BadCall,
    /// The call takes another number of words.
    #[error("BadWords")]
    BadWords,
    /// A transaction is not a number from 1 to 2^64 - 1. The transaction of a request may also be `-`.
    #[error("BadTxn")]
    BadTxn,
    /// A time is not a number below 2^64, a dot, and a number below 2^32.
    #[error("BadTime")]
    BadTime,
    /// The bound of a request is not `max=` and a number from 1 to 2^32 - 1.
    #[error("BadMax")]
    BadMax,
    /// A key is not 1 to 64 bytes, each from 0x21 to 0x7E.
    #[error("BadKey")]
    BadKey,
    /// The last two bytes of a key with its access are neither `:r` nor `:w`.
    #[error("BadAccess")]
    BadAccess,
}

/// Why a text could not be read as a script.
#[derive(Clone, Copy, Debug, PartialEq, Eq, Error)]
pub enum ScriptError {
    /// The first faulty line, counted from 1 over all lines, and the first fault in it.
    #[error("line {line}: {fault}")]
    Fault { line: usize, fault: ScriptFault },
    #[error("out of memory")]
    Memory,
}

/// Why a line could not be read.
#[derive(Clone, Copy, Debug, PartialEq, Eq)]
pub(crate) enum LineError {
    Memory,
    Fault(ScriptFault),
}

impl From<AllocError> for LineError {
    ghost from_gives = { λ _ e. e ≡ Memory };

    fn from(_e: AllocError) -> LineError {
        LineError::Memory
    }
}

impl<T: Drop> From<AllocFailed<T>> for LineError {
    ghost from_gives = { λ _ e. e ≡ Memory };

    fn from(_e: AllocFailed<T>) -> LineError {
        LineError::Memory
    }
}

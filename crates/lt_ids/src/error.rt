use crate::limits::MAX_KEY_BYTES;
use thiserror::Error;

/// Why a byte string is not a key. The variants are in the order in which the faults are checked.
#[derive(Clone, Copy, Debug, PartialEq, Eq, Drop, Error)]
pub enum IdError {
    #[error("a key has at least one byte")]
    KeyEmpty,
    #[error("a key has at most {} bytes", MAX_KEY_BYTES)]
    KeyTooLong,
    /// The index, from 0, of the first byte that a key cannot contain.
    #[error("byte {0} is no printable ASCII character, or is a space")]
    KeyByte(usize),
    #[error("out of memory")]
    Memory,
}

//! Why does the store refuse a call? After [`StoreError::Deadlock`] the caller aborts its transaction and tries it
//! again. After any other error of a transaction's call it aborts, and the error says what happened.
use lt_table::{CloseError, ScanError};
use std::alloc::AllocError;
use thiserror::Error;

/// Why a call of the store was refused.
#[derive(Clone, Copy, Debug, PartialEq, Eq, Drop, Error)]
pub enum StoreError {
    /// The transaction is in a cycle of waits and began last of those in it.
    #[error("the transaction gives way, because it is in a deadlock")]
    Deadlock,
    /// The call needs a transaction, and the session has none.
    #[error("the session has no transaction")]
    NoTxn,
    /// A session has one transaction at a time, and the one that it has is not over.
    #[error("the session already has a transaction")]
    TxnOpen,
    /// The session has no pass.
    #[error("the session has no pass")]
    NoPass,
    /// A lock was not the transaction's when it ended, which never happens. No contract of the lock table excludes it.
    #[error("a lock of the transaction was not its own")]
    NotHeld,
    /// The clock cannot be read, or does not go as far as the next turn of a wait.
    #[error("the clock cannot be read")]
    NoClock,
    /// The table has drawn all of its numbers: those of requests and those of transactions are the same ones.
    #[error("the table has no more numbers")]
    NumbersOut,
    /// The table refused a scan of the transaction's request.
    #[error("the lock table refused a scan: {0}")]
    Scan(ScanError),
    /// Too many requests wait at the key. The store's requests have no such bound.
    #[error("too many requests wait at the key")]
    TooLong,
    /// An allocation failed.
    #[error("out of memory")]
    Memory,
}

impl From<AllocError> for StoreError {
    ghost use Rattle.std.specs.Prelude.{◌≡◌};
    ghost use Rattle.example_store.specs.declared.error.StoreError.TheVariants.{Memory};

    ghost from_gives = { λ _ e. e ≡ Memory };

    fn from(_: AllocError) -> StoreError {
        StoreError::Memory
    }
}

/// Why a store was not closed. It is then given up, with its sessions.
#[derive(Clone, Copy, Debug, PartialEq, Eq, Drop, Error)]
pub enum CloseFault {
    /// A session has no pass.
    #[error("a session has no pass")]
    NoPass,
    /// Two of the sessions have passes of one number, which passes of one table never have.
    #[error("two sessions have one pass")]
    SamePass,
    /// The lock table was not closed.
    #[error("the lock table was not closed: {0}")]
    Table(CloseError),
    /// An allocation failed.
    #[error("out of memory")]
    Memory,
}

impl From<AllocError> for CloseFault {
    ghost use Rattle.std.specs.Prelude.{◌≡◌};
    ghost use Rattle.example_store.specs.declared.error.CloseFault.TheVariants.{Memory};

    ghost from_gives = { λ _ e. e ≡ Memory };

    fn from(_: AllocError) -> CloseFault {
        CloseFault::Memory
    }
}

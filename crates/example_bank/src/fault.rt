//! What can go wrong in the bank?
use example_store::StoreError;
use std::alloc::AllocError;
use thiserror::Error;

/// Why a piece of work was not done.
#[derive(Clone, Copy, Debug, PartialEq, Eq, Drop, Error)]
pub enum BankFault {
    /// The store refused a call.
    #[error("the store refused a call: {0}")]
    Store(StoreError),
    /// The number is not one of an account.
    #[error("there is no such account")]
    NoAccount,
    /// The account's value is not the 8 bytes of a balance.
    #[error("an account has no balance")]
    NoBalance,
    /// The accounts have this much together, and should have more or less.
    #[error("an audit found another total: {0}")]
    Total(u64),
}

impl From<StoreError> for BankFault {
    ghost from_gives = { λ _ _. Unit {0} };

    fn from(error: StoreError) -> BankFault {
        BankFault::Store(error)
    }
}

impl From<AllocError> for BankFault {
    ghost from_gives = { λ _ _. Unit {0} };

    fn from(_: AllocError) -> BankFault {
        BankFault::Store(StoreError::Memory)
    }
}

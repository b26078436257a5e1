//! What does a key do with each call? This crate defines the rules of one key.
//!
//! A key's [`Record`](../specs/Rules.antt) holds the lock's holder, its reservation and the queued requests. The
//! definitions in `specs/` give, for each call, the record afterwards, the reply and the lets. `Visit` has the
//! cases of a visit, and `Rules` the other calls. `Step` has a call as a value, the legal histories of a key, and
//! the holder of a lock as the events alone tell it. `Lawful` says which records can arise. `Memory` says which
//! steps may be refused for memory. To trust the contracts, read these definitions. You need not read
//! `Codes`, which only proofs use. `docs/RULES.md` gives the rules in words and pictures.
//!
//! [`KeyTable`] is the contract of a table: a call is one step of the rules on its key alone. Two tables meet it:
//! the linked table of `lt_lock`, which programs run, and the plain table of `lt_plain`, to test against. [`look`]
//! answers for both what a waiting request waits for, and [`free_key`] what a key answers that has no record.
//! [`laws`] has what follows from the rules: a lock has one holder, no read passes a lock at or below its timestamp,
//! no write passes a smaller number, each wait is let through at most once, and the smallest number with a
//! transaction is next.
#![tactic(auto)]

mod call;
pub mod free_key;
mod key_state;
mod key_table;
pub mod laws;
pub mod look;
mod queued;

pub use call::{Call, Reply};
pub use key_state::KeyState;
pub use key_table::{KeyTable, QueueLengths, comes_after};
pub use queued::{Holder, QueuedRequest, QueuedWriter};

//! The names that every layer of the lock table uses.
//!
//! A [`Key`] names what is locked. A [`TxnId`] names a transaction, which reads and writes at a [`Timestamp`]. A
//! [`Request`] is one attempt to access some keys, to read or to write ([`Access`]). It usually belongs to a
//! transaction, and requests with smaller numbers go first. A [`Ticket`] names each wait of a request, and a
//! [`Through`] ends that wait.
//!
//! A key, a transaction, a request and a ticket keep their ranges, so code that receives one need not check it. Any
//! other number has only the range of its Rust type; the pass of a `Through` and the parts of a timestamp are
//! examples.
//!
//! Read next: `specs/` has the ranges, the order in which a key's faults are checked and the order of timestamps.
//! `docs/RULES.md` says what the names are for.
#![tactic(auto)]

mod error;
mod key;
mod limits;
mod request;
mod ticket;
mod timestamp;
mod txn;

pub use error::IdError;
pub use key::Key;
pub use limits::{MAX_KEY_BYTES, MAX_PASS, MAX_REQUEST, MAX_SHARDS, MAX_STEPS, MAX_WAIT};
pub use request::{Access, Request};
pub use ticket::{Through, Ticket};
pub use timestamp::Timestamp;
pub use txn::TxnId;

//! What does a call do to one key, if the key's queues are linked by index?
//!
//! A [`Row`] has what is kept for a key beside its queues: the holder, the distinguished waiter and the id of the
//! queues. The queued requests are nodes of a [`Links`](lt_links::Links), which may have the queues of many keys. A
//! table of many keys keeps a row for each key, over one set of links: `lt_lock` has such a table. A caller with one
//! key takes a [`LinkedRecord`], which is a row with links of its own.
//!
//! What is promised: each call is the step of the rules on the row's record, with the reply and the lets of the
//! rules, and no other row's queues change (`UpdatesRow` in `specs/RowStepped.antt`). A call makes all its
//! allocations, lets included, before its first change. So after an error, the row and the links are the old ones. A
//! visit that brings one more request to the key makes room for its let, so that the call which lets it through needs
//! no memory.
//!
//! A request's entry at a key is found in the list of the request's own entries, without walking a queue. A new
//! writer is inserted from the end of the queue, where it usually belongs. A check against a bound asks
//! the links for the length of the queue. A queue is walked only if each of its entries must be looked at.
//!
//! Read next: `specs/Row.antt` says which record a row and its queues stand for. In `src/`, `record` has the record
//! of one key, over `one_call`, which makes a call that is given as a value, and
//! `row` and `visit`, which have the calls. Below them, `settle` elects the distinguished
//! waiter, `queue_walk` walks queues, `queue_edit` changes them, `find` finds a request's queue entry, `txn`
//! compares transactions, `same_txn` asks whether other requests of a transaction are queued, and `copy` copies the
//! state of a key, whole or with the front of its queues alone.
#![tactic(auto)]

mod copy;
mod find;
mod one_call;
mod queue_edit;
mod queue_walk;
mod record;
mod row;
mod same_txn;
mod settle;
mod txn;
mod visit;

pub use copy::state;
pub use one_call::step;
pub use record::LinkedRecord;
pub use row::{Row, acquire, is_empty, lengths, look};

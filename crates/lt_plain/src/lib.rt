//! How does a table follow the rules of one key (`lt_rules`) as simply as possible? [`PlainTable`] keeps the queues
//! of each key as sorted vectors, in an ordered map of keys. It is the reference: to read, and to test the linked
//! table of `lt_lock` against. No program runs it.
//!
//! The names of `lt_rules` stand here too, so that a test needs this crate alone.
//!
//! Read `plain_record.rt` first, which applies a call to one key's record.
#![tactic(auto)]

mod plain_record;
mod plain_table;
mod queues;

pub use lt_rules::{
    Call, Holder, KeyState, KeyTable, QueueLengths, QueuedRequest, QueuedWriter, Reply, laws, look,
};
pub use plain_table::PlainTable;

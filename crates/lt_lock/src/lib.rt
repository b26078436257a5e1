//! How does the lock table serve many keys without walking their queues? It keeps a row for each key, over queues
//! that are linked by index.
//!
//! [`LinkedTable`] meets the contract of [`KeyTable`](lt_rules::KeyTable), as the plain table does: a call is one step
//! of the rules on its key alone. It adds speed. The queue entries of all keys are nodes of one
//! [`Links`](lt_links::Links). The map of keys has a small [`Row`](lt_row::Row) for each key that is held, reserved
//! or waited for. Two kinds of keys have none. A single lock that nobody waits for is a lone lock: it has no queues. If
//! somebody comes to wait for it, its key becomes the hot key, whose record has links of its own.
//!
//! A call at a key that has a row finds the row in a hash map, and makes the call of `lt_row` on it. An acquire finds
//! the place of its key by one search, whether the key has a row or gets one. A row that becomes empty is dropped in the
//! same call. No call at a key walks the map of keys, and `lt_row` says which calls walk a queue.
//!
//! The hash begins from a start that the table is opened with. Whoever chooses the keys can make many of them meet only if
//! he knows it. The map is in no order, so the list of all keys is sorted when it is asked for, and a part of it comes from
//! one pass over the rows (`keys`).
//!
//! A call makes all its allocations, lets included, before it changes a record. So after an error, nothing has
//! changed.
//!
//! Read next: `specs/Linked.antt` says which records the links and the rows stand for. In `src/`, `table` has the
//! table, over `lone`, the lone lock, and `hot_table`, which has the hot key over `row_table`, the rows. `lt_row` has what
//! a call does to one row.
#![tactic(auto)]

mod hot_table;
mod keys;
mod lone;
mod row_table;
mod table;

pub use table::LinkedTable;

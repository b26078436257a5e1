//! How does a store stand on the lock table? This one is small and in memory: keys and values are byte strings, and the
//! transactions of many threads wait for each other's locks. The values are beside the shards of the table, behind the
//! shards' own locks (`example_cells`). The program `example_bank` opens it and runs two workloads on it.
//!
//! Read in this order:
//!
//! 1. `src/store.rt`: how a store is opened, how a transaction begins, and the isolation.
//! 2. `src/access.rt`: reads and writes. `src/request.rt`: the way of one request through the table.
//! 3. `src/deadlock.rt`, and `example_graph` below it: who waits for whom, and who gives way.
//! 4. `src/ending.rt`: commits and aborts. `src/closing.rt`: what the close says of all transactions.
//! 5. `src/session.rt`: how a pass goes to a thread.
//!
//! # The life of a store
//!
//! - [`Store::open`] opens the table of a prepared book and gives its passes. [`sessions_of`] makes a [`StoreSession`] of each.
//! - Threads share the store. Each has a session of its own and calls [`Store::begin`], [`Store::get_for_update`],
//!   [`Store::put`], [`Store::delete`], [`Store::get`], and [`Store::commit`] or [`Store::abort`].
//! - After [`StoreError::Deadlock`] a caller aborts and calls [`Store::begin_again`].
//! - At the end [`Store::close`] closes the table with the passes of all sessions, and gives the sessions' logs.
//!
//! Each session logs what it commits, so the logs grow as long as the store is open: by some 150 bytes for a transaction of
//! two keys.
//!
//! # What is proved
//!
//! - Every function is safe, and every call of the table meets the table's premises: it gets a pass of this table.
//! - **A commit that says Ok** held all of the transaction's locks at one moment of the table's history, each without a break
//!   from the step that took it to the step that freed it. As each lock came free, what the transaction had put was the key's
//!   value. The session's log has it then, and nothing more (`ok` of [`Store::commit`]).
//! - **All transactions that were committed went one after the other**, at every key that two of them share, over the one
//!   history that the close gives (`in_order` of [`Store::close`]). It compares the numbers of the passes at run time, because
//!   no contract follows a pass through threads.
//! - **A transaction reads what it has put itself** (`own` of [`Store::get`] and [`Store::get_for_update`]), and a put or delete
//!   leaves what was put at other keys (`put` of [`Store::put`] and [`Store::delete`]).
//! - **A read under a lock** that the call takes is of the values after exactly the steps of the key's shard up to the acquire
//!   (`took` of [`Store::get_for_update`]). If the reading says so (`left` of `CellReading`), the log of values has what was read,
//!   as what the finish left that ended the last tenure of the lock. The log also has what each commit put (`ok` of
//!   [`Store::commit`]), and says one value of a step. So if the reading says so and that tenure ended with a commit that put a
//!   value, the read returns this value.
//! - **An abort that says Ok** leaves each value as it is (`leaves` of [`Store::abort`]).
//! - Who gives way has the greatest number of some cycle, and nobody does only if there is no cycle (`victim_of` of
//!   `example_graph`).
//!
//! # What is not proved
//!
//! - **Which values.** The clauses on commits, locked reads and aborts speak of some values that fit the steps of the key's shard.
//!   That these are the store's own is in the bodies (the head of `example_cells`). Only the log of values says more.
//! - **That a locked read finds what was put.** No clause says that a reading has `left`: the head of `example_cells` says when it
//!   has. And [`Store::get_for_update`] returns the value alone, so its caller does not see `left`.
//! - **Reads without a lock** ([`Store::get`]) are read committed, and no transaction is ordered by them.
//! - **Waits.** No contract says that a call returns, that every deadlock is found and resolved, or that the count of waits is
//!   right.
#![tactic(auto)]

mod access;
mod closing;
mod deadlock;
mod ending;
mod error;
mod request;
mod session;
mod store;

pub use closing::ClosedStore;
pub use error::{CloseFault, StoreError};
pub use session::{PassSlot, StoreSession, sessions_of};
pub use store::Store;

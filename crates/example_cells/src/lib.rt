//! How does a store that keeps its values beside its locks show that its transactions went one after the other? This crate
//! has such values, and what a transaction does with them.
//!
//! A [`CellTable`] is a lock table that has a [`Cells`] beside each shard, behind the shard's lock. The cells are told of each
//! step of the shard. So the cell of a key knows, of all steps of the shard, who owns the key's lock, and whose tenure of it
//! ended last.
//!
//! ```text
//!   steps of the key   0: acquire by 1   1: finish by 1   2: acquire by 2   3: finish by 2
//!   value              none              a                a                 b
//!   owner              1, since 0        none             2, since 2        none
//!   ended last         none              1, 0 to 1        1, 0 to 1         2, 2 to 3
//! ```
//!
//! A transaction:
//!
//! 1. draws its name ([`CellTable::name`]) and begins ([`ActiveTxn::new`]);
//! 2. takes locks ([`CellTable::take`], or [`CellTable::take_in`] by a request that waited) and notes them
//!    ([`ActiveTxn::note`]). What it reads it reads in the critical section of its acquire: what the transaction left whose
//!    tenure ended last;
//! 3. puts values: `put` of a [`HeldLock`], which nobody else sees yet;
//! 4. commits ([`CellTable::commit`]) or aborts ([`CellTable::abort`]). Each lock comes free and what was put becomes the key's
//!    value in one critical section. A [`CommitLog`] keeps what was committed through a pass.
//!
//! # What is proved
//!
//! - **Each read under a lock** is of the cells after exactly the steps of the shard up to its acquire (`read` of
//!   [`CellTable::take`]).
//! - **Each commit** that returns `Some` held all of its locks at one moment of the table's history, the one at which it
//!   began, each without a break from the step that took it to the step that freed it (`IsCommit` in
//!   `specs/Committing.antt`).
//! - **All transactions of a run went one after the other**: the logs of all passes have an order of their transactions in
//!   which, at every key that two of them share, the earlier one freed the lock before the later one took it
//!   ([`commits_went_in_order`]). Its premises are a legal history that has all that the passes have seen, such as a close
//!   of the table tells, and that the logs are of different passes.
//! - **What a commit put is the key's value** before anybody else can see the key (`freed` of [`CellTable::commit`]), and an
//!   abort that returns true leaves the value as it is (`leaves` of [`CellTable::abort`]).
//! - **What is read is what was put.** The log of values (`example_values`) has what each commit has put, as what its finish
//!   left (`left` of [`CellTable::commit`]), and what each locked read found, as what the finish left that ended the last
//!   tenure, if the reading says so (`left` of [`CellTable::take`]). The log says one value of a step. So a locked read of what
//!   a transaction left returns what that transaction had put ([`HeldLock::reads_what_was_left`]).
//! - **No two transactions have one name**: each drew its own (`DrewIn` in `IsCommit`).
//!
//! # What is not proved
//!
//! The clauses `read`, `freed` and `leaves` speak of some cells that know the steps: that these are the table's own is in the
//! bodies. The log of values says more, but only of what was put: a transaction that frees a lock without having written leaves
//! what it found, and that is in the log too, but in no clause. No clause says that a reading has `left`: it has, unless the
//! key was never freed or was loaded since ([`CellTable::load`]). The test in `example_cells_tests` asks for it.
//!
//! Nothing here waits for another transaction: a store that has requests waits before it takes a lock (`example_store`). But
//! while a shard of a table that stores its steps is full, a commit and an abort wait until some are taken out. And
//! [`CellTable::read`], which takes no lock, is read committed.
//!
//! Read in this order: `src/cell.rt`, `src/cells.rt`, `src/taking.rt`, `src/freeing.rt`, `src/committing.rt`, `src/log.rt`.
#![tactic(auto)]

mod aborting;
mod cell;
mod cell_table;
mod cells;
mod committed;
mod committing;
mod freeing;
mod held;
mod log;
mod naming;
mod taking;
mod values;

pub use cell::{Cell, CellReading, Owner, PastTenure, Put};
pub use cell_table::CellTable;
pub use cells::{Cells, Installed};
pub use committed::{Committed, LockTenure};
pub use committing::ActiveTxn;
pub use freeing::FreedLock;
pub use held::HeldLock;
pub use log::{CommitLog, commits_went_in_order};
pub use naming::DrawnName;
pub use taking::{TakeError, TakenLock};

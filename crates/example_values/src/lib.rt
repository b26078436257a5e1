//! Which value did a transaction leave at a key? Here is a log of that, which lasts: whoever has seen an entry knows it for
//! good, also after it has given up the lock under which the entry was made.
//!
//! No code holds the log. It exists in the proofs alone, as the history of a lock table does. A [`SeenValues`] is a prefix
//! of it that was seen. A [`ValueBook`] has a word for each shard of a lock table: [`ValueBook::leave`] appends an entry, which
//! says that the step with this index of the shard freed the key's lock, and which value the key then had.
//!
//! ```text
//!   steps of the key   1: finish by 1    3: finish by 2    5: finish by 3
//!   log                a left at 1       b left at 3       b left at 5
//! ```
//!
//! # What is proved
//!
//! - **The log says of a step one value**, or nothing (`said_of` in `specs/Values.antt`). If [`ValueBook::leave`] returns true,
//!   it is the value that was given (`left`).
//! - What it says of a step that was seen stays ([`entries_stay`]). So if two callers have seen what a step left, both have
//!   seen the same value, once one has learned from the other.
//!
//! # What is not proved
//!
//! That a step with this index freed the lock, and that the key had this value then: whoever calls `leave` says so, under the
//! lock of the key's shard. And that `leave` succeeds: it does if each call at a shard has a greater index than the one
//! before it.
#![tactic(auto)]

mod entry;
mod law;
mod log;
mod name;

pub use entry::{LeftValue, ValueBytes};
pub use log::{SeenValues, ValueBook, entries_stay};
pub use name::ValueName;

//! Who owned a lock, from which step to which, and in which order did transactions go? A store reasons about its locks
//! in these terms. This crate reads them off the steps of a table's history, and says what follows.
//!
//! A **tenure** is a lock from the step that took it to the step that freed it. The **owner** of a lock is its holder,
//! with the index of the step that took the lock. Here two transactions take one lock in turn:
//!
//! ```text
//!   index   0: acquire by 1     1: finish by 1     2: acquire by 2     3: update by 2     4: finish by 2
//!   reply   taken               freed              taken               raised             freed
//!   owner   1, since 0          none               2, since 2          2, since 2         none
//!
//!   tenures of the lock         0 to 1, of transaction 1               2 to 4, of transaction 2
//! ```
//!
//! [`laws`] has what a store may conclude. An acquire is answered `Taken` only on a lock without an owner, and a finish
//! `Freed` only to the owner. Who took a lock and freed it later, without freeing it in between, held it throughout.
//! Tenures of one key never overlap. A moment of a table's history at which a transaction held all of its locks is its
//! **lock point**. Transactions that each have a lock point went one after the other at every key that they share, in the
//! order of these moments. A store that takes all locks of a transaction before it frees the first has such a moment:
//! what the transaction's pass has seen in between.
//!
//! No code here runs. The laws are about what a table promises already: each call reports the index of its step among
//! those of the key's shard, in one legal history (`Reports` in `lt_words/specs/Row.antt`). They say nothing of values, and
//! nothing of reads that take no lock. That a store takes its locks first, it has to show by the indices of its own steps.
//!
//! Read next `specs/Tenure.antt`, then `specs/Committed.antt` and `specs/Laws.antt`. `specs/Example.antt` has two
//! transactions step by step. `docs/RULES.md`, "Tenures", states the laws in a store's words.
#![tactic(auto)]

pub mod laws;

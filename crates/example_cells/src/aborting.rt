//! How does a transaction abort? It frees its locks, and each key keeps the value that it had.
ghost use Rattle.std.specs.Prelude.{◌≡◌, true};
ghost use Rattle.std.specs.List.{AllByRecursion};
ghost use mathlib.Core.List.{IsPrefix};
ghost use Rattle.example_cells.specs.Committing.{LeavesValue};

use crate::cell_table::CellTable;
use crate::committing::ActiveTxn;
use crate::held::HeldLock;
use example_values::ValueName;
use lt_rules::KeyTable;
use lt_words::laws::parts_begin;
use lt_words::{Name, Pass};
use std::sync::Wait;

fn are_both(one: bool, other: bool) -> bool
    ensures one { result ≡ true → one ≡ true }
    ensures other { result ≡ true → other ≡ true }
{
    one && other
}

impl<N: Name + ValueName, T: KeyTable> CellTable<N, T> {
    /// Frees the lock. The key keeps its value. False if the lock was not the transaction's, which never happens.
    fn give_up<R: Wait>(&self, rt: &R, pass: &mut Pass, lock: &HeldLock<N>) -> bool
        requires of { pass.old.of ≡ N.of }
        ensures of { pass.new.of ≡ N.of }
        ensures number { pass.new.number ≡ pass.old.number }
        ensures more { IsPrefix pass.old.seen pass.new.seen }
        ensures leaves { result ≡ true → LeavesValue N.of.shards pass.new.seen lock.now.key }
    {
        lock.was_taken();
        pass.learn(&lock.seen);
        let point = pass.seen();
        self.free(rt, pass, lock, &point, None).is_some()
    }

    /// Aborts the transaction: frees its locks, and drops what it has put. Waits while a key's shard is full of steps,
    /// and needs no memory if the table stores none. False if one of the locks was not the transaction's, which never happens.
    pub fn abort<R: Wait>(&self, rt: &R, pass: &mut Pass, txn: ActiveTxn<N>) -> bool
        requires of { pass.old.of ≡ N.of }
        ensures of { pass.new.of ≡ N.of }
        ensures number { pass.new.number ≡ pass.old.number }
        ensures more { IsPrefix pass.old.seen pass.new.seen }
        ensures leaves { result ≡ true → AllByRecursion (λ l. LeavesValue N.of.shards pass.new.seen l.key) txn.locks.items }
    {
        parts_begin();
        let ActiveTxn { locks, .. } = txn;
        let mut freed = true;
        for lock in locks {
            let gone = self.give_up(rt, pass, &lock);
            freed = are_both(gone, freed);
        }
        freed
    }
}

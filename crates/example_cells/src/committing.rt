//! How does a transaction commit? It learns all that it knows of its locks, which is the moment at which it holds all of them,
//! and then frees them, one after the other.
ghost use Rattle.std.specs.Prelude.{◌≡◌, ◌≤◌, [], length, vec_capacity, IfSome};
ghost use Rattle.std.specs.List.{All, AllZip};
ghost use mathlib.Core.List.{IsPrefix};
ghost use Rattle.lt_words.specs.Row.{SeesMore};
ghost use Rattle.example_cells.specs.Committing.{IsFreed};
ghost use Rattle.example_cells.specs.Leaving.{IsPutLeft};

use crate::cell_table::CellTable;
use crate::committed::{Committed, LockTenure};
use crate::held::HeldLock;
use crate::naming::DrawnName;
use example_values::ValueName;
use lt_ids::Timestamp;
use lt_rules::KeyTable;
use lt_words::{Name, Pass};
use std::alloc::{AllocError, Global};
use std::sync::Wait;

/// A transaction that has begun.
#[derive(Drop)]
pub struct ActiveTxn<N: Name + ValueName> {
    /// Its name.
    pub name: DrawnName<N>,
    /// The timestamp at which it takes its locks.
    pub ts: Timestamp,
    /// The locks that it holds, in the order in which it took them.
    pub locks: Vec<HeldLock<N>>,
    /// Empty, with room for a tenure of each lock: so a commit needs no memory.
    pub(crate) done: Vec<LockTenure>,
    pub ghost own: { All (λ l. l.txn ≡ name.id) locks.items },
    pub ghost none: { done.items ≡ [] },
    pub ghost room: { length locks.items ≤ vec_capacity done },
}

impl<N: Name + ValueName> ActiveTxn<N> {
    ghost use Rattle.std.specs.Prelude.{◌≡◌, ◌<◌, [], ◌∷◌, ◌++◌, length, vec_capacity, OnOk};

    /// A transaction of this name, which has taken no lock yet. Its locks are noted in memory of `alloc`.
    pub fn new(alloc: Global, name: DrawnName<N>, ts: Timestamp) -> ActiveTxn<N>
        ensures name { result.name ≡ name }
        ensures ts { result.ts ≡ ts }
        ensures none { result.locks.items ≡ [] }
    {
        ActiveTxn {
            name,
            ts,
            locks: Vec::new(alloc),
            done: Vec::new(alloc),
        }
    }

    /// Makes room for one more lock. Whoever calls this before he takes a lock can note each lock that he has.
    pub fn reserve(&mut self) -> Result<(), AllocError>
        ensures room { OnOk result (length self.new.locks.items < vec_capacity self.new.locks) }
        ensures tenures { OnOk result (length self.new.locks.items < vec_capacity self.new.done) }
        ensures name { self.new.name ≡ self.old.name }
        ensures locks { self.new.locks.items ≡ self.old.locks.items }
    {
        self.done.reserve(self.locks.len().saturating_add(1))?;
        self.locks.reserve(1)
    }

    /// Notes a lock that the transaction has taken.
    pub fn note(&mut self, lock: HeldLock<N>)
        requires own { lock.txn ≡ self.old.name.id }
        requires room { length self.old.locks.items < vec_capacity self.old.locks }
        requires tenures { length self.old.locks.items < vec_capacity self.old.done }
        ensures name { self.new.name ≡ self.old.name }
        ensures locks { self.new.locks.items ≡ self.old.locks.items ++ lock ∷ [] }
    {
        self.locks.push_reserved(lock);
    }
}

/// Lets the pass learn what was seen when each lock was taken.
fn learn_all<N: Name + ValueName>(pass: &mut Pass, locks: &Vec<HeldLock<N>>)
    requires of { pass.old.of ≡ N.of }
    ensures more { SeesMore pass.old pass.new }
    ensures all { All (λ l. IsPrefix l.seen.seen pass.new.seen) locks.now.items }
{
    for lock in locks {
        lock.was_taken();
        pass.learn(&lock.seen);
    }
}

impl<N: Name + ValueName, T: KeyTable> CellTable<N, T> {
    /// Commits the transaction: frees its locks, in the order in which it took them, and installs what it has put. Waits
    /// while a key's shard is full of steps. `None` if one of the locks was not the transaction's, which never happens.
    pub fn commit<R: Wait>(
        &self,
        rt: &R,
        pass: &mut Pass,
        txn: ActiveTxn<N>,
    ) -> Option<Committed<N>>
        requires of { pass.old.of ≡ N.of }
        requires own { txn.name.pass ≡ pass.old.number }
        ensures of { pass.new.of ≡ N.of }
        ensures number { pass.new.number ≡ pass.old.number }
        ensures more { IsPrefix pass.old.seen pass.new.seen }
        ensures name { IfSome result (λ c. (c.txn ≡ txn.name.id) × (c.pass ≡ pass.old.number) × (c.began ≡ txn.name.began.seen)) }
        ensures point { IfSome result (λ c. IsPrefix pass.old.seen c.point) }
        ensures seen { IfSome result (λ c. c.seen ≡ pass.new.seen) }
        ensures left { IfSome result (λ c. AllZip (λ l t. IsPutLeft N.of.shards N.values l.put t) txn.locks.items c.tenures) }
        ensures freed { IfSome result (λ c. AllZip (λ l t. IsFreed N.of.shards c.seen c.point l.key l.txn l.taken l.put t) txn.locks.items c.tenures) }
    {
        learn_all(pass, &txn.locks);
        pass.learn(&txn.name.began);
        pass.learn(&txn.name.seen);
        let point = pass.seen();
        let ActiveTxn {
            name,
            locks,
            done,
            ..
        } = txn;
        let tenures = self.free_all(rt, pass, locks, &point, done)?;
        Some(Committed {
            name,
            tenures,
            point,
            seen: pass.seen(),
        })
    }
}

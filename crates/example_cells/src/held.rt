//! What does a transaction note of a lock that it holds?
ghost use Rattle.std.specs.Prelude.{◌≡◌};
ghost use Rattle.example_cells.specs.Committing.{IsTakenAt};

use crate::cell::Put;
use example_values::{SeenValues, ValueName};
use lt_ids::{Key, Timestamp, TxnId};
use lt_words::{Front, Name};
use std::marker::PhantomData;

/// A lock that a transaction holds.
#[derive(Drop)]
pub struct HeldLock<N: Name + ValueName> {
    pub key: Key,
    /// The transaction.
    pub txn: TxnId,
    /// The timestamp at which it took the lock.
    pub ts: Timestamp,
    /// The index of the step that took the lock, among the steps of the key's shard.
    pub taken: u64,
    /// What the key's value becomes if the transaction commits. `None` if it has written none.
    pub put: Option<Put>,
    /// What the transaction's pass had seen after that step.
    pub seen: Front,
    /// What the cells had seen of the log of values.
    pub values: SeenValues,
    name: PhantomData<N>,
    pub ghost of: { seen.of ≡ N.of },
    pub ghost of_values: { values.book ≡ N.values },
    pub ghost took: { IsTakenAt N.of.shards key txn ts taken seen.seen },
}

impl<N: Name + ValueName> HeldLock<N> {
    ghost use Rattle.std.specs.Prelude.{◌≡◌, None};
    ghost use Rattle.example_cells.specs.Committing.{IsTakenAt};

    /// The lock of the key, which this transaction took by the step with the index `taken`, as `seen` shows. `values` is
    /// what the cells had then seen of the log of values.
    pub fn new(
        key: Key,
        txn: TxnId,
        ts: Timestamp,
        taken: u64,
        seen: Front,
        values: SeenValues,
    ) -> HeldLock<N>
        requires of { seen.of ≡ N.of }
        requires took { IsTakenAt N.of.shards key txn ts taken seen.seen }
        requires of_values { values.book ≡ N.values }
        ensures key { result.key ≡ key }
        ensures txn { result.txn ≡ txn }
        ensures taken { result.taken ≡ taken }
        ensures seen { result.seen ≡ seen }
        ensures values { result.values ≡ values }
        ensures put { result.put ≡ None }
    {
        HeldLock {
            key,
            txn,
            ts,
            taken,
            put: None,
            seen,
            values,
            name: PhantomData,
        }
    }

    /// Ghost call: tells the prover that the transaction took the lock.
    pub fn was_taken(&self)
        ensures of { self.now.seen.of ≡ N.of }
        ensures of_values { self.now.values.book ≡ N.values }
        ensures took { IsTakenAt N.of.shards self.now.key self.now.txn self.now.ts self.now.taken self.now.seen.seen }
    {}
}

//! What is left of a transaction when it has committed?
use crate::naming::DrawnName;
use example_values::SeenValues;
use lt_ids::{Key, TxnId};
use lt_words::{Front, Name};
use std::marker::{Model, PhantomData};

/// A lock that a transaction held, from the step that took it to the step that freed it.
#[derive(Drop)]
pub struct LockTenure {
    pub key: Key,
    /// The index of the step that took the lock, among the steps of the key's shard.
    pub taken: u64,
    /// The index of the step that freed it.
    pub freed: u64,
    /// What was then seen of the log of values.
    pub values: SeenValues,
}

/// A transaction that committed.
#[derive(Drop)]
pub struct Committed<N: Name> {
    pub(crate) name: DrawnName<N>,
    pub(crate) tenures: Vec<LockTenure>,
    /// What the transaction's pass had seen when the commit began: the moment at which the transaction held all of its locks.
    pub(crate) point: Front,
    /// What the pass had seen when the commit was done.
    pub(crate) seen: Front,
}

impl<N: Name> Model for Committed<N> {
    ghost use Rattle.example_cells.specs.Committing.{Commit, IsCommit};

    ghost Value = { Commit };

    ghost view = { λ c. record {
      txn = c.name.id;
      pass = c.name.pass;
      tenures = c.tenures.items;
      began = c.name.began.seen;
      named = c.name.seen.seen;
      point = c.point.seen;
      seen = c.seen.seen;
    } };

    ghost invariant = { λ c. IsCommit N.of (record {
      txn = c.name.id;
      pass = c.name.pass;
      tenures = c.tenures.items;
      began = c.name.began.seen;
      named = c.name.seen.seen;
      point = c.point.seen;
      seen = c.seen.seen;
    }) };
}

impl<N: Name> Committed<N> {
    ghost use Rattle.std.specs.Prelude.{◌≡◌};
    ghost use Rattle.example_cells.specs.Committing.{IsCommit};

    /// The transaction.
    pub fn txn(&self) -> TxnId
        ensures { result ≡ self.now.txn }
    {
        self.name.id
    }

    /// The tenures of its locks, in the order in which it took them.
    pub fn tenures(&self) -> &[LockTenure]
        ensures { result.now ≡ self.now.tenures }
    {
        &self.tenures
    }

    /// What the transaction's pass had seen when the commit was done.
    pub fn seen(&self) -> Front
        ensures { result.seen ≡ self.now.seen }
    {
        self.seen.again()
    }

    /// Ghost call: tells the prover what a commit is.
    pub fn is_commit(&self)
        ensures { IsCommit N.of self.now }
    {
        let _ = &self.seen;
    }
}

//! How does a transaction end? Its commit frees its locks, and what it has put becomes the keys' values as they come free.
//! Its abort frees its locks and leaves the values. Neither needs memory of its own.
ghost use Rattle.std.specs.Prelude.{◌≡◌, [], ◌∷◌, ◌++◌, Some, None, IfSome, OnOk, OnErr, IsSomeAnd};
ghost use Rattle.std.specs.List.{AllZip, AllByRecursion};
ghost use Rattle.example_cells.specs.Committing.{Commit, IsCommit, IsFreed, LeavesValue};
ghost use Rattle.example_cells.specs.Leaving.{IsPutLeft};

use crate::error::StoreError;
use crate::session::StoreSession;
use crate::store::Store;
use example_values::ValueName;
use lt_words::Name;
use std::sync::Wait;

impl<N: Name + ValueName> Store<N> {
    /// Ends the transaction: its provisional values become the keys' values, and its locks come free. The session's log has
    /// it then.
    ///
    /// `NoTxn` if no transaction has begun, and `NoPass` if the session has no pass. `NotHeld` never comes.
    #[tactic(auto, using(crate::proofs::Passes::prefix_begins, crate::proofs::Passes::begins_more, crate::proofs::Passes::begins_self))]
    pub fn commit<R: Wait>(&self, rt: &R, session: &mut StoreSession<N>) -> Result<(), StoreError>
        // The transaction held all of its locks at one moment, freed them, and what it has put was the keys' values as they
        // came free. The log of values has what it has put, and the session's log the transaction.
        ensures ok { OnOk result (IsSomeAnd session.old.txn (λ t. (c : Commit) × (session.new.log.commits ≡ session.old.log.commits ++ c ∷ [])
            × (c.txn ≡ t.name.id) × IsCommit N.of c
            × AllZip (λ l u. IsFreed N.of.shards c.seen c.point l.key l.txn l.taken l.put u) t.locks.items c.tenures
            × AllZip (λ l u. IsPutLeft N.of.shards N.values l.put u) t.locks.items c.tenures)) }
        ensures err { OnErr result (session.new.log.commits ≡ session.old.log.commits) }
        ensures gone { session.new.txn ≡ None }
    {
        let Some(txn) = session.txn.take() else {
            return Err(StoreError::NoTxn);
        };
        let Some(pass) = &mut session.slot.pass else {
            return Err(StoreError::NoPass);
        };
        let Some(committed) = self.cells.commit(rt, pass, txn) else {
            return Err(StoreError::NotHeld);
        };
        committed.is_commit();
        session.log.push(committed);
        Ok(())
    }

    /// Ends the transaction: its provisional values are dropped, and its locks come free. The errors are those of
    /// [`Store::commit`].
    #[tactic(auto, using(crate::proofs::Passes::begins_more))]
    pub fn abort<R: Wait>(&self, rt: &R, session: &mut StoreSession<N>) -> Result<(), StoreError>
        // Each key has the value that it had before.
        ensures leaves { OnOk result (IsSomeAnd session.old.txn (λ t. IsSomeAnd session.new.slot.pass (λ p.
            AllByRecursion (λ l. LeavesValue N.of.shards p.seen l.key) t.locks.items))) }
        ensures log { session.new.log ≡ session.old.log }
        ensures gone { session.new.txn ≡ None }
    {
        let Some(txn) = session.txn.take() else {
            return Err(StoreError::NoTxn);
        };
        let Some(pass) = &mut session.slot.pass else {
            return Err(StoreError::NoPass);
        };
        let freed = self.cells.abort(rt, pass, txn);
        if freed {
            Ok(())
        } else {
            Err(StoreError::NotHeld)
        }
    }
}

//! How does a transaction take a key's lock? By a request of the table: it enters, scans, waits while it has to, and once it
//! proceeds takes the lock. It leaves on every path.
//!
//! Two requests that meet no lock both proceed, and one of them finds that the other one got the lock. It scans again, and
//! waits.
//!
//! Read next `src/deadlock.rt`, what a request does while it waits.
ghost use Rattle.std.specs.Prelude.{◌≡◌, ◌≢◌, IfOk, IfErr, IfSome};
ghost use Rattle.lt_walk.specs.Reported.{IsSamePass};
ghost use Rattle.example_store.specs.Locks.{IsLockOf};

use crate::error::StoreError;
use crate::store::Store;
use example_cells::{TakeError, TakenLock};
use example_values::ValueName;
use lt_ids::{Access, Key, Timestamp, TxnId};
use lt_table::{EnterError, EnterRefused, Guard, LeaveStopped, Left, Scan, ScanError};
use lt_words::{Name, Pass};
use std::sync::Wait;
use std::sync::atomic::Ordering;
use std::thread;
use std::time::Clock;

/// A request that did not enter: its pass comes back.
struct Refused {
    pass: Pass,
    error: StoreError,
}

/// What the store says of an enter that was refused. A request of one key is never refused for its keys.
fn error_of(error: EnterError) -> StoreError
    requires some { error ≢ EnterError.NoKeys }
    requires few { error ≢ EnterError.TooManyKeys }
{
    match error {
        EnterError::NumbersOut => StoreError::NumbersOut,
        EnterError::Memory => StoreError::Memory,
        EnterError::NoKeys | EnterError::TooManyKeys => unreachable!(),
    }
}

impl<N: Name + ValueName> Store<N> {
    /// Takes the key's lock for this transaction, by a request that enters through the pass and leaves again. The pass comes
    /// back.
    #[tactic(auto, using(crate::proofs::Passes::same_on))]
    pub(crate) fn request<R: Wait + Clock>(
        &self,
        rt: &R,
        pass: Pass,
        key: &Key,
        txn: TxnId,
        ts: Timestamp,
    ) -> (Pass, Result<TakenLock<N>, StoreError>)
        requires of { pass.of ≡ N.of }
        ensures same { IsSamePass pass result.0 }
        ensures took { IfOk result.1 (λ t. IsLockOf N.of.shards key.now txn t.lock.key t.lock.txn t.lock.seen.seen t.lock.taken t.lock.values.log t.reading) }
    {
        match self.enter(pass, key, txn, ts) {
            Ok(mut guard) => {
                let taken = self.reach(rt, &mut guard, key, txn, ts);
                (self.leave(rt, guard), taken)
            }
            Err(Refused { pass, error }) => (pass, Err(error)),
        }
    }

    /// Enters a request to write the key.
    #[tactic(auto, using(crate::proofs::Passes::same_self, crate::proofs::Passes::same_of_more))]
    fn enter(&self, pass: Pass, key: &Key, txn: TxnId, ts: Timestamp) -> Result<Guard, Refused>
        requires of { pass.of ≡ N.of }
        ensures entered { IfOk result (λ g. IsSamePass pass g.pass) }
        ensures refused { IfErr result (λ e. IsSamePass pass e.pass) }
    {
        let key = match key.copy() {
            Ok(key) => key,
            Err(_) => {
                let error = StoreError::Memory;
                return Err(Refused { pass, error });
            }
        };
        let accesses = [(key, Access::Write)];
        match self
            .cells
            .table
            .enter(self.alloc, pass, Some(txn), ts, &accesses, 0)
        {
            Ok(guard) => Ok(guard),
            Err(EnterRefused { pass, error }) => Err(Refused {
                pass,
                error: error_of(error),
            }),
        }
    }

    /// Scans until the request has the lock, and waits in between.
    #[tactic(auto, using(crate::proofs::Passes::same_self, crate::proofs::Passes::same_on))]
    fn reach<R: Wait + Clock>(
        &self,
        rt: &R,
        guard: &mut Guard,
        key: &Key,
        txn: TxnId,
        ts: Timestamp,
    ) -> Result<TakenLock<N>, StoreError>
        requires of { guard.old.pass.of ≡ N.of }
        ensures same { IsSamePass guard.old.pass guard.new.pass }
        ensures took { IfOk result (λ t. IsLockOf N.of.shards key.now txn t.lock.key t.lock.txn t.lock.seen.seen t.lock.taken t.lock.values.log t.reading) }
    {
        for _ in rt.forever() {
            if let Some(taken) = self.scan(rt, guard, key, txn, ts)? {
                return Ok(taken);
            }
        }
        unreachable!()
    }

    /// Scans once, and waits if the request has to. `None` if the request has to scan again.
    #[tactic(auto, using(crate::proofs::Passes::same_on, crate::proofs::Passes::same_of_stays))]
    fn scan<R: Wait + Clock>(
        &self,
        rt: &R,
        guard: &mut Guard,
        key: &Key,
        txn: TxnId,
        ts: Timestamp,
    ) -> Result<Option<TakenLock<N>>, StoreError>
        requires of { guard.old.pass.of ≡ N.of }
        ensures same { IsSamePass guard.old.pass guard.new.pass }
        ensures took { IfOk result (λ o. IfSome o (λ t. IsLockOf N.of.shards key.now txn t.lock.key t.lock.txn t.lock.seen.seen t.lock.taken t.lock.values.log t.reading)) }
    {
        match self.cells.table.scan(rt, guard) {
            Ok(Scan::Proceed) => self.take(rt, guard, key, txn, ts),
            Ok(Scan::Rescan) => Ok(None),
            Ok(Scan::Waiting(_)) => {
                self.waits.fetch_add(1, Ordering::SeqCst);
                self.wait(rt, guard)?;
                Ok(None)
            }
            Ok(Scan::TooLong(_)) => Err(StoreError::TooLong),
            Err(ScanError::HistoryFull) => {
                thread::yield_now();
                Ok(None)
            }
            Err(ScanError::Memory) => Err(StoreError::Memory),
            Err(error) => Err(StoreError::Scan(error)),
        }
    }

    /// Takes the lock of a request that proceeds. `None` if another transaction holds it, or the key's shard is full.
    #[tactic(auto, using(crate::proofs::Passes::same_self))]
    fn take<R: Wait>(
        &self,
        rt: &R,
        guard: &mut Guard,
        key: &Key,
        txn: TxnId,
        ts: Timestamp,
    ) -> Result<Option<TakenLock<N>>, StoreError>
        requires of { guard.old.pass.of ≡ N.of }
        ensures same { IsSamePass guard.old.pass guard.new.pass }
        ensures took { IfOk result (λ o. IfSome o (λ t. IsLockOf N.of.shards key.now txn t.lock.key t.lock.txn t.lock.seen.seen t.lock.taken t.lock.values.log t.reading)) }
    {
        match self.cells.take_in(rt, guard, key.copy()?, txn, ts) {
            Ok(taken) => Ok(Some(taken)),
            Err(TakeError::Held) => Ok(None),
            Err(TakeError::Full) => {
                thread::yield_now();
                Ok(None)
            }
            Err(TakeError::Memory) => Err(StoreError::Memory),
        }
    }

    /// Leaves, and tries again while the table refuses.
    #[tactic(auto, using(crate::proofs::Passes::same_self, crate::proofs::Passes::same_on, crate::proofs::Passes::same_of_stays))]
    fn leave<R: Wait>(&self, rt: &R, guard: Guard) -> Pass
        requires of { guard.pass.of ≡ N.of }
        ensures same { IsSamePass guard.pass result }
    {
        let mut staying = guard;
        for _ in rt.forever() {
            match self.cells.table.leave(rt, staying) {
                Ok(Left { pass, answers: _ }) => return pass,
                Err(LeaveStopped { guard, error: _ }) => staying = guard,
            }
            thread::yield_now();
        }
        unreachable!()
    }
}

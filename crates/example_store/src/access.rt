//! How does a transaction read and write a key? If it holds the key's lock, at once; else it first takes the lock by a
//! request of the table (`src/request.rt`).
ghost use Rattle.std.specs.Prelude.{◌≡◌, ◌≢◌, ◌+◌, ◌<◌, ◌++◌, ◌∷◌, [], true, ℕ, Some, None, is_some, IsSome, IfOk, IsOkAnd, IfSome, IfNone, OnOk, OnErr, IsSomeAnd, MatchOption, slice_get, slice_set, length, position, take};
ghost use Rattle.std.specs.List.{All};
ghost use Rattle.std.specs.Str.{bytes_eq};
ghost use mathlib.Core.List.{IsPrefix};
ghost use Rattle.lt_words.specs.History.{part, shard_of};
ghost use Rattle.lt_walk.specs.Reported.{IsSamePass};
ghost use Rattle.example_cells.specs.Knowing.{CellMap, CellsKnow, ReadsCell, cell_at, value_bytes};
ghost use Rattle.example_cells.specs.declared.cell.CellReading.{CellReading};
ghost use Rattle.std.specs.Option.{option_map, option_and_then};
ghost use Rattle.example_store.specs.Locks.{IsLockedRead, LocksStay, OthersStay, own_put};

use crate::error::StoreError;
use crate::session::StoreSession;
use crate::store::Store;
use example_cells::{ActiveTxn, CellReading, HeldLock, Put, TakenLock};
use example_values::ValueName;
use lt_ids::Key;
use lt_words::{Name, Pass};
use std::alloc::{AllocError, Global};
use std::sync::Wait;
use std::time::Clock;

/// A copy of what was put.
fn put_again(alloc: Global, put: &Put) -> Result<Put, AllocError>
    ensures { IfOk result (λ p. value_bytes p ≡ value_bytes put.now) }
{
    let Some(bytes) = put else {
        return Ok(None);
    };
    let mut copy = Vec::with_capacity(alloc, bytes.len())?;
    copy.extend_from_slice(bytes)?;
    Ok(Some(copy))
}

/// The index of the lock of this key.
fn index_of<N: Name + ValueName>(locks: &[HeldLock<N>], key: &Key) -> Option<usize>
    ensures { result ≡ position (λ l. bytes_eq l.key key.now) locks.now }
{
    locks.iter().position(|lock| lock.key == *key)
}

/// The value that was read.
fn value_of(reading: Result<CellReading, AllocError>) -> Result<Option<Vec<u8>>, StoreError>
    ensures { IfOk result (λ v. IsOkAnd reading (λ r. r.value ≡ v)) }
{
    match reading {
        Ok(reading) => Ok(reading.value),
        Err(_) => Err(StoreError::Memory),
    }
}

impl<N: Name + ValueName> StoreSession<N> {
    /// Whether the transaction holds the lock of this key. `NoTxn` if there is no transaction.
    fn holds(&self, key: &Key) -> Result<bool, StoreError>
        ensures { IfOk result (λ held. IsSomeAnd self.now.txn (λ t. held ≡ is_some (position (λ l. bytes_eq l.key key.now) t.locks.items))) }
    {
        match &self.txn {
            Some(txn) => Ok(index_of(txn.locks.as_slice(), key).is_some()),
            None => Err(StoreError::NoTxn),
        }
    }
}

/// What was put at the key, if one of these locks is of the key, and anything was.
fn put_at<'a, N: Name + ValueName>(locks: &'a [HeldLock<N>], key: &Key) -> Option<&'a Put>
    ensures { option_map (λ p. p.now) result ≡ own_put (λ l. l.key) (λ l. l.put) key.now locks.now }
{
    match index_of(locks, key) {
        Some(index) => locks[index].put.as_ref(),
        None => None,
    }
}

/// What the transaction has put at the key, if it has put anything.
fn own_put<'a, N: Name + ValueName>(txn: &'a Option<ActiveTxn<N>>, key: &Key) -> Option<&'a Put>
    ensures { option_map (λ p. p.now) result ≡ option_and_then (λ t. own_put (λ l. l.key) (λ l. l.put) key.now t.locks.items) txn.now }
{
    match txn {
        Some(txn) => put_at(txn.locks.as_slice(), key),
        None => None,
    }
}

/// Puts at the key of the lock with this index.
fn set_put<N: Name + ValueName>(txn: &mut ActiveTxn<N>, index: usize, put: Put)
    requires { index < length txn.old.locks.items }
    ensures name { txn.new.name ≡ txn.old.name }
    ensures put { IsSomeAnd (slice_get txn.new.locks.items index) (λ l. l.put ≡ Some put) }
    ensures key { IsSomeAnd (slice_get txn.new.locks.items index) (λ l. IsSomeAnd (slice_get txn.old.locks.items index) (λ k. l.key ≡ k.key)) }
    ensures others { (j : ℕ) → j ≢ index → slice_get txn.new.locks.items j ≡ slice_get txn.old.locks.items j }
{
    txn.locks[index].put = Some(put);
}

impl<N: Name + ValueName> Store<N> {
    /// Reads the key: what the transaction itself has put there, and else what was committed last. Takes no lock, and waits
    /// for no transaction: *read committed*. So another transaction may change what was read before this one ends. The only
    /// errors are `NoPass`, and `Memory` if an allocation failed.
    pub fn get<R: Wait>(
        &self,
        rt: &R,
        session: &mut StoreSession<N>,
        key: &Key,
    ) -> Result<Option<Vec<u8>>, StoreError>
        ensures txn { session.new.txn ≡ session.old.txn }
        ensures log { session.new.log ≡ session.old.log }
        // What the transaction has put itself, it reads.
        ensures own { IfOk result (λ v. IfSome (option_and_then (λ t. own_put (λ l. l.key) (λ l. l.put) key.now t.locks.items) session.old.txn)
            (λ p. value_bytes v ≡ value_bytes p)) }
    {
        if let Some(put) = own_put(&session.txn, key) {
            return Ok(put_again(self.alloc, put)?);
        }
        self.read(rt, session, key)
    }

    /// Reads what was committed last at the key.
    #[tactic(auto, using(crate::proofs::Passes::begins_more))]
    fn read<R: Wait>(
        &self,
        rt: &R,
        session: &mut StoreSession<N>,
        key: &Key,
    ) -> Result<Option<Vec<u8>>, StoreError>
        ensures txn { session.new.txn ≡ session.old.txn }
        ensures log { session.new.log ≡ session.old.log }
    {
        match &mut session.slot.pass {
            Some(pass) => Ok(self.cells.read(rt, pass, key)?.value),
            None => Err(StoreError::NoPass),
        }
    }

    /// Takes the key's lock, unless the transaction holds it already, and reads the key. Waits until no other transaction
    /// holds the lock. If the transaction holds the lock, reads what it has put, or else the key's value, which no other
    /// transaction changes meanwhile.
    ///
    /// `NoTxn` if no transaction has begun, and `Deadlock` if the transaction has to give way. Any other error is one of the
    /// table, of the clock or of memory. After `Memory` the transaction may hold the lock, and the call may be made again.
    pub fn get_for_update<R: Wait + Clock>(
        &self,
        rt: &R,
        session: &mut StoreSession<N>,
        key: &Key,
    ) -> Result<Option<Vec<u8>>, StoreError>
        ensures log { session.new.log ≡ session.old.log }
        // What the transaction has put itself, it reads.
        ensures own { IfOk result (λ v. IfSome (option_and_then (λ t. own_put (λ l. l.key) (λ l. l.put) key.now t.locks.items) session.old.txn)
            (λ p. value_bytes v ≡ value_bytes p)) }
        // If the transaction did not hold the lock, this call took it, and read what all steps of the key's shard up to the
        // acquire have left. The log of values has it, if the reading says so.
        ensures took { IfOk result (λ v. IsSomeAnd session.old.txn (λ t. position (λ l. bytes_eq l.key key.now) t.locks.items ≡ None) →
            IsSomeAnd session.old.txn (λ t. IsSomeAnd session.new.txn
            (λ u. (l : _) × (u.locks.items ≡ t.locks.items ++ l ∷ []) × (l.key ≡ key.now)
            × (r : CellReading) × (r.value ≡ v) × IsLockedRead N.of.shards key.now l.seen.seen l.taken l.values.log r))) }
        // If it held the lock, it holds the same locks.
        ensures held { OnOk result (IsSomeAnd session.old.txn (λ t. IsSome (position (λ l. bytes_eq l.key key.now) t.locks.items)) →
            session.new.txn ≡ session.old.txn) }
    {
        if session.holds(key)? {
            return self.get(rt, session, key);
        }
        self.lock(rt, session, key)
    }

    /// Takes the key's lock, unless the transaction holds it already, and leaves a provisional value there. It becomes the
    /// key's value if the transaction commits. The errors are those of [`Store::get_for_update`].
    pub fn put<R: Wait + Clock>(
        &self,
        rt: &R,
        session: &mut StoreSession<N>,
        key: &Key,
        value: Vec<u8>,
    ) -> Result<(), StoreError>
        ensures log { session.new.log ≡ session.old.log }
        // What was put at other keys stays.
        ensures put { OnOk result (IsSomeAnd session.old.txn (λ t. IsSomeAnd session.new.txn (λ u. (u.name ≡ t.name)
            × (i : ℕ) × OthersStay t.locks.items u.locks.items i
            × IsSomeAnd (slice_get u.locks.items i) (λ l. (l.key ≡ key.now) × (l.put ≡ Some (Some value)))))) }
    {
        self.write(rt, session, key, Some(value))
    }

    /// [`Store::put`], by which the key has no value any more.
    pub fn delete<R: Wait + Clock>(
        &self,
        rt: &R,
        session: &mut StoreSession<N>,
        key: &Key,
    ) -> Result<(), StoreError>
        ensures log { session.new.log ≡ session.old.log }
        // What was put at other keys stays.
        ensures put { OnOk result (IsSomeAnd session.old.txn (λ t. IsSomeAnd session.new.txn (λ u. (u.name ≡ t.name)
            × (i : ℕ) × OthersStay t.locks.items u.locks.items i
            × IsSomeAnd (slice_get u.locks.items i) (λ l. (l.key ≡ key.now) × (l.put ≡ Some None))))) }
    {
        self.write(rt, session, key, None)
    }

    /// Puts at the key, whose lock the transaction takes unless it holds it.
    #[tactic(auto, using(crate::proofs::Passes::begins_more))]
    fn write<R: Wait + Clock>(
        &self,
        rt: &R,
        session: &mut StoreSession<N>,
        key: &Key,
        put: Put,
    ) -> Result<(), StoreError>
        ensures log { session.new.log ≡ session.old.log }
        // What was put at other keys stays.
        ensures put { OnOk result (IsSomeAnd session.old.txn (λ t. IsSomeAnd session.new.txn (λ u. (u.name ≡ t.name)
            × (i : ℕ) × OthersStay t.locks.items u.locks.items i
            × IsSomeAnd (slice_get u.locks.items i) (λ l. (l.key ≡ key.now) × (l.put ≡ Some put))))) }
    {
        let Some(txn) = &mut session.txn else {
            return Err(StoreError::NoTxn);
        };
        let Some(pass) = session.slot.take() else {
            return Err(StoreError::NoPass);
        };
        let (pass, written) = self.write_for(rt, pass, txn, key, put);
        session.slot.put(pass);
        written
    }

    fn write_for<R: Wait + Clock>(
        &self,
        rt: &R,
        pass: Pass,
        txn: &mut ActiveTxn<N>,
        key: &Key,
        put: Put,
    ) -> (Pass, Result<(), StoreError>)
        requires of { pass.of ≡ N.of }
        ensures same { IsSamePass pass result.0 }
        ensures name { txn.new.name ≡ txn.old.name }
        ensures put { OnOk result.1 ((txn.new.name ≡ txn.old.name)
            × (i : ℕ) × OthersStay txn.old.locks.items txn.new.locks.items i
            × IsSomeAnd (slice_get txn.new.locks.items i) (λ l. (l.key ≡ key.now) × (l.put ≡ Some put))) }
    {
        let (pass, held) = self.hold_for(rt, pass, txn, key);
        match held {
            Ok(index) => {
                set_put(txn, index, put);
                (pass, Ok(()))
            }
            Err(error) => (pass, Err(error)),
        }
    }

    /// The index of the lock of the key among the transaction's locks. Takes the lock if the transaction does not hold it.
    fn hold_for<R: Wait + Clock>(
        &self,
        rt: &R,
        pass: Pass,
        txn: &mut ActiveTxn<N>,
        key: &Key,
    ) -> (Pass, Result<usize, StoreError>)
        requires of { pass.of ≡ N.of }
        ensures same { IsSamePass pass result.0 }
        ensures name { txn.new.name ≡ txn.old.name }
        ensures key { IfOk result.1 (λ i. IsSomeAnd (slice_get txn.new.locks.items i) (λ l. l.key ≡ key.now)) }
        ensures stay { OnOk result.1 (LocksStay txn.old.locks.items txn.new.locks.items) }
    {
        if let Some(index) = index_of(txn.locks.as_slice(), key) {
            return (pass, Ok(index));
        }
        let index = txn.locks.len();
        match self.lock_for(rt, pass, txn, key) {
            (pass, Ok(_)) => (pass, Ok(index)),
            (pass, Err(error)) => (pass, Err(error)),
        }
    }

    /// Takes the key's lock for the session's transaction, and returns what was read of the key.
    #[tactic(auto, using(crate::proofs::Passes::begins_more))]
    fn lock<R: Wait + Clock>(
        &self,
        rt: &R,
        session: &mut StoreSession<N>,
        key: &Key,
    ) -> Result<Option<Vec<u8>>, StoreError>
        ensures log { session.new.log ≡ session.old.log }
        ensures took { IfOk result (λ v. IsSomeAnd session.old.txn (λ t. IsSomeAnd session.new.txn
            (λ u. (l : _) × (u.locks.items ≡ t.locks.items ++ l ∷ []) × (l.key ≡ key.now)
            × (r : CellReading) × (r.value ≡ v) × IsLockedRead N.of.shards key.now l.seen.seen l.taken l.values.log r))) }
    {
        let Some(txn) = &mut session.txn else {
            return Err(StoreError::NoTxn);
        };
        let Some(pass) = session.slot.take() else {
            return Err(StoreError::NoPass);
        };
        let (pass, read) = self.lock_for(rt, pass, txn, key);
        session.slot.put(pass);
        read
    }

    /// Takes the key's lock by a request, notes it, and returns what was read of the key. If an allocation fails, the lock may
    /// have been taken; it is then noted.
    fn lock_for<R: Wait + Clock>(
        &self,
        rt: &R,
        pass: Pass,
        txn: &mut ActiveTxn<N>,
        key: &Key,
    ) -> (Pass, Result<Option<Vec<u8>>, StoreError>)
        requires of { pass.of ≡ N.of }
        ensures same { IsSamePass pass result.0 }
        ensures name { txn.new.name ≡ txn.old.name }
        ensures took { IfOk result.1 (λ v. (l : _) × (txn.new.locks.items ≡ txn.old.locks.items ++ l ∷ []) × (l.key ≡ key.now)
            × (r : CellReading) × (r.value ≡ v) × IsLockedRead N.of.shards key.now l.seen.seen l.taken l.values.log r) }
    {
        // The note takes its memory before the lock is taken, so no lock is ever held without a note.
        if txn.reserve().is_err() {
            return (pass, Err(StoreError::Memory));
        }
        let (pass, taken) = self.request(rt, pass, key, txn.name.id, txn.ts);
        match taken {
            Ok(TakenLock { lock, reading }) => {
                txn.note(lock);
                (pass, value_of(reading))
            }
            Err(error) => (pass, Err(error)),
        }
    }
}

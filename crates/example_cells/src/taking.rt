//! How does a transaction take a key's lock and read the key? In one critical section, so that what it reads is what the
//! transaction left whose tenure of the lock ended last, among all steps of the key's shard.
ghost use Rattle.std.specs.Prelude.{◌≡◌, ◌≢◌, ◌+◌, true, Some, Err, IfOk};
ghost use mathlib.Core.List.{IsPrefix};
ghost use Rattle.lt_words.specs.History.{part, shard_of};
ghost use Rattle.example_cells.specs.Knowing.{ReadsCell, cell_at};
ghost use Rattle.example_cells.specs.Committing.{IsReadAfter};
ghost use Rattle.example_cells.specs.Leaving.{IsReadingLeft};

use crate::cell::{CellReading, Owner};
use crate::cell_table::CellTable;
use crate::cells::Cells;
use crate::held::HeldLock;
use example_values::{SeenValues, ValueName};
use lt_ids::{Key, Timestamp, TxnId};
use lt_rules::{KeyTable, Reply};
use lt_table_core::{Guard, StepError};
use lt_words::{Keeping, Name, Pass};
use std::alloc::{AllocError, Global};
use std::sync::Wait;

/// Why a transaction did not get a key's lock, or did not read the key.
#[derive(Clone, Copy, Debug, PartialEq, Eq)]
pub enum TakeError {
    /// Another transaction holds the lock.
    Held,
    /// The key's shard holds as many steps as it may: until some are taken out, or forever. The lock was not taken.
    Full,
    /// An allocation failed. The lock was not taken.
    Memory,
}

/// A lock that was taken, and what was read of its key in the same moment. The reading has failed if an allocation did.
#[derive(Drop)]
pub struct TakenLock<N: Name + ValueName> {
    pub lock: HeldLock<N>,
    pub reading: Result<CellReading, AllocError>,
}

impl<N: Name + ValueName, T: KeyTable> CellTable<N, T> {
    /// Takes the lock of the key for this transaction, and reads the key in the same critical section.
    pub fn take<R: Wait>(
        &self,
        rt: &R,
        pass: &mut Pass,
        key: Key,
        txn: TxnId,
        ts: Timestamp,
    ) -> Result<TakenLock<N>, TakeError>
        requires of { pass.old.of ≡ N.of }
        ensures of { pass.new.of ≡ N.of }
        ensures number { pass.new.number ≡ pass.old.number }
        ensures more { IsPrefix pass.old.seen pass.new.seen }
        ensures key { IfOk result (λ t. t.lock.key ≡ key) }
        ensures txn { IfOk result (λ t. t.lock.txn ≡ txn) }
        ensures seen { IfOk result (λ t. t.lock.seen.seen ≡ pass.new.seen) }
        ensures read { IfOk result (λ t. IfOk t.reading (λ r.
            IsReadAfter (part (shard_of key N.of.shards) pass.new.seen) (t.lock.taken + 1) key r)) }
        ensures left { IfOk result (λ t. IfOk t.reading (λ r. IsReadingLeft N.of.shards t.lock.values.log key r)) }
        ensures never_full { N.of.keeping ≡ Keeping.Unrecorded → result ≢ Err TakeError.Full }
    {
        let alloc = self.alloc;
        let answered = self.table.acquire_then(
            rt,
            pass,
            &key,
            txn,
            ts,
            |cells: &Cells<N>| -> (Result<CellReading, AllocError>, SeenValues)
                ensures reads { IfOk result.0 (λ r. ReadsCell (cell_at cells.now.map key) r) }
                ensures book { result.1.book ≡ N.values }
                ensures left { IfOk result.0 (λ r. IsReadingLeft N.of.shards result.1.log key r) }
            { (cells.read(alloc, &key), cells.seen.again()) },
        );
        let (answer, (reading, values)) = match answered {
            Ok(answered) => answered,
            Err(StepError::HistoryFull) => return Err(TakeError::Full),
            Err(StepError::Memory) => return Err(TakeError::Memory),
        };
        let Reply::Taken = answer.reply else {
            return Err(TakeError::Held);
        };
        let lock = HeldLock::new(key, txn, ts, answer.at, pass.seen(), values);
        Ok(TakenLock { lock, reading })
    }

    /// [`CellTable::take`] through the pass of a guard.
    pub fn take_in<R: Wait>(
        &self,
        rt: &R,
        guard: &mut Guard,
        key: Key,
        txn: TxnId,
        ts: Timestamp,
    ) -> Result<TakenLock<N>, TakeError>
        requires of { guard.old.pass.of ≡ N.of }
        ensures of { guard.new.pass.of ≡ N.of }
        ensures number { guard.new.pass.number ≡ guard.old.pass.number }
        ensures more { IsPrefix guard.old.pass.seen guard.new.pass.seen }
        ensures walk { guard.new.walk ≡ guard.old.walk }
        ensures key { IfOk result (λ t. t.lock.key ≡ key) }
        ensures txn { IfOk result (λ t. t.lock.txn ≡ txn) }
        ensures seen { IfOk result (λ t. t.lock.seen.seen ≡ guard.new.pass.seen) }
        ensures read { IfOk result (λ t. IfOk t.reading (λ r.
            IsReadAfter (part (shard_of key N.of.shards) guard.new.pass.seen) (t.lock.taken + 1) key r)) }
        ensures left { IfOk result (λ t. IfOk t.reading (λ r. IsReadingLeft N.of.shards t.lock.values.log key r)) }
        ensures never_full { N.of.keeping ≡ Keeping.Unrecorded → result ≢ Err TakeError.Full }
    {
        guard.with_pass(
            |pass: &mut Pass| -> Result<TakenLock<N>, TakeError>
                requires { pass.old.of ≡ N.of }
                ensures of { pass.new.of ≡ N.of }
                ensures number { pass.new.number ≡ pass.old.number }
                ensures more { IsPrefix pass.old.seen pass.new.seen }
                ensures key { IfOk result (λ t. t.lock.key ≡ key) }
                ensures txn { IfOk result (λ t. t.lock.txn ≡ txn) }
                ensures seen { IfOk result (λ t. t.lock.seen.seen ≡ pass.new.seen) }
                ensures read { IfOk result (λ t. IfOk t.reading (λ r.
                    IsReadAfter (part (shard_of key N.of.shards) pass.new.seen) (t.lock.taken + 1) key r)) }
                ensures left { IfOk result (λ t. IfOk t.reading (λ r. IsReadingLeft N.of.shards t.lock.values.log key r)) }
                ensures never_full { N.of.keeping ≡ Keeping.Unrecorded → result ≢ Err TakeError.Full }
            { self.take(rt, pass, key, txn, ts) },
        )
    }
}

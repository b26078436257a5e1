//! How does a test make a chosen call run out of memory? [`Scarce`] is a plain table that fails one call that
//! allocates.
//!
//! The contract of a key table says which calls may fail for memory. This table fails two of them: an acquire of a key
//! that has no record, and a write without a bound that waits. [`crate::out_of_memory`] plays rows on it.
ghost use Rattle.std.specs.Prelude.{◌≡◌, IsTrue, true};
ghost use Rattle.lt_rules.specs.Rules.{is_empty, is_txn};
ghost use Rattle.lt_rules.specs.Table.{AreSound, record_at};
ghost use Rattle.lt_stub_table_tests.specs.Scarce.{MayFail, WaitsToWrite};

use lt_ids::{Access, Key, Through, TxnId};
use lt_plain::PlainTable;
use lt_rules::{Call, KeyState, KeyTable, QueueLengths, Reply};
use std::alloc::{AllocError, Global};

/// Whether a request's transaction is `txn`.
fn is_txn(own: Option<TxnId>, txn: TxnId) -> bool
    ensures { result ≡ is_txn own txn }
{
    match own {
        None => false,
        Some(own) => own == txn,
    }
}

/// Whether the key has no record.
fn is_empty(state: &KeyState) -> bool
    ensures { IsTrue result → is_empty state.now ≡ true }
{
    state.holder.is_none()
        && state.reservation.is_none()
        && state.writers.is_empty()
        && state.readers.is_empty()
        && state.distinguished.is_none()
}

/// Whether another transaction holds the lock, so that a write of transaction `own` without a bound waits.
fn is_kept_out(state: &KeyState, own: Option<TxnId>) -> bool
    ensures { IsTrue result → WaitsToWrite state.now own }
{
    let Some(holder) = state.holder else {
        return false;
    };
    !is_txn(own, holder.txn)
}

/// Whether this table may fail the call at a key in this state.
fn may_fail(state: &KeyState, call: &Call) -> bool
    ensures { IsTrue result → MayFail state.now call.now }
{
    match *call {
        Call::Acquire { .. } => is_empty(state),
        Call::Visit {
            txn,
            access: Access::Write,
            longest: 0,
            ..
        } => is_kept_out(state, txn),
        _ => false,
    }
}

/// A plain table in which one of the calls that allocate runs out of memory.
#[derive(Drop)]
pub struct Scarce {
    alloc: Global,
    table: PlainTable,
    /// How many calls have allocated so far.
    counted: u32,
    /// How many of them succeed before the one that fails.
    before: u32,
}

impl Scarce {
    ghost use Rattle.std.specs.FinMap as finmap;

    /// An empty table that fails one call: the one after `before` calls that allocate.
    pub fn new(alloc: Global, before: u32) -> Self
        ensures { result.table ≡ finmap.empty }
    {
        Scarce {
            alloc,
            table: PlainTable::new(alloc),
            counted: 0,
            before,
        }
    }

    /// Counts a call that allocates. True if it is the one that fails.
    fn fails(&mut self, allocates: bool, key: &Key) -> bool
        ensures same { self.new.table ≡ self.old.table }
        ensures sound { AreSound self.new.table }
        ensures only { IsTrue result → IsTrue allocates }
    {
        // Ghost call: tells the prover that the records are sound.
        let _ = self.table.look(key, 1);
        if !allocates {
            return false;
        }
        let is_last = self.counted == self.before;
        self.counted = self.counted.wrapping_add(1);
        is_last
    }

    fn may_fail(&self, key: &Key, call: &Call) -> bool
        ensures { IsTrue result → MayFail (record_at self.now.table key.now) call.now }
    {
        match self.table.state(self.alloc, key) {
            Ok(state) => may_fail(&state, call),
            Err(_) => false,
        }
    }
}

impl KeyTable for Scarce {
    ghost records = { λ t. t.table };

    fn step(
        &mut self,
        key: &Key,
        pass: u32,
        call: &Call,
        lets: &mut Vec<Through>,
    ) -> Result<Reply, AllocError> {
        let allocates = self.may_fail(key, call);
        if self.fails(allocates, key) {
            return Err(AllocError);
        }
        self.table.step(key, pass, call, lets)
    }

    fn look(&self, key: &Key, number: u64) -> Reply {
        self.table.look(key, number)
    }

    fn lengths(&self, key: &Key) -> QueueLengths {
        self.table.lengths(key)
    }

    fn state(&self, alloc: Global, key: &Key) -> Result<KeyState, AllocError> {
        self.table.state(alloc, key)
    }

    fn keys(&self, alloc: Global) -> Result<Vec<Key>, AllocError> {
        self.table.keys(alloc)
    }

    fn keys_after(
        &self,
        alloc: Global,
        after: Option<&Key>,
        at_most: usize,
    ) -> Result<Vec<Key>, AllocError> {
        self.table.keys_after(alloc, after, at_most)
    }
}

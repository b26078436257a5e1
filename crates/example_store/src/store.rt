//! What is the store? A table of locks with the keys' values beside the shards, behind the shards' own locks
//! ([`CellTable`]). How it is opened and filled is here, and how a transaction begins.
//!
//! **Locks.** A transaction takes a key's lock before it writes the key, or reads it to write it, and holds the lock until
//! it ends. The acquire and the read of the key are one critical section of the key's shard, and so are the finish and
//! what it installs.
//!
//! **Isolation.** Transactions that read by [`Store::get_for_update`] and write by [`Store::put`] and [`Store::delete`] go
//! one after the other (`src/closing.rt`). [`Store::get`] takes no lock, and is *read committed*: it reads what some
//! transaction committed, and two of them in one transaction may read values of which no order of the transactions makes
//! sense. So two transactions that each read by `get` what the other one writes may both commit: *write skew*, which
//! `src/skew.rt` of `example_bank` shows.
//!
//! Read next `src/access.rt`.
ghost use Rattle.std.specs.Prelude.{◌≡◌, ◌<◌, ◌≢◌, [], true, None, Err, IfOk, OnOk, OnErr, IsSome, IsSomeAnd, length};
ghost use Rattle.std.specs.Arc.{arc_value};
ghost use Rattle.std.specs.List.{All};
ghost use Rattle.lt_words.specs.Row.{fresh_passes};
ghost use Rattle.example_cells.specs.Knowing.{CellsKnow};
ghost use Rattle.lt_walk.specs.Taken.{IsTaken, reader_after};
ghost use Rattle.example_store.specs.Sessions.{IsSeenIn};

use crate::error::StoreError;
use crate::session::StoreSession;
use example_cells::{ActiveTxn, CellTable, Cells, DrawnName};
use example_values::{ValueBook, ValueName};
use lt_entry::Entry;
use lt_ids::{Key, Timestamp};
use lt_table::{Keeping, LinkedTable, Reader, Ready, open_valued};
use lt_words::{Name, Pass};
use std::alloc::{AllocError, Global};
use std::sync::atomic::{AtomicU64, Ordering};
use std::sync::{Arc, Wait};

/// A store that threads share. `N` names the table of its locks.
#[derive(Drop)]
pub struct Store<N: Name + ValueName> {
    pub(crate) alloc: Global,
    /// The locks and the values. A trace takes its steps from here.
    pub cells: CellTable<N, LinkedTable>,
    /// How many shards the table has.
    pub(crate) shards: usize,
    /// The number of the request that has to give way, if not 0 (`src/deadlock.rt`).
    pub(crate) doomed: AtomicU64,
    /// How many waits began.
    pub(crate) waits: AtomicU64,
    pub ghost many: { shards ≡ N.of.shards },
}

impl<N: Name + ValueName> Store<N> {
    /// Opens the table of a prepared book, with no values. `N` names the book that was prepared, and the log of values. Keys are
    /// hashed from this start (`lt_table::random_start`). If an allocation fails, the passes are given up with the book.
    pub fn open(
        alloc: Global,
        ready: Ready,
        start: u64,
        values: Arc<ValueBook>,
    ) -> Result<(Store<N>, Vec<Pass>), AllocError>
        requires named { ready.of ≡ N.of }
        requires values { arc_value values ≡ N.values }
        ensures passes { IfOk result (λ r. r.1.items ≡ fresh_passes N.of N.of.passes) }
        ensures of { IfOk result (λ r. All (λ p. p.of ≡ N.of) r.1.items) }
    {
        let shards = ready.config().shards;
        let (table, passes) = open_valued::<N, Cells<N>, _>(
            alloc,
            ready,
            start,
            |_: usize| -> Result<Cells<N>, AllocError>
                requires book { arc_value values ≡ N.values }
                requires many { shards ≡ N.of.shards }
                ensures { IfOk result (λ v. CellsKnow [] v.map) }
            { Ok(Cells::new(alloc, start, Arc::try_clone(&values)?, shards)) },
        )?;
        let store = Store {
            alloc,
            cells: CellTable::new(alloc, table),
            shards,
            doomed: AtomicU64::new(0),
            waits: AtomicU64::new(0),
        };
        Ok((store, passes))
    }

    /// How many waits began since the store was opened.
    pub fn waits(&self) -> u64 {
        self.waits.load(Ordering::SeqCst)
    }

    /// Gives the key this value, whoever holds its lock: for a store that is filled before transactions begin. After an
    /// error the key is as before.
    #[tactic(auto, using(crate::proofs::Passes::begins_more))]
    pub fn load<R: Wait>(
        &self,
        rt: &R,
        session: &mut StoreSession<N>,
        key: &Key,
        value: Vec<u8>,
    ) -> Result<(), StoreError>
        ensures txn { session.new.txn ≡ session.old.txn }
        ensures log { session.new.log ≡ session.old.log }
    {
        let Some(pass) = &mut session.slot.pass else {
            return Err(StoreError::NoPass);
        };
        Ok(self.cells.load(rt, pass, key, Some(value))?)
    }

    /// Begins a transaction. Its timestamp is the number that was drawn as its name, so of two transactions the one that
    /// began later has the greater one. `TxnOpen` if the session has a transaction, and `NumbersOut` if the numbers are
    /// used up. Makes room in the session's log, so that the commit needs no memory for it.
    pub fn begin(&self, session: &mut StoreSession<N>) -> Result<Timestamp, StoreError>
        ensures begun { IfOk result (λ ts. IsSomeAnd session.new.txn (λ t. (t.ts ≡ ts) × (ts.wall ≡ t.name.id) × (t.locks.items ≡ []))) }
        ensures open { IsSome session.old.txn → result ≡ Err StoreError.TxnOpen }
        ensures commits { session.new.log.commits ≡ session.old.log.commits }
        ensures err { OnErr result (session.new.txn ≡ session.old.txn) }
    {
        let name = self.name(session)?;
        let ts = Timestamp {
            wall: name.id.number(),
            logical: 0,
        };
        session.txn = Some(ActiveTxn::new(self.alloc, name, ts));
        Ok(ts)
    }

    /// Begins a transaction again that gave way in a deadlock: under a name of its own, but at the timestamp of its first
    /// try. So it grows older than all others, and no deadlock is then resolved at its cost. The errors are those of
    /// [`Store::begin`].
    pub fn begin_again(
        &self,
        session: &mut StoreSession<N>,
        ts: Timestamp,
    ) -> Result<(), StoreError>
        ensures begun { OnOk result (IsSomeAnd session.new.txn (λ t. (t.ts ≡ ts) × (t.locks.items ≡ []))) }
        ensures open { IsSome session.old.txn → result ≡ Err StoreError.TxnOpen }
        ensures commits { session.new.log.commits ≡ session.old.log.commits }
        ensures err { OnErr result (session.new.txn ≡ session.old.txn) }
    {
        let name = self.name(session)?;
        session.txn = Some(ActiveTxn::new(self.alloc, name, ts));
        Ok(())
    }

    /// Makes room in the session's log, and draws a name for a transaction.
    #[tactic(auto, using(crate::proofs::Passes::begins_more))]
    fn name(&self, session: &mut StoreSession<N>) -> Result<DrawnName<N>, StoreError>
        ensures none { OnOk result (session.old.txn ≡ None) }
        ensures own { IfOk result (λ n. n.pass ≡ session.new.log.pass) }
        ensures after { IfOk result (λ n. IsSeenIn session.new.log.seen n.began.seen) }
        ensures room { OnOk result (length session.new.log.commits < session.new.log.capacity) }
        ensures txn { session.new.txn ≡ session.old.txn }
        ensures open { IsSome session.old.txn → result ≡ Err StoreError.TxnOpen }
        ensures commits { session.new.log.commits ≡ session.old.log.commits }
    {
        if session.txn.is_some() {
            return Err(StoreError::TxnOpen);
        }
        session.log.reserve()?;
        let Some(pass) = &mut session.slot.pass else {
            return Err(StoreError::NoPass);
        };
        match self.cells.name(pass) {
            Some(name) => Ok(name),
            None => Err(StoreError::NumbersOut),
        }
    }

    /// Takes out the steps of a streamed table that this reader was not given yet (`Table::take_next`). False if they were not
    /// taken: then another reader took steps of the shard, or the session has no pass.
    #[tactic(auto, using(crate::proofs::Passes::begins_more))]
    pub fn take_next<R: Wait>(
        &self,
        rt: &R,
        session: &mut StoreSession<N>,
        reader: &mut Reader,
        steps: &mut Vec<Entry>,
    ) -> bool
        requires shard { reader.old.shard < N.of.shards }
        requires keeping { N.of.keeping ≢ Keeping.Whole }
        requires empty { steps.old.items ≡ [] }
        ensures taken { result ≡ true → IsSomeAnd session.new.slot.pass (λ p. IsTaken reader.old.shard p.seen reader.old.next steps.new.items) }
        ensures next { result ≡ true → reader.new ≡ reader_after reader.old steps.new.items }
        ensures shard { reader.new.shard ≡ reader.old.shard }
    {
        match &mut session.slot.pass {
            Some(pass) => self.cells.table.take_next(rt, pass, reader, steps).is_ok(),
            None => false,
        }
    }
}

//! How does a transaction take, raise and free its locks, and how does a request look at what it waits for? The
//! calls of a transaction come in two forms: by a pass, and (named `.._in`) by the pass of a guard. A look is by a
//! guard.
ghost use Rattle.std.specs.Prelude.{◌≡◌, ◌≢◌, ◌<◌, Err, IfOk, IfErr, OnErr, length};
ghost use Rattle.lt_rules.specs.declared.call.Call.TheVariants.{Acquire, Update, Finish};
ghost use Rattle.lt_walk.specs.Reported.{ReportsCall, ReportsLook};
ghost use Rattle.lt_try.specs.Refused.{RefusesForOthers};

use crate::error::TryError;
use crate::table::TryTable;
use lt_ids::{Key, Timestamp, TxnId};
use lt_rules::{Call, KeyTable};
use lt_shard::{Answer, EmptyTables};
use lt_walk::{Guard, KeySteps, look_on, step_in};
use lt_words::{Keeping, Pass, Waker};

/// Each call makes one key step in the key's shard. It is refused if another caller is in the shard (`Busy`), if the shard
/// holds as many steps as it may (a shard that records none never does), or if an allocation fails. After a refusal the
/// pass is as it was ([`TryError`] says more of `Lost`).
///
/// In a table that records no steps, an update, a finish and a look are refused only as `Busy` or `Lost`: whoever holds a
/// lock can give it up as soon as nobody else is in the shard.
impl<T: KeyTable + Drop, M: EmptyTables<T>, W: Waker> TryTable<T, M, W> {
    /// The transaction takes the lock of the key, or raises the timestamp of the lock that it holds.
    pub fn acquire(
        &self,
        pass: &mut Pass,
        key: &Key,
        txn: TxnId,
        ts: Timestamp,
    ) -> Result<Answer, TryError>
        requires pass { pass.old.of ≡ self.now.of }
        ensures ok { IfOk result (λ a. ReportsCall pass.old pass.new key.now (Acquire txn ts) a) }
        ensures err { OnErr result (pass.new ≡ pass.old) }
        ensures never_full { self.now.of.keeping ≡ Keeping.Unrecorded → result ≢ Err TryError.HistoryFull }
    {
        self.step(pass, key, &Call::Acquire { txn, ts })
    }

    /// The transaction raises the timestamp of the lock that it holds.
    pub fn update(
        &self,
        pass: &mut Pass,
        key: &Key,
        txn: TxnId,
        ts: Timestamp,
    ) -> Result<Answer, TryError>
        requires pass { pass.old.of ≡ self.now.of }
        ensures ok { IfOk result (λ a. ReportsCall pass.old pass.new key.now (Update txn ts) a) }
        ensures err { OnErr result (pass.new ≡ pass.old) }
        ensures always { IfErr result (λ e. RefusesForOthers self.now.of.keeping e) }
    {
        self.step(pass, key, &Call::Update { txn, ts })
    }

    /// The transaction frees the lock that it holds.
    pub fn finish(&self, pass: &mut Pass, key: &Key, txn: TxnId) -> Result<Answer, TryError>
        requires pass { pass.old.of ≡ self.now.of }
        ensures ok { IfOk result (λ a. ReportsCall pass.old pass.new key.now (Finish txn) a) }
        ensures err { OnErr result (pass.new ≡ pass.old) }
        ensures always { IfErr result (λ e. RefusesForOthers self.now.of.keeping e) }
    {
        self.step(pass, key, &Call::Finish { txn })
    }

    /// [`TryTable::acquire`] through the pass of a guard.
    pub fn acquire_in(
        &self,
        guard: &mut Guard,
        key: &Key,
        txn: TxnId,
        ts: Timestamp,
    ) -> Result<Answer, TryError>
        requires pass { guard.old.pass.of ≡ self.now.of }
        ensures ok { IfOk result (λ a. ReportsCall guard.old.pass guard.new.pass key.now (Acquire txn ts) a) }
        ensures err { OnErr result (guard.new ≡ guard.old) }
        ensures never_full { self.now.of.keeping ≡ Keeping.Unrecorded → result ≢ Err TryError.HistoryFull }
        ensures walk { guard.new.walk ≡ guard.old.walk }
    {
        step_in(self, guard, key, &Call::Acquire { txn, ts })
    }

    /// [`TryTable::update`] through the pass of a guard.
    pub fn update_in(
        &self,
        guard: &mut Guard,
        key: &Key,
        txn: TxnId,
        ts: Timestamp,
    ) -> Result<Answer, TryError>
        requires pass { guard.old.pass.of ≡ self.now.of }
        ensures ok { IfOk result (λ a. ReportsCall guard.old.pass guard.new.pass key.now (Update txn ts) a) }
        ensures err { OnErr result (guard.new ≡ guard.old) }
        ensures always { IfErr result (λ e. RefusesForOthers self.now.of.keeping e) }
        ensures walk { guard.new.walk ≡ guard.old.walk }
    {
        step_in(self, guard, key, &Call::Update { txn, ts })
    }

    /// [`TryTable::finish`] through the pass of a guard.
    pub fn finish_in(&self, guard: &mut Guard, key: &Key, txn: TxnId) -> Result<Answer, TryError>
        requires pass { guard.old.pass.of ≡ self.now.of }
        ensures ok { IfOk result (λ a. ReportsCall guard.old.pass guard.new.pass key.now (Finish txn) a) }
        ensures err { OnErr result (guard.new ≡ guard.old) }
        ensures always { IfErr result (λ e. RefusesForOthers self.now.of.keeping e) }
        ensures walk { guard.new.walk ≡ guard.old.walk }
    {
        step_in(self, guard, key, &Call::Finish { txn })
    }

    /// What the request finds at the key with this index in its list, from 0. A look is a key step too; it changes
    /// no record.
    pub fn look(&self, guard: &mut Guard, index: usize) -> Result<Answer, TryError>
        requires pass { guard.old.pass.of ≡ self.now.of }
        requires index { index < length guard.old.walk.asked.keys }
        ensures ok { IfOk result (λ a. ReportsLook guard.old guard.new index a) }
        ensures err { OnErr result (guard.new ≡ guard.old) }
        ensures always { IfErr result (λ e. RefusesForOthers self.now.of.keeping e) }
        ensures walk { guard.new.walk ≡ guard.old.walk }
    {
        look_on(self, guard, index)
    }
}

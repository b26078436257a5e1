//! How does a transaction take, raise and free its locks, and how does a request look at what it waits for? The
//! calls of a transaction come in two forms: by a pass, and (named `.._in`) by the pass of a guard. A look is by a
//! guard.
ghost use Rattle.std.specs.Prelude.{◌≡◌, ◌≢◌, ◌<◌, Err, IfOk, IsOk, OnErr, length};
ghost use Rattle.lt_rules.specs.declared.call.Call.TheVariants.{Acquire, Update, Finish};
ghost use Rattle.lt_walk.specs.Reported.{ReportsCall, ReportsLook};

use crate::key_steps::Blocking;
use crate::shard_value::ShardValue;
use crate::table::Table;
use lt_ids::{Key, Timestamp, TxnId};
use lt_rules::{Call, KeyTable};
use lt_shard::{Answer, StepError};
use lt_walk::{Guard, KeySteps, look_on, step_in};
use lt_words::{Keeping, Name, Pass, Waker};
use std::sync::Wait;

/// Each call makes one key step under the lock of the key's shard. It is refused if the shard holds as many steps
/// as it may (a shard that records none never does), or if an allocation fails. After a refusal nothing has
/// changed.
///
/// In a table that records no steps, an update, a finish and a look are never refused, however little memory there
/// is: whoever holds a lock can always give it up.
impl<N: Name, T: KeyTable, W: Waker, V: ShardValue> Table<N, T, W, V> {
    /// The transaction takes the lock of the key, or raises the timestamp of the lock that it holds.
    pub fn acquire<R: Wait>(
        &self,
        rt: &R,
        pass: &mut Pass,
        key: &Key,
        txn: TxnId,
        ts: Timestamp,
    ) -> Result<Answer, StepError>
        requires pass { pass.old.of ≡ N.of }
        ensures ok { IfOk result (λ a. ReportsCall pass.old pass.new key.now (Acquire txn ts) a) }
        ensures err { OnErr result (pass.new ≡ pass.old) }
        ensures never_full { N.of.keeping ≡ Keeping.Unrecorded → result ≢ Err StepError.HistoryFull }
    {
        Blocking { rt, table: self }.step(pass, key, &Call::Acquire { txn, ts })
    }

    /// The transaction raises the timestamp of the lock that it holds.
    pub fn update<R: Wait>(
        &self,
        rt: &R,
        pass: &mut Pass,
        key: &Key,
        txn: TxnId,
        ts: Timestamp,
    ) -> Result<Answer, StepError>
        requires pass { pass.old.of ≡ N.of }
        ensures ok { IfOk result (λ a. ReportsCall pass.old pass.new key.now (Update txn ts) a) }
        ensures err { OnErr result (pass.new ≡ pass.old) }
        ensures never_full { N.of.keeping ≡ Keeping.Unrecorded → result ≢ Err StepError.HistoryFull }
        ensures always { N.of.keeping ≡ Keeping.Unrecorded → IsOk result }
    {
        Blocking { rt, table: self }.step(pass, key, &Call::Update { txn, ts })
    }

    /// The transaction frees the lock that it holds.
    pub fn finish<R: Wait>(
        &self,
        rt: &R,
        pass: &mut Pass,
        key: &Key,
        txn: TxnId,
    ) -> Result<Answer, StepError>
        requires pass { pass.old.of ≡ N.of }
        ensures ok { IfOk result (λ a. ReportsCall pass.old pass.new key.now (Finish txn) a) }
        ensures err { OnErr result (pass.new ≡ pass.old) }
        ensures never_full { N.of.keeping ≡ Keeping.Unrecorded → result ≢ Err StepError.HistoryFull }
        ensures always { N.of.keeping ≡ Keeping.Unrecorded → IsOk result }
    {
        Blocking { rt, table: self }.step(pass, key, &Call::Finish { txn })
    }

    /// [`Table::acquire`] through the pass of a guard.
    pub fn acquire_in<R: Wait>(
        &self,
        rt: &R,
        guard: &mut Guard,
        key: &Key,
        txn: TxnId,
        ts: Timestamp,
    ) -> Result<Answer, StepError>
        requires pass { guard.old.pass.of ≡ N.of }
        ensures ok { IfOk result (λ a. ReportsCall guard.old.pass guard.new.pass key.now (Acquire txn ts) a) }
        ensures err { OnErr result (guard.new ≡ guard.old) }
        ensures never_full { N.of.keeping ≡ Keeping.Unrecorded → result ≢ Err StepError.HistoryFull }
        ensures walk { guard.new.walk ≡ guard.old.walk }
    {
        step_in(
            &Blocking { rt, table: self },
            guard,
            key,
            &Call::Acquire { txn, ts },
        )
    }

    /// [`Table::update`] through the pass of a guard.
    pub fn update_in<R: Wait>(
        &self,
        rt: &R,
        guard: &mut Guard,
        key: &Key,
        txn: TxnId,
        ts: Timestamp,
    ) -> Result<Answer, StepError>
        requires pass { guard.old.pass.of ≡ N.of }
        ensures ok { IfOk result (λ a. ReportsCall guard.old.pass guard.new.pass key.now (Update txn ts) a) }
        ensures err { OnErr result (guard.new ≡ guard.old) }
        ensures never_full { N.of.keeping ≡ Keeping.Unrecorded → result ≢ Err StepError.HistoryFull }
        ensures always { N.of.keeping ≡ Keeping.Unrecorded → IsOk result }
        ensures walk { guard.new.walk ≡ guard.old.walk }
    {
        step_in(
            &Blocking { rt, table: self },
            guard,
            key,
            &Call::Update { txn, ts },
        )
    }

    /// [`Table::finish`] through the pass of a guard.
    pub fn finish_in<R: Wait>(
        &self,
        rt: &R,
        guard: &mut Guard,
        key: &Key,
        txn: TxnId,
    ) -> Result<Answer, StepError>
        requires pass { guard.old.pass.of ≡ N.of }
        ensures ok { IfOk result (λ a. ReportsCall guard.old.pass guard.new.pass key.now (Finish txn) a) }
        ensures err { OnErr result (guard.new ≡ guard.old) }
        ensures never_full { N.of.keeping ≡ Keeping.Unrecorded → result ≢ Err StepError.HistoryFull }
        ensures always { N.of.keeping ≡ Keeping.Unrecorded → IsOk result }
        ensures walk { guard.new.walk ≡ guard.old.walk }
    {
        step_in(
            &Blocking { rt, table: self },
            guard,
            key,
            &Call::Finish { txn },
        )
    }

    /// What the request finds at the key with this index in its list, from 0. A look is a key step too; it changes
    /// no record.
    pub fn look<R: Wait>(
        &self,
        rt: &R,
        guard: &mut Guard,
        index: usize,
    ) -> Result<Answer, StepError>
        requires pass { guard.old.pass.of ≡ N.of }
        requires index { index < length guard.old.walk.asked.keys }
        ensures ok { IfOk result (λ a. ReportsLook guard.old guard.new index a) }
        ensures err { OnErr result (guard.new ≡ guard.old) }
        ensures never_full { N.of.keeping ≡ Keeping.Unrecorded → result ≢ Err StepError.HistoryFull }
        ensures always { N.of.keeping ≡ Keeping.Unrecorded → IsOk result }
        ensures walk { guard.new.walk ≡ guard.old.walk }
    {
        look_on(&Blocking { rt, table: self }, guard, index)
    }
}

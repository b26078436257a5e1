//! How does a client see and change the value beside a key's shard? Under the shard's lock: alone, or in the critical
//! section of a step.
ghost use Rattle.std.specs.Prelude.{◌≡◌, ◌≢◌, ◌+◌, ◌↔◌, true, Err, List, IfOk, IfErr, IfSome, IsOk, IsSome, OnErr, take};
ghost use Rattle.std.specs.Fn.{FnOnceReturnsAt, FnOnceReturnsAtMut};
ghost use Rattle.lt_rules.specs.declared.call.Call.TheVariants.{Acquire, Update, Finish};
ghost use Rattle.lt_rules.specs.Memory.{gives_up};
ghost use Rattle.lt_rules.specs.Step.{is_freed};
ghost use Rattle.lt_entry.specs.declared.entry.Entry.{Entry};
ghost use Rattle.lt_entry.specs.Ranges.{NamesNumber};
ghost use Rattle.lt_words.specs.Row.{SeesMore};
ghost use Rattle.lt_walk.specs.Reported.{ReportsCall};
ghost use Rattle.lt_table_core.specs.Values.{seen_at};

use crate::shard_value::ShardValue;
use crate::table::Table;
use lt_ids::{Key, Timestamp, TxnId};
use lt_rules::{Call, KeyTable, Reply};
use lt_shard::{Answer, StepError};
use lt_words::{Keeping, Name, Pass, Waker};
use std::sync::Wait;

/// Why a finish was refused, and what it would have lent the value to.
#[derive(Drop)]
pub struct FinishRefused<F> {
    /// The closure, which was not called.
    pub f: F,
    /// Why the finish was refused.
    pub error: StepError,
}

impl<N: Name, T: KeyTable, W: Waker, V: ShardValue> Table<N, T, W, V> {
    /// Lends the value beside the key's shard, under the shard's lock. It fits the shard's part of what the pass has then
    /// seen: these are all steps that were made of the shard. Waits for the shard's lock, and makes no step.
    pub fn value<R: Wait, A, F: FnOnce(&V) -> A>(
        &self,
        rt: &R,
        pass: &mut Pass,
        key: &Key,
        f: F,
    ) -> A
        requires pass { pass.old.of ≡ N.of }
        requires callable { F.IsAlwaysCallable f }
        ensures saw { (v : V) × FnOnceReturnsAt F.FnOnce f v result × V.fits (seen_at N.of.shards key.now pass.new) v }
        ensures more { SeesMore pass.old pass.new }
    {
        let index = self.shard_of(key);
        let lock = &self.shards[index].lock;
        for _ in rt.forever() {
            let mut locked = lock.lock(rt);
            let inside = &mut *locked;
            if index == inside.shard.index() {
                inside.shard.meet(rt, &self.book, pass);
                return inside.lend(f);
            }
        }
        unreachable!()
    }

    /// Lends the value beside the key's shard to be changed, under the shard's lock. It fits the same steps before and
    /// after.
    pub fn change_value<R: Wait, A, F: FnOnce(&mut V) -> A>(
        &self,
        rt: &R,
        pass: &mut Pass,
        key: &Key,
        f: F,
    ) -> A
        requires pass { pass.old.of ≡ N.of }
        requires callable { F.IsAlwaysCallable f }
        requires keeps { (es : List Entry) (v : V) (a : A) (w : V) → V.fits es v → FnOnceReturnsAtMut F.FnOnce f v a w → V.fits es w }
        ensures changed { (v : V) × (w : V) × FnOnceReturnsAtMut F.FnOnce f v result w
            × V.fits (seen_at N.of.shards key.now pass.new) v × V.fits (seen_at N.of.shards key.now pass.new) w }
        ensures more { SeesMore pass.old pass.new }
    {
        let index = self.shard_of(key);
        let lock = &self.shards[index].lock;
        for _ in rt.forever() {
            let mut locked = lock.lock(rt);
            let inside = &mut *locked;
            if inside.shard.index() == index {
                inside.shard.meet(rt, &self.book, pass);
                return inside.change(f);
            }
        }
        unreachable!()
    }

    /// Makes the call at the key, and then lends the value beside the key's shard, in one critical section.
    fn step_then<R: Wait, A, F: FnOnce(&V) -> A>(
        &self,
        rt: &R,
        pass: &mut Pass,
        key: &Key,
        call: &Call,
        f: F,
    ) -> Result<(Answer, A), StepError>
        requires pass { pass.old.of ≡ N.of }
        requires number { NamesNumber call.now }
        requires callable { F.IsAlwaysCallable f }
        ensures ok { IfOk result (λ r. ReportsCall pass.old pass.new key.now call.now r.0) }
        ensures saw { IfOk result (λ r. (v : V) × FnOnceReturnsAt F.FnOnce f v r.1
            × V.fits (take (r.0.at + 1) (seen_at N.of.shards key.now pass.new)) v) }
        ensures err { OnErr result (pass.new ≡ pass.old) }
        ensures refused { IfErr result (λ e. N.of.keeping ≡ Keeping.Unrecorded → (e ≢ StepError.HistoryFull) × (gives_up call.now ≢ true)) }
    {
        let index = self.shard_of(key);
        let lock = &self.shards[index].lock;
        for _ in rt.forever() {
            let mut locked = lock.lock(rt);
            let inside = &mut *locked;
            if inside.shard.index() == index {
                let answer = inside.step(rt, &self.book, pass, key, call)?;
                let told = inside.lend(f);
                // Release the lock first, so that the threads that are woken do not run into it.
                drop(locked);
                self.book.wake(pass, &self.waker);
                return Ok((answer, told));
            }
        }
        unreachable!()
    }

    /// [`Table::acquire`], which then lends the value beside the key's shard, in the same critical section. The value fits
    /// the shard's steps up to the acquire, and no other step.
    pub fn acquire_then<R: Wait, A, F: FnOnce(&V) -> A>(
        &self,
        rt: &R,
        pass: &mut Pass,
        key: &Key,
        txn: TxnId,
        ts: Timestamp,
        f: F,
    ) -> Result<(Answer, A), StepError>
        requires pass { pass.old.of ≡ N.of }
        requires callable { F.IsAlwaysCallable f }
        ensures ok { IfOk result (λ r. ReportsCall pass.old pass.new key.now (Acquire txn ts) r.0) }
        ensures saw { IfOk result (λ r. (v : V) × FnOnceReturnsAt F.FnOnce f v r.1
            × V.fits (take (r.0.at + 1) (seen_at N.of.shards key.now pass.new)) v) }
        ensures err { OnErr result (pass.new ≡ pass.old) }
        ensures never_full { N.of.keeping ≡ Keeping.Unrecorded → result ≢ Err StepError.HistoryFull }
    {
        self.step_then(rt, pass, key, &Call::Acquire { txn, ts }, f)
    }

    /// [`Table::update`], which then lends the value, as [`Table::acquire_then`] does.
    pub fn update_then<R: Wait, A, F: FnOnce(&V) -> A>(
        &self,
        rt: &R,
        pass: &mut Pass,
        key: &Key,
        txn: TxnId,
        ts: Timestamp,
        f: F,
    ) -> Result<(Answer, A), StepError>
        requires pass { pass.old.of ≡ N.of }
        requires callable { F.IsAlwaysCallable f }
        ensures ok { IfOk result (λ r. ReportsCall pass.old pass.new key.now (Update txn ts) r.0) }
        ensures saw { IfOk result (λ r. (v : V) × FnOnceReturnsAt F.FnOnce f v r.1
            × V.fits (take (r.0.at + 1) (seen_at N.of.shards key.now pass.new)) v) }
        ensures err { OnErr result (pass.new ≡ pass.old) }
        ensures never_full { N.of.keeping ≡ Keeping.Unrecorded → result ≢ Err StepError.HistoryFull }
        ensures always { N.of.keeping ≡ Keeping.Unrecorded → IsOk result }
    {
        self.step_then(rt, pass, key, &Call::Update { txn, ts }, f)
    }

    /// [`Table::finish`]. If it frees the lock, it then lends the value beside the key's shard to be changed, in the same
    /// critical section: so what the transaction puts there is what its finish installs. The value has been told of the
    /// finish, and fits the shard's steps up to it, and no other step.
    ///
    /// After a refusal nothing was lent, and `f` comes back, so that the caller can try again.
    pub fn finish_then<R: Wait, A, F: FnOnce(&mut V) -> A>(
        &self,
        rt: &R,
        pass: &mut Pass,
        key: &Key,
        txn: TxnId,
        f: F,
    ) -> Result<(Answer, Option<A>), FinishRefused<F>>
        requires pass { pass.old.of ≡ N.of }
        requires callable { F.IsAlwaysCallable f }
        requires keeps { (es : List Entry) (v : V) (a : A) (w : V) → V.fits es v → FnOnceReturnsAtMut F.FnOnce f v a w → V.fits es w }
        ensures ok { IfOk result (λ r. ReportsCall pass.old pass.new key.now (Finish txn) r.0) }
        ensures freed { IfOk result (λ r. IsSome r.1 ↔ (is_freed r.0.reply ≡ true)) }
        ensures changed { IfOk result (λ r. IfSome r.1 (λ a. (v : V) × (w : V) × FnOnceReturnsAtMut F.FnOnce f v a w
            × V.fits (take (r.0.at + 1) (seen_at N.of.shards key.now pass.new)) v
            × V.fits (take (r.0.at + 1) (seen_at N.of.shards key.now pass.new)) w)) }
        ensures err { OnErr result (pass.new ≡ pass.old) }
        ensures back { IfErr result (λ e. e.f ≡ f) }
        ensures never_full { IfErr result (λ e. N.of.keeping ≡ Keeping.Unrecorded → e.error ≢ StepError.HistoryFull) }
        ensures always { N.of.keeping ≡ Keeping.Unrecorded → IsOk result }
    {
        let call = Call::Finish { txn };
        let index = self.shard_of(key);
        let lock = &self.shards[index].lock;
        for _ in rt.forever() {
            let mut locked = lock.lock(rt);
            let inside = &mut *locked;
            if inside.shard.index() == index {
                let answer = match inside.step(rt, &self.book, pass, key, &call) {
                    Ok(answer) => answer,
                    Err(error) => return Err(FinishRefused { f, error }),
                };
                let put = if matches!(&answer.reply, Reply::Freed) {
                    Some(inside.change(f))
                } else {
                    None
                };
                drop(locked);
                self.book.wake(pass, &self.waker);
                return Ok((answer, put));
            }
        }
        unreachable!()
    }
}

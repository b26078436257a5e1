//! How does a transaction free a lock, so that what it has put becomes the key's value in the same moment? Read next
//! `src/committing.rt` and `src/aborting.rt`.
ghost use Rattle.std.specs.Prelude.{◌≡◌, ◌+◌, true, Some, IfSome, List, take};
ghost use Rattle.std.specs.Fn.{FnOnceReturnsAtMut};
ghost use Rattle.lt_rules.specs.declared.call.Call.TheVariants.{Finish};
ghost use Rattle.lt_entry.specs.declared.entry.Entry.{Entry};
ghost use Rattle.lt_walk.specs.Reported.{ReportsCall};
ghost use Rattle.lt_table_core.specs.Values.{seen_at};
ghost use Rattle.lt_shard.specs.declared.answer.Answer.{Answer};
ghost use Rattle.example_cells.specs.Committing.{IsPast};

use crate::cell::{PastTenure, Put};
use crate::cell_table::CellTable;
use crate::cells::{Cells, Installed};
use crate::committed::LockTenure;
use crate::held::HeldLock;
use example_values::{SeenValues, ValueName};
use lt_ids::{Key, TxnId};
use lt_rules::KeyTable;
use lt_table_core::{Answer, ShardValue, Table};
use lt_tenure::laws::{tenure_lasts, tenures_stay};
use lt_words::laws::parts_begin;
use lt_words::{Front, Name, Pass};
use std::sync::Wait;
use std::thread;

/// Whether this tenure is the one that this transaction began by the step with the index `taken` and ended by the step
/// with the index `freed`.
fn is_past(last: &PastTenure, txn: TxnId, taken: u64, freed: u64) -> bool
    ensures { result ≡ true → IsPast last.now txn taken freed }
{
    last.txn == txn && last.taken == taken && last.freed == freed
}

/// The index of the step that freed the lock, if it ended the tenure of this lock.
fn freed_at<N: Name + ValueName>(
    lock: &HeldLock<N>,
    answer: &Answer,
    last: &Option<PastTenure>,
) -> Option<u64>
    ensures at { IfSome result (λ at. answer.now.at ≡ at) }
    ensures past { IfSome result (λ at. last.now ≡ Some (record { txn = lock.now.txn; taken = lock.now.taken; freed = at })) }
{
    match last {
        Some(last) if is_past(last, lock.txn, lock.taken, answer.at) => Some(answer.at),
        _ => None,
    }
}

/// The step that freed the lock, if it ended the tenure of this lock and the log of values has what it left.
fn freed_of<N: Name + ValueName>(
    lock: &HeldLock<N>,
    answer: &Answer,
    installed: Installed,
) -> Option<FreedLock>
    ensures at { IfSome result (λ f. answer.now.at ≡ f.at) }
    ensures past { IfSome result (λ f. installed.last ≡ Some (record { txn = lock.now.txn; taken = lock.now.taken; freed = f.at })) }
    ensures values { IfSome result (λ f. f.values ≡ installed.values) }
    ensures left { IfSome result (λ f. installed.left ≡ true) }
{
    let Installed { last, left, values } = installed;
    if !left {
        return None;
    }
    let at = freed_at(lock, answer, &last)?;
    Some(FreedLock { at, values })
}

/// A lock that was freed.
#[derive(Drop)]
pub struct FreedLock {
    /// The index of the step that freed it.
    pub at: u64,
    /// What was then seen of the log of values.
    pub values: SeenValues,
}

/// [`Table::finish_then`], again and again while the table refuses: until the key's shard is no longer full of steps, or there
/// is memory for one more. A table that stores no step never refuses.
fn finish_at_last<N: Name, T: KeyTable, V: ShardValue, R: Wait, A, F: FnOnce(&mut V) -> A>(
    table: &Table<N, T, (), V>,
    rt: &R,
    pass: &mut Pass,
    key: &Key,
    txn: TxnId,
    f: F,
) -> (Answer, Option<A>)
    requires pass { pass.old.of ≡ N.of }
    requires callable { F.IsAlwaysCallable f }
    requires keeps { (es : List Entry) (v : V) (a : A) (w : V) → V.fits es v → FnOnceReturnsAtMut F.FnOnce f v a w → V.fits es w }
    ensures ok { ReportsCall pass.old pass.new key.now (Finish txn) result.0 }
    ensures changed { IfSome result.1 (λ a. (v : V) × (w : V) × FnOnceReturnsAtMut F.FnOnce f v a w
        × V.fits (take (result.0.at + 1) (seen_at N.of.shards key.now pass.new)) v
        × V.fits (take (result.0.at + 1) (seen_at N.of.shards key.now pass.new)) w) }
{
    let mut put = f;
    for _ in rt.forever() {
        match table.finish_then(rt, pass, key, txn, put) {
            Ok(made) => return made,
            Err(refused) => put = refused.f,
        }
        thread::yield_now();
    }
    unreachable!()
}

impl<N: Name + ValueName, T: KeyTable> CellTable<N, T> {
    ghost use Rattle.std.specs.Prelude.{◌≡◌, ◌+◌, ◌≤◌, [], List, length, take, vec_capacity, IfSome};
    ghost use Rattle.lt_entry.specs.declared.entry.Entry.{Entry};
    ghost use Rattle.std.specs.List.{All, AllZip};
    ghost use Rattle.lt_words.specs.History.{part, shard_of};
    ghost use mathlib.Core.List.{IsPrefix};
    ghost use Rattle.lt_tenure.specs.Tenure.{IsHeldAt};
    ghost use Rattle.example_cells.specs.Knowing.{last_of, cell_at, CellsKnow, InstallsWith, value_bytes};
    ghost use Rattle.example_cells.specs.Leaving.{LeftAt, IsPutLeft};
    ghost use Rattle.example_cells.specs.Committing.{Installs, IsFreed};

    /// Frees the lock, which its transaction took before this point. What was put becomes the key's value as the lock comes
    /// free, and is in the log of values. `None` if the transaction does not own the lock since it took it, or if its value was
    /// not appended to that log, which never happens.
    pub fn free<R: Wait>(
        &self,
        rt: &R,
        pass: &mut Pass,
        lock: &HeldLock<N>,
        point: &Front,
        put: Option<Put>,
    ) -> Option<FreedLock>
        requires pass { pass.old.of ≡ N.of }
        requires point { IsPrefix point.now.seen pass.old.seen }
        requires took { IsPrefix lock.now.seen.seen point.now.seen }
        ensures of { pass.new.of ≡ N.of }
        ensures number { pass.new.number ≡ pass.old.number }
        ensures more { IsPrefix pass.old.seen pass.new.seen }
        ensures held { IfSome result (λ f. IsHeldAt N.of.shards pass.new.seen point.now.seen lock.now.txn
            (record { key = lock.now.key; taken = lock.now.taken; freed = f.at })) }
        ensures installs { IfSome result (λ f. Installs (part (shard_of lock.now.key N.of.shards) pass.new.seen) lock.now.key f.at put) }
        ensures book { IfSome result (λ f. f.values.book ≡ N.values) }
        ensures left { IfSome result (λ f. IfSome put (λ p. LeftAt N.of.shards f.values.log lock.now.key f.at (value_bytes p))) }
    {
        parts_begin();
        tenure_lasts();
        lock.was_taken();
        let (answer, told) = finish_at_last(
            &self.table,
            rt,
            pass,
            &lock.key,
            lock.txn,
            |cells: &mut Cells<N>| -> Installed
                ensures installs { InstallsWith result.left cells.old.map cells.new.map lock.entry.now.key put }
                ensures keeps { (es : List Entry) → CellsKnow es cells.old.map → CellsKnow es cells.new.map }
                ensures last { result.last ≡ last_of (cell_at cells.old.map lock.entry.now.key) }
                ensures book { result.values.book ≡ N.values }
                ensures left { result.left ≡ true → IfSome result.last (λ t. IfSome put (λ p. LeftAt N.of.shards result.values.log lock.entry.now.key t.freed (value_bytes p))) }
            { cells.install(&lock.key, put) },
        );
        let installed = told?;
        freed_of(lock, &answer, installed)
    }

    /// Frees the lock, which its transaction took before this point, and installs what the transaction has put. `None` as
    /// [`CellTable::free`] says.
    fn free_one<R: Wait>(
        &self,
        rt: &R,
        pass: &mut Pass,
        mut lock: HeldLock<N>,
        point: &Front,
    ) -> Option<LockTenure>
        requires pass { pass.old.of ≡ N.of }
        requires point { IsPrefix point.now.seen pass.old.seen }
        requires took { IsPrefix lock.seen.seen point.now.seen }
        ensures of { pass.new.of ≡ N.of }
        ensures number { pass.new.number ≡ pass.old.number }
        ensures more { IsPrefix pass.old.seen pass.new.seen }
        ensures freed { IfSome result (λ t. IsFreed N.of.shards pass.new.seen point.now.seen lock.key lock.txn lock.taken lock.put t) }
        ensures left { IfSome result (λ t. IsPutLeft N.of.shards N.values lock.put t) }
    {
        let put = lock.put.take();
        let freed = self.free(rt, pass, &lock, point, put)?;
        let HeldLock { key, taken, .. } = lock;
        Some(LockTenure {
            key,
            taken,
            freed: freed.at,
            values: freed.values,
        })
    }

    /// Frees the locks, in order, and installs what their transaction has put. `None` if one of them was not the
    /// transaction's, which never happens.
    pub(crate) fn free_all<R: Wait>(
        &self,
        rt: &R,
        pass: &mut Pass,
        locks: Vec<HeldLock<N>>,
        point: &Front,
        mut done: Vec<LockTenure>,
    ) -> Option<Vec<LockTenure>>
        requires pass { pass.old.of ≡ N.of }
        requires point { IsPrefix point.now.seen pass.old.seen }
        requires took { All (λ l. IsPrefix l.seen.seen point.now.seen) locks.items }
        requires none { done.items ≡ [] }
        requires room { length locks.items ≤ vec_capacity done }
        ensures of { pass.new.of ≡ N.of }
        ensures number { pass.new.number ≡ pass.old.number }
        ensures more { IsPrefix pass.old.seen pass.new.seen }
        ensures freed { IfSome result (λ ts. AllZip (λ l t. IsFreed N.of.shards pass.new.seen point.now.seen l.key l.txn l.taken l.put t) locks.items ts.items) }
        ensures left { IfSome result (λ ts. AllZip (λ l t. IsPutLeft N.of.shards N.values l.put t) locks.items ts.items) }
    {
        tenures_stay();
        parts_begin();
        for lock in locks {
            let tenure = self.free_one(rt, pass, lock, point)?;
            done.push_reserved(tenure);
        }
        Some(done)
    }
}

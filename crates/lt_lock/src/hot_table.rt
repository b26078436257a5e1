//! How does a table keep the one key that all wait for? The lone lock that somebody comes to wait for becomes the hot key:
//! its record stands apart from the rows, in a [`LinkedRecord`](lt_row::LinkedRecord). So a call at the hot key searches
//! no map, however many wait there. The key stays hot until its record is empty. Other keys have rows meanwhile.
//! `specs/Hot.antt` says which records the two stand for. Read `row_table.rt` next, which has the rows.
ghost use Rattle.std.specs.Prelude.{◌≡◌, ◌≤◌, ◌↔◌, [], true, false, length, vec_capacity, IfOk, IfSome, OnOk, OnErr, IsOk, IsSome, None};
ghost use Rattle.std.specs.FinMap as map;
ghost use Rattle.std.specs.Option.{option_copied};
ghost use Rattle.lt_rules.specs.declared.call.Reply.TheVariants.{Taken};
ghost use Rattle.lt_rules.specs.Rules.{empty, is_empty, take_lock, TakesNoMemory};
ghost use Rattle.lt_rules.specs.Step.{step, look};
ghost use Rattle.lt_rules.specs.Table.{AreSound, MakesCall, IsStep, UsesNoMemoryAt, record_at, keys_after};
ghost use Rattle.lt_rules.specs.Memory.{MayLack, HasRoom, how_many};
ghost use Rattle.lt_lock.specs.Hot.{StepsHot, hot_record, is_hot};
ghost use Rattle.lt_ids.specs.declared.limits.TheConstants.{MAX_PASS};

use crate::keys::{listed, put_least};
use crate::row_table::RowTable;
use lt_ids::{Key, Through};
use lt_row::LinkedRecord;
use lt_rules::{Call, Holder, KeyState, QueueLengths, Reply, comes_after};
use std::alloc::{AllocError, Global};
use std::marker::Model;

/// The rows of a table, and the record of its hot key, if it has one. In a contract, it is the map of its keys' records.
#[derive(Drop)]
pub(crate) struct HotTable {
    hot: Option<Key>,
    /// The record of the hot key. It is kept, empty, for the next one.
    kept: Option<LinkedRecord>,
    alloc: Global,
    start: u64,
    rows: RowTable,
}

impl Model for HotTable {
    ghost use Rattle.lt_rules.specs.Codes.{records_code};
    ghost use Rattle.lt_rules.specs.Table.{Records};
    ghost use Rattle.lt_lock.specs.Hot.{with_hot, IsWithHot};

    ghost Value = { Records };

    ghost coded = { records_code };

    ghost view = { λ t. with_hot t.hot t.kept t.rows };

    ghost invariant = { λ t. IsWithHot t.hot t.kept t.rows };
}

/// Whether this is the hot key.
#[inline(always)]
fn is_hot(hot: &Option<Key>, key: &Key) -> bool
    ensures { result ≡ is_hot hot.now key.now }
{
    match hot {
        None => false,
        Some(hot) => *hot == *key,
    }
}

/// Gives the record that was kept this holder, or a new one if there is none.
fn hold(
    kept: &mut Option<LinkedRecord>,
    alloc: Global,
    start: u64,
    holder: &Holder,
) -> Result<(), AllocError>
    requires { hot_record kept.old ≡ empty }
    ensures ok { OnOk result (hot_record kept.new ≡ (take_lock empty holder.now).after) }
    ensures err { OnErr result (kept.new ≡ kept.old) }
{
    if let Some(record) = kept {
        record.hold(holder);
        return Ok(());
    }
    let mut record = LinkedRecord::hashed_from(alloc, start)?;
    record.hold(holder);
    *kept = Some(record);
    Ok(())
}

/// The hot key, which has this record, is no longer hot if the record is empty.
#[inline(always)]
fn cool(hot: &mut Option<Key>, own: &mut LinkedRecord)
    ensures stays { is_empty own.old ≡ false → (hot.new ≡ hot.old) × (own.new ≡ own.old) }
    ensures ends { is_empty own.old ≡ true → (hot.new ≡ None) × (own.new ≡ empty) }
{
    if own.is_empty() {
        own.clear();
        *hot = None;
    }
}

/// Makes the call at the hot key, which has this record.
#[inline(always)]
fn step_hot(
    hot: &mut Option<Key>,
    own: &mut LinkedRecord,
    pass: u32,
    call: &Call,
    lets: &mut Vec<Through>,
) -> Result<Reply, AllocError>
    requires lets { lets.old.items ≡ [] }
    requires low { 1 ≤ pass }
    requires high { pass ≤ MAX_PASS }
    ensures ok { IfOk result (StepsHot hot.old hot.new own.old own.new pass call.now lets.new.items) }
    ensures err { OnErr result ((hot.new ≡ hot.old) × (own.new ≡ own.old) × (lets.new.items ≡ [])) }
    ensures no_memory { TakesNoMemory own.old (step own.old pass call.now) → IsOk result }
    ensures full { OnErr result (MayLack own.old call.now (vec_capacity lets.old)) }
    ensures room { how_many own.old ≤ vec_capacity lets.old → how_many own.new ≤ vec_capacity lets.new }
    ensures kept { vec_capacity lets.old ≤ vec_capacity lets.new }
{
    let reply = own.make(pass, call, lets)?;
    cool(hot, own);
    Ok(reply)
}

impl HotTable {
    /// A table without keys, whose keys are hashed from this start. This call allocates nothing; later calls allocate
    /// from this allocator.
    pub fn new(alloc: Global, start: u64) -> Self
        ensures { result ≡ map.empty }
    {
        HotTable {
            hot: None,
            kept: None,
            alloc,
            start,
            rows: RowTable::new(alloc, start),
        }
    }

    /// Whether no key is held, reserved or waited for.
    #[inline(always)]
    pub fn has_no_row(&self) -> bool
        ensures { result ≡ true ↔ self.now ≡ map.empty }
    {
        self.hot.is_none() && self.rows.has_no_row()
    }

    /// Makes the first key, which this holder holds, the hot key, if somebody waits for it. Otherwise gives it a row.
    pub fn add_held(&mut self, key: &Key, holder: &Holder, waits: bool) -> Result<(), AllocError>
        requires { self.old ≡ map.empty }
        ensures ok { OnOk result (IsStep self.old key.now (λ r. take_lock r holder.now) Taken [] self.new) }
        ensures err { OnErr result (self.new ≡ self.old) }
        ensures sound { AreSound self.new }
    {
        if !waits {
            return self.rows.add_held(key, holder);
        }
        let copy = key.copy()?;
        hold(&mut self.kept, self.alloc, self.start, holder)?;
        self.hot = Some(copy);
        Ok(())
    }

    /// Makes the call at the key, for the pass with this number, as [`KeyTable::step`](lt_rules::KeyTable::step) does.
    #[inline(always)]
    pub fn step(
        &mut self,
        key: &Key,
        pass: u32,
        call: &Call,
        lets: &mut Vec<Through>,
    ) -> Result<Reply, AllocError>
        requires lets { lets.old.items ≡ [] }
        requires low { 1 ≤ pass }
        requires high { pass ≤ MAX_PASS }
        ensures ok { IfOk result (MakesCall (λ t. t) self.old self.new key.now pass call.now lets.new.items) }
        ensures err { OnErr result ((self.new ≡ self.old) × (lets.new.items ≡ [])) }
        ensures sound { AreSound self.new }
        ensures no_memory { UsesNoMemoryAt (λ t. t) self.old key.now (λ r. step r pass call.now) → IsOk result }
        ensures full { OnErr result (MayLack (record_at self.old key.now) call.now (vec_capacity lets.old)) }
        ensures room { HasRoom self.old (vec_capacity lets.old) → HasRoom self.new (vec_capacity lets.new) }
    {
        if !is_hot(&self.hot, key) {
            return self.rows.step(key, pass, call, lets);
        }
        let Some(record) = &mut self.kept else {
            unreachable!()
        };
        step_hot(&mut self.hot, record, pass, call, lets)
    }

    /// What the request with this number finds at the key.
    pub fn look(&self, key: &Key, number: u64) -> Reply
        ensures { result ≡ look (record_at self.now key.now) number }
    {
        if !is_hot(&self.hot, key) {
            return self.rows.look(key, number);
        }
        match &self.kept {
            None => Reply::Nothing,
            Some(record) => record.look(number),
        }
    }

    /// How many requests are queued at the key.
    pub fn lengths(&self, key: &Key) -> QueueLengths
        ensures writers { result.writers ≡ length (record_at self.now key.now).writers }
        ensures readers { result.readers ≡ length (record_at self.now key.now).readers }
    {
        if !is_hot(&self.hot, key) {
            return self.rows.lengths(key);
        }
        match &self.kept {
            None => QueueLengths {
                writers: 0,
                readers: 0,
            },
            Some(record) => record.lengths(),
        }
    }

    /// A copy of the key's record.
    pub fn state(&self, alloc: Global, key: &Key) -> Result<KeyState, AllocError>
        ensures { IfOk result (λ state. state ≡ record_at self.now key.now) }
    {
        if !is_hot(&self.hot, key) {
            return self.rows.state(alloc, key);
        }
        match &self.kept {
            None => Ok(KeyState::empty(alloc)),
            Some(record) => record.state(alloc),
        }
    }

    /// The keys that have a record, in byte order.
    pub fn keys(&self, alloc: Global) -> Result<Vec<Key>, AllocError>
        ensures { IfOk result (λ all. all.items ≡ map.keys self.now) }
    {
        if self.hot.is_none() {
            return self.rows.keys(alloc);
        }
        // No list is as long as that, so none of the keys is left out.
        self.keys_after(alloc, None, usize::MAX)
    }

    /// The first keys that have a record and come after the key `after`: at most `at_most`, in byte order.
    pub fn keys_after(
        &self,
        alloc: Global,
        after: Option<&Key>,
        at_most: usize,
    ) -> Result<Vec<Key>, AllocError>
        ensures { IfOk result (λ all. all.items ≡ keys_after self.now (option_copied after.entry) at_most) }
    {
        let Some(hot) = &self.hot else {
            return self.rows.keys_after(alloc, after, at_most);
        };
        let mut least = self.rows.least_keys(alloc, after, at_most)?;
        if comes_after(after, hot) {
            put_least(&mut least, hot, at_most)?;
        }
        listed(alloc, least)
    }
}

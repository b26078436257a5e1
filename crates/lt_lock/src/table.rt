//! How does the linked table keep its locks? In one of two ways. While it has a single lock and nobody waits, it
//! keeps a lone lock. Once a second key is locked or somebody has to wait, the table keeps a hot key and rows, until the
//! last of them is dropped. Read `lone.rt` and `hot_table.rt` next, which have the two.
ghost use Rattle.std.specs.Prelude.{◌≡◌, ◌∷◌, ◌≤◌, ◌↔◌, ℕ, [], true, length, IfOk, OnOk, OnErr, IsOk, None};
ghost use Rattle.std.specs.FinMap as finmap;
ghost use Rattle.std.specs.Option.{option_copied};
ghost use Rattle.lt_rules.specs.Rules.{TakesNoMemory, empty};
ghost use Rattle.lt_rules.specs.Step.{step, look};
ghost use Rattle.lt_rules.specs.Table.{record_at, keys_after};
ghost use Rattle.lt_rules.specs.Memory.{MayLack};
ghost use Rattle.lt_lock.specs.Lone.{held, with_lone, IsWithLone, StepsAlone};

use crate::hot_table::HotTable;
use crate::keys::one_key_after;
use crate::lone::{LoneLock, step_alone, taken};
use lt_ids::{Key, Through};
use lt_rules::free_key::{AtFreeKey, at_free_key};
use lt_rules::{Call, Holder, KeyState, KeyTable, QueueLengths, Reply};
use std::alloc::{AllocError, Global};
use std::marker::Model;

/// A lock table that keeps the queued requests of all keys in one [`Links`](lt_links::Links), and a single lock
/// that nobody waits for without a row. In a contract, it is the map of its keys' records.
#[derive(Drop)]
pub struct LinkedTable {
    lone: Option<LoneLock>,
    rows: HotTable,
}

impl Model for LinkedTable {
    ghost use Rattle.lt_rules.specs.Codes.{records_code};
    ghost use Rattle.lt_rules.specs.Table.{Records};
    ghost use Rattle.lt_lock.specs.Lone.{with_lone, IsWithLone};

    ghost Value = { Records };

    ghost coded = { records_code };

    ghost view = { λ t. with_lone t.lone t.rows };

    ghost invariant = { λ t. IsWithLone t.lone t.rows };
}

impl LinkedTable {
    /// A table without keys, whose keys are hashed from this start. This call allocates nothing; later calls allocate
    /// from this allocator.
    ///
    /// Whoever chooses the keys can make the table slow if he knows the start. So draw it, for each table, where
    /// nobody can guess it: `std::random::RandomSource` of the runtime does. What a table answers does not depend on
    /// its start.
    pub fn new(alloc: Global, start: u64) -> Self
        ensures { result ≡ finmap.empty }
    {
        LinkedTable {
            lone: None,
            rows: HotTable::new(alloc, start),
        }
    }
}

/// Gives the lone lock a row, if there is one. If the call is at its key, somebody waits there: it becomes the hot key.
#[inline(always)]
fn add_row(lone: &mut Option<LoneLock>, rows: &mut HotTable, key: &Key) -> Result<(), AllocError>
    requires with_lone { IsWithLone lone.old rows.old }
    ensures none { OnOk result (lone.new ≡ None) }
    ensures with_lone { IsWithLone lone.new rows.new }
    ensures same { with_lone lone.new rows.new ≡ with_lone lone.old rows.old }
    ensures no_lock { lone.old ≡ None → IsOk result }
{
    let Some(alone) = lone else {
        return Ok(());
    };
    rows.add_held(&alone.key, &alone.holder, alone.key == *key)?;
    *lone = None;
    Ok(())
}

/// Whether the table has neither a lone lock nor a row.
#[inline(always)]
fn has_no_lock(lone: &Option<LoneLock>, rows: &HotTable) -> bool
    ensures { result ≡ true ↔ (lone.now ≡ None) × (rows.now ≡ finmap.empty) }
{
    lone.is_none() && rows.has_no_row()
}

/// Makes a call in a table without a lock.
#[inline(always)]
fn step_first(lone: &mut Option<LoneLock>, key: &Key, call: &Call) -> Result<Reply, AllocError>
    requires { lone.old ≡ None }
    ensures ok { IfOk result (StepsAlone lone.old lone.new key.now call.now) }
    ensures err { OnErr result (lone.new ≡ None) }
    ensures no_memory { (pass : ℕ) → TakesNoMemory empty (step empty pass call.now) → IsOk result }
    ensures full { OnErr result ((room : ℕ) → MayLack empty call.now room) }
{
    match at_free_key(call) {
        AtFreeKey::Answers(reply) => Ok(reply),
        AtFreeKey::Takes(holder) => {
            *lone = Some(taken(key, holder)?);
            Ok(Reply::Taken)
        }
    }
}

/// The state of a key that this holder has locked, and for which nobody waits.
fn held_state(alloc: Global, holder: &Holder) -> KeyState
    ensures { result ≡ held holder.now }
{
    let mut state = KeyState::empty(alloc);
    state.holder = Some(*holder);
    state
}

/// What the request with this number finds at the key. Nobody waits for a lone lock.
#[inline(always)]
fn look_with(lone: &Option<LoneLock>, rows: &HotTable, key: &Key, number: u64) -> Reply
    requires { IsWithLone lone.now rows.now }
    ensures { result ≡ look (record_at (with_lone lone.now rows.now) key.now) number }
{
    if lone.is_some() {
        return Reply::Nothing;
    }
    rows.look(key, number)
}

/// How many requests are queued at the key. Nobody waits for a lone lock.
fn lengths_with(lone: &Option<LoneLock>, rows: &HotTable, key: &Key) -> QueueLengths
    requires { IsWithLone lone.now rows.now }
    ensures writers { result.writers ≡ length (record_at (with_lone lone.now rows.now) key.now).writers }
    ensures readers { result.readers ≡ length (record_at (with_lone lone.now rows.now) key.now).readers }
{
    if lone.is_some() {
        return QueueLengths {
            writers: 0,
            readers: 0,
        };
    }
    rows.lengths(key)
}

/// A copy of the key's record.
fn state_with(
    lone: &Option<LoneLock>,
    rows: &HotTable,
    alloc: Global,
    key: &Key,
) -> Result<KeyState, AllocError>
    requires { IsWithLone lone.now rows.now }
    ensures { IfOk result (λ state. state ≡ record_at (with_lone lone.now rows.now) key.now) }
{
    match lone {
        None => rows.state(alloc, key),
        Some(alone) if alone.key == *key => Ok(held_state(alloc, &alone.holder)),
        Some(_) => Ok(KeyState::empty(alloc)),
    }
}

/// A list of one key.
fn one_key(alloc: Global, key: &Key) -> Result<Vec<Key>, AllocError>
    ensures { IfOk result (λ all. all.items ≡ key.now ∷ []) }
{
    let mut all = Vec::with_capacity(alloc, 1)?;
    all.push(key.copy()?)?;
    Ok(all)
}

/// The keys that have a record, in byte order.
fn keys_with(
    lone: &Option<LoneLock>,
    rows: &HotTable,
    alloc: Global,
) -> Result<Vec<Key>, AllocError>
    ensures { IfOk result (λ all. all.items ≡ finmap.keys (with_lone lone.now rows.now)) }
{
    match lone {
        None => rows.keys(alloc),
        Some(alone) => one_key(alloc, &alone.key),
    }
}

/// The first keys that have a record and come after the key `after`: at most `at_most`, in byte order.
fn keys_after_with(
    lone: &Option<LoneLock>,
    rows: &HotTable,
    alloc: Global,
    after: Option<&Key>,
    at_most: usize,
) -> Result<Vec<Key>, AllocError>
    ensures { IfOk result (λ all. all.items ≡ keys_after (with_lone lone.now rows.now) (option_copied after.entry) at_most) }
{
    match lone {
        None => rows.keys_after(alloc, after, at_most),
        Some(alone) => one_key_after(alloc, &alone.key, after, at_most),
    }
}

impl KeyTable for LinkedTable {
    ghost records = { λ t. t };

    #[inline(always)]
    fn step(
        &mut self,
        key: &Key,
        pass: u32,
        call: &Call,
        lets: &mut Vec<Through>,
    ) -> Result<Reply, AllocError> {
        if let Some(reply) = step_alone(&mut self.lone, key, call) {
            return Ok(reply);
        }
        if has_no_lock(&self.lone, &self.rows) {
            return step_first(&mut self.lone, key, call);
        }
        add_row(&mut self.lone, &mut self.rows, key)?;
        self.rows.step(key, pass, call, lets)
    }

    fn look(&self, key: &Key, number: u64) -> Reply {
        look_with(&self.lone, &self.rows, key, number)
    }

    fn lengths(&self, key: &Key) -> QueueLengths {
        lengths_with(&self.lone, &self.rows, key)
    }

    fn state(&self, alloc: Global, key: &Key) -> Result<KeyState, AllocError> {
        state_with(&self.lone, &self.rows, alloc, key)
    }

    fn keys(&self, alloc: Global) -> Result<Vec<Key>, AllocError> {
        keys_with(&self.lone, &self.rows, alloc)
    }

    fn keys_after(
        &self,
        alloc: Global,
        after: Option<&Key>,
        at_most: usize,
    ) -> Result<Vec<Key>, AllocError> {
        keys_after_with(&self.lone, &self.rows, alloc, after, at_most)
    }
}

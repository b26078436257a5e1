//! How does the table keep many keys, and the requests that wait for them? [`RowTable`] has a row for each key that
//! is held, reserved or waited for, over one set of links. `lt_row` has what a call does to one row; here a call
//! finds the row of its key, adds it, and drops it once it is empty.
ghost use Rattle.std.specs.Prelude.{◌≡◌, ◌≢◌, ◌<◌, ◌≤◌, ◌↔◌, [], true, length, vec_capacity, IfOk, OnOk, OnErr, IsOk, IsTrue};
ghost use Rattle.std.specs.HashMap.{keys, IsUnique};
ghost use Rattle.std.specs.Str.{bytes_eq};
ghost use Rattle.std.specs.FinMap as map;
ghost use Rattle.std.specs.Option.{option_copied};
ghost use Rattle.lt_rules.specs.declared.call.Call.TheVariants.{Acquire};
ghost use Rattle.lt_rules.specs.declared.call.Reply.TheVariants.{Taken};
ghost use Rattle.lt_rules.specs.Rules.{empty, acquire, take_lock};
ghost use Rattle.lt_rules.specs.Step.{step, look};
ghost use Rattle.lt_rules.specs.Table.{AreSound, MakesCall, IsStep, UsesNoMemoryAt, record_at, keys_after, without_empty};
ghost use Rattle.lt_rules.specs.Memory.{MayLack, HasRoom};
ghost use Rattle.lt_row.specs.Row.{HasQueues};
ghost use Rattle.lt_lock.specs.Linked.{records_of, AreLinked, IsTable, IsEmptied, KeepsRows, UpdatesRows, MakesAtRow, emptied_id};
ghost use Rattle.lt_ids.specs.declared.limits.TheConstants.{MAX_PASS};

use crate::keys::{keys_after, least_keys};
use lt_ids::{Key, Through, Timestamp, TxnId};
use lt_links::{KeyHashing, Links, RecordId};
use lt_row::{Row, acquire, is_empty, lengths, look, state, step};
use lt_rules::free_key::{AtFreeKey, at_free_key};
use lt_rules::{Call, Holder, KeyState, QueueLengths, Reply};
use std::alloc::{AllocError, Global};
use std::collections::hash_map::Entry;
use std::collections::{BTreeSet, HashMap};
use std::marker::Model;

/// A lock table that keeps the queued requests of all keys in one [`Links`](lt_links::Links). In a contract, it is
/// the map of its keys' records.
#[derive(Drop)]
pub(crate) struct RowTable {
    links: Links,
    rows: Rows,
}

impl Model for RowTable {
    ghost use Rattle.lt_rules.specs.Codes.{records_code};
    ghost use Rattle.lt_rules.specs.Table.{Records};

    ghost Value = { Records };

    ghost coded = { records_code };

    ghost use Rattle.lt_lock.specs.Linked.{records_of, IsTable};

    ghost view = { λ t. records_of t.links t.rows };

    ghost invariant = { λ t. IsTable t.links t.rows };
}

pub(crate) type Rows = HashMap<Key, Row, KeyHashing, Global>;

/// What a call at a key's row came to: its reply, and the queues of the row if it is now empty.
#[derive(Clone, Copy)]
struct RowStep {
    reply: Reply,
    emptied: Option<RecordId>,
}

/// The queues of the row, if the row is empty.
fn emptied(links: &Links, row: &Row) -> Option<RecordId>
    requires { HasQueues links.now row.now.id }
    ensures { result ≡ emptied_id links.now row.now }
{
    if is_empty(links, row) {
        Some(row.id)
    } else {
        None
    }
}

/// Drops the row at the key if it has become empty.
fn drop_emptied(links: &mut Links, rows: &mut Rows, key: &Key, emptied: Option<RecordId>)
    requires linked { AreLinked links.old rows.old }
    requires emptied { IsEmptied links.old rows.old key.now emptied }
    ensures linked { AreLinked links.new rows.new }
    ensures records { records_of links.new rows.new ≡ without_empty (records_of links.old rows.old) key.now }
{
    if let Some(id) = emptied {
        rows.remove(key);
        links.drop_record(id);
    }
}

/// A call at the row of a key, unless it is an acquire. A row that has become empty stays. `None` if the key has no
/// row.
fn step_row(
    links: &mut Links,
    rows: &mut Rows,
    key: &Key,
    pass: u32,
    call: &Call,
    lets: &mut Vec<Through>,
) -> Result<Option<RowStep>, AllocError>
    requires table { IsTable links.old rows.old }
    requires lets { lets.old.items ≡ [] }
    requires low { 1 ≤ pass }
    requires high { pass ≤ MAX_PASS }
    ensures ok { IfOk result (MakesAtRow links.old links.new rows.old rows.new key.now
        (λ r. step r pass call.now) lets.new.items) }
    ensures linked { AreLinked links.new rows.new }
    ensures err { OnErr result (KeepsRows links.old links.new rows.old rows.new lets.new.items) }
    ensures no_memory { UsesNoMemoryAt (records_of links.old) rows.old key.now (λ r. step r pass call.now) → IsOk result }
    ensures full { OnErr result (MayLack (record_at (records_of links.old rows.old) key.now) call.now
        (vec_capacity lets.old)) }
    ensures room { HasRoom (records_of links.old rows.old) (vec_capacity lets.old) →
        HasRoom (records_of links.new rows.new) (vec_capacity lets.new) }
    ensures kept { vec_capacity lets.old ≤ vec_capacity lets.new }
{
    let Some(row) = rows.get_mut(key) else {
        return Ok(None);
    };
    let reply = step(links, row, pass, call, lets)?;
    Ok(Some(RowStep {
        reply,
        emptied: emptied(links, row),
    }))
}

fn look_at(links: &Links, rows: &Rows, key: &Key, number: u64) -> Reply
    requires { IsTable links.now rows.now }
    ensures { result ≡ look (record_at (records_of links.now rows.now) key.now) number }
{
    match rows.get(key) {
        None => Reply::Nothing,
        Some(row) => look(links, row, number),
    }
}

fn lengths_at(links: &Links, rows: &Rows, key: &Key) -> QueueLengths
    requires { IsTable links.now rows.now }
    ensures writers { result.writers ≡ length (record_at (records_of links.now rows.now) key.now).writers }
    ensures readers { result.readers ≡ length (record_at (records_of links.now rows.now) key.now).readers }
{
    match rows.get(key) {
        None => QueueLengths {
            writers: 0,
            readers: 0,
        },
        Some(row) => lengths(links, row),
    }
}

fn state_at(links: &Links, rows: &Rows, alloc: Global, key: &Key) -> Result<KeyState, AllocError>
    requires { IsTable links.now rows.now }
    ensures { IfOk result (λ state. state ≡ record_at (records_of links.now rows.now) key.now) }
{
    match rows.get(key) {
        None => Ok(KeyState::empty(alloc)),
        Some(row) => state(links, alloc, row),
    }
}

/// The keys that have a row, in no order.
fn copied_keys(rows: &Rows, alloc: Global) -> Result<Vec<Key>, AllocError>
    ensures copied { IfOk result (λ all. all.items ≡ keys rows.now) }
    ensures distinct { IsUnique bytes_eq rows.now }
{
    let mut all = Vec::with_capacity(alloc, rows.len())?;
    for key in rows.keys() {
        all.push(key.copy()?)?;
    }
    Ok(all)
}

/// The keys that have a row, in byte order.
fn all_keys(links: &Links, rows: &Rows, alloc: Global) -> Result<Vec<Key>, AllocError>
    ensures { IfOk result (λ all. all.items ≡ map.keys (records_of links.now rows.now)) }
{
    let mut all = copied_keys(rows, alloc)?;
    all.sort_unstable();
    Ok(all)
}

/// Gives a key that has no row one that this holder holds.
fn insert_held(
    links: &mut Links,
    rows: &mut Rows,
    key: &Key,
    holder: &Holder,
) -> Result<(), AllocError>
    requires table { IsTable links.old rows.old }
    requires none { record_at (records_of links.old rows.old) key.now ≡ empty }
    ensures ok { OnOk result (UpdatesRows links.old links.new rows.old rows.new key.now
        (λ r. take_lock r holder.now) [] Taken) }
    ensures linked { AreLinked links.new rows.new }
    ensures err { OnErr result (records_of links.new rows.new ≡ records_of links.old rows.old) }
{
    let copy = key.copy()?;
    let queues = links.add_record()?;
    let row = Row {
        id: queues,
        holder: Some(*holder),
        distinguished: None,
    };
    if let Err(refused) = rows.insert(copy, row) {
        links.drop_record(queues);
        return Err(refused.into());
    }
    Ok(())
}

/// A transaction acquires the key, by one search of the map.
fn acquire_entry(
    links: &mut Links,
    rows: &mut Rows,
    key: Key,
    txn: TxnId,
    ts: Timestamp,
    lets: &mut Vec<Through>,
) -> Result<Reply, AllocError>
    requires table { IsTable links.old rows.old }
    requires lets { lets.old.items ≡ [] }
    ensures ok { IfOk result (UpdatesRows links.old links.new rows.old rows.new key
        (λ r. acquire r txn ts) lets.new.items) }
    ensures table { IsTable links.new rows.new }
    ensures err { OnErr result (KeepsRows links.old links.new rows.old rows.new lets.new.items) }
    ensures no_memory { UsesNoMemoryAt (records_of links.old) rows.old key (λ r. acquire r txn ts) → IsOk result }
    ensures full { OnErr result (MayLack (record_at (records_of links.old rows.old) key) (Acquire txn ts)
        (vec_capacity lets.old)) }
    ensures kept { vec_capacity lets.old ≤ vec_capacity lets.new }
{
    match rows.entry(key)? {
        Entry::Occupied(found) => acquire(links, found.into_mut(), txn, ts, lets),
        Entry::Vacant(place) => {
            let Ok(id) = links.add_record() else {
                let _key = place.into_key();
                return Err(AllocError);
            };
            place.insert(Row {
                id,
                holder: Some(Holder { txn, ts }),
                distinguished: None,
            });
            Ok(Reply::Taken)
        }
    }
}

/// A transaction acquires the key. If the key has no row, the answer is the error for memory.
fn acquire_found(
    links: &mut Links,
    rows: &mut Rows,
    key: &Key,
    txn: TxnId,
    ts: Timestamp,
    lets: &mut Vec<Through>,
) -> Result<Reply, AllocError>
    requires table { IsTable links.old rows.old }
    requires lets { lets.old.items ≡ [] }
    ensures ok { IfOk result (UpdatesRows links.old links.new rows.old rows.new key.now
        (λ r. acquire r txn ts) lets.new.items) }
    ensures table { IsTable links.new rows.new }
    ensures err { OnErr result (KeepsRows links.old links.new rows.old rows.new lets.new.items) }
    ensures no_memory { UsesNoMemoryAt (records_of links.old) rows.old key.now (λ r. acquire r txn ts) → IsOk result }
    ensures full { OnErr result (MayLack (record_at (records_of links.old rows.old) key.now) (Acquire txn ts)
        (vec_capacity lets.old)) }
    ensures kept { vec_capacity lets.old ≤ vec_capacity lets.new }
{
    let Some(row) = rows.get_mut(key) else {
        return Err(AllocError);
    };
    acquire(links, row, txn, ts, lets)
}

/// Whether a copy of the key takes memory.
#[inline(always)]
fn is_long(key: &Key) -> bool
    ensures { IsTrue result ↔ 22 < length key.now }
{
    key.as_bytes().len() > 22
}

/// A transaction acquires the key. A key of up to 22 bytes is copied without memory, so this finds its place in the
/// map by one search. A longer key is copied only if it has no row.
fn acquire_key(
    links: &mut Links,
    rows: &mut Rows,
    key: &Key,
    txn: TxnId,
    ts: Timestamp,
    lets: &mut Vec<Through>,
) -> Result<Reply, AllocError>
    requires table { IsTable links.old rows.old }
    requires lets { lets.old.items ≡ [] }
    ensures ok { IfOk result (UpdatesRows links.old links.new rows.old rows.new key.now
        (λ r. acquire r txn ts) lets.new.items) }
    ensures table { IsTable links.new rows.new }
    ensures err { OnErr result (KeepsRows links.old links.new rows.old rows.new lets.new.items) }
    ensures no_memory { UsesNoMemoryAt (records_of links.old) rows.old key.now (λ r. acquire r txn ts) → IsOk result }
    ensures full { OnErr result (MayLack (record_at (records_of links.old rows.old) key.now) (Acquire txn ts)
        (vec_capacity lets.old)) }
    ensures kept { vec_capacity lets.old ≤ vec_capacity lets.new }
{
    if is_long(key) && rows.contains_key(key) {
        return acquire_found(links, rows, key, txn, ts, lets);
    }
    let Ok(copy) = key.copy() else {
        return acquire_found(links, rows, key, txn, ts, lets);
    };
    acquire_entry(links, rows, copy, txn, ts, lets)
}

impl RowTable {
    /// A table without keys, whose keys are hashed from this start. This call allocates nothing; later calls allocate
    /// from this allocator.
    pub fn new(alloc: Global, start: u64) -> Self
        ensures { result ≡ map.empty }
    {
        RowTable {
            links: Links::new(alloc, start),
            rows: HashMap::with_hasher(alloc, KeyHashing::new(start)),
        }
    }

    /// Whether no key is held, reserved or waited for.
    #[inline(always)]
    pub fn has_no_row(&self) -> bool
        ensures { result ≡ true ↔ self.now ≡ map.empty }
    {
        self.rows.is_empty()
    }

    /// Gives the first key a row that this holder holds.
    pub fn add_held(&mut self, key: &Key, holder: &Holder) -> Result<(), AllocError>
        requires { self.old ≡ map.empty }
        ensures ok { OnOk result (IsStep self.old key.now (λ r. take_lock r holder.now) Taken [] self.new) }
        ensures err { OnErr result (self.new ≡ self.old) }
        ensures sound { AreSound self.new }
    {
        insert_held(&mut self.links, &mut self.rows, key, holder)
    }

    /// Makes the call at the key, for the pass with this number, as [`KeyTable::step`](lt_rules::KeyTable::step) does.
    pub fn step(
        &mut self,
        key: &Key,
        pass: u32,
        call: &Call,
        lets: &mut Vec<Through>,
    ) -> Result<Reply, AllocError>
        requires lets { lets.old.items ≡ [] }
        requires low { 1 ≤ pass }
        requires high { pass ≤ MAX_PASS }
        ensures ok { IfOk result (MakesCall (λ t. t) self.old self.new key.now pass call.now lets.new.items) }
        ensures err { OnErr result ((self.new ≡ self.old) × (lets.new.items ≡ [])) }
        ensures sound { AreSound self.new }
        ensures no_memory { UsesNoMemoryAt (λ t. t) self.old key.now (λ r. step r pass call.now) → IsOk result }
        ensures full { OnErr result (MayLack (record_at self.old key.now) call.now (vec_capacity lets.old)) }
        ensures room { HasRoom self.old (vec_capacity lets.old) → HasRoom self.new (vec_capacity lets.new) }
        ensures kept { vec_capacity lets.old ≤ vec_capacity lets.new }
    {
        match at_free_key(call) {
            AtFreeKey::Takes(holder) => acquire_key(
                &mut self.links,
                &mut self.rows,
                key,
                holder.txn,
                holder.ts,
                lets,
            ),
            AtFreeKey::Answers(reply) => {
                let Some(made) = step_row(&mut self.links, &mut self.rows, key, pass, call, lets)?
                else {
                    return Ok(reply);
                };
                drop_emptied(&mut self.links, &mut self.rows, key, made.emptied);
                Ok(made.reply)
            }
        }
    }

    /// What the request with this number finds at the key.
    pub fn look(&self, key: &Key, number: u64) -> Reply
        ensures { result ≡ look (record_at self.now key.now) number }
    {
        look_at(&self.links, &self.rows, key, number)
    }

    /// How many requests are queued at the key.
    pub fn lengths(&self, key: &Key) -> QueueLengths
        ensures writers { result.writers ≡ length (record_at self.now key.now).writers }
        ensures readers { result.readers ≡ length (record_at self.now key.now).readers }
    {
        lengths_at(&self.links, &self.rows, key)
    }

    /// A copy of the key's record.
    pub fn state(&self, alloc: Global, key: &Key) -> Result<KeyState, AllocError>
        ensures { IfOk result (λ state. state ≡ record_at self.now key.now) }
    {
        state_at(&self.links, &self.rows, alloc, key)
    }

    /// The keys that have a record, in byte order.
    pub fn keys(&self, alloc: Global) -> Result<Vec<Key>, AllocError>
        ensures { IfOk result (λ all. all.items ≡ map.keys self.now) }
    {
        all_keys(&self.links, &self.rows, alloc)
    }

    /// The first keys that have a record and come after the key `after`, as a set: at most `at_most`.
    pub fn least_keys(
        &self,
        alloc: Global,
        after: Option<&Key>,
        at_most: usize,
    ) -> Result<BTreeSet<Key>, AllocError>
        ensures { IfOk result (λ least. least.keys ≡ keys_after self.now (option_copied after.entry) at_most) }
    {
        least_keys(&self.links, &self.rows, alloc, after, at_most)
    }

    /// The first keys that have a record and come after the key `after`: at most `at_most`, in byte order.
    pub fn keys_after(
        &self,
        alloc: Global,
        after: Option<&Key>,
        at_most: usize,
    ) -> Result<Vec<Key>, AllocError>
        ensures { IfOk result (λ all. all.items ≡ keys_after self.now (option_copied after.entry) at_most) }
    {
        keys_after(&self.links, &self.rows, alloc, after, at_most)
    }
}

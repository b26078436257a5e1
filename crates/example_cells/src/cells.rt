//! What does a store keep beside the locks of a shard? The [`Cells`] of the shard's keys. They are told of each step of
//! the shard, so what they say of a key's lock is what all of the shard's steps made of it.
ghost use Rattle.std.specs.Prelude.{◌≡◌, ℕ, true, false, List, Some, OnOk, IsSome};
ghost use Rattle.std.specs.Arc.{arc_value};
ghost use mathlib.Core.List.{IsPrefix};
ghost use Rattle.lt_entry.specs.declared.entry.Entry.{Entry};
ghost use Rattle.example_values.specs.declared.entry.LeftValue.{LeftValue};
ghost use Rattle.example_cells.specs.Knowing.{cell_at, ToldEach, CellsKnow, InstallsWith};
ghost use Rattle.example_cells.specs.Leaving.{IsCellLeft, AreCellsLeft};

use crate::cell::{Cell, CellReading, PastTenure, Put};
use example_values::{SeenValues, ValueBook, ValueName, entries_stay};
use lt_ids::Key;
use lt_links::KeyHashing;
use lt_rules::{Call, Reply};
use lt_table_core::{Answer, ShardValue};
use lt_tenure::laws::{freeing_ends_a_tenure, last_freed_follows, owner_follows, tenure_lasts};
use lt_words::Name;
use std::alloc::{AllocError, Global};
use std::collections::HashMap;
use std::marker::PhantomData;
use std::sync::Arc;

pub(crate) type CellMap = HashMap<Key, Cell, KeyHashing, Global>;

/// Tells the key's cell of the step.
fn tell(cells: &mut CellMap, key: &Key, call: &Call, reply: &Reply, at: u64)
    ensures { ToldEach cells.old cells.new key.now call.now reply.now at }
{
    // No other call takes or frees a lock.
    match call {
        Call::Acquire { txn: _, ts: _ } | Call::Finish { txn: _ } => {}
        _ => return,
    }
    let Some(cell) = cells.get_mut(key) else {
        return;
    };
    cell.told(call, reply, at);
}

/// Makes the key's cell, if it has none.
fn make(cells: &mut CellMap, key: &Key) -> Result<(), AllocError>
    ensures made { OnOk result (IsSome (cell_at cells.new key.now)) }
    ensures left { (shards : ℕ) (log : List LeftValue) → AreCellsLeft shards log cells.old → AreCellsLeft shards log cells.new }
    ensures keeps { (es : List Entry) → CellsKnow es cells.old → CellsKnow es cells.new }
{
    if cells.contains_key(key) {
        return Ok(());
    }
    match cells.insert(key.copy()?, Cell::empty()) {
        Ok(_) => Ok(()),
        Err(_) => Err(AllocError),
    }
}

/// Gives the key's cell what was put, if there is one.
fn install(cells: &mut CellMap, key: &Key, put: Option<Put>)
    ensures { InstallsWith false cells.old cells.new key.now put }
{
    if let Some(cell) = cells.get_mut(key) {
        cell.install(put);
    }
}

/// Gives the key's cell what was put, if there is one, and appends its value to the log of values. Whether it did.
fn install_and_leave(
    cells: &mut CellMap,
    book: &ValueBook,
    seen: &mut SeenValues,
    shards: usize,
    key: &Key,
    put: Option<Put>,
) -> bool
    requires book { book.now ≡ seen.old.book }
    ensures installs { InstallsWith result cells.old cells.new key.now put }
    ensures book { seen.new.book ≡ seen.old.book }
    ensures more { IsPrefix seen.old.log seen.new.log }
    ensures here { (c : _) → cell_at cells.new key.now ≡ Some c → IsCellLeft shards seen.new.log key.now c }
{
    let Some(cell) = cells.get_mut(key) else {
        return false;
    };
    cell.install(put);
    cell.leave(book, seen, key, shards);
    cell.left
}

/// What an installation tells.
#[derive(Drop)]
pub struct Installed {
    /// The tenure of the key's lock that ended last.
    pub last: Option<PastTenure>,
    /// Whether the log of values has the value, as what the step left that ended this tenure.
    pub left: bool,
    /// What was seen of the log of values.
    pub values: SeenValues,
}

/// The cells of the keys of a shard. `N` names the table, and the log of the values that its steps left.
#[derive(Drop)]
pub struct Cells<N: Name + ValueName> {
    pub map: CellMap,
    book: Arc<ValueBook>,
    pub seen: SeenValues,
    shards: usize,
    name: PhantomData<N>,
    pub ghost of_book: { arc_value book ≡ N.values },
    pub ghost of_seen: { seen.book ≡ N.values },
    pub ghost many: { shards ≡ N.of.shards },
    pub ghost left: { AreCellsLeft N.of.shards seen.log map },
}

impl<N: Name + ValueName> Cells<N> {
    ghost use Rattle.std.specs.Prelude.{◌≡◌, true, [], List, Some, IfSome, OnOk, IfOk, IsSome, MatchOption};
    ghost use Rattle.std.specs.Arc.{arc_value};
    ghost use Rattle.lt_entry.specs.declared.entry.Entry.{Entry};
    ghost use Rattle.example_cells.specs.Knowing.{cell_at, CellsKnow, InstallsWith, ReadsCell, last_of, value_bytes};
    ghost use Rattle.example_cells.specs.Leaving.{LeftAt, IsReadingLeft};

    /// No cells. Keys are hashed from this start. `book` keeps the log of values, and `shards` says how many shards the table
    /// has.
    pub fn new(alloc: Global, start: u64, book: Arc<ValueBook>, shards: usize) -> Cells<N>
        requires book { arc_value book ≡ N.values }
        requires many { shards ≡ N.of.shards }
        ensures { CellsKnow [] result.map }
    {
        let seen = book.seen();
        Cells {
            map: HashMap::with_hasher(alloc, KeyHashing::new(start)),
            book,
            seen,
            shards,
            name: PhantomData,
        }
    }

    /// A copy of the key's value, and whose tenure ended last.
    pub fn read(&self, alloc: Global, key: &Key) -> Result<CellReading, AllocError>
        ensures reads { IfOk result (λ r. ReadsCell (cell_at self.now.map key.now) r) }
        ensures left { IfOk result (λ r. IsReadingLeft N.of.shards self.now.seen.log key.now r) }
    {
        match self.map.get(key) {
            None => Ok(CellReading {
                value: None,
                last: None,
                owner: None,
                left: false,
            }),
            Some(cell) => cell.read(alloc),
        }
    }

    /// The tenure of the key's lock that ended last.
    pub fn last(&self, key: &Key) -> Option<PastTenure>
        ensures { result ≡ last_of (cell_at self.now.map key.now) }
    {
        match self.map.get(key) {
            None => None,
            Some(cell) => cell.last,
        }
    }

    /// Gives the key this value, and a cell if it has none. After an error nothing has changed. The log of values does not have
    /// the value.
    pub(crate) fn load(&mut self, key: &Key, value: Put) -> Result<(), AllocError>
        ensures keeps { (es : List Entry) → CellsKnow es self.old.map → CellsKnow es self.new.map }
    {
        make(&mut self.map, key)?;
        install(&mut self.map, key, Some(value));
        Ok(())
    }

    /// Gives the key what was put, if it has a cell, and appends its value to the log of values. If nothing was put, the value
    /// stays.
    pub(crate) fn install(&mut self, key: &Key, put: Option<Put>) -> Installed
        ensures installs { InstallsWith result.left self.old.map self.new.map key.now put }
        ensures keeps { (es : List Entry) → CellsKnow es self.old.map → CellsKnow es self.new.map }
        ensures last { result.last ≡ last_of (cell_at self.old.map key.now) }
        ensures book { result.values.book ≡ N.values }
        ensures left { result.left ≡ true → IfSome result.last (λ t. IfSome put (λ p. LeftAt N.of.shards result.values.log key.now t.freed (value_bytes p))) }
    {
        entries_stay();
        let last = self.last(key);
        let left = install_and_leave(
            &mut self.map,
            &self.book,
            &mut self.seen,
            self.shards,
            key,
            put,
        );
        Installed {
            last,
            left,
            values: self.seen.again(),
        }
    }
}

impl<N: Name + ValueName> ShardValue for Cells<N> {
    ghost use Rattle.example_cells.specs.Knowing.{CellsKnow, HasCellFor};

    ghost fits = { λ es v. CellsKnow es v.map };

    ghost has_room = { λ v key call. HasCellFor v.map key call };

    fn reserve(&mut self, key: &Key, call: &Call) -> Result<(), AllocError> {
        match call {
            Call::Acquire { txn: _, ts: _ } => make(&mut self.map, key),
            _ => Ok(()),
        }
    }

    fn follow(&mut self, _pass: u32, key: &Key, call: &Call, answer: &Answer) {
        owner_follows();
        last_freed_follows();
        freeing_ends_a_tenure();
        tenure_lasts();
        tell(&mut self.map, key, call, &answer.reply, answer.at);
    }
}

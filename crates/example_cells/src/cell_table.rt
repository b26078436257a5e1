//! What is a table with cells? Read next `src/taking.rt`, how a transaction takes a lock and reads the key.
ghost use Rattle.std.specs.Prelude.{◌≡◌, List, IfOk};
ghost use Rattle.lt_entry.specs.declared.entry.Entry.{Entry};
ghost use Rattle.lt_words.specs.History.{part, shard_of};
ghost use Rattle.lt_words.specs.Row.{SeesMore};
ghost use Rattle.example_cells.specs.Knowing.{CellMap, CellsKnow, ReadsCell, cell_at};

use crate::cell::{CellReading, Put};
use crate::cells::Cells;
use example_values::ValueName;
use lt_ids::Key;
use lt_rules::KeyTable;
use lt_table_core::Table;
use lt_words::{Name, Pass};
use std::alloc::{AllocError, Global};
use std::sync::Wait;

/// A lock table that has the [`Cells`] of each shard's keys beside the shard.
#[derive(Drop)]
pub struct CellTable<N: Name + ValueName, T: KeyTable> {
    pub(crate) alloc: Global,
    /// The locks.
    pub table: Table<N, T, (), Cells<N>>,
}

impl<N: Name + ValueName, T: KeyTable> CellTable<N, T> {
    /// A table with cells. Readings allocate from `alloc`.
    pub fn new(alloc: Global, table: Table<N, T, (), Cells<N>>) -> CellTable<N, T> {
        CellTable { alloc, table }
    }

    /// The allocator of the readings.
    pub fn alloc(&self) -> Global {
        self.alloc
    }

    /// The lock table, to be closed. The values are gone.
    pub fn into_table(self) -> Table<N, T, (), Cells<N>> {
        let CellTable { table, .. } = self;
        table
    }

    /// Gives the key this value, whoever holds its lock: for a store that fills its keys before transactions begin. The only
    /// error is that memory ran out. Then nothing has changed.
    pub fn load<R: Wait>(
        &self,
        rt: &R,
        pass: &mut Pass,
        key: &Key,
        value: Put,
    ) -> Result<(), AllocError>
        requires of { pass.old.of ≡ N.of }
        ensures more { SeesMore pass.old pass.new }
    {
        self.table.change_value(
            rt,
            pass,
            key,
            |cells: &mut Cells<N>| -> Result<(), AllocError>
                ensures { (es : List Entry) → CellsKnow es cells.old.map → CellsKnow es cells.new.map }
            { cells.load(key, value) },
        )
    }

    /// Reads the key as all steps of its shard have left it: the value of the transaction whose tenure of the lock ended
    /// last. Takes no lock and waits for no transaction, so two reads of one transaction may differ (read committed). The
    /// only error is that memory ran out.
    pub fn read<R: Wait>(
        &self,
        rt: &R,
        pass: &mut Pass,
        key: &Key,
    ) -> Result<CellReading, AllocError>
        requires of { pass.old.of ≡ N.of }
        ensures more { SeesMore pass.old pass.new }
        ensures read { IfOk result (λ r. (cells : CellMap)
            × CellsKnow (part (shard_of key.now N.of.shards) pass.new.seen) cells × ReadsCell (cell_at cells key.now) r) }
    {
        let alloc = self.alloc;
        self.table.value(
            rt,
            pass,
            key,
            |cells: &Cells<N>| -> Result<CellReading, AllocError>
                ensures { IfOk result (λ r. ReadsCell (cell_at cells.now.map key.entry.now) r) }
            { cells.read(alloc, key) },
        )
    }
}

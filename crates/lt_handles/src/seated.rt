//! What do the handles of a shared table have in common? The table, and a seat for each of its passes.
use lt_lock::LinkedTable;
use lt_try::{LinkedTables, Seats, TryTable};
use std::marker::Model;

/// A table that threads share. Its passes keep the lets of their steps.
pub type SharedTable = TryTable<LinkedTable, LinkedTables>;

/// A shared table with the seats in which its passes come back. In a contract, it is the table.
#[derive(Drop)]
pub struct SeatedTable {
    pub shared: SharedTable,
    pub seats: Seats,
}

impl Model for SeatedTable {
    ghost use Rattle.std.specs.Prelude.{◌≡◌};
    ghost use Rattle.lt_try.specs.Tags.{TableState};

    ghost Value = { TableState };

    ghost view = { λ s. s.shared };

    ghost invariant = { λ s. s.seats ≡ s.shared.of };
}

//! What all passes of a run share.
use crate::gate::Gate;
use lt_rules::KeyTable;
use lt_script::Command;
use lt_table_core::Table;
use lt_words::Name;
use std::alloc::Global;

/// What to run: the lines, the gate, and the turns. With turns each pass runs on a thread of its own, and a line
/// `await` polls at most that often. `None` means one thread, without turns.
#[derive(Clone, Copy)]
pub struct Plan<'a, G: Gate> {
    pub commands: &'a [Command],
    pub turns: Option<u64>,
    pub gate: &'a G,
}

/// Where to run it: the runtime, the allocator, and the table.
#[derive(Clone, Copy)]
pub struct Host<'a, N: Name, T: KeyTable, R> {
    pub rt: &'a R,
    pub alloc: Global,
    pub table: &'a Table<N, T>,
}

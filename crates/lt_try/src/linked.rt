//! Which tables do the shards of a table for a static library have? Linked ones.
use lt_lock::LinkedTable;
use lt_shard::EmptyTables;
use std::alloc::Global;

/// Makes empty linked tables, whose keys are hashed from this start. Whoever chooses the keys can make a table slow if
/// he knows the start, so draw it where nobody can guess it.
#[derive(Drop)]
pub struct LinkedTables {
    pub alloc: Global,
    pub start: u64,
}

impl EmptyTables<LinkedTable> for LinkedTables {
    fn empty_table(&self) -> LinkedTable {
        LinkedTable::new(self.alloc, self.start)
    }
}

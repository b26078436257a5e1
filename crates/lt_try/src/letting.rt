//! How do callers whom nobody calls learn whom their steps let through? Each pass keeps the lets of its steps, and its
//! caller takes them out after each call.
ghost use Rattle.std.specs.Prelude.{◌≡◌, IfOk};
ghost use Rattle.std.specs.List.{All};
ghost use Rattle.lt_words.specs.Row.{AreFresh, AreTelling};

use crate::table::TryTable;
use lt_rules::KeyTable;
use lt_shard::EmptyTables;
use lt_walk::{Ready, keeping_lets};
use lt_words::Pass;
use std::alloc::{AllocError, Global};

impl<T: KeyTable + Drop, M: EmptyTables<T> + Drop> TryTable<T, M> {
    /// [`TryTable::open`] of a table whose passes keep the lets of their steps. After each call a caller takes them out, by
    /// `Pass::next_untold` or `Guard::next_untold`, until none is left, and tells the caller of each pass that is named. That
    /// caller polls, and then scans. The law `lets_are_left` of `lt_walk` says that nobody is forgotten.
    pub fn open_telling(
        alloc: Global,
        ready: Ready,
        tables: M,
    ) -> Result<(TryTable<T, M>, Vec<Pass>), AllocError>
        ensures config { IfOk result (λ r. r.0.config ≡ ready.config) }
        ensures book { IfOk result (λ r. r.0.of ≡ ready.of) }
        ensures passes { IfOk result (λ r. AreFresh ready.of ready.of.passes r.1.items) }
        // Each pass keeps every let of its steps.
        ensures telling { IfOk result (λ r. AreTelling r.1.items) }
        ensures of { IfOk result (λ r. All (λ p. p.of ≡ ready.of) r.1.items) }
    {
        let (table, passes) = TryTable::open(alloc, ready, tables)?;
        let passes = keeping_lets(alloc, &table.book, passes)?;
        Ok((table, passes))
    }
}

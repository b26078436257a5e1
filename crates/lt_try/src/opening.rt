//! How is a table opened over a prepared book and one empty table for each shard? `prepare` and `prepare_with` of
//! `lt_walk` make the book, in one of the three ways of keeping steps.
ghost use Rattle.std.specs.Prelude.{◌≡◌, ◌≤◌, ◌<◌, ◌^◌, IfOk, length, map};
ghost use Rattle.std.specs.List.{All};
ghost use Rattle.lt_words.specs.Row.{AreFresh, AreNoting, fresh_passes};
ghost use Rattle.lt_try.specs.Tags.{AreTags, IsTag};

use crate::slot::{ShardSlot, ShardTag};
use crate::table::TryTable;
use lt_rules::KeyTable;
use lt_shard::{EmptyTables, Shard};
use lt_walk::{Ready, ReadyParts, noting_lets, parts_of};
use lt_words::{Book, Pass, Waker, abandon_all};
use std::alloc::{AllocError, Global};

/// A new shard in its slot.
fn new_slot<T: KeyTable + Drop, M: EmptyTables<T>>(
    alloc: Global,
    book: &Book,
    tables: &M,
    index: usize,
    max_steps: u64,
) -> Result<ShardSlot<T>, AllocError>
    requires index { index < book.now.shards }
    requires low { 1 ≤ max_steps }
    requires high { max_steps ≤ 2 ^ 32 }
    ensures { IfOk result (λ slot. IsTag book.now max_steps index slot.tag) }
{
    let shard = Shard::new(alloc, tables.empty_table(), book, index, max_steps);
    let tag = ShardTag {
        start: book.front(),
        index,
        max_steps,
    };
    ShardSlot::new(alloc, shard, &tag)
}

/// The slots of a new book's shards, in order.
fn new_slots<T: KeyTable + Drop, M: EmptyTables<T>>(
    alloc: Global,
    book: &Book,
    tables: &M,
    shards: usize,
    max_steps: u64,
) -> Result<Vec<ShardSlot<T>>, AllocError>
    requires shards { shards ≡ book.now.shards }
    requires low { 1 ≤ max_steps }
    requires high { max_steps ≤ 2 ^ 32 }
    ensures many { IfOk result (λ slots. length slots.items ≡ shards) }
    ensures each { IfOk result (λ slots. AreTags book.now max_steps slots.items) }
{
    let mut slots = Vec::new(alloc);
    for index in 0..shards {
        slots.push(new_slot(alloc, book, tables, index, max_steps)?)?;
    }
    Ok(slots)
}

impl<T: KeyTable + Drop, M: EmptyTables<T> + Drop> TryTable<T, M> {
    /// Opens the table of a prepared book, over one empty table for each shard. The passes have seen nothing and made no
    /// step. If an allocation fails, the passes are given up with the book.
    pub fn open(
        alloc: Global,
        ready: Ready,
        tables: M,
    ) -> Result<(TryTable<T, M>, Vec<Pass>), AllocError>
        ensures config { IfOk result (λ r. r.0.config ≡ ready.config) }
        ensures book { IfOk result (λ r. r.0.of ≡ ready.of) }
        ensures passes { IfOk result (λ r. r.1.items ≡ fresh_passes ready.of ready.of.passes) }
        ensures of { IfOk result (λ r. All (λ p. p.of ≡ ready.of) r.1.items) }
    {
        let ReadyParts {
            config,
            book,
            passes,
        } = parts_of(ready);
        let Ok(slots) = new_slots(alloc, &book, &tables, config.shards, config.max_steps) else {
            abandon_all(passes);
            return Err(AllocError);
        };
        let table = TryTable {
            config,
            book,
            slots,
            tables,
            waker: (),
        };
        Ok((table, passes))
    }

    /// [`TryTable::open`], with a waker that is called for each let, by the call that let the request through, once it is
    /// out of the shard. Each pass allocates room for one let of each pass.
    pub fn open_waking<W: Waker + Drop>(
        alloc: Global,
        ready: Ready,
        tables: M,
        waker: W,
    ) -> Result<(TryTable<T, M, W>, Vec<Pass>), AllocError>
        ensures config { IfOk result (λ r. r.0.config ≡ ready.config) }
        ensures book { IfOk result (λ r. r.0.of ≡ ready.of) }
        ensures passes { IfOk result (λ r. AreFresh ready.of ready.of.passes r.1.items) }
        // Each pass notes every let of a step.
        ensures noting { IfOk result (λ r. AreNoting ready.of.passes r.1.items) }
        ensures of { IfOk result (λ r. All (λ p. p.of ≡ ready.of) r.1.items) }
    {
        let (table, passes) = TryTable::open(alloc, ready, tables)?;
        let passes = noting_lets(passes)?;
        Ok((table.with_waker(waker), passes))
    }

    fn with_waker<W: Waker>(self, waker: W) -> TryTable<T, M, W>
        ensures { result ≡ self }
    {
        let TryTable {
            config,
            book,
            slots,
            tables,
            waker: (),
        } = self;
        TryTable {
            config,
            book,
            slots,
            tables,
            waker,
        }
    }
}

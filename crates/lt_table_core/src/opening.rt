//! How is a table opened over a prepared book and one empty table for each shard?
//!
//! `lt_table` calls `open_with` and `open_waking_with` with linked tables. Read next `src/table.rt`.
ghost use Rattle.std.specs.Prelude.{◌≡◌, ◌≤◌, ◌^◌, ℕ, [], IfOk, length, map};
ghost use Rattle.std.specs.List.{All};
ghost use Rattle.std.specs.FinMap as finmap;
ghost use Rattle.lt_words.specs.Row.{AreFresh, AreNoting, fresh_passes};
ghost use Rattle.lt_walk.specs.Configs.{AreNewShards};
ghost use Rattle.lt_table_core.specs.Slots.{AreInPlace};

use crate::shard_value::ShardValue;
use crate::table::{Label, Slot, Table};
use lt_rules::KeyTable;
use lt_shard::Shard;
use lt_walk::{Ready, ReadyParts, noting_lets, parts_of};
use lt_words::{Book, Name, Pass, Waker, abandon_all};
use std::alloc::{AllocError, Global};

/// The shards over these tables, in order. Each may hold `max_steps` steps.
fn shards_over<T: KeyTable + Drop>(
    alloc: Global,
    book: &Book,
    tables: Vec<T>,
    max_steps: u64,
) -> Result<Vec<Shard<T>>, AllocError>
    requires many { length tables.items ≡ book.now.shards }
    requires empty { All (λ t. T.records t ≡ finmap.empty) tables.items }
    requires low { 1 ≤ max_steps }
    requires high { max_steps ≤ 2 ^ 32 }
    ensures many { IfOk result (λ shards. length shards.items ≡ book.now.shards) }
    ensures each { IfOk result (λ shards. AreNewShards book.now max_steps shards.items) }
{
    let mut shards = Vec::new(alloc);
    for table in tables {
        let index = shards.len();
        shards.push(Shard::new(alloc, table, book, index, max_steps))?;
    }
    Ok(shards)
}

/// Puts each of these new shards behind a lock of its own, in order, each with the value beside it that `make` makes for
/// its index.
fn slots_of<N: Name, T: KeyTable + Drop, V: ShardValue + Drop, F>(
    alloc: Global,
    shards: Vec<Shard<T>>,
    max_steps: u64,
    make: F,
) -> Result<Vec<Slot<N, T, V>>, AllocError>
where
    F: Fn(usize) -> Result<V, AllocError>,
    requires new { AreNewShards N.of max_steps shards.items }
    requires callable { F.IsAlwaysCallable make }
    requires fit { (index : ℕ) (r : _) → F.post make index r → IfOk r (λ v. V.fits [] v) }
    ensures many { IfOk result (λ slots. length slots.items ≡ length shards.items) }
    ensures each { IfOk result (λ slots. AreInPlace max_steps (map (λ s. s.label) slots.items)) }
{
    let mut slots = Vec::new(alloc);
    for shard in shards {
        let label = Label {
            index: slots.len(),
            max_steps,
        };
        let value = make(label.index)?;
        slots.push(Slot::new(shard, value, label))?;
    }
    Ok(slots)
}

/// The shards over these tables, each behind a lock of its own. Each may hold `max_steps` steps.
fn slots_over<N: Name, T: KeyTable + Drop, V: ShardValue + Drop, F>(
    alloc: Global,
    book: &Book,
    tables: Vec<T>,
    max_steps: u64,
    make: F,
) -> Result<Vec<Slot<N, T, V>>, AllocError>
where
    F: Fn(usize) -> Result<V, AllocError>,
    requires book { book.now ≡ N.of }
    requires many { length tables.items ≡ N.of.shards }
    requires empty { All (λ t. T.records t ≡ finmap.empty) tables.items }
    requires low { 1 ≤ max_steps }
    requires high { max_steps ≤ 2 ^ 32 }
    requires callable { F.IsAlwaysCallable make }
    requires fit { (index : ℕ) (r : _) → F.post make index r → IfOk r (λ v. V.fits [] v) }
    ensures many { IfOk result (λ slots. length slots.items ≡ N.of.shards) }
    ensures each { IfOk result (λ slots. AreInPlace max_steps (map (λ s. s.label) slots.items)) }
{
    let shards = shards_over(alloc, book, tables, max_steps)?;
    slots_of(alloc, shards, max_steps, make)
}

/// Opens the table of a prepared book over these tables: one for each shard, in order, all of them empty. The
/// passes have seen nothing and made no step. `N` names the book that was prepared. If an allocation fails, the
/// passes are given up with the book.
///
/// Each lock is given the shard of its index, which has made no step and may hold as many steps as the configuration
/// says: the invariant of [`Table`] asks for that.
pub fn open_with<N: Name, T: KeyTable + Drop>(
    alloc: Global,
    ready: Ready,
    tables: Vec<T>,
) -> Result<(Table<N, T>, Vec<Pass>), AllocError>
    requires named { ready.of ≡ N.of }
    requires many { length tables.items ≡ N.of.shards }
    requires empty { All (λ t. T.records t ≡ finmap.empty) tables.items }
    ensures config { IfOk result (λ r. r.0 ≡ ready.config) }
    ensures passes { IfOk result (λ r. r.1.items ≡ fresh_passes N.of N.of.passes) }
    ensures of { IfOk result (λ r. All (λ p. p.of ≡ N.of) r.1.items) }
{
    open_valued_with(alloc, ready, tables, |_| Ok(()))
}

/// [`open_with`], with a value beside each shard. `make` makes it for the shard's index, and it fits a shard that has made
/// no step.
pub fn open_valued_with<N: Name, T: KeyTable + Drop, V: ShardValue + Drop, F>(
    alloc: Global,
    ready: Ready,
    tables: Vec<T>,
    make: F,
) -> Result<(Table<N, T, (), V>, Vec<Pass>), AllocError>
where
    F: Fn(usize) -> Result<V, AllocError>,
    requires named { ready.of ≡ N.of }
    requires many { length tables.items ≡ N.of.shards }
    requires empty { All (λ t. T.records t ≡ finmap.empty) tables.items }
    requires callable { F.IsAlwaysCallable make }
    requires fit { (index : ℕ) (r : _) → F.post make index r → IfOk r (λ v. V.fits [] v) }
    ensures config { IfOk result (λ r. r.0 ≡ ready.config) }
    ensures passes { IfOk result (λ r. r.1.items ≡ fresh_passes N.of N.of.passes) }
    ensures of { IfOk result (λ r. All (λ p. p.of ≡ N.of) r.1.items) }
{
    let ReadyParts {
        config,
        book,
        passes,
    } = parts_of(ready);
    let Ok(shards) = slots_over(alloc, &book, tables, config.max_steps, make) else {
        abandon_all(passes);
        return Err(AllocError);
    };
    let table = Table {
        config,
        book,
        shards,
        waker: (),
    };
    Ok((table, passes))
}

/// [`open_with`], with a waker that is called for each let. Each pass allocates room for one let of each pass.
pub fn open_waking_with<N: Name, T: KeyTable + Drop, W: Waker + Drop>(
    alloc: Global,
    ready: Ready,
    tables: Vec<T>,
    waker: W,
) -> Result<(Table<N, T, W>, Vec<Pass>), AllocError>
    requires named { ready.of ≡ N.of }
    requires many { length tables.items ≡ N.of.shards }
    requires empty { All (λ t. T.records t ≡ finmap.empty) tables.items }
    ensures config { IfOk result (λ r. r.0 ≡ ready.config) }
    ensures passes { IfOk result (λ r. AreFresh N.of N.of.passes r.1.items) }
    // Each pass notes every let of a step.
    ensures noting { IfOk result (λ r. AreNoting N.of.passes r.1.items) }
    ensures of { IfOk result (λ r. All (λ p. p.of ≡ N.of) r.1.items) }
{
    open_valued_waking_with(alloc, ready, tables, waker, |_| Ok(()))
}

/// [`open_waking_with`], with a value beside each shard, as in [`open_valued_with`].
pub fn open_valued_waking_with<N: Name, T: KeyTable + Drop, W: Waker + Drop, V, F>(
    alloc: Global,
    ready: Ready,
    tables: Vec<T>,
    waker: W,
    make: F,
) -> Result<(Table<N, T, W, V>, Vec<Pass>), AllocError>
where
    V: ShardValue + Drop,
    F: Fn(usize) -> Result<V, AllocError>,
    requires named { ready.of ≡ N.of }
    requires many { length tables.items ≡ N.of.shards }
    requires empty { All (λ t. T.records t ≡ finmap.empty) tables.items }
    requires callable { F.IsAlwaysCallable make }
    requires fit { (index : ℕ) (r : _) → F.post make index r → IfOk r (λ v. V.fits [] v) }
    ensures config { IfOk result (λ r. r.0 ≡ ready.config) }
    ensures passes { IfOk result (λ r. AreFresh N.of N.of.passes r.1.items) }
    // Each pass notes every let of a step.
    ensures noting { IfOk result (λ r. AreNoting N.of.passes r.1.items) }
    ensures of { IfOk result (λ r. All (λ p. p.of ≡ N.of) r.1.items) }
{
    let (table, passes) = open_valued_with(alloc, ready, tables, make)?;
    let passes = noting_lets(passes)?;
    Ok((table.with_waker(waker), passes))
}

impl<N: Name, T: KeyTable, V: ShardValue> Table<N, T, (), V> {
    fn with_waker<W: Waker>(self, waker: W) -> Table<N, T, W, V>
        ensures { result ≡ self }
    {
        let Table {
            config,
            book,
            shards,
            waker: (),
        } = self;
        Table {
            config,
            book,
            shards,
            waker,
        }
    }
}

/// Makes `count` empty tables, each by `make`, over which a table can be opened.
pub fn empty_tables<T: KeyTable + Drop, F: Fn() -> T>(
    alloc: Global,
    count: usize,
    make: F,
) -> Result<Vec<T>, AllocError>
    requires callable { F.IsAlwaysCallable make }
    requires empty { (t : _) → F.post make t → T.records t ≡ finmap.empty }
    ensures many { IfOk result (λ tables. length tables.items ≡ count) }
    ensures empty { IfOk result (λ tables. All (λ t. T.records t ≡ finmap.empty) tables.items) }
{
    let mut tables = Vec::new(alloc);
    for _ in 0..count {
        tables.push(make())?;
    }
    Ok(tables)
}

//! How is a table over linked queues opened?
ghost use Rattle.std.specs.Prelude.{◌≡◌, ℕ, [], IfOk, length};
ghost use Rattle.std.specs.List.{All};
ghost use Rattle.std.specs.FinMap as finmap;
ghost use Rattle.lt_words.specs.Row.{AreFresh, AreNoting, fresh_passes};

use lt_lock::LinkedTable;
use lt_table_core::{
    Ready, ShardValue, Table, empty_tables, open_valued_waking_with, open_valued_with,
    open_waking_with, open_with,
};
use lt_words::{Name, Pass, Waker};
use std::alloc::{AllocError, Global};

/// Makes `count` empty tables over linked queues, whose keys are hashed from this start: one for each shard of a table
/// that [`open_with`] opens.
pub fn linked_tables(
    alloc: Global,
    count: usize,
    start: u64,
) -> Result<Vec<LinkedTable>, AllocError>
    ensures many { IfOk result (λ tables. length tables.items ≡ count) }
    ensures empty { IfOk result (λ tables. All (λ t. t ≡ finmap.empty) tables.items) }
{
    empty_tables(
        alloc,
        count,
        || -> LinkedTable
            ensures { result ≡ finmap.empty }
        { LinkedTable::new(alloc, start) },
    )
}

/// Opens the table of a prepared book over linked queues. The passes have seen nothing and made no step. `N` names
/// the book that was prepared. If an allocation fails, the passes are given up with the book.
///
/// The keys of each shard are hashed from this start. Draw it with [`random_start`](crate::random_start), for each table:
/// whoever chooses the keys and knows the start can make the table slow. What the table answers does not depend on it.
pub fn open<N: Name>(
    alloc: Global,
    ready: Ready,
    start: u64,
) -> Result<(Table<N, LinkedTable>, Vec<Pass>), AllocError>
    requires { ready.of ≡ N.of }
    ensures config { IfOk result (λ r. r.0 ≡ ready.config) }
    ensures passes { IfOk result (λ r. r.1.items ≡ fresh_passes N.of N.of.passes) }
    ensures of { IfOk result (λ r. All (λ p. p.of ≡ N.of) r.1.items) }
{
    let Ok(tables) = linked_tables(alloc, ready.config().shards, start) else {
        ready.abandon();
        return Err(AllocError);
    };
    open_with(alloc, ready, tables)
}

/// [`open`], with a waker that is called for each let. Each pass allocates room for one let of each pass.
pub fn open_waking<N: Name, W: Waker + Drop>(
    alloc: Global,
    ready: Ready,
    start: u64,
    waker: W,
) -> Result<(Table<N, LinkedTable, W>, Vec<Pass>), AllocError>
    requires { ready.of ≡ N.of }
    ensures config { IfOk result (λ r. r.0 ≡ ready.config) }
    ensures passes { IfOk result (λ r. AreFresh N.of N.of.passes r.1.items) }
    // Each pass notes every let of a step.
    ensures noting { IfOk result (λ r. AreNoting N.of.passes r.1.items) }
    ensures of { IfOk result (λ r. All (λ p. p.of ≡ N.of) r.1.items) }
{
    let Ok(tables) = linked_tables(alloc, ready.config().shards, start) else {
        ready.abandon();
        return Err(AllocError);
    };
    open_waking_with(alloc, ready, tables, waker)
}

/// [`open`], with a value beside each shard ([`ShardValue`]). `make` makes it for the shard's index, and it fits a shard
/// that has made no step.
pub fn open_valued<N: Name, V: ShardValue + Drop, F>(
    alloc: Global,
    ready: Ready,
    start: u64,
    make: F,
) -> Result<(Table<N, LinkedTable, (), V>, Vec<Pass>), AllocError>
where
    F: Fn(usize) -> Result<V, AllocError>,
    requires named { ready.of ≡ N.of }
    requires callable { F.IsAlwaysCallable make }
    requires fit { (index : ℕ) (r : _) → F.post make index r → IfOk r (λ v. V.fits [] v) }
    ensures config { IfOk result (λ r. r.0 ≡ ready.config) }
    ensures passes { IfOk result (λ r. r.1.items ≡ fresh_passes N.of N.of.passes) }
    ensures of { IfOk result (λ r. All (λ p. p.of ≡ N.of) r.1.items) }
{
    let Ok(tables) = linked_tables(alloc, ready.config().shards, start) else {
        ready.abandon();
        return Err(AllocError);
    };
    open_valued_with(alloc, ready, tables, make)
}

/// [`open_waking`], with a value beside each shard, as in [`open_valued`].
pub fn open_valued_waking<N: Name, W: Waker + Drop, V: ShardValue + Drop, F>(
    alloc: Global,
    ready: Ready,
    start: u64,
    waker: W,
    make: F,
) -> Result<(Table<N, LinkedTable, W, V>, Vec<Pass>), AllocError>
where
    F: Fn(usize) -> Result<V, AllocError>,
    requires named { ready.of ≡ N.of }
    requires callable { F.IsAlwaysCallable make }
    requires fit { (index : ℕ) (r : _) → F.post make index r → IfOk r (λ v. V.fits [] v) }
    ensures config { IfOk result (λ r. r.0 ≡ ready.config) }
    ensures passes { IfOk result (λ r. AreFresh N.of N.of.passes r.1.items) }
    // Each pass notes every let of a step.
    ensures noting { IfOk result (λ r. AreNoting N.of.passes r.1.items) }
    ensures of { IfOk result (λ r. All (λ p. p.of ≡ N.of) r.1.items) }
{
    let Ok(tables) = linked_tables(alloc, ready.config().shards, start) else {
        ready.abandon();
        return Err(AllocError);
    };
    open_valued_waking_with(alloc, ready, tables, waker, make)
}

//! What do transactions leave at a key, and what do they find there? A test plays rows, each a transaction of one key: it
//! takes the key's lock, says what it finds, writes or does not, and commits or aborts. The expected values are found by
//! hand: each transaction makes two steps at the key, so the one in row r takes the lock by step 2r and frees it by step
//! 2r + 1. So it does however the table keeps its steps.
//!
//! A take that runs out of memory is made once more.
ghost use Rattle.std.specs.Prelude.{◌≡◌, [], IfSome, IfOk};
ghost use Rattle.example_cells.specs.Knowing.{CellsKnow};
ghost use Rattle.std.specs.Arc.{arc_value};

use example_cells::{ActiveTxn, CellReading, CellTable, Cells, HeldLock, PastTenure, TakenLock};
use example_values::{ValueBook, ValueName};
use lt_ids::{Key, Timestamp};
use lt_table::{Config, Keeping, LinkedTable, Ready, open_valued, prepare_with};
use lt_test_kit::key::key_of;
use lt_test_kit::run::seated;
use lt_words::{Name, Pass};
use std::alloc::{AllocError, Global};
use std::marker::Brand;
use std::sync::{Arc, Wait};
use std::test::Fail;

const LIMITS: Config = Config {
    shards: 1,
    passes: 1,
    max_steps: 100,
    max_requests: 10,
    max_waits: 1,
};

const TS: Timestamp = Timestamp {
    wall: 10,
    logical: 0,
};

/// What a transaction writes: nothing, a byte, or that the key has no value.
#[derive(Clone, Copy)]
enum Write {
    Nothing,
    Byte(u8),
    Delete,
}

/// The byte that the transaction finds, or none; what it writes; and whether it commits.
type TxnRow = (Option<u8>, Write, bool);

const ROWS: [TxnRow; 6] = [
    (None, Write::Byte(b'a'), true),
    (Some(b'a'), Write::Byte(b'b'), false),
    (Some(b'a'), Write::Nothing, true),
    (Some(b'a'), Write::Byte(b'c'), true),
    (Some(b'c'), Write::Delete, true),
    (None, Write::Nothing, true),
];

fn first_byte(reading: &CellReading) -> Option<u8> {
    match &reading.value {
        None => None,
        Some(bytes) => bytes.first().copied(),
    }
}

/// Whether the transaction of the row before this one left what was read, and the log of values has it.
fn is_of_row_before(reading: &CellReading, row: u64) -> bool {
    reading.left == (row > 0) && is_tenure_of_row_before(&reading.last, row)
}

fn is_tenure_of_row_before(last: &Option<PastTenure>, row: u64) -> bool {
    let steps = row.saturating_mul(2);
    match last {
        None => row == 0,
        Some(last) => last.taken == steps.saturating_sub(2)
            && last.freed == steps.saturating_sub(1),
    }
}

/// Takes the lock for the transaction. A take that runs out of memory is made once more.
fn take<N: Name + ValueName, R: Wait>(
    rt: &R,
    table: &CellTable<N, LinkedTable>,
    pass: &mut Pass,
    key: &Key,
    txn: &ActiveTxn<N>,
) -> Option<TakenLock<N>>
    requires { pass.old.of ≡ N.of }
    ensures of { pass.new.of ≡ N.of }
    ensures number { pass.new.number ≡ pass.old.number }
    ensures txn { IfSome result (λ t. t.lock.txn ≡ txn.now.name.id) }
{
    let id = txn.name.id;
    if let Ok(taken) = table.take(rt, pass, key.copy().ok()?, id, TS) {
        return Some(taken);
    }
    table.take(rt, pass, key.copy().ok()?, id, TS).ok()
}

/// What the write leaves at the key. None if an allocation fails.
fn put<N: Name + ValueName>(alloc: Global, write: Write, lock: &mut HeldLock<N>) -> Option<()>
    ensures txn { lock.new.txn ≡ lock.old.txn }
{
    match write {
        Write::Nothing => {}
        Write::Delete => lock.put = Some(None),
        Write::Byte(byte) => {
            let mut bytes = Vec::new(alloc);
            bytes.push(byte).ok()?;
            lock.put = Some(Some(bytes));
        }
    }
    Some(())
}

/// Plays the row with this index. Whether its transaction found what it must. None if an allocation fails.
fn play<N: Name + ValueName, R: Wait>(
    rt: &R,
    table: &CellTable<N, LinkedTable>,
    pass: &mut Pass,
    key: &Key,
    row: &TxnRow,
    index: u64,
) -> Option<bool>
    requires { pass.old.of ≡ N.of }
    ensures { pass.new.of ≡ N.of }
{
    let (finds, write, commits) = *row;
    let alloc = table.alloc();
    let name = table.name(pass)?;
    let mut txn = ActiveTxn::new(alloc, name, TS);
    txn.reserve().ok()?;
    let TakenLock { mut lock, reading } = take(rt, table, pass, key, &txn)?;
    let reading = reading.ok()?;
    put(alloc, write, &mut lock)?;
    txn.note(lock);
    let right = first_byte(&reading) == finds && is_of_row_before(&reading, index);
    if commits {
        table.commit(rt, pass, txn)?;
    } else if !table.abort(rt, pass, txn) {
        return None;
    }
    Some(right)
}

/// Plays all rows. Returns how many transactions found what they must.
fn play_all<N: Name + ValueName, R: Wait>(
    rt: &R,
    alloc: Global,
    ready: Ready,
    book: Arc<ValueBook>,
) -> Option<u64>
    requires named { ready.of ≡ N.of }
    requires shards { ready.of.shards ≡ 1 }
    requires values { arc_value book ≡ N.values }
{
    let (table, passes) = open_valued::<N, Cells<N>, _>(
        alloc,
        ready,
        0,
        |_: usize| -> Result<Cells<N>, AllocError>
            requires book { arc_value book ≡ N.values }
            requires many { N.of.shards ≡ 1 }
            ensures { IfOk result (λ v. CellsKnow [] v.map) }
        { Ok(Cells::new(alloc, 0, Arc::try_clone(&book)?, 1)) },
    )
    .ok()?;
    let table = CellTable::new(alloc, table);
    let mut seats = seated::<N>(alloc, passes)?;
    let key = key_of(alloc, b'k')?;
    let mut pass = seats.pop()?.into_pass()?;
    let right = count_right(rt, &table, &mut pass, &key);
    pass.abandon();
    right
}

fn count_right<N: Name + ValueName, R: Wait>(
    rt: &R,
    table: &CellTable<N, LinkedTable>,
    pass: &mut Pass,
    key: &Key,
) -> Option<u64>
    requires { pass.old.of ≡ N.of }
    ensures { pass.new.of ≡ N.of }
{
    let mut right = 0u64;
    let mut index = 0u64;
    for row in &ROWS {
        if play(rt, table, pass, key, row, index)? {
            right = right.saturating_add(1);
        }
        index = index.saturating_add(1);
    }
    Some(right)
}

fn run<R: Wait>(rt: &R, alloc: Global, keeping: Keeping) -> Option<u64> {
    let book = Arc::new(alloc, ValueBook::open(alloc).ok()?).ok()?;
    let ready = prepare_with(alloc, LIMITS, keeping).ok()?;
    play_all::<Brand, R>(rt, alloc, ready, book)
}

#[test]
fn each_transaction_finds_what_the_one_before_it_left(rt: HostRuntime) -> Result<(), Fail> {
    for keeping in [Keeping::Whole, Keeping::Streamed, Keeping::Unrecorded] {
        let right = run(&rt, rt.alloc(), keeping).ok_or("the run")?;
        assert_eq!(rt; right, ROWS.len() as u64);
    }
    Ok(())
}

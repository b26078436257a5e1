//! What does a table answer if one of its key tables runs out of memory? The error, with the key unchanged; and
//! the same call succeeds afterwards.
//!
//! Each test is a table of rows on a table of one shard and two passes. A row is the index of a pass, a command,
//! its expected outcome, and the expected state of the key `a` after it. The rows run in order, each made exactly
//! once. [`crate::scarce`] chooses the call that fails.
ghost use Rattle.std.specs.Prelude.{◌≡◌, IfOk, length};
ghost use Rattle.std.specs.List.{All};
ghost use Rattle.std.specs.FinMap as finmap;

use crate::scarce::Scarce;
use lt_ids::Access;
use lt_rules::{KeyState, KeyTable, Reply};
use lt_table_core::{
    Config, Histories, Ready, Scan, ScanError, StepError, Table, empty_tables, open_with, prepare,
};
use lt_test_kit::asking::{Question, TableAnswer, ask_through};
use lt_test_kit::command::{CallOutcome, CommandRow, TableCommand};
use lt_test_kit::play::play;
use lt_test_kit::run::{close_all, seated};
use lt_test_kit::seat::Seat;
use lt_words::Name;
use std::alloc::{AllocError, Global};
use std::marker::Brand;
use std::process::Abort;
use std::sync::Wait;
use std::test::Fail;

/// The state of the key `a`: the transaction that holds the lock, the request for which it is reserved, and how
/// many writers are queued.
type KeyAfter = (Option<u64>, Option<u64>, usize);

/// A row: a command with its expected outcome, and the expected state of the key `a` after it.
type ScarceRow = (CommandRow, KeyAfter);

/// The actual outcome of a command, and the state of the key `a` after it.
type Came = (CallOutcome, Option<KeyAfter>);

/// The outcomes of the rows, and the histories of the table after its close.
#[derive(Drop)]
struct ScarceRun {
    came: Vec<Came>,
    histories: Histories,
}

fn holder_of(state: &KeyState) -> Option<u64> {
    match state.holder {
        Some(holder) => Some(holder.txn.number()),
        None => None,
    }
}

fn reserved_for(state: &KeyState) -> Option<u64> {
    match state.reservation {
        Some(request) => Some(request.ticket.number()),
        None => None,
    }
}

fn stand_of(sight: &TableAnswer) -> Option<KeyAfter> {
    match sight {
        TableAnswer::State(state) => Some((
            holder_of(state),
            reserved_for(state),
            state.writers.len(),
        )),
        _ => None,
    }
}

/// `count` empty tables, each of which fails one call: the one after `before` calls that allocate.
fn scarce_tables(alloc: Global, count: usize, before: u32) -> Result<Vec<Scarce>, AllocError>
    ensures many { IfOk result (λ tables. length tables.items ≡ count) }
    ensures empty { IfOk result (λ tables. All (λ t. t.table ≡ finmap.empty) tables.items) }
{
    empty_tables(
        alloc,
        count,
        || -> Scarce
            ensures { result.table ≡ finmap.empty }
        { Scarce::new(alloc, before) },
    )
}

/// The pass with this index plays the command once, and then asks for the state of the key `a`.
fn play_at<N: Name, T: KeyTable, R: Wait>(
    rt: &R,
    alloc: Global,
    table: &Table<N, T>,
    seats: &mut Vec<Seat<N>>,
    index: usize,
    command: &TableCommand,
) -> Option<Came> {
    if index >= seats.len() {
        return None;
    }
    let seat = seats.remove(index);
    let (seat, line) = play(rt, alloc, table, seat, command)?;
    let question = Question::State(b'a');
    let (seat, sight) = ask_through(rt, alloc, table, seat, question, &mut Vec::new(alloc))?;
    seats.insert(index, seat).ok()?;
    Some((line.outcome, stand_of(&sight)))
}

fn run_named<N: Name, R: Wait>(
    rt: &R,
    alloc: Global,
    ready: Ready,
    tables: Vec<Scarce>,
    rows: &[ScarceRow],
) -> Option<ScarceRun>
    requires named { ready.of ≡ N.of }
    requires many { length tables.items ≡ N.of.shards }
    requires empty { All (λ t. t.table ≡ finmap.empty) tables.items }
{
    let (table, passes) = open_with::<N, Scarce>(alloc, ready, tables).ok()?;
    let mut seats = seated::<N>(alloc, passes)?;
    let mut came = Vec::new(alloc);
    for ((index, command, _), _) in rows {
        came.push(play_at(rt, alloc, &table, &mut seats, *index, command)?)
            .ok()?;
    }
    let histories = close_all(rt, alloc, table, seats)?;
    Some(ScarceRun { came, histories })
}

/// Plays the rows on a table that runs out of memory once: in the call after `before` calls that allocate.
fn run_scarce<R: Wait>(
    rt: &R,
    alloc: Global,
    config: Config,
    before: u32,
    rows: &[ScarceRow],
) -> Option<ScarceRun> {
    let ready = prepare(alloc, config).ok()?;
    let Ok(tables) = scarce_tables(alloc, config.shards, before) else {
        ready.abandon();
        return None;
    };
    run_named::<Brand, R>(rt, alloc, ready, tables, rows)
}

/// The limits of a table with one shard, which may make `max_steps` steps, and two passes.
fn limits(max_steps: u64) -> Config {
    Config {
        shards: 1,
        passes: 2,
        max_steps,
        max_requests: 1000,
        max_waits: 1000,
    }
}

/// Plays the rows, and fails unless each has its outcome and its state, and the shard has made `steps` steps.
fn come_out<R: Abort + Wait>(
    rt: &R,
    alloc: Global,
    max_steps: u64,
    before: u32,
    rows: &[ScarceRow],
    steps: usize,
) -> Result<(), Fail> {
    let ended = run_scarce(rt, alloc, limits(max_steps), before, rows).ok_or("the run")?;
    assert_eq!(rt; ended.came.len(), rows.len());
    for (came, ((_, _, outcome), stand)) in ended.came.iter().zip(rows) {
        assert_eq!(rt; *came, (*outcome, Some(*stand)), "failing after {before}");
    }
    let history = ended.histories.shards.first().ok_or("the shard")?;
    assert_eq!(rt; (history.len(), ended.histories.draws), (steps, 1));
    Ok(())
}

const HELD: KeyAfter = (Some(9), None, 0);

const RESERVED: KeyAfter = (None, Some(1), 0);

const EMPTY: KeyAfter = (None, None, 0);

fn take() -> TableCommand {
    TableCommand::Acquire {
        txn: 9,
        wall: 10,
        key: b'a',
    }
}

/// The rows if no call fails: transaction 9 takes the lock; request 1 waits, gets the reservation when the lock is
/// released, and leaves.
fn rows(alloc: Global) -> Result<Vec<ScarceRow>, AllocError> {
    let enter = TableCommand::Enter {
        txn: Some(1),
        wall: 20,
        accesses: vec![in alloc; (b'a', Access::Write)]?,
        longest: 0,
    };
    let free = TableCommand::Finish { txn: 9, key: b'a' };
    let waits = CallOutcome::Scanned(Scan::Waiting(0));
    let rows = vec![in alloc;
        ((1, take(), CallOutcome::Stepped(Reply::Taken)), HELD),
        ((0, enter, CallOutcome::Entered(1)), HELD),
        ((0, TableCommand::Scan, waits), (Some(9), None, 1)),
        ((1, free, CallOutcome::Stepped(Reply::Freed)), RESERVED),
        ((0, TableCommand::Leave, CallOutcome::Left), EMPTY),
    ]?;
    Ok(rows)
}

/// The row of the call that runs out of memory: the acquire if `before` is 0, and otherwise the scan. The key keeps the
/// state from before the call.
fn failure(before: u32) -> ScarceRow {
    match before {
        0 => (
            (1, take(), CallOutcome::NotStepped(StepError::Memory)),
            EMPTY,
        ),
        _ => (
            (
                0,
                TableCommand::Scan,
                CallOutcome::NotScanned(ScanError::Memory),
            ),
            HELD,
        ),
    }
}

/// The rows with that failing call inserted at this index, right before the same call that succeeds.
fn with_failure(mut rows: Vec<ScarceRow>, index: usize, before: u32) -> Option<Vec<ScarceRow>> {
    if rows.len() < index {
        return None;
    }
    rows.insert(index, failure(before)).ok()?;
    Some(rows)
}

/// A call that runs out of memory reports that and changes nothing. The same call then succeeds.
#[test]
fn out_of_memory_is_reported_and_changes_nothing(rt: HostRuntime) -> Result<(), Fail> {
    for (index, before) in [(0, 0), (2, 1)] {
        let rows = with_failure(rows(rt.alloc())?, index, before).ok_or("the rows")?;
        come_out(&rt, rt.alloc(), 4, before, &rows, 4)?;
    }
    Ok(())
}

/// A full shard answers `HistoryFull` even if the call would run out of memory.
#[test]
fn a_full_history_is_reported_before_out_of_memory(rt: HostRuntime) -> Result<(), Fail> {
    let full = CallOutcome::NotScanned(ScanError::HistoryFull);
    let mut rows = rows(rt.alloc())?;
    rows.truncate(2);
    rows.push(((0, TableCommand::Scan, full), HELD))?;
    come_out(&rt, rt.alloc(), 1, 1, &rows, 1)
}

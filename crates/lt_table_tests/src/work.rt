//! What do the threads of `race_player` and `stream_player` do?
//! Each thread plays the same five calls in `ROUNDS` rounds. Its request enters, scans a key of its own and
//! leaves; before it leaves, its transaction takes the lock of the key a, for which all threads compete, and frees
//! it. Read next `thread_tests`, which compares the results.
ghost use Rattle.std.specs.Prelude.{◌≡◌};

use lt_entry::Entry;
use lt_ids::Access;
use lt_rules::KeyTable;
use lt_table::{Config, ScanError, StepError, Table};
use lt_test_kit::command::{CallOutcome, TableCommand};
use lt_test_kit::play::{PlayedCommand, play};
use lt_test_kit::seat::Seat;
use lt_words::Name;
use std::alloc::{AllocError, Global};
use std::hint::spin_loop;
use std::sync::Wait;
use std::thread::{Threads, map_vec};

/// How many rounds each thread plays.
pub const ROUNDS: usize = 5_000;

/// How often a thread tries a call at most while the shard is full.
pub const TURNS: u32 = 100_000_000;

/// Limits for a table of two shards and four passes, with room for all rounds.
pub fn limits() -> Config {
    Config {
        shards: 2,
        passes: 4,
        max_steps: 1_000_000,
        max_requests: 1_000_000,
        max_waits: 1,
    }
}

/// A thread's seat, the commands of a round, and their outcomes so far.
#[derive(Drop)]
pub struct ThreadWork<N: Name> {
    seat: Seat<N>,
    round: Vec<TableCommand>,
    lines: Vec<PlayedCommand>,
}

/// The results of a run: the outcomes of each thread, the history of each shard, how many pieces were taken out (0
/// for a whole table), and how many request numbers were drawn.
#[derive(Drop)]
pub struct ThreadsRun {
    pub lines: Vec<Vec<PlayedCommand>>,
    pub shards: Vec<Vec<Entry>>,
    pub pieces: u64,
    pub draws: u64,
}

/// Whether the call was refused because a shard was full.
fn is_full(outcome: CallOutcome) -> bool {
    match outcome {
        CallOutcome::NotScanned(error) => error == ScanError::HistoryFull,
        CallOutcome::NotStepped(error) | CallOutcome::NotLeft(error) => error
            == StepError::HistoryFull,
        _ => false,
    }
}

/// Plays the command, and tries again while a shard is full.
fn play_through<N: Name, T: KeyTable, R: Wait>(
    rt: &R,
    alloc: Global,
    table: &Table<N, T>,
    seat: Seat<N>,
    command: &TableCommand,
) -> Option<(Seat<N>, PlayedCommand)> {
    let mut seat = seat;
    for _ in 0..TURNS {
        let (next, line) = play(rt, alloc, table, seat, command)?;
        if !is_full(line.outcome) {
            return Some((next, line));
        }
        seat = next;
        spin_loop();
    }
    None
}

/// Plays each command of the round.
fn play_round<N: Name, T: KeyTable, R: Wait>(
    rt: &R,
    alloc: Global,
    table: &Table<N, T>,
    worker: ThreadWork<N>,
) -> Option<ThreadWork<N>> {
    let ThreadWork {
        mut seat,
        round,
        mut lines,
    } = worker;
    for command in &round {
        let (next, line) = play_through(rt, alloc, table, seat, command)?;
        seat = next;
        lines.push(line).ok()?;
    }
    Some(ThreadWork { seat, round, lines })
}

/// Plays all rounds of a thread.
fn work<N: Name, T: KeyTable, R: Wait>(
    rt: &R,
    alloc: Global,
    table: &Table<N, T>,
    mut worker: ThreadWork<N>,
) -> Option<ThreadWork<N>> {
    for _ in 0..ROUNDS {
        worker = play_round(rt, alloc, table, worker)?;
    }
    Some(worker)
}

/// A request enters to write a key of its own and passes. Its transaction then takes the lock of the key a, for
/// which all threads compete, and frees it. Finally the request leaves.
fn round_of(alloc: Global, number: u8) -> Result<Vec<TableCommand>, AllocError> {
    let txn = u64::from(number);
    let mut accesses = Vec::new(alloc);
    accesses.push((b'a'.wrapping_add(number), Access::Write))?;
    let enter = TableCommand::Enter {
        txn: Some(txn),
        wall: 1,
        accesses,
        longest: 0,
    };
    let take = TableCommand::Acquire {
        txn,
        wall: 1,
        key: b'a',
    };
    let free = TableCommand::Finish { txn, key: b'a' };
    let round = vec![in alloc; enter, TableCommand::Scan, take, free, TableCommand::Leave]?;
    Ok(round)
}

/// A worker for each seat, with transactions 1, 2 and so on.
pub fn workers_of<N: Name>(alloc: Global, seats: Vec<Seat<N>>) -> Option<Vec<ThreadWork<N>>> {
    let mut workers = Vec::new(alloc);
    let mut number = 0u8;
    for seat in seats {
        number = number.wrapping_add(1);
        let round = round_of(alloc, number).ok()?;
        let lines = Vec::new(alloc);
        workers.push(ThreadWork { seat, round, lines }).ok()?;
    }
    Some(workers)
}

/// Runs all workers at once, each on a thread.
pub fn work_all<N: Name + Send + Sync, T: KeyTable + Send, R: Threads + Wait + Sync>(
    rt: &R,
    alloc: Global,
    table: &Table<N, T>,
    workers: Vec<ThreadWork<N>>,
) -> Result<Vec<Option<ThreadWork<N>>>, AllocError> {
    map_vec(
        rt,
        workers,
        &|worker: ThreadWork<N>| -> Option<ThreadWork<N>> { work(rt, alloc, table, worker) },
    )
}

/// The outcomes of each thread. Appends the threads' seats to `seats`.
pub fn lines_of<N: Name>(
    alloc: Global,
    worked: Vec<Option<ThreadWork<N>>>,
    seats: &mut Vec<Seat<N>>,
) -> Option<Vec<Vec<PlayedCommand>>> {
    let mut lines = Vec::new(alloc);
    for worker in worked {
        let ThreadWork {
            seat,
            lines: made,
            ..
        } = worker?;
        seats.push(seat).ok()?;
        lines.push(made).ok()?;
    }
    Some(lines)
}

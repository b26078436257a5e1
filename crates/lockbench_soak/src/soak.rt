//! Does the table stay right under random requests, on as many threads as there are processors, for a given time?
//! [`report`] plays rounds on tables of random sizes and counts what is wrong.
//!
//! A round opens a table of linked queues with one pass for each thread. Each thread plays one request after
//! another, and chooses at random among the calls that make sense. It stops when a full shard stops its leave, the
//! request numbers are used up, or its limit of calls or time is reached. Then the table is closed, the text of
//! its histories is checked, and the text is left in a file. Three things are counted as wrong: an answer that the
//! rules of a request (`docs/RULES.md`) exclude; a number of steps or draws in the table that differs from what
//! the calls reported; and a check that finds another number of steps.
//!
//! A streamed table has one more pass, and a thread that takes the steps while others are made, so that a full
//! shard has room again. The taken steps and those that are left are joined and checked as above. An unrecorded
//! table has no histories, so only the numbers of steps and draws are compared, and a single round on one table
//! lasts for the whole time.
ghost use Rattle.std.specs.Prelude.{◌≡◌, ◌<◌};

use crate::memory::resident;
use anyhow::bail;
use lockbench_parts::closing::{Ending, close};
use lockbench_parts::taking::{Piece, Taker, take_until};
use lt_history::{Entry, Report, check, compose};
use lt_ids::{Access, MAX_REQUEST};
use lt_random::Random;
use lt_rules::{KeyTable, Reply};
use lt_table::{
    Config, Keeping, Poll, Ready, Scan, ScanError, StepError, Table, open, prepare_with,
};
use lt_test_kit::command::{CallOutcome, TableCommand};
use lt_test_kit::play::{PlayedCommand, play};
use lt_test_kit::run::seated;
use lt_test_kit::seat::Seat;
use lt_words::Name;
use std::alloc::{AllocError, Global};
use std::fs::{Files, write};
use std::marker::Brand;
use std::rt::Runtime;
use std::sync::Wait;
use std::sync::atomic::{AtomicBool, Ordering};
use std::thread::{Threads, available_parallelism, join, map_vec, sleep};
use std::time::{Clock, Duration, Instant};

/// The file for the histories, in the working directory.
const FILE: &str = "lockbench.histories";

/// The most calls that a thread makes in a round if the steps are recorded, so that the steps of all threads fit
/// into one text.
const CALLS: u64 = 40_000;

/// A thread reads the clock once in this many calls.
const LOOKS: u64 = 1_024;

/// How many microseconds a thread sleeps after a full shard stopped its leave.
const PAUSE: u64 = 100;

/// The parameters of a soak test: how many seconds it lasts, and how its tables keep their steps.
#[derive(Clone, Copy, Debug)]
pub struct Soak {
    pub seconds: u64,
    pub keeping: Keeping,
}

/// When a thread is done: after this many calls, or from this time on.
#[derive(Clone, Copy, Debug)]
struct Limit {
    calls: u64,
    time: Instant,
}

/// The counts: the steps that the calls reported, the request numbers that were drawn, and what was wrong.
#[derive(Clone, Copy, Debug)]
struct SoakTally {
    steps: u64,
    draws: u64,
    wrong: u64,
}

impl SoakTally {
    fn none() -> Self {
        SoakTally {
            steps: 0,
            draws: 0,
            wrong: 0,
        }
    }

    fn and(&self, other: &SoakTally) -> SoakTally {
        SoakTally {
            steps: self.steps.saturating_add(other.steps),
            draws: self.draws.saturating_add(other.draws),
            wrong: self.wrong.saturating_add(other.wrong),
        }
    }

    /// These counts, with one more wrong if the table or the check of its histories disagrees with them.
    fn compared(&self, ending: &Ending, checked: u64) -> SoakTally {
        let is_right = ending.steps == self.steps
            && ending.draws == self.draws
            && checked == self.steps;
        SoakTally {
            wrong: self.wrong.saturating_add(if is_right { 0 } else { 1 }),
            ..*self
        }
    }
}

/// A pass at work, with the outcome of its latest call and the counts so far. `keeping` is how the table keeps its
/// steps.
#[derive(Drop)]
struct Worker<N: Name> {
    seat: Seat<N>,
    random: Random,
    keeping: Keeping,
    outcome: CallOutcome,
    tally: SoakTally,
}

fn random_key(random: &mut Random) -> u8 {
    b'a' + random.below(12) as u8
}

/// One of four transactions. They are few, so that locks are often freed.
fn random_txn(random: &mut Random) -> u64 {
    1 + random.below(4)
}

/// The enter of a request with one to four accesses. None of these requests has a bound.
fn random_enter(alloc: Global, random: &mut Random) -> Result<TableCommand, AllocError> {
    let mut accesses = Vec::new(alloc);
    for _ in 0..1 + random.below(4) {
        let access = if random.below(2) == 0 {
            Access::Read
        } else {
            Access::Write
        };
        accesses.push((random_key(random), access))?;
    }
    Ok(TableCommand::Enter {
        txn: Some(random_txn(random)),
        wall: random.below(9),
        accesses,
        longest: 0,
    })
}

/// The finish of a random transaction at a random key. It frees the key only if the transaction holds it.
fn random_finish(random: &mut Random) -> TableCommand {
    TableCommand::Finish {
        txn: random_txn(random),
        key: random_key(random),
    }
}

/// A random call of a waiting request: it polls, finishes a transaction that may hold a lock, or leaves.
fn waiting_call(random: &mut Random) -> TableCommand {
    match random.below(32) {
        0 => TableCommand::Leave,
        1..=8 => random_finish(random),
        _ => TableCommand::Poll,
    }
}

/// A random call of a request that need not wait.
fn random_call(random: &mut Random) -> TableCommand {
    let txn = random_txn(random);
    let wall = random.below(9);
    let key = random_key(random);
    match random.below(8) {
        0 => TableCommand::Acquire { txn, wall, key },
        1 => TableCommand::Update { txn, wall, key },
        2..=4 => random_finish(random),
        5 => TableCommand::Look {
            index: random.below(4) as usize,
        },
        6 => TableCommand::Scan,
        _ => TableCommand::Leave,
    }
}

/// The next call after a call with this outcome. None if there is nothing left to do, for instance after a
/// full shard stopped a leave: unless the table is streamed, the shard stays full. None also if an allocation
/// fails.
fn next_command(
    alloc: Global,
    random: &mut Random,
    keeping: Keeping,
    outcome: CallOutcome,
) -> Option<TableCommand> {
    match outcome {
        CallOutcome::NotLeft(_) if keeping == Keeping::Streamed => Some(TableCommand::Leave),
        CallOutcome::NotEntered(_) | CallOutcome::NotLeft(_) => None,
        CallOutcome::Left => random_enter(alloc, random).ok(),
        CallOutcome::Scanned(Scan::Waiting(_)) | CallOutcome::Polled(Poll::Waiting) => Some(
            waiting_call(random),
        ),
        CallOutcome::Entered(_) | CallOutcome::Scanned(Scan::Rescan) | CallOutcome::Polled(_) =>
            Some(TableCommand::Scan),
        CallOutcome::Scanned(Scan::TooLong(_)) => Some(TableCommand::Leave),
        CallOutcome::NotScanned(_) | CallOutcome::NotStepped(_) => Some(TableCommand::Leave),
        CallOutcome::Scanned(Scan::Proceed) | CallOutcome::Stepped(_) | CallOutcome::Nothing =>
            Some(random_call(random)),
    }
}

fn are_passed(replies: &[Reply]) -> bool {
    replies.iter().all(|reply| *reply == Reply::Passed)
}

/// Whether a shard of the table can be full. A table that records no steps has no full shards.
fn may_be_full(keeping: Keeping) -> bool {
    keeping != Keeping::Unrecorded
}

/// Whether the rules allow this outcome of a call, if no allocation fails. `before` is the outcome of the call
/// before it.
fn is_possible(keeping: Keeping, before: CallOutcome, line: &PlayedCommand) -> bool {
    match line.outcome {
        CallOutcome::Scanned(Scan::Waiting(_)) => match line.replies.split_last() {
            Some((last, others)) => *last == Reply::MustWait && are_passed(others),
            None => false,
        },
        // No request has a bound.
        CallOutcome::Scanned(Scan::TooLong(_)) => false,
        CallOutcome::Scanned(_) => are_passed(&line.replies),
        CallOutcome::NotScanned(ScanError::HistoryFull) => {
            may_be_full(keeping) && are_passed(&line.replies)
        }
        CallOutcome::NotScanned(ScanError::WaitsOut) => are_passed(&line.replies),
        CallOutcome::NotScanned(ScanError::StillWaiting) => before
            != CallOutcome::Polled(Poll::Through),
        CallOutcome::NotScanned(_) => false,
        CallOutcome::Polled(Poll::Idle) => false,
        CallOutcome::NotStepped(error) | CallOutcome::NotLeft(error) => {
            may_be_full(keeping) && error == StepError::HistoryFull
        }
        _ => !line.outcome.is_out_of_memory(),
    }
}

/// How many steps a line reports. On a streamed table a leave that stops is made again and then reports all of its
/// steps, so the one that stopped counts as 0.
fn steps_of(keeping: Keeping, line: &PlayedCommand) -> u64 {
    match line.outcome {
        CallOutcome::Stepped(_) => 1,
        CallOutcome::NotLeft(_) if keeping == Keeping::Streamed => 0,
        CallOutcome::Scanned(_) | CallOutcome::Left | CallOutcome::NotLeft(_) => line
            .replies
            .len() as u64,
        CallOutcome::NotScanned(ScanError::StillWaiting)
        | CallOutcome::NotScanned(ScanError::Leaving) => 0,
        CallOutcome::NotScanned(_) => line.replies.len() as u64,
        _ => 0,
    }
}

fn tally_of(keeping: Keeping, before: CallOutcome, line: &PlayedCommand) -> SoakTally {
    SoakTally {
        steps: steps_of(keeping, line),
        draws: if let CallOutcome::Entered(_) = line.outcome {
            1
        } else {
            0
        },
        wrong: if is_possible(keeping, before, line) {
            0
        } else {
            1
        },
    }
}

/// Makes one call. None if an allocation outside the call fails.
fn make<N: Name, T: KeyTable, R: Wait>(
    rt: &R,
    alloc: Global,
    table: &Table<N, T>,
    worker: Worker<N>,
    command: &TableCommand,
) -> Option<Worker<N>> {
    let Worker {
        seat,
        random,
        keeping,
        outcome,
        tally,
    } = worker;
    let (seat, line) = play(rt, alloc, table, seat, command)?;
    Some(Worker {
        seat,
        random,
        keeping,
        outcome: line.outcome,
        tally: tally.and(&tally_of(keeping, outcome, &line)),
    })
}

/// Whether this time is reached, or the clock cannot be read.
fn is_past(clock: &impl Clock, time: Instant) -> bool {
    match Instant::now(clock) {
        Ok(now) => now.checked_duration_since(time).is_some(),
        Err(_) => true,
    }
}

/// Whether a thread that has made `calls` calls is done.
fn is_done(clock: &impl Clock, limit: &Limit, calls: u64) -> bool {
    calls >= limit.calls || calls % LOOKS == 0 && is_past(clock, limit.time)
}

/// Whether a full shard stopped the pass's leave.
fn is_stopped(outcome: CallOutcome) -> bool {
    match outcome {
        CallOutcome::NotLeft(_) => true,
        _ => false,
    }
}

/// Whether a thread that has made `calls` calls continues. If its leave stopped, it sleeps for a moment and then
/// continues past the limit, since the leave has to be made again.
fn goes_on<R: Wait + Clock>(rt: &R, limit: &Limit, outcome: CallOutcome, calls: u64) -> bool {
    if is_stopped(outcome) {
        sleep(rt, Duration::from_micros(PAUSE));
        return true;
    }
    !is_done(rt, limit, calls)
}

/// Makes calls with the pass until there is nothing left to do or the limit is reached. On a streamed table a
/// leave that stopped is first made again. None if an allocation outside the calls fails.
fn work<N: Name, T: KeyTable, R: Wait + Clock>(
    rt: &R,
    alloc: Global,
    table: &Table<N, T>,
    worker: Worker<N>,
    limit: &Limit,
) -> Option<Worker<N>> {
    let mut worker = worker;
    for calls in 0..u64::MAX {
        if !goes_on(rt, limit, worker.outcome, calls) {
            break;
        }
        let next = next_command(alloc, &mut worker.random, worker.keeping, worker.outcome);
        let Some(command) = next else {
            break;
        };
        worker = make(rt, alloc, table, worker, &command)?;
    }
    Some(worker)
}

/// One worker for each seat. None if an allocation fails.
fn workers_of<N: Name>(
    alloc: Global,
    seats: Vec<Seat<N>>,
    random: &mut Random,
    keeping: Keeping,
) -> Option<Vec<Worker<N>>> {
    let mut workers = Vec::new(alloc);
    for seat in seats {
        let worker = Worker {
            seat,
            random: Random::new(random.next()),
            keeping,
            outcome: CallOutcome::Left,
            tally: SoakTally::none(),
        };
        workers.push(worker).ok()?;
    }
    Some(workers)
}

/// The callers of a table: its workers and, if it is streamed, the taker of its steps.
#[derive(Drop)]
struct SoakCallers<N: Name> {
    workers: Vec<Worker<N>>,
    taker: Option<Taker<N>>,
}

/// The callers of a table with `shards` shards that keeps its steps in the given way. None if there are too few
/// seats or an allocation fails.
fn crew_of<N: Name>(
    alloc: Global,
    mut seats: Vec<Seat<N>>,
    shards: usize,
    keeping: Keeping,
    random: &mut Random,
) -> Option<SoakCallers<N>>
    requires shards { N.of.shards ≡ shards }
    requires keeping { N.of.keeping ≡ keeping }
{
    let taker = match keeping {
        Keeping::Whole | Keeping::Unrecorded => None,
        Keeping::Streamed => Some(Taker::new(alloc, seats.pop()?, shards, true)?),
    };
    let workers = workers_of(alloc, seats, random, keeping)?;
    Some(SoakCallers { workers, taker })
}

/// Runs each worker on a thread of its own. None if an allocation fails.
fn work_all<N: Name + Send + Sync, T: KeyTable + Send, R: Threads + Wait + Clock + Sync>(
    rt: &R,
    alloc: Global,
    table: &Table<N, T>,
    workers: Vec<Worker<N>>,
    limit: &Limit,
) -> Option<Vec<Worker<N>>> {
    let came = map_vec(
        rt,
        workers,
        &|worker: Worker<N>| -> Option<Worker<N>> { work(rt, alloc, table, worker, limit) },
    );
    let mut done = Vec::new(alloc);
    for worker in came.ok()? {
        done.push(worker?).ok()?;
    }
    Some(done)
}

/// Runs all workers while the taker takes the steps. None if an allocation fails or steps are lost.
fn work_beside<N: Name + Send + Sync, T: KeyTable + Send, R: Threads + Wait + Clock + Sync>(
    rt: &R,
    alloc: Global,
    table: &Table<N, T>,
    crew: SoakCallers<N>,
    limit: &Limit,
) -> Option<SoakCallers<N>> {
    let SoakCallers { workers, taker } = crew;
    let Some(taker) = taker else {
        let workers = work_all(rt, alloc, table, workers, limit)?;
        return Some(SoakCallers {
            workers,
            taker: None,
        });
    };
    let flag = AtomicBool::new(false);
    let done = &flag;
    let (worked, taken) = join(
        rt,
        move || {
            let worked = work_all(rt, alloc, table, workers, limit);
            done.store(true, Ordering::SeqCst);
            worked
        },
        move || take_until(rt, alloc, table, taker, done),
    );
    Some(SoakCallers {
        workers: worked?,
        taker: Some(taken?),
    })
}

/// The seats of all callers, the steps that were taken, and the counts. None if an allocation fails.
fn dismissed<N: Name>(
    alloc: Global,
    crew: SoakCallers<N>,
) -> Option<(Vec<Seat<N>>, Vec<Piece>, SoakTally)> {
    let SoakCallers { workers, taker } = crew;
    let mut seats = Vec::new(alloc);
    let mut tally = SoakTally::none();
    for worker in workers {
        tally = tally.and(&worker.tally);
        seats.push(worker.seat).ok()?;
    }
    let Some(taker) = taker else {
        return Some((seats, Vec::new(alloc), tally));
    };
    let (seat, pieces) = taker.into_pieces(alloc)?;
    seats.push(seat).ok()?;
    Some((seats, pieces, tally))
}

/// Opens the table, plays on all seats at once, and closes the table. None if an allocation fails or steps are lost.
fn play_named<N: Name + Send + Sync, R: Threads + Wait + Clock + Sync>(
    rt: &R,
    alloc: Global,
    ready: Ready,
    shards: usize,
    random: &mut Random,
    plan: &RoundPlan,
) -> Option<(Ending, SoakTally)>
    requires named { ready.of ≡ N.of }
    requires many { ready.of.shards ≡ shards }
    requires keeping { ready.of.keeping ≡ plan.now.keeping }
{
    let (table, passes) = open::<N>(alloc, ready, random.next()).ok()?;
    let seats = seated::<N>(alloc, passes)?;
    let crew = crew_of(alloc, seats, shards, plan.keeping, random)?;
    let crew = work_beside(rt, alloc, &table, crew, &plan.limit)?;
    let (seats, pieces, tally) = dismissed(alloc, crew)?;
    let ending = close(rt, alloc, table, seats, plan.keeping, pieces)?;
    Some((ending, tally))
}

/// How a round is played: the number of threads, how the table keeps its steps, and the limit of each thread.
#[derive(Clone, Copy, Debug)]
struct RoundPlan {
    threads: usize,
    keeping: Keeping,
    limit: Limit,
}

/// How many passes a table has besides those of the threads: one for the taker if it is streamed, otherwise none.
fn takers(keeping: Keeping) -> usize {
    match keeping {
        Keeping::Whole | Keeping::Unrecorded => 0,
        Keeping::Streamed => 1,
    }
}

/// How many requests a table accepts. An unrecorded table accepts the most possible, so that one table lasts the
/// whole time.
fn random_requests(random: &mut Random, keeping: Keeping) -> u64 {
    match keeping {
        Keeping::Whole | Keeping::Streamed => 500 + random.below(20_000),
        Keeping::Unrecorded => MAX_REQUEST,
    }
}

/// A table of random size. The sizes are small enough that some rounds reach each limit.
fn random_config(random: &mut Random, plan: &RoundPlan) -> Config {
    Config {
        shards: 1 + random.below(8) as usize,
        passes: plan.threads.saturating_add(takers(plan.keeping)),
        max_steps: 1_000 + random.below(20_000),
        max_requests: random_requests(random, plan.keeping),
        max_waits: 1 + random.below(4) as u32,
    }
}

/// Plays one round. None if an allocation fails or steps are lost.
fn round<R: Threads + Wait + Clock + Sync>(
    rt: &R,
    alloc: Global,
    random: &mut Random,
    plan: &RoundPlan,
) -> Option<(Ending, SoakTally)> {
    let config = random_config(random, plan);
    let ready = prepare_with(alloc, config, plan.keeping).ok()?;
    play_named::<Brand, R>(rt, alloc, ready, config.shards, random, plan)
}

/// Writes the text of the histories to the file, and checks the text.
fn report_of<F: Files>(
    files: &F,
    alloc: Global,
    histories: &[Vec<Entry>],
) -> anyhow::Result<Report> {
    let text = compose(alloc, histories)?;
    write(files, FILE, text.as_slice())?;
    Ok(check(alloc, text.as_slice())?)
}

/// The number of steps that the check of the histories reports. An unrecorded table has no histories to check, so
/// this is the table's own count.
fn checked_steps<F: Files>(
    files: &F,
    alloc: Global,
    ending: &Ending,
    keeping: Keeping,
) -> anyhow::Result<u64> {
    match keeping {
        Keeping::Unrecorded => Ok(ending.steps),
        Keeping::Whole | Keeping::Streamed => {
            Ok(report_of(files, alloc, &ending.histories)?.steps as u64)
        }
    }
}

/// The result of all rounds.
#[derive(Clone, Copy, Debug)]
struct SoakRun {
    rounds: u64,
    tally: SoakTally,
}

/// The limit of a thread: this time, and also a number of calls if the steps are recorded.
fn limit_of(keeping: Keeping, time: Instant) -> Limit {
    let calls = match keeping {
        Keeping::Whole | Keeping::Streamed => CALLS,
        Keeping::Unrecorded => u64::MAX,
    };
    Limit { calls, time }
}

/// Plays one round after another until the time of the plan's limit. An error if a round, the file or the check
/// fails.
fn play_rounds<H: Threads + Wait + Clock + Sync, R: Runtime + Files>(
    threads: &H,
    rt: &R,
    alloc: Global,
    random: &mut Random,
    plan: &RoundPlan,
) -> anyhow::Result<SoakRun> {
    let mut all = SoakTally::none();
    let mut rounds = 0u64;
    for _ in 0..u64::MAX {
        if is_past(rt, plan.limit.time) {
            break;
        }
        let Some((ending, tally)) = round(threads, alloc, random, plan) else {
            bail!("memory was refused");
        };
        let checked = checked_steps(rt, alloc, &ending, plan.keeping)?;
        all = all.and(&tally.compared(&ending, checked));
        rounds = rounds.saturating_add(1);
    }
    Ok(SoakRun { rounds, tally: all })
}

/// Prints the process's resident memory at both times, if the system reports it.
fn tell_memory<R: Runtime>(rt: &R, begin: Option<u64>, end: Option<u64>) -> anyhow::Result<()> {
    if let (Some(begin), Some(end)) = (begin, end) {
        println!(rt; "{begin} KiB in memory at the beginning, {end} KiB at the end")?;
    }
    Ok(())
}

/// Plays rounds for the given number of seconds and prints the counts. The file keeps the histories of the last
/// round.
pub fn report<H: Threads + Wait + Clock + Sync, R: Runtime + Files>(
    threads: &H,
    rt: &R,
    alloc: Global,
    soak: &Soak,
) -> anyhow::Result<()> {
    let passes = available_parallelism(threads)?.get();
    let length = Duration::from_secs(soak.seconds);
    let Some(time) = Instant::now(rt)?.checked_add(length) else {
        bail!("the clock does not go so far");
    };
    let plan = RoundPlan {
        threads: passes,
        keeping: soak.keeping,
        limit: limit_of(soak.keeping, time),
    };
    let begin = resident(rt);
    let mut random = Random::new(soak.seconds);
    let SoakRun { rounds, tally } = play_rounds(threads, rt, alloc, &mut random, &plan)?;
    println!(rt;
        "{rounds} rounds on {passes} threads, {} requests",
        tally.draws
    )?;
    tell_memory(rt, begin, resident(rt))?;
    println!(rt; "{} steps, {} wrong", tally.steps, tally.wrong)?;
    Ok(())
}

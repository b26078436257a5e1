//! What does it cost to hand a lock over? [`report`] hands the lock of one key from transaction to transaction while
//! requests wait to write the key, and prints the times. All passes take their turns on one thread, and the table has
//! one shard.
//!
//! **Before the clock starts**, the transaction of the first pass acquires the key. Then each other pass enters a
//! request to write it. The requests wait, in the order of their passes.
//!
//! **A round.** The holder's transaction finishes, which lets the first waiter through. That waiter polls, scans
//! (first to end its wait, then to visit the key), acquires the key and leaves: its transaction is now the holder. The pass of the old holder enters a new request,
//! which visits the key and joins the queue at its end. So a round has five key steps (finish, visit, acquire, leave,
//! visit), and as many requests wait after it as before. Each pass has a transaction of its own.
ghost use Rattle.std.specs.Prelude.{◌≡◌};

use anyhow::bail;
use lockbench_parts::answers::is_taken;
use lockbench_parts::closing::{Ending, close};
use lockbench_parts::keeping::name_of;
use lockbench_parts::spent::{Spent, Start, tell_nanoseconds, tell_times};
use lt_ids::{Access, Key, MAX_REQUEST, MAX_WAIT, Timestamp, TxnId};
use lt_rules::{KeyTable, Reply};
use lt_table::{
    Answer, Config, EnterRefused, Guard, Keeping, LeaveStopped, Left, Poll, Ready, Scan, ScanError,
    StepError, Table, open, prepare_with,
};
use lt_test_kit::holds::Holds;
use lt_test_kit::run::seated;
use lt_test_kit::seat::Seat;
use lt_words::Name;
use std::alloc::Global;
use std::marker::Brand;
use std::rt::Runtime;
use std::sync::Wait;
use std::time::{Clock, CpuClock};

/// How many key steps a round has.
const STEPS: u64 = 5;

/// The timestamp of every request and every lock.
const TS: Timestamp = Timestamp {
    wall: 10,
    logical: 0,
};

/// The parameters of the load.
#[derive(Clone, Copy, Debug)]
pub struct HandOver {
    /// How many requests wait for the key.
    pub waiters: usize,
    pub rounds: u64,
    pub keeping: Keeping,
}

impl HandOver {
    /// How many passes the table has: one for each waiter, and one for the holder.
    fn passes(&self) -> usize {
        self.waiters.saturating_add(1)
    }

    /// How many key steps are made before the clock starts: the holder's acquire, and the first visit of each waiter.
    fn first_steps(&self) -> u64 {
        (self.waiters as u64).saturating_add(1)
    }

    /// How many key steps the rounds have.
    fn steps(&self) -> u64 {
        self.rounds.saturating_mul(STEPS)
    }
}

/// A pass that holds the key or waits for it, and its transaction. It has a seat except in the middle of a call and
/// after a call that failed.
#[derive(Drop)]
struct Contender<N: Name> {
    seat: Option<Seat<N>>,
    txn: TxnId,
}

/// One contender for each seat. None if an allocation fails.
fn contenders_of<N: Name>(alloc: Global, seats: Vec<Seat<N>>) -> Option<Vec<Contender<N>>> {
    let mut contenders = Vec::new(alloc);
    let mut number = 0u64;
    for seat in seats {
        number = number.saturating_add(1);
        let txn = TxnId::new(number)?;
        let seat = Some(seat);
        contenders.push(Contender { seat, txn }).ok()?;
    }
    Some(contenders)
}

/// The accesses of every request. None if an allocation fails.
fn accesses_of(alloc: Global) -> Option<[(Key, Access); 1]> {
    let key = Key::from_bytes(alloc, b"k0").ok()?;
    Some([(key, Access::Write)])
}

/// Some if a finish freed the lock.
fn is_freed(answered: Result<Answer, StepError>) -> Option<()> {
    match answered {
        Ok(answer) if answer.reply == Reply::Freed => Some(()),
        _ => None,
    }
}

/// Some if the request waits.
fn is_queued(scanned: Result<Scan, ScanError>) -> Option<()> {
    match scanned {
        Ok(Scan::Waiting(_)) => Some(()),
        _ => None,
    }
}

/// Acquires the free key by the contender's pass, without a request. None if the lock is not taken.
fn acquire<N: Name, T: KeyTable, R: Wait>(
    rt: &R,
    table: &Table<N, T>,
    key: &Key,
    contender: &mut Contender<N>,
) -> Option<()> {
    let Contender { seat, txn } = contender;
    match &mut seat.as_mut()?.holds {
        Holds::Free(pass) => is_taken(table.acquire(rt, pass, key, *txn, TS)),
        Holds::Open(_) => None,
    }
}

/// Frees the key, which the contender's transaction holds. None if the lock is not freed.
fn finish<N: Name, T: KeyTable, R: Wait>(
    rt: &R,
    table: &Table<N, T>,
    key: &Key,
    contender: &mut Contender<N>,
) -> Option<()> {
    let Contender { seat, txn } = contender;
    match &mut seat.as_mut()?.holds {
        Holds::Free(pass) => is_freed(table.finish(rt, pass, key, *txn)),
        Holds::Open(_) => None,
    }
}

/// Enters a request to write the key, and visits the key. None if the request does not wait, or a call fails.
fn queue_up<N: Name, T: KeyTable, R: Wait>(
    rt: &R,
    alloc: Global,
    table: &Table<N, T>,
    accesses: &[(Key, Access)],
    contender: &mut Contender<N>,
) -> Option<()> {
    let Contender { seat, txn } = contender;
    let pass = seat.take()?.into_pass()?;
    match table.enter(alloc, pass, Some(*txn), TS, accesses, 0) {
        Ok(mut guard) => {
            let scanned = table.scan(rt, &mut guard);
            *seat = Some(Seat::open(guard));
            is_queued(scanned)
        }
        Err(EnterRefused { pass, error: _ }) => {
            pass.abandon();
            None
        }
    }
}

/// Polls and scans twice: the first scan ends the wait, and the second one visits the key. True if the request was let
/// through and proceeds.
fn has_passed<N: Name, T: KeyTable, R: Wait>(rt: &R, table: &Table<N, T>, guard: &mut Guard) -> bool
    requires { guard.old.pass.of ≡ N.of }
    ensures { guard.new.pass.of ≡ N.of }
{
    let polled = table.poll(guard);
    let first = table.scan(rt, guard);
    let second = table.scan(rt, guard);
    polled == Poll::Through && first == Ok(Scan::Rescan) && second == Ok(Scan::Proceed)
}

/// Polls, scans and acquires the key. None if the request was not let through, or the lock is not taken.
fn take_over<N: Name, T: KeyTable, R: Wait>(
    rt: &R,
    table: &Table<N, T>,
    key: &Key,
    txn: TxnId,
    guard: &mut Guard,
) -> Option<()>
    requires { guard.old.pass.of ≡ N.of }
    ensures { guard.new.pass.of ≡ N.of }
{
    if !has_passed(rt, table, guard) {
        return None;
    }
    is_taken(table.acquire_in(rt, guard, key, txn, TS))
}

/// As [`take_over`], for the contender's request. None too if it has none.
fn take_over_in<N: Name, T: KeyTable, R: Wait>(
    rt: &R,
    table: &Table<N, T>,
    key: &Key,
    contender: &mut Contender<N>,
) -> Option<()> {
    let Contender { seat, txn } = contender;
    match &mut seat.as_mut()?.holds {
        Holds::Open(guard) => take_over(rt, table, key, *txn, guard),
        Holds::Free(_) => None,
    }
}

/// The contender's request leaves. None if the leave fails; the pass is then given up.
fn leave<N: Name, T: KeyTable, R: Wait>(
    rt: &R,
    table: &Table<N, T>,
    contender: &mut Contender<N>,
) -> Option<()> {
    let guard = contender.seat.take()?.into_guard()?;
    match table.leave(rt, guard) {
        Ok(Left { pass, answers: _ }) => {
            contender.seat = Some(Seat::free(pass));
            Some(())
        }
        Err(LeaveStopped { guard, error: _ }) => {
            guard.abandon();
            None
        }
    }
}

/// The first contender acquires the key, and the others wait for it. None if a call fails.
fn queue_all<N: Name, T: KeyTable, R: Wait>(
    rt: &R,
    alloc: Global,
    table: &Table<N, T>,
    accesses: &[(Key, Access); 1],
    contenders: &mut Vec<Contender<N>>,
) -> Option<()> {
    acquire(rt, table, &accesses[0].0, contenders.get_mut(0)?)?;
    for index in 1..contenders.len() {
        queue_up(rt, alloc, table, accesses, contenders.get_mut(index)?)?;
    }
    Some(())
}

/// Makes a round. Returns the index of the new holder, which follows that of the old one. None if a call fails.
fn round<N: Name, T: KeyTable, R: Wait>(
    rt: &R,
    alloc: Global,
    table: &Table<N, T>,
    accesses: &[(Key, Access); 1],
    contenders: &mut Vec<Contender<N>>,
    holder: usize,
) -> Option<usize> {
    let key = &accesses[0].0;
    let after = holder.saturating_add(1);
    let next = if after < contenders.len() { after } else { 0 };
    finish(rt, table, key, contenders.get_mut(holder)?)?;
    take_over_in(rt, table, key, contenders.get_mut(next)?)?;
    leave(rt, table, contenders.get_mut(next)?)?;
    queue_up(rt, alloc, table, accesses, contenders.get_mut(holder)?)?;
    Some(next)
}

/// Makes the rounds. None if a call fails.
fn make_rounds<N: Name, T: KeyTable, R: Wait>(
    rt: &R,
    alloc: Global,
    table: &Table<N, T>,
    accesses: &[(Key, Access); 1],
    contenders: &mut Vec<Contender<N>>,
    rounds: u64,
) -> Option<()> {
    let mut holder = 0;
    for _ in 0..rounds {
        holder = round(rt, alloc, table, accesses, contenders, holder)?;
    }
    Some(())
}

/// Makes the rounds and times them. An error if a call fails.
fn timed<N: Name, T: KeyTable, H: Wait + Clock + CpuClock>(
    rt: &H,
    alloc: Global,
    table: &Table<N, T>,
    accesses: &[(Key, Access); 1],
    contenders: &mut Vec<Contender<N>>,
    rounds: u64,
) -> anyhow::Result<Spent> {
    let start = Start::now(rt)?;
    let made = make_rounds(rt, alloc, table, accesses, contenders, rounds);
    let spent = start.spent(rt)?;
    if made.is_none() {
        bail!("a call was refused");
    }
    Ok(spent)
}

/// Closes the table with the passes and requests of the contenders. None if the close or an allocation fails.
fn close_with<N: Name, T: KeyTable + Drop, R: Wait>(
    rt: &R,
    alloc: Global,
    table: Table<N, T>,
    contenders: Vec<Contender<N>>,
    keeping: Keeping,
) -> Option<Ending> {
    let mut seats = Vec::new(alloc);
    for contender in contenders {
        let Contender { seat, txn: _ } = contender;
        seats.push(seat?).ok()?;
    }
    close(rt, alloc, table, seats, keeping, Vec::new(alloc))
}

/// Opens a table, plays the load on it, and closes it. Returns the number of key steps that the table made, and the
/// times of the rounds.
fn play<N: Name, H: Wait + Clock + CpuClock>(
    rt: &H,
    alloc: Global,
    ready: Ready,
    load: &HandOver,
    accesses: &[(Key, Access); 1],
) -> anyhow::Result<(u64, Spent)>
    requires named { ready.of ≡ N.of }
{
    // A fixed start, so that a figure can be repeated.
    let (table, passes) = open::<N>(alloc, ready, 0)?;
    let Some(seats) = seated::<N>(alloc, passes) else {
        bail!("memory was refused");
    };
    let Some(mut contenders) = contenders_of(alloc, seats) else {
        bail!("memory was refused");
    };
    if queue_all(rt, alloc, &table, accesses, &mut contenders).is_none() {
        bail!("a request did not wait");
    }
    let spent = timed(rt, alloc, &table, accesses, &mut contenders, load.rounds)?;
    let Some(ending) = close_with(rt, alloc, table, contenders, load.keeping) else {
        bail!("the table was not closed");
    };
    Ok((ending.steps, spent))
}

/// The configuration of the load's table.
fn config_of(load: &HandOver) -> Config {
    Config {
        shards: 1,
        passes: load.passes(),
        max_steps: 1 << 32,
        max_requests: MAX_REQUEST,
        max_waits: MAX_WAIT,
    }
}

/// Plays the load, and prints one line with its times and counts. Each round lets one request through. An error if the
/// table's number of steps differs from the number that the calls made.
pub fn report<H: Wait + Clock + CpuClock, R: Runtime>(
    clocks: &H,
    rt: &R,
    alloc: Global,
    load: &HandOver,
) -> anyhow::Result<()> {
    let Some(accesses) = accesses_of(alloc) else {
        bail!("memory was refused");
    };
    let ready = prepare_with(alloc, config_of(load), load.keeping)?;
    let (steps, spent) = play::<Brand, H>(clocks, alloc, ready, load, &accesses)?;
    if steps != load.first_steps().saturating_add(load.steps()) {
        bail!("the table has another number of steps than the calls made");
    }
    print!(rt;
        "waiters={} history={}",
        load.waiters,
        name_of(load.keeping)
    )?;
    print!(rt; " rounds={} lets={}", load.rounds, load.rounds)?;
    tell_times(rt, load.steps(), &spent)?;
    tell_nanoseconds(rt, "ns_per_round", load.rounds, &spent)?;
    println!(rt)?;
    Ok(())
}

//! Do threads that wait at one key sleep, and then take their turns in order?
//! [`take_turns`] has threads wait at a key that is held, and then frees its lock. It reports the order in which
//! the requests took the lock, and how much processor time the process used while they waited. Read next `tests`.
ghost use Rattle.std.specs.Prelude.{◌≡◌, ◌<◌};

use lt_ids::{Access, Key, TxnId};
use lt_rules::KeyTable;
use lt_table::{Config, Guard, Ready, Scan, Table, open, prepare};
use lt_test_kit::request::{TIME, await_queued, enter, hold, leave};
use lt_test_kit::run::{close_all, seated};
use lt_test_kit::seat::Seat;
use lt_words::Name;
use std::alloc::Global;
use std::marker::Brand;
use std::sync::{Mutex, Wait};
use std::thread::{Threads, join, map_vec, sleep};
use std::time::{Clock, CpuClock, Duration};

/// How many milliseconds the holder keeps the lock after all requests have begun to wait.
const HELD: u64 = 200;

/// The results of a run.
#[derive(Drop)]
pub struct Turns {
    /// The numbers of the requests, in the order in which they took the lock.
    pub numbers: Vec<u64>,
    /// How much processor time the process used while all requests waited and the holder slept.
    pub processor: Duration,
    /// How many steps were made.
    pub steps: usize,
}

/// A thread's seat and its transaction.
#[derive(Drop)]
pub struct Caller<N: Name> {
    pub seat: Seat<N>,
    pub txn: TxnId,
}

/// Scans until the request proceeds, and sleeps whenever it must wait. False if a call has any other answer.
pub fn reach<N: Name, T: KeyTable, R: Wait>(rt: &R, table: &Table<N, T>, guard: &mut Guard) -> bool
    requires { guard.old.pass.of ≡ N.of }
    ensures { guard.new.pass.of ≡ N.of }
{
    for _ in rt.forever() {
        match table.scan(rt, guard) {
            Ok(Scan::Proceed) => return true,
            Ok(Scan::Rescan) => {}
            Ok(Scan::Waiting(_)) => {
                table.wait(rt, guard);
            }
            Ok(Scan::TooLong(_)) | Err(_) => return false,
        }
    }
    unreachable!()
}

/// Notes the request's number and takes the lock. Whether both succeeded.
fn take<N: Name, T: KeyTable, R: Wait>(
    rt: &R,
    table: &Table<N, T>,
    guard: &mut Guard,
    key: &Key,
    txn: TxnId,
    numbers: &Mutex<Vec<u64>>,
) -> bool
    requires { guard.old.pass.of ≡ N.of }
    ensures { guard.new.pass.of ≡ N.of }
{
    let number = guard.number();
    let is_noted = numbers.lock(rt).push(number).is_ok();
    table.acquire_in(rt, guard, key, txn, TIME).is_ok() && is_noted
}

/// A thread's turn: its request enters, waits, takes the lock and leaves, and then the lock is freed.
fn turn<N: Name, T: KeyTable, R: Wait>(
    rt: &R,
    alloc: Global,
    table: &Table<N, T>,
    caller: Caller<N>,
    key: &Key,
    numbers: &Mutex<Vec<u64>>,
) -> Option<Seat<N>> {
    let Caller { seat, txn } = caller;
    let mut guard = enter(alloc, table, seat, (key, Access::Write), txn)?;
    let is_well = reach(rt, table, &mut guard) && take(rt, table, &mut guard, key, txn, numbers);
    let mut pass = leave(rt, table, guard)?;
    let is_freed = table.finish(rt, &mut pass, key, txn).is_ok();
    let seat = Seat::free(pass);
    if is_well && is_freed {
        Some(seat)
    } else {
        None
    }
}

/// Frees the lock once `many` requests wait. Returns how much processor time the process used while they waited.
fn free_when<N: Name, T: KeyTable, R: Wait + Clock + CpuClock>(
    rt: &R,
    table: &Table<N, T>,
    seat: Seat<N>,
    key: &Key,
    txn: TxnId,
    many: usize,
) -> Option<(Seat<N>, Duration)> {
    let mut pass = seat.into_pass()?;
    let has_come = await_queued(rt, table, &mut pass, (key, Access::Write), many);
    sleep(rt, Duration::from_millis(20));
    let before = rt.process_cpu_time();
    sleep(rt, Duration::from_millis(HELD));
    let after = rt.process_cpu_time();
    let is_freed = table.finish(rt, &mut pass, key, txn).is_ok();
    let seat = Seat::free(pass);
    let processor = after.ok()?.saturating_sub(before.ok()?);
    if has_come && is_freed {
        Some((seat, processor))
    } else {
        None
    }
}

fn callers_of<N: Name>(alloc: Global, seats: Vec<Seat<N>>) -> Option<Vec<Caller<N>>> {
    let mut callers = Vec::new(alloc);
    let mut number = 0u64;
    for seat in seats {
        number = number.saturating_add(1);
        let txn = TxnId::new(number)?;
        callers.push(Caller { seat, txn }).ok()?;
    }
    Some(callers)
}

fn all_of<N: Name>(
    alloc: Global,
    done: Vec<Option<Seat<N>>>,
    last: Seat<N>,
) -> Option<Vec<Seat<N>>> {
    let mut seats = Vec::new(alloc);
    for seat in done {
        seats.push(seat?).ok()?;
    }
    seats.push(last).ok()?;
    Some(seats)
}

fn turns_on<N: Name + Send + Sync, T: KeyTable + Send, R: Threads + Wait + Clock + CpuClock + Sync>(
    rt: &R,
    alloc: Global,
    table: &Table<N, T>,
    mut seats: Vec<Seat<N>>,
    numbers: &Mutex<Vec<u64>>,
) -> Option<(Vec<Seat<N>>, Duration)> {
    let key = Key::from_bytes(alloc, b"key").ok()?;
    let txn = TxnId::new(1000)?;
    let holder = hold(rt, table, seats.pop()?, &key, txn)?;
    let callers = callers_of(alloc, seats)?;
    let many = callers.len();
    let at = &key;
    let (done, freed) = join(
        rt,
        move || {
            map_vec(
                rt,
                callers,
                &|caller: Caller<N>| -> Option<Seat<N>> {
                    turn(rt, alloc, table, caller, at, numbers)
                },
            )
        },
        move || free_when(rt, table, holder, at, txn, many),
    );
    let (last, processor) = freed?;
    Some((all_of(alloc, done.ok()?, last)?, processor))
}

fn turns_named<N: Name + Send + Sync, R: Threads + Wait + Clock + CpuClock + Sync>(
    rt: &R,
    alloc: Global,
    ready: Ready,
) -> Option<Turns>
    requires { ready.of ≡ N.of }
{
    let (table, passes) = open::<N>(alloc, ready, 0).ok()?;
    let seats = seated::<N>(alloc, passes)?;
    let numbers = Mutex::new(Vec::new(alloc));
    let (seats, processor) = turns_on(rt, alloc, &table, seats, &numbers)?;
    let histories = close_all(rt, alloc, table, seats)?;
    Some(Turns {
        numbers: numbers.into_inner(),
        processor,
        steps: histories.shards.first()?.len(),
    })
}

/// As many threads as `threads` says wait at one key that is held, sleep until it comes free, and take their
/// turns.
pub fn take_turns<R: Threads + Wait + Clock + CpuClock + Sync>(
    rt: &R,
    alloc: Global,
    threads: usize,
) -> Option<Turns>
    requires { threads < 1000 }
{
    let config = Config {
        shards: 1,
        passes: threads + 1,
        max_steps: 1 << 20,
        max_requests: 1 << 20,
        max_waits: 1 << 20,
    };
    let ready = prepare(alloc, config).ok()?;
    turns_named::<Brand, R>(rt, alloc, ready)
}

//! Does a call return while another thread is inside a shard, or inside a waker? Each run plays the two threads
//! and reports whether the call returned while the other thread was stopped.
//!
//! [`two_acquires`]: two acquires in different shards. [`poll`]: a poll of a request that waits in the occupied
//! shard. [`wake`]: a step in the shard of the let for which the waker is called. The occupied thread waits at a
//! [`Stop`] until the other call has returned. [`crate::tests`] compares the results.
ghost use Rattle.std.specs.Prelude.{◌≡◌, IfOk, length};
ghost use Rattle.std.specs.List.{All};
ghost use Rattle.std.specs.FinMap as finmap;

use crate::watched::{Stop, Stopping, Watched};
use lt_ids::{Access, Key, Timestamp, TxnId};
use lt_plain::PlainTable;
use lt_rules::{KeyTable, Reply};
use lt_table_core::{
    Config, EnterRefused, Poll, Ready, Scan, Table, Waker, empty_tables, open_waking_with,
    open_with, prepare,
};
use lt_test_kit::plain::plain_tables;
use lt_test_kit::run::seated;
use lt_test_kit::seat::Seat;
use lt_words::Name;
use std::alloc::{AllocError, Global};
use std::marker::Brand;
use std::sync::Wait;
use std::thread::{Threads, join};

const TIME: Timestamp = Timestamp {
    wall: 1,
    logical: 0,
};

/// The result of [`two_acquires`].
#[derive(Clone, Copy, Debug, PartialEq, Eq)]
pub struct Apart {
    /// The shards of the two keys.
    pub shards: (usize, usize),
    pub first: Reply,
    pub second: Reply,
    /// The second acquire returned before the first proceeded.
    pub is_apart: bool,
}

/// The result of [`poll`], made while another thread is inside the shard of the key that the request waits for.
#[derive(Clone, Copy, Debug, PartialEq, Eq)]
pub struct Polled {
    pub scan: Scan,
    pub poll: Poll,
    pub acquire: Reply,
    /// The poll returned before the acquire proceeded.
    pub is_apart: bool,
}

/// `count` empty tables that share one stop.
fn watched_tables<'a>(
    alloc: Global,
    count: usize,
    stop: &'a Stop,
) -> Result<Vec<Watched<'a>>, AllocError>
    ensures many { IfOk result (λ tables. length tables.items ≡ count) }
    ensures empty { IfOk result (λ tables. All (λ t. t.table ≡ finmap.empty) tables.items) }
{
    empty_tables(
        alloc,
        count,
        || -> Watched<'_>
            ensures { result.table ≡ finmap.empty }
        { Watched::new(alloc, stop) },
    )
}

/// Acquires the key's lock for the transaction, by the free pass in the seat, and gives the pass up.
fn acquire<N: Name, T: KeyTable, W: Waker, R: Wait>(
    rt: &R,
    alloc: Global,
    table: &Table<N, T, W>,
    seat: Seat<N>,
    txn: u64,
    key: u8,
) -> Option<Reply> {
    let key = Key::from_bytes(alloc, &[key]).ok()?;
    let txn = TxnId::new(txn)?;
    let mut pass = seat.into_pass()?;
    let answered = table.acquire(rt, &mut pass, &key, txn, TIME);
    pass.abandon();
    Some(answered.ok()?.reply)
}

/// Acquires the key's lock once another thread is at the stop, and then allows that thread to proceed.
fn acquire_beside<N: Name, T: KeyTable, R: Wait>(
    rt: &R,
    alloc: Global,
    table: &Table<N, T>,
    seat: Seat<N>,
    key: u8,
    stop: &Stop,
) -> Option<Reply> {
    let has_come = stop.come.wait();
    let reply = acquire(rt, alloc, table, seat, 2, key);
    stop.go.set();
    if has_come { reply } else { None }
}

fn shard_of<N: Name, T: KeyTable>(alloc: Global, table: &Table<N, T>, key: u8) -> Option<usize> {
    let key = Key::from_bytes(alloc, &[key]).ok()?;
    Some(table.shard_of(&key))
}

/// The last two seats, in their order.
fn two_of<N: Name>(mut seats: Vec<Seat<N>>) -> Option<(Seat<N>, Seat<N>)> {
    let two = seats.pop()?;
    let one = seats.pop()?;
    Some((one, two))
}

/// Runs both acquires at once: the first stops inside its shard until the second has returned.
fn acquire_both<N: Name + Send + Sync, R: Threads + Wait + Sync>(
    rt: &R,
    alloc: Global,
    table: &Table<N, Watched<'_>>,
    stop: &Stop,
    seats: (Seat<N>, Seat<N>),
    keys: (u8, u8),
) -> Option<(Reply, Reply)> {
    let (one, two) = seats;
    let (first, second) = join(
        rt,
        move || acquire(rt, alloc, table, one, 1, keys.0),
        move || acquire_beside(rt, alloc, table, two, keys.1, stop),
    );
    Some((first?, second?))
}

/// Opens a table over watched tables, with a seat for each pass.
fn open_watched<'a, N: Name>(
    alloc: Global,
    ready: Ready,
    shards: usize,
    stop: &'a Stop,
) -> Option<(Table<N, Watched<'a>>, Vec<Seat<N>>)>
    requires named { ready.of ≡ N.of }
    requires many { ready.of.shards ≡ shards }
{
    let Ok(tables) = watched_tables(alloc, shards, stop) else {
        ready.abandon();
        return None;
    };
    let (table, passes) = open_with::<N, Watched<'a>>(alloc, ready, tables).ok()?;
    let seats = seated::<N>(alloc, passes)?;
    Some((table, seats))
}

/// Runs both acquires on the table, and reports the shards of their keys.
fn two_acquires_on<N: Name + Send + Sync, R: Threads + Wait + Sync>(
    rt: &R,
    alloc: Global,
    table: &Table<N, Watched<'_>>,
    stop: &Stop,
    seats: Vec<Seat<N>>,
    keys: (u8, u8),
) -> Option<Apart> {
    let of_first = shard_of(alloc, table, keys.0)?;
    let of_second = shard_of(alloc, table, keys.1)?;
    let (first, second) = acquire_both(rt, alloc, table, stop, two_of(seats)?, keys)?;
    Some(Apart {
        shards: (of_first, of_second),
        first,
        second,
        is_apart: stop.gone.is_set(),
    })
}

fn two_acquires_named<N: Name + Send + Sync, R: Threads + Wait + Sync>(
    rt: &R,
    alloc: Global,
    ready: Ready,
    shards: usize,
    keys: (u8, u8),
) -> Option<Apart>
    requires named { ready.of ≡ N.of }
    requires many { ready.of.shards ≡ shards }
{
    let stop = Stop::at(keys.0);
    let (table, seats) = open_watched::<N>(alloc, ready, shards, &stop)?;
    two_acquires_on(rt, alloc, &table, &stop, seats, keys)
}

fn config_of(shards: usize, passes: usize) -> Config
    ensures { result.shards ≡ shards }
{
    Config {
        shards,
        passes,
        max_steps: 10,
        max_requests: 10,
        max_waits: 10,
    }
}

/// One thread acquires the first key. While it is inside that key's shard, another thread acquires the second key.
pub fn two_acquires<R: Threads + Wait + Sync>(
    rt: &R,
    alloc: Global,
    shards: usize,
    keys: (u8, u8),
) -> Option<Apart> {
    let ready = prepare(alloc, config_of(shards, 2)).ok()?;
    two_acquires_named::<Brand, R>(rt, alloc, ready, shards, keys)
}

/// Polls once another thread is at the stop, and then allows that thread to proceed.
fn poll_beside<N: Name, T: KeyTable>(
    table: &Table<N, T>,
    seat: Seat<N>,
    stop: &Stop,
) -> Option<Poll> {
    let mut guard = seat.into_guard()?;
    let has_come = stop.come.wait();
    let poll = table.poll(&mut guard);
    guard.abandon();
    stop.go.set();
    if has_come { Some(poll) } else { None }
}

/// A request enters to write the key, and scans once. The result has the scan's answer.
fn scanned<N: Name, T: KeyTable, W: Waker, R: Wait>(
    rt: &R,
    alloc: Global,
    table: &Table<N, T, W>,
    seat: Seat<N>,
    txn: u64,
    key: u8,
) -> Option<(Seat<N>, Scan)> {
    let key = Key::from_bytes(alloc, &[key]).ok()?;
    let txn = TxnId::new(txn)?;
    let mut accesses = Vec::new(alloc);
    accesses.push((key, Access::Write)).ok()?;
    let pass = seat.into_pass()?;
    let mut guard = match table.enter(alloc, pass, Some(txn), TIME, &accesses, 0) {
        Ok(guard) => guard,
        Err(EnterRefused { pass, error: _ }) => {
            pass.abandon();
            return None;
        }
    };
    let scanned = table.scan(rt, &mut guard);
    let seat = Seat::open(guard);
    Some((seat, scanned.ok()?))
}

/// Transaction 1 acquires the key, and then a request of transaction 2 enters to write it and scans.
fn held_and_scanned<N: Name, T: KeyTable, W: Waker, R: Wait>(
    rt: &R,
    alloc: Global,
    table: &Table<N, T, W>,
    seats: (Seat<N>, Seat<N>),
    key: u8,
) -> Option<(Seat<N>, Scan)> {
    let (one, two) = seats;
    acquire(rt, alloc, table, one, 1, key)?;
    scanned(rt, alloc, table, two, 2, key)
}

/// Runs the acquire of a key and the poll at once: the acquire stops inside its shard until the poll has returned.
fn acquire_and_poll<N: Name + Send + Sync, R: Threads + Wait + Sync>(
    rt: &R,
    alloc: Global,
    table: &Table<N, Watched<'_>>,
    stop: &Stop,
    seats: (Seat<N>, Seat<N>),
    key: u8,
) -> Option<(Reply, Poll)> {
    let (free, waiting) = seats;
    let (first, second) = join(
        rt,
        move || acquire(rt, alloc, table, free, 3, key),
        move || poll_beside(table, waiting, stop),
    );
    Some((first?, second?))
}

/// Makes a request wait for the second key, and then runs the acquire of the first key and the poll at once.
fn poll_on<N: Name + Send + Sync, R: Threads + Wait + Sync>(
    rt: &R,
    alloc: Global,
    table: &Table<N, Watched<'_>>,
    stop: &Stop,
    mut seats: Vec<Seat<N>>,
    keys: (u8, u8),
) -> Option<Polled> {
    let three = seats.pop()?;
    let (waiting, scan) = held_and_scanned(rt, alloc, table, two_of(seats)?, keys.1)?;
    let (acquire, poll) = acquire_and_poll(rt, alloc, table, stop, (three, waiting), keys.0)?;
    Some(Polled {
        scan,
        poll,
        acquire,
        is_apart: stop.gone.is_set(),
    })
}

fn poll_named<N: Name + Send + Sync, R: Threads + Wait + Sync>(
    rt: &R,
    alloc: Global,
    ready: Ready,
    keys: (u8, u8),
) -> Option<Polled>
    requires named { ready.of ≡ N.of }
    requires many { ready.of.shards ≡ 1 }
{
    let stop = Stop::at(keys.0);
    let (table, seats) = open_watched::<N>(alloc, ready, 1, &stop)?;
    poll_on(rt, alloc, &table, &stop, seats, keys)
}

/// A request waits for the second key. Both keys are in the only shard. While a thread is inside that shard to
/// acquire the first key, another thread polls for the request.
pub fn poll<R: Threads + Wait + Sync>(rt: &R, alloc: Global, keys: (u8, u8)) -> Option<Polled> {
    let ready = prepare(alloc, config_of(1, 3)).ok()?;
    poll_named::<Brand, R>(rt, alloc, ready, keys)
}

/// The result of [`wake`].
#[derive(Clone, Copy, Debug, PartialEq, Eq)]
pub struct Woken {
    pub scan: Scan,
    pub finish: Reply,
    pub poll: Poll,
    pub acquire: Reply,
    /// The step returned before the waker proceeded.
    pub is_apart: bool,
}

/// Finishes the transaction at the key, by the free pass in the seat, and gives the pass up.
fn finish<N: Name, T: KeyTable, W: Waker, R: Wait>(
    rt: &R,
    alloc: Global,
    table: &Table<N, T, W>,
    seat: Seat<N>,
    txn: u64,
    key: u8,
) -> Option<Reply> {
    let key = Key::from_bytes(alloc, &[key]).ok()?;
    let txn = TxnId::new(txn)?;
    let mut pass = seat.into_pass()?;
    let answered = table.finish(rt, &mut pass, &key, txn);
    pass.abandon();
    Some(answered.ok()?.reply)
}

/// Once the waker is at the stop, the request polls, and its transaction acquires another key. Then the waker may
/// proceed.
fn step_beside<N: Name, T: KeyTable, W: Waker, R: Wait>(
    rt: &R,
    alloc: Global,
    table: &Table<N, T, W>,
    seat: Seat<N>,
    key: u8,
    stop: &Stop,
) -> Option<(Poll, Reply)> {
    let key = Key::from_bytes(alloc, &[key]).ok()?;
    let txn = TxnId::new(2)?;
    let mut guard = seat.into_guard()?;
    let has_come = stop.come.wait();
    let poll = table.poll(&mut guard);
    let answered = table.acquire_in(rt, &mut guard, &key, txn, TIME);
    guard.abandon();
    stop.go.set();
    let reply = answered.ok()?.reply;
    if has_come { Some((poll, reply)) } else { None }
}

/// Runs the finish of the holder and the step of the waiting request at once.
fn finish_beside<N: Name + Send + Sync, T: KeyTable + Send, R: Threads + Wait + Sync>(
    rt: &R,
    alloc: Global,
    table: &Table<N, T, Stopping<'_>>,
    stop: &Stop,
    seats: (Seat<N>, Seat<N>),
    keys: (u8, u8),
) -> Option<(Reply, (Poll, Reply))> {
    let (holder, waiting) = seats;
    let (first, second) = join(
        rt,
        move || finish(rt, alloc, table, holder, 1, keys.0),
        move || step_beside(rt, alloc, table, waiting, keys.1, stop),
    );
    Some((first?, second?))
}

/// One pass acquires the first key, a request of another pass waits for it, and then the lock is freed.
fn wake_on<N: Name + Send + Sync, T: KeyTable + Send, R: Threads + Wait + Sync>(
    rt: &R,
    alloc: Global,
    table: &Table<N, T, Stopping<'_>>,
    stop: &Stop,
    mut seats: Vec<Seat<N>>,
    keys: (u8, u8),
) -> Option<Woken> {
    let holder = seats.pop()?;
    let (waiting, scan) = held_and_scanned(rt, alloc, table, two_of(seats)?, keys.0)?;
    let seats = (holder, waiting);
    let (finish, (poll, acquire)) = finish_beside(rt, alloc, table, stop, seats, keys)?;
    Some(Woken {
        scan,
        finish,
        poll,
        acquire,
        is_apart: stop.gone.is_set(),
    })
}

fn wake_named<N: Name + Send + Sync, R: Threads + Wait + Sync>(
    rt: &R,
    alloc: Global,
    ready: Ready,
    keys: (u8, u8),
) -> Option<Woken>
    requires { ready.of ≡ N.of }
{
    let stop = Stop::at(keys.0);
    let waker = Stopping { stop: &stop };
    let Ok(tables) = plain_tables(alloc, ready.config().shards) else {
        ready.abandon();
        return None;
    };
    let (table, passes) = open_waking_with::<N, PlainTable, Stopping<'_>>(
        alloc, ready, tables, waker,
    ).ok()?;
    let seats = seated::<N>(alloc, passes)?;
    wake_on(rt, alloc, &table, &stop, seats, keys)
}

/// The lock of the first key is freed, which lets a request through. While the waker is called for that let, the
/// request polls and acquires the second key, in the same shard.
pub fn wake<R: Threads + Wait + Sync>(rt: &R, alloc: Global, keys: (u8, u8)) -> Option<Woken> {
    let ready = prepare(alloc, config_of(1, 3)).ok()?;
    wake_named::<Brand, R>(rt, alloc, ready, keys)
}

//! Do all sleeping readers of a key wake when one step lets them through?
//! [`wake_readers`] has threads wait to read a key that is held. Once all of them wait, the lock is freed.
ghost use Rattle.std.specs.Prelude.{◌≡◌, ◌<◌};

use lt_ids::{Access, Key, TxnId};
use lt_rules::KeyTable;
use lt_table::{Config, Poll, Ready, Scan, Table, open, prepare};
use lt_test_kit::request::{await_queued, enter, hold, leave};
use lt_test_kit::run::{close_all, seated};
use lt_test_kit::seat::Seat;
use lt_words::Name;
use std::alloc::Global;
use std::marker::Brand;
use std::sync::Wait;
use std::thread::{Threads, join, map_vec, sleep};
use std::time::{Clock, Duration};

/// A reader: its request waits for the key, sleeps, and leaves once it is let through. None if it has any other answer.
fn read<N: Name, T: KeyTable, R: Wait>(
    rt: &R,
    alloc: Global,
    table: &Table<N, T>,
    seat: Seat<N>,
    key: &Key,
    txn: TxnId,
) -> Option<Seat<N>> {
    let mut guard = enter(alloc, table, seat, (key, Access::Read), txn)?;
    let has_waited = match table.scan(rt, &mut guard) {
        Ok(Scan::Waiting(_)) => table.wait(rt, &mut guard) == Poll::Through,
        _ => false,
    };
    let pass = leave(rt, table, guard)?;
    let seat = Seat::free(pass);
    if has_waited { Some(seat) } else { None }
}

/// Frees the lock once all readers wait, and most of them sleep.
fn free_when<N: Name, T: KeyTable, R: Wait + Clock>(
    rt: &R,
    table: &Table<N, T>,
    seat: Seat<N>,
    key: &Key,
    txn: TxnId,
    many: usize,
) -> Option<Seat<N>> {
    let mut pass = seat.into_pass()?;
    let have_come = await_queued(rt, table, &mut pass, (key, Access::Read), many);
    sleep(rt, Duration::from_millis(100));
    let is_freed = table.finish(rt, &mut pass, key, txn).is_ok();
    let seat = Seat::free(pass);
    if have_come && is_freed {
        Some(seat)
    } else {
        None
    }
}

fn all_of<N: Name>(
    alloc: Global,
    done: Vec<Option<Seat<N>>>,
    last: Seat<N>,
) -> Option<Vec<Seat<N>>> {
    let mut seats = Vec::new(alloc);
    for seat in done {
        seats.push(seat?).ok()?;
    }
    seats.push(last).ok()?;
    Some(seats)
}

fn readers_on<N: Name + Send + Sync, T: KeyTable + Send, R: Threads + Wait + Clock + Sync>(
    rt: &R,
    alloc: Global,
    table: &Table<N, T>,
    mut seats: Vec<Seat<N>>,
) -> Option<Vec<Seat<N>>> {
    let key = Key::from_bytes(alloc, b"key").ok()?;
    let writer = TxnId::new(1)?;
    let reader = TxnId::new(2)?;
    let holder = hold(rt, table, seats.pop()?, &key, writer)?;
    let many = seats.len();
    let at = &key;
    let (done, freed) = join(
        rt,
        move || {
            map_vec(
                rt,
                seats,
                &|seat: Seat<N>| -> Option<Seat<N>> { read(rt, alloc, table, seat, at, reader) },
            )
        },
        move || free_when(rt, table, holder, at, writer, many),
    );
    all_of(alloc, done.ok()?, freed?)
}

fn readers_named<N: Name + Send + Sync, R: Threads + Wait + Clock + Sync>(
    rt: &R,
    alloc: Global,
    ready: Ready,
) -> Option<usize>
    requires { ready.of ≡ N.of }
{
    let (table, passes) = open::<N>(alloc, ready, 0).ok()?;
    let seats = readers_on(rt, alloc, &table, seated::<N>(alloc, passes)?)?;
    let histories = close_all(rt, alloc, table, seats)?;
    Some(histories.shards.first()?.len())
}

/// So many threads wait to read a key that is held, and one finish lets all of them through. Says how many steps were
/// made. None if a call had another answer than was wanted; never ends if a reader sleeps on.
pub fn wake_readers<R: Threads + Wait + Clock + Sync>(
    rt: &R,
    alloc: Global,
    many: usize,
) -> Option<usize>
    requires { many < 1000 }
{
    let config = Config {
        shards: 1,
        passes: many + 1,
        max_steps: 1 << 20,
        max_requests: 1 << 20,
        max_waits: 1 << 20,
    };
    let ready = prepare(alloc, config).ok()?;
    readers_named::<Brand, R>(rt, alloc, ready)
}

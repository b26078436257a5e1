//! Does a wait with a deadline end there, and a later wait when the request is let through?
//! A request waits at a held key until a deadline, and then until the lock comes free. Read next `tests`.
ghost use Rattle.std.specs.Prelude.{◌≡◌};

use lt_ids::{Access, Key, TxnId};
use lt_rules::KeyTable;
use lt_table::{Config, Guard, Keeping, Poll, Ready, Scan, Table, open, prepare_with};
use lt_test_kit::request::{enter, hold, leave};
use lt_test_kit::run::seated;
use lt_test_kit::seat::Seat;
use lt_words::{Name, Pass};
use std::alloc::Global;
use std::marker::Brand;
use std::sync::Wait;
use std::time::{Clock, Duration, Instant};

/// The answer of a wait with a deadline and how long it took, and the answer of a wait after the lock was freed.
#[derive(Drop)]
pub struct Timed {
    pub first: Poll,
    pub took: Duration,
    pub second: Poll,
}

fn wait_for<N: Name, T: KeyTable, R: Wait + Clock>(
    rt: &R,
    table: &Table<N, T>,
    guard: &mut Guard,
    time: Duration,
) -> Option<(Poll, Duration)>
    requires { guard.old.pass.of ≡ N.of }
    ensures { guard.new.pass.of ≡ N.of }
{
    let start = Instant::now(rt).ok()?;
    let deadline = start.checked_add(time)?;
    let found = table.wait_until(rt, guard, deadline);
    Some((found, start.elapsed(rt).ok()?))
}

/// Scans, waits until a deadline, frees the lock by the holder's pass, and waits again.
fn both<N: Name, T: KeyTable, R: Wait + Clock>(
    rt: &R,
    table: &Table<N, T>,
    guard: &mut Guard,
    holder: &mut Pass,
    key: &Key,
    txn: TxnId,
) -> Option<Timed>
    requires guard { guard.old.pass.of ≡ N.of }
    requires holder { holder.old.of ≡ N.of }
    ensures guard { guard.new.pass.of ≡ N.of }
{
    let Ok(Scan::Waiting(_)) = table.scan(rt, guard) else {
        return None;
    };
    let (first, took) = wait_for(rt, table, guard, Duration::from_millis(30))?;
    if table.finish(rt, holder, key, txn).is_err() {
        return None;
    }
    let second = table.wait(rt, guard);
    Some(Timed {
        first,
        took,
        second,
    })
}

fn timed_on<N: Name, T: KeyTable, R: Wait + Clock>(
    rt: &R,
    alloc: Global,
    table: &Table<N, T>,
    mut seats: Vec<Seat<N>>,
) -> Option<Timed> {
    let key = Key::from_bytes(alloc, b"key").ok()?;
    let txn = TxnId::new(1)?;
    let other = TxnId::new(2)?;
    let holder = hold(rt, table, seats.pop()?, &key, txn)?;
    let mut guard = enter(alloc, table, seats.pop()?, (&key, Access::Write), other)?;
    let Some(mut pass) = holder.into_pass() else {
        guard.abandon();
        return None;
    };
    let timed = both(rt, table, &mut guard, &mut pass, &key, txn);
    pass.abandon();
    leave(rt, table, guard)?.abandon();
    timed
}

fn timed_named<N: Name, R: Wait + Clock>(rt: &R, alloc: Global, ready: Ready) -> Option<Timed>
    requires { ready.of ≡ N.of }
{
    let (table, passes) = open::<N>(alloc, ready, 0).ok()?;
    timed_on(rt, alloc, &table, seated::<N>(alloc, passes)?)
}

/// A request waits at a key that is held: for 30 milliseconds, and then until it is let through. The table keeps
/// its steps in the way of `keeping`.
pub fn wait_twice<R: Wait + Clock>(rt: &R, alloc: Global, keeping: Keeping) -> Option<Timed> {
    let config = Config {
        shards: 1,
        passes: 2,
        max_steps: 100,
        max_requests: 10,
        max_waits: 10,
    };
    let ready = prepare_with(alloc, config, keeping).ok()?;
    timed_named::<Brand, R>(rt, alloc, ready)
}

//! Is a let missed if it comes just before its request goes to sleep?
//! Two threads take turns at the lock of one key. The thread that holds it frees it as soon as the other thread
//! has begun to wait. Read next `tests`, which says how many turns they take.
ghost use Rattle.std.specs.Prelude.{◌≡◌, IfSome};

use crate::waiting::queue_player::Caller;
use lt_ids::{Access, Key, TxnId};
use lt_rules::KeyTable;
use lt_table::{Config, Guard, Keeping, Poll, Ready, Scan, Table, open, prepare_with};
use lt_test_kit::request::{TIME, enter, hold, leave};
use lt_test_kit::run::seated;
use lt_test_kit::seat::Seat;
use lt_words::Name;
use std::alloc::Global;
use std::hint::spin_loop;
use std::marker::Brand;
use std::sync::Wait;
use std::sync::atomic::{AtomicU64, Ordering};
use std::thread::{Threads, join, yield_now};

/// How often a thread checks at most whether the other one has begun to wait.
const LOOKS: u32 = 100_000_000;

/// The key, and how many waits have begun at it.
#[derive(Drop)]
struct Post {
    key: Key,
    waits: AtomicU64,
}

/// Spins until `many` waits have begun, and then for a moment more, whose length varies from wait to wait: up to
/// 63 turns of a loop. False if the waits do not begin within `LOOKS` checks.
fn await_waits(post: &Post, many: u64) -> bool {
    for look in 0..LOOKS {
        if post.waits.load(Ordering::SeqCst) >= many {
            for _ in 0..many % 64 {
                spin_loop();
            }
            return true;
        }
        if look % 1024 == 1023 {
            yield_now();
        }
    }
    false
}

/// Scans, announces that this wait has begun, and sleeps until the request is let through. False if the request
/// need not wait or is not let through.
fn wait_at<N: Name, T: KeyTable, R: Wait>(
    rt: &R,
    table: &Table<N, T>,
    guard: &mut Guard,
    post: &Post,
    number: u64,
) -> bool
    requires { guard.old.pass.of ≡ N.of }
    ensures { guard.new.pass.of ≡ N.of }
{
    let Ok(Scan::Waiting(_)) = table.scan(rt, guard) else {
        return false;
    };
    post.waits.store(number, Ordering::SeqCst);
    table.wait(rt, guard) == Poll::Through
}

/// A request enters to write the key, waits, takes the lock and leaves. `number` counts the waits of both threads.
fn come<N: Name, T: KeyTable, R: Wait>(
    rt: &R,
    alloc: Global,
    table: &Table<N, T>,
    caller: Caller<N>,
    post: &Post,
    number: u64,
) -> Option<Caller<N>> {
    let Caller { seat, txn } = caller;
    let mut guard = enter(alloc, table, seat, (&post.key, Access::Write), txn)?;
    let is_through = wait_at(rt, table, &mut guard, post, number);
    let is_taken = table
        .acquire_in(rt, &mut guard, &post.key, txn, TIME)
        .is_ok();
    let seat = Seat::free(leave(rt, table, guard)?);
    if is_through && is_taken {
        Some(Caller { seat, txn })
    } else {
        None
    }
}

/// Frees the lock once `many` waits have begun.
fn free<N: Name, T: KeyTable, R: Wait>(
    rt: &R,
    table: &Table<N, T>,
    caller: Caller<N>,
    post: &Post,
    many: u64,
) -> Option<Caller<N>> {
    let Caller { seat, txn } = caller;
    let mut pass = seat.into_pass()?;
    let has_come = await_waits(post, many);
    let is_freed = table.finish(rt, &mut pass, &post.key, txn).is_ok();
    let seat = Seat::free(pass);
    if has_come && is_freed {
        Some(Caller { seat, txn })
    } else {
        None
    }
}

/// The thread that holds the lock first. It frees the lock and then waits for it again, `turns` times.
fn free_and_come<N: Name, T: KeyTable, R: Wait>(
    rt: &R,
    alloc: Global,
    table: &Table<N, T>,
    mut caller: Caller<N>,
    post: &Post,
    turns: u64,
) -> Option<u64> {
    let mut waits = 0u64;
    for _ in 0..turns {
        waits = waits.wrapping_add(1);
        caller = free(rt, table, caller, post, waits)?;
        waits = waits.wrapping_add(1);
        caller = come(rt, alloc, table, caller, post, waits)?;
    }
    Some(waits)
}

/// The other thread. It waits for the lock and then frees it, `turns` times.
fn come_and_free<N: Name, T: KeyTable, R: Wait>(
    rt: &R,
    alloc: Global,
    table: &Table<N, T>,
    mut caller: Caller<N>,
    post: &Post,
    turns: u64,
) -> Option<u64> {
    let mut waits = 0u64;
    for _ in 0..turns {
        waits = waits.wrapping_add(1);
        caller = come(rt, alloc, table, caller, post, waits)?;
        waits = waits.wrapping_add(1);
        caller = free(rt, table, caller, post, waits)?;
    }
    Some(waits)
}

/// Runs both threads at once. Transaction 1 holds the lock first.
fn run_both<N: Name + Send + Sync, T: KeyTable + Send, R: Threads + Wait + Sync>(
    rt: &R,
    alloc: Global,
    table: &Table<N, T>,
    mut seats: Vec<Seat<N>>,
    turns: u64,
) -> Option<(u64, u64)> {
    let (one, two) = (TxnId::new(1)?, TxnId::new(2)?);
    let key = Key::from_bytes(alloc, b"key").ok()?;
    let waits = AtomicU64::new(0);
    let post = Post { key, waits };
    let seat = hold(rt, table, seats.pop()?, &post.key, one)?;
    let first = Caller { seat, txn: one };
    let seat = seats.pop()?;
    let second = Caller { seat, txn: two };
    let at = &post;
    let (first, second) = join(
        rt,
        move || free_and_come(rt, alloc, table, first, at, turns),
        move || come_and_free(rt, alloc, table, second, at, turns),
    );
    Some((first?, second?))
}

fn hand_named<N: Name + Send + Sync, R: Threads + Wait + Sync>(
    rt: &R,
    alloc: Global,
    ready: Ready,
    turns: u64,
) -> Option<(u64, u64)>
    requires { ready.of ≡ N.of }
{
    let (table, passes) = open::<N>(alloc, ready, 0).ok()?;
    run_both(rt, alloc, &table, seated::<N>(alloc, passes)?, turns)
}

/// Two threads take `turns` turns each at one key. Returns how many waits each of them counted. The table records
/// no steps.
pub fn hand_over<R: Threads + Wait + Sync>(
    rt: &R,
    alloc: Global,
    turns: u64,
) -> Option<(u64, u64)> {
    let config = Config {
        shards: 1,
        passes: 2,
        max_steps: 1,
        max_requests: 1 << 30,
        max_waits: 1,
    };
    let ready = prepare_with(alloc, config, Keeping::Unrecorded).ok()?;
    hand_named::<Brand, R>(rt, alloc, ready, turns)
}

//! Can a lock always be given up? A transaction locks some keys of a table that records no steps, and requests come to
//! wait for them, as far as memory allows. Then the transaction frees every lock that it has, and every request leaves:
//! no such call is refused.
//!
//! Fault injection runs the test once for each of its allocations, and refuses that one and all that come after it. So
//! the test ends well wherever memory ends.
ghost use Rattle.std.specs.Prelude.{◌≡◌};

use lt_ids::{Access, Key, Timestamp, TxnId};
use lt_rules::{KeyTable, Reply};
use lt_table::{
    Config, EnterRefused, Guard, Keeping, LeaveStopped, Left, Ready, Table, open, prepare_with,
};
use lt_test_kit::holds::Holds;
use lt_test_kit::key::key_of;
use lt_test_kit::run::seated;
use lt_test_kit::seat::Seat;
use lt_words::Name;
use std::alloc::Global;
use std::marker::Brand;
use std::process::Abort;
use std::sync::Wait;
use std::test::Fail;

/// Two shards, and five passes: one for the transaction that holds the locks, and four for requests.
const LIMITS: Config = Config {
    shards: 2,
    passes: 5,
    max_steps: 1,
    max_requests: 1000,
    max_waits: 1000,
};

/// The keys that are locked. Three of them take an allocation for each copy.
const KEYS: [u8; 6] = *b"ABCdef";

const TS: Timestamp = Timestamp {
    wall: 10,
    logical: 0,
};

/// What came of a run: how many locks were held and how many requests waited, and how many of each were given up.
#[derive(Clone, Copy, Debug, PartialEq, Eq)]
struct GivenUp {
    held: usize,
    freed: usize,
    inside: usize,
    left: usize,
}

/// The keys, each to be written. None if an allocation fails.
fn accesses(alloc: Global) -> Option<Vec<(Key, Access)>> {
    let mut all = Vec::with_capacity(alloc, KEYS.len()).ok()?;
    for byte in KEYS {
        all.push((key_of(alloc, byte)?, Access::Write)).ok()?;
    }
    Some(all)
}

/// Whether the transaction has taken the lock of the key, by the free pass in the seat.
fn is_taken<N: Name, T: KeyTable, R: Wait>(
    rt: &R,
    table: &Table<N, T>,
    seat: &mut Seat<N>,
    key: &Key,
    txn: TxnId,
) -> bool {
    match &mut seat.holds {
        Holds::Free(pass) => table.acquire(rt, pass, key, txn, TS).is_ok(),
        Holds::Open(_) => false,
    }
}

/// Whether the transaction has freed its lock of the key, by the free pass in the seat.
pub fn is_freed<N: Name, T: KeyTable, R: Wait>(
    rt: &R,
    table: &Table<N, T>,
    seat: &mut Seat<N>,
    key: &Key,
    txn: TxnId,
) -> bool {
    let Holds::Free(pass) = &mut seat.holds else {
        return false;
    };
    match table.finish(rt, pass, key, txn) {
        Ok(answer) => answer.reply == Reply::Freed,
        Err(_) => false,
    }
}

/// Locks the keys one after the other, until one is refused. Returns how many are locked.
fn lock_some<N: Name, T: KeyTable, R: Wait>(
    rt: &R,
    table: &Table<N, T>,
    seat: &mut Seat<N>,
    keys: &[(Key, Access)],
    txn: TxnId,
) -> usize {
    let mut held: usize = 0;
    for (key, _) in keys {
        if !is_taken(rt, table, seat, key, txn) {
            return held;
        }
        held = held.saturating_add(1);
    }
    held
}

/// Frees the keys. Returns how many of them answered that they are freed.
fn free_all<N: Name, T: KeyTable, R: Wait>(
    rt: &R,
    table: &Table<N, T>,
    seat: &mut Seat<N>,
    keys: &[(Key, Access)],
    txn: TxnId,
) -> usize {
    let mut freed: usize = 0;
    for (key, _) in keys {
        if is_freed(rt, table, seat, key, txn) {
            freed = freed.saturating_add(1);
        }
    }
    freed
}

/// A request enters and visits the keys, as far as memory allows. Its seat is open if it has entered.
fn come<N: Name, T: KeyTable, R: Wait>(
    rt: &R,
    alloc: Global,
    table: &Table<N, T>,
    seat: Seat<N>,
    keys: &[(Key, Access)],
) -> Option<Seat<N>> {
    let pass = seat.into_pass()?;
    match table.enter(alloc, pass, None, TS, keys, 0) {
        Ok(mut guard) => {
            let _seen = table.scan(rt, &mut guard);
            Some(Seat::open(guard))
        }
        Err(EnterRefused { pass, error: _ }) => Some(Seat::free(pass)),
    }
}

/// Whether the request has left. Its pass is given up.
fn has_left<N: Name, T: KeyTable, R: Wait>(rt: &R, table: &Table<N, T>, guard: Guard) -> bool
    requires { guard.pass.of ≡ N.of }
{
    match table.leave(rt, guard) {
        Ok(Left { pass, answers: _ }) => {
            pass.abandon();
            true
        }
        Err(LeaveStopped { guard, error: _ }) => {
            guard.abandon();
            false
        }
    }
}

/// All seats come, one after the other.
fn come_all<N: Name, T: KeyTable, R: Wait>(
    rt: &R,
    alloc: Global,
    table: &Table<N, T>,
    seats: Vec<Seat<N>>,
    keys: &[(Key, Access)],
) -> Option<Vec<Seat<N>>> {
    let mut come_in = Vec::with_capacity(alloc, seats.len()).ok()?;
    for seat in seats {
        come_in.push(come(rt, alloc, table, seat, keys)?).ok()?;
    }
    Some(come_in)
}

/// All requests leave. Returns how many there were, and how many have left.
pub fn leave_all<N: Name, T: KeyTable, R: Wait>(
    rt: &R,
    table: &Table<N, T>,
    seats: Vec<Seat<N>>,
) -> (usize, usize) {
    let mut inside: usize = 0;
    let mut left: usize = 0;
    for seat in seats {
        match seat.into_holds() {
            Holds::Free(pass) => pass.abandon(),
            Holds::Open(guard) => {
                inside = inside.saturating_add(1);
                left = left.saturating_add(usize::from(has_left(rt, table, guard)));
            }
        }
    }
    (inside, left)
}

/// None if memory ended before the table was open and every list was made.
fn run_named<N: Name, R: Wait>(rt: &R, alloc: Global, ready: Ready) -> Option<GivenUp>
    requires { ready.of ≡ N.of }
{
    let txn = TxnId::new(9).unwrap();
    let (table, passes) = open::<N>(alloc, ready, 0).ok()?;
    let mut seats = seated::<N>(alloc, passes)?;
    let keys = accesses(alloc)?;
    let mut holder = seats.pop()?;
    let held = lock_some(rt, &table, &mut holder, &keys, txn);
    let seats = come_all(rt, alloc, &table, seats, &keys);
    let freed = free_all(rt, &table, &mut holder, &keys[..held.min(keys.len())], txn);
    drop(holder);
    let (inside, left) = match seats {
        None => (0, 0),
        Some(seats) => leave_all(rt, &table, seats),
    };
    Some(GivenUp {
        held,
        freed,
        inside,
        left,
    })
}

/// The same for a new table that records no steps.
fn run<R: Wait>(rt: &R, alloc: Global) -> Option<GivenUp> {
    let ready = prepare_with(alloc, LIMITS, Keeping::Unrecorded).ok()?;
    run_named::<Brand, R>(rt, alloc, ready)
}

/// Every lock that is held is freed, and every request that is inside leaves, wherever memory ends.
#[test]
fn a_lock_can_always_be_given_up(rt: HostRuntime) -> Result<(), Fail> {
    if let Some(came) = run(&rt, rt.alloc()) {
        assert_eq!(rt; (came.freed, came.left), (came.held, came.inside));
    }
    Ok(())
}

/// With ample memory all keys are locked, and all requests are inside.
#[test]
fn all_locks_are_held_and_all_requests_wait(rt: HostRuntime) -> Result<(), Fail> {
    let came = run(&rt, rt.alloc()).ok_or("the run")?;
    let all = GivenUp {
        held: 6,
        freed: 6,
        inside: 4,
        left: 4,
    };
    assert_eq!(rt; came, all);
    Ok(())
}

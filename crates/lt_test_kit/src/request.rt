//! How does a test hold a lock, and how does its request come and go? Each of these takes the pass out of a seat, or
//! gives it up.
ghost use Rattle.std.specs.Prelude.{◌≡◌, IfSome};

use crate::seat::Seat;
use lt_ids::{Access, Key, Timestamp, TxnId};
use lt_rules::KeyTable;
use lt_table_core::{EnterRefused, Guard, LeaveStopped, Left, Table};
use lt_words::{Name, Pass, Waker};
use std::alloc::Global;
use std::sync::Wait;
use std::thread::sleep;
use std::time::{Clock, Duration};

/// When each lock is taken, and what each request reads.
pub const TIME: Timestamp = Timestamp {
    wall: 1,
    logical: 0,
};

/// The transaction takes the lock of the key.
pub fn hold<N: Name, T: KeyTable, W: Waker, R: Wait>(
    rt: &R,
    table: &Table<N, T, W>,
    seat: Seat<N>,
    key: &Key,
    txn: TxnId,
) -> Option<Seat<N>> {
    let mut pass = seat.into_pass()?;
    let is_held = table.acquire(rt, &mut pass, key, txn, TIME).is_ok();
    let seat = Seat::free(pass);
    if is_held { Some(seat) } else { None }
}

/// A request enters that names one key.
pub fn enter<N: Name, T: KeyTable, W: Waker>(
    alloc: Global,
    table: &Table<N, T, W>,
    seat: Seat<N>,
    asked: (&Key, Access),
    txn: TxnId,
) -> Option<Guard>
    ensures { IfSome result (λ guard. guard.pass.of ≡ N.of) }
{
    let (key, access) = asked;
    let mut accesses = Vec::new(alloc);
    accesses.push((key.copy().ok()?, access)).ok()?;
    let pass = seat.into_pass()?;
    match table.enter(alloc, pass, Some(txn), TIME, &accesses, 0) {
        Ok(guard) => Some(guard),
        Err(EnterRefused { pass, error: _ }) => {
            pass.abandon();
            None
        }
    }
}

/// The request leaves.
pub fn leave<N: Name, T: KeyTable, W: Waker, R: Wait>(
    rt: &R,
    table: &Table<N, T, W>,
    guard: Guard,
) -> Option<Pass>
    requires { guard.pass.of ≡ N.of }
    ensures { IfSome result (λ pass. pass.of ≡ N.of) }
{
    match table.leave(rt, guard) {
        Ok(Left { pass, answers: _ }) => Some(pass),
        Err(LeaveStopped { guard, error: _ }) => {
            guard.abandon();
            None
        }
    }
}

/// Waits until `many` requests are queued for this access to the key. False if a check fails, or after 10,000 checks.
pub fn await_queued<N: Name, T: KeyTable, W: Waker, R: Wait + Clock>(
    rt: &R,
    table: &Table<N, T, W>,
    pass: &mut Pass,
    asked: (&Key, Access),
    many: usize,
) -> bool
    requires { pass.old.of ≡ N.of }
    ensures { pass.new.of ≡ N.of }
{
    let (key, access) = asked;
    for _ in 0..10_000 {
        let Ok(state) = table.inspect(rt, pass, key) else {
            return false;
        };
        let queued = match access {
            Access::Read => state.readers.len(),
            Access::Write => state.writers.len(),
        };
        if queued == many {
            return true;
        }
        sleep(rt, Duration::from_millis(1));
    }
    false
}

//! How does a load hold locks that its rounds never touch? A transaction that makes no rounds holds them.
//! [`holder_of`] acquires them before the clock starts, by a pass of their own and without a request. Nobody frees
//! them: the table is closed while they are held.
//!
//! The locks are on the keys of the letter `h` and the numbers from 0, and the rounds draw from those of the letter
//! `k`. So no round waits for one of them. It meets a table that has rows for more keys.
ghost use Rattle.std.specs.Prelude.{◌≡◌};

use crate::key_names::key_of;
use crate::load::Load;
use anyhow::bail;
use lockbench_parts::answers::is_taken;
use lt_ids::{Key, Timestamp, TxnId};
use lt_rules::KeyTable;
use lt_table::Table;
use lt_test_kit::holds::Holds;
use lt_test_kit::seat::Seat;
use lt_words::{Name, Pass};
use std::alloc::Global;
use std::sync::Wait;

/// Takes the lock of the key for the transaction that makes no rounds. None if the lock is not taken.
fn take_lock<N: Name, T: KeyTable, R: Wait>(
    rt: &R,
    table: &Table<N, T>,
    pass: &mut Pass,
    key: &Key,
) -> Option<()>
    requires { pass.old.of ≡ N.of }
    ensures { pass.new.of ≡ N.of }
{
    let txn = TxnId::new(u64::MAX)?;
    let ts = Timestamp {
        wall: 0,
        logical: 0,
    };
    is_taken(table.acquire(rt, pass, key, txn, ts))
}

/// Takes the locks that the load holds. None if one of them is not taken, or an allocation fails.
fn take_locks<N: Name, T: KeyTable, R: Wait>(
    rt: &R,
    alloc: Global,
    table: &Table<N, T>,
    pass: &mut Pass,
    load: &Load,
) -> Option<()>
    requires { pass.old.of ≡ N.of }
    ensures { pass.new.of ≡ N.of }
{
    for index in 0..load.held_locks() {
        let key = key_of(alloc, 'h', index, load)?;
        take_lock(rt, table, pass, &key)?;
    }
    Some(())
}

/// Takes the locks that the load holds, by the free pass in the seat. None if the pass is not free, a lock is not
/// taken, or an allocation fails.
fn take_locks_in<N: Name, T: KeyTable, R: Wait>(
    rt: &R,
    alloc: Global,
    table: &Table<N, T>,
    seat: &mut Seat<N>,
    load: &Load,
) -> Option<()> {
    match &mut seat.holds {
        Holds::Free(pass) => take_locks(rt, alloc, table, pass, load),
        Holds::Open(_) => None,
    }
}

/// The seat of the pass that holds the locks, after it has taken them; None if the load holds none. An error if no
/// seat is left, or a lock is not taken.
pub fn holder_of<N: Name, T: KeyTable, R: Wait>(
    rt: &R,
    alloc: Global,
    table: &Table<N, T>,
    seats: &mut Vec<Seat<N>>,
    load: &Load,
) -> anyhow::Result<Option<Seat<N>>> {
    if load.held_locks() == 0 {
        return Ok(None);
    }
    let Some(mut seat) = seats.pop() else {
        bail!("there is no pass to hold locks with");
    };
    if take_locks_in(rt, alloc, table, &mut seat, load).is_none() {
        bail!("a lock that the load holds was not taken");
    }
    Ok(Some(seat))
}

//! How can a program lend passes to threads, although a pass may not be dropped?
//! A [`LentSeat`] holds a pass and may be dropped; its pass is then given up. Two threads work with the seats that
//! they are lent, and then the table is closed with both passes. The head of `lt_table` quotes this file. Read next
//! `queue_player`, which moves its seats into the threads.
ghost use Rattle.std.specs.Prelude.{◌≡◌, IfSome};
ghost use Rattle.std.specs.Option.{ForSome};
ghost use Rattle.std.specs.List.{All};

use crate::waiting::queue_player::reach;
use lt_ids::{Access, Key, TxnId};
use lt_rules::{KeyTable, Reply};
use lt_table::{
    Answer, Config, EnterRefused, Guard, Histories, Ready, StepError, Table, open, prepare,
};
use lt_test_kit::request::{TIME, leave};
use lt_test_kit::run::gather;
use lt_test_kit::seat::Seat;
use lt_words::{Name, Pass, abandon_all};
use std::alloc::Global;
use std::marker::{Brand, PhantomData};
use std::mem;
use std::sync::Wait;
use std::thread::{Threads, join};

/// The sizes of the table.
const LIMITS: Config = Config {
    shards: 1,
    passes: 2,
    max_steps: 100,
    max_requests: 10,
    max_waits: 10,
};

/// Holds a pass of the table that `N` names, or none. A seat may be dropped.
pub struct LentSeat<N: Name> {
    pass: Option<Pass>,
    name: PhantomData<N>,
    pub ghost of: { ForSome pass (λ p. p.of ≡ N.of) },
}

impl<N: Name> Drop for LentSeat<N> {
    fn drop(self) {
        let LentSeat { pass, name: _ } = self;
        give_up(pass);
    }
}

fn give_up(pass: Option<Pass>) {
    if let Some(pass) = pass {
        pass.abandon();
    }
}

impl<N: Name> LentSeat<N> {
    pub fn new(pass: Pass) -> LentSeat<N>
        requires { pass.of ≡ N.of }
    {
        LentSeat {
            pass: Some(pass),
            name: PhantomData,
        }
    }

    /// Takes the pass out, if the seat holds one.
    pub fn take(&mut self) -> Option<Pass>
        ensures { IfSome result (λ pass. pass.of ≡ N.of) }
    {
        self.pass.take()
    }

    /// Puts the pass back. A pass that the seat still holds is given up.
    pub fn put(&mut self, pass: Pass)
        requires { pass.of ≡ N.of }
    {
        give_up(mem::replace(&mut self.pass, Some(pass)));
    }
}

/// A request enters to write the key. If it is refused, the pass goes back into the seat.
fn enter<N: Name, T: KeyTable>(
    alloc: Global,
    table: &Table<N, T>,
    seat: &mut LentSeat<N>,
    key: &Key,
    txn: TxnId,
) -> Option<Guard>
    ensures { IfSome result (λ guard. guard.pass.of ≡ N.of) }
{
    let accesses = [(key.copy().ok()?, Access::Write)];
    let pass = seat.take()?;
    match table.enter(alloc, pass, Some(txn), TIME, &accesses, 0) {
        Ok(guard) => Some(guard),
        Err(EnterRefused { pass, error: _ }) => {
            seat.put(pass);
            None
        }
    }
}

/// Whether the transaction got the lock. It may not: if two requests meet no lock, both proceed, and the other
/// transaction may take the lock first.
fn is_ours(answered: Result<Answer, StepError>) -> bool {
    match answered {
        Ok(answer) => matches!(&answer.reply, Reply::Taken | Reply::Raised | Reply::Kept),
        Err(_) => false,
    }
}

fn work<N: Name, T: KeyTable, R: Wait>(
    rt: &R,
    alloc: Global,
    table: &Table<N, T>,
    seat: &mut LentSeat<N>,
    key: &Key,
    txn: TxnId,
) -> Option<bool> {
    let mut guard = enter(alloc, table, seat, key, txn)?;
    let is_locked = reach(rt, table, &mut guard)
        && is_ours(table.acquire_in(rt, &mut guard, key, txn, TIME));
    let mut pass = leave(rt, table, guard)?;
    let is_freed = is_locked && table.finish(rt, &mut pass, key, txn).is_ok();
    seat.put(pass);
    Some(is_freed)
}

/// Lends its seat to each of two threads, which work at one key each. Whether both took their locks and freed them.
fn lend<N: Name + Send + Sync, T: KeyTable + Send, R: Threads + Wait + Sync>(
    rt: &R,
    alloc: Global,
    table: &Table<N, T>,
    one: &mut LentSeat<N>,
    other: &mut LentSeat<N>,
) -> Option<bool> {
    let (key, other_key) = (
        Key::from_bytes(alloc, b"a").ok()?,
        Key::from_bytes(alloc, b"b").ok()?,
    );
    let (txn, other_txn) = (TxnId::new(1)?, TxnId::new(2)?);
    let (at, other_at) = (&key, &other_key);
    let (done, also_done) = join(
        rt,
        move || work(rt, alloc, table, one, at, txn),
        move || work(rt, alloc, table, other, other_at, other_txn),
    );
    Some(done? && also_done?)
}

/// Moves the passes of both seats into the seats that `gather` takes.
fn back<N: Name>(
    alloc: Global,
    mut one: LentSeat<N>,
    mut other: LentSeat<N>,
) -> Option<Vec<Seat<N>>> {
    let mut seats = Vec::new(alloc);
    seats.push(Seat::free(one.take()?)).ok()?;
    seats.push(Seat::free(other.take()?)).ok()?;
    Some(seats)
}

/// A seat for the last of the passes.
fn seat_of<N: Name>(passes: &mut Vec<Pass>) -> Option<LentSeat<N>>
    requires { All (λ p. p.of ≡ N.of) passes.old.items }
    ensures { All (λ p. p.of ≡ N.of) passes.new.items }
{
    Some(LentSeat::new(passes.pop()?))
}

/// A seat for each of two passes.
fn seats_of<N: Name>(mut passes: Vec<Pass>) -> Option<(LentSeat<N>, LentSeat<N>)>
    requires { All (λ p. p.of ≡ N.of) passes.items }
{
    let one = seat_of(&mut passes);
    let other = seat_of(&mut passes);
    abandon_all(passes);
    Some((one?, other?))
}

/// Has two threads work with the passes. Returns the passes, and no guard, if all went well.
fn work_on_two<N: Name + Send + Sync, T: KeyTable + Send, R: Threads + Wait + Sync>(
    rt: &R,
    alloc: Global,
    table: &Table<N, T>,
    passes: Vec<Pass>,
) -> Option<(Vec<Pass>, Vec<Guard>)>
    requires { All (λ p. p.of ≡ N.of) passes.items }
    ensures passes { IfSome result (λ r. All (λ p. p.of ≡ N.of) r.0.items) }
    ensures guards { IfSome result (λ r. All (λ g. g.pass.of ≡ N.of) r.1.items) }
{
    let (mut one, mut other) = seats_of::<N>(passes)?;
    if lend(rt, alloc, table, &mut one, &mut other)? {
        gather(alloc, back(alloc, one, other)?).ok()
    } else {
        None
    }
}

/// Opens the table that `N` names, has two threads work, and closes it.
fn serve<N: Name + Send + Sync, R: Threads + Wait + Sync>(
    rt: &R,
    alloc: Global,
    ready: Ready,
) -> Option<Histories>
    requires { ready.of ≡ N.of }
{
    let (table, passes) = open::<N>(alloc, ready, 0).ok()?;
    let (passes, guards) = work_on_two(rt, alloc, &table, passes)?;
    table
        .close(rt, alloc, passes, guards)
        .map_err(|refused| refused.abandon())
        .ok()
}

/// Makes a table ready, and has it served. Returns the steps.
pub fn lend_to_two<R: Threads + Wait + Sync>(rt: &R, alloc: Global) -> Option<Histories> {
    let ready = prepare(alloc, LIMITS).ok()?;
    serve::<Brand, R>(rt, alloc, ready)
}

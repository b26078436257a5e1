//! Does an interrupt end a wait that is no let, and does the let still come?
ghost use Rattle.std.specs.Prelude.{◌≡◌, IfSome};

use lt_ids::{Access, Key, TxnId};
use lt_rules::KeyTable;
use lt_table::{Config, Guard, Poll, Ready, Scan, Table, open, prepare};
use lt_test_kit::request::{enter, hold, leave};
use lt_test_kit::run::seated;
use lt_test_kit::seat::Seat;
use lt_words::{Name, Pass};
use std::alloc::Global;
use std::marker::Brand;
use std::sync::Wait;
use std::thread::{Threads, join, sleep};
use std::time::{Clock, Duration, Instant};

/// What a request's waits answered: one whose pass had been interrupted before, one with a deadline after it, one that
/// another thread interrupted, and one after the lock was freed.
#[derive(Drop, Debug, PartialEq, Eq)]
pub struct Answers {
    pub interrupted_before: Poll,
    pub to_the_deadline: Poll,
    pub interrupted_meanwhile: Poll,
    pub after_the_lock: Poll,
}

/// Waits for 20 milliseconds at most.
fn wait_shortly<N: Name, T: KeyTable, R: Wait + Clock>(
    rt: &R,
    table: &Table<N, T>,
    guard: &mut Guard,
) -> Option<Poll>
    requires { guard.old.pass.of ≡ N.of }
    ensures { guard.new.pass.of ≡ N.of }
{
    let deadline = Instant::now(rt)
        .ok()?
        .checked_add(Duration::from_millis(20))?;
    Some(table.wait_until(rt, guard, deadline))
}

/// Interrupts the pass with this number after 50 milliseconds.
fn interrupt_later<N: Name, T: KeyTable, R: Wait + Clock>(rt: &R, table: &Table<N, T>, pass: u32) {
    sleep(rt, Duration::from_millis(50));
    table.interrupt(pass);
}

/// The wait of a request on a thread of its own. A seat tells in its type of which book its guard is.
fn wait_in<N: Name, T: KeyTable, R: Wait>(
    rt: &R,
    table: &Table<N, T>,
    seat: Seat<N>,
) -> Option<(Poll, Seat<N>)> {
    let mut guard = seat.into_guard()?;
    let found = table.wait_interruptibly(rt, &mut guard);
    Some((found, Seat::open(guard)))
}

/// A wait that another thread interrupts.
fn interrupted<N: Name + Send + Sync, T: KeyTable + Send, R: Threads + Wait + Clock + Sync>(
    rt: &R,
    table: &Table<N, T>,
    guard: Guard,
) -> Option<(Poll, Guard)>
    requires { guard.pass.of ≡ N.of }
    ensures { IfSome result (λ r. r.1.pass.of ≡ N.of) }
{
    let waiter = guard.pass_number();
    let seat = Seat::open(guard);
    let (waited, _) = join(
        rt,
        move || wait_in(rt, table, seat),
        move || interrupt_later(rt, table, waiter),
    );
    let (found, seat) = waited?;
    Some((found, seat.into_guard()?))
}

/// The request waits for the key. Its next wait is interrupted before, and the one after that has a deadline.
fn first_waits<N: Name, T: KeyTable, R: Wait + Clock>(
    rt: &R,
    table: &Table<N, T>,
    guard: &mut Guard,
) -> Option<(Poll, Poll)>
    requires { guard.old.pass.of ≡ N.of }
    ensures { guard.new.pass.of ≡ N.of }
{
    let Ok(Scan::Waiting(_)) = table.scan(rt, guard) else {
        return None;
    };
    table.interrupt(guard.pass_number());
    let interrupted_before = table.wait_interruptibly(rt, guard);
    let to_the_deadline = wait_shortly(rt, table, guard)?;
    Some((interrupted_before, to_the_deadline))
}

fn waits_of<N: Name + Send + Sync, T: KeyTable + Send, R: Threads + Wait + Clock + Sync>(
    rt: &R,
    table: &Table<N, T>,
    mut guard: Guard,
    holder: &mut Pass,
    key: &Key,
    txn: TxnId,
) -> Option<(Answers, Guard)>
    requires guard { guard.pass.of ≡ N.of }
    requires holder { holder.old.of ≡ N.of }
    ensures guard { IfSome result (λ r. r.1.pass.of ≡ N.of) }
{
    let Some((interrupted_before, to_the_deadline)) = first_waits(rt, table, &mut guard) else {
        guard.abandon();
        return None;
    };
    let (interrupted_meanwhile, mut guard) = interrupted(rt, table, guard)?;
    if table.finish(rt, holder, key, txn).is_err() {
        guard.abandon();
        return None;
    }
    let answers = Answers {
        interrupted_before,
        to_the_deadline,
        interrupted_meanwhile,
        after_the_lock: table.wait(rt, &mut guard),
    };
    Some((answers, guard))
}

fn answers_on<N: Name + Send + Sync, T: KeyTable + Send, R: Threads + Wait + Clock + Sync>(
    rt: &R,
    alloc: Global,
    table: &Table<N, T>,
    mut seats: Vec<Seat<N>>,
) -> Option<Answers> {
    let key = Key::from_bytes(alloc, b"key").ok()?;
    let txn = TxnId::new(1)?;
    let holder = hold(rt, table, seats.pop()?, &key, txn)?;
    let guard = enter(
        alloc,
        table,
        seats.pop()?,
        (&key, Access::Write),
        TxnId::new(2)?,
    )?;
    let Some(mut pass) = holder.into_pass() else {
        guard.abandon();
        return None;
    };
    let waited = waits_of(rt, table, guard, &mut pass, &key, txn);
    pass.abandon();
    let (answers, guard) = waited?;
    leave(rt, table, guard)?.abandon();
    Some(answers)
}

fn answers_named<N: Name + Send + Sync, R: Threads + Wait + Clock + Sync>(
    rt: &R,
    alloc: Global,
    ready: Ready,
) -> Option<Answers>
    requires { ready.of ≡ N.of }
{
    let (table, passes) = open::<N>(alloc, ready, 0).ok()?;
    answers_on(rt, alloc, &table, seated::<N>(alloc, passes)?)
}

/// A request waits at a key that is held, is interrupted twice, and is let through in the end.
pub fn wait_and_interrupt<R: Threads + Wait + Clock + Sync>(
    rt: &R,
    alloc: Global,
) -> Option<Answers> {
    let config = Config {
        shards: 1,
        passes: 2,
        max_steps: 100,
        max_requests: 10,
        max_waits: 10,
    };
    let ready = prepare(alloc, config).ok()?;
    answers_named::<Brand, R>(rt, alloc, ready)
}

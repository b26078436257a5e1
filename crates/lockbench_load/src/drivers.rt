//! What does each pass of a load do? It makes rounds on a table: enter, scan, acquire, finish and leave. [`drive`]
//! makes the rounds of one pass on its thread; [`drive_in_turn`] makes those of all passes on one thread.
//!
//! **A round.** The pass enters a request of two different keys, one to write and one to read, and scans. If there
//! is only one key, the request names it twice. The keys are `k0`, `k1` and so on ([`crate::key_names`]); a xorshift
//! generator, seeded by the pass's number, draws them evenly. The round's timestamp is its number within the pass,
//! and its transaction is the pass's number. If the scan waits, the pass polls a bounded number of times, or sleeps
//! until it is let through. When it is let through, it scans again; if it gives up, it leaves. Once the request
//! proceeds, the pass acquires the key that it writes, finishes there, and leaves. It stops at the end of the round
//! in which its total of key steps reaches the given number.
//!
//! **Threads and turns.** With threads, each pass has its own thread. Without them, the passes take turns on one
//! thread, in an order that another generator draws. A turn is one stage of a round: enter and scan (and, if the
//! scan waits, leave at once), acquire, finish, or leave.
//!
//! **Full shards.** A pass that finds a shard full yields its time slice and tries again, because the taker of a
//! streamed table empties the shard.
//!
//! **Why a sleeping pass is always let through.** A request holds a lock only after it proceeds, and from then on
//! it waits for nothing. So each lock of a round comes free, which lets the waiting readers through. (The locks of
//! [`crate::holding`] never come free, but no request names their keys.) A waiting writer can also be queued behind
//! the reservation of a smaller number. The request with that reservation writes no other key, so it can only wait
//! to read. A read passes every reservation, so that request proceeds, and its turn ends. Numbers rise, so only
//! finitely many requests go first.
ghost use Rattle.std.specs.Prelude.{◌≡◌, ◌<◌, IfSome};

use crate::load::Load;
use lt_ids::{Access, Key, Timestamp, TxnId};
use lt_rules::KeyTable;
use lt_table::{
    Answer, EnterRefused, Guard, LeaveStopped, Left, Poll, Scan, ScanError, StepError, Table,
};
use lt_test_kit::holds::Holds;
use lt_test_kit::seat::Seat;
use lt_words::{Name, Pass};
use std::alloc::Global;
use std::sync::Wait;
use std::{hint, thread};

/// How many times a thread polls before it gives up waiting.
const POLLS: u32 = 1_000;

/// After this many polls, the thread yields its time slice after each further poll.
const SPINS: u32 = 100;

/// The counts of one or more passes: key steps; scans that proceed; waits; waits that ended with a let; waits that
/// were given up.
#[derive(Clone, Copy, Debug)]
pub struct Tally {
    pub steps: u64,
    pub proceeds: u64,
    pub waits: u64,
    pub lets: u64,
    pub gave_up: u64,
}

impl Tally {
    fn none() -> Tally {
        Tally {
            steps: 0,
            proceeds: 0,
            waits: 0,
            lets: 0,
            gave_up: 0,
        }
    }

    fn and(&self, other: &Tally) -> Tally {
        Tally {
            steps: self.steps.saturating_add(other.steps),
            proceeds: self.proceeds.saturating_add(other.proceeds),
            waits: self.waits.saturating_add(other.waits),
            lets: self.lets.saturating_add(other.lets),
            gave_up: self.gave_up.saturating_add(other.gave_up),
        }
    }
}

/// Marsaglia's xorshift generator, with 64 bits.
#[derive(Clone, Copy, Debug)]
struct XorShift {
    state: u64,
}

impl XorShift {
    fn new(seed: u64) -> XorShift {
        XorShift {
            state: seed.wrapping_mul(0x9e37_79b9_7f4a_7c15) | 1,
        }
    }

    /// A number below `limit`.
    fn below(&mut self, limit: usize) -> usize
        requires { 0 < limit }
        ensures { result < limit }
    {
        let mut x = self.state;
        x ^= x << 13;
        x ^= x >> 7;
        x ^= x << 17;
        self.state = x;
        ((x >> 16) % limit as u64) as usize
    }
}

/// The stage of a round that a pass executes next.
#[derive(Clone, Copy, Debug, PartialEq, Eq)]
enum Stage {
    Enter,
    Acquire,
    Finish,
    Leave,
}

/// How a pass waits for its request to be let through.
#[derive(Clone, Copy, Debug, PartialEq, Eq)]
enum Waiting {
    /// It sleeps until it is let through.
    Sleep,
    /// It polls at most this many times, and then gives up.
    Poll(u32),
}

/// The part of a pass's work that is the same in all turns.
#[derive(Clone, Copy, Debug)]
struct TurnPlan {
    txn: TxnId,
    steps: u64,
    waiting: Waiting,
}

/// The progress of a pass in its rounds. `write` is the index of the key that the current round writes.
#[derive(Clone, Copy, Debug)]
struct Course {
    random: XorShift,
    round: u64,
    write: usize,
    stage: Stage,
    tally: Tally,
}

/// A pass at work. It has a seat except in the middle of a turn and after a call that failed.
#[derive(Drop)]
pub struct Driver<N: Name> {
    seat: Option<Seat<N>>,
    plan: TurnPlan,
    course: Course,
}

fn at(wall: u64) -> Timestamp {
    Timestamp { wall, logical: 0 }
}

/// The indices of the key to write and of the key to read. They differ if there are at least two keys.
fn two_of(random: &mut XorShift, len: usize) -> (usize, usize)
    requires { 0 < len }
    ensures write { result.0 < len }
    ensures read { result.1 < len }
{
    let write = random.below(len);
    if len == 1 {
        return (write, random.below(1));
    }
    let read = random.below(len - 1);
    if read >= write {
        (write, read + 1)
    } else {
        (write, read)
    }
}

/// Starts the next round and returns its accesses. None if there is no key or an allocation fails.
fn next_accesses(keys: &[Key], course: &mut Course) -> Option<[(Key, Access); 2]> {
    if keys.is_empty() {
        return None;
    }
    course.round = course.round.saturating_add(1);
    let (write, read) = two_of(&mut course.random, keys.len());
    course.write = write;
    Some([
        (keys[write].copy().ok()?, Access::Write),
        (keys[read].copy().ok()?, Access::Read),
    ])
}

/// Polls until the request is let through, at most `polls` times. True if it was let through.
fn is_let_in<N: Name, T: KeyTable>(table: &Table<N, T>, guard: &mut Guard, polls: u32) -> bool
    requires { guard.old.pass.of ≡ N.of }
    ensures { guard.new.pass.of ≡ N.of }
{
    for turn in 0..polls {
        if table.poll(guard) == Poll::Through {
            return true;
        }
        if turn < SPINS {
            hint::spin_loop();
        } else {
            thread::yield_now();
        }
    }
    false
}

/// Waits in the given way for the request to be let through. True if it was.
fn wait<N: Name, T: KeyTable, R: Wait>(
    rt: &R,
    table: &Table<N, T>,
    guard: &mut Guard,
    waiting: Waiting,
) -> bool
    requires { guard.old.pass.of ≡ N.of }
    ensures { guard.new.pass.of ≡ N.of }
{
    match waiting {
        Waiting::Sleep => table.wait(rt, guard) == Poll::Through,
        Waiting::Poll(polls) => is_let_in(table, guard, polls),
    }
}

/// Waits in the given way for the request to be let through, and counts the wait. True if it was let through.
fn wait_on<N: Name, T: KeyTable, R: Wait>(
    rt: &R,
    table: &Table<N, T>,
    waiting: Waiting,
    tally: &mut Tally,
    guard: &mut Guard,
) -> bool
    requires { guard.old.pass.of ≡ N.of }
    ensures { guard.new.pass.of ≡ N.of }
{
    tally.waits = tally.waits.saturating_add(1);
    let is_let = wait(rt, table, guard, waiting);
    if is_let {
        tally.lets = tally.lets.saturating_add(1);
    } else {
        tally.gave_up = tally.gave_up.saturating_add(1);
    }
    is_let
}

/// Scans until the request proceeds or gives up. None if a scan fails for another reason than a full shard.
fn scan_on<N: Name, T: KeyTable, R: Wait>(
    rt: &R,
    table: &Table<N, T>,
    plan: &TurnPlan,
    tally: &mut Tally,
    guard: &mut Guard,
) -> Option<bool>
    requires { guard.old.pass.of ≡ N.of }
    ensures { guard.new.pass.of ≡ N.of }
{
    for _ in 0..u64::MAX {
        let scanned = table.scan(rt, guard);
        tally.steps = tally.steps.saturating_add(guard.answers().len() as u64);
        match scanned {
            Ok(Scan::Proceed) => {
                tally.proceeds = tally.proceeds.saturating_add(1);
                return Some(true);
            }
            Ok(Scan::Rescan) => {}
            Ok(Scan::Waiting(_)) => {
                if !wait_on(rt, table, plan.waiting, tally, guard) {
                    return Some(false);
                }
            }
            Err(ScanError::HistoryFull) => thread::yield_now(),
            _ => return None,
        }
    }
    None
}

/// Makes a request enter by the free pass in the seat. None if that fails.
fn enter<N: Name, T: KeyTable>(
    alloc: Global,
    table: &Table<N, T>,
    keys: &[Key],
    driver: &mut Driver<N>,
) -> Option<()> {
    let Driver { seat, plan, course } = driver;
    let accesses = next_accesses(keys, course)?;
    let pass = seat.take()?.into_pass()?;
    let txn = Some(plan.txn);
    match table.enter(alloc, pass, txn, at(course.round), &accesses, 0) {
        Ok(guard) => {
            *seat = Some(Seat::open(guard));
            Some(())
        }
        Err(EnterRefused { pass, error: _ }) => {
            pass.abandon();
            None
        }
    }
}

/// Scans for the request in the seat. True if it proceeds, false if it gives up. None if the seat has no request,
/// or a scan fails.
fn scan<N: Name, T: KeyTable, R: Wait>(
    rt: &R,
    table: &Table<N, T>,
    plan: &TurnPlan,
    course: &mut Course,
    seat: &mut Seat<N>,
) -> Option<bool> {
    match &mut seat.holds {
        Holds::Open(guard) => scan_on(rt, table, plan, &mut course.tally, guard),
        Holds::Free(_) => None,
    }
}

/// Leaves, which ends the round. If a shard is full, the next turn tries again. None if the leave fails for
/// another reason.
fn leave<N: Name, T: KeyTable, R: Wait>(
    rt: &R,
    table: &Table<N, T>,
    course: &mut Course,
    seat: &mut Option<Seat<N>>,
) -> Option<()> {
    let guard = seat.take()?.into_guard()?;
    let steps = guard.keys().len() as u64;
    match table.leave(rt, guard) {
        Ok(Left { pass, answers: _ }) => {
            course.tally.steps = course.tally.steps.saturating_add(steps);
            course.stage = Stage::Enter;
            *seat = Some(Seat::free(pass));
            Some(())
        }
        Err(LeaveStopped { guard, error }) => {
            *seat = Some(Seat::open(guard));
            is_made(Err(error))?;
            Some(())
        }
    }
}

/// Whether a step was made. If a full shard refused it, yields the time slice and returns false. None if the call
/// ran out of memory.
fn is_made(answered: Result<Answer, StepError>) -> Option<bool> {
    match answered {
        Ok(_) => Some(true),
        Err(StepError::HistoryFull) => {
            thread::yield_now();
            Some(false)
        }
        Err(StepError::Memory) => None,
    }
}

/// Acquires the key for the request's transaction. False if the shard is full. None if the call runs out of memory.
fn acquire<N: Name, T: KeyTable, R: Wait>(
    rt: &R,
    table: &Table<N, T>,
    guard: &mut Guard,
    key: &Key,
    txn: TxnId,
    ts: Timestamp,
) -> Option<bool>
    requires { guard.old.pass.of ≡ N.of }
    ensures { guard.new.pass.of ≡ N.of }
{
    is_made(table.acquire_in(rt, guard, key, txn, ts))
}

/// Finishes the request's transaction at the key. False if the shard is full. None if the call runs out of memory.
fn finish<N: Name, T: KeyTable, R: Wait>(
    rt: &R,
    table: &Table<N, T>,
    guard: &mut Guard,
    key: &Key,
    txn: TxnId,
) -> Option<bool>
    requires { guard.old.pass.of ≡ N.of }
    ensures { guard.new.pass.of ≡ N.of }
{
    is_made(table.finish_in(rt, guard, key, txn))
}

/// Makes the step of this stage at the key that the request writes: acquires it, or finishes there. If the shard
/// is full, the next turn tries again. None if the seat has no request, or the call runs out of memory.
fn make_step<N: Name, T: KeyTable, R: Wait>(
    rt: &R,
    table: &Table<N, T>,
    key: &Key,
    plan: &TurnPlan,
    course: &mut Course,
    seat: &mut Seat<N>,
) -> Option<()> {
    let Holds::Open(guard) = &mut seat.holds else {
        return None;
    };
    let (is_made, next) = if course.stage == Stage::Acquire {
        let ts = at(course.round);
        let is_made = acquire(rt, table, guard, key, plan.txn, ts)?;
        (is_made, Stage::Finish)
    } else {
        let is_made = finish(rt, table, guard, key, plan.txn)?;
        (is_made, Stage::Leave)
    };
    if is_made {
        course.stage = next;
        course.tally.steps = course.tally.steps.saturating_add(1);
    }
    Some(())
}

/// Makes one stage of a round: enters and scans, and leaves at once if the request gives up waiting; or acquires,
/// finishes or leaves. None if a call fails.
fn turn<N: Name, T: KeyTable, R: Wait>(
    rt: &R,
    alloc: Global,
    table: &Table<N, T>,
    keys: &[Key],
    driver: &mut Driver<N>,
) -> Option<()> {
    match driver.course.stage {
        Stage::Enter => {
            enter(alloc, table, keys, driver)?;
            let Driver { seat, plan, course } = driver;
            if scan(rt, table, plan, course, seat.as_mut()?)? {
                course.stage = Stage::Acquire;
                return Some(());
            }
            course.stage = Stage::Leave;
        }
        Stage::Acquire | Stage::Finish => {
            let Driver { seat, plan, course } = driver;
            let key = keys.get(course.write)?;
            return make_step(rt, table, key, plan, course, seat.as_mut()?);
        }
        Stage::Leave => {}
    }
    leave(rt, table, &mut driver.course, &mut driver.seat)
}

/// Whether the pass has made its steps and is between two rounds.
fn is_done<N: Name>(driver: &Driver<N>) -> bool {
    driver.course.stage == Stage::Enter && driver.course.tally.steps >= driver.plan.steps
}

/// Acquires the key, and tries again while the shard is full. None if a call runs out of memory.
fn acquire_at_last<N: Name, T: KeyTable, R: Wait>(
    rt: &R,
    table: &Table<N, T>,
    guard: &mut Guard,
    key: &Key,
    txn: TxnId,
    ts: Timestamp,
) -> Option<()>
    requires { guard.old.pass.of ≡ N.of }
    ensures { guard.new.pass.of ≡ N.of }
{
    for _ in 0..u64::MAX {
        if acquire(rt, table, guard, key, txn, ts)? {
            return Some(());
        }
    }
    None
}

/// Finishes at the key, and tries again while the shard is full. None if a call runs out of memory.
fn finish_at_last<N: Name, T: KeyTable, R: Wait>(
    rt: &R,
    table: &Table<N, T>,
    guard: &mut Guard,
    key: &Key,
    txn: TxnId,
) -> Option<()>
    requires { guard.old.pass.of ≡ N.of }
    ensures { guard.new.pass.of ≡ N.of }
{
    for _ in 0..u64::MAX {
        if finish(rt, table, guard, key, txn)? {
            return Some(());
        }
    }
    None
}

/// Acquires the key that the request writes, finishes there, and counts both steps. None if a call runs out of
/// memory.
fn write_once<N: Name, T: KeyTable, R: Wait>(
    rt: &R,
    table: &Table<N, T>,
    key: &Key,
    plan: &TurnPlan,
    course: &mut Course,
    guard: &mut Guard,
) -> Option<()>
    requires { guard.old.pass.of ≡ N.of }
    ensures { guard.new.pass.of ≡ N.of }
{
    acquire_at_last(rt, table, guard, key, plan.txn, at(course.round))?;
    finish_at_last(rt, table, guard, key, plan.txn)?;
    course.tally.steps = course.tally.steps.saturating_add(2);
    Some(())
}

/// Scans for the request and, if it proceeds, acquires and finishes. None if a call fails.
fn work<N: Name, T: KeyTable, R: Wait>(
    rt: &R,
    table: &Table<N, T>,
    keys: &[Key],
    plan: &TurnPlan,
    course: &mut Course,
    guard: &mut Guard,
) -> Option<()>
    requires { guard.old.pass.of ≡ N.of }
    ensures { guard.new.pass.of ≡ N.of }
{
    if scan_on(rt, table, plan, &mut course.tally, guard)? {
        write_once(rt, table, keys.get(course.write)?, plan, course, guard)?;
    }
    Some(())
}

/// Leaves, and tries again while a shard is full. None if the leave fails for another reason; the pass is then
/// given up.
fn leave_at_last<N: Name, T: KeyTable, R: Wait>(
    rt: &R,
    table: &Table<N, T>,
    tally: &mut Tally,
    guard: Guard,
) -> Option<Pass>
    requires { guard.pass.of ≡ N.of }
    ensures { IfSome result (λ pass. pass.of ≡ N.of) }
{
    let mut staying = guard;
    let steps = staying.keys().len() as u64;
    for _ in 0..u64::MAX {
        match table.leave(rt, staying) {
            Ok(Left { pass, answers: _ }) => {
                tally.steps = tally.steps.saturating_add(steps);
                return Some(pass);
            }
            Err(LeaveStopped { guard, error }) => {
                if error == StepError::Memory {
                    guard.abandon();
                    return None;
                }
                staying = guard;
            }
        }
        thread::yield_now();
    }
    staying.abandon();
    None
}

/// Makes a whole round. None if a call fails; the pass is then given up.
fn round<N: Name, T: KeyTable, R: Wait>(
    rt: &R,
    alloc: Global,
    table: &Table<N, T>,
    keys: &[Key],
    driver: &mut Driver<N>,
    pass: Pass,
) -> Option<Pass>
    requires { pass.of ≡ N.of }
    ensures { IfSome result (λ pass. pass.of ≡ N.of) }
{
    let Driver { plan, course, .. } = driver;
    let Some(accesses) = next_accesses(keys, course) else {
        pass.abandon();
        return None;
    };
    let txn = Some(plan.txn);
    let mut guard = match table.enter(alloc, pass, txn, at(course.round), &accesses, 0) {
        Ok(guard) => guard,
        Err(EnterRefused { pass, error: _ }) => {
            pass.abandon();
            return None;
        }
    };
    if work(rt, table, keys, plan, course, &mut guard).is_none() {
        guard.abandon();
        return None;
    }
    leave_at_last(rt, table, &mut course.tally, guard)
}

/// Makes the rounds of one pass. None if a call fails. The pass stays outside its seat until the last round has
/// ended.
pub fn drive<N: Name, T: KeyTable, R: Wait>(
    rt: &R,
    alloc: Global,
    table: &Table<N, T>,
    keys: &[Key],
    driver: Driver<N>,
) -> Option<Driver<N>> {
    let mut driver = driver;
    let mut pass = driver.seat.take()?.into_pass()?;
    for _ in 0..u64::MAX {
        if driver.course.tally.steps >= driver.plan.steps {
            break;
        }
        pass = round(rt, alloc, table, keys, &mut driver, pass)?;
    }
    driver.seat = Some(Seat::free(pass));
    Some(driver)
}

/// Makes the rounds of all passes in turn, on this thread. None if a call fails.
pub fn drive_in_turn<N: Name, T: KeyTable, R: Wait>(
    rt: &R,
    alloc: Global,
    table: &Table<N, T>,
    keys: &[Key],
    drivers: Vec<Driver<N>>,
) -> Option<Vec<Driver<N>>> {
    let mut random = XorShift::new(0);
    let mut busy = drivers;
    let mut done = Vec::new(alloc);
    if busy.len() == 1 {
        // A single pass needs no turns.
        done.push(drive(rt, alloc, table, keys, busy.pop()?)?).ok()?;
        return Some(done);
    }
    for _ in 0..u64::MAX {
        if busy.is_empty() {
            break;
        }
        let next = random.below(busy.len());
        if is_done(&busy[next]) {
            done.push(busy.swap_remove(next)).ok()?;
        } else {
            turn(rt, alloc, table, keys, &mut busy[next])?;
        }
    }
    Some(done)
}

/// How the passes of the load wait. Passes that take turns on one thread give up at once, because no other pass
/// could let them through in the meantime.
fn waiting_of(load: &Load) -> Waiting {
    if load.waits {
        Waiting::Sleep
    } else if load.threads {
        Waiting::Poll(POLLS)
    } else {
        Waiting::Poll(0)
    }
}

/// One driver for each seat. None if an allocation fails.
pub fn drivers_of<N: Name>(
    alloc: Global,
    seats: Vec<Seat<N>>,
    load: &Load,
) -> Option<Vec<Driver<N>>> {
    let mut drivers = Vec::new(alloc);
    let mut number = 0u64;
    for seat in seats {
        number = number.saturating_add(1);
        let plan = TurnPlan {
            txn: TxnId::new(number)?,
            steps: load.steps,
            waiting: waiting_of(load),
        };
        let course = Course {
            random: XorShift::new(number),
            round: 0,
            write: 0,
            stage: Stage::Enter,
            tally: Tally::none(),
        };
        let seat = Some(seat);
        drivers.push(Driver { seat, plan, course }).ok()?;
    }
    Some(drivers)
}

/// The seats of the drivers, and the sum of their counts. None if a driver has no seat, or an allocation fails.
pub fn gathered<N: Name>(alloc: Global, drivers: Vec<Driver<N>>) -> Option<(Vec<Seat<N>>, Tally)> {
    let mut seats = Vec::new(alloc);
    let mut tally = Tally::none();
    for driver in drivers {
        let Driver { seat, course, .. } = driver;
        tally = tally.and(&course.tally);
        seats.push(seat?).ok()?;
    }
    Some((seats, tally))
}

/// All drivers, if each of them succeeded. None otherwise, or if an allocation fails.
pub fn all_of<N: Name>(alloc: Global, drivers: Vec<Option<Driver<N>>>) -> Option<Vec<Driver<N>>> {
    let mut list = Vec::new(alloc);
    for driver in drivers {
        list.push(driver?).ok()?;
    }
    Some(list)
}

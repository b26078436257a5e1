//! Is a waker called once for each let?
//! [`wake_three`] opens a table with a waker that notes its calls. Three requests wait at a key, and one
//! step lets all of them through. Read next `tests`.
ghost use Rattle.std.specs.Prelude.{◌≡◌};

use lt_ids::{Access, Key, Ticket, TxnId};
use lt_rules::KeyTable;
use lt_table::{Config, EnterRefused, Poll, Ready, Scan, Table, Waker, open_waking, prepare};
use lt_test_kit::request::{TIME, hold};
use lt_test_kit::run::seated;
use lt_test_kit::seat::Seat;
use lt_words::Name;
use std::alloc::Global;
use std::marker::Brand;
use std::sync::Wait;
use std::sync::atomic::{AtomicU64, AtomicUsize, Ordering};

/// The calls of a waker: how many, and for the first four times the pass, the request number and the wait
/// number, as one number of three digits.
#[derive(Drop)]
pub struct WakerNotes {
    count: AtomicUsize,
    calls: [AtomicU64; 4],
}

/// A waker that notes its calls.
#[derive(Drop)]
struct Noting<'a> {
    notes: &'a WakerNotes,
}

impl<'a> Waker for Noting<'a> {
    fn wake(&self, pass: u32, ticket: Ticket) {
        let index = self.notes.count.fetch_add(1, Ordering::SeqCst);
        if let Some(call) = self.notes.calls.get(index) {
            call.store(digits_of(pass, ticket), Ordering::SeqCst);
        }
    }
}

/// The pass, the request number and the wait number, one digit each.
fn digits_of(pass: u32, ticket: Ticket) -> u64 {
    let first = u64::from(pass).wrapping_mul(100);
    let second = ticket.number().wrapping_mul(10);
    first
        .wrapping_add(second)
        .wrapping_add(u64::from(ticket.wait()))
}

impl WakerNotes {
    fn new() -> Self {
        WakerNotes {
            count: AtomicUsize::new(0),
            calls: [
                AtomicU64::new(0),
                AtomicU64::new(0),
                AtomicU64::new(0),
                AtomicU64::new(0),
            ],
        }
    }

    /// All calls of the waker, the smallest first.
    fn all(&self, alloc: Global) -> Option<Vec<u64>> {
        let mut all = Vec::new(alloc);
        for call in self.calls.iter().take(self.count.load(Ordering::SeqCst)) {
            all.push(call.load(Ordering::SeqCst)).ok()?;
        }
        all.sort().ok()?;
        Some(all)
    }
}

/// The results of a run: how often the waker was called before the lock was freed, all its calls, their number, and
/// what the requests then polled.
#[derive(Drop)]
pub struct WokenCallers {
    pub early: usize,
    pub calls: Vec<u64>,
    pub count: usize,
    pub polls: Vec<Poll>,
}

/// A request of this transaction enters and must wait.
fn come<N: Name, T: KeyTable, W: Waker, R: Wait>(
    rt: &R,
    alloc: Global,
    table: &Table<N, T, W>,
    seat: Seat<N>,
    asked: (&Key, Access),
    txn: u64,
) -> Option<Seat<N>> {
    let txn = TxnId::new(txn)?;
    let mut accesses = Vec::new(alloc);
    accesses.push((asked.0.copy().ok()?, asked.1)).ok()?;
    let pass = seat.into_pass()?;
    let mut guard = match table.enter(alloc, pass, Some(txn), TIME, &accesses, 0) {
        Ok(guard) => guard,
        Err(EnterRefused { pass, error: _ }) => {
            pass.abandon();
            return None;
        }
    };
    let scanned = table.scan(rt, &mut guard);
    let seat = Seat::open(guard);
    match scanned {
        Ok(Scan::Waiting(_)) => Some(seat),
        _ => None,
    }
}

/// A request enters by each seat: the first to write, the others to read.
fn come_all<N: Name, T: KeyTable, W: Waker, R: Wait>(
    rt: &R,
    alloc: Global,
    table: &Table<N, T, W>,
    seats: Vec<Seat<N>>,
    key: &Key,
) -> Option<Vec<Seat<N>>> {
    let mut waiting = Vec::new(alloc);
    let mut txn = 0u64;
    for seat in seats {
        txn = txn.wrapping_add(1);
        let access = if txn == 1 {
            Access::Write
        } else {
            Access::Read
        };
        let seat = come(rt, alloc, table, seat, (key, access), txn)?;
        waiting.push(seat).ok()?;
    }
    Some(waiting)
}

/// Each request polls.
fn poll_all<N: Name, T: KeyTable, W: Waker>(
    alloc: Global,
    table: &Table<N, T, W>,
    seats: Vec<Seat<N>>,
) -> Option<Vec<Poll>> {
    let mut polls = Vec::new(alloc);
    for seat in seats {
        let mut guard = seat.into_guard()?;
        let found = table.poll(&mut guard);
        guard.abandon();
        polls.push(found).ok()?;
    }
    Some(polls)
}

/// Frees the lock.
fn free<N: Name, T: KeyTable, W: Waker, R: Wait>(
    rt: &R,
    table: &Table<N, T, W>,
    seat: Seat<N>,
    key: &Key,
    txn: TxnId,
) -> Option<()> {
    let mut pass = seat.into_pass()?;
    let answered = table.finish(rt, &mut pass, key, txn);
    pass.abandon();
    answered.ok()?;
    Some(())
}

/// The last pass takes the lock of a key, requests of the other passes wait for it, and the lock is freed.
fn wake_on<N: Name, T: KeyTable, W: Waker, R: Wait>(
    rt: &R,
    alloc: Global,
    table: &Table<N, T, W>,
    mut seats: Vec<Seat<N>>,
    notes: &WakerNotes,
) -> Option<WokenCallers> {
    let key = Key::from_bytes(alloc, b"key").ok()?;
    let txn = TxnId::new(9)?;
    let holder = hold(rt, table, seats.pop()?, &key, txn)?;
    let waiting = come_all(rt, alloc, table, seats, &key)?;
    let early = notes.count.load(Ordering::SeqCst);
    free(rt, table, holder, &key, txn)?;
    Some(WokenCallers {
        early,
        calls: notes.all(alloc)?,
        count: notes.count.load(Ordering::SeqCst),
        polls: poll_all(alloc, table, waiting)?,
    })
}

fn wake_named<N: Name, R: Wait>(rt: &R, alloc: Global, ready: Ready) -> Option<WokenCallers>
    requires { ready.of ≡ N.of }
{
    let notes = WakerNotes::new();
    let waker = Noting { notes: &notes };
    let (table, passes) = open_waking::<N, Noting<'_>>(alloc, ready, 0, waker).ok()?;
    wake_on(rt, alloc, &table, seated::<N>(alloc, passes)?, &notes)
}

/// One step lets a writer and two readers through, which wait by passes 1, 2 and 3.
pub fn wake_three<R: Wait>(rt: &R, alloc: Global) -> Option<WokenCallers> {
    let config = Config {
        shards: 1,
        passes: 4,
        max_steps: 100,
        max_requests: 10,
        max_waits: 10,
    };
    let ready = prepare(alloc, config).ok()?;
    wake_named::<Brand, R>(rt, alloc, ready)
}

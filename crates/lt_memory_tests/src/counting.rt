//! Which calls of a table that records no steps take no memory? Each test makes calls of each kind on one key, and
//! prints a line after each kind. `tools/gate/count_requests` runs the tests and counts the requests for memory
//! between two lines. One test has a key that is stored without an allocation, and another has one that takes an
//! allocation. A third test is about a table that streams its steps: the vector that a take hands in is where the next
//! steps are stored.
//!
//! One transaction holds the key. Ten requests wait to read below the timestamp to which the lock is raised later, ten
//! wait to read above it, and ten wait to write. One more reads below the lock's first timestamp, and passes.
ghost use Rattle.std.specs.Prelude.{◌≡◌, ◌≢◌, []};

use crate::giving_up::{is_freed, leave_all};
use lt_entry::Entry;
use lt_ids::{Access, Key, Timestamp, TxnId};
use lt_rules::{KeyTable, Reply};
use lt_table::{
    Answer, Config, EnterRefused, Guard, Keeping, Poll, Ready, Scan, StepError, Table, open,
    prepare_with,
};
use lt_test_kit::holds::Holds;
use lt_test_kit::key::key_of;
use lt_test_kit::run::seated;
use lt_test_kit::seat::Seat;
use lt_words::Name;
use std::alloc::Global;
use std::marker::Brand;
use std::rt::Runtime;
use std::sync::Wait;
use std::test::Fail;

/// One pass holds the key, one reads below the lock, and thirty wait.
const LIMITS: Config = Config {
    shards: 1,
    passes: 32,
    max_steps: 1,
    max_requests: 1000,
    max_waits: 1000,
};

/// How many requests of each of the three kinds wait.
const EACH: usize = 10;

/// The indices of the requests that wait: from the first number to below the second.
const ALL: (usize, usize) = (0, 3 * EACH);

/// The transaction that holds the key.
const HOLDER: u64 = 1;

/// How many calls of each kind came out as they must.
#[derive(Clone, Copy, Debug, PartialEq, Eq)]
struct Counted {
    kept: usize,
    queued: usize,
    waiting: usize,
    looks: usize,
    refused: usize,
    passed: usize,
    raised: usize,
    let_by_raises: usize,
    freed: usize,
    let_by_finish: usize,
    left: usize,
}

const NONE: Counted = Counted {
    kept: 0,
    queued: 0,
    waiting: 0,
    looks: 0,
    refused: 0,
    passed: 0,
    raised: 0,
    let_by_raises: 0,
    freed: 0,
    let_by_finish: 0,
    left: 0,
};

/// A kind of call that a request makes, and how it must come out.
#[derive(Clone, Copy, Debug, PartialEq, Eq)]
enum Kind {
    Queue,
    Pass,
    Wait,
    IsLet,
    Look,
    AcquireOfOther,
    UpdateOfOther,
    FinishOfOther,
}

fn at(wall: u64) -> Timestamp {
    Timestamp { wall, logical: 0 }
}

/// The access and the timestamp of the request with this index.
fn asked(index: usize) -> (Access, Timestamp) {
    if index < EACH {
        (Access::Read, at(20))
    } else if index < 2 * EACH {
        (Access::Read, at(40))
    } else if index < 3 * EACH {
        (Access::Write, at(20))
    } else {
        (Access::Read, at(5))
    }
}

/// Prints the name of the calls that were made since the line before.
fn tell<R: Runtime>(rt: &R, calls: &str) {
    let _ = print!(rt; "made: {calls}\n");
}

/// The request with this index enters. None if it is refused.
fn enter<N: Name, T: KeyTable>(
    alloc: Global,
    table: &Table<N, T>,
    seat: Seat<N>,
    key: Key,
    index: usize,
) -> Option<Seat<N>> {
    let txn = TxnId::new((index as u64).saturating_add(2));
    let (access, ts) = asked(index);
    let accesses = [(key, access)];
    let pass = seat.into_pass()?;
    match table.enter(alloc, pass, txn, ts, &accesses, 0) {
        Ok(guard) => Some(Seat::open(guard)),
        Err(EnterRefused { pass, error: _ }) => {
            pass.abandon();
            None
        }
    }
}

/// All requests enter. None if one is refused, or an allocation fails.
fn enter_all<N: Name, T: KeyTable>(
    alloc: Global,
    table: &Table<N, T>,
    seats: Vec<Seat<N>>,
    byte: u8,
) -> Option<Vec<Seat<N>>> {
    let mut inside = Vec::with_capacity(alloc, seats.len()).ok()?;
    for seat in seats {
        let key = key_of(alloc, byte)?;
        let index = inside.len();
        inside.push(enter(alloc, table, seat, key, index)?).ok()?;
    }
    Some(inside)
}

/// Whether a key step has this reply.
fn has_reply(answered: Result<Answer, StepError>, reply: &Reply) -> bool {
    match answered {
        Ok(answer) => answer.reply == *reply,
        Err(_) => false,
    }
}

/// Makes a call by the request. True if it comes out as its kind says.
fn is_made<N: Name, T: KeyTable, R: Wait>(
    rt: &R,
    table: &Table<N, T>,
    key: &Key,
    kind: Kind,
    txn: TxnId,
    guard: &mut Guard,
) -> bool
    requires { guard.old.pass.of ≡ N.of }
    ensures { guard.new.pass.of ≡ N.of }
{
    match kind {
        Kind::Queue => table.scan(rt, guard) == Ok(Scan::Waiting(0)),
        Kind::Pass => table.scan(rt, guard) == Ok(Scan::Proceed),
        Kind::Wait => table.poll(guard) == Poll::Waiting,
        Kind::IsLet => table.poll(guard) == Poll::Through,
        Kind::Look => !guard.keys().is_empty() && table.look(rt, guard, 0).is_ok(),
        Kind::AcquireOfOther => {
            has_reply(table.acquire_in(rt, guard, key, txn, at(50)), &Reply::Other)
        }
        Kind::UpdateOfOther => {
            has_reply(table.update_in(rt, guard, key, txn, at(50)), &Reply::Other)
        }
        Kind::FinishOfOther => has_reply(table.finish_in(rt, guard, key, txn), &Reply::Other),
    }
}

/// Makes a call by each request from one index to another. Returns how many come out as their kind says.
fn make<N: Name, T: KeyTable, R: Wait>(
    rt: &R,
    table: &Table<N, T>,
    seats: &mut Vec<Seat<N>>,
    key: &Key,
    kind: Kind,
    range: (usize, usize),
) -> usize {
    let txn = TxnId::new(1000).unwrap();
    let mut count: usize = 0;
    for index in range.0..range.1 {
        let Some(seat) = seats.get_mut(index) else {
            break;
        };
        if let Holds::Open(guard) = &mut seat.holds {
            count = count.saturating_add(usize::from(is_made(rt, table, key, kind, txn, guard)));
        }
    }
    count
}

/// Acquires the key once by the holder's free pass. 1 if the acquire has this reply, and else 0.
fn acquire_once<N: Name, T: KeyTable, R: Wait>(
    rt: &R,
    table: &Table<N, T>,
    holder: &mut Seat<N>,
    key: &Key,
    ts: Timestamp,
    reply: &Reply,
) -> usize {
    let Holds::Free(pass) = &mut holder.holds else {
        return 0;
    };
    let txn = TxnId::new(HOLDER).unwrap();
    usize::from(has_reply(table.acquire(rt, pass, key, txn, ts), reply))
}

/// Acquires the key ten times by the holder's free pass, at timestamps from `from` on. Returns how many of the acquires
/// have this reply.
fn acquire_again<N: Name, T: KeyTable, R: Wait>(
    rt: &R,
    table: &Table<N, T>,
    holder: &mut Seat<N>,
    key: &Key,
    reply: &Reply,
    from: u64,
) -> usize {
    let mut count: usize = 0;
    for step in 0..10u64 {
        let ts = at(from.saturating_add(step));
        count = count.saturating_add(acquire_once(rt, table, holder, key, ts, reply));
    }
    count
}

/// Updates the lock of the key once by the holder's free pass. 1 if the update has this reply, and else 0.
fn update_once<N: Name, T: KeyTable, R: Wait>(
    rt: &R,
    table: &Table<N, T>,
    holder: &mut Seat<N>,
    key: &Key,
    ts: Timestamp,
    reply: &Reply,
) -> usize {
    let Holds::Free(pass) = &mut holder.holds else {
        return 0;
    };
    let txn = TxnId::new(HOLDER).unwrap();
    usize::from(has_reply(table.update(rt, pass, key, txn, ts), reply))
}

/// The same as [`acquire_again`] for updates.
fn update_again<N: Name, T: KeyTable, R: Wait>(
    rt: &R,
    table: &Table<N, T>,
    holder: &mut Seat<N>,
    key: &Key,
    reply: &Reply,
    from: u64,
) -> usize {
    let mut count: usize = 0;
    for step in 0..10u64 {
        let ts = at(from.saturating_add(step));
        count = count.saturating_add(update_once(rt, table, holder, key, ts, reply));
    }
    count
}

/// Makes the calls of requests that are inside, up to the finish of the holder, and names them line by line.
fn make_all<N: Name, T: KeyTable, R: Wait + Runtime>(
    rt: &R,
    table: &Table<N, T>,
    holder: &mut Seat<N>,
    seats: &mut Vec<Seat<N>>,
    key: &Key,
    txn: TxnId,
) -> Counted {
    let mut counted = NONE;
    counted.queued = make(rt, table, seats, key, Kind::Queue, ALL);
    tell(rt, "visits that queue");
    counted.waiting = make(rt, table, seats, key, Kind::Wait, ALL);
    tell(rt, "polls");
    counted.looks = make(rt, table, seats, key, Kind::Look, ALL);
    tell(rt, "looks");
    let acquires = make(rt, table, seats, key, Kind::AcquireOfOther, ALL);
    tell(rt, "acquires at another transaction's lock");
    let updates = make(rt, table, seats, key, Kind::UpdateOfOther, ALL);
    let finishes = make(rt, table, seats, key, Kind::FinishOfOther, ALL);
    counted.refused = acquires.saturating_add(updates).saturating_add(finishes);
    tell(rt, "updates and finishes at another transaction's lock");
    counted.passed = make(rt, table, seats, key, Kind::Pass, (3 * EACH, 3 * EACH + 1));
    tell(rt, "a visit that passes");
    let acquires = acquire_again(rt, table, holder, key, &Reply::Raised, 11);
    tell(rt, "acquires that raise the lock");
    let updates = update_again(rt, table, holder, key, &Reply::Raised, 21);
    tell(rt, "updates that raise the lock and let requests through");
    counted.raised = acquires.saturating_add(updates);
    counted.let_by_raises = make(rt, table, seats, key, Kind::IsLet, ALL);
    counted.freed = usize::from(is_freed(rt, table, holder, key, txn));
    tell(rt, "a finish that lets requests through");
    counted.let_by_finish = make(rt, table, seats, key, Kind::IsLet, (EACH, 3 * EACH));
    counted
}

/// Takes the lock of the key by the free pass in the seat. None if the lock is not taken.
fn take<N: Name, T: KeyTable, R: Wait>(
    rt: &R,
    table: &Table<N, T>,
    holder: &mut Seat<N>,
    key: &Key,
    txn: TxnId,
) -> Option<()> {
    let Holds::Free(pass) = &mut holder.holds else {
        return None;
    };
    if has_reply(table.acquire(rt, pass, key, txn, at(10)), &Reply::Taken) {
        Some(())
    } else {
        None
    }
}

/// None if a request is not inside, or an allocation fails.
fn run_named<N: Name, R: Wait + Runtime>(
    rt: &R,
    alloc: Global,
    ready: Ready,
    key: &Key,
    byte: u8,
) -> Option<Counted>
    requires { ready.of ≡ N.of }
{
    let txn = TxnId::new(HOLDER).unwrap();
    let (table, passes) = open::<N>(alloc, ready, 0).ok()?;
    let mut seats = seated::<N>(alloc, passes)?;
    let mut holder = seats.pop()?;
    take(rt, &table, &mut holder, key, txn)?;
    tell(rt, "a beginning");
    let kept = acquire_again(rt, &table, &mut holder, key, &Reply::Kept, 0);
    tell(rt, "acquires that keep a lock that stands alone");
    let also_kept = update_again(rt, &table, &mut holder, key, &Reply::Kept, 0);
    tell(rt, "updates that keep a lock that stands alone");
    let mut seats = enter_all(alloc, &table, seats, byte)?;
    tell(rt, "enters");
    let mut counted = make_all(rt, &table, &mut holder, &mut seats, key, txn);
    counted.kept = kept.saturating_add(also_kept);
    let (_, left) = leave_all(rt, &table, seats);
    counted.left = left;
    tell(rt, "leaves that let requests through");
    Some(counted)
}

/// The same for a new table that records no steps, with the key that the byte names.
fn run<R: Wait + Runtime>(rt: &R, alloc: Global, byte: u8) -> Option<Counted> {
    let key = key_of(alloc, byte)?;
    let ready = prepare_with(alloc, LIMITS, Keeping::Unrecorded).ok()?;
    run_named::<Brand, R>(rt, alloc, ready, &key, byte)
}

/// What comes of the calls. The raises let the first ten readers through. The finish lets the others through, and the
/// first writer.
const EXPECTED: Counted = Counted {
    kept: 20,
    queued: 30,
    waiting: 30,
    looks: 30,
    refused: 90,
    passed: 1,
    raised: 20,
    let_by_raises: 10,
    freed: 1,
    let_by_finish: 11,
    left: 31,
};

#[test]
fn each_kind_of_call_at_a_short_key(rt: HostRuntime) -> Result<(), Fail> {
    let counted = run(&rt, rt.alloc(), b'a').ok_or("the run")?;
    assert_eq!(rt; counted, EXPECTED);
    Ok(())
}

#[test]
fn each_kind_of_call_at_a_long_key(rt: HostRuntime) -> Result<(), Fail> {
    let counted = run(&rt, rt.alloc(), b'A').ok_or("the run")?;
    assert_eq!(rt; counted, EXPECTED);
    Ok(())
}

// ---- room for the steps of a streamed table

/// How many steps are made after each take.
const STEPS: usize = 32;

/// Finishes at a key that nobody holds, by the free pass in the seat. Returns how many of [`STEPS`] finishes are answered
/// `Other`.
fn finish_again<N: Name, T: KeyTable, R: Wait>(
    rt: &R,
    table: &Table<N, T>,
    seat: &mut Seat<N>,
    key: &Key,
) -> usize {
    let txn = TxnId::new(HOLDER).unwrap();
    let mut count: usize = 0;
    for _ in 0..STEPS {
        let Holds::Free(pass) = &mut seat.holds else {
            break;
        };
        count = count.saturating_add(usize::from(has_reply(
            table.finish(rt, pass, key, txn),
            &Reply::Other,
        )));
    }
    count
}

/// Takes the steps of the key's shard out into this vector. Returns how many they are. None if the seat has no free pass.
fn take_out<N: Name, T: KeyTable, R: Wait>(
    rt: &R,
    table: &Table<N, T>,
    seat: &mut Seat<N>,
    key: &Key,
    room: Vec<Entry>,
) -> Option<usize>
    requires streamed { N.of.keeping ≢ Keeping.Whole }
    requires empty { room.items ≡ [] }
{
    let mut room = room;
    let Holds::Free(pass) = &mut seat.holds else {
        return None;
    };
    table.take_history(rt, pass, table.shard_of(key), &mut room);
    Some(room.len())
}

/// Makes steps after a take that handed in room for them, and after one that handed in none. Returns how many steps were
/// made each time, and how many the second take gave.
fn make_in_room<N: Name, R: Wait + Runtime>(
    rt: &R,
    alloc: Global,
    ready: Ready,
    key: &Key,
) -> Option<(usize, usize, usize)>
    requires of { ready.of ≡ N.of }
    requires streamed { N.of.keeping ≢ Keeping.Whole }
{
    let (table, passes) = open::<N>(alloc, ready, 0).ok()?;
    let mut seats = seated::<N>(alloc, passes)?;
    let mut seat = seats.pop()?;
    finish_again(rt, &table, &mut seat, key);
    let room = Vec::with_capacity(alloc, STEPS).ok()?;
    take_out(rt, &table, &mut seat, key, room)?;
    tell(rt, "a beginning");
    let within = finish_again(rt, &table, &mut seat, key);
    tell(rt, "steps after a take that handed in room for them");
    let taken = take_out(rt, &table, &mut seat, key, Vec::new(alloc))?;
    tell(rt, "a take");
    let without = finish_again(rt, &table, &mut seat, key);
    tell(rt, "steps after a take that handed in no room");
    Some((within, taken, without))
}

/// The same on a new table that streams its steps.
fn run_in_room<R: Wait + Runtime>(rt: &R, alloc: Global) -> Option<(usize, usize, usize)> {
    let key = key_of(alloc, b'a')?;
    let limits = Config {
        max_steps: 1000,
        ..LIMITS
    };
    let ready = prepare_with(alloc, limits, Keeping::Streamed).ok()?;
    make_in_room::<Brand, R>(rt, alloc, ready, &key)
}

#[test]
fn a_take_hands_in_the_room_of_the_next_steps(rt: HostRuntime) -> Result<(), Fail> {
    let made = run_in_room(&rt, rt.alloc()).ok_or("the run")?;
    assert_eq!(rt; made, (STEPS, STEPS, STEPS));
    Ok(())
}

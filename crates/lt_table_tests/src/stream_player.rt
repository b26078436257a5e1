//! Does a streamed table give away every step while threads work on it?
//! Four threads make steps at once, and a fifth takes out what both shards hold until they are done. Read next
//! `work`, which has the calls of the threads, and `thread_tests`, which compares the results.
ghost use Rattle.std.specs.Prelude.{◌≡◌, ◌≢◌, ◌<◌, [], IfSome};
ghost use Rattle.lt_words.specs.declared.keeping.Keeping.TheVariants.{Whole};

use crate::work::{TURNS, ThreadWork, ThreadsRun, limits, lines_of, work_all, workers_of};
use lt_entry::Entry;
use lt_rules::KeyTable;
use lt_table::{Config, Keeping, Reader, Ready, Rest, Table, open, prepare_with};
use lt_test_kit::key::key_of;
use lt_test_kit::run::{rests_through, seated};
use lt_test_kit::seat::Seat;
use lt_words::Name;
use std::alloc::Global;
use std::marker::Brand;
use std::sync::Wait;
use std::sync::atomic::{AtomicBool, Ordering};
use std::thread::{Threads, join};

/// How many steps a shard may hold. The limit is so small that the threads proceed only because steps are taken
/// out.
const HELD: u64 = 64;

/// The reader of a shard, the steps that it received, and in how many pieces.
#[derive(Drop)]
struct ShardStream {
    reader: Reader,
    taken: Vec<Entry>,
    pieces: u64,
}

/// The caller that takes steps out of both shards.
#[derive(Drop)]
struct TwoShardTaker<N: Name> {
    seat: Seat<N>,
    room: Vec<Entry>,
    first: ShardStream,
    second: ShardStream,
    ghost keeping: { N.of.keeping ≢ Whole },
    ghost empty: { room.items ≡ [] },
    ghost first_shard: { first.reader.shard < N.of.shards },
    ghost second_shard: { second.reader.shard < N.of.shards },
}

/// Takes out what the shard of the stream holds. `room` is empty before and after the call.
fn take<N: Name, T: KeyTable, R: Wait>(
    rt: &R,
    table: &Table<N, T>,
    seat: Seat<N>,
    stream: ShardStream,
    mut room: Vec<Entry>,
) -> Option<(Seat<N>, ShardStream, Vec<Entry>)>
    requires keeping { N.of.keeping ≢ Keeping.Whole }
    requires shard { stream.reader.shard < N.of.shards }
    requires empty { room.items ≡ [] }
    ensures shard { IfSome result (λ r. r.1.reader.shard ≡ stream.reader.shard) }
    ensures empty { IfSome result (λ r. r.2.items ≡ []) }
{
    let ShardStream {
        mut reader,
        mut taken,
        pieces,
    } = stream;
    let mut pass = seat.into_pass()?;
    let given = table.take_next(rt, &mut pass, &mut reader, &mut room);
    let seat = Seat::free(pass);
    let Ok(()) = given else {
        return None;
    };
    let pieces = if room.is_empty() {
        pieces
    } else {
        pieces.wrapping_add(1)
    };
    taken.append(&mut room).ok()?;
    let stream = ShardStream {
        reader,
        taken,
        pieces,
    };
    Some((seat, stream, room))
}

/// Takes out what both shards hold.
fn take_both<N: Name, T: KeyTable, R: Wait>(
    rt: &R,
    table: &Table<N, T>,
    taker: TwoShardTaker<N>,
) -> Option<TwoShardTaker<N>> {
    let TwoShardTaker {
        seat,
        room,
        first,
        second,
    } = taker;
    let (seat, first, room) = take(rt, table, seat, first, room)?;
    let (seat, second, room) = take(rt, table, seat, second, room)?;
    Some(TwoShardTaker {
        seat,
        room,
        first,
        second,
    })
}

/// Takes steps out until the workers are done.
fn take_until<N: Name, T: KeyTable, R: Wait>(
    rt: &R,
    table: &Table<N, T>,
    mut taker: TwoShardTaker<N>,
    is_done: &AtomicBool,
) -> Option<TwoShardTaker<N>> {
    for _ in 0..TURNS {
        if is_done.load(Ordering::SeqCst) {
            return Some(taker);
        }
        taker = take_both(rt, table, taker)?;
    }
    None
}

/// Runs all workers at once, and the taker at the same time.
fn work_beside<N: Name + Send + Sync, T: KeyTable + Send, R: Threads + Wait + Sync>(
    rt: &R,
    alloc: Global,
    table: &Table<N, T>,
    workers: Vec<ThreadWork<N>>,
    taker: TwoShardTaker<N>,
) -> Option<(Vec<Option<ThreadWork<N>>>, TwoShardTaker<N>)> {
    let is_done = AtomicBool::new(false);
    let done = &is_done;
    let (worked, taken) = join(
        rt,
        move || {
            let worked = work_all(rt, alloc, table, workers);
            done.store(true, Ordering::SeqCst);
            worked
        },
        move || take_until(rt, table, taker, done),
    );
    Some((worked.ok()?, taken?))
}

fn stream_of<N: Name, T: KeyTable>(
    alloc: Global,
    table: &Table<N, T>,
    byte: u8,
) -> Option<ShardStream>
    ensures { IfSome result (λ s. s.reader.shard < N.of.shards) }
{
    let shard = table.shard_of(&key_of(alloc, byte)?);
    Some(ShardStream {
        reader: Reader { shard, next: 0 },
        taken: Vec::new(alloc),
        pieces: 0,
    })
}

/// A taker with this seat, for the shards of the keys b and a, which have the indices 0 and 1 of two shards.
fn taker_of<N: Name, T: KeyTable>(
    alloc: Global,
    table: &Table<N, T>,
    seat: Seat<N>,
) -> Option<TwoShardTaker<N>>
    requires { N.of.keeping ≢ Keeping.Whole }
{
    Some(TwoShardTaker {
        seat,
        room: Vec::new(alloc),
        first: stream_of(alloc, table, b'b')?,
        second: stream_of(alloc, table, b'a')?,
    })
}

/// The steps taken from a shard, followed by the steps left in it. `None` if the rest begins at another index, or
/// an allocation fails.
fn joined(mut taken: Vec<Entry>, rest: Rest) -> Option<Vec<Entry>> {
    if rest.from != taken.len() as u64 {
        return None;
    }
    let mut entries = rest.entries;
    taken.append(&mut entries).ok()?;
    Some(taken)
}

/// The histories of both shards.
fn histories_of(
    alloc: Global,
    first: Vec<Entry>,
    second: Vec<Entry>,
    mut rests: Vec<Rest>,
) -> Option<Vec<Vec<Entry>>> {
    let second_rest = rests.pop()?;
    let first_rest = rests.pop()?;
    let mut shards = Vec::new(alloc);
    shards.push(joined(first, first_rest)?).ok()?;
    shards.push(joined(second, second_rest)?).ok()?;
    Some(shards)
}

/// Closes the table and collects the results.
fn close<N: Name, T: KeyTable + Drop, R: Wait>(
    rt: &R,
    alloc: Global,
    table: Table<N, T>,
    worked: Vec<Option<ThreadWork<N>>>,
    taker: TwoShardTaker<N>,
) -> Option<ThreadsRun> {
    let TwoShardTaker {
        seat,
        first,
        second,
        ..
    } = taker;
    let mut seats = Vec::new(alloc);
    seats.push(seat).ok()?;
    let lines = lines_of(alloc, worked, &mut seats)?;
    let rests = rests_through(rt, alloc, table, seats, &mut Vec::new(alloc))?;
    let pieces = first.pieces.wrapping_add(second.pieces);
    Some(ThreadsRun {
        lines,
        shards: histories_of(alloc, first.taken, second.taken, rests.shards)?,
        pieces,
        draws: rests.draws,
    })
}

fn stream_named<N: Name + Send + Sync, R: Threads + Wait + Sync>(
    rt: &R,
    alloc: Global,
    ready: Ready,
) -> Option<ThreadsRun>
    requires of { ready.of ≡ N.of }
    requires keeping { N.of.keeping ≢ Keeping.Whole }
{
    let (table, passes) = open::<N>(alloc, ready, 0).ok()?;
    let mut seats = seated::<N>(alloc, passes)?;
    let taker = taker_of(alloc, &table, seats.pop()?)?;
    let workers = workers_of(alloc, seats)?;
    let (worked, taker) = work_beside(rt, alloc, &table, workers, taker)?;
    close(rt, alloc, table, worked, taker)
}

/// Has four threads work on a streamed table of two shards and five passes, and a fifth thread take the steps out.
pub fn stream_work<R: Threads + Wait + Sync>(rt: &R, alloc: Global) -> Option<ThreadsRun> {
    let small = Config {
        max_steps: HELD,
        passes: 5,
        ..limits()
    };
    let ready = prepare_with(alloc, small, Keeping::Streamed).ok()?;
    stream_named::<Brand, R>(rt, alloc, ready)
}

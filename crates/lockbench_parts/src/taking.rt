//! How are the steps of a streamed table taken out while its callers make more?
//!
//! A [`Taker`] has a pass of its own. In each round it takes from every shard the steps that it has not taken yet,
//! and keeps or drops them. Then it sleeps for a moment, so that it does not contend for the shards' locks. It
//! passes in the buffer that it was given last, emptied, so after the first rounds no shard's list grows while its
//! lock is held.
ghost use Rattle.std.specs.Prelude.{◌≡◌, ◌≢◌, ◌<◌, []};
ghost use Rattle.lt_words.specs.declared.keeping.Keeping.TheVariants.{Whole};

use lt_entry::Entry;
use lt_rules::KeyTable;
use lt_table::{Keeping, Reader, Table};
use lt_test_kit::seat::Seat;
use lt_words::{Name, Pass};
use std::alloc::Global;
use std::marker::PhantomData;
use std::sync::Wait;
use std::sync::atomic::{AtomicBool, Ordering};
use std::thread::sleep;
use std::time::{Clock, Duration};

/// How many milliseconds a taker sleeps after each round over the shards.
const PAUSE: u64 = 1;

/// The steps that were taken from a shard.
#[derive(Drop)]
pub struct Piece {
    /// How many steps were taken: the first ones of the shard.
    pub count: u64,
    /// Those steps, in order, if they were kept.
    pub entries: Vec<Entry>,
}

/// A shard of the table that `N` names, from which steps are taken.
#[derive(Drop)]
struct Stream<N: Name> {
    shard: usize,
    /// How many steps were taken: the first ones of the shard.
    next: u64,
    kept: Vec<Entry>,
    name: PhantomData<N>,
    ghost below: { shard < N.of.shards },
}

/// The caller that takes the steps of the table that `N` names.
#[derive(Drop)]
pub struct Taker<N: Name> {
    seat: Seat<N>,
    streams: Vec<Stream<N>>,
    keeps: bool,
    ghost streamed: { N.of.keeping ≢ Whole },
}

impl<N: Name> Taker<N> {
    /// A taker for `shards` shards, which keeps the steps if `keeps` is true and otherwise drops them. None if an
    /// allocation fails.
    pub fn new(alloc: Global, seat: Seat<N>, shards: usize, keeps: bool) -> Option<Taker<N>>
        requires shards { N.of.shards ≡ shards }
        requires keeping { N.of.keeping ≢ Keeping.Whole }
    {
        let mut streams = Vec::new(alloc);
        for shard in 0..shards {
            let stream = Stream {
                shard,
                next: 0,
                kept: Vec::new(alloc),
                name: PhantomData,
            };
            streams.push(stream).ok()?;
        }
        Some(Taker {
            seat,
            streams,
            keeps,
        })
    }

    /// The taker's seat, and what it took from each shard. None if an allocation fails.
    pub fn into_pieces(self, alloc: Global) -> Option<(Seat<N>, Vec<Piece>)> {
        let Taker { seat, streams, .. } = self;
        let mut pieces = Vec::new(alloc);
        for stream in streams {
            let Stream { next, kept, .. } = stream;
            let piece = Piece {
                count: next,
                entries: kept,
            };
            pieces.push(piece).ok()?;
        }
        Some((seat, pieces))
    }
}

/// Takes the new steps of the stream's shard. True if they were taken and, if `keeps` is true, kept.
fn take_piece<N: Name, T: KeyTable, R: Wait>(
    rt: &R,
    table: &Table<N, T>,
    pass: &mut Pass,
    stream: &mut Stream<N>,
    room: &mut Vec<Entry>,
    keeps: bool,
) -> bool
    requires pass { pass.old.of ≡ N.of }
    requires keeping { N.of.keeping ≢ Keeping.Whole }
    requires empty { room.old.items ≡ [] }
    ensures pass { pass.new.of ≡ N.of }
    ensures empty { room.new.items ≡ [] }
{
    let mut reader = Reader {
        shard: stream.shard,
        next: stream.next,
    };
    let is_taken = table.take_next(rt, pass, &mut reader, room).is_ok();
    stream.next = reader.next;
    let is_kept = !keeps || stream.kept.append(room).is_ok();
    room.clear();
    is_taken && is_kept
}

/// Takes the new steps of each shard in turn. True if all were taken and, if `keeps` is true, kept.
fn take_round<N: Name, T: KeyTable, R: Wait>(
    rt: &R,
    table: &Table<N, T>,
    pass: &mut Pass,
    streams: &mut Vec<Stream<N>>,
    room: &mut Vec<Entry>,
    keeps: bool,
) -> bool
    requires pass { pass.old.of ≡ N.of }
    requires keeping { N.of.keeping ≢ Keeping.Whole }
    requires empty { room.old.items ≡ [] }
    ensures pass { pass.new.of ≡ N.of }
    ensures empty { room.new.items ≡ [] }
{
    let mut is_well = true;
    for index in 0..streams.len() {
        let Some(stream) = streams.get_mut(index) else {
            break;
        };
        if !take_piece(rt, table, pass, stream, room, keeps) {
            is_well = false;
        }
    }
    is_well
}

/// Takes the steps of the shards, round after round, until the callers are done. None if steps were lost: another
/// caller took them, or the allocation to keep them failed. Even then it continues until the callers are done, so
/// that no shard stays full.
pub fn take_until<N: Name, T: KeyTable, R: Wait + Clock>(
    rt: &R,
    alloc: Global,
    table: &Table<N, T>,
    taker: Taker<N>,
    done: &AtomicBool,
) -> Option<Taker<N>> {
    let Taker {
        seat,
        mut streams,
        keeps,
    } = taker;
    let mut room = Vec::new(alloc);
    let mut pass = seat.into_pass()?;
    let mut is_well = true;
    for _ in 0..u64::MAX {
        if done.load(Ordering::SeqCst) {
            break;
        }
        if !take_round(rt, table, &mut pass, &mut streams, &mut room, keeps) {
            is_well = false;
        }
        sleep(rt, Duration::from_millis(PAUSE));
    }
    let seat = Seat::free(pass);
    if is_well {
        Some(Taker {
            seat,
            streams,
            keeps,
        })
    } else {
        None
    }
}

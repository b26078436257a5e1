//! How does the store write a trace of its table while it runs? A [`TraceTaker`] has a session of its own. It takes
//! the steps out of every shard, again and again, until the tellers are done. [`histories_of`] joins what it took
//! with what the close of the table leaves: the history of each shard from its first step on.
ghost use Rattle.std.specs.Prelude.{◌≡◌, ◌≢◌, ◌<◌};
ghost use Rattle.lt_words.specs.declared.keeping.Keeping.TheVariants.{Whole};

use example_store::{Store, StoreSession};
use example_values::ValueName;
use lt_entry::Entry;
use lt_table::{Keeping, Reader, Rest};
use lt_words::Name;
use std::alloc::{AllocError, Global};
use std::marker::PhantomData;
use std::sync::Wait;
use std::sync::atomic::{AtomicBool, Ordering};
use std::thread::sleep;
use std::time::{Clock, Duration};

/// How many milliseconds the taker sleeps after each round over the shards.
const PAUSE: u64 = 1;

/// A reader of one shard's history, and the steps that it was given.
#[derive(Drop)]
pub struct ShardTrace<N: Name + ValueName> {
    reader: Reader,
    entries: Vec<Entry>,
    name: PhantomData<N>,
    ghost below: { reader.shard < N.of.shards },
}

/// A caller that takes the steps of the table that `N` names. Its session commits nothing.
#[derive(Drop)]
pub struct TraceTaker<N: Name + ValueName> {
    pub session: StoreSession<N>,
    pub shards: Vec<ShardTrace<N>>,
    /// Whether all steps that were taken were kept.
    pub is_whole: bool,
    ghost streamed: { N.of.keeping ≢ Whole },
}

/// A taker for a table with so many shards.
pub fn taker_of<N: Name + ValueName>(
    alloc: Global,
    session: StoreSession<N>,
    shards: usize,
) -> Result<TraceTaker<N>, AllocError>
    requires shards { N.of.shards ≡ shards }
    requires keeping { N.of.keeping ≢ Keeping.Whole }
{
    let mut traces = Vec::new(alloc);
    for shard in 0..shards {
        traces.push(ShardTrace {
            reader: Reader { shard, next: 0 },
            entries: Vec::new(alloc),
            name: PhantomData,
        })?;
    }
    Ok(TraceTaker {
        session,
        shards: traces,
        is_whole: true,
    })
}

/// Takes the new steps of one shard. True if they were taken and kept.
fn take_steps<N: Name + ValueName, R: Wait>(
    rt: &R,
    alloc: Global,
    store: &Store<N>,
    session: &mut StoreSession<N>,
    trace: &mut ShardTrace<N>,
) -> bool
    requires { N.of.keeping ≢ Keeping.Whole }
{
    let mut steps = Vec::new(alloc);
    let mut reader = trace.reader;
    let taken = store.take_next(rt, session, &mut reader, &mut steps);
    trace.reader.next = reader.next;
    taken && trace.entries.append(&mut steps).is_ok()
}

/// Takes the new steps of each shard in turn. True if all were taken and kept.
fn take_all<N: Name + ValueName, R: Wait>(
    rt: &R,
    alloc: Global,
    store: &Store<N>,
    session: &mut StoreSession<N>,
    shards: &mut Vec<ShardTrace<N>>,
) -> bool
    requires { N.of.keeping ≢ Keeping.Whole }
{
    let mut is_whole = true;
    for index in 0..shards.len() {
        let Some(trace) = shards.get_mut(index) else {
            break;
        };
        if !take_steps(rt, alloc, store, session, trace) {
            is_whole = false;
        }
    }
    is_whole
}

/// Takes the steps of all shards, round after round, until the tellers are done. It goes on also after steps were
/// lost, so that no shard stays full.
pub fn take_until<N: Name + ValueName, R: Wait + Clock>(
    rt: &R,
    alloc: Global,
    store: &Store<N>,
    taker: TraceTaker<N>,
    done: &AtomicBool,
) -> TraceTaker<N> {
    let TraceTaker {
        mut session,
        mut shards,
        mut is_whole,
        ..
    } = taker;
    for _ in rt.forever() {
        if done.load(Ordering::SeqCst) {
            break;
        }
        if !take_all(rt, alloc, store, &mut session, &mut shards) {
            is_whole = false;
        }
        sleep(rt, Duration::from_millis(PAUSE));
    }
    TraceTaker {
        session,
        shards,
        is_whole,
    }
}

/// The history of one shard. `None` if what is left does not continue what was taken, or an allocation fails.
fn history_of<N: Name + ValueName>(trace: ShardTrace<N>, rest: Rest) -> Option<Vec<Entry>> {
    let ShardTrace {
        reader,
        mut entries,
        ..
    } = trace;
    let Rest {
        from,
        entries: mut left,
    } = rest;
    if from != reader.next {
        return None;
    }
    entries.append(&mut left).ok()?;
    Some(entries)
}

/// The history of each shard: the steps that were taken, and those that the close has left. `None` if what is left
/// does not continue what was taken, or an allocation fails.
pub fn histories_of<N: Name + ValueName>(
    alloc: Global,
    traces: Vec<ShardTrace<N>>,
    rests: Vec<Rest>,
) -> Option<Vec<Vec<Entry>>> {
    let mut rests = rests.into_iter();
    let mut histories = Vec::new(alloc);
    for trace in traces {
        let rest = rests.next()?;
        histories.push(history_of(trace, rest)?).ok()?;
    }
    Some(histories)
}

//! How fast is a table under the load of a store's transactions? [`report`] plays rounds of enter, scan, acquire,
//! finish and leave, all in memory, and prints the times.
//!
//! The table keeps its history whole until it is closed, streams it to a thread that takes the steps while others
//! are made, or records none. A further transaction may hold locks meanwhile. Read [`crate::drivers`] for what each
//! pass does, [`lockbench_parts::taking`] for the thread that takes the steps, and [`crate::holding`] for the locks that are
//! held.
ghost use Rattle.std.specs.Prelude.{◌≡◌, unwrap_or};

use crate::drivers::{Driver, Tally, all_of, drive, drive_in_turn, drivers_of, gathered};
use crate::holding::holder_of;
use crate::key_names::keys_of;
use anyhow::bail;
use lockbench_parts::closing::{Ending, close};
use lockbench_parts::keeping::name_of;
use lockbench_parts::spent::{Spent, Start, tell_times};
use lockbench_parts::taking::{Piece, Taker, take_until};
use lt_history::print;
use lt_ids::{Key, MAX_REQUEST, MAX_WAIT};
use lt_rules::KeyTable;
use lt_table::{Config, Keeping, Ready, Table, open, prepare_with};
use lt_test_kit::run::seated;
use lt_test_kit::seat::Seat;
use lt_words::Name;
use std::alloc::Global;
use std::fs::{File, Files};
use std::marker::Brand;
use std::rt::Runtime;
use std::sync::Wait;
use std::sync::atomic::{AtomicBool, Ordering};
use std::thread::{Threads, join, map_vec};
use std::time::{Clock, CpuClock};

/// The most steps that a shard of a streamed table stores. A load's further locks, at most 1,000,000, are acquired
/// before the taker starts, and fit into one shard.
const STORED: u64 = 1 << 20;

/// The parameters of a load: how many passes, keys and shards; about how many key steps each pass makes; on
/// threads or in turn; and how the table keeps its steps.
#[derive(Clone, Copy, Debug)]
pub struct Load {
    /// How many passes make rounds.
    pub passes: usize,
    pub keys: usize,
    pub steps: u64,
    pub shards: usize,
    /// How many further locks are held while the rounds are made, if the command line says so.
    pub held: Option<u64>,
    /// How many bytes each key has, if the command line says so.
    pub key_bytes: Option<u64>,
    pub threads: bool,
    /// Whether a waiting pass sleeps until it is let through. Otherwise it polls.
    pub waits: bool,
    pub keeping: Keeping,
    /// Whether the steps that are taken from a streamed table are kept, for a trace.
    pub traces: bool,
}

impl Load {
    /// How many further locks are held while the rounds are made.
    pub fn held_locks(&self) -> u64
        ensures { result ≡ unwrap_or self.now.held 0 }
    {
        self.held.unwrap_or(0)
    }

    /// How many passes make no rounds: one takes the steps of a streamed table, and one holds the further locks.
    pub fn further_passes(&self) -> usize {
        let takers = if self.keeping == Keeping::Streamed {
            1
        } else {
            0
        };
        let holders: usize = if self.held_locks() > 0 { 1 } else { 0 };
        holders.saturating_add(takers)
    }
}

/// The callers of a table: its drivers; the taker of its steps, if it is streamed; and the seat of the pass that holds
/// further locks, if there are any.
#[derive(Drop)]
struct LoadCallers<N: Name> {
    drivers: Vec<Driver<N>>,
    taker: Option<Taker<N>>,
    holder: Option<Seat<N>>,
}

/// A taker with a seat of its own, if the table is streamed. An error if no seat is left or an allocation fails.
fn taker_of<N: Name>(
    alloc: Global,
    seats: &mut Vec<Seat<N>>,
    load: &Load,
) -> anyhow::Result<Option<Taker<N>>>
    requires shards { N.of.shards ≡ load.now.shards }
    requires keeping { N.of.keeping ≡ load.now.keeping }
{
    match load.keeping {
        Keeping::Whole | Keeping::Unrecorded => Ok(None),
        Keeping::Streamed => {
            let Some(seat) = seats.pop() else {
                bail!("there is no pass to take steps with");
            };
            let Some(taker) = Taker::new(alloc, seat, load.shards, load.traces) else {
                bail!("memory was refused");
            };
            Ok(Some(taker))
        }
    }
}

/// The callers of a table. The further locks of the load are then held. An error if there are too few seats, a lock is
/// not taken or an allocation fails.
fn crew_of<N: Name, T: KeyTable, R: Wait>(
    rt: &R,
    alloc: Global,
    table: &Table<N, T>,
    mut seats: Vec<Seat<N>>,
    load: &Load,
) -> anyhow::Result<LoadCallers<N>>
    requires shards { N.of.shards ≡ load.now.shards }
    requires keeping { N.of.keeping ≡ load.now.keeping }
{
    let taker = taker_of(alloc, &mut seats, load)?;
    let holder = holder_of(rt, alloc, table, &mut seats, load)?;
    let Some(drivers) = drivers_of(alloc, seats, load) else {
        bail!("memory was refused");
    };
    Ok(LoadCallers {
        drivers,
        taker,
        holder,
    })
}

/// Makes the rounds of all drivers, on threads or in turn. None if a call fails.
fn drive_all<N: Name + Send + Sync, T: KeyTable + Send, H: Threads + Wait + Sync>(
    threads: &H,
    alloc: Global,
    table: &Table<N, T>,
    keys: &[Key],
    drivers: Vec<Driver<N>>,
    at_once: bool,
) -> Option<Vec<Driver<N>>> {
    if !at_once {
        return drive_in_turn(threads, alloc, table, keys, drivers);
    }
    let came = map_vec(
        threads,
        drivers,
        &|driver: Driver<N>| -> Option<Driver<N>> { drive(threads, alloc, table, keys, driver) },
    );
    all_of(alloc, came.ok()?)
}

/// Makes the rounds of all drivers while the taker takes the steps. None if a call fails or steps are lost.
fn drive_beside<N: Name + Send + Sync, T: KeyTable + Send, H: Threads + Wait + Clock + Sync>(
    threads: &H,
    alloc: Global,
    table: &Table<N, T>,
    keys: &[Key],
    crew: LoadCallers<N>,
    at_once: bool,
) -> Option<LoadCallers<N>> {
    let LoadCallers {
        drivers,
        taker,
        holder,
    } = crew;
    let Some(taker) = taker else {
        let drivers = drive_all(threads, alloc, table, keys, drivers, at_once)?;
        return Some(LoadCallers {
            drivers,
            taker: None,
            holder,
        });
    };
    let flag = AtomicBool::new(false);
    let done = &flag;
    let (driven, taken) = join(
        threads,
        move || {
            let driven = drive_all(threads, alloc, table, keys, drivers, at_once);
            done.store(true, Ordering::SeqCst);
            driven
        },
        move || take_until(threads, alloc, table, taker, done),
    );
    Some(LoadCallers {
        drivers: driven?,
        taker: Some(taken?),
        holder,
    })
}

/// The seats of the drivers and of the holder, and the counts. None if an allocation fails.
fn seats_of<N: Name>(
    alloc: Global,
    drivers: Vec<Driver<N>>,
    holder: Option<Seat<N>>,
) -> Option<(Vec<Seat<N>>, Tally)> {
    let (mut seats, tally) = gathered(alloc, drivers)?;
    let Some(seat) = holder else {
        return Some((seats, tally));
    };
    seats.push(seat).ok()?;
    Some((seats, tally))
}

/// The seats of all callers, the steps that were taken, and the counts. None if an allocation fails.
fn dismissed<N: Name>(
    alloc: Global,
    crew: LoadCallers<N>,
) -> Option<(Vec<Seat<N>>, Vec<Piece>, Tally)> {
    let LoadCallers {
        drivers,
        taker,
        holder,
    } = crew;
    let (mut seats, tally) = seats_of(alloc, drivers, holder)?;
    let Some(taker) = taker else {
        return Some((seats, Vec::new(alloc), tally));
    };
    let (seat, pieces) = taker.into_pieces(alloc)?;
    seats.push(seat).ok()?;
    Some((seats, pieces, tally))
}

/// The result of a load.
#[derive(Drop)]
struct LoadRun {
    ending: Ending,
    tally: Tally,
    spent: Spent,
}

/// Makes the rounds and times them, from the first call to the last.
fn timed<N: Name + Send + Sync, T: KeyTable + Send, H: Threads + Wait + Clock + CpuClock + Sync>(
    threads: &H,
    alloc: Global,
    table: &Table<N, T>,
    keys: &[Key],
    crew: LoadCallers<N>,
    at_once: bool,
) -> anyhow::Result<(LoadCallers<N>, Spent)> {
    let start = Start::now(threads)?;
    let driven = drive_beside(threads, alloc, table, keys, crew, at_once);
    let spent = start.spent(threads)?;
    let Some(crew) = driven else {
        bail!("a call was refused");
    };
    Ok((crew, spent))
}

/// Closes the table with the seats of its callers. None if the close or an allocation fails, or what is left does
/// not continue what was taken.
fn close_with<N: Name, T: KeyTable + Drop, H: Wait>(
    rt: &H,
    alloc: Global,
    table: Table<N, T>,
    crew: LoadCallers<N>,
    keeping: Keeping,
) -> Option<(Ending, Tally)> {
    let (seats, pieces, tally) = dismissed(alloc, crew)?;
    let ending = close(rt, alloc, table, seats, keeping, pieces)?;
    Some((ending, tally))
}

/// Opens a table, plays the load on it, and closes it.
fn play<N: Name + Send + Sync, H: Threads + Wait + Clock + CpuClock + Sync>(
    threads: &H,
    alloc: Global,
    ready: Ready,
    load: &Load,
    keys: &[Key],
) -> anyhow::Result<LoadRun>
    requires named { ready.of ≡ N.of }
    requires many { ready.of.shards ≡ load.now.shards }
    requires keeping { ready.of.keeping ≡ load.now.keeping }
{
    // A fixed start, so that a figure can be repeated.
    let (table, passes) = open::<N>(alloc, ready, 0)?;
    let Some(seats) = seated::<N>(alloc, passes) else {
        bail!("memory was refused");
    };
    let crew = crew_of(threads, alloc, &table, seats, load)?;
    let (crew, spent) = timed(threads, alloc, &table, keys, crew, load.threads)?;
    let Some((ending, tally)) = close_with(threads, alloc, table, crew, load.keeping) else {
        bail!("the table was not closed");
    };
    Ok(LoadRun {
        ending,
        tally,
        spent,
    })
}

/// The configuration of the load's table. It has a pass for each caller, and each shard has room for as many steps as
/// a shard may make or, if steps are taken out, for [`STORED`].
fn config_of(load: &Load) -> Config
    ensures { result.shards ≡ load.now.shards }
{
    let max_steps = match load.keeping {
        Keeping::Whole | Keeping::Unrecorded => 1 << 32,
        Keeping::Streamed => STORED,
    };
    Config {
        shards: load.shards,
        passes: load.passes.saturating_add(load.further_passes()),
        max_steps,
        max_requests: MAX_REQUEST,
        max_waits: MAX_WAIT,
    }
}

/// Prints the value of an option, if the command line gave it one.
fn tell_given<R: Runtime>(rt: &R, name: &str, value: Option<u64>) -> anyhow::Result<()> {
    if let Some(n) = value {
        print!(rt; " {name}={n}")?;
    }
    Ok(())
}

/// Prints the parameters of the load.
fn tell_load<R: Runtime>(rt: &R, load: &Load) -> anyhow::Result<()> {
    let at_once = if load.threads { load.passes } else { 1 };
    print!(rt;
        "passes={} keys={} shards={} threads={at_once}",
        load.passes, load.keys, load.shards
    )?;
    let waits = if load.waits { "sleep" } else { "poll" };
    print!(rt; " history={} waiting={waits}", name_of(load.keeping))?;
    tell_given(rt, "held", load.held)?;
    tell_given(rt, "key_bytes", load.key_bytes)
}

/// Prints the counts of the requests.
fn tell_requests<R: Runtime>(rt: &R, tally: &Tally) -> anyhow::Result<()> {
    print!(rt; " proceeds={} waits={}", tally.proceeds, tally.waits)?;
    println!(rt; " lets={} gave_up={}", tally.lets, tally.gave_up)?;
    Ok(())
}

/// Writes the histories to the named file. Does nothing if `name` is None.
fn write_trace<F: Files>(
    files: &F,
    alloc: Global,
    ending: &Ending,
    name: Option<&str>,
) -> anyhow::Result<()> {
    let Some(name) = name else {
        return Ok(());
    };
    let mut file = File::create(files, name)?;
    print(alloc, &ending.histories, &mut file)?;
    Ok(())
}

/// Plays the load, prints one line with its times and counts, and writes the trace to the file, if one is named.
/// The counts are those of the rounds. An error if the table's number of steps differs from the number that the calls
/// reported.
pub fn report<H: Threads + Wait + Clock + CpuClock + Sync, R: Runtime>(
    threads: &H,
    rt: &R,
    alloc: Global,
    load: &Load,
    trace: Option<&str>,
) -> anyhow::Result<()> {
    let Some(keys) = keys_of(alloc, load) else {
        bail!("memory was refused");
    };
    if keys.is_empty() {
        bail!("there is no key");
    }
    let ready = prepare_with(alloc, config_of(load), load.keeping)?;
    let played = play::<Brand, H>(threads, alloc, ready, load, &keys)?;
    let reported = played.tally.steps.saturating_add(load.held_locks());
    if played.ending.steps != reported {
        bail!("the table has another number of steps than the calls reported");
    }
    tell_load(rt, load)?;
    tell_times(rt, played.tally.steps, &played.spent)?;
    tell_requests(rt, &played.tally)?;
    write_trace(rt, alloc, &played.ending, trace)
}

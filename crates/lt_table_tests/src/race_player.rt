//! Four threads work at once on a whole table.
ghost use Rattle.std.specs.Prelude.{◌≡◌};

use crate::work::{ThreadsRun, limits, lines_of, work_all, workers_of};
use lt_table::{Ready, open, prepare};
use lt_test_kit::run::{close_all, seated};
use lt_words::Name;
use std::alloc::Global;
use std::marker::Brand;
use std::sync::Wait;
use std::thread::Threads;

fn race_named<N: Name + Send + Sync, R: Threads + Wait + Sync>(
    rt: &R,
    alloc: Global,
    ready: Ready,
) -> Option<ThreadsRun>
    requires { ready.of ≡ N.of }
{
    let (table, passes) = open::<N>(alloc, ready, 0).ok()?;
    let workers = workers_of(alloc, seated::<N>(alloc, passes)?)?;
    let worked = work_all(rt, alloc, &table, workers).ok()?;
    let mut seats = Vec::new(alloc);
    let lines = lines_of(alloc, worked, &mut seats)?;
    let histories = close_all(rt, alloc, table, seats)?;
    Some(ThreadsRun {
        lines,
        shards: histories.shards,
        pieces: 0,
        draws: histories.draws,
    })
}

/// Has four threads work at once on a whole table of two shards and four passes.
pub fn race<R: Threads + Wait + Sync>(rt: &R, alloc: Global) -> Option<ThreadsRun> {
    let ready = prepare(alloc, limits()).ok()?;
    race_named::<Brand, R>(rt, alloc, ready)
}

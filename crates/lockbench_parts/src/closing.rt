//! How is a table closed, for each way in which it keeps its steps? [`close`] joins the steps that were taken
//! while it ran with those that are left.
//!
//! [`crate::taking`] takes the steps of a streamed table. Each job calls [`close`] at the end.
use crate::taking::Piece;
use lt_entry::Entry;
use lt_rules::KeyTable;
use lt_table::{Histories, Keeping, Rest, Rests, Table};
use lt_test_kit::run::{close_all, gather};
use lt_test_kit::seat::Seat;
use lt_words::Name;
use std::alloc::Global;
use std::sync::Wait;

/// The result of a closed table.
#[derive(Drop)]
pub struct Ending {
    /// The history of each shard. An unrecorded table has none. A streamed table whose taken steps were not kept
    /// has only the last steps, those that were left at the close.
    pub histories: Vec<Vec<Entry>>,
    /// The number of steps that were made.
    pub steps: u64,
    /// The number of request numbers that were drawn.
    pub draws: u64,
}

/// The number of steps in the histories.
fn steps_in(histories: &Histories) -> u64 {
    let mut steps = 0u64;
    for history in &histories.shards {
        steps = steps.saturating_add(history.len() as u64);
    }
    steps
}

/// The number of steps that the shards made, given what is left of each: the steps before it and its own.
fn steps_before(rests: &[Rest]) -> u64 {
    let mut steps = 0u64;
    for rest in rests {
        let made = rest.from.saturating_add(rest.entries.len() as u64);
        steps = steps.saturating_add(made);
    }
    steps
}

/// Closes the table and returns the steps that are left. None if the close fails.
fn close_rest<N: Name, T: KeyTable + Drop, R: Wait>(
    rt: &R,
    alloc: Global,
    table: Table<N, T>,
    seats: Vec<Seat<N>>,
) -> Option<Rests> {
    let Ok((passes, guards)) = gather(alloc, seats) else {
        return None;
    };
    match table.close_rest(rt, alloc, passes, guards) {
        Ok(rests) => Some(rests),
        Err(refused) => {
            refused.abandon();
            None
        }
    }
}

/// Each shard's taken steps, followed by those that are left. None if what is left does not continue what was
/// taken, or an allocation fails.
fn joined(alloc: Global, pieces: Vec<Piece>, rests: Vec<Rest>) -> Option<Vec<Vec<Entry>>> {
    let mut histories = Vec::new(alloc);
    let mut rests = rests.into_iter();
    for piece in pieces {
        let Rest {
            from,
            entries: mut rest,
        } = rests.next()?;
        let Piece { count, mut entries } = piece;
        if from != count {
            return None;
        }
        entries.append(&mut rest).ok()?;
        histories.push(entries).ok()?;
    }
    Some(histories)
}

/// Closes a table that keeps its steps in the given way and from which these pieces were taken. None if the close
/// fails, an allocation fails, or what is left does not continue what was taken.
pub fn close<N: Name, T: KeyTable + Drop, R: Wait>(
    rt: &R,
    alloc: Global,
    table: Table<N, T>,
    seats: Vec<Seat<N>>,
    keeping: Keeping,
    pieces: Vec<Piece>,
) -> Option<Ending> {
    if keeping == Keeping::Whole {
        let histories = close_all(rt, alloc, table, seats)?;
        let steps = steps_in(&histories);
        let Histories { shards, draws } = histories;
        return Some(Ending {
            histories: shards,
            steps,
            draws,
        });
    }
    let Rests { shards, draws } = close_rest(rt, alloc, table, seats)?;
    let steps = steps_before(&shards);
    let histories = joined(alloc, pieces, shards)?;
    Some(Ending {
        histories,
        steps,
        draws,
    })
}

//! Closes a table without its last pass, which the table refuses, and then with all its passes.
ghost use Rattle.std.specs.Prelude.{◌≡◌};

use lt_rules::KeyTable;
use lt_table::{
    CloseError, CloseRefused, Config, Histories, Ready, Table, abandon_guards, open, prepare,
};
use lt_test_kit::run::{close_all, gather, seated};
use lt_test_kit::seat::Seat;
use lt_words::Name;
use std::alloc::Global;
use std::marker::Brand;
use std::sync::Wait;

/// The error of the close without the last pass, and the histories of the close with all passes.
#[derive(Drop)]
pub struct Closed {
    pub refused: CloseError,
    /// How many passes the refused close gave back.
    pub back: usize,
    pub histories: Histories,
}

/// Closes the table without its last pass. Returns the table, the passes that came back and the error. `None` if
/// the close is not refused, or an allocation fails.
fn close_early<N: Name, T: KeyTable + Drop, R: Wait>(
    rt: &R,
    alloc: Global,
    table: Table<N, T>,
    seats: Vec<Seat<N>>,
) -> Option<(Table<N, T>, Vec<Seat<N>>, CloseError)> {
    let Ok((passes, guards)) = gather(alloc, seats) else {
        return None;
    };
    let Err(refused) = table.close(rt, alloc, passes, guards) else {
        return None;
    };
    let CloseRefused {
        table,
        passes,
        guards,
        error,
    } = refused;
    abandon_guards(guards);
    let seats = seated::<N>(alloc, passes)?;
    Some((table, seats, error))
}

/// Closes the table without its last pass, and then with all its passes.
fn close_both<N: Name, T: KeyTable + Drop, R: Wait>(
    rt: &R,
    alloc: Global,
    table: Table<N, T>,
    mut seats: Vec<Seat<N>>,
) -> Option<Closed> {
    let last = seats.pop()?;
    let (table, mut seats, refused) = close_early(rt, alloc, table, seats)?;
    let back = seats.len();
    seats.push(last).ok()?;
    let histories = close_all(rt, alloc, table, seats)?;
    Some(Closed {
        refused,
        back,
        histories,
    })
}

fn close_twice_named<N: Name, R: Wait>(rt: &R, alloc: Global, ready: Ready) -> Option<Closed>
    requires { ready.of ≡ N.of }
{
    let (table, passes) = open::<N>(alloc, ready, 0).ok()?;
    let seats = seated::<N>(alloc, passes)?;
    close_both(rt, alloc, table, seats)
}

/// Closes a new table without its last pass, and then with all its passes.
pub fn close_twice<R: Wait>(rt: &R, alloc: Global, config: Config) -> Option<Closed> {
    let ready = prepare(alloc, config).ok()?;
    close_twice_named::<Brand, R>(rt, alloc, ready)
}

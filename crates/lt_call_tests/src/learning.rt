//! A waiting request learns the prefix that another request has seen, and then finds out that it was let through.
ghost use Rattle.std.specs.Prelude.{◌≡◌};

use crate::playing::{config, outcomes_of};
use crate::text::rows_of;
use lt_rules::KeyTable;
use lt_table::{Config, Ready, Table, open, prepare};
use lt_test_kit::command::CommandRow;
use lt_test_kit::play::PlayedCommand;
use lt_test_kit::run::{TableAtWork, close_all, play_rows, seated};
use lt_test_kit::seat::Seat;
use lt_words::Name;
use std::alloc::Global;
use std::marker::Brand;
use std::sync::Wait;
use std::test::Fail;

/// The second request takes the lock of the key for which the first one waits, and frees it.
const BEFORE: &'static str =
    "1 enter 2 10 bw 0\n1 acquire 2 10 a\n0 enter 1 10 aw 0\n0 scan\n0 poll\n1 finish 2 a\n";

/// The guard of the first seat learns what the guard of the second seat has seen.
fn learn<N: Name>(one: Seat<N>, two: Seat<N>) -> Option<(Seat<N>, Seat<N>)> {
    let teacher = two.into_guard()?;
    let Some(mut learner) = one.into_guard() else {
        teacher.abandon();
        return None;
    };
    learner.learn(&teacher.seen());
    Some((Seat::open(learner), Seat::open(teacher)))
}

/// The seat at index 0 learns what the seat at index 1 has seen.
fn learn_from_the_other<N: Name>(seats: &mut Vec<Seat<N>>) -> Option<()> {
    let two = seats.pop()?;
    let one = seats.pop()?;
    let (one, two) = learn(one, two)?;
    seats.push(one).ok()?;
    seats.push(two).ok()
}

/// Plays the rows of `before`, has the first request learn what the second has seen, and plays the rows of
/// `after`.
fn learn_on<N: Name, T: KeyTable, R: Wait>(
    rt: &R,
    alloc: Global,
    table: &Table<N, T>,
    work: &mut TableAtWork<N>,
    before: &[CommandRow],
    after: &[CommandRow],
) -> Option<()> {
    play_rows(rt, alloc, table, work, before, &[])?;
    learn_from_the_other(&mut work.seats)?;
    play_rows(rt, alloc, table, work, after, &[])
}

fn learn_named<N: Name, R: Wait>(
    rt: &R,
    alloc: Global,
    ready: Ready,
    before: &[CommandRow],
    after: &[CommandRow],
) -> Option<Vec<PlayedCommand>>
    requires { ready.of ≡ N.of }
{
    let (table, passes) = open::<N>(alloc, ready, 0).ok()?;
    let mut work = TableAtWork::new(alloc, seated::<N>(alloc, passes)?);
    learn_on(rt, alloc, &table, &mut work, before, after)?;
    let TableAtWork { seats, lines, .. } = work;
    close_all(rt, alloc, table, seats)?;
    Some(lines)
}

fn learn_in<R: Wait>(rt: &R, alloc: Global, config: Config) -> Option<String> {
    let before = rows_of(alloc, BEFORE)?;
    let after = rows_of(alloc, "0 poll\n")?;
    let ready = prepare(alloc, config).ok()?;
    let lines = learn_named::<Brand, R>(rt, alloc, ready, &before, &after)?;
    outcomes_of(alloc, &lines)
}

/// The request that freed the lock has seen the let. The waiting request learns this, and its next poll says that
/// the wait is over.
#[test]
fn a_request_learns_that_it_was_let_through(rt: HostRuntime) -> Result<(), Fail> {
    let outcomes = learn_in(&rt, rt.alloc(), config(1, 2)).ok_or("the run")?;
    assert_eq!(rt;
        outcomes.as_str(),
        "- Entered(1)\n0 Stepped(Taken)\n- Entered(2)\n- Scanned(Waiting(0)) [MustWait]\n- Polled(Waiting)\n2 Stepped(Freed)\n- Polled(Through)\n"
    );
    Ok(())
}

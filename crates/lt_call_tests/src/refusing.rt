//! How is a script played on a table with any way of keeping its steps?
//! A script has two parts of commands and questions. A table that streams its steps or records none has a take
//! between the parts. A call that runs out of memory is noted and made again. Read next `refusals`, which has the
//! tests.
ghost use Rattle.std.specs.Prelude.{◌≡◌, ◌≢◌};

use lt_entry::Entry;
use lt_rules::KeyTable;
use lt_table::{Config, Keeping, Ready, Rests, Table, open, prepare_with};
use lt_test_kit::asking::{Question, TableAnswer};
use lt_test_kit::command::{CommandRow, TableCall};
use lt_test_kit::key::key_of;
use lt_test_kit::play::PlayedCommand;
use lt_test_kit::run::{TableAtWork, play_rows, rests_through, seated};
use lt_test_kit::seat::Seat;
use lt_words::Name;
use std::alloc::Global;
use std::marker::Brand;
use std::sync::Wait;

/// Commands, each with the question that follows it, if any.
#[derive(Clone, Copy)]
pub struct Part<'a> {
    pub rows: &'a [CommandRow],
    pub questions: &'a [Option<Question>],
}

/// The part before the take and the part after it.
#[derive(Clone, Copy)]
pub struct TakeScript<'a> {
    pub before: Part<'a>,
    pub after: Part<'a>,
}

/// The steps that were taken, and the index of the first.
#[derive(Drop)]
pub struct Taken {
    pub from: u64,
    pub steps: Vec<Entry>,
}

/// The results of a run, and the calls that ran out of memory and were made again.
#[derive(Drop)]
pub struct Done {
    pub lines: Vec<PlayedCommand>,
    pub sights: Vec<TableAnswer>,
    pub taken: Taken,
    pub rests: Rests,
    pub refused: Vec<TableCall>,
}

/// Takes out what the shard of the key a holds, by the last seat. This allocates nothing.
fn take<N: Name, T: KeyTable, R: Wait>(
    rt: &R,
    alloc: Global,
    table: &Table<N, T>,
    seats: &mut Vec<Seat<N>>,
) -> Option<Taken>
    requires { N.of.keeping ≢ Keeping.Whole }
{
    let shard = table.shard_of(&key_of(alloc, b'a')?);
    let mut steps = Vec::new(alloc);
    let mut pass = seats.pop()?.into_pass()?;
    let from = table.take_history(rt, &mut pass, shard, &mut steps);
    seats.push(Seat::free(pass)).ok()?;
    Some(Taken { from, steps })
}

/// Closes the table and collects the results.
fn close<N: Name, T: KeyTable + Drop, R: Wait>(
    rt: &R,
    alloc: Global,
    table: Table<N, T>,
    work: TableAtWork<N>,
    taken: Taken,
) -> Option<Done> {
    let TableAtWork {
        seats,
        lines,
        sights,
        mut refused,
    } = work;
    let rests = rests_through(rt, alloc, table, seats, &mut refused)?;
    Some(Done {
        lines,
        sights,
        taken,
        rests,
        refused,
    })
}

/// Plays one part.
fn play<N: Name, T: KeyTable, R: Wait>(
    rt: &R,
    alloc: Global,
    table: &Table<N, T>,
    work: &mut TableAtWork<N>,
    part: Part<'_>,
) -> Option<()> {
    play_rows(rt, alloc, table, work, part.rows, part.questions)
}

/// Plays both parts, with a take between them.
fn play_around_a_take<N: Name, T: KeyTable, R: Wait>(
    rt: &R,
    alloc: Global,
    table: &Table<N, T>,
    work: &mut TableAtWork<N>,
    script: TakeScript<'_>,
) -> Option<Taken>
    requires { N.of.keeping ≢ Keeping.Whole }
{
    play(rt, alloc, table, work, script.before)?;
    let taken = take(rt, alloc, table, &mut work.seats)?;
    play(rt, alloc, table, work, script.after)?;
    Some(taken)
}

/// Plays both parts without a take.
fn play_both<N: Name, T: KeyTable, R: Wait>(
    rt: &R,
    alloc: Global,
    table: &Table<N, T>,
    work: &mut TableAtWork<N>,
    script: TakeScript<'_>,
) -> Option<Taken> {
    play(rt, alloc, table, work, script.before)?;
    play(rt, alloc, table, work, script.after)?;
    Some(Taken {
        from: 0,
        steps: Vec::new(alloc),
    })
}

fn whole_named<N: Name, R: Wait>(
    rt: &R,
    alloc: Global,
    ready: Ready,
    script: TakeScript<'_>,
) -> Option<Done>
    requires { ready.of ≡ N.of }
{
    let (table, passes) = open::<N>(alloc, ready, 0).ok()?;
    let mut work = TableAtWork::new(alloc, seated::<N>(alloc, passes)?);
    let taken = play_both(rt, alloc, &table, &mut work, script)?;
    close(rt, alloc, table, work, taken)
}

fn taken_named<N: Name, R: Wait>(
    rt: &R,
    alloc: Global,
    ready: Ready,
    script: TakeScript<'_>,
) -> Option<Done>
    requires of { ready.of ≡ N.of }
    requires keeping { N.of.keeping ≢ Keeping.Whole }
{
    let (table, passes) = open::<N>(alloc, ready, 0).ok()?;
    let mut work = TableAtWork::new(alloc, seated::<N>(alloc, passes)?);
    let taken = play_around_a_take(rt, alloc, &table, &mut work, script)?;
    close(rt, alloc, table, work, taken)
}

/// Plays the script on a whole table. `None` if an allocation fails outside the calls of the rows, the questions
/// and the close.
pub fn play_whole<R: Wait>(
    rt: &R,
    alloc: Global,
    config: Config,
    script: TakeScript<'_>,
) -> Option<Done> {
    let ready = prepare_with(alloc, config, Keeping::Whole).ok()?;
    whole_named::<Brand, R>(rt, alloc, ready, script)
}

/// Plays the script on a table that streams its steps or records none, with a take between the parts. `None` as
/// for a whole table.
pub fn play_taken<R: Wait>(
    rt: &R,
    alloc: Global,
    config: Config,
    keeping: Keeping,
    script: TakeScript<'_>,
) -> Option<Done>
    requires { keeping ≢ Keeping.Whole }
{
    let ready = prepare_with(alloc, config, keeping).ok()?;
    taken_named::<Brand, R>(rt, alloc, ready, script)
}

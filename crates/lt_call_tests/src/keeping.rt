//! How are lines of text played on a table that streams its steps or records none?
//!
//! Two kinds of line come on top of those of `text`: `take` takes out all that the shard of the key a holds, and
//! `read` gives a reader of that shard the steps that it has not received yet. The last pass does both, and
//! nothing else. Read next `kept`, which has the tests.
ghost use Rattle.std.specs.Prelude.{◌≡◌, ◌≢◌, ◌<◌, []};

use crate::playing::{put_line, put_steps};
use crate::text::call_of;
use lt_entry::Entry;
use lt_rules::KeyTable;
use lt_table::{
    CloseError, CloseRefused, Config, Gone, Keeping, Reader, Ready, Rests, Table, open,
    prepare_with,
};
use lt_test_kit::command::TableCommand;
use lt_test_kit::key::key_of;
use lt_test_kit::play::play;
use lt_test_kit::run::{gather, seated};
use lt_test_kit::seat::Seat;
use lt_words::Name;
use std::alloc::Global;
use std::marker::Brand;
use std::sync::Wait;

/// What a line asks for.
#[derive(Drop)]
enum Act {
    /// The pass at this index, from 0, makes the call.
    Play(usize, TableCommand),
    Take,
    Read,
}

fn act_of(alloc: Global, line: &str) -> Option<Act> {
    match line {
        "take" => Some(Act::Take),
        "read" => Some(Act::Read),
        _ => {
            let (index, command) = call_of(alloc, line)?;
            Some(Act::Play(index, command))
        }
    }
}

fn acts_of(alloc: Global, lines: &str) -> Option<Vec<Act>> {
    let mut acts = Vec::new(alloc);
    for line in lines.lines() {
        acts.push(act_of(alloc, line)?).ok()?;
    }
    Some(acts)
}

/// The results of a run, as text.
#[derive(Drop)]
pub struct KeptRun {
    pub texts: Texts,
    /// A line for each shard: how many steps it still has, and the index of the first.
    pub rests: String,
    pub draws: u64,
    /// The error of a close for whole histories.
    pub refused: CloseError,
}

/// The results so far, as text.
#[derive(Drop)]
pub struct Texts {
    /// What each line came to. For a call: its outcome, as in `outcomes`. For a take or a read: how many steps it gave
    /// and the index of the first, or the index before which the steps are gone.
    pub came: String,
    /// The outcome of each call, in the format that `playing` uses for a whole table.
    pub outcomes: String,
    /// The steps that were taken out, in order, a line each. At the end of a run the steps that were left follow.
    pub steps: String,
}

impl Texts {
    fn new(alloc: Global) -> Self {
        Texts {
            came: String::new(alloc),
            outcomes: String::new(alloc),
            steps: String::new(alloc),
        }
    }
}

/// The caller that takes steps out: its own seat, its reader, and the buffer that it passes in.
#[derive(Drop)]
struct SingleShardTaker<N: Name> {
    seat: Seat<N>,
    reader: Reader,
    room: Vec<Entry>,
    ghost shard: { reader.shard < N.of.shards },
    ghost empty: { room.items ≡ [] },
}

fn take<N: Name, T: KeyTable, R: Wait>(
    rt: &R,
    table: &Table<N, T>,
    taker: SingleShardTaker<N>,
    texts: &mut Texts,
) -> Option<SingleShardTaker<N>>
    requires { N.of.keeping ≢ Keeping.Whole }
{
    let SingleShardTaker {
        seat,
        reader,
        mut room,
    } = taker;
    let mut pass = seat.into_pass()?;
    let from = table.take_history(rt, &mut pass, reader.shard, &mut room);
    let seat = Seat::free(pass);
    put_taken(texts, from, &room)?;
    room.clear();
    Some(SingleShardTaker { seat, reader, room })
}

/// Appends a line for steps that were taken out: how many, and the index of the first. Appends the steps as well.
fn put_taken(texts: &mut Texts, from: u64, steps: &[Entry]) -> Option<()> {
    writeln!(texts.came, "{} from {from}", steps.len()).ok()?;
    put_steps(&mut texts.steps, steps)
}

/// Appends what a read gave.
fn put_read(texts: &mut Texts, from: u64, given: Result<(), Gone>, steps: &[Entry]) -> Option<()> {
    match given {
        Ok(()) => put_taken(texts, from, steps),
        Err(Gone(before)) => writeln!(texts.came, "gone {before}").ok(),
    }
}

fn read<N: Name, T: KeyTable, R: Wait>(
    rt: &R,
    table: &Table<N, T>,
    taker: SingleShardTaker<N>,
    texts: &mut Texts,
) -> Option<SingleShardTaker<N>>
    requires { N.of.keeping ≢ Keeping.Whole }
{
    let SingleShardTaker {
        seat,
        mut reader,
        mut room,
    } = taker;
    let from = reader.next;
    let mut pass = seat.into_pass()?;
    let given = table.take_next(rt, &mut pass, &mut reader, &mut room);
    let seat = Seat::free(pass);
    put_read(texts, from, given, &room)?;
    room.clear();
    Some(SingleShardTaker { seat, reader, room })
}

/// Plays a call by the pass at this index, and appends its outcome.
fn play_at<N: Name, T: KeyTable, R: Wait>(
    rt: &R,
    alloc: Global,
    table: &Table<N, T>,
    seats: &mut Vec<Seat<N>>,
    call: (usize, &TableCommand),
    texts: &mut Texts,
) -> Option<()> {
    let (index, command) = call;
    if index >= seats.len() {
        return None;
    }
    let seat = seats.remove(index);
    let (seat, line) = play(rt, alloc, table, seat, command)?;
    seats.insert(index, seat).ok()?;
    put_line(&mut texts.outcomes, &line)?;
    put_line(&mut texts.came, &line)
}

/// The state of a run: the passes that make calls, the caller that takes steps out, and the results so far.
#[derive(Drop)]
struct KeepingTable<N: Name> {
    seats: Vec<Seat<N>>,
    taker: SingleShardTaker<N>,
    texts: Texts,
}

fn act_on<N: Name, T: KeyTable, R: Wait>(
    rt: &R,
    alloc: Global,
    table: &Table<N, T>,
    work: KeepingTable<N>,
    act: &Act,
) -> Option<KeepingTable<N>>
    requires { N.of.keeping ≢ Keeping.Whole }
{
    let KeepingTable {
        mut seats,
        mut taker,
        mut texts,
    } = work;
    match act {
        Act::Play(index, command) => {
            play_at(rt, alloc, table, &mut seats, (*index, command), &mut texts)?;
        }
        Act::Take => taker = take(rt, table, taker, &mut texts)?,
        Act::Read => taker = read(rt, table, taker, &mut texts)?,
    }
    Some(KeepingTable {
        seats,
        taker,
        texts,
    })
}

/// Closes the table for whole histories, which must be refused, and then for what is left.
fn close_twice<N: Name, T: KeyTable + Drop, R: Wait>(
    rt: &R,
    alloc: Global,
    table: Table<N, T>,
    seats: Vec<Seat<N>>,
) -> Option<(CloseError, Rests)> {
    let Ok((passes, guards)) = gather(alloc, seats) else {
        return None;
    };
    match table.close(rt, alloc, passes, guards) {
        Ok(_) => None,
        Err(refused) => {
            let CloseRefused {
                table,
                passes,
                guards,
                error,
            } = refused;
            match table.close_rest(rt, alloc, passes, guards) {
                Ok(rests) => Some((error, rests)),
                Err(refused) => {
                    refused.abandon();
                    None
                }
            }
        }
    }
}

/// The state before the first line. The last pass takes steps out of the shard of the key a.
fn work_of<N: Name, T: KeyTable>(
    alloc: Global,
    table: &Table<N, T>,
    mut seats: Vec<Seat<N>>,
) -> Option<KeepingTable<N>> {
    let key = key_of(alloc, b'a')?;
    let seat = seats.pop()?;
    let taker = SingleShardTaker {
        seat,
        reader: Reader {
            shard: table.shard_of(&key),
            next: 0,
        },
        room: Vec::new(alloc),
    };
    Some(KeepingTable {
        seats,
        taker,
        texts: Texts::new(alloc),
    })
}

/// Appends the steps that are left to `steps`. Returns a line for each shard: how many are left, and the index of
/// the first.
fn rests_of(alloc: Global, steps: &mut String, rests: &Rests) -> Option<String> {
    let mut text = String::new(alloc);
    for rest in &rests.shards {
        put_steps(steps, &rest.entries)?;
        writeln!(text, "{} from {}", rest.entries.len(), rest.from).ok()?;
    }
    Some(text)
}

fn close<N: Name, T: KeyTable + Drop, R: Wait>(
    rt: &R,
    alloc: Global,
    table: Table<N, T>,
    work: KeepingTable<N>,
) -> Option<KeptRun> {
    let KeepingTable {
        mut seats,
        taker,
        mut texts,
    } = work;
    seats.push(taker.seat).ok()?;
    let (refused, rests) = close_twice(rt, alloc, table, seats)?;
    let text = rests_of(alloc, &mut texts.steps, &rests)?;
    Some(KeptRun {
        texts,
        rests: text,
        draws: rests.draws,
        refused,
    })
}

fn keep_named<N: Name, R: Wait>(
    rt: &R,
    alloc: Global,
    ready: Ready,
    acts: &[Act],
) -> Option<KeptRun>
    requires of { ready.of ≡ N.of }
    requires keeping { N.of.keeping ≢ Keeping.Whole }
{
    let (table, passes) = open::<N>(alloc, ready, 0).ok()?;
    let mut work = work_of(alloc, &table, seated::<N>(alloc, passes)?)?;
    for act in acts {
        work = act_on(rt, alloc, &table, work, act)?;
    }
    close(rt, alloc, table, work)
}

/// Plays the lines on a table over linked queues.
pub fn keep<R: Wait>(
    rt: &R,
    alloc: Global,
    config: Config,
    keeping: Keeping,
    lines: &str,
) -> Option<KeptRun>
    requires { keeping ≢ Keeping.Whole }
{
    let acts = acts_of(alloc, lines)?;
    let ready = prepare_with(alloc, config, keeping).ok()?;
    keep_named::<Brand, R>(rt, alloc, ready, &acts)
}

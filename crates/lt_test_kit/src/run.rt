//! How is a table of rows played? [`play_all`] plays them on an open table, asks questions in between, and closes
//! the table.
//!
//! A row names a pass by its index, a command, and the expected outcome. The commands run in order, one after the
//! other. A call that runs out of memory is noted and made a second time. The caller compares the outcomes with
//! the rows. Read [`crate::play`] next for how one command becomes a call.
ghost use Rattle.std.specs.Prelude.{◌≡◌, ◌++◌, ◌∷◌, [], IfOk, IsTrue};
ghost use Rattle.std.specs.List.{All};

use crate::asking::{Question, TableAnswer, ask_through};
use crate::command::{CommandRow, TableCall, TableCommand};
use crate::holds::Holds;
use crate::play::{PlayedCommand, play};
use crate::seat::Seat;
use lt_rules::{KeyTable, Reply};
use lt_table_core::{CloseError, CloseRefused, Guard, Histories, Rests, Table, abandon_guards};
use lt_words::{Name, Pass, abandon_all};
use std::alloc::{AllocError, Global};
use std::sync::Wait;

/// The result of a run: one line for each command, the answers to the questions, the histories, and the calls that
/// ran out of memory and were made again.
#[derive(Drop)]
pub struct TableRun {
    pub lines: Vec<PlayedCommand>,
    pub sights: Vec<TableAnswer>,
    pub histories: Histories,
    pub refused: Vec<TableCall>,
}

/// One seat for each pass, in order. If an allocation fails, the passes are given up.
pub fn seated<N: Name>(alloc: Global, passes: Vec<Pass>) -> Option<Vec<Seat<N>>>
    requires { All (λ p. p.of ≡ N.of) passes.items }
{
    let Ok(mut seats) = Vec::with_capacity(alloc, passes.len()) else {
        abandon_all(passes);
        return None;
    };
    let mut rest = passes.into_iter();
    while let Some(pass) = rest.next() {
        seats.push_reserved(Seat::free(pass));
    }
    rest.destroy_empty();
    Some(seats)
}

/// Appends the pass. If an allocation fails, the pass is given up and the result is false.
fn put_pass(passes: &mut Vec<Pass>, pass: Pass) -> bool
    ensures { IsTrue result → passes.new.items ≡ passes.old.items ++ pass ∷ [] }
{
    match passes.push(pass) {
        Ok(()) => true,
        Err(refused) => {
            refused.value.abandon();
            false
        }
    }
}

/// Appends the guard. If an allocation fails, the guard is given up and the result is false.
fn put_guard(guards: &mut Vec<Guard>, guard: Guard) -> bool
    ensures { IsTrue result → guards.new.items ≡ guards.old.items ++ guard ∷ [] }
{
    match guards.push(guard) {
        Ok(()) => true,
        Err(refused) => {
            refused.value.abandon();
            false
        }
    }
}

/// Appends the content of the seat to the passes or to the guards. False if an allocation fails.
fn put<N: Name>(seat: Seat<N>, passes: &mut Vec<Pass>, guards: &mut Vec<Guard>) -> bool
    requires passes { All (λ p. p.of ≡ N.of) passes.old.items }
    requires guards { All (λ g. g.pass.of ≡ N.of) guards.old.items }
    ensures passes { IsTrue result → All (λ p. p.of ≡ N.of) passes.new.items }
    ensures guards { IsTrue result → All (λ g. g.pass.of ≡ N.of) guards.new.items }
{
    match seat.into_holds() {
        Holds::Free(pass) => put_pass(passes, pass),
        Holds::Open(guard) => put_guard(guards, guard),
    }
}

/// Splits the seats into free passes and guards. If an allocation fails, all of them are given up.
pub fn gather<N: Name>(
    alloc: Global,
    seats: Vec<Seat<N>>,
) -> Result<(Vec<Pass>, Vec<Guard>), AllocError>
    ensures passes { IfOk result (λ r. All (λ p. p.of ≡ N.of) r.0.items) }
    ensures guards { IfOk result (λ r. All (λ g. g.pass.of ≡ N.of) r.1.items) }
{
    let mut passes = Vec::new(alloc);
    let mut guards = Vec::new(alloc);
    for seat in seats {
        if !put(seat, &mut passes, &mut guards) {
            abandon_all(passes);
            abandon_guards(guards);
            return Err(AllocError);
        }
    }
    Ok((passes, guards))
}

/// Closes the table with the passes and guards of all seats. A close that runs out of memory returns everything:
/// it is noted in `refusals` and made a second time. None if the second close fails too, or an allocation outside
/// the closes fails.
fn close_through<N: Name, T: KeyTable + Drop, R: Wait>(
    rt: &R,
    alloc: Global,
    table: Table<N, T>,
    seats: Vec<Seat<N>>,
    refusals: &mut Vec<TableCall>,
) -> Option<Histories> {
    let Ok((passes, guards)) = gather(alloc, seats) else {
        return None;
    };
    match table.close(rt, alloc, passes, guards) {
        Ok(histories) => Some(histories),
        Err(refused) => {
            if refused.error != CloseError::Memory || refusals.push(TableCall::Close).is_err() {
                refused.abandon();
                return None;
            }
            let CloseRefused {
                table,
                passes,
                guards,
                error: _,
            } = refused;
            match table.close(rt, alloc, passes, guards) {
                Ok(histories) => Some(histories),
                Err(refused) => {
                    refused.abandon();
                    None
                }
            }
        }
    }
}

/// Closes the table with the passes and guards of all seats. A close that runs out of memory is made a second time.
pub fn close_all<N: Name, T: KeyTable + Drop, R: Wait>(
    rt: &R,
    alloc: Global,
    table: Table<N, T>,
    seats: Vec<Seat<N>>,
) -> Option<Histories> {
    close_through(rt, alloc, table, seats, &mut Vec::new(alloc))
}

/// As [`close_through`], but calls `close_rest`, which returns the steps that were not taken while the table ran.
pub fn rests_through<N: Name, T: KeyTable + Drop, R: Wait>(
    rt: &R,
    alloc: Global,
    table: Table<N, T>,
    seats: Vec<Seat<N>>,
    refusals: &mut Vec<TableCall>,
) -> Option<Rests> {
    let Ok((passes, guards)) = gather(alloc, seats) else {
        return None;
    };
    match table.close_rest(rt, alloc, passes, guards) {
        Ok(rests) => Some(rests),
        Err(refused) => {
            if refused.error != CloseError::Memory || refusals.push(TableCall::CloseRest).is_err() {
                refused.abandon();
                return None;
            }
            let CloseRefused {
                table,
                passes,
                guards,
                error: _,
            } = refused;
            match table.close_rest(rt, alloc, passes, guards) {
                Ok(rests) => Some(rests),
                Err(refused) => {
                    refused.abandon();
                    None
                }
            }
        }
    }
}

/// The call of the table that the command makes on this seat.
fn call_of<N: Name>(seat: &Seat<N>, command: &TableCommand) -> TableCall {
    let is_open = seat.is_open();
    match command {
        TableCommand::Enter { .. } | TableCommand::EnterMany { .. } => TableCall::Enter,
        TableCommand::Scan => TableCall::Scan,
        TableCommand::Poll => TableCall::Poll,
        TableCommand::Look { .. } => TableCall::Look,
        TableCommand::Leave => TableCall::Leave,
        TableCommand::Acquire { .. } if is_open => TableCall::AcquireIn,
        TableCommand::Acquire { .. } => TableCall::Acquire,
        TableCommand::Update { .. } if is_open => TableCall::UpdateIn,
        TableCommand::Update { .. } => TableCall::Update,
        TableCommand::Finish { .. } if is_open => TableCall::FinishIn,
        TableCommand::Finish { .. } => TableCall::Finish,
    }
}

/// Joins the replies of a call that ran out of memory with those of the same call made again. The first scan's
/// steps are kept, and the second scan makes the remaining ones. A guard that is leaving reports all answers of
/// its leave, so the second list extends the first. Any other call leaves the guard with the answers of its latest
/// scan, so the lists are equal. None if the replies break these rules.
fn joined(command: &TableCommand, mut first: Vec<Reply>, again: Vec<Reply>) -> Option<Vec<Reply>> {
    let is_right = match command {
        TableCommand::Scan => {
            first.extend_from_slice(&again).ok()?;
            return Some(first);
        }
        TableCommand::Leave => again.starts_with(&first),
        _ => first == again,
    };
    if is_right { Some(again) } else { None }
}

/// Plays the command on the seat. A call that runs out of memory is noted in `refusals` and made a second time.
fn play_through<N: Name, T: KeyTable, R: Wait>(
    rt: &R,
    alloc: Global,
    table: &Table<N, T>,
    seat: Seat<N>,
    command: &TableCommand,
    refusals: &mut Vec<TableCall>,
) -> Option<(Seat<N>, PlayedCommand)> {
    let (seat, line) = play(rt, alloc, table, seat, command)?;
    if !line.outcome.is_out_of_memory() {
        return Some((seat, line));
    }
    refusals.push(call_of(&seat, command)).ok()?;
    let (seat, again) = play(rt, alloc, table, seat, command)?;
    let PlayedCommand {
        outcome,
        replies,
        at,
    } = again;
    let replies = joined(command, line.replies, replies)?;
    Some((
        seat,
        PlayedCommand {
            outcome,
            replies,
            at,
        },
    ))
}

/// A run in progress: the seats, one line for each command so far, the answers to the questions, and the calls
/// that ran out of memory and were made again.
#[derive(Drop)]
pub struct TableAtWork<N: Name> {
    pub seats: Vec<Seat<N>>,
    pub lines: Vec<PlayedCommand>,
    pub sights: Vec<TableAnswer>,
    pub refused: Vec<TableCall>,
}

impl<N: Name> TableAtWork<N> {
    /// A run with these seats, before its first command.
    pub fn new(alloc: Global, seats: Vec<Seat<N>>) -> Self {
        TableAtWork {
            seats,
            lines: Vec::new(alloc),
            sights: Vec::new(alloc),
            refused: Vec::new(alloc),
        }
    }

    /// Plays the command on the seat with this index. None if there is no such seat, or the command cannot be played.
    fn play<T: KeyTable, R: Wait>(
        &mut self,
        rt: &R,
        alloc: Global,
        table: &Table<N, T>,
        index: usize,
        command: &TableCommand,
    ) -> Option<()> {
        if index >= self.seats.len() {
            return None;
        }
        let seat = self.seats.remove(index);
        let (seat, line) = play_through(rt, alloc, table, seat, command, &mut self.refused)?;
        self.seats.insert(index, seat).ok()?;
        self.lines.push(line).ok()?;
        Some(())
    }

    /// Asks on the seat with this index. None if there is no such seat, or the question cannot be asked.
    fn ask<T: KeyTable, R: Wait>(
        &mut self,
        rt: &R,
        alloc: Global,
        table: &Table<N, T>,
        index: usize,
        question: Question,
    ) -> Option<()> {
        if index >= self.seats.len() {
            return None;
        }
        let seat = self.seats.remove(index);
        let (seat, sight) = ask_through(rt, alloc, table, seat, question, &mut self.refused)?;
        self.seats.insert(index, seat).ok()?;
        self.sights.push(sight).ok()?;
        Some(())
    }
}

/// Plays the rows in order, each on the seat that its index names, from 0. If `questions` has a question at the
/// row's index, the same seat asks it after the row. The expected outcomes of the rows are not compared here.
pub fn play_rows<N: Name, T: KeyTable, R: Wait>(
    rt: &R,
    alloc: Global,
    table: &Table<N, T>,
    work: &mut TableAtWork<N>,
    rows: &[CommandRow],
    questions: &[Option<Question>],
) -> Option<()> {
    let mut asked = questions.iter();
    for (index, command, _) in rows {
        work.play(rt, alloc, table, *index, command)?;
        if let Some(Some(question)) = asked.next() {
            work.ask(rt, alloc, table, *index, *question)?;
        }
    }
    Some(())
}

/// Plays the rows with their questions (see [`play_rows`]), and closes the table.
pub fn play_all<N: Name, T: KeyTable + Drop, R: Wait>(
    rt: &R,
    alloc: Global,
    table: Table<N, T>,
    passes: Vec<Pass>,
    rows: &[CommandRow],
    questions: &[Option<Question>],
) -> Option<TableRun>
    requires { All (λ p. p.of ≡ N.of) passes.items }
{
    let mut work = TableAtWork::new(alloc, seated::<N>(alloc, passes)?);
    play_rows(rt, alloc, &table, &mut work, rows, questions)?;
    let TableAtWork {
        seats,
        lines,
        sights,
        mut refused,
    } = work;
    let histories = close_through(rt, alloc, table, seats, &mut refused)?;
    Some(TableRun {
        lines,
        sights,
        histories,
        refused,
    })
}

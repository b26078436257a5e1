//! How does a test inspect a running table? It asks for the state of a key, or for the keys of a shard that have a
//! record.
//!
//! [`ask_through`] asks on a seat, by the call that fits what the seat holds. A call that runs out of memory is
//! made again. [`crate::run`] asks such questions between commands.
ghost use Rattle.std.specs.Prelude.{◌≡◌};

use crate::command::TableCall;
use crate::holds::Holds;
use crate::key::key_of;
use crate::seat::Seat;
use lt_ids::Key;
use lt_rules::KeyTable;
use lt_table_core::{Guard, KeyState, Table};
use lt_words::{Name, Pass};
use std::alloc::{AllocError, Global};
use std::sync::Wait;

/// A question to a table. A byte names the key (see [`crate::key`]).
#[derive(Clone, Copy)]
pub enum Question {
    /// What is the state of this key?
    State(u8),
    /// Which keys of this key's shard have a record? Only a pass outside a guard can ask it.
    Keys(u8),
}

/// The answer to a [`Question`].
#[derive(Drop)]
pub enum TableAnswer {
    State(KeyState),
    Keys(Vec<Key>),
    /// No call was made: a pass inside a guard cannot ask this question.
    Nothing,
}

/// The state of a key, as an answer.
fn of_state(state: Result<KeyState, AllocError>) -> Result<TableAnswer, AllocError> {
    Ok(TableAnswer::State(state?))
}

/// The keys that have a record, as an answer.
fn of_keys(keys: Result<Vec<Key>, AllocError>) -> Result<TableAnswer, AllocError> {
    Ok(TableAnswer::Keys(keys?))
}

/// Asks by a pass outside a guard. None if an allocation outside the call fails.
fn ask_by_pass<N: Name, T: KeyTable, R: Wait>(
    rt: &R,
    alloc: Global,
    table: &Table<N, T>,
    pass: &mut Pass,
    question: Question,
) -> Option<Result<TableAnswer, AllocError>>
    requires { pass.old.of ≡ N.of }
    ensures { pass.new.of ≡ N.of }
{
    match question {
        Question::State(byte) => {
            let key = key_of(alloc, byte)?;
            Some(of_state(table.inspect(rt, pass, &key)))
        }
        Question::Keys(byte) => {
            let shard = table.shard_of(&key_of(alloc, byte)?);
            Some(of_keys(table.locked_keys(rt, pass, shard)))
        }
    }
}

/// Asks through the guard that holds the pass. None if an allocation outside the call fails.
fn ask_by_guard<N: Name, T: KeyTable, R: Wait>(
    rt: &R,
    alloc: Global,
    table: &Table<N, T>,
    guard: &mut Guard,
    question: Question,
) -> Option<Result<TableAnswer, AllocError>>
    requires { guard.old.pass.of ≡ N.of }
    ensures { guard.new.pass.of ≡ N.of }
{
    match question {
        Question::State(byte) => {
            let key = key_of(alloc, byte)?;
            Some(of_state(table.inspect_in(rt, guard, &key)))
        }
        Question::Keys(_) => Some(Ok(TableAnswer::Nothing)),
    }
}

/// Asks by the pass or the guard in the seat. None if an allocation outside the call fails.
fn ask<N: Name, T: KeyTable, R: Wait>(
    rt: &R,
    alloc: Global,
    table: &Table<N, T>,
    seat: Seat<N>,
    question: Question,
) -> Option<(Seat<N>, Result<TableAnswer, AllocError>)> {
    match seat.into_holds() {
        Holds::Free(mut pass) => {
            let sight = ask_by_pass(rt, alloc, table, &mut pass, question);
            let seat = Seat::free(pass);
            Some((seat, sight?))
        }
        Holds::Open(mut guard) => {
            let sight = ask_by_guard(rt, alloc, table, &mut guard, question);
            let seat = Seat::open(guard);
            Some((seat, sight?))
        }
    }
}

/// The call of the table that asks this question on this seat.
fn call_of<N: Name>(seat: &Seat<N>, question: Question) -> TableCall {
    match question {
        Question::State(_) if seat.is_open() => TableCall::InspectIn,
        Question::State(_) => TableCall::Inspect,
        Question::Keys(_) => TableCall::LockedKeys,
    }
}

/// Asks by the pass or the guard in the seat. A call that runs out of memory is noted in `refusals` and made a
/// second time. None if the second call fails too, or an allocation outside the calls fails.
pub fn ask_through<N: Name, T: KeyTable, R: Wait>(
    rt: &R,
    alloc: Global,
    table: &Table<N, T>,
    seat: Seat<N>,
    question: Question,
    refusals: &mut Vec<TableCall>,
) -> Option<(Seat<N>, TableAnswer)> {
    let (seat, answered) = ask(rt, alloc, table, seat, question)?;
    if let Ok(sight) = answered {
        return Some((seat, sight));
    }
    refusals.push(call_of(&seat, question)).ok()?;
    let (seat, again) = ask(rt, alloc, table, seat, question)?;
    Some((seat, again.ok()?))
}

//! Does a run come out the same whichever single allocation fails?
//! Each test plays the same script, on a table with one of the three ways of keeping steps. Fault injection runs a
//! test once for each of its allocations and makes that one fail. The call that ran out of memory is then made
//! again, and the outcomes, answers and steps must be the same as without a failure. Read next `refusing`, which
//! plays the script.
use crate::playing::config;
use crate::refusing::{Done, Part, TakeScript, play_taken, play_whole};
use crate::text::rows_of;
use lt_entry::Entry;
use lt_rules::Reply;
use lt_table::{Config, Keeping, Poll, Scan};
use lt_test_kit::asking::{Question, TableAnswer};
use lt_test_kit::command::{CallOutcome, CommandRow};
use std::alloc::Global;
use std::process::Abort;
use std::sync::Wait;
use std::test::Fail;

/// Transaction 9 takes the lock of the key A, which is stored on the heap. Request 1 enters to write the key and
/// waits.
const CALLS_BEFORE: &'static str = "1 acquire 9 10 A\n0 enter 1 20 Aw 0\n0 scan\n";

/// The lock comes free, and request 1 proceeds, takes it, leaves and frees it.
const CALLS_AFTER: &'static str =
    "1 finish 9 A\n0 poll\n0 scan\n0 scan\n0 acquire 1 20 A\n0 leave\n0 finish 1 A\n";

/// The outcome of each call.
const OUTCOMES: [CallOutcome; 10] = [
    CallOutcome::Stepped(Reply::Taken),
    CallOutcome::Entered(1),
    CallOutcome::Scanned(Scan::Waiting(0)),
    CallOutcome::Stepped(Reply::Freed),
    CallOutcome::Polled(Poll::Through),
    CallOutcome::Scanned(Scan::Rescan),
    CallOutcome::Scanned(Scan::Proceed),
    CallOutcome::Stepped(Reply::Taken),
    CallOutcome::Left,
    CallOutcome::Stepped(Reply::Freed),
];

/// The questions after the calls of `CALLS_BEFORE` (`AFTER` has those of `CALLS_AFTER`). A pass and a guard ask
/// for the state of the key A, and a pass asks which keys have a record.
const BEFORE: [Option<Question>; 3] = [
    Some(Question::State(b'A')),
    None,
    Some(Question::State(b'A')),
];

const AFTER: [Option<Question>; 7] = [
    Some(Question::Keys(b'A')),
    Some(Question::State(b'A')),
    None,
    Some(Question::State(b'A')),
    None,
    None,
    Some(Question::Keys(b'A')),
];

/// The replies of all steps, in order.
const REPLIES: [Reply; 7] = [
    Reply::Taken,
    Reply::MustWait,
    Reply::Freed,
    Reply::Passed,
    Reply::Taken,
    Reply::Absent,
    Reply::Freed,
];

/// What the tests compare of a table's answer.
#[derive(Clone, Copy, Debug, PartialEq, Eq)]
enum Seen {
    /// The transaction that holds the lock, the request that holds the reservation, the first writer, and how many
    /// writers there are.
    State(Option<u64>, Option<u64>, Option<u64>, usize),
    /// How many keys have a record, and how many bytes the first of them has.
    Keys(usize, Option<usize>),
    Nothing,
}

fn seen_of(sight: &TableAnswer) -> Seen {
    match sight {
        TableAnswer::State(state) => Seen::State(
            state.holder.map(|holder| holder.txn.number()),
            state.reservation.map(|request| request.ticket.number()),
            state
                .writers
                .first()
                .map(|writer| writer.request.ticket.number()),
            state.writers.len(),
        ),
        TableAnswer::Keys(keys) => Seen::Keys(
            keys.len(),
            keys.first().map(|key| key.as_bytes().len()),
        ),
        TableAnswer::Nothing => Seen::Nothing,
    }
}

/// The expected answer to each question.
const SIGHTS: [Seen; 6] = [
    Seen::State(Some(9), None, None, 0),
    Seen::State(Some(9), None, Some(1), 1),
    Seen::Keys(1, Some(61)),
    Seen::State(None, Some(1), None, 0),
    Seen::State(None, Some(1), None, 0),
    Seen::Keys(0, None),
];

/// Asserts that the steps have these replies.
fn are_replied<R: Abort>(rt: &R, steps: &[Entry], replies: &[Reply]) -> Result<(), Fail> {
    assert_eq!(rt; steps.len(), replies.len());
    for (step, reply) in steps.iter().zip(replies) {
        assert_eq!(rt; step.reply(), *reply);
    }
    Ok(())
}

/// Asserts that each call had the expected outcome.
fn check_outcomes<R: Abort>(rt: &R, done: &Done) {
    assert_eq!(rt; done.lines.len(), OUTCOMES.len());
    for (line, outcome) in done.lines.iter().zip(&OUTCOMES) {
        assert_eq!(rt; line.outcome, *outcome);
    }
}

/// Asserts that each question got the expected answer.
fn are_seen<R: Abort>(rt: &R, done: &Done) -> Result<(), Fail> {
    assert_eq!(rt; done.sights.len(), SIGHTS.len());
    for (sight, seen) in done.sights.iter().zip(&SIGHTS) {
        assert_eq!(rt; seen_of(sight), *seen);
    }
    Ok(())
}

/// What a way of keeping gives: the index of the first step taken, how many steps were taken, the index of the
/// first step left, and how many steps are left.
type KeptCounts = (u64, usize, u64, usize);

/// Asserts that the steps taken and the steps left have the expected indices and replies, and that at most one
/// call ran out of memory.
fn are_kept<R: Abort>(rt: &R, done: &Done, kept: KeptCounts) -> Result<(), Fail> {
    let (from, taken, rest_from, left) = kept;
    let rest = done.rests.shards.first().ok_or("the shard")?;
    assert_eq!(rt; (done.taken.from, rest.from), (from, rest_from));
    let first = REPLIES.get(..taken).ok_or("the first replies")?;
    are_replied(rt, &done.taken.steps, first)?;
    let last = REPLIES
        .get(REPLIES.len().saturating_sub(left)..)
        .ok_or("the last replies")?;
    are_replied(rt, &rest.entries, last)?;
    assert_eq!(rt; done.rests.draws, 1);
    assert!(rt; done.refused.len() <= 1);
    Ok(())
}

fn limits() -> Config {
    Config {
        max_steps: 8,
        ..config(1, 3)
    }
}

/// Plays the script on a table with this way of keeping.
fn play_once<R: Wait>(
    rt: &R,
    alloc: Global,
    keeping: Keeping,
    before: &[CommandRow],
    after: &[CommandRow],
) -> Option<Done> {
    let script = TakeScript {
        before: Part {
            rows: before,
            questions: &BEFORE,
        },
        after: Part {
            rows: after,
            questions: &AFTER,
        },
    };
    match keeping {
        Keeping::Whole => play_whole(rt, alloc, limits(), script),
        Keeping::Streamed => play_taken(rt, alloc, limits(), Keeping::Streamed, script),
        Keeping::Unrecorded => play_taken(rt, alloc, limits(), Keeping::Unrecorded, script),
    }
}

/// The calls of the text. It is read once more if an allocation fails.
fn rows_through(alloc: Global, text: &str) -> Option<Vec<CommandRow>> {
    match rows_of(alloc, text) {
        Some(rows) => Some(rows),
        None => rows_of(alloc, text),
    }
}

/// Plays the script on a table with this way of keeping, and once more if an allocation failed outside its rows
/// and questions. Asserts the expected results.
fn come_out<R: Abort + Wait>(
    rt: &R,
    alloc: Global,
    keeping: Keeping,
    kept: KeptCounts,
) -> Result<(), Fail> {
    let before = rows_through(alloc, CALLS_BEFORE).ok_or("the calls")?;
    let after = rows_through(alloc, CALLS_AFTER).ok_or("the calls")?;
    let mut done = play_once(rt, alloc, keeping, &before, &after);
    if done.is_none() {
        done = play_once(rt, alloc, keeping, &before, &after);
    }
    let done = done.ok_or("the script")?;
    check_outcomes(rt, &done);
    are_seen(rt, &done)?;
    are_kept(rt, &done, kept)
}

#[test]
fn a_whole_table_has_the_same_outcome_under_any_allocation_failure(
    rt: HostRuntime,
) -> Result<(), Fail> {
    come_out(&rt, rt.alloc(), Keeping::Whole, (0, 0, 0, 7))
}

#[test]
fn a_streamed_table_has_the_same_outcome_under_any_allocation_failure(
    rt: HostRuntime,
) -> Result<(), Fail> {
    come_out(&rt, rt.alloc(), Keeping::Streamed, (0, 2, 2, 5))
}

#[test]
fn an_unrecorded_table_has_the_same_outcome_under_any_allocation_failure(
    rt: HostRuntime,
) -> Result<(), Fail> {
    come_out(&rt, rt.alloc(), Keeping::Unrecorded, (2, 0, 7, 0))
}

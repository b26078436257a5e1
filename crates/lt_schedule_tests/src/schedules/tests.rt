//! Do both tables agree with a second evaluation of the rules, also when an allocation fails?
//! Each seed gives one schedule. It is played on a linked and on a plain table, and every outcome, answer and
//! history is compared with what the schedule expects. Read next `schedule`.
use crate::linked::run;
use crate::schedules::cases::ScheduleCaseCounts;
use crate::schedules::plain::run_plain;
use crate::schedules::schedule::{Schedule, random_schedule};
use crate::schedules::standing::{ExpectedAnswer, Standing, standing_of};
use crate::schedules::steps::{AskedCall, PlainStep};
use crate::second::{Let, Time};
use lt_entry::Entry;
use lt_ids::{Access, Key, Through, Timestamp, TxnId};
use lt_rules::{Call, Reply};
use lt_table::{KeyState, ScanError};
use lt_test_kit::asking::TableAnswer;
use lt_test_kit::command::{CallOutcome, TableCall};
use lt_test_kit::key::key_length;
use lt_test_kit::play::PlayedCommand;
use lt_test_kit::run::TableRun;
use std::alloc::{AllocError, Global};
use std::io::Write;
use std::process::Abort;
use std::sync::Wait;
use std::test::Fail;

fn time_of(ts: Timestamp) -> Time {
    (ts.wall, ts.logical)
}

fn number_of(txn: Option<TxnId>) -> Option<u64> {
    Some(txn?.number())
}

fn asked_of(call: &Call) -> AskedCall {
    match *call {
        Call::Visit {
            ticket,
            txn,
            ts,
            access,
            longest,
        } => AskedCall::Visit {
            number: ticket.number(),
            wait: ticket.wait(),
            txn: number_of(txn),
            time: time_of(ts),
            is_write: access == Access::Write,
            longest,
        },
        Call::Acquire { txn, ts } => AskedCall::Acquire {
            txn: txn.number(),
            time: time_of(ts),
        },
        Call::Update { txn, ts } => AskedCall::Update {
            txn: txn.number(),
            time: time_of(ts),
        },
        Call::Finish { txn } => AskedCall::Finish { txn: txn.number() },
        Call::Leave { number } => AskedCall::Leave { number },
        Call::Look { number } => AskedCall::Look { number },
    }
}

/// Whether the line has these replies. After a scan that ran out of memory and was made again, the guard has only
/// the replies of the second scan, until it scans again or leaves.
fn has_replies(ran: &TableRun, line: &PlayedCommand, wanted: &[Reply]) -> bool {
    let is_aside = match line.outcome {
        CallOutcome::Scanned(_) | CallOutcome::NotScanned(ScanError::HistoryFull) => false,
        CallOutcome::NotScanned(ScanError::WaitsOut)
        | CallOutcome::Left
        | CallOutcome::NotLeft(_) => false,
        _ => true,
    };
    let replies = line.replies.as_slice();
    replies == wanted || ran.refused.len() == 1 && is_aside && wanted.ends_with(replies)
}

/// Asserts that each command has the expected outcome, replies and index.
fn compare_lines<R: Abort>(
    rt: &R,
    seed: u64,
    schedule: &Schedule,
    ran: &TableRun,
) -> Result<(), Fail> {
    assert_eq!(rt; ran.lines.len(), schedule.lines.len());
    let mut number = 0u64;
    for (line, wanted) in ran.lines.iter().zip(&schedule.lines) {
        assert_eq!(rt;
            line.outcome,
            wanted.outcome,
            "seed {seed}, command {number}"
        );
        assert_eq!(rt;
            line.at,
            wanted.at,
            "the index, seed {seed}, command {number}"
        );
        assert!(rt;
            has_replies(ran, line, &wanted.replies),
            "the replies differ, seed {seed}, command {number}"
        );
        number = number.wrapping_add(1);
    }
    Ok(())
}

/// Whether the letter names this key.
fn is_key(key: &Key, letter: u8) -> bool {
    let bytes = key.as_bytes();
    bytes.len() == key_length(letter) && bytes.iter().all(|byte| *byte == letter)
}

/// The lets in plain numbers.
fn lets_of(alloc: Global, lets: &[Through]) -> Result<Vec<Let>, AllocError> {
    let mut found = Vec::new(alloc);
    for through in lets {
        found.push((through.pass, through.ticket.number(), through.ticket.wait()))?;
    }
    Ok(found)
}

/// Asserts that the history entry is this step.
fn compare_entry<R: Abort>(
    rt: &R,
    alloc: Global,
    seed: u64,
    entry: &Entry,
    step: &PlainStep,
) -> Result<(), Fail> {
    assert!(rt; is_key(entry.key(), step.key), "the key, seed {seed}");
    assert_eq!(rt; entry.pass(), step.pass, "the pass, seed {seed}");
    assert_eq!(rt;
        asked_of(&entry.call()),
        step.asked,
        "the call, seed {seed}"
    );
    assert_eq!(rt; entry.reply(), step.reply, "the reply, seed {seed}");
    let mut lets = lets_of(alloc, entry.lets());
    if lets.is_err() {
        lets = lets_of(alloc, entry.lets());
    }
    assert!(rt; lets? == step.lets, "the lets differ, seed {seed}");
    Ok(())
}

/// Asserts that the history has the expected steps of the shard at this index, from 0.
fn compare_history<R: Abort>(
    rt: &R,
    alloc: Global,
    seed: u64,
    schedule: &Schedule,
    shard: u64,
    history: &[Entry],
) -> Result<(), Fail> {
    let mut entries = history.iter();
    for step in schedule.second.steps() {
        if schedule.second.shard_of(step.key) == shard {
            let entry = entries.next().ok_or("an entry")?;
            compare_entry(rt, alloc, seed, entry, step)?;
        }
    }
    assert!(rt; entries.next().is_none(), "an entry too many, seed {seed}");
    Ok(())
}

/// Asserts that the key has the expected state.
fn compare_standing<R: Abort>(
    rt: &R,
    alloc: Global,
    seed: u64,
    state: &KeyState,
    wanted: &Standing,
) -> Result<(), Fail> {
    let mut found = standing_of(alloc, state);
    if found.is_err() {
        found = standing_of(alloc, state);
    }
    assert_eq!(rt; found?, *wanted, "how a key stands, seed {seed}");
    Ok(())
}

/// Whether the letters name these keys, in this order.
fn are_keys(keys: &[Key], letters: &[u8]) -> bool {
    keys.len() == letters.len()
        && keys
            .iter()
            .zip(letters)
            .all(|(key, letter)| is_key(key, *letter))
}

/// Asserts that the table gave the expected answer.
fn compare_sight<R: Abort>(
    rt: &R,
    alloc: Global,
    seed: u64,
    sight: &TableAnswer,
    wanted: &ExpectedAnswer,
) -> Result<(), Fail> {
    match (sight, wanted) {
        (TableAnswer::State(state), ExpectedAnswer::State(standing)) => {
            compare_standing(rt, alloc, seed, state, standing)
        }
        (TableAnswer::Keys(keys), ExpectedAnswer::Keys(letters)) => {
            assert!(rt; are_keys(keys, letters), "the keys of a shard, seed {seed}");
            Ok(())
        }
        _ => Err("an answer to another question")?,
    }
}

/// Asserts that each question got the expected answer.
fn compare_sights<R: Abort>(
    rt: &R,
    alloc: Global,
    seed: u64,
    schedule: &Schedule,
    ran: &TableRun,
) -> Result<(), Fail> {
    assert_eq!(rt; ran.sights.len(), schedule.wanted.len(), "seed {seed}");
    for (sight, wanted) in ran.sights.iter().zip(&schedule.wanted) {
        compare_sight(rt, alloc, seed, sight, wanted)?;
    }
    Ok(())
}

/// Asserts that the run has the expected results, and that at most one call ran out of memory.
fn compare<R: Abort>(
    rt: &R,
    alloc: Global,
    seed: u64,
    schedule: &Schedule,
    ran: &TableRun,
) -> Result<(), Fail> {
    compare_lines(rt, seed, schedule, ran)?;
    compare_sights(rt, alloc, seed, schedule, ran)?;
    assert!(rt; ran.refused.len() <= 1, "seed {seed}");
    assert_eq!(rt;
        ran.histories.draws,
        schedule.second.draws(),
        "the draws, seed {seed}"
    );
    assert_eq!(rt;
        ran.histories.shards.len(),
        schedule.config.shards,
        "seed {seed}"
    );
    let mut shard = 0;
    for history in &ran.histories.shards {
        compare_history(rt, alloc, seed, schedule, shard, history)?;
        shard = shard.wrapping_add(1);
    }
    Ok(())
}

/// Runs the schedule by `make`, and once more if an allocation failed outside its rows. Asserts the expected
/// results, and returns the call that ran out of memory, if any.
fn compare_run<R: Abort, F: Fn() -> Result<TableRun, TableCall>>(
    rt: &R,
    alloc: Global,
    seed: u64,
    schedule: &Schedule,
    make: F,
) -> Result<Option<TableCall>, Fail>
    requires { F.IsAlwaysCallable make }
{
    match make() {
        Ok(ran) => {
            compare(rt, alloc, seed, schedule, &ran)?;
            Ok(ran.refused.first().copied())
        }
        Err(call) => {
            let ran = make().ok().ok_or("the run")?;
            compare(rt, alloc, seed, schedule, &ran)?;
            Ok(Some(call))
        }
    }
}

/// Plays one schedule on both tables. What runs out of memory outside a call is done again. Returns the call that
/// ran out of memory on the linked table, and on the plain one.
fn compare_both<R: Abort + Wait>(
    rt: &R,
    alloc: Global,
    seed: u64,
    counts: &mut ScheduleCaseCounts,
) -> Result<[Option<TableCall>; 2], Fail> {
    let mut schedule = random_schedule(alloc, seed, counts);
    if schedule.is_none() {
        schedule = random_schedule(alloc, seed, counts);
    }
    let schedule = schedule.ok_or("the schedule")?;
    let config = schedule.config;
    let rows = schedule.rows.as_slice();
    let asked = schedule.questions.as_slice();
    let linked = compare_run(
        rt,
        alloc,
        seed,
        &schedule,
        || run(rt, alloc, config, rows, asked),
    )?;
    let plain = compare_run(
        rt,
        alloc,
        seed,
        &schedule,
        || run_plain(rt, alloc, config, rows, asked),
    )?;
    Ok([linked, plain])
}

/// Prints which call of which table ran out of memory, if any.
fn tell<W: Write>(
    alloc: Global,
    writer: &mut W,
    table: &str,
    call: Option<TableCall>,
) -> Option<()> {
    let Some(call) = call else {
        return Some(());
    };
    let line = format!(in alloc; "refused: {table} {call:?}\n").ok()?;
    writer.write_all(line.as_bytes()).ok()
}

#[test]
fn both_tables_agree_with_the_second_evaluation(rt: HostRuntime) -> Result<(), Fail> {
    let mut counts = ScheduleCaseCounts::new();
    for seed in 0..1_000 {
        compare_both(&rt, rt.alloc(), seed, &mut counts)?;
    }
    assert_eq!(rt; counts.missing(), None);
    Ok(())
}

/// Few schedules, for fault injection, which makes each of their allocations fail in turn. The call that ran out
/// of memory is made again, and the results are the same as without a failure. The test prints which call of which
/// table it was.
#[test]
fn schedules_have_the_same_outcome_under_any_allocation_failure(
    rt: HostRuntime,
) -> Result<(), Fail> {
    let mut counts = ScheduleCaseCounts::new();
    for seed in 0..5 {
        let [linked, plain] = compare_both(&rt, rt.alloc(), seed, &mut counts)?;
        tell(rt.alloc(), &mut rt.stdout(), "linked", linked).ok_or("a line")?;
        tell(rt.alloc(), &mut rt.stdout(), "plain", plain).ok_or("a line")?;
    }
    Ok(())
}

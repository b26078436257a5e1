//! Does each answer agree with the table's history when four threads work at once?
//! Four threads work on a whole table (`race_player`), and on a streamed one while a fifth thread takes the steps out
//! (`stream_player`). The tests compare each answer with the step at its index, and replay the histories. Read next
//! `work`, which has the calls of the threads.
ghost use Rattle.std.specs.Prelude.{◌≡◌, length};

use crate::race_player::race;
use crate::stream_player::stream_work;
use crate::work::{ROUNDS, ThreadsRun};
use lt_entry::Entry;
use lt_rules::{Call, Reply};
use lt_table::Scan;
use lt_test_kit::command::CallOutcome;
use lt_test_kit::play::PlayedCommand;
use lt_test_kit::replay::is_legal;
use std::alloc::Global;
use std::process::Abort;
use std::test::Fail;

/// Whether the call is the one by which transaction `number` takes the lock or, unless `is_taking`, frees it.
fn is_call(call: &Call, number: u64, is_taking: bool) -> bool {
    match call {
        Call::Acquire { txn, .. } => is_taking && txn.number() == number,
        Call::Finish { txn } => !is_taking && txn.number() == number,
        _ => false,
    }
}

/// Asserts that the history of the key a's shard has the step of this call at the line's index, by this pass and
/// with the line's reply.
fn is_stored<R: Abort>(
    rt: &R,
    worked: &ThreadsRun,
    line: &PlayedCommand,
    pass: u32,
    is_taking: bool,
) -> Result<(), Fail> {
    let history = worked.shards.get(1).ok_or("the shard")?;
    let at = line.at.ok_or("the index")?;
    let entry = history.get(at as usize).ok_or("the step")?;
    assert_eq!(rt; entry.key().as_bytes(), b"a".as_slice());
    assert_eq!(rt; entry.pass(), pass);
    assert_eq!(rt; line.outcome, CallOutcome::Stepped(entry.reply()));
    assert!(rt; is_call(&entry.call(), u64::from(pass), is_taking));
    Ok(())
}

/// Asserts that the request entered, passed at its key and left it. It is not queued there, so the leave finds no
/// entry.
fn compare_request<R: Abort>(rt: &R, round: &[PlayedCommand]) -> Result<(), Fail>
    requires { length round.now ≡ 5 }
{
    assert!(rt; matches!(round[0].outcome, CallOutcome::Entered(_)));
    assert_eq!(rt; round[1].outcome, CallOutcome::Scanned(Scan::Proceed));
    assert_eq!(rt; round[1].replies.as_slice(), [Reply::Passed].as_slice());
    assert_eq!(rt; round[4].outcome, CallOutcome::Left);
    assert_eq!(rt; round[4].replies.as_slice(), [Reply::Absent].as_slice());
    Ok(())
}

/// Asserts that the transaction took the lock of the key a and freed it, or that it did neither because another
/// transaction held the lock.
fn compare_lock<R: Abort>(
    rt: &R,
    worked: &ThreadsRun,
    round: &[PlayedCommand],
    pass: u32,
) -> Result<(), Fail>
    requires { length round.now ≡ 5 }
{
    let wanted = match round[2].outcome {
        CallOutcome::Stepped(Reply::Taken) => CallOutcome::Stepped(Reply::Freed),
        outcome => outcome,
    };
    assert_eq!(rt; round[3].outcome, wanted);
    is_stored(rt, worked, &round[2], pass, true)?;
    is_stored(rt, worked, &round[3], pass, false)
}

/// Checks all rounds of each thread.
fn compare<R: Abort>(rt: &R, worked: &ThreadsRun) -> Result<(), Fail> {
    let mut pass = 0u32;
    for lines in &worked.lines {
        pass = pass.wrapping_add(1);
        assert_eq!(rt; lines.len(), 5 * ROUNDS);
        for round in lines.chunks_exact(5) {
            compare_request(rt, round)?;
            compare_lock(rt, worked, round, pass)?;
        }
    }
    assert_eq!(rt; pass, 4);
    Ok(())
}

/// How many steps both shards have together.
fn steps_of(shards: &[Vec<Entry>]) -> usize {
    let mut steps = 0usize;
    for shard in shards {
        steps = steps.wrapping_add(shard.len());
    }
    steps
}

/// How many different keys the steps are of.
fn count_keys(alloc: Global, shards: &[Vec<Entry>]) -> Option<usize> {
    let mut keys: Vec<&[u8]> = Vec::new(alloc);
    for shard in shards {
        for entry in shard {
            let key = entry.key().as_bytes();
            if !keys.contains(&key) {
                keys.push(key).ok()?;
            }
        }
    }
    Some(keys.len())
}

/// Asserts that the histories agree with the answers. Each round makes four steps: the visit, both calls at the
/// key a, and the leave. The histories hold all of these steps, are legal, and have five keys.
fn expect<R: Abort>(rt: &R, alloc: Global, worked: &ThreadsRun) -> Result<(), Fail> {
    compare(rt, worked)?;
    assert_eq!(rt; steps_of(&worked.shards), 4 * 4 * ROUNDS);
    assert_eq!(rt; worked.draws, 4 * ROUNDS as u64);
    for shard in &worked.shards {
        assert_eq!(rt; is_legal(alloc, shard), Some(true));
    }
    assert_eq!(rt; count_keys(alloc, &worked.shards), Some(5));
    Ok(())
}

#[test]
fn the_index_of_each_answer_holds_its_step(rt: HostRuntime) -> Result<(), Fail> {
    let worked = race(&rt, rt.alloc()).ok_or("the race")?;
    expect(&rt, rt.alloc(), &worked)
}

/// The pieces, followed by what is left, are the whole history.
#[test]
fn what_is_taken_while_threads_work_is_their_whole_history(rt: HostRuntime) -> Result<(), Fail> {
    let worked = stream_work(&rt, rt.alloc()).ok_or("the stream")?;
    expect(&rt, rt.alloc(), &worked)?;
    // A piece has at most the 64 steps that a shard holds, and at most as many are left in each of two shards.
    let pieces = 4 * 4 * ROUNDS as u64 / 64 - 2;
    assert!(rt; worked.pieces >= pieces, "{}", worked.pieces);
    Ok(())
}

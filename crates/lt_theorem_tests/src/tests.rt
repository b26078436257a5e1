//! Do both callers come to the end, and what do they note?
ghost use Rattle.std.specs.Prelude.{◌≡◌, IfOk, IfSome};
ghost use Rattle.std.specs.List.{All};
ghost use Rattle.std.specs.FinMap as finmap;
ghost use Rattle.lt_words.specs.Row.{fresh_passes};

use lt_plain::PlainTable;
use lt_rules::Reply;
use lt_table_core::{
    Config, Keeping, PrepareError, Ready, Table, empty_tables, open_with, prepare_with,
};
use lt_theorem_callers::notes::Notes;
use lt_theorem_callers::run::{NotedClose, run_at_once, run_in_turn};
use lt_words::{Name, Pass};
use std::alloc::Global;
use std::marker::Brand;
use std::process::Abort;
use std::sync::Wait;
use std::test::Fail;
use std::thread::Threads;

/// Opens a table over plain tables.
fn open<N: Name>(alloc: Global, ready: Ready) -> Option<(Table<N, PlainTable>, Vec<Pass>)>
    requires { ready.of ≡ N.of }
    ensures fresh { IfSome result (λ r. r.1.items ≡ fresh_passes N.of N.of.passes) }
    ensures of { IfSome result (λ r. All (λ p. p.of ≡ N.of) r.1.items) }
{
    let Ok(tables) = empty_tables(
        alloc,
        ready.config().shards,
        || -> PlainTable
            ensures { result ≡ finmap.empty }
        { PlainTable::new(alloc) },
    ) else {
        ready.abandon();
        return None;
    };
    open_with::<N, PlainTable>(alloc, ready, tables).ok()
}

/// A streamed table of two shards and two passes.
fn streamed(alloc: Global) -> Result<Ready, PrepareError>
    ensures { IfOk result (λ ready. ready.of.keeping ≡ Keeping.Streamed) }
{
    let config = Config {
        shards: 2,
        passes: 2,
        max_steps: 100,
        max_requests: 10,
        max_waits: 10,
    };
    prepare_with(alloc, config, Keeping::Streamed)
}

fn run_named<N: Name, R: Wait>(rt: &R, alloc: Global, ready: Ready) -> Option<NotedClose>
    requires named { ready.of ≡ N.of }
    requires streamed { ready.of.keeping ≡ Keeping.Streamed }
{
    let (table, passes) = open::<N>(alloc, ready)?;
    run_in_turn(rt, alloc, table, passes)
}

/// Two callers take the lock of one key in turn.
fn run<R: Wait>(rt: &R, alloc: Global) -> Option<NotedClose> {
    run_named::<Brand, R>(rt, alloc, streamed(alloc).ok()?)
}

fn threads_named<N: Name + Send + Sync, R: Threads + Wait + Sync>(
    rt: &R,
    alloc: Global,
    ready: Ready,
) -> Option<NotedClose>
    requires named { ready.of ≡ N.of }
    requires streamed { ready.of.keeping ≡ Keeping.Streamed }
{
    let (table, passes) = open::<N>(alloc, ready)?;
    run_at_once(rt, alloc, table, passes)
}

/// Two callers take the lock of one key at once.
fn run_on_threads<R: Threads + Wait + Sync>(rt: &R, alloc: Global) -> Option<NotedClose> {
    threads_named::<Brand, R>(rt, alloc, streamed(alloc).ok()?)
}

/// Asserts that the notes have these replies.
fn expect_replies<R: Abort>(rt: &R, notes: &Notes, replies: &[Reply]) -> Result<(), Fail> {
    assert_eq!(rt; notes.answers.len(), replies.len());
    for (answer, reply) in notes.answers.iter().zip(replies.iter()) {
        assert_eq!(rt; answer.reply, *reply);
    }
    Ok(())
}

/// Asserts that the table made as many steps as the callers noted answers, that the steps which the close gave begin after
/// those that the callers took out, and that the table drew two numbers.
fn expect_all<R: Abort>(rt: &R, closed: &NotedClose) -> Result<(), Fail> {
    let mut steps = 0usize;
    let mut from = 0u64;
    for rest in &closed.rests.shards {
        from = from.wrapping_add(rest.from);
        steps = steps.wrapping_add(rest.entries.len());
    }
    let taken = closed.one.taken.len().wrapping_add(closed.two.taken.len());
    assert_eq!(rt; from, taken as u64);
    steps = steps.wrapping_add(taken);
    let noted = closed
        .one
        .answers
        .len()
        .wrapping_add(closed.two.answers.len());
    assert_eq!(rt; steps, noted);
    assert_eq!(rt; closed.rests.draws, 2);
    Ok(())
}

#[test]
fn two_callers_in_turn_note_what_they_were_told(rt: HostRuntime) -> Result<(), Fail> {
    let closed = run(&rt, rt.alloc()).ok_or("the run")?;
    expect_all(&rt, &closed)?;
    let one = [Reply::Passed, Reply::Taken, Reply::Absent, Reply::Freed];
    expect_replies(&rt, &closed.one, &one)?;
    let two = [
        Reply::MustWait,
        Reply::Passed,
        Reply::Taken,
        Reply::Absent,
        Reply::Freed,
    ];
    expect_replies(&rt, &closed.two, &two)?;
    assert!(rt; closed.one.lets.is_empty());
    // Until its finish the first caller made four steps, and the second one's scan a fifth.
    assert_eq!(rt; closed.one.taken.len(), 5);
    assert_eq!(rt; closed.two.lets.as_slice(), [2u64].as_slice());
    Ok(())
}

#[test]
fn two_callers_at_once_note_each_step(rt: HostRuntime) -> Result<(), Fail> {
    let closed = run_on_threads(&rt, rt.alloc()).ok_or("the run")?;
    expect_all(&rt, &closed)
}

//! Do tables that stream their steps, or record none, answer as a whole table does and account for every step?
//! Each test plays lines of text: calls, and takes and reads between them. It compares what each line came to and
//! what is left at the close. Read next `keeping`, which plays the lines.
ghost use Rattle.std.specs.Prelude.{◌≢◌};

use crate::keeping::{KeptRun, keep};
use crate::playing::{config, plays};
use lt_table::{CloseError, Config, Keeping};
use std::alloc::Global;
use std::process::Abort;
use std::sync::Wait;
use std::test::Fail;

/// Limits for a table of one shard and two passes, one of which takes steps out. The shard holds at most
/// `max_steps` steps at a time.
fn small(max_steps: u64) -> Config {
    Config {
        max_steps,
        ..config(1, 2)
    }
}

/// Asserts what each line came to and what is left in each shard, and that a close for whole histories was refused
/// because of shard 0.
fn expect<R: Abort>(rt: &R, kept: &KeptRun, came: &str, rests: &str) {
    assert_eq!(rt; kept.texts.came.as_str(), came);
    assert_eq!(rt; kept.rests.as_str(), rests);
    assert_eq!(rt; kept.refused, CloseError::Counts(0));
}

/// The shard is full after two steps, and a take makes room again. The indices of the steps continue across takes.
#[test]
fn a_streamed_table_goes_on_after_each_take(rt: HostRuntime) -> Result<(), Fail> {
    let kept = keep(
        &rt,
        rt.alloc(),
        small(2),
        Keeping::Streamed,
        "0 acquire 9 10 a\n0 finish 9 a\n0 acquire 9 10 a\n0 acquire 9 10 b\ntake\n0 acquire 9 10 a\ntake\ntake\n0 finish 9 a\n0 acquire 9 10 b\n0 acquire 9 10 a\n",
    )
    .ok_or("the run")?;
    expect(
        &rt,
        &kept,
        "0 Stepped(Taken)\n1 Stepped(Freed)\n- NotStepped(HistoryFull)\n- NotStepped(HistoryFull)\n2 from 0\n2 Stepped(Taken)\n1 from 2\n0 from 3\n3 Stepped(Freed)\n4 Stepped(Taken)\n- NotStepped(HistoryFull)\n",
        "2 from 3\n",
    );
    assert_eq!(rt; kept.draws, 0);
    Ok(())
}

/// A reader receives the steps that follow those it has received. If another caller took some of them, this read
/// and every further one report that.
#[test]
fn a_reader_learns_how_many_steps_another_took(rt: HostRuntime) -> Result<(), Fail> {
    let kept = keep(
        &rt,
        rt.alloc(),
        small(3),
        Keeping::Streamed,
        "read\n0 acquire 9 10 a\n0 finish 9 a\nread\ntake\n0 acquire 9 10 b\nread\n0 finish 9 b\ntake\nread\n0 acquire 9 10 a\nread\n",
    )
    .ok_or("the run")?;
    expect(
        &rt,
        &kept,
        "0 from 0\n0 Stepped(Taken)\n1 Stepped(Freed)\n2 from 0\n0 from 2\n2 Stepped(Taken)\n1 from 2\n3 Stepped(Freed)\n1 from 3\ngone 4\n4 Stepped(Taken)\ngone 4\n",
        "1 from 4\n",
    );
    Ok(())
}

/// A shard that may hold one step makes five and stores none of them. A reader learns that they are gone.
#[test]
fn an_unrecorded_table_is_never_full(rt: HostRuntime) -> Result<(), Fail> {
    let kept = keep(
        &rt,
        rt.alloc(),
        small(1),
        Keeping::Unrecorded,
        "take\n0 acquire 9 10 a\n0 finish 9 a\n0 acquire 9 10 b\n0 finish 9 b\ntake\nread\n0 acquire 9 10 a\n0 enter 1 1 bw 0\n",
    )
    .ok_or("the run")?;
    expect(
        &rt,
        &kept,
        "0 from 0\n0 Stepped(Taken)\n1 Stepped(Freed)\n2 Stepped(Taken)\n3 Stepped(Freed)\n0 from 4\ngone 4\n4 Stepped(Taken)\n- Entered(1)\n",
        "0 from 5\n",
    );
    assert_eq!(rt; kept.texts.steps.as_str(), "");
    assert_eq!(rt; kept.draws, 1);
    Ok(())
}

/// Three requests wait, one with a transaction and two without, and are let through in the order of their numbers.
const CALLS: &'static str =
    "3 acquire 9 10 a\n0 enter - 1 aw 0\n0 scan\n1 enter 2 1 awbw 0\n1 scan\n2 enter - 1 aw 0\n2 scan\n3 finish 9 a\n0 poll\n1 poll\n2 poll\n1 leave\n2 poll\n3 acquire 9 10 b\n";

/// The outcome of each call, with the index of its step.
const OUTCOMES: &'static str =
    "0 Stepped(Taken)\n- Entered(1)\n- Scanned(Waiting(0)) [MustWait]\n- Entered(2)\n- Scanned(Waiting(0)) [MustWait]\n- Entered(3)\n- Scanned(Waiting(0)) [MustWait]\n4 Stepped(Freed)\n- Polled(Through)\n- Polled(Through)\n- Polled(Waiting)\n- Left [Left, Absent]\n- Polled(Through)\n7 Stepped(Taken)\n";

/// The calls, with a take after every `every` calls.
fn with_takes(alloc: Global, every: usize) -> Option<String> {
    let mut text = String::new(alloc);
    let mut since = 0usize;
    for line in CALLS.lines() {
        writeln!(text, "{line}").ok()?;
        since = since.wrapping_add(1);
        if since == every {
            writeln!(text, "take").ok()?;
            since = 0;
        }
    }
    Some(text)
}

/// Asserts that a table that keeps its steps in this way gives the same answers at the same indices, whatever is
/// taken between the calls, and that the steps taken, followed by the steps left, are `steps`.
fn tells_the_same<R: Abort + Wait>(
    rt: &R,
    alloc: Global,
    config: Config,
    keeping: Keeping,
    every: usize,
    steps: &str,
) -> Result<(), Fail>
    requires { keeping ≢ Keeping.Whole }
{
    let text = with_takes(alloc, every).ok_or("the calls")?;
    let kept = keep(rt, alloc, config, keeping, &text).ok_or("the run")?;
    assert_eq!(rt; kept.texts.outcomes.as_str(), OUTCOMES);
    assert_eq!(rt; kept.texts.steps.as_str(), steps);
    assert_eq!(rt; kept.draws, 3);
    Ok(())
}

/// A streamed table gives the answers of a whole table at the same indices, wherever the takes are. Its pieces,
/// followed by what is left, are the history of the whole table.
#[test]
fn a_streamed_table_answers_as_a_whole_one(rt: HostRuntime) -> Result<(), Fail> {
    let alloc = rt.alloc();
    let whole = plays(&rt, alloc, config(1, 5), CALLS).ok_or("the run")?;
    assert_eq!(rt; whole.outcomes.as_str(), OUTCOMES);
    for every in [1, 3, 7] {
        tells_the_same(
            &rt,
            alloc,
            config(1, 5),
            Keeping::Streamed,
            every,
            &whole.steps,
        )?;
    }
    Ok(())
}

/// An unrecorded table gives the same answers and has no steps.
#[test]
fn an_unrecorded_table_answers_as_a_whole_one(rt: HostRuntime) -> Result<(), Fail> {
    tells_the_same(&rt, rt.alloc(), config(1, 5), Keeping::Unrecorded, 4, "")
}

/// Only the second of three shards made steps, and they are gone. A close for whole histories is refused and names
/// that shard. It gives back each shard's lock at its own index, so the close for what is left finds the steps of
/// each shard at its index.
#[test]
fn a_refused_close_gives_each_lock_back_at_its_index(rt: HostRuntime) -> Result<(), Fail> {
    let lines = "0 acquire 7 10 a\n0 finish 7 a\n";
    let kept = keep(&rt, rt.alloc(), config(3, 2), Keeping::Unrecorded, lines).ok_or("the run")?;
    assert_eq!(rt;
        kept.texts.came.as_str(),
        "0 Stepped(Taken)\n1 Stepped(Freed)\n"
    );
    assert_eq!(rt; kept.refused, CloseError::Counts(1));
    assert_eq!(rt; kept.rests.as_str(), "0 from 0\n0 from 2\n0 from 0\n");
    Ok(())
}

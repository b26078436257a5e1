//! Callers sleep, wake in order, miss no let, and stop waiting when their time is up.
use crate::waiting::handing_player::hand_over;
use crate::waiting::lent_player::lend_to_two;
use crate::waiting::queue_player::take_turns;
use crate::waiting::timed_player::wait_twice;
use crate::waiting::waking_player::wake_three;
use lt_table::{Keeping, Poll};
use std::test::Fail;
use std::time::Duration;

/// How many turns each of two threads takes. Both wait once in each turn, which makes 100,000 waits.
const TURNS: u64 = 50_000;

/// How many threads wait at one key.
const THREADS: usize = 64;

/// `THREADS` threads wait at one key for 200 milliseconds. Meanwhile they use less than 10 milliseconds of
/// processor time, and then they take the lock in the order of their numbers.
#[test]
fn threads_sleep_and_go_in_order(rt: HostRuntime) -> Result<(), Fail> {
    let turns = take_turns(&rt, rt.alloc(), THREADS).ok_or("the turns")?;
    assert_eq!(rt; turns.numbers.len(), THREADS);
    let mut next = 1u64;
    for number in &turns.numbers {
        assert_eq!(rt; *number, next);
        next = next.wrapping_add(1);
    }
    assert!(rt;
        turns.processor < Duration::from_millis(10),
        "{:?}",
        turns.processor
    );
    Ok(())
}

/// A thread begins to wait and announces it. The other thread lets it through at once, mostly between its last
/// poll and its sleep. If that let were missed, the thread would sleep forever and the test would not end.
#[test]
fn a_let_before_the_sleep_is_not_missed(rt: HostRuntime) -> Result<(), Fail> {
    let waits = hand_over(&rt, rt.alloc(), TURNS).ok_or("the turns")?;
    assert_eq!(rt; waits, (2 * TURNS, 2 * TURNS));
    Ok(())
}

/// One step lets a writer and two readers through. The waker is called once for each let, with its pass, request
/// number and wait number, and each poll after that reports the let.
#[test]
fn a_waker_is_called_once_for_each_let(rt: HostRuntime) -> Result<(), Fail> {
    let woken = wake_three(&rt, rt.alloc()).ok_or("the lets")?;
    assert_eq!(rt; woken.early, 0);
    assert_eq!(rt; woken.count, 3);
    assert_eq!(rt; woken.calls.as_slice(), [111, 221, 331].as_slice());
    let polls: &[Poll] = &[Poll::Through, Poll::Through, Poll::Through];
    assert_eq!(rt; woken.polls.as_slice(), polls);
    Ok(())
}

/// A wait ends at its time, and a later wait ends when the request is let through.
#[test]
fn a_wait_ends_at_its_time(rt: HostRuntime) -> Result<(), Fail> {
    let timed = wait_twice(&rt, rt.alloc(), Keeping::Whole).ok_or("the waits")?;
    assert_eq!(rt; timed.first, Poll::Waiting);
    assert!(rt; timed.took >= Duration::from_millis(30), "{:?}", timed.took);
    assert_eq!(rt; timed.second, Poll::Through);
    Ok(())
}

/// The same on a table whose steps can be taken out.
#[test]
fn a_wait_of_a_streamed_table_ends_at_its_time(rt: HostRuntime) -> Result<(), Fail> {
    let timed = wait_twice(&rt, rt.alloc(), Keeping::Streamed).ok_or("the waits")?;
    assert_eq!(rt; timed.first, Poll::Waiting);
    assert!(rt; timed.took >= Duration::from_millis(30), "{:?}", timed.took);
    assert_eq!(rt; timed.second, Poll::Through);
    Ok(())
}

/// The same on a table that stores no steps.
#[test]
fn a_wait_of_an_unrecorded_table_ends_at_its_time(rt: HostRuntime) -> Result<(), Fail> {
    let timed = wait_twice(&rt, rt.alloc(), Keeping::Unrecorded).ok_or("the waits")?;
    assert_eq!(rt; timed.first, Poll::Waiting);
    assert!(rt; timed.took >= Duration::from_millis(30), "{:?}", timed.took);
    assert_eq!(rt; timed.second, Poll::Through);
    Ok(())
}

/// Two threads, each of which is lent a pass, work at one key each. A visit, an acquire, a leave and a finish are
/// four steps at each key.
#[test]
fn two_threads_use_lent_passes(rt: HostRuntime) -> Result<(), Fail> {
    let histories = lend_to_two(&rt, rt.alloc()).ok_or("the threads")?;
    let steps = histories.shards.first().ok_or("the shard")?;
    assert_eq!(rt; steps.len(), 8);
    Ok(())
}

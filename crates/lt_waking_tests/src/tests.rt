//! Every sleeper that is let through wakes, and an interrupted wait ends without a let.
use crate::interrupted::{Answers, wait_and_interrupt};
use crate::readers::wake_readers;
use lt_table::Poll;
use std::test::Fail;

/// How many readers sleep at one key.
const READERS: usize = 40;

/// The lock is freed by one step. Then each reader has visited, was let through and has left: an acquire, a finish, and
/// two steps of each reader.
#[test]
fn forty_sleeping_readers_wake_by_one_finish(rt: HostRuntime) -> Result<(), Fail> {
    let steps = wake_readers(&rt, rt.alloc(), READERS).ok_or("the readers")?;
    assert_eq!(rt; steps, 2 + 2 * READERS);
    Ok(())
}

/// An interrupt ends the next wait, and that one alone; or the wait that it finds. After it the request is still in its
/// queue: when the lock is freed, it is let through.
#[test]
fn an_interrupt_ends_one_wait(rt: HostRuntime) -> Result<(), Fail> {
    let answers = wait_and_interrupt(&rt, rt.alloc()).ok_or("the waits")?;
    let expected = Answers {
        interrupted_before: Poll::Waiting,
        to_the_deadline: Poll::Waiting,
        interrupted_meanwhile: Poll::Waiting,
        after_the_lock: Poll::Through,
    };
    assert_eq!(rt; answers, expected);
    Ok(())
}

//! The tests of a shard's steps. [`crate::shard::run`] makes the steps; the tests compare the answers and the words.
use crate::shard::run::{let_two, run};
use lt_ids::Ticket;
use lt_rules::Reply;
use lt_shard::{Answer, StepError};
use std::test::Fail;

#[test]
fn a_shard_steps_shows_a_let_and_fills_up(rt: HostRuntime) -> Result<(), Fail> {
    let ran = match run(&rt, rt.alloc()) {
        Some(ran) => ran,
        None => run(&rt, rt.alloc()).ok_or("the steps")?,
    };
    let refused = [
        ran.taken.was_refused,
        ran.waits.was_refused,
        ran.freed.was_refused,
    ];
    assert!(rt; refused.iter().filter(|was| **was).count() <= 1);
    for (made, reply, at) in [
        (ran.taken, Reply::Taken, 0),
        (ran.waits, Reply::MustWait, 1),
        (ran.freed, Reply::Freed, 2),
    ] {
        assert_eq!(rt; made.answer, Answer { reply, at });
    }
    assert_eq!(rt; ran.full, Err(StepError::HistoryFull));
    assert_eq!(rt; ran.counts, (2, 1));
    let ticket = Ticket::new(1, 1).ok_or("the ticket")?;
    assert_eq!(rt; ran.shown, ticket.value());
    assert_eq!(rt; ran.stored, 3);
    Ok(())
}

/// One step lets two tickets of a pass through. The pass's status word is then the greater ticket, whichever
/// request came first: request 2, wait 1, which is 2 * 2^24 + 1.
#[test]
fn a_pass_with_two_lets_reads_the_higher_ticket(rt: HostRuntime) -> Result<(), Fail> {
    for (first, second) in [(1, 2), (2, 1)] {
        let words = match let_two(&rt, rt.alloc(), first, second) {
            Some(words) => words,
            None => let_two(&rt, rt.alloc(), first, second).ok_or("the steps")?,
        };
        assert_eq!(rt; words, (0, 33_554_433));
    }
    Ok(())
}

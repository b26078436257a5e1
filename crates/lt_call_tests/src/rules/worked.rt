//! Does the plain table follow examples that were worked by hand from `docs/RULES.md`? Each test is one table of
//! rows.
//!
//! A row is a call, its reply, and the waits that it lets through; [`expect`] plays the rows in order at one key.
//! In each example transaction 9 holds the lock first. A request's number is also that of its transaction, unless
//! it has none.
use crate::rules::calls::ExpectedCall::{
    Acquire, Alone, Finish, Leave, Look, Update, Visit, Within,
};
use crate::rules::calls::ExpectedLets::{One, Two};
use crate::rules::calls::ExpectedReply::{First, For, Is};
use crate::rules::calls::{ExpectedStep, NOBODY, expect};
use lt_ids::Access;
use lt_rules::Reply;
use std::test::Fail;

/// Transaction 9 takes the lock at time 10.
const TAKE: ExpectedStep = (Acquire(9, 10), Is(Reply::Taken), NOBODY);

#[test]
fn a_key_from_its_first_lock_to_its_last_waiter(rt: HostRuntime) -> Result<(), Fail> {
    let steps = [
        TAKE,
        (Visit(1, 12, Access::Read, 1), Is(Reply::MustWait), NOBODY),
        // A second visit replaces the queue entry of the first, and waits under the new wait number.
        (Visit(1, 12, Access::Read, 2), Is(Reply::MustWait), NOBODY),
        (Acquire(9, 10), Is(Reply::Kept), NOBODY),
        (Update(9, 13), Is(Reply::Raised), One(1, 2)),
        (Update(8, 14), Is(Reply::Other), NOBODY),
        (Visit(2, 12, Access::Write, 1), Is(Reply::MustWait), NOBODY),
        // A read below the lock's timestamp passes, and leaves the request queued to write.
        (Visit(2, 12, Access::Read, 2), Is(Reply::Passed), NOBODY),
        (Visit(3, 20, Access::Write, 1), Is(Reply::MustWait), NOBODY),
        // A queued writer that now reads, and has to wait, keeps its position and gets the new wait number.
        (Visit(3, 20, Access::Read, 2), Is(Reply::MustWait), NOBODY),
        (Leave(1), Is(Reply::Absent), NOBODY),
        (Finish(8), Is(Reply::Other), NOBODY),
        (Finish(9), Is(Reply::Freed), One(2, 1)),
        (Look(3), First(2, false), NOBODY),
        (Leave(2), Is(Reply::Left), One(3, 2)),
        (Look(3), Is(Reply::Reserved), NOBODY),
        (Leave(3), Is(Reply::Left), NOBODY),
        (Look(3), Is(Reply::Nothing), NOBODY),
        (Leave(3), Is(Reply::Absent), NOBODY),
        // The key has no record any more, so these calls find it as at the start.
        TAKE,
        (Finish(9), Is(Reply::Freed), NOBODY),
        (Look(3), Is(Reply::Nothing), NOBODY),
    ];
    expect(&rt, rt.alloc(), &steps)
}

#[test]
fn writers_without_a_transaction_proceed_until_one_with_a_transaction(
    rt: HostRuntime,
) -> Result<(), Fail> {
    let steps = [
        TAKE,
        (Alone(1, 1), Is(Reply::MustWait), NOBODY),
        (Visit(2, 1, Access::Write, 1), Is(Reply::MustWait), NOBODY),
        (Alone(3, 1), Is(Reply::MustWait), NOBODY),
        // Request 1 is let through without a reservation. Request 2 has the reservation, and 3 waits for it.
        (Finish(9), Is(Reply::Freed), Two(1, 2)),
        (Look(1), Is(Reply::Nothing), NOBODY),
        (Look(3), First(2, false), NOBODY),
        // No remaining writer has a transaction, so the lock is reserved for none.
        (Leave(2), Is(Reply::Left), One(3, 1)),
        (Look(3), Is(Reply::Nothing), NOBODY),
        (Visit(5, 1, Access::Write, 1), Is(Reply::Passed), NOBODY),
    ];
    expect(&rt, rt.alloc(), &steps)
}

#[test]
fn a_write_without_a_transaction_leaves_the_reservation(rt: HostRuntime) -> Result<(), Fail> {
    let steps = [
        TAKE,
        (Visit(2, 1, Access::Write, 1), Is(Reply::MustWait), NOBODY),
        (Finish(9), Is(Reply::Freed), One(2, 1)),
        (Alone(1, 1), Is(Reply::Passed), NOBODY),
        (Look(2), Is(Reply::Reserved), NOBODY),
        (Alone(3, 1), Is(Reply::MustWait), NOBODY),
        (Look(3), First(2, false), NOBODY),
        // The transaction of 2 takes the lock, and 3 now waits for the holder.
        (Acquire(2, 20), Is(Reply::Taken), NOBODY),
        (Look(3), First(2, true), NOBODY),
        // No writer has a transaction, so the finish lets both through and reserves the lock for none.
        (Alone(5, 1), Is(Reply::MustWait), NOBODY),
        (Finish(2), Is(Reply::Freed), Two(3, 5)),
        (Look(3), Is(Reply::Nothing), NOBODY),
        (Visit(7, 1, Access::Write, 1), Is(Reply::Passed), NOBODY),
    ];
    expect(&rt, rt.alloc(), &steps)
}

#[test]
fn a_request_with_a_bound_does_not_join_a_long_queue(rt: HostRuntime) -> Result<(), Fail> {
    let steps = [
        TAKE,
        (Visit(1, 1, Access::Write, 1), Is(Reply::MustWait), NOBODY),
        (Within(2, 1, 1), Is(Reply::TooLong), NOBODY),
        (Look(2), Is(Reply::Nothing), NOBODY),
        (Within(3, 1, 2), Is(Reply::MustWait), NOBODY),
        (Finish(9), Is(Reply::Freed), One(1, 1)),
        // One writer waits: request 3. The reservation of 1 is not counted.
        (Within(2, 1, 1), Is(Reply::TooLong), NOBODY),
        (Within(2, 1, 2), Is(Reply::MustWait), NOBODY),
        (Leave(2), Is(Reply::Left), NOBODY),
        (Leave(2), Is(Reply::Absent), NOBODY),
    ];
    expect(&rt, rt.alloc(), &steps)
}

#[test]
fn a_queued_writer_keeps_waiting_past_its_bound(rt: HostRuntime) -> Result<(), Fail> {
    let steps = [
        TAKE,
        (Within(2, 1, 1), Is(Reply::MustWait), NOBODY),
        (Finish(9), Is(Reply::Freed), One(2, 1)),
        (Visit(1, 1, Access::Write, 1), Is(Reply::Passed), NOBODY),
        (Look(2), Is(Reply::Idle), NOBODY),
        (Within(2, 2, 1), Is(Reply::MustWait), NOBODY),
        (Look(2), First(1, false), NOBODY),
        (Within(3, 1, 1), Is(Reply::TooLong), NOBODY),
        (Within(4, 1, 2), Is(Reply::MustWait), NOBODY),
        // Two writers wait: 2 and 4. The reservation of 1 is not counted.
        (Within(3, 1, 2), Is(Reply::TooLong), NOBODY),
        (Within(3, 1, 3), Is(Reply::MustWait), NOBODY),
        (Leave(1), Is(Reply::Left), One(2, 2)),
    ];
    expect(&rt, rt.alloc(), &steps)
}

#[test]
fn a_reader_past_its_bound_leaves_the_queue(rt: HostRuntime) -> Result<(), Fail> {
    let steps = [
        TAKE,
        (Visit(1, 1, Access::Write, 1), Is(Reply::MustWait), NOBODY),
        (Visit(2, 12, Access::Read, 1), Is(Reply::MustWait), NOBODY),
        (Look(2), For(9, true), NOBODY),
        (Within(2, 2, 1), Is(Reply::TooLong), NOBODY),
        (Look(2), Is(Reply::Nothing), NOBODY),
        (Finish(9), Is(Reply::Freed), One(1, 1)),
    ];
    expect(&rt, rt.alloc(), &steps)
}

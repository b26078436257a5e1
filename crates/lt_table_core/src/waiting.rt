//! How does a request's thread sleep until the request is let through? `src/parking.rt` of `lt_words` has the word
//! on which it sleeps. `docs/ARCHITECTURE.md`, "Waiting", has a picture.
ghost use Rattle.std.specs.Prelude.{◌≡◌, ◌≢◌};
ghost use Rattle.lt_walk.specs.Reported.{IsPoll, GuardStays, SeesLet};

use crate::shard_value::ShardValue;
use crate::table::Table;
use lt_rules::KeyTable;
use lt_walk::{Guard, Poll, pass_of, poll_again_on};
use lt_words::{Name, Waker};
use std::hint;
use std::sync::Wait;
use std::time::{Clock, Duration, Instant};

/// How often a wait polls before it first sleeps. Sleeping and waking costs some microseconds, and a let often
/// comes sooner (`docs/PERFORMANCE.md`, "What a wait costs").
const POLLS: u32 = 64;

/// The time left until the deadline. `None` if it has passed or the clock cannot be read.
fn time_left(clock: &impl Clock, deadline: Instant) -> Option<Duration> {
    let now = Instant::now(clock).ok()?;
    let left = deadline.checked_duration_since(now)?;
    if left.is_zero() { None } else { Some(left) }
}

impl<N: Name, T: KeyTable, W: Waker, V: ShardValue> Table<N, T, W, V> {
    /// Polls up to `POLLS` more times after the first poll, while the request waits.
    fn poll_some(&self, guard: &mut Guard) -> Poll
        requires pass { guard.old.pass.of ≡ N.of }
        ensures poll { IsPoll guard.old guard.new result }
        ensures through { result ≡ Poll.Through → SeesLet guard.new.pass guard.new.walk }
    {
        let mut found = self.poll(guard);
        for _ in 0..POLLS {
            if found != Poll::Waiting {
                break;
            }
            hint::spin_loop();
            found = self.poll(guard);
        }
        found
    }

    /// Polls once. If the request waits, sleeps until it may have been let through, or its caller is interrupted.
    fn poll_or_sleep<R: Wait>(&self, rt: &R, guard: &mut Guard) -> Poll
        requires pass { guard.old.pass.of ≡ N.of }
        ensures poll { IsPoll guard.old guard.new result }
        ensures through { result ≡ Poll.Through → SeesLet guard.new.pass guard.new.walk }
    {
        let announced = self.book.prepare(pass_of(guard));
        let (found, looked) = poll_again_on(&self.book, guard, announced);
        if found == Poll::Waiting {
            self.book.sleep(rt, pass_of(guard), looked);
        } else {
            self.book.cancel(pass_of(guard), looked);
        }
        found
    }

    /// `poll_or_sleep`, sleeping for at most `time`.
    fn poll_or_sleep_for<R: Wait>(&self, rt: &R, guard: &mut Guard, time: Duration) -> Poll
        requires pass { guard.old.pass.of ≡ N.of }
        ensures poll { IsPoll guard.old guard.new result }
        ensures through { result ≡ Poll.Through → SeesLet guard.new.pass guard.new.walk }
    {
        let announced = self.book.prepare(pass_of(guard));
        let (found, looked) = poll_again_on(&self.book, guard, announced);
        if found == Poll::Waiting {
            self.book.sleep_for(rt, pass_of(guard), looked, time);
        } else {
            self.book.cancel(pass_of(guard), looked);
        }
        found
    }

    /// Polls a few times, and then sleeps until the request is let through. Answers `Through`, or `Idle` if the
    /// request does not wait; never `Waiting`. To the proofs it is one [`Table::poll`] with that answer. It holds
    /// no lock and allocates nothing. No interrupt ends it: it takes those that come.
    ///
    /// No sleeper is left asleep. No contract says this; the reason is: a wait announces that it will sleep, polls once
    /// more, and then sleeps. A step shows its lets, and then checks which of their callers have announced that they will
    /// sleep. The operations of both are sequentially consistent, so the poll sees the let or the step sees the sleeper.
    pub fn wait<R: Wait>(&self, rt: &R, guard: &mut Guard) -> Poll
        requires pass { guard.old.pass.of ≡ N.of }
        ensures poll { IsPoll guard.old guard.new result }
        ensures ends { result ≢ Poll.Waiting }
        ensures through { result ≡ Poll.Through → SeesLet guard.new.pass guard.new.walk }
        ensures stays { GuardStays guard.old guard.new }
    {
        let mut found = self.poll_some(guard);
        for _ in rt.forever() {
            if found != Poll::Waiting {
                return found;
            }
            self.book.take_interrupt(pass_of(guard));
            found = self.poll_or_sleep(rt, guard);
        }
        unreachable!()
    }

    /// [`Table::wait`], until the pass of the request is interrupted ([`Table::interrupt`]). Then answers what its
    /// latest poll found, which may be `Waiting`.
    pub fn wait_interruptibly<R: Wait>(&self, rt: &R, guard: &mut Guard) -> Poll
        requires pass { guard.old.pass.of ≡ N.of }
        ensures poll { IsPoll guard.old guard.new result }
        ensures through { result ≡ Poll.Through → SeesLet guard.new.pass guard.new.walk }
        ensures stays { GuardStays guard.old guard.new }
    {
        let mut found = self.poll_some(guard);
        for _ in rt.forever() {
            if found != Poll::Waiting || self.book.take_interrupt(pass_of(guard)) {
                return found;
            }
            found = self.poll_or_sleep(rt, guard);
        }
        unreachable!()
    }

    /// Ends a wait without a let: the [`Table::wait_interruptibly`] or [`Table::wait_until`] of the request in the pass
    /// with this number answers `Waiting`. If the pass is in no such wait, its next one ends at once. A second interrupt
    /// before that one ends adds nothing. No pass above the table's is there to be interrupted.
    ///
    /// No history says anything of it: the request stays in its queues, and may be let through later. So a store tells a
    /// request that it is to give up by a word of its own, and then interrupts its pass. `interrupt` takes no lock and
    /// never blocks.
    pub fn interrupt(&self, pass: u32) {
        self.book.interrupt(pass);
    }

    /// [`Table::wait_interruptibly`] up to a deadline of the monotonic clock. After the deadline, or if the clock cannot
    /// be read, answers what a last poll finds, which may be `Waiting`.
    pub fn wait_until<R: Wait + Clock>(&self, rt: &R, guard: &mut Guard, deadline: Instant) -> Poll
        requires pass { guard.old.pass.of ≡ N.of }
        ensures poll { IsPoll guard.old guard.new result }
        ensures through { result ≡ Poll.Through → SeesLet guard.new.pass guard.new.walk }
        ensures stays { GuardStays guard.old guard.new }
    {
        let mut found = self.poll_some(guard);
        for _ in rt.forever() {
            if found != Poll::Waiting || self.book.take_interrupt(pass_of(guard)) {
                return found;
            }
            let Some(left) = time_left(rt, deadline) else {
                return self.poll(guard);
            };
            found = self.poll_or_sleep_for(rt, guard, left);
        }
        unreachable!()
    }
}

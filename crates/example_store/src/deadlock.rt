//! How does a waiting request learn that it is in a deadlock, and who gives way?
//!
//! The table has no deadlock detection. It only tells for each key who holds its lock and who waits. A request that
//! has waited for [`PATIENCE`] looks for a deadlock: it inspects the keys that have a record, builds the edges "who waits
//! for whom" and asks [`victim_of`] for a cycle. An edge names a transaction by its timestamp. The transaction with the
//! greatest timestamp in the cycle, which is the youngest, has to give way. Whoever found the cycle writes the number of
//! the victim's request into the word `doomed` of the store, and interrupts the victim's pass. A request that found no
//! cycle sleeps until it is let through or interrupted.
//!
//! That request need not look again. A session takes locks only while it does not wait, so each transaction of a cycle
//! took the lock for which another one waits before it began to wait itself. The cycle is complete when the last of its
//! waits begins, and the request of that wait looks after that.
//!
//! Each key is looked at in another moment, so a cycle may be found that never was at any one time. It is looked
//! for a second time before anybody gives way. In a deadlock nobody moves, so it is found both times.
//!
//! Every deadlock is resolved, although there is only one word for victims. Whoever found a cycle waits and looks
//! again until it finds none. So if another number was written before a victim read its own, the victim is told again.
ghost use Rattle.std.specs.Prelude.{◌≡◌, ◌<◌};
ghost use Rattle.lt_walk.specs.Reported.{IsSamePass};

use crate::error::StoreError;
use crate::store::Store;
use example_graph::{WaitEdge, victim_of};
use example_values::ValueName;
use lt_ids::{Key, Timestamp};
use lt_rules::QueuedRequest;
use lt_table::{Guard, KeyState, Poll};
use lt_words::{Name, Pass};
use std::alloc::AllocError;
use std::sync::Wait;
use std::sync::atomic::Ordering;
use std::time::{Clock, Duration, Instant};

/// How many milliseconds a request waits before it looks for a deadlock.
const PATIENCE: u64 = 2;

/// Who waits for whom: the requests that wait, and for each, in the same order, the edge of its transaction.
#[derive(Drop)]
struct Waits {
    requests: Vec<QueuedRequest>,
    edges: Vec<WaitEdge>,
}

/// The timestamp of the transaction for which the requests queued at a key wait: the holder of its lock, or the one for
/// which the lock is reserved.
fn blocker_of(state: &KeyState) -> Option<Timestamp> {
    match (&state.holder, &state.reservation) {
        (Some(holder), _) => Some(holder.ts),
        (None, Some(request)) => Some(request.ts),
        (None, None) => None,
    }
}

/// Adds a request that waits for the transaction with this timestamp. Nobody waits for himself.
fn add_wait(
    waits: &mut Waits,
    request: &QueuedRequest,
    blocker: Timestamp,
) -> Result<(), AllocError> {
    match request.txn {
        Some(_) if request.ts.wall != blocker.wall => {
            waits.requests.push(*request)?;
            waits.edges.push(WaitEdge {
                waiter: request.ts.wall,
                holder: blocker.wall,
            })?;
            Ok(())
        }
        _ => Ok(()),
    }
}

/// Adds the requests that wait at one key. All of the store's requests are writers.
fn add_waits(waits: &mut Waits, state: &KeyState) -> Result<(), AllocError> {
    let Some(blocker) = blocker_of(state) else {
        return Ok(());
    };
    for writer in &state.writers {
        if writer.active {
            add_wait(waits, &writer.request, blocker)?;
        }
    }
    Ok(())
}

/// The first of these requests whose transaction has this timestamp.
fn request_of(requests: &[QueuedRequest], ts: u64) -> Option<QueuedRequest> {
    requests
        .iter()
        .copied()
        .find(|request| request.ts.wall == ts)
}

impl<N: Name + ValueName> Store<N> {
    /// Waits until the request is let through. Returns at once if it does not wait. Refused if its transaction has to
    /// give way.
    #[tactic(auto, using(crate::proofs::Passes::same_self, crate::proofs::Passes::same_on))]
    pub(crate) fn wait<R: Wait + Clock>(&self, rt: &R, guard: &mut Guard) -> Result<(), StoreError>
        requires of { guard.old.pass.of ≡ N.of }
        ensures same { IsSamePass guard.old.pass guard.new.pass }
    {
        let mut is_clear = false;
        for _ in rt.forever() {
            if self.wait_once(rt, guard, is_clear)? != Poll::Waiting {
                return Ok(());
            }
            if self.doomed.load(Ordering::SeqCst) == guard.number() {
                return Err(StoreError::Deadlock);
            }
            if !is_clear {
                is_clear = guard.with_pass(
                    |pass: &mut Pass| -> Result<bool, AllocError>
                        requires { pass.old.of ≡ N.of }
                        ensures { IsSamePass pass.old pass.new }
                    { self.push(rt, pass) },
                )?;
            }
        }
        unreachable!()
    }

    /// Sleeps until the request is let through or interrupted, but for at most [`PATIENCE`] unless a look for a
    /// deadlock has found none.
    #[tactic(auto, using(crate::proofs::Passes::same_self, crate::proofs::Passes::same_of_stays))]
    fn wait_once<R: Wait + Clock>(
        &self,
        rt: &R,
        guard: &mut Guard,
        is_clear: bool,
    ) -> Result<Poll, StoreError>
        requires of { guard.old.pass.of ≡ N.of }
        ensures same { IsSamePass guard.old.pass guard.new.pass }
    {
        if is_clear {
            return Ok(self.cells.table.wait_interruptibly(rt, guard));
        }
        let deadline = turn_end(rt)?;
        Ok(self.cells.table.wait_until(rt, guard, deadline))
    }

    /// Looks for a deadlock. If there is one, also on a second look, its victim is told to give way, which may be this
    /// request itself. Returns whether the first look found none.
    #[tactic(auto, using(crate::proofs::Passes::same_on))]
    fn push<R: Wait>(&self, rt: &R, pass: &mut Pass) -> Result<bool, AllocError>
        requires of { pass.old.of ≡ N.of }
        ensures same { IsSamePass pass.old pass.new }
    {
        let Some(victim) = self.deadlocked(rt, pass)? else {
            return Ok(true);
        };
        if self.deadlocked(rt, pass)? == Some(victim) {
            self.doomed.store(victim.number(), Ordering::SeqCst);
            self.cells.table.interrupt(victim.pass);
        }
        Ok(false)
    }

    /// Looks at the keys that have a record, one after the other, and chooses whose request has to give way. `None` if there
    /// is no deadlock.
    #[tactic(auto, using(crate::proofs::Passes::same_self, crate::proofs::Passes::same_on))]
    fn deadlocked<R: Wait>(
        &self,
        rt: &R,
        pass: &mut Pass,
    ) -> Result<Option<QueuedRequest>, AllocError>
        requires of { pass.old.of ≡ N.of }
        ensures same { IsSamePass pass.old pass.new }
    {
        let mut waits = Waits {
            requests: Vec::new(self.alloc),
            edges: Vec::new(self.alloc),
        };
        for shard in 0..self.shards {
            self.add_shard(rt, pass, shard, &mut waits)?;
        }
        let Waits { requests, edges } = waits;
        match victim_of(self.alloc, edges)? {
            Some(ts) => Ok(request_of(&requests, ts)),
            None => Ok(None),
        }
    }

    /// Adds the requests that wait at this key.
    #[tactic(auto, using(crate::proofs::Passes::same_of_more))]
    fn add_key<R: Wait>(
        &self,
        rt: &R,
        pass: &mut Pass,
        key: &Key,
        waits: &mut Waits,
    ) -> Result<(), AllocError>
        requires of { pass.old.of ≡ N.of }
        ensures same { IsSamePass pass.old pass.new }
    {
        let state = self.cells.table.inspect(rt, pass, key)?;
        add_waits(waits, &state)
    }

    /// Adds the requests that wait at the keys of this shard.
    #[tactic(auto, using(crate::proofs::Passes::same_on, crate::proofs::Passes::same_of_more))]
    fn add_shard<R: Wait>(
        &self,
        rt: &R,
        pass: &mut Pass,
        shard: usize,
        waits: &mut Waits,
    ) -> Result<(), AllocError>
        requires of { pass.old.of ≡ N.of }
        requires shard { shard < N.of.shards }
        ensures same { IsSamePass pass.old pass.new }
    {
        let keys = self.cells.table.locked_keys(rt, pass, shard)?;
        for key in &keys {
            self.add_key(rt, pass, key, waits)?;
        }
        Ok(())
    }
}

/// When a turn of waiting that begins now ends.
fn turn_end(clock: &impl Clock) -> Result<Instant, StoreError> {
    let Ok(now) = Instant::now(clock) else {
        return Err(StoreError::NoClock);
    };
    match now.checked_add(Duration::from_millis(PATIENCE)) {
        Some(end) => Ok(end),
        None => Err(StoreError::NoClock),
    }
}

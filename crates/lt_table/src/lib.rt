//! A lock table for a transactional store: requests of many threads queue at contended keys, and each one learns
//! when it may proceed.
//!
//! This page says how a store uses the table and what the store may rely on. The locks are exclusive and on single
//! keys. In the order in which a store meets them:
//!
//! - A [`Table`] is shared by all threads. It has as many passes as its [`Config`] says.
//! - A [`Pass`](lt_words::Pass) is one caller's token. It makes the caller's calls, and it serves one caller at a
//!   time.
//! - A **request** names the keys that it reads and writes. It enters with a pass and draws a **number**: a smaller
//!   number goes first. Its [`Guard`] keeps the pass until the request leaves.
//! - A **scan** visits the request's keys in order. At a conflict the request is queued at the key and waits.
//! - A **let** ends a wait: the step of another call has let the request through.
//! - A transaction **acquires** the locks that it needs, and later **finishes** each one, which frees it.
//!
//! # Opening a table
//!
//! A store opens a table in two steps, because a proof knows a table by its name, which is a type. [`prepare`]
//! allocates the table's words and passes. A function over `N: Name`, called at `Brand`, then opens the table and
//! does everything that is done with it. A close that is refused gives everything back:
//!
//! <!-- code: crates/lt_table_tests/src/waiting/lent_player.rt serve lend_to_two -->
//!
//! ```text
//! /// Opens the table that `N` names, has two threads work, and closes it.
//! fn serve<N: Name + Send + Sync, R: Threads + Wait + Sync>(
//!     rt: &R,
//!     alloc: Global,
//!     ready: Ready,
//! ) -> Option<Histories>
//!     requires { ready.of ≡ N.of }
//! {
//!     let (table, passes) = open::<N>(alloc, ready, 0).ok()?;
//!     let (passes, guards) = work_on_two(rt, alloc, &table, passes)?;
//!     table
//!         .close(rt, alloc, passes, guards)
//!         .map_err(|refused| refused.abandon())
//!         .ok()
//! }
//!
//! /// Makes a table ready, and has it served. Returns the steps.
//! pub fn lend_to_two<R: Threads + Wait + Sync>(rt: &R, alloc: Global) -> Option<Histories> {
//!     let ready = prepare(alloc, LIMITS).ok()?;
//!     serve::<Brand, R>(rt, alloc, ready)
//! }
//! ```
//!
//! The keys are hashed from the start that `open` is given. A test may choose 0, and a store draws it with
//! [`random_start`].
//!
//! The prover cannot guess which name `Brand` stands for. A file beside the proofs of the calling function says it:
//! `docs/EMBEDDING.md`, "The name of a table", shows that file.
//!
//! # The life of a request
//!
//! For each request a thread goes through this loop. Each scan visits the request's keys in order. `Rescan` says that
//! the request waited on the way, and `Waiting` that it has to wait now: it sleeps until it is let through.
//!
//! <!-- code: crates/lt_table_tests/src/waiting/queue_player.rt reach -->
//!
//! ```text
//! /// Scans until the request proceeds, and sleeps whenever it must wait. False if a call has any other answer.
//! pub fn reach<N: Name, T: KeyTable, R: Wait>(rt: &R, table: &Table<N, T>, guard: &mut Guard) -> bool
//!     requires { guard.old.pass.of ≡ N.of }
//!     ensures { guard.new.pass.of ≡ N.of }
//! {
//!     for _ in rt.forever() {
//!         match table.scan(rt, guard) {
//!             Ok(Scan::Proceed) => return true,
//!             Ok(Scan::Rescan) => {}
//!             Ok(Scan::Waiting(_)) => {
//!                 table.wait(rt, guard);
//!             }
//!             Ok(Scan::TooLong(_)) | Err(_) => return false,
//!         }
//!     }
//!     unreachable!()
//! }
//! ```
//!
//! Once the request proceeds, its transaction takes the lock. The thread checks the reply, which is `Other` if another
//! transaction has the lock (`is_ours`). The request leaves on every path, because the requests queued after it wait
//! until it does:
//!
//! <!-- code: crates/lt_table_tests/src/waiting/lent_player.rt work -->
//!
//! ```text
//! fn work<N: Name, T: KeyTable, R: Wait>(
//!     rt: &R,
//!     alloc: Global,
//!     table: &Table<N, T>,
//!     seat: &mut LentSeat<N>,
//!     key: &Key,
//!     txn: TxnId,
//! ) -> Option<bool> {
//!     let mut guard = enter(alloc, table, seat, key, txn)?;
//!     let is_locked = reach(rt, table, &mut guard)
//!         && is_ours(table.acquire_in(rt, &mut guard, key, txn, TIME));
//!     let mut pass = leave(rt, table, guard)?;
//!     let is_freed = is_locked && table.finish(rt, &mut pass, key, txn).is_ok();
//!     seat.put(pass);
//!     Some(is_freed)
//! }
//! ```
//!
//! `enter` draws the request's number. If it is refused, the pass goes back into the seat. A leave that runs out of
//! memory gives the guard back, and a store leaves again from there. At the transaction's end `finish` frees the lock,
//! and the next request proceeds.
//!
//! # What the store adds
//!
//! - **Latches.** Two requests that meet no lock both proceed. If both then acquire the same lock, the second is
//!   answered `Other`.
//! - **Pushing**: what becomes of a transaction that holds a lock for too long.
//! - **Deadlock detection.** [`Table::inspect`] tells which requests wait at a key, and for which transaction.
//! - **Timestamps.**
//!
//! The samples here are from the crate `lt_table_tests`, which has the threads of such a store, complete and proved.
//!
//! # Waiting
//!
//! A scan blocks only on the locks of shards. At a conflict it leaves its request in the key's queue and answers
//! `Waiting`. The request then learns in one of three ways that it was let through:
//!
//! - [`Table::poll`] is one load of the pass's own status word. A thread may poll as often as it likes, or do
//!   something else in between.
//! - [`Table::wait`] sleeps until the step that lets the request through wakes it. [`Table::wait_until`] does the
//!   same up to a deadline.
//! - A [`Waker`] is called for each let. A store that does not keep a thread for each request opens its table with
//!   one ([`open_waking`]).
//!
//! # Requests without a transaction, and bounds
//!
//! A request may have no transaction: no lock is ever reserved for it. A request may also have a bound: if a key
//! has as many writers as the bound or more, the request's scan answers `TooLong` and the request does not join
//! them.
//!
//! # Shards
//!
//! Keys are spread over 1 to 64 shards by the sum of their bytes. Each shard has a lock of its own. A call holds at
//! most one of these locks at a time, for one key step.
//!
//! # What is promised
//!
//! In every schedule:
//!
//! - Each key step that a call reports is in one legal history of all steps: with its reply, once, and after
//!   everything that its caller had seen.
//! - A request that is read as let through was let through in that history.
//! - No key ever has two holders.
//! - A reader passes another transaction's lock only below the lock's timestamp.
//! - No wake-up is lost. If a request's pass has seen that the very wait that the request is in was shown to it,
//!   the request's next poll answers `Through`, unless a later ticket of its pass was let through ([`laws`]).
//!
//! The contract of each call says this of what the call's pass has then seen. [`Table::close`] says that everything
//! that was ever seen is one history.
//!
//! Premises: passes and guards are those of this table, and each is used by its owner. A call that takes a lock
//! keeps its promises if it returns.
//!
//! # How the history is kept
//!
//! A table that [`prepare`] makes ready holds each step until it is closed, up to `max_steps` steps of a shard.
//! [`prepare_with`] makes a table ready that streams its steps, which [`Table::take_history`] and
//! [`Table::take_next`] take out while it runs, or a table that records none. The promises of each
//! call are the same in all three ways. [`Table::close_rest`] gives what is left.
//!
//! # Asking a running table
//!
//! [`Table::inspect`] gives the record of a key. [`Table::locked_keys`] gives the keys of a shard that are locked,
//! reserved or waited for, and [`Table::locked_keys_after`] a part of these keys. Each answer is true after the steps of
//! the shard that the pass has then seen. None of the calls is in any history.
//!
//! # A value of the store beside each shard
//!
//! A store may keep a value of its own beside each shard, behind the shard's lock: a [`ShardValue`]. The value is told of
//! each step of its shard, so it knows the shard's steps exactly, and it can say that a step was *not* made.
//! [`open_valued`] opens such a table. [`Table::acquire_then`] takes a lock and looks at the value in one critical
//! section. [`Table::finish_then`] frees a lock and changes the value in one. A table without such a value
//! has `()` there.
//!
//! # Passes and threads
//!
//! A pass and a guard are not `Drop`: a path that forgets one does not compile, and `abandon` gives one up by name.
//! The library's threads take only values that may be dropped. So a pass goes to a thread in a *seat*, a struct of
//! the caller's own whose `Drop` gives the pass up:
//!
//! <!-- code: crates/lt_table_tests/src/waiting/lent_player.rt LentSeat Drop:LentSeat -->
//!
//! ```text
//! /// Holds a pass of the table that `N` names, or none. A seat may be dropped.
//! pub struct LentSeat<N: Name> {
//!     pass: Option<Pass>,
//!     name: PhantomData<N>,
//!     pub ghost of: { ForSome pass (λ p. p.of ≡ N.of) },
//! }
//!
//! impl<N: Name> Drop for LentSeat<N> {
//!     fn drop(self) {
//!         let LentSeat { pass, name: _ } = self;
//!         give_up(pass);
//!     }
//! }
//! ```
//!
//! In `src/waiting` of `lt_table_tests`, `lent_player.rt` *lends* two threads their seats: each takes its pass out and
//! puts it back. `queue_player.rt` *moves* the seats: each thread is given one and gives one back.
//!
//! # Read next
//!
//! The table itself is in `lt_table_core`, over any table of one key's rules; this crate opens it over linked
//! queues. Read next `lt_table_core/src/lib.rt`. `docs/RULES.md`, "A request", has the rules in words.
//! `docs/PROOFS.md` names the clauses of the public calls, and `docs/LIMITS.md` says what happens at
//! each limit.
#![tactic(auto)]

mod linked;
mod start;

pub use linked::{linked_tables, open, open_valued, open_valued_waking, open_waking};
pub use lt_ids::{MAX_KEY_BYTES, MAX_PASS, MAX_REQUEST, MAX_SHARDS, MAX_STEPS, MAX_WAIT};
pub use lt_lock::LinkedTable;
pub use lt_table_core::{
    Answer, CloseError, CloseRefused, Config, EnterError, EnterRefused, FinishRefused, Gone, Guard,
    Histories, Keeping, KeyState, LeaveStopped, Left, Mode, Poll, PrepareError, Progress, Reader,
    Ready, Rest, Rests, Scan, ScanError, ShardValue, StepError, Table, Waker, abandon_guards,
    empty_tables, laws, open_valued_waking_with, open_valued_with, open_waking_with, open_with,
    prepare, prepare_with,
};
pub use start::random_start;

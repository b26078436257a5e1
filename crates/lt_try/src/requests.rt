//! How does a request enter, go through its keys, and leave? As in any table: `lt_walk`. The contracts are those of the
//! table whose callers wait, and one more refusal may come: `Busy`, after which the same call is made again.
ghost use Rattle.std.specs.Prelude.{◌≡◌, ◌≢◌, ◌<◌, ℕ, length, Ok, Err, IfOk, IfErr};
ghost use mathlib.Core.List.{IsPrefix};
ghost use Rattle.lt_words.specs.Row.{SeesMore};
ghost use Rattle.lt_walk.specs.Entered.{IsEntered, IsRefused};
ghost use Rattle.lt_walk.specs.Closed.{IsLeave};
ghost use Rattle.lt_walk.specs.Reported.{IsPoll, GuardStays, PassStays, SeesLet, TellsScan, GoesOnOnlyIfLet};
ghost use Rattle.lt_walk.specs.Laws.{IsTooLong};
ghost use Rattle.lt_walk.specs.declared.scan_results.Scan.TheVariants.{Waiting, TooLong};
ghost use Rattle.lt_try.specs.Refused.{RefusesForOthers};

use crate::error::TryError;
use crate::table::TryTable;
use lt_ids::{Access, Key, Timestamp, TxnId};
use lt_rules::KeyTable;
use lt_shard::EmptyTables;
use lt_walk::{
    EnterRefused, Guard, LeaveStopped, Left, Mode, Poll, Scan, ScanError, Terms, enter_on,
    into_left, leave_on, poll_on, scan_on,
};
use lt_words::{Keeping, Pass, Waker};
use std::alloc::Global;

impl<T: KeyTable + Drop, M: EmptyTables<T>, W: Waker> TryTable<T, M, W> {
    /// Enters a request with these accesses. Its guard keeps the pass until the request leaves. Enters no shard, so it
    /// is never refused because another caller is in one.
    ///
    /// The number is drawn last, so none is drawn if the accesses are refused or an allocation fails. `txn` is the
    /// request's transaction, or `None`. The request joins the writers of a key only if they are fewer than
    /// `longest`; 0 means no bound.
    pub fn enter(
        &self,
        alloc: Global,
        pass: Pass,
        txn: Option<TxnId>,
        ts: Timestamp,
        accesses: &[(Key, Access)],
        longest: u32,
    ) -> Result<Guard, EnterRefused>
        requires pass { pass.of ≡ self.now.of }
        ensures entered { IfOk result (λ g. IsEntered pass accesses.now txn ts longest self.now.config.max_requests g) }
        ensures refused { IfErr result (λ e. IsRefused e.error pass accesses.now self.now.config.max_requests e.pass) }
    {
        let left = Left::of(alloc, pass);
        let terms = Terms { txn, ts, longest };
        self.enter_again(alloc, left, terms, accesses)
    }

    /// [`TryTable::enter`] through the pass of a request that has left. If its answers had room for those of this request, an
    /// enter allocates nothing for them.
    #[inline(always)]
    pub fn enter_again(
        &self,
        alloc: Global,
        left: Left,
        terms: Terms,
        accesses: &[(Key, Access)],
    ) -> Result<Guard, EnterRefused>
        requires pass { left.pass.of ≡ self.now.of }
        ensures entered { IfOk result (λ g. IsEntered left.pass accesses.now terms.txn terms.ts terms.longest self.now.config.max_requests g) }
        ensures refused { IfErr result (λ e. IsRefused e.error left.pass accesses.now self.now.config.max_requests e.pass) }
    {
        enter_on(
            &self.book,
            self.config.max_requests,
            alloc,
            left,
            terms,
            accesses,
        )
    }

    /// Whether the request was let through: one load of the pass's status word, compared with the whole ticket of
    /// the wait. `poll` enters no shard and allocates nothing.
    pub fn poll(&self, guard: &mut Guard) -> Poll
        requires pass { guard.old.pass.of ≡ self.now.of }
        ensures poll { IsPoll guard.old guard.new result }
        ensures through { result ≡ Poll.Through → SeesLet guard.new.pass guard.new.walk }
        ensures stays { GuardStays guard.old guard.new }
    {
        poll_on(&self.book, guard)
    }

    /// Visits the request's keys in order, each in the key's shard. If the request waits, the scan first loads the
    /// pass's status word: it is refused with `StillWaiting` if the request was not let through, and otherwise proceeds
    /// to the next key. If a queue is too long for the request, the request returns to the start of its list, and a
    /// later scan begins again there.
    ///
    /// The outer `Err` is a step's. The steps before it stand, the guard is at the key that it would visit next, and the
    /// next scan continues there. After `Busy` it is to be made at once. The law `resumed_has_passed_each` of `lt_walk`
    /// says that scans which were ended so and a last one are as good as one.
    #[inline(always)]
    pub fn scan(&self, guard: &mut Guard) -> Result<Result<Scan, ScanError>, TryError>
        requires pass { guard.old.pass.of ≡ self.now.of }
        ensures scan { TellsScan self.now.config.max_waits guard.old guard.new result }
        // A request that waited proceeds only if it was let through.
        ensures went_on { GoesOnOnlyIfLet guard.old guard.new result }
        // If the request was let through before, its let is in what its pass has then seen.
        ensures was_let { guard.old.walk.progress.mode ≡ Mode.Let → SeesLet guard.new.pass guard.old.walk }
        // A request that has to wait does so at a key of its list.
        ensures waiting { (index : ℕ) → result ≡ Ok (Ok (Waiting index)) → index < length guard.new.walk.asked.keys }
        // If a queue was too long, it was at a key of the list, and the request is back at the list's start.
        ensures stopped { (index : ℕ) → result ≡ Ok (Ok (TooLong index)) → index < length guard.new.walk.asked.keys }
        ensures too_long { (index : ℕ) → result ≡ Ok (Ok (TooLong index)) → IsTooLong guard.old guard.new index }
        ensures stays { GuardStays guard.old guard.new }
        // Only a step finds a full history, and never in an unrecorded table.
        ensures inside_never_full { IfOk result (λ r. r ≢ Err ScanError.HistoryFull) }
        ensures never_full { self.now.of.keeping ≡ Keeping.Unrecorded → result ≢ Err TryError.HistoryFull }
    {
        scan_on(self, self.config.max_waits, guard)
    }

    /// Gives up the request's queue entries and reservations, with one leave step for each key in the guard's
    /// order. A guard that is already leaving continues at the key whose leave was refused. After `Busy` that is to be
    /// done at once.
    #[inline(always)]
    pub fn leave(&self, mut guard: Guard) -> Result<Left, LeaveStopped<TryError>>
        requires pass { guard.pass.of ≡ self.now.of }
        ensures leave { IsLeave guard result }
        ensures left { IfOk result (λ left. PassStays guard.pass left.pass) }
        ensures stopped { IfErr result (λ e. GuardStays guard e.guard) }
        // If steps are not recorded, a request can leave as soon as no other caller is in the shard.
        ensures always { IfErr result (λ e. RefusesForOthers self.now.of.keeping e.error) }
    {
        if let Err(error) = leave_on(self, &mut guard) {
            return Err(LeaveStopped { guard, error });
        }
        Ok(into_left(guard))
    }

    /// Extends what the guard's pass has seen by what another guard's pass has.
    pub fn learn(&self, guard: &mut Guard, other: &Guard)
        requires pass { guard.old.pass.of ≡ self.now.of }
        requires other { other.now.pass.of ≡ self.now.of }
        ensures more { SeesMore guard.old.pass guard.new.pass }
        ensures seen { IsPrefix other.now.pass.seen guard.new.pass.seen }
        ensures shown { IsPrefix other.now.pass.shown guard.new.pass.shown }
        ensures walk { guard.new.walk ≡ guard.old.walk }
    {
        guard.learn(&other.seen());
    }
}

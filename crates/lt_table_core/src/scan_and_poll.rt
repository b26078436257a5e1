//! How does a request visit its keys, and how does it learn that it was let through? As in any table:
//! `src/scan_and_poll.rt` of `lt_walk`. Read next `IsScan` and `IsPoll` in `specs/Reported.antt` there, and
//! `src/waiting.rt` for waits that sleep.
ghost use Rattle.std.specs.Prelude.{◌≡◌, ◌≢◌, ◌<◌, ℕ, length, Ok, Err};
ghost use Rattle.lt_walk.specs.Reported.{IsScan, IsPoll, GuardStays, ProceedsOnlyIfLet, SeesLet};
ghost use Rattle.lt_walk.specs.declared.scan_results.Scan.TheVariants.{Waiting, TooLong};
ghost use Rattle.lt_walk.specs.Laws.{IsTooLong};

use crate::key_steps::Blocking;
use crate::shard_value::ShardValue;
use crate::table::Table;
use lt_rules::KeyTable;
use lt_walk::{Guard, Mode, Poll, Scan, ScanError, poll_on, scan_on};
use lt_words::{Keeping, Name, Waker};
use std::sync::Wait;

impl<N: Name, T: KeyTable, W: Waker, V: ShardValue> Table<N, T, W, V> {
    /// Whether the request was let through: one load of the pass's status word, compared with the whole ticket of
    /// the wait. `poll` never blocks, takes no lock and allocates nothing.
    pub fn poll(&self, guard: &mut Guard) -> Poll
        requires pass { guard.old.pass.of ≡ N.of }
        ensures poll { IsPoll guard.old guard.new result }
        ensures through { result ≡ Poll.Through → SeesLet guard.new.pass guard.new.walk }
        ensures stays { GuardStays guard.old guard.new }
    {
        poll_on(&self.book, guard)
    }

    /// Visits the request's keys in order, each under the lock of the key's shard. If the request waits, the scan
    /// first loads the pass's status word, before it takes any lock: it is refused with `StillWaiting` if the
    /// request was not let through, and otherwise proceeds to the next key. If a queue is too long for the request,
    /// the request returns to the start of its list, and a later scan begins again there.
    #[inline(always)]
    pub fn scan<R: Wait>(&self, rt: &R, guard: &mut Guard) -> Result<Scan, ScanError>
        requires pass { guard.old.pass.of ≡ N.of }
        ensures scan { IsScan self.now.max_waits guard.old guard.new result }
        // A request that waited proceeds only if it was let through.
        ensures went_on { ProceedsOnlyIfLet guard.old guard.new result }
        // If the request was let through before, its let is in what its pass has then seen.
        ensures was_let { guard.old.walk.progress.mode ≡ Mode.Let → SeesLet guard.new.pass guard.old.walk }
        // A request that has to wait does so at a key of its list.
        ensures waiting { (index : ℕ) → result ≡ Ok (Waiting index) → index < length guard.new.walk.asked.keys }
        // If a queue was too long, it was at a key of the list, and the request is back at the list's start.
        ensures stopped { (index : ℕ) → result ≡ Ok (TooLong index) → index < length guard.new.walk.asked.keys }
        ensures too_long { (index : ℕ) → result ≡ Ok (TooLong index) → IsTooLong guard.old guard.new index }
        ensures stays { GuardStays guard.old guard.new }
        ensures never_full { N.of.keeping ≡ Keeping.Unrecorded → result ≢ Err ScanError.HistoryFull }
    {
        let steps = Blocking { rt, table: self };
        match scan_on(&steps, self.config.max_waits, guard) {
            Ok(result) => result,
            Err(error) => Err(ScanError::from(error)),
        }
    }
}

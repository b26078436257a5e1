//! How does a request leave a table whose callers wait for each other? As in any table: `src/leaving.rt` of `lt_walk`.
ghost use Rattle.std.specs.Prelude.{◌≡◌, ◌≢◌, IfOk, IfErr, IsOk};
ghost use Rattle.lt_walk.specs.Closed.{IsLeave};
ghost use Rattle.lt_walk.specs.Reported.{PassStays, GuardStays};

use crate::key_steps::Blocking;
use crate::shard_value::ShardValue;
use crate::table::Table;
use lt_rules::KeyTable;
use lt_shard::StepError;
use lt_walk::{Guard, LeaveStopped, Left, into_left, leave_on};
use lt_words::{Keeping, Name, Waker};
use std::sync::Wait;

impl<N: Name, T: KeyTable, W: Waker, V: ShardValue> Table<N, T, W, V> {
    /// Gives up the request's queue entries and reservations, with one leave step for each key in the guard's
    /// order. A guard that is already leaving continues at the key whose leave was refused.
    #[inline(always)]
    pub fn leave<R: Wait>(&self, rt: &R, mut guard: Guard) -> Result<Left, LeaveStopped>
        requires pass { guard.pass.of ≡ N.of }
        ensures leave { IsLeave guard result }
        ensures left { IfOk result (λ left. PassStays guard.pass left.pass) }
        ensures stopped { IfErr result (λ e. GuardStays guard e.guard) }
        ensures never_full { N.of.keeping ≡ Keeping.Unrecorded → IfErr result (λ e. e.error ≢ StepError.HistoryFull) }
        // If steps are not recorded, a request can always leave.
        ensures always { N.of.keeping ≡ Keeping.Unrecorded → IsOk result }
    {
        let steps = Blocking { rt, table: self };
        if let Err(error) = leave_on(&steps, &mut guard) {
            return Err(LeaveStopped { guard, error });
        }
        Ok(into_left(guard))
    }
}

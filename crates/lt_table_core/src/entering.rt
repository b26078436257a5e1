//! How does a request enter a table whose callers wait for each other? As in any table: `src/entering.rt` of `lt_walk`.
//! Read next `src/scan_and_poll.rt`.
ghost use Rattle.std.specs.Prelude.{◌≡◌, IfOk, IfErr};
ghost use Rattle.lt_walk.specs.Entered.{IsEntered, IsRefused};

use crate::shard_value::ShardValue;
use crate::table::Table;
use lt_ids::{Access, Key, Timestamp, TxnId};
use lt_rules::KeyTable;
use lt_walk::{EnterRefused, Guard, Left, Terms, enter_on};
use lt_words::{Name, Pass, Waker};
use std::alloc::Global;

impl<N: Name, T: KeyTable, W: Waker, V: ShardValue> Table<N, T, W, V> {
    /// Enters a request with these accesses. Its guard keeps the pass until the request leaves.
    ///
    /// The number is drawn last, so none is drawn if the accesses are refused or an allocation fails. `txn` is the
    /// request's transaction, or `None`. The request joins the writers of a key only if they are fewer than
    /// `longest`; 0 means no bound.
    #[inline(always)]
    pub fn enter(
        &self,
        alloc: Global,
        pass: Pass,
        txn: Option<TxnId>,
        ts: Timestamp,
        accesses: &[(Key, Access)],
        longest: u32,
    ) -> Result<Guard, EnterRefused>
        requires pass { pass.of ≡ N.of }
        ensures entered { IfOk result (λ g. IsEntered pass accesses.now txn ts longest self.now.max_requests g) }
        ensures refused { IfErr result (λ e. IsRefused e.error pass accesses.now self.now.max_requests e.pass) }
    {
        let max_requests = self.config.max_requests;
        let terms = Terms { txn, ts, longest };
        let left = Left::of(alloc, pass);
        enter_on(&self.book, max_requests, alloc, left, terms, accesses)
    }
}

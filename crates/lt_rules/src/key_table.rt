//! What must a lock table for one thread do? [`KeyTable`] states it as a contract that both the linked table of
//! `lt_lock` and the plain table of `lt_plain` meet. A table has one act, [`KeyTable::step`], which makes a call that
//! is given as a value; the calls with names are made through it. Read `specs/Table.antt` next: `UpdatesKey` is the
//! promise that these calls share. `specs/Memory.antt` says when memory may be refused.
ghost use Rattle.std.specs.Prelude.{◌≡◌, ◌≤◌, IfOk, OnOk, OnErr, IsOk, [], length, vec_capacity};
ghost use Rattle.std.specs.Option.{option_copied};
ghost use Rattle.std.specs.FinMap as finmap;
ghost use Rattle.lt_ids.specs.Ids.{IsWaitNumber};
ghost use Rattle.lt_rules.specs.declared.call.Call.TheVariants.{Acquire, Update, Finish, Leave};
ghost use Rattle.lt_rules.specs.Rules.{acquire, update, finish, leave};
ghost use Rattle.lt_rules.specs.Step.{step, look};
ghost use Rattle.lt_rules.specs.Table.{Records, AreSound, UpdatesKey, MakesCall, UsesNoMemoryAt, record_at, visit_of, comes_after, keys_after};
ghost use Rattle.lt_rules.specs.Memory.{MayLack, HasRoom};
ghost use Rattle.lt_ids.specs.declared.limits.TheConstants.{MAX_PASS};

use crate::{Call, KeyState, Reply};
use lt_ids::{Access, Key, Request, Through, Ticket, Timestamp, TxnId};
use std::alloc::{AllocError, Global};

/// How many requests are queued at a key, to write and to read.
#[derive(Clone, Copy, Debug, PartialEq, Eq)]
pub struct QueueLengths {
    pub writers: usize,
    pub readers: usize,
}

/// Whether the key comes after the key `after` in byte order. Every key comes after `None`.
#[inline]
pub fn comes_after(after: Option<&Key>, key: &Key) -> bool
    ensures { result ≡ comes_after (option_copied after.entry) key.now }
{
    match after {
        None => true,
        Some(low) => *low < *key,
    }
}

/// A lock table for one thread: a record for each key that is held, reserved or waited for.
///
/// Each call that changes the table is one step of one key's record. It puts the lets of the step into `lets`, in
/// order; `lets` is empty before. The only error is that memory ran out, and then nothing has changed.
///
/// # Memory
///
/// A call that gives something up never fails while `lets` has room for a let of each request at the key. A step of
/// [`step`](KeyTable::step) keeps it so: the room that `lets` has grows with the queues, when a request joins them.
/// So a caller who hands in the same list, emptied, with each step can always free a lock and always leave a key,
/// however little memory there is. The law [`releases_need_no_memory`](crate::laws::releases_need_no_memory) puts
/// the clauses `full` and `room` together.
pub trait KeyTable {
    /// The records, independent of how the table stores them.
    ghost records: { Self → Records };

    /// Makes the call at the key, for the pass with this number, which is 1 to 1024.
    fn step(
        &mut self,
        key: &Key,
        pass: u32,
        call: &Call,
        lets: &mut Vec<Through>,
    ) -> Result<Reply, AllocError>
        requires lets { lets.old.items ≡ [] }
        requires low { 1 ≤ pass }
        requires high { pass ≤ MAX_PASS }
        ensures ok { IfOk result (MakesCall records self.old self.new key.now pass call.now lets.new.items) }
        ensures err { OnErr result ((records self.new ≡ records self.old) × (lets.new.items ≡ [])) }
        ensures sound { AreSound (records self.new) }
        ensures no_memory { UsesNoMemoryAt records self.old key.now (λ r. step r pass call.now) → IsOk result }
        // Why memory may be refused.
        ensures full { OnErr result (MayLack (record_at (records self.old) key.now) call.now (vec_capacity lets.old)) }
        // The list of lets keeps room for a let of each request at any key.
        ensures room { HasRoom (records self.old) (vec_capacity lets.old) →
            HasRoom (records self.new) (vec_capacity lets.new) };

    /// What the request with this number finds at the key.
    fn look(&self, key: &Key, number: u64) -> Reply
        ensures reply { result ≡ look (record_at (records self.now) key.now) number }
        ensures sound { AreSound (records self.now) };

    /// How many requests are queued at the key. Copies nothing, unlike [`state`](KeyTable::state).
    fn lengths(&self, key: &Key) -> QueueLengths
        ensures writers { result.writers ≡ length (record_at (records self.now) key.now).writers }
        ensures readers { result.readers ≡ length (record_at (records self.now) key.now).readers };

    /// A copy of the key's record. It fails only when an allocation fails.
    fn state(&self, alloc: Global, key: &Key) -> Result<KeyState, AllocError>
        ensures { IfOk result (λ state. state ≡ record_at (records self.now) key.now) };

    /// The keys that have a record, each once, in byte order: those that are held, reserved or waited for. It
    /// fails only when an allocation fails.
    fn keys(&self, alloc: Global) -> Result<Vec<Key>, AllocError>
        ensures { IfOk result (λ all. all.items ≡ finmap.keys (records self.now)) };

    /// The first of these keys that come after the key `after`, or after none: at most `at_most` of them, in byte
    /// order. `after` need not have a record. At no time does the call keep more copies of keys than `at_most` and one.
    /// It fails only when an allocation fails.
    fn keys_after(
        &self,
        alloc: Global,
        after: Option<&Key>,
        at_most: usize,
    ) -> Result<Vec<Key>, AllocError>
        ensures { IfOk result (λ all. all.items ≡ keys_after (records self.now) (option_copied after.entry) at_most) };

    /// A request visits the key. `wait` is the number of the wait that begins if the request has to wait. A
    /// request with a bound that would have to join that many writers or more joins none of them and gets
    /// `TooLong`.
    #[inline]
    fn visit(
        &mut self,
        key: &Key,
        request: &Request,
        access: Access,
        wait: u32,
        lets: &mut Vec<Through>,
    ) -> Result<Reply, AllocError>
        requires wait { IsWaitNumber wait }
        requires lets { lets.old.items ≡ [] }
        ensures ok { IfOk result (UpdatesKey records self.old self.new key.now
            (visit_of request.now wait access) lets.new.items) }
        ensures err { OnErr result ((records self.new ≡ records self.old) × (lets.new.items ≡ [])) }
        ensures sound { AreSound (records self.new) }
        ensures no_memory { UsesNoMemoryAt records self.old key.now (visit_of request.now wait access) → IsOk result }
        ensures room { HasRoom (records self.old) (vec_capacity lets.old) →
            HasRoom (records self.new) (vec_capacity lets.new) }
    {
        let call = Call::Visit {
            ticket: Ticket::new(request.number, wait).unwrap(),
            txn: request.txn,
            ts: request.ts,
            access,
            longest: request.longest,
        };
        self.step(key, request.pass, &call, lets)
    }

    /// A transaction takes the lock, or raises the timestamp of the lock that it holds.
    #[inline]
    fn acquire(
        &mut self,
        key: &Key,
        txn: TxnId,
        ts: Timestamp,
        lets: &mut Vec<Through>,
    ) -> Result<Reply, AllocError>
        requires { lets.old.items ≡ [] }
        ensures ok { IfOk result (UpdatesKey records self.old self.new key.now (λ r. acquire r txn ts) lets.new.items) }
        ensures err { OnErr result ((records self.new ≡ records self.old) × (lets.new.items ≡ [])) }
        ensures sound { AreSound (records self.new) }
        ensures no_memory { UsesNoMemoryAt records self.old key.now (λ r. acquire r txn ts) → IsOk result }
        ensures full { OnErr result (MayLack (record_at (records self.old) key.now) (Acquire txn ts)
            (vec_capacity lets.old)) }
        ensures room { HasRoom (records self.old) (vec_capacity lets.old) →
            HasRoom (records self.new) (vec_capacity lets.new) }
    {
        self.step(key, 1, &Call::Acquire { txn, ts }, lets)
    }

    /// The holder raises its timestamp.
    #[inline]
    fn update(
        &mut self,
        key: &Key,
        txn: TxnId,
        ts: Timestamp,
        lets: &mut Vec<Through>,
    ) -> Result<Reply, AllocError>
        requires { lets.old.items ≡ [] }
        ensures ok { IfOk result (UpdatesKey records self.old self.new key.now (λ r. update r txn ts) lets.new.items) }
        ensures err { OnErr result ((records self.new ≡ records self.old) × (lets.new.items ≡ [])) }
        ensures sound { AreSound (records self.new) }
        ensures no_memory { UsesNoMemoryAt records self.old key.now (λ r. update r txn ts) → IsOk result }
        ensures full { OnErr result (MayLack (record_at (records self.old) key.now) (Update txn ts)
            (vec_capacity lets.old)) }
        ensures room { HasRoom (records self.old) (vec_capacity lets.old) →
            HasRoom (records self.new) (vec_capacity lets.new) }
    {
        self.step(key, 1, &Call::Update { txn, ts }, lets)
    }

    /// The holder releases the lock.
    #[inline]
    fn finish(
        &mut self,
        key: &Key,
        txn: TxnId,
        lets: &mut Vec<Through>,
    ) -> Result<Reply, AllocError>
        requires { lets.old.items ≡ [] }
        ensures ok { IfOk result (UpdatesKey records self.old self.new key.now (λ r. finish r txn) lets.new.items) }
        ensures err { OnErr result ((records self.new ≡ records self.old) × (lets.new.items ≡ [])) }
        ensures sound { AreSound (records self.new) }
        ensures no_memory { UsesNoMemoryAt records self.old key.now (λ r. finish r txn) → IsOk result }
        ensures full { OnErr result (MayLack (record_at (records self.old) key.now) (Finish txn)
            (vec_capacity lets.old)) }
        ensures room { HasRoom (records self.old) (vec_capacity lets.old) →
            HasRoom (records self.new) (vec_capacity lets.new) }
    {
        self.step(key, 1, &Call::Finish { txn }, lets)
    }

    /// A request stops waiting, or gives up its reservation.
    #[inline]
    fn leave(
        &mut self,
        key: &Key,
        number: u64,
        lets: &mut Vec<Through>,
    ) -> Result<Reply, AllocError>
        requires { lets.old.items ≡ [] }
        ensures ok { IfOk result (UpdatesKey records self.old self.new key.now (λ r. leave r number) lets.new.items) }
        ensures err { OnErr result ((records self.new ≡ records self.old) × (lets.new.items ≡ [])) }
        ensures sound { AreSound (records self.new) }
        ensures no_memory { UsesNoMemoryAt records self.old key.now (λ r. leave r number) → IsOk result }
        ensures full { OnErr result (MayLack (record_at (records self.old) key.now) (Leave number)
            (vec_capacity lets.old)) }
        ensures room { HasRoom (records self.old) (vec_capacity lets.old) →
            HasRoom (records self.new) (vec_capacity lets.new) }
    {
        self.step(key, 1, &Call::Leave { number }, lets)
    }
}

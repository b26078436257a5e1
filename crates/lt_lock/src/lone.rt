//! What does the table keep while it has a single lock and nobody waits? A [`LoneLock`]: the key and its holder,
//! without a row and without queues. To take it or to free it searches no map and allocates nothing, unless the key
//! is long. `specs/Lone.antt` says which records it stands for. Read `table.rt` next, which keeps it.
ghost use Rattle.std.specs.Prelude.{if◌then◌else◌, ◌≡◌, [], IfOk, IfSome, IfNone, IsSome};
ghost use Rattle.std.specs.FinMap as finmap;
ghost use Rattle.lt_rules.specs.Rules.{acquire, update, is_txn, IsOutcome};
ghost use Rattle.lt_rules.specs.Step.{step};
ghost use Rattle.lt_lock.specs.Lone.{held, passes_held, IsAtLone, StepsAlone, NeedsRows};

use lt_ids::{Access, Key, Timestamp, TxnId};
use lt_rules::free_key::{AtFreeKey, at_free_key};
use lt_rules::{Call, Holder, Reply};
use std::alloc::AllocError;

/// The only lock of a table in which nobody waits.
#[derive(Drop)]
pub(crate) struct LoneLock {
    pub key: Key,
    pub holder: Holder,
}

/// What a call comes to at the key of the lone lock.
#[derive(Clone, Copy)]
enum AtLone {
    /// The key answers. The lock stays alone, perhaps with a higher timestamp.
    Answers(Reply),
    /// The holder frees the lock.
    Frees,
    /// The request has to wait, so the lock needs a row.
    NeedsRow,
}

/// The lock of this key, which this holder takes.
pub(crate) fn taken(key: &Key, holder: Holder) -> Result<LoneLock, AllocError>
    ensures key { IfOk result (λ lone. lone.key ≡ key.now) }
    ensures holder { IfOk result (λ lone. lone.holder ≡ holder) }
{
    let key = key.copy()?;
    Ok(LoneLock { key, holder })
}

/// Whether a request of transaction `own` belongs to this transaction.
#[inline(always)]
fn is_of(own: Option<TxnId>, txn: TxnId) -> bool
    ensures { result ≡ is_txn own txn }
{
    match own {
        None => false,
        Some(own) => own == txn,
    }
}

/// Whether a visit passes a lock of this holder, for which nobody waits.
#[inline(always)]
fn passes_held(holder: &Holder, txn: Option<TxnId>, ts: Timestamp, access: Access) -> bool
    ensures { result ≡ passes_held holder.now txn ts access }
{
    match access {
        Access::Read => is_of(txn, holder.txn) || ts < holder.ts,
        Access::Write => is_of(txn, holder.txn),
    }
}

/// An acquire or an update at the lock's key: the holder raises its timestamp, and any other transaction is told
/// that it is not the holder.
#[inline(always)]
fn raise(lone: &mut LoneLock, txn: TxnId, ts: Timestamp) -> Reply
    ensures key { lone.new.key ≡ lone.old.key }
    ensures acquired { IsOutcome (acquire (held lone.old.holder) txn ts) (held lone.new.holder) result [] }
    ensures updated { IsOutcome (update (held lone.old.holder) txn ts) (held lone.new.holder) result [] }
{
    if lone.holder.txn != txn {
        return Reply::Other;
    }
    if lone.holder.ts < ts {
        lone.holder.ts = ts;
        return Reply::Raised;
    }
    Reply::Kept
}

/// A visit of the lock's key.
#[inline(always)]
fn visit(holder: &Holder, txn: Option<TxnId>, ts: Timestamp, access: Access) -> AtLone
    ensures { result ≡ (if passes_held holder.now txn ts access then AtLone.Answers Reply.Passed else AtLone.NeedsRow) }
{
    if passes_held(holder, txn, ts, access) {
        AtLone::Answers(Reply::Passed)
    } else {
        AtLone::NeedsRow
    }
}

/// What the call does at the lock's key.
#[inline(always)]
fn at_lone(lone: &mut LoneLock, call: &Call) -> AtLone
    ensures key { lone.new.key ≡ lone.old.key }
    ensures at { IsAtLone lone.old.holder lone.new.holder call.now result }
{
    match *call {
        Call::Visit {
            txn,
            ts,
            access,
            ..
        } => visit(&lone.holder, txn, ts, access),
        Call::Acquire { txn, ts } => AtLone::Answers(raise(lone, txn, ts)),
        Call::Update { txn, ts } => AtLone::Answers(raise(lone, txn, ts)),
        Call::Finish { txn } if lone.holder.txn == txn => AtLone::Frees,
        Call::Finish { .. } => AtLone::Answers(Reply::Other),
        Call::Leave { .. } => AtLone::Answers(Reply::Absent),
        Call::Look { .. } => AtLone::Answers(Reply::Nothing),
    }
}

/// Makes the call at the key, if there is a lone lock and it needs no row. Otherwise nothing has changed.
#[inline(always)]
pub(crate) fn step_alone(lone: &mut Option<LoneLock>, key: &Key, call: &Call) -> Option<Reply>
    ensures some { IfSome result (StepsAlone lone.old lone.new key.now call.now) }
    ensures none { IfNone result ((lone.new ≡ lone.old) × NeedsRows lone.old key.now call.now) }
    ensures alone { IsSome lone.new → IsSome lone.old }
    ensures was { IsSome result → IsSome lone.old }
{
    let Some(alone) = lone else {
        return None;
    };
    if alone.key != *key {
        return match at_free_key(call) {
            AtFreeKey::Answers(reply) => Some(reply),
            AtFreeKey::Takes(_) => None,
        };
    }
    match at_lone(alone, call) {
        AtLone::Answers(reply) => Some(reply),
        AtLone::Frees => {
            *lone = None;
            Some(Reply::Freed)
        }
        AtLone::NeedsRow => None,
    }
}

//! What does a waiting request wait for? These functions answer a look for both tables. They take what a table knows
//! of the key: the number of the distinguished waiter, the holder, and the transaction for which the lock is
//! reserved. The contracts cite `specs/Step.antt`.
ghost use Rattle.std.specs.Prelude.{◌≡◌};
ghost use Rattle.lt_rules.specs.Rules.{is_txn};
ghost use Rattle.lt_rules.specs.Step.{waits_for, waits_for_reserved, waits_behind, reader_reply, writer_reply};

use crate::{Holder, Reply};
use lt_ids::TxnId;

/// The reply to a look by the waiting request with this number, which waits for transaction `txn`.
fn waits_for(distinguished: Option<u64>, number: u64, txn: TxnId, is_held: bool) -> Reply
    ensures { result ≡ waits_for distinguished number txn is_held }
{
    match distinguished {
        Some(first) if first == number => Reply::WaitFirst(txn, is_held),
        _ => Reply::WaitFor(txn, is_held),
    }
}

/// The reply to a look by the waiting request with this number at a lock without a holder. It waits for transaction
/// `reserved`, if the lock is reserved for one.
fn waits_for_reserved(distinguished: Option<u64>, number: u64, reserved: Option<TxnId>) -> Reply
    ensures { result ≡ waits_for_reserved distinguished number reserved }
{
    match reserved {
        None => Reply::Nothing,
        Some(txn) => waits_for(distinguished, number, txn, false),
    }
}

/// Whether a request of transaction `own` belongs to transaction `txn`.
fn is_own(own: Option<TxnId>, txn: TxnId) -> bool
    ensures { result ≡ is_txn own txn }
{
    match own {
        None => false,
        Some(own) => own == txn,
    }
}

/// The same for a waiting writer of transaction `own`, for which the lock may be reserved.
fn waits_behind(
    distinguished: Option<u64>,
    number: u64,
    own: Option<TxnId>,
    reserved: Option<TxnId>,
) -> Reply
    ensures { result ≡ waits_behind distinguished number own reserved }
{
    match reserved {
        None => Reply::Nothing,
        Some(txn) if is_own(own, txn) => Reply::WaitOwn(txn),
        Some(txn) => waits_for(distinguished, number, txn, false),
    }
}

/// The reply to a look by the waiting reader with this number. `distinguished` is the number of the distinguished
/// waiter, and `reserved` the transaction for which the lock is reserved. If the lock has a holder, the reader waits
/// for the holder, and `reserved` does not count.
pub fn look_reader(
    distinguished: Option<u64>,
    number: u64,
    holder: Option<Holder>,
    reserved: Option<TxnId>,
) -> Reply
    ensures { result ≡ reader_reply distinguished number holder reserved }
{
    match holder {
        Some(holder) => waits_for(distinguished, number, holder.txn, true),
        None => waits_for_reserved(distinguished, number, reserved),
    }
}

/// The same for the waiting writer with this number, which is of transaction `own`.
pub fn look_writer(
    distinguished: Option<u64>,
    number: u64,
    own: Option<TxnId>,
    holder: Option<Holder>,
    reserved: Option<TxnId>,
) -> Reply
    ensures { result ≡ writer_reply distinguished number own holder reserved }
{
    match holder {
        Some(holder) => waits_for(distinguished, number, holder.txn, true),
        None => waits_behind(distinguished, number, own, reserved),
    }
}

//! Compares the transactions of queue entries. An entry without a transaction belongs to none.
ghost use Rattle.std.specs.Prelude.{◌≡◌};
ghost use Rattle.lt_rules.specs.Rules.{is_txn, is_same_txn};

use lt_ids::TxnId;
use lt_links::Stand;

/// Whether the entry belongs to this transaction.
pub(crate) fn is_of(stand: &Stand, txn: TxnId) -> bool
    ensures { result ≡ is_txn stand.now.txn txn }
{
    match stand.txn {
        None => false,
        Some(own) => own == txn,
    }
}

/// Whether both entries belong to the same transaction.
pub(crate) fn is_same_txn(stand: &Stand, other: &Stand) -> bool
    ensures { result ≡ is_same_txn stand.now.txn other.now.txn }
{
    match other.txn {
        None => false,
        Some(txn) => is_of(stand, txn),
    }
}

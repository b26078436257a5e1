//! Can other requests of a transaction be among the writers of a key? Whoever takes a lock asks that, because such
//! writers go on with him. Mostly there are none, and the counts of the links tell that without a walk.
ghost use Rattle.std.specs.Prelude.{◌≡◌, ◌-◌, true};
ghost use Rattle.lt_links.specs.Maps.{IsSound};
ghost use Rattle.lt_links.specs.declared.ids.QueueKind.TheVariants.{Writers};
ghost use Rattle.lt_row.specs.Row.{line, queue_at};
ghost use Rattle.lt_row.specs.RowStepped.{IsRow};
ghost use Rattle.lt_row.specs.SameTxn.{own_one, HasOnly, HasNone};

use crate::row::{Row, queue};
use crate::settle::reserved;
use crate::txn::is_of;
use lt_ids::TxnId;
use lt_links::{Links, QueueKind, Stand};

/// A count of the transaction's entries, less this entry if it is one of them.
fn less_own(count: usize, stand: &Stand, txn: TxnId) -> usize
    ensures { result ≡ count - own_one stand.now.txn txn }
{
    if is_of(stand, txn) {
        count.saturating_sub(1)
    } else {
        count
    }
}

/// Whether all entries of the transaction are entries of the request with this number. The walk is through the
/// entries of this request alone.
fn has_only(links: &Links, txn: TxnId, number: u64) -> bool
    ensures only { result ≡ true → HasOnly links.now txn number }
    ensures sound { IsSound links.now }
{
    let count = links.nodes_of(txn);
    let mut left = count;
    let mut at = links.owner_first(number);
    while let Some(node) = at {
        left = less_own(left, &links.stand(node), txn);
        at = links.owner_next(node);
    }
    left == 0
}

/// Whether it is certain that no writer of the transaction is queued at the key: no writer is, or the transaction has no
/// entries, or only those of the request that holds the reservation.
pub(crate) fn has_none(links: &Links, row: &Row, txn: TxnId) -> bool
    requires { IsRow links.now row.now }
    ensures { result ≡ true → HasNone txn (line links.now (queue_at row.now.id Writers)) }
{
    if links.len(queue(row, QueueKind::Writers)) == 0 {
        return true;
    }
    match reserved(links, row) {
        Some(own) if is_of(&own, txn) => has_only(links, txn, own.number),
        _ => links.nodes_of(txn) == 0,
    }
}

//! How many queue entries does a transaction have? The map `txns` has a count for each transaction with a node. By it,
//! whoever takes a lock knows whether other requests of its transaction can be queued, without a walk. `links.rt` counts
//! when a node comes or goes.
ghost use Rattle.std.specs.Prelude.{◌≡◌, ◌<◌, ◌-◌, suc, OnOk, OnErr, IsOk, IfSome};
ghost use Rattle.lt_links.specs.Tallies.{count_of, SetsCount, KeepsCounts, CountsIn, CountsOut, Retallies};

use crate::hashing::KeyHashing;
use lt_ids::TxnId;
use std::alloc::{AllocError, Global};
use std::collections::HashMap;
use std::collections::hash_map::Entry;

/// For each transaction with a node, how many it has.
pub(crate) type Txns = HashMap<u64, usize, KeyHashing, Global>;

/// How many nodes the transaction has.
pub(crate) fn count_of(txns: &Txns, txn: TxnId) -> usize
    ensures { result ≡ count_of txns.now txn }
{
    match txns.get(&txn.number()) {
        None => 0,
        Some(count) => *count,
    }
}

/// Adds one to the count of a transaction. Memory ends long before a count does.
#[inline(always)]
fn add_one(txns: &mut Txns, txn: TxnId) -> Result<(), AllocError>
    ensures ok { OnOk result (SetsCount txns.old txns.new txn (suc (count_of txns.old txn))) }
    ensures err { OnErr result (KeepsCounts txns.old txns.new) }
{
    match txns.entry(txn.number())? {
        Entry::Vacant(place) => {
            place.insert(1);
        }
        Entry::Occupied(found) => {
            let count = found.into_mut();
            let Some(more) = count.checked_add(1) else {
                return Err(AllocError);
            };
            *count = more;
        }
    }
    Ok(())
}

/// Counts a node that comes, if it has a transaction. After an error, nothing has changed.
#[inline(always)]
pub(crate) fn tally_in(txns: &mut Txns, txn: Option<TxnId>) -> Result<(), AllocError>
    ensures ok { OnOk result (CountsIn txns.old txns.new txn) }
    ensures err { OnErr result (KeepsCounts txns.old txns.new) }
{
    match txn {
        None => Ok(()),
        Some(txn) => add_one(txns, txn),
    }
}

/// Takes one off the count of a transaction, which is dropped with its last node.
#[inline(always)]
fn take_one(txns: &mut Txns, txn: TxnId)
    requires { 0 < count_of txns.old txn }
    ensures { SetsCount txns.old txns.new txn (count_of txns.old txn - 1) }
{
    let Ok(Entry::Occupied(found)) = txns.entry(txn.number()) else {
        unreachable!()
    };
    if *found.get() > 1 {
        *found.into_mut() -= 1;
        return;
    }
    found.remove();
}

/// Counts a node that goes, if it has a transaction.
#[inline(always)]
pub(crate) fn tally_out(txns: &mut Txns, txn: Option<TxnId>)
    requires { IfSome txn (λ t. 0 < count_of txns.old t) }
    ensures { CountsOut txns.old txns.new txn }
{
    if let Some(txn) = txn {
        take_one(txns, txn);
    }
}

/// Counts a node that goes from one transaction to another. If it stays with its own, nothing changes.
pub(crate) fn retally(
    txns: &mut Txns,
    before: Option<TxnId>,
    after: Option<TxnId>,
) -> Result<(), AllocError>
    requires { IfSome before (λ t. 0 < count_of txns.old t) }
    ensures ok { OnOk result (Retallies txns.old txns.new before after) }
    ensures err { OnErr result (KeepsCounts txns.old txns.new) }
    ensures same { before ≡ after → IsOk result }
{
    if before == after {
        return Ok(());
    }
    tally_in(txns, after)?;
    tally_out(txns, before);
    Ok(())
}

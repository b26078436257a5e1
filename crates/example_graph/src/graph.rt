//! Which transactions wait for each other in a circle? [`cycle_of`] finds such a circle, a *cycle*, among
//! the edges "who waits for whom", exactly if there is one, and [`victim_of`] chooses who gives way. Both are pure
//! functions; `src/deadlock.rt` of `example_store` collects the edges from the table.
//!
//! It works in two stages. A transaction that waits for nobody is in no cycle, so the edges that lead to it can be
//! removed, again and again ([`core_of`]). If an edge is left, each edge that is left leads to a transaction that
//! waits. A walk along these edges ([`walk`]) never ends, so it comes to some transaction a second time.
ghost use Rattle.std.specs.Prelude.{◌≡◌, [], true, false, Ok, None, IfOk, IfSome, IfNone};
ghost use Rattle.example_graph.specs.Graph.{Waits, IsCycle, HasNoCycle, waits, pruned, is_among};
ghost use Rattle.example_graph.specs.Graph.{IsOnPathAt, IsGreatest, IsVictim, KeepsCycles, AllLeadOn};

use std::alloc::{AllocError, Global};

/// The transaction `waiter` waits until the transaction `holder` ends.
#[derive(Clone, Copy, Debug, PartialEq, Eq)]
pub struct WaitEdge {
    /// The number of the transaction that waits.
    pub waiter: u64,
    /// The number of the transaction for which it waits.
    pub holder: u64,
}

/// Whether the transaction waits.
fn waits(edges: &[WaitEdge], txn: u64) -> bool
    ensures { result ≡ waits edges.now txn }
{
    edges.iter().any(|e| e.waiter == txn)
}

/// The edges that lead to a transaction which waits.
fn pruned(alloc: Global, edges: &[WaitEdge]) -> Result<Vec<WaitEdge>, AllocError>
    ensures { IfOk result (λ left. left.items ≡ pruned edges.now) }
{
    let mut left = Vec::new(alloc);
    for edge in edges {
        if waits(edges, edge.holder) {
            left.push(*edge)?;
        }
    }
    Ok(left)
}

/// Removes the edges that lead to a transaction which does not wait, until no such edge is left. No cycle is lost.
fn core_of(alloc: Global, edges: Vec<WaitEdge>) -> Result<Vec<WaitEdge>, AllocError>
    ensures kept { IfOk result (λ left. KeepsCycles edges.items left.items) }
    ensures core { IfOk result (λ left. AllLeadOn left.items) }
{
    let mut left = edges;
    loop {
        let fewer = pruned(alloc, &left)?;
        if fewer.len() == left.len() {
            return Ok(fewer);
        }
        left = fewer;
    }
}

/// A transaction for which this one waits: that of the first edge.
fn next_of(edges: &[WaitEdge], txn: u64) -> Option<u64>
    ensures next { IfSome result (λ next. Waits edges.now txn next) }
    ensures none { IfNone result (waits edges.now txn ≡ false) }
{
    for edge in edges {
        if edge.waiter == txn {
            return Some(edge.holder);
        }
    }
    None
}

/// The first index of the transaction on the path.
fn index_on_path(path: &[u64], txn: u64) -> Option<usize>
    ensures found { IfSome result (λ index. IsOnPathAt path.now txn index) }
    ensures none { IfNone result (is_among path.now txn ≡ false) }
{
    for (index, visited) in path.iter().enumerate() {
        if *visited == txn {
            return Some(index);
        }
    }
    None
}

/// Follows the edges from a transaction that waits until it comes to some transaction a second time. The cycle is
/// the way from there to there.
fn walk(alloc: Global, edges: &[WaitEdge], start: u64) -> Result<Vec<u64>, AllocError>
    requires core { AllLeadOn edges.now }
    requires start { waits edges.now start ≡ true }
    ensures { IfOk result (λ cycle. IsCycle edges.now cycle.items) }
{
    let mut path: Vec<u64> = Vec::new(alloc);
    let mut txn = start;
    while let Some(next) = next_of(edges, txn) {
        path.push(txn)?;
        if let Some(index) = index_on_path(&path, next) {
            return path.split_off(index);
        }
        txn = next;
    }
    unreachable!()
}

/// Transactions of which each waits for the next one and the last one for the first. `None` exactly if there are no
/// such transactions.
fn cycle_of(alloc: Global, edges: Vec<WaitEdge>) -> Result<Option<Vec<u64>>, AllocError>
    ensures cycle { IfOk result (λ found. IfSome found (λ cycle. IsCycle edges.items cycle.items)) }
    ensures none { result ≡ Ok None → HasNoCycle edges.items }
{
    let left = core_of(alloc, edges)?;
    match left.first() {
        None => Ok(None),
        Some(edge) => Ok(Some(walk(alloc, &left, edge.waiter)?)),
    }
}

/// The greatest of these numbers.
fn greatest(txns: &[u64]) -> Option<u64>
    ensures greatest { IfSome result (IsGreatest txns.now) }
    ensures none { IfNone result (txns.now ≡ []) }
{
    txns.iter().copied().max()
}

/// The transaction that has to give way: the one with the greatest number in some cycle. `None` exactly if there is
/// no cycle. An error if an allocation fails.
pub fn victim_of(alloc: Global, edges: Vec<WaitEdge>) -> Result<Option<u64>, AllocError>
    ensures victim { IfOk result (λ found. IfSome found (IsVictim edges.items)) }
    ensures none { result ≡ Ok None → HasNoCycle edges.items }
{
    match cycle_of(alloc, edges)? {
        Some(cycle) => Ok(greatest(&cycle)),
        None => Ok(None),
    }
}

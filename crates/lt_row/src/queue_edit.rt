//! Changes to a queue, with contracts that see a queue as the list of its entries.
ghost use Rattle.std.specs.Prelude.{◌≡◌, ◌∷◌, ◌++◌, true, false, OnOk, OnErr, IsOk};
ghost use Rattle.lt_links.specs.declared.ids.Queue.{Queue};
ghost use Rattle.lt_links.specs.Maps.{has_record, HasNode, queue, IsSound};
ghost use Rattle.lt_row.specs.Row.{line, stand_at};
ghost use Rattle.lt_row.specs.Found.{WritesQueue, KeepsNodes, RewritesAt, MovesNode};

use lt_links::{Links, NodeId, Queue, Stand};
use std::alloc::AllocError;

/// Puts an entry at the front of a queue.
pub(crate) fn insert_first(links: &mut Links, to: &Queue, stand: &Stand) -> Result<(), AllocError>
    requires there { has_record links.old to.now.id ≡ true }
    requires sound { IsSound links.old }
    ensures ok { OnOk result (WritesQueue links.old links.new to.now (stand.now ∷ line links.old to.now)) }
    ensures nodes { OnOk result (KeepsNodes links.old links.new to.now) }
    ensures err { OnErr result (links.new ≡ links.old) }
{
    links.push_front(*to, *stand)?;
    Ok(())
}

/// Removes a node from its queue.
pub(crate) fn take_out(links: &mut Links, node: NodeId)
    requires there { HasNode links.old node }
    requires sound { IsSound links.old }
    ensures { RewritesAt links.old links.new node (λ before behind. before ++ behind) }
{
    links.remove(node);
}

/// Replaces the queue entry at a node by the one of a later visit by the same request. It does not fail if the
/// transaction stays.
pub(crate) fn renew_stand(links: &mut Links, node: NodeId, stand: &Stand) -> Result<(), AllocError>
    requires there { HasNode links.old node }
    requires number { (stand_at links.old node).number ≡ stand.now.number }
    requires sound { IsSound links.old }
    ensures there { OnOk result (HasNode links.new node) }
    ensures sound { IsSound links.new }
    ensures queues { OnOk result ((q : Queue) → queue links.new q ≡ queue links.old q) }
    ensures writes { OnOk result (RewritesAt links.old links.new node (λ before behind. before ++ stand.now ∷ behind)) }
    ensures err { OnErr result (links.new ≡ links.old) }
    ensures same_txn { (stand_at links.old node).txn ≡ stand.now.txn → IsOk result }
{
    links.set_stand(node, *stand)?;
    Ok(())
}

/// Replaces the queue entry at a node by another one of the same number and transaction.
pub(crate) fn replace_stand(links: &mut Links, node: NodeId, stand: &Stand)
    requires there { HasNode links.old node }
    requires number { (stand_at links.old node).number ≡ stand.now.number }
    requires txn { (stand_at links.old node).txn ≡ stand.now.txn }
    requires sound { IsSound links.old }
    ensures there { HasNode links.new node }
    ensures sound { IsSound links.new }
    ensures queues { (q : Queue) → queue links.new q ≡ queue links.old q }
    ensures writes { RewritesAt links.old links.new node (λ before behind. before ++ stand.now ∷ behind) }
{
    renew_stand(links, node, stand).unwrap();
}

/// Moves a node from its queue to the front of a queue, of the same record or of another.
pub(crate) fn move_to_front(links: &mut Links, node: NodeId, to: &Queue)
    requires node { HasNode links.old node }
    requires there { has_record links.old to.now.id ≡ true }
    requires sound { IsSound links.old }
    ensures { MovesNode links.old links.new node to.now }
{
    links.move_front(node, *to);
}

//! Finds the queue entry of a request at a key: at the front of a queue, or through the list of the request's own queue
//! entries.
ghost use Rattle.std.specs.Prelude.{true, ◌≡◌, IfSome};
ghost use Rattle.lt_links.specs.Maps.{IsSound, has_record};
ghost use Rattle.lt_row.specs.Found.{Finds, IsFound};

use lt_links::{Links, NodeId, Queue, QueueKind, RecordId};

/// The queue entry of a request at a key: its node, and the queue that it is in.
#[derive(Debug, Drop)]
pub(crate) struct Found {
    pub node: NodeId,
    pub kind: QueueKind,
}

/// The queue entry of the request with this number in the queues of a record.
pub(crate) fn find(links: &Links, id: RecordId, number: u64) -> Option<Found>
    ensures found { Finds links.now id number result }
    ensures sound { IsSound links.now }
{
    let mut at = links.owner_first(number);
    while let Some(node) = at {
        let queue = links.queue_of(node);
        if queue.id == id {
            return Some(Found {
                node,
                kind: queue.kind,
            });
        }
        at = links.owner_next(node);
    }
    None
}

/// The queue entry of the request with this number, if it is the first of this queue.
fn at_front(links: &Links, id: RecordId, kind: QueueKind, number: u64) -> Option<NodeId>
    requires { has_record links.now id ≡ true }
    ensures found { IfSome result (λ node. IsFound links.now id number node kind) }
    ensures sound { IsSound links.now }
{
    let node = links.first(Queue { id, kind })?;
    let stand = links.stand(node);
    if stand.number == number {
        Some(node)
    } else {
        None
    }
}

/// As [`find`], but looks first at the front of the reservation and of the writers, where a request that is next is
/// found without a search.
pub(crate) fn find_front(links: &Links, id: RecordId, number: u64) -> Option<Found>
    requires { has_record links.now id ≡ true }
    ensures found { Finds links.now id number result }
    ensures sound { IsSound links.now }
{
    if let Some(node) = at_front(links, id, QueueKind::Reservation, number) {
        return Some(Found {
            node,
            kind: QueueKind::Reservation,
        });
    }
    if let Some(node) = at_front(links, id, QueueKind::Writers, number) {
        return Some(Found {
            node,
            kind: QueueKind::Writers,
        });
    }
    find(links, id, number)
}

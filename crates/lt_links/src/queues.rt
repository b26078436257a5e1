//! The ends and the lengths of the three queues of each record, and the neighbors of a position of a queue.
ghost use Rattle.std.specs.Prelude.{◌≡◌, ◌+◌, ◌-◌, ◌<◌, is_some, true, length};
ghost use Rattle.slab.specs.Slab.{get};
ghost use Rattle.lt_links.specs.Cells.{head_at, with_head, len_in, with_len, len_at, SetsLen, queued_at, HasQueued};

use crate::ends::Ends;
use crate::node::{Heads, Joint, Node};
use crate::{Queue, QueueKind};
use slab::Slab;

impl Heads {
    fn at(&self, kind: QueueKind) -> Joint
        ensures { result ≡ head_at self.now kind }
    {
        match kind {
            QueueKind::Writers => self.writers.ends,
            QueueKind::Readers => self.readers.ends,
            QueueKind::Reservation => self.reservation.ends,
        }
    }

    fn set_prev(&mut self, kind: QueueKind, prev: Option<usize>)
        ensures { self.new ≡ with_head self.old kind (record (head_at self.old kind) { prev = prev }) }
    {
        match kind {
            QueueKind::Writers => self.writers.ends.prev = prev,
            QueueKind::Readers => self.readers.ends.prev = prev,
            QueueKind::Reservation => self.reservation.ends.prev = prev,
        }
    }

    fn set_next(&mut self, kind: QueueKind, next: Option<usize>)
        ensures { self.new ≡ with_head self.old kind (record (head_at self.old kind) { next = next }) }
    {
        match kind {
            QueueKind::Writers => self.writers.ends.next = next,
            QueueKind::Readers => self.readers.ends.next = next,
            QueueKind::Reservation => self.reservation.ends.next = next,
        }
    }

    fn len(&self, kind: QueueKind) -> usize
        ensures { result ≡ len_in self.now kind }
    {
        match kind {
            QueueKind::Writers => self.writers.len,
            QueueKind::Readers => self.readers.len,
            QueueKind::Reservation => self.reservation.len,
        }
    }

    fn set_len(&mut self, kind: QueueKind, len: usize)
        ensures { self.new ≡ with_len self.old kind len }
    {
        match kind {
            QueueKind::Writers => self.writers.len = len,
            QueueKind::Readers => self.readers.len = len,
            QueueKind::Reservation => self.reservation.len = len,
        }
    }
}

impl Ends for Slab<Heads> {
    ghost use Rattle.lt_links.specs.Cells.{queued_at, HasQueued, KeepsQueued};
    ghost use Rattle.lt_links.specs.Keeps.{KeepsQueued-twice, HasQueued-kept};

    type Key = Queue;

    ghost joints = { queued_at };

    ghost HasPlace = { HasQueued };

    ghost Keeps = { KeepsQueued };

    fn set_prev(
        &mut self,
        nodes: &mut Slab<Node>,
        key: &Queue,
        at: Option<usize>,
        prev: Option<usize>,
    ) {
        match at {
            None => self[key.id.key()].set_prev(key.kind, prev),
            Some(node) => nodes[node].queued.prev = prev,
        }
    }

    fn set_next(
        &mut self,
        nodes: &mut Slab<Node>,
        key: &Queue,
        at: Option<usize>,
        next: Option<usize>,
    ) {
        match at {
            None => self[key.id.key()].set_next(key.kind, next),
            Some(node) => nodes[node].queued.next = next,
        }
    }

    ghost keeps_twice = { KeepsQueued-twice };

    ghost stays = { HasQueued-kept };
}

/// The neighbors of a position of a queue.
pub(crate) fn queued(
    nodes: &Slab<Node>,
    heads: &Slab<Heads>,
    queue: &Queue,
    at: Option<usize>,
) -> Joint
    requires { HasQueued nodes.now heads.now queue.now at }
    ensures { result ≡ queued_at nodes.now heads.now queue.now at }
{
    match at {
        None => heads[queue.id.key()].at(queue.kind),
        Some(node) => nodes[node].queued,
    }
}

/// The stored length of a queue.
pub(crate) fn stored_len(heads: &Slab<Heads>, queue: &Queue) -> usize
    requires { is_some (get heads.now queue.now.id) ≡ true }
    ensures { result ≡ len_at heads.now queue.now }
{
    heads[queue.id.key()].len(queue.kind)
}

/// Replaces the stored length of a queue.
fn store_len(heads: &mut Slab<Heads>, queue: &Queue, len: usize)
    requires { is_some (get heads.old queue.now.id) ≡ true }
    ensures { SetsLen heads.old heads.new queue.now len }
{
    heads[queue.id.key()].set_len(queue.kind, len);
}

/// Adds one to the stored length of a queue. The caller has put a node into the queue.
pub(crate) fn count_in(heads: &mut Slab<Heads>, nodes: &Slab<Node>, queue: &Queue)
    requires there { is_some (get heads.old queue.now.id) ≡ true }
    requires room { len_at heads.old queue.now < length nodes.now.slots }
    ensures { SetsLen heads.old heads.new queue.now (len_at heads.old queue.now + 1) }
{
    // The slab's capacity bounds its slots, so this call tells the prover that the sum fits.
    let _ = nodes.capacity();
    let len = stored_len(heads, queue);
    store_len(heads, queue, len + 1);
}

/// Takes one off the stored length of a queue. The caller has taken a node out of the queue.
pub(crate) fn count_out(heads: &mut Slab<Heads>, queue: &Queue)
    requires there { is_some (get heads.old queue.now.id) ≡ true }
    requires counted { 0 < len_at heads.old queue.now }
    ensures { SetsLen heads.old heads.new queue.now (len_at heads.old queue.now - 1) }
{
    let len = stored_len(heads, queue);
    store_len(heads, queue, len - 1);
}

use crate::{Queue, Stand};

/// The neighbors of a node in a list. For the list itself, `next` is its first node and `prev` its last.
#[derive(Clone, Copy, Debug, PartialEq, Eq)]
pub(crate) struct Joint {
    pub prev: Option<usize>,
    pub next: Option<usize>,
}

/// A queue entry, with its neighbors in its queue and in its number's list.
#[derive(Clone, Copy, Debug, PartialEq, Eq)]
pub(crate) struct Node {
    pub stand: Stand,
    pub queue: Queue,
    pub queued: Joint,
    pub owned: Joint,
}

/// What a record stores of one queue.
#[derive(Clone, Copy, Debug, PartialEq, Eq)]
pub(crate) struct Head {
    /// The first node of the queue is `next`, and the last is `prev`.
    pub ends: Joint,
    /// How many nodes the queue has. A call that puts a node into the queue adds one. A call that takes a node out
    /// takes one off. So no call walks a queue to learn its length.
    pub len: usize,
}

/// A record stores the ends and the length of each of its three queues.
#[derive(Clone, Copy, Debug, PartialEq, Eq)]
pub(crate) struct Heads {
    pub writers: Head,
    pub readers: Head,
    pub reservation: Head,
}

impl Node {
    ghost use Rattle.std.specs.Prelude.{◌≡◌};
    ghost use Rattle.lt_links.specs.Cells.{no_joint};

    /// A node without neighbors.
    pub(crate) fn new(queue: &Queue, stand: Stand) -> Node
        ensures { result ≡ record { stand = stand; queue = queue.now; queued = no_joint; owned = no_joint } }
    {
        Node {
            stand,
            queue: *queue,
            queued: Joint {
                prev: None,
                next: None,
            },
            owned: Joint {
                prev: None,
                next: None,
            },
        }
    }
}

impl Heads {
    ghost use Rattle.std.specs.Prelude.{◌≡◌};
    ghost use Rattle.lt_links.specs.Cells.{empty_head};

    /// The heads of three empty queues.
    pub(crate) fn new() -> Heads
        ensures { result ≡ record { writers = empty_head; readers = empty_head; reservation = empty_head } }
    {
        let empty = Head {
            ends: Joint {
                prev: None,
                next: None,
            },
            len: 0,
        };
        Heads {
            writers: empty,
            readers: empty,
            reservation: empty,
        }
    }
}

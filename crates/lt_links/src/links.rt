//! What can a caller do with the linked queues? [`Links`] has the calls; its contracts see three maps, which
//! `specs/Maps.antt` defines. Read `ends.rt` next, which changes the links of a list.
ghost use Rattle.std.specs.Prelude.{◌≡◌, ◌↔◌, IsTrue, length};

use crate::ends::{join, link};
use crate::hashing::KeyHashing;
use crate::node::{Heads, Node};
use crate::owners::{Owners, follow_last, owner_ends, push_owner, unlink_owned};
use crate::queues::{count_in, count_out, queued, stored_len};
use crate::txns::{Txns, count_of, retally, tally_in, tally_out};
use crate::{NodeId, Queue, RecordId, Stand};
use lt_ids::TxnId;
use slab::Slab;
use std::alloc::{AllocError, Global};
use std::collections::HashMap;
use std::marker::Model;

/// The nodes of all queues. Each node is in one queue and, by its number, in the list of that number.
#[derive(Drop)]
pub struct Links {
    nodes: Slab<Node>,
    heads: Slab<Heads>,
    owners: Owners,
    txns: Txns,
}

impl Model for Links {
    ghost use Rattle.lt_links.specs.Maps.{Maps, maps_code};
    ghost use Rattle.lt_links.specs.Tallies.{AreTallied};

    ghost Value = { Maps };

    ghost coded = { maps_code };

    ghost use Rattle.lt_links.specs.View.{maps_of, IsLinked};

    ghost view = { λ l. maps_of l.nodes l.heads l.owners };

    ghost invariant = { λ l. IsLinked l.nodes l.heads l.owners × AreTallied (maps_of l.nodes l.heads l.owners) l.txns };
}

impl Links {
    ghost use Rattle.lt_links.specs.Tallies.{HasTally};
    ghost use Rattle.lt_links.specs.Maps.{HasNode, number_at, txn_at, IsEmpty, AddsRecord, DropsRecord, Removes, MovesFront, PushesFront, InsertsAfter, PutsAfter, SetsStand, has_record, no_maps, stand, stand as stand_at, queue as queue_of, owned as owned_by, IsSound};
    ghost use Rattle.lt_links.specs.Ring.{has, is_in};
    ghost use Rattle.std.specs.List.{last_or};
    ghost use Rattle.lt_links.specs.declared.ids.Queue.{Queue};
    ghost use Rattle.std.specs.Prelude.{Some, None, true, false, IfOk, IfSome, OnOk, OnErr, IsOk, ℕ, List, ◌∷◌, ◌++◌, slice_get};

    /// Links without records or nodes, whose numbers and transactions are hashed from this start.
    pub fn new(alloc: Global, start: u64) -> Self
        ensures none { result ≡ no_maps }
        ensures sound { IsSound result }
    {
        Links {
            nodes: Slab::new(alloc),
            heads: Slab::new(alloc),
            owners: HashMap::with_hasher(alloc, KeyHashing::new(start)),
            txns: HashMap::with_hasher(alloc, KeyHashing::new(start)),
        }
    }

    /// Adds a record of three empty queues. After an error, nothing has changed.
    pub fn add_record(&mut self) -> Result<RecordId, AllocError>
        ensures fresh { IfOk result (λ id. has_record self.old id ≡ false) }
        ensures adds { IfOk result (λ id. AddsRecord self.old self.new id) }
        ensures empty { IfOk result (λ id. IsEmpty self.new id) }
        ensures err { OnErr result (self.new ≡ self.old) }
        ensures sound { IsSound self.new }
    {
        self.heads.reserve(1)?;
        let key = self.heads.insert_reserved(Heads::new());
        Ok(RecordId::new(key))
    }

    /// Drops a record whose three queues are empty.
    pub fn drop_record(&mut self, id: RecordId)
        requires record { has_record self.old id ≡ true }
        requires empty { IsEmpty self.old id }
        ensures drops { DropsRecord self.old self.new id }
        ensures sound { IsSound self.new }
    {
        self.heads.remove(id.key());
    }

    /// Whether these links have the record: it was added and not dropped.
    pub fn contains_record(&self, id: RecordId) -> bool
        ensures contains { IsTrue result ↔ (has_record self.now id ≡ true) }
        ensures sound { IsSound self.now }
    {
        self.heads.contains(id.key())
    }

    /// Whether these links have the node: it was put into a queue and not removed.
    pub fn contains_node(&self, node: NodeId) -> bool
        ensures contains { IsTrue result ↔ HasNode self.now node }
        ensures sound { IsSound self.now }
    {
        self.nodes.contains(node.key())
    }

    /// How many nodes a queue has. Takes constant time.
    pub fn len(&self, queue: Queue) -> usize
        requires { has_record self.now queue.id ≡ true }
        ensures len { result ≡ length (queue_of self.now queue) }
        ensures sound { IsSound self.now }
    {
        stored_len(&self.heads, &queue)
    }

    /// The first node of a queue.
    pub fn first(&self, queue: Queue) -> Option<NodeId>
        requires { has_record self.now queue.id ≡ true }
        ensures first { result ≡ slice_get (queue_of self.now queue) 0 }
        ensures there { IfSome result (HasNode self.now) }
        ensures sound { IsSound self.now }
    {
        NodeId::at(queued(&self.nodes, &self.heads, &queue, None).next)
    }

    /// The last node of a queue.
    pub fn last(&self, queue: Queue) -> Option<NodeId>
        requires { has_record self.now queue.id ≡ true }
        ensures last { result ≡ last_or None (queue_of self.now queue) }
        ensures there { IfSome result (HasNode self.now) }
        ensures sound { IsSound self.now }
    {
        NodeId::at(queued(&self.nodes, &self.heads, &queue, None).prev)
    }

    /// The node after a node in its queue.
    pub fn next(&self, node: NodeId) -> Option<NodeId>
        requires { HasNode self.now node }
        ensures next { (q : Queue) (xs ys : List ℕ) → queue_of self.now q ≡ xs ++ node ∷ ys → result ≡ slice_get ys 0 }
        ensures there { IfSome result (HasNode self.now) }
        ensures sound { IsSound self.now }
    {
        NodeId::at(self.nodes[node.key()].queued.next)
    }

    /// The node before a node in its queue.
    pub fn prev(&self, node: NodeId) -> Option<NodeId>
        requires { HasNode self.now node }
        ensures prev { (q : Queue) (xs ys : List ℕ) → queue_of self.now q ≡ xs ++ node ∷ ys → result ≡ last_or None xs }
        ensures there { IfSome result (HasNode self.now) }
        ensures sound { IsSound self.now }
    {
        NodeId::at(self.nodes[node.key()].queued.prev)
    }

    /// The first node of a number.
    pub fn owner_first(&self, number: u64) -> Option<NodeId>
        ensures first { result ≡ slice_get (owned_by self.now number) 0 }
        ensures there { IfSome result (HasNode self.now) }
        ensures sound { IsSound self.now }
    {
        NodeId::at(owner_ends(&self.owners, number).next)
    }

    /// The node after a node in the list of its number.
    pub fn owner_next(&self, node: NodeId) -> Option<NodeId>
        requires { HasNode self.now node }
        ensures next { (k : ℕ) (xs ys : List ℕ) → owned_by self.now k ≡ xs ++ node ∷ ys → result ≡ slice_get ys 0 }
        ensures there { IfSome result (HasNode self.now) }
        ensures sound { IsSound self.now }
    {
        NodeId::at(self.nodes[node.key()].owned.next)
    }

    /// How many nodes a transaction has, in all queues. Takes no walk.
    pub fn nodes_of(&self, txn: TxnId) -> usize
        ensures tally { HasTally self.now txn result }
        ensures sound { IsSound self.now }
    {
        count_of(&self.txns, txn)
    }

    /// The queue of a node.
    pub fn queue_of(&self, node: NodeId) -> Queue
        requires { HasNode self.now node }
        ensures queue { has node (queue_of self.now result) ≡ true }
        ensures sound { IsSound self.now }
    {
        let found = &self.nodes[node.key()];
        found.queue
    }

    /// The queue entry at a node.
    pub fn stand(&self, node: NodeId) -> Stand
        requires { HasNode self.now node }
        ensures stand { stand self.now node ≡ Some result }
        ensures sound { IsSound self.now }
    {
        let found = &self.nodes[node.key()];
        found.stand
    }

    /// Replaces the queue entry at a node by another one of the same number. After an error, nothing has changed. If the
    /// transaction stays, there is none.
    pub fn set_stand(&mut self, node: NodeId, stand: Stand) -> Result<(), AllocError>
        requires { number_at self.old node ≡ Some stand.number }
        ensures sets { OnOk result (SetsStand self.old self.new node stand) }
        ensures err { OnErr result (self.new ≡ self.old) }
        ensures same_txn { txn_at self.old node ≡ Some stand.txn → IsOk result }
        ensures sound { IsSound self.new }
    {
        let key = node.key();
        let before = self.nodes[key].stand.txn;
        retally(&mut self.txns, before, stand.txn)?;
        self.nodes[key].stand = stand;
        Ok(())
    }

    /// Removes a node from its queue and from its number's list.
    pub fn remove(&mut self, node: NodeId) -> Stand
        requires { HasNode self.old node }
        ensures stand { stand self.old node ≡ Some result }
        ensures removes { Removes self.old self.new node }
        ensures sound { IsSound self.new }
    {
        let key = node.key();
        let place = self.nodes[key];
        join(
            &mut self.heads,
            &mut self.nodes,
            &place.queue,
            place.queued.prev,
            place.queued.next,
        );
        unlink_owned(
            &mut self.owners,
            &mut self.nodes,
            place.stand.number,
            place.owned.prev,
            place.owned.next,
        );
        count_out(&mut self.heads, &place.queue);
        tally_out(&mut self.txns, place.stand.txn);
        self.nodes.remove(key).stand
    }

    /// Moves a node from its queue to the front of a queue, of the same record or of another.
    pub fn move_front(&mut self, node: NodeId, queue: Queue)
        requires node { HasNode self.old node }
        requires queue { has_record self.old queue.id ≡ true }
        ensures moves { MovesFront self.old self.new node queue }
        ensures sound { IsSound self.new }
    {
        let key = node.key();
        let place = self.nodes[key];
        join(
            &mut self.heads,
            &mut self.nodes,
            &place.queue,
            place.queued.prev,
            place.queued.next,
        );
        self.nodes[key].queue = queue;
        let first = queued(&self.nodes, &self.heads, &queue, None).next;
        link(&mut self.heads, &mut self.nodes, &queue, None, first, key);
        count_out(&mut self.heads, &place.queue);
        count_in(&mut self.heads, &self.nodes, &queue);
    }

    /// Puts a queue entry at the front of a queue, and at the end of its number's list. After an error, nothing
    /// has changed.
    pub fn push_front(&mut self, queue: Queue, stand: Stand) -> Result<NodeId, AllocError>
        requires { has_record self.old queue.id ≡ true }
        ensures fresh { IfOk result (λ node. stand_at self.old node ≡ None) }
        ensures pushes { IfOk result (λ node. PushesFront self.old self.new node queue stand) }
        ensures err { OnErr result (self.new ≡ self.old) }
        ensures sound { IsSound self.new }
    {
        self.put_after(&queue, None, stand)
    }

    /// Puts a queue entry immediately after a node in its queue, and at the end of its number's list. After an
    /// error, nothing has changed.
    pub fn insert_after(&mut self, node: NodeId, stand: Stand) -> Result<NodeId, AllocError>
        requires { HasNode self.old node }
        ensures fresh { IfOk result (λ new. stand_at self.old new ≡ None) }
        ensures inserts { IfOk result (λ new. InsertsAfter self.old self.new node new stand) }
        ensures err { OnErr result (self.new ≡ self.old) }
        ensures sound { IsSound self.new }
    {
        let queue = self.queue_of(node);
        self.put_after(&queue, Some(node.key()), stand)
    }

    /// Puts a queue entry after a position of a queue; `None` puts it before the first. All allocations come
    /// before the first change.
    fn put_after(
        &mut self,
        queue: &Queue,
        at: Option<usize>,
        stand: Stand,
    ) -> Result<NodeId, AllocError>
        requires record { has_record self.old queue.now.id ≡ true }
        requires at { is_in (queue_of self.old queue.now) at ≡ true }
        ensures fresh { IfOk result (λ node. stand_at self.old node ≡ None) }
        ensures puts { IfOk result (λ node. PutsAfter self.old self.new queue.now at node stand) }
        ensures err { OnErr result (self.new ≡ self.old) }
        ensures sound { IsSound self.new }
    {
        self.nodes.reserve(1)?;
        let key = self.nodes.vacant_key();
        tally_in(&mut self.txns, stand.txn)?;
        let Ok(last) = push_owner(&mut self.owners, stand.number, key) else {
            tally_out(&mut self.txns, stand.txn);
            return Err(AllocError);
        };
        // This names the type of the transaction, which is necessary when a whole node is passed on.
        let txn = stand.txn;
        self.nodes
            .insert_reserved(Node::new(queue, Stand { txn, ..stand }));
        let next = queued(&self.nodes, &self.heads, queue, at).next;
        link(&mut self.heads, &mut self.nodes, queue, at, next, key);
        follow_last(&mut self.nodes, last, key);
        count_in(&mut self.heads, &self.nodes, queue);
        Ok(NodeId::new(key))
    }
}

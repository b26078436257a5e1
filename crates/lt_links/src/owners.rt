//! How are the nodes of one request's number found? The map `owners` has the ends of a list for each number that
//! has a node, and the nodes are linked through their field `owned`. `links.rt` uses these functions when a node
//! comes or goes.
ghost use Rattle.std.specs.Prelude.{◌≡◌, OnErr, IfOk, unwrap_or, ℕ, Some, is_some, true};
ghost use Rattle.slab.specs.Slab.{get};
ghost use Rattle.lt_links.specs.Cells.{ends_of, no_joint, HasOwned, UnlinksOwned, PushesOwner, FollowsLast};

use crate::ends::{Ends, join};
use crate::hashing::KeyHashing;
use crate::node::{Joint, Node};
use slab::Slab;
use std::alloc::{AllocError, Global};
use std::collections::HashMap;

/// For each number with a node, the ends of its list.
pub(crate) type Owners = HashMap<u64, Joint, KeyHashing, Global>;

impl Ends for Owners {
    ghost use Rattle.lt_links.specs.Cells.{owned_at, HasOwned, KeepsOwned};
    ghost use Rattle.lt_links.specs.Keeps.{KeepsOwned-twice, HasOwned-kept};

    type Key = u64;

    ghost joints = { owned_at };

    ghost HasPlace = { HasOwned };

    ghost Keeps = { KeepsOwned };

    fn set_prev(
        &mut self,
        nodes: &mut Slab<Node>,
        key: &u64,
        at: Option<usize>,
        prev: Option<usize>,
    ) {
        match at {
            None => self.get_mut(key).unwrap().prev = prev,
            Some(node) => nodes[node].owned.prev = prev,
        }
    }

    fn set_next(
        &mut self,
        nodes: &mut Slab<Node>,
        key: &u64,
        at: Option<usize>,
        next: Option<usize>,
    ) {
        match at {
            None => self.get_mut(key).unwrap().next = next,
            Some(node) => nodes[node].owned.next = next,
        }
    }

    ghost keeps_twice = { KeepsOwned-twice };

    ghost stays = { HasOwned-kept };
}

/// The ends of a number's list, which is empty if the map has no list for the number. While nobody waits, the map is not
/// searched.
pub(crate) fn owner_ends(owners: &Owners, number: u64) -> Joint
    ensures { result ≡ unwrap_or (ends_of owners.now number) no_joint }
{
    let nowhere = Joint {
        prev: None,
        next: None,
    };
    if owners.is_empty() {
        return nowhere;
    }
    match owners.get(&number) {
        None => nowhere,
        Some(ends) => *ends,
    }
}

/// Makes a node the last of a number's list, and creates the list if there is none. Returns the previous last
/// node.
pub(crate) fn push_owner(
    owners: &mut Owners,
    number: u64,
    node: usize,
) -> Result<Option<usize>, AllocError>
    ensures ok { IfOk result (λ last. PushesOwner owners.old owners.new number last node) }
    ensures err { OnErr result (owners.new.entries ≡ owners.old.entries) }
{
    let alone = Joint {
        prev: Some(node),
        next: Some(node),
    };
    let Some(ends) = owners.insert(number, alone)? else {
        return Ok(None);
    };
    if ends.prev.is_some() {
        owners.get_mut(&number).unwrap().next = ends.next;
    }
    Ok(ends.prev)
}

/// Makes a node the neighbor of the previous last node, if there is one.
pub(crate) fn follow_last(nodes: &mut Slab<Node>, last: Option<usize>, node: usize)
    requires node { is_some (get nodes.old node) ≡ true }
    requires last { (l : ℕ) → last ≡ Some l → is_some (get nodes.old l) ≡ true }
    ensures { FollowsLast nodes.old nodes.new last node }
{
    nodes[node].owned.prev = last;
    if let Some(before) = last {
        nodes[before].owned.next = Some(node);
    }
}

/// Removes a node from a number's list, and drops the list with its last node.
pub(crate) fn unlink_owned(
    owners: &mut Owners,
    nodes: &mut Slab<Node>,
    number: u64,
    prev: Option<usize>,
    next: Option<usize>,
)
    requires prev { HasOwned nodes.old owners.old number prev }
    requires next { HasOwned nodes.old owners.old number next }
    ensures { UnlinksOwned nodes.old owners.old nodes.new owners.new number prev next }
{
    if prev.is_none() && next.is_none() {
        owners.remove(&number);
        return;
    }
    join(owners, nodes, &number, prev, next);
}

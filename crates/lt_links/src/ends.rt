//! How are two positions of a list made neighbors? The answer is the same for the queues and for the lists of the
//! numbers, so it is written once, for any type with [`Ends`]. A position is a node, or `None` for both ends of
//! the list. Read `queues.rt` and `owners.rt` next, which implement the trait.
ghost use Rattle.std.specs.Prelude.{◌≡◌, Some};
ghost use Rattle.lt_links.specs.Cells.{ChangesJoint, JoinsPlaces, LinksNode};

use crate::node::Node;
use slab::Slab;

/// The ends of each list of a family. A node itself stores its neighbors in its list.
pub(crate) trait Ends {
    ghost use Rattle.std.specs.Prelude.{ℕ, Option};
    ghost use Rattle.slab.specs.Slab.{Slab};
    ghost use Rattle.lt_links.specs.declared.node.Node.{Node};
    ghost use Rattle.lt_links.specs.Cells.{Joints, KeepsPlaces};

    type Key;

    /// The neighbors of each position of each list.
    ghost joints: { Slab Node → Self → Joints Self.Key };

    /// The position exists.
    ghost HasPlace: { Slab Node → Self → Self.Key → Option ℕ → Type 0 };

    /// Only neighbors of positions have changed.
    ghost Keeps: { Slab Node → Self → Slab Node → Self → Type 0 };

    fn set_prev(
        &mut self,
        nodes: &mut Slab<Node>,
        key: &Self::Key,
        at: Option<usize>,
        prev: Option<usize>,
    )
        requires { HasPlace nodes.old self.old key.now at }
        ensures { ChangesJoint joints Keeps nodes.old self.old nodes.new self.new key.now at
            (λ j. record j { prev = prev }) };

    fn set_next(
        &mut self,
        nodes: &mut Slab<Node>,
        key: &Self::Key,
        at: Option<usize>,
        next: Option<usize>,
    )
        requires { HasPlace nodes.old self.old key.now at }
        ensures { ChangesJoint joints Keeps nodes.old self.old nodes.new self.new key.now at
            (λ j. record j { next = next }) };

    ghost keeps_twice: { (a b c : Slab Node) (d e f : Self) → Keeps a d b e → Keeps b e c f → Keeps a d c f };

    ghost stays: { KeepsPlaces HasPlace Keeps };
}

/// Makes two positions of a list neighbors.
pub(crate) fn join<E: Ends>(
    ends: &mut E,
    nodes: &mut Slab<Node>,
    key: &E::Key,
    before: Option<usize>,
    after: Option<usize>,
)
    requires before { E.HasPlace nodes.old ends.old key.now before }
    requires after { E.HasPlace nodes.old ends.old key.now after }
    ensures { JoinsPlaces E.joints E.Keeps nodes.old ends.old nodes.new ends.new key.now before after }
{
    ends.set_next(nodes, key, before, after);
    ends.set_prev(nodes, key, after, before);
}

/// Puts a node into a list, between two positions.
pub(crate) fn link<E: Ends>(
    ends: &mut E,
    nodes: &mut Slab<Node>,
    key: &E::Key,
    before: Option<usize>,
    after: Option<usize>,
    node: usize,
)
    requires before { E.HasPlace nodes.old ends.old key.now before }
    requires after { E.HasPlace nodes.old ends.old key.now after }
    requires node { E.HasPlace nodes.old ends.old key.now (Some node) }
    ensures { LinksNode E.joints E.Keeps nodes.old ends.old nodes.new ends.new key.now before after node }
{
    join(ends, nodes, key, before, Some(node));
    join(ends, nodes, key, Some(node), after);
}

//! Who waits for whom in a circle, and who gives way? [`victim_of`] chooses the greatest number of some cycle, and chooses
//! nobody only if there is no cycle. It is a pure function of the edges, a [`WaitEdge`] each, and knows no table.
//!
//! Read next: `src/graph.rt`; `specs/Graph.antt` says what a cycle is.
#![tactic(auto)]

mod graph;

pub use graph::{WaitEdge, victim_of};

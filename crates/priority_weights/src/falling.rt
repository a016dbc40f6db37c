//! The least table that falls along edges, or a cycle along them.

ghost use Rattle.std.specs.Prelude.{◌↔◌, ℕ, IfOk, slice_index};
ghost use Rattle.least_or_cycle.specs.Least.{IsLeast, IsWithin};
ghost use Rattle.least_or_cycle.specs.Walks.{Falls, IsCycle};
ghost use Rattle.priority_weights.specs.Inside.Falling.{IsFalling};

use least_or_cycle::{Graph, NumberRule, cycle, cycle_along, least};
use sc_graph::NodeId;
use std::alloc::{AllocError, Global};

/// The least table that falls along edges by their weights, or a cycle.
#[derive(Drop)]
pub(crate) enum Falling {
    Table(Vec<u32>),
    Cycle(Vec<NodeId>),
}

/// Of hints for the search, for speed alone: an order of the nodes in which what an edge leads to is likely
/// to stand first, and nodes of which an edge of weight 1 is likely to lie on a cycle; and for each node one behind an
/// edge of weight 1 that asks most of it.
#[derive(Clone, Copy)]
pub(crate) struct Hints<'a> {
    pub(crate) order: &'a [NodeId],
    pub(crate) suspects: &'a [NodeId],
    pub(crate) reasons: &'a [NodeId],
}

/// The least table, of as many numbers as there are nodes, that falls along the edges of a graph; or a cycle
/// along them. The suspects are asked first: where they lie on a cycle, numbers would rise to the top before
/// they told so. Err: memory was refused.
pub(crate) fn table_or_cycle<G: Graph + NumberRule>(
    alloc: Global,
    graph: &G,
    count: u16,
    hints: Hints,
) -> Result<Falling, AllocError>
    requires { (q : ℕ → ℕ) (m : ℕ) → G.NumberRule.keeps graph.now q m ↔ Falls (G.Graph.leads graph.now) q m }
    ensures { IfOk result (IsFalling (G.Graph.leads graph.now) count) }
{
    match cycle_along(alloc, graph, count, hints.suspects, hints.order)? {
        Some(walk) => return Ok(Falling::Cycle(walk)),
        None => {}
    }
    match least(alloc, graph, count, u32::from(count), hints.order)? {
        Some(table) => Ok(Falling::Table(table)),
        None => match cycle(alloc, graph, count, hints.suspects, hints.order)? {
            Some(walk) => Ok(Falling::Cycle(walk)),
            None => unreachable!(),
        },
    }
}

//! A search among the nodes to which a node leads.

ghost use Rattle.std.specs.Prelude.{◌≡◌, ◌↔◌, ℕ, IsTrue, MatchOption, Some};
ghost use Rattle.program_edges.specs.Sorts.{IsEntry, IsNext};
ghost use Rattle.sc_graph.specs.Links.{Tells};
ghost use Rattle.sc_graph.specs.Protocol.{Instant};
ghost use Rattle.sc_graph.specs.Valid.{IsFormed};

use crate::next::{NextNodes, children_of, next_nodes};
use sc_graph::{Links, NodeId, Program, ThreadId};

/// Which nodes are looked for.
pub trait Sought {
    ghost wants: { Self → ℕ → Type 0 };

    /// Whether it is such a node.
    fn is_wanted(&self, node: NodeId) -> bool
        ensures { IsTrue result ↔ wants self.now node };
}

/// A node that is wanted, to which an instantaneous edge leads from a node. None: there is none.
pub fn find_instant<W: Sought>(
    program: &Program,
    links: &Links,
    node: NodeId,
    wanted: &W,
) -> Option<NodeId>
    requires formed { IsFormed program.now }
    requires told { Tells program.now links.now }
    ensures { MatchOption result ((n : ℕ) → Instant program.now node n → ¬ W.wants wanted.now n)
        (λ n. Instant program.now node n × W.wants wanted.now n) }
{
    match program.step(node) {
        Some(step) => match find_next(next_nodes(program, links, node, step), wanted) {
            Some(found) => Some(found),
            None => find_entry(program, children_of(step), wanted),
        },
        None => None,
    }
}

// One of these nodes that is wanted.
fn find_next<W: Sought>(nodes: NextNodes, wanted: &W) -> Option<NodeId>
    ensures { MatchOption result ((n : ℕ) → IsNext nodes n → ¬ W.wants wanted.now n)
        (λ n. IsNext nodes n × W.wants wanted.now n) }
{
    match the_wanted(nodes.first, wanted) {
        Some(node) => Some(node),
        None => the_wanted(nodes.second, wanted),
    }
}

// A node where one of these threads begins, that is wanted.
fn find_entry<W: Sought>(program: &Program, children: &[ThreadId], wanted: &W) -> Option<NodeId>
    ensures { MatchOption result ((n : ℕ) → IsEntry program.now children.now n → ¬ W.wants wanted.now n)
        (λ n. IsEntry program.now children.now n × W.wants wanted.now n) }
{
    for child in children {
        if let Some(found) = the_wanted(program.entry(*child), wanted) {
            return Some(found);
        }
    }
    None
}

// The node, if there is one and it is wanted.
fn the_wanted<W: Sought>(node: Option<NodeId>, wanted: &W) -> Option<NodeId>
    ensures { MatchOption result ((n : ℕ) → node ≡ Some n → ¬ W.wants wanted.now n)
        (λ n. (node ≡ Some n) × W.wants wanted.now n) }
{
    match node {
        Some(n) if wanted.is_wanted(n) => Some(n),
        _ => None,
    }
}

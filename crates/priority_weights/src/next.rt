//! The nodes to which edges lead: what they ask of the node before, and which of them has a rank.

ghost use Rattle.std.specs.Prelude.{◌≡◌, ◌≤◌, ◌↔◌, ℕ, IsTrue, Some, MatchOption, slice_index};
ghost use Rattle.program_edges.specs.Sorts.{IsNext};
ghost use Rattle.priority_weights.specs.Inside.Next.{IsAsked, IsRanked};

use program_edges::NextNodes;
use sc_graph::NodeId;

/// What edges of a weight to these nodes ask for.
pub(crate) fn asked_by_next(table: &[u32], nodes: NextNodes, weight: u64) -> u64
    requires { weight ≤ 1 }
    ensures { IsAsked (IsNext nodes) table.now weight result }
{
    asked_by(table, nodes.first, weight).max(asked_by(table, nodes.second, weight))
}

/// What an edge of a weight to a node asks for; 0 where there is none.
pub(crate) fn asked_by(table: &[u32], node: Option<NodeId>, weight: u64) -> u64
    requires { weight ≤ 1 }
    ensures { IsAsked (λ n. node ≡ Some n) table.now weight result }
{
    match node {
        Some(n) => weight + u64::from(entry(table, n)),
        None => 0,
    }
}

/// What stands in a table for a node; 0 past its end.
pub(crate) fn entry(table: &[u32], node: NodeId) -> u32
    ensures { result ≡ slice_index table.now node }
{
    match table.get(node as usize) {
        Some(number) => *number,
        None => 0,
    }
}

/// One of these nodes of a rank above 0 and below a number.
pub(crate) fn ranked_next(ranks: &[u32], nodes: NextNodes, below: u64) -> Option<NodeId>
    ensures { MatchOption result ((n : ℕ) → IsNext nodes n → ¬ IsRanked ranks.now below n)
        (λ n. IsNext nodes n × IsRanked ranks.now below n) }
{
    match ranked(ranks, nodes.first, below) {
        Some(node) => Some(node),
        None => ranked(ranks, nodes.second, below),
    }
}

/// The node, if there is one and it has a rank above 0 and below a number.
pub(crate) fn ranked(ranks: &[u32], node: Option<NodeId>, below: u64) -> Option<NodeId>
    ensures { MatchOption result ((n : ℕ) → node ≡ Some n → ¬ IsRanked ranks.now below n)
        (λ n. (node ≡ Some n) × IsRanked ranks.now below n) }
{
    match node {
        Some(n) if is_ranked(ranks, n, below) => Some(n),
        _ => None,
    }
}

/// Whether a node has a rank above 0 and below a number.
pub(crate) fn is_ranked(ranks: &[u32], node: NodeId, below: u64) -> bool
    ensures { IsTrue result ↔ IsRanked ranks.now below node }
{
    let rank = u64::from(entry(ranks, node));
    0 < rank && rank < below
}

//! Protocol edges: what they ask of the node that must come first, and which nodes behind have a rank.

ghost use Rattle.std.specs.Prelude.{ℕ, MatchOption};
ghost use Rattle.sc_graph.specs.Protocol.{ProtocolEdge};
ghost use Rattle.priority_weights.specs.Inside.Ordered.{IsFollower};
ghost use Rattle.priority_weights.specs.Inside.Next.{IsAsked, IsRanked, IsSomeAsked};

use crate::next::{entry, is_ranked};
use crate::reasons::is_among;
use conflict_edges::Edges;
use sc_graph::NodeId;

/// What the protocol edges from a node ask for.
pub(crate) fn asked_by_protocol(edges: &Edges, table: &[u32], node: NodeId) -> u64
    ensures { IsAsked (ProtocolEdge edges.now node) table.now 1 result }
{
    let followers = edges.followers(node);
    asked_by_followers(edges, table, node, followers.updates).max(asked_by_followers(
        edges,
        table,
        node,
        followers.reads,
    ))
}

/// What the protocol edge from a node to another asks for, if there is one; else 0.
pub(crate) fn asked_by_one(edges: &Edges, table: &[u32], node: NodeId, other: NodeId) -> u64
    ensures { IsSomeAsked (ProtocolEdge edges.now node) table.now 1 result }
{
    let followers = edges.followers(node);
    if !is_among(followers.updates, other) && !is_among(followers.reads, other) {
        return 0;
    }
    if !edges.are_concurrent(node, other) {
        return 0;
    }
    1 + u64::from(entry(table, other))
}

/// A node of a rank above 0 and below a number to which a protocol edge leads.
pub(crate) fn ranked_behind(
    edges: &Edges,
    ranks: &[u32],
    node: NodeId,
    below: u64,
) -> Option<NodeId>
    ensures { MatchOption result ((n : ℕ) → ProtocolEdge edges.now node n → ¬ IsRanked ranks.now below n)
        (λ n. ProtocolEdge edges.now node n × IsRanked ranks.now below n) }
{
    let followers = edges.followers(node);
    match ranked_follower(edges, ranks, node, followers.updates, below) {
        Some(found) => Some(found),
        None => ranked_follower(edges, ranks, node, followers.reads, below),
    }
}

// What edges of weight 1 to those of these nodes that are concurrent with a node ask for.
fn asked_by_followers(edges: &Edges, table: &[u32], node: NodeId, followers: &[NodeId]) -> u64
    ensures { IsAsked (IsFollower edges.now node followers.now) table.now 1 result }
{
    let mut asked = 0;
    for follower in followers {
        let more = 1 + u64::from(entry(table, *follower));
        if asked < more && edges.are_concurrent(node, *follower) {
            asked = more;
        }
    }
    asked
}

// One of these nodes that is concurrent with a node, of a rank above 0 and below a number.
fn ranked_follower(
    edges: &Edges,
    ranks: &[u32],
    node: NodeId,
    followers: &[NodeId],
    below: u64,
) -> Option<NodeId>
    ensures { MatchOption result ((n : ℕ) → IsFollower edges.now node followers.now n → ¬ IsRanked ranks.now below n)
        (λ n. IsFollower edges.now node followers.now n × IsRanked ranks.now below n) }
{
    for follower in followers {
        if is_ranked(ranks, *follower, below) && edges.are_concurrent(node, *follower) {
            return Some(*follower);
        }
    }
    None
}

//! What instantaneous edges ask of the node before, and which of the nodes to which they lead has a rank.

ghost use Rattle.std.specs.Prelude.{◌≡◌, ℕ, MatchOption};
ghost use Rattle.program_edges.specs.Sorts.{IsEntry};
ghost use Rattle.sc_graph.specs.Links.{Tells};
ghost use Rattle.sc_graph.specs.Protocol.{Instant};
ghost use Rattle.sc_graph.specs.Valid.{IsFormed};
ghost use Rattle.priority_weights.specs.Inside.Next.{IsAsked, IsRanked};

use crate::next::{asked_by, asked_by_next, is_ranked};
use program_edges::{Sought, children_of, find_instant, next_nodes};
use sc_graph::{Links, NodeId, Program, ThreadId};

/// What the instantaneous edges from a node ask for.
pub(crate) fn asked_by_instants(
    program: &Program,
    links: &Links,
    table: &[u32],
    node: NodeId,
) -> u64
    requires formed { IsFormed program.now }
    requires told { Tells program.now links.now }
    ensures { IsAsked (Instant program.now node) table.now 0 result }
{
    match program.step(node) {
        Some(step) => asked_by_next(table, next_nodes(program, links, node, step), 0).max(
            asked_by_entries(program, table, children_of(step)),
        ),
        None => 0,
    }
}

// What edges to the entries of these threads ask for.
fn asked_by_entries(program: &Program, table: &[u32], children: &[ThreadId]) -> u64
    ensures { IsAsked (IsEntry program.now children.now) table.now 0 result }
{
    let mut asked: u64 = 0;
    for child in children {
        asked = asked.max(asked_by(table, program.entry(*child), 0));
    }
    asked
}

/// A node of a rank above 0 and below a number to which an instantaneous edge leads.
pub(crate) fn ranked_instant(
    program: &Program,
    links: &Links,
    ranks: &[u32],
    node: NodeId,
    below: u64,
) -> Option<NodeId>
    requires formed { IsFormed program.now }
    requires told { Tells program.now links.now }
    ensures { MatchOption result ((n : ℕ) → Instant program.now node n → ¬ IsRanked ranks.now below n)
        (λ n. Instant program.now node n × IsRanked ranks.now below n) }
{
    find_instant(program, links, node, &Ranked { ranks, below })
}

// The nodes of a rank above 0 and below a number.
#[derive(Clone, Copy)]
struct Ranked<'a> {
    ranks: &'a [u32],
    below: u64,
}

impl<'a> Sought for Ranked<'a> {
    ghost wants = { λ r. IsRanked r.ranks.now r.below };

    fn is_wanted(&self, node: NodeId) -> bool {
        is_ranked(self.ranks, node, self.below)
    }
}

//! The order of priorities: they never rise along an instantaneous edge, and fall along a protocol edge.

ghost use Rattle.std.specs.Prelude.{◌≡◌, IfOk, length};
ghost use Rattle.std.proofs.Common.{arith, inl, inr};
ghost use Rattle.least_or_cycle.specs.Walks.{Falls};
ghost use Rattle.sc_graph.specs.Valid.{IsFormed};
ghost use Rattle.priority_weights.specs.Edges.{InOrder};
ghost use Rattle.priority_weights.specs.Inside.Falling.{IsFalling};

use crate::falling::{Falling, Hints, table_or_cycle};
use crate::instants::{asked_by_instants, ranked_instant};
use crate::kept::{instants_kept, protocol_kept};
use crate::protocol::{asked_by_one, asked_by_protocol, ranked_behind};
use conflict_edges::Edges;
use least_or_cycle::{Graph, NumberRule};
use sc_graph::{Links, NodeId, Program};
use std::alloc::{AllocError, Global};
use std::marker::Model;

// Above each rank.
const ANY: u64 = 4294967296;

/// The least priorities of a formed program, by its protocol edges; or a cycle along instantaneous and protocol
/// edges. Err: memory was refused.
pub(crate) fn priorities(
    alloc: Global,
    program: &Program,
    edges: &Edges,
    hints: Hints,
) -> Result<Falling, AllocError>
    requires formed { IsFormed program.now }
    requires edges { edges.now ≡ program.now }
    ensures { IfOk result (IsFalling (InOrder program.now) (length program.now.nodes)) }
{
    let order = Order {
        program,
        links: edges.links(),
        edges,
        reasons: hints.reasons,
    };
    table_or_cycle(alloc, &order, program.node_count(), hints)
}

// Instantaneous edges, each of weight 0, and protocol edges, each of weight 1. Contracts see the program.
#[derive(Drop)]
struct Order<'a> {
    program: &'a Program,
    links: &'a Links,
    edges: &'a Edges<'a>,
    reasons: &'a [NodeId],
}

impl<'a> Model for Order<'a> {
    ghost use Rattle.sc_graph.specs.Program.{Program};
    ghost use Rattle.priority_weights.specs.Inside.Ordered.{IsOrdered};

    ghost Value = { Program };

    ghost view = { λ o. o.program.now };

    ghost invariant = { λ o. IsOrdered o.program.now o.links.now o.edges.now };
}

impl<'a> NumberRule for Order<'a> {
    ghost keeps = { λ p. Falls (InOrder p) };

    fn need(&self, table: &[u32], place: u16) -> u64 {
        asked_by_instants(self.program, self.links, table, place).max(asked_by_protocol(
            self.edges, table, place,
        ))
    }

    fn part(&self, table: &[u32], place: u16) -> u64 {
        let reason = match self.reasons.get(place as usize) {
            Some(node) => *node,
            None => place,
        };
        asked_by_instants(self.program, self.links, table, place).max(asked_by_one(
            self.edges, table, place, reason,
        ))
    }

    fn is_kept(&self, alloc: Global, table: &[u32], count: u16) -> Result<bool, AllocError> {
        if !instants_kept(self.program, self.links, table, count) {
            return Ok(false);
        }
        let kept = protocol_kept(alloc, self.program, self.edges, table)?;
        Ok(kept)
    }
}

impl<'a> Graph for Order<'a> {
    ghost leads = { λ p. InOrder p };

    fn towards(&self, ranks: &[u32], node: u16, below: u64) -> Option<u16> {
        match ranked_instant(self.program, self.links, ranks, node, below) {
            Some(found) => Some(found),
            None => ranked_behind(self.edges, ranks, node, below),
        }
    }

    fn strictly_towards(&self, ranks: &[u32], node: u16) -> Option<u16> {
        ranked_behind(self.edges, ranks, node, ANY)
    }

    ghost light = { λ p m n w edge. elim edge [
      | inl e ↦ (let h = e.1 in Prim.omega (arith, h))
      | inr e ↦
          (let h = e.1 in Prim.omega (arith, h))
    ] };
}

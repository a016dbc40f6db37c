//! Going on within one tick: along it ranks fall, or it closes in an instant loop.

ghost use Rattle.std.specs.Prelude.{◌≡◌, ◌↔◌, IfOk, ℕ, length, slice_index};
ghost use Rattle.std.proofs.Common.{rules};
ghost use Rattle.priority_weights.specs.Inside.Entries.{BitKept, bits};
ghost use Rattle.least_or_cycle.specs.Least.{IsLeast};
ghost use Rattle.least_or_cycle.specs.Walks.{Falls};
ghost use Rattle.priority_weights.specs.Edges.{InTick};
ghost use Rattle.priority_weights.specs.Inside.Falling.{IsFalling};
ghost use Rattle.program_edges.specs.Sorts.{IsNext};
ghost use Rattle.priority_weights.specs.Inside.Next.{GoesOnBy, LeadsOn, join_at_once};

use crate::ends::entry_bits;
use crate::falling::{Falling, Hints, table_or_cycle};
use crate::next::{asked_by_next, ranked_next};
use least_or_cycle::{Graph, NumberRule};
use program_edges::{NextNodes, successors};
use sc_graph::{NodeId, Program, Step};
use std::alloc::{AllocError, Global};

// Above each rank.
const ANY: u64 = 4294967296;

/// Ranks that fall as a thread goes on within one tick, by the least end bits of a program; or a cycle. Err: memory was
/// refused.
pub(crate) fn going_on_ranks(
    alloc: Global,
    program: &Program,
    ends: &[u32],
    hints: Hints,
) -> Result<Falling, AllocError>
    requires { IsLeast (BitKept program.now) (length program.now.nodes) ends.now }
    ensures by_ends { IfOk result (IsFalling (LeadsOn program.now (slice_index ends.now))
        (length program.now.nodes)) }
    ensures in_tick { IfOk result (IsFalling (InTick program.now) (length program.now.nodes)) }
{
    table_or_cycle(
        alloc,
        &GoingOn { program, ends },
        program.node_count(),
        hints,
    )
}

/// The edges to where a thread goes on in the same tick, and over each fork whose children may all end at once,
/// by end bits. Each has weight 1.
#[derive(Clone, Copy)]
pub(crate) struct GoingOn<'a> {
    pub(crate) program: &'a Program,
    pub(crate) ends: &'a [u32],
}

impl<'a> GoingOn<'a> {
    /// Where the edges from a node lead.
    pub(crate) fn next(&self, node: NodeId) -> NextNodes
        ensures { (n : ℕ) → IsNext result n ↔ GoesOnBy self.now.program.now (slice_index self.now.ends.now) node n }
    {
        match self.program.step(node) {
            Some(step) => match self.join_at_once(step) {
                Some(join) => NextNodes {
                    first: Some(join),
                    second: None,
                },
                None => successors(step),
            },
            None => NextNodes {
                first: None,
                second: None,
            },
        }
    }

    // The join of a fork whose children may all end at once.
    fn join_at_once(&self, step: &Step) -> Option<NodeId>
        ensures { result ≡ join_at_once self.now.program.now (bits (slice_index self.now.ends.now)) step.now }
    {
        match step {
            Step::Fork { children, join } => {
                if entry_bits(self.program, self.ends, children.as_slice()) {
                    Some(*join)
                } else {
                    None
                }
            }
            Step::Assign { .. }
            | Step::Update { .. }
            | Step::Cond { .. }
            | Step::Join { .. }
            | Step::Surf { .. }
            | Step::Depth { .. }
            | Step::Exit => None,
        }
    }
}

impl<'a> NumberRule for GoingOn<'a> {
    ghost keeps = { λ on. Falls (LeadsOn on.program.now (slice_index on.ends.now)) };

    fn need(&self, table: &[u32], place: u16) -> u64 {
        asked_by_next(table, self.next(place), 1)
    }
}

impl<'a> Graph for GoingOn<'a> {
    ghost leads = { λ on. LeadsOn on.program.now (slice_index on.ends.now) };

    fn towards(&self, ranks: &[u32], node: u16, below: u64) -> Option<u16> {
        ranked_next(ranks, self.next(node), below)
    }

    fn strictly_towards(&self, ranks: &[u32], node: u16) -> Option<u16> {
        ranked_next(ranks, self.next(node), ANY)
    }

    ghost light = { λ on m n w edge. Prim.search rules };
}

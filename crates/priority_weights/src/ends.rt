//! End bits: from which nodes a thread may end in the tick.

ghost use Rattle.std.specs.Prelude.{◌≡◌, IfOk, nat_lt, length, slice_index};
ghost use Rattle.least_or_cycle.specs.Least.{IsLeast};
ghost use Rattle.sc_graph.specs.Program.{entry_of};
ghost use Rattle.priority_weights.specs.Inside.Entries.{BitKept, bits, entry_bit, entry_bits, step_bit};

use least_or_cycle::{NumberRule, least};
use sc_graph::{NodeId, Program, Step, ThreadId};
use std::alloc::{AllocError, Global};

/// The least end bits of a program, 1 where a thread may end in the tick. The order is a hint. Err:
/// memory was refused.
pub(crate) fn end_bits(
    alloc: Global,
    program: &Program,
    order: &[NodeId],
) -> Result<Vec<u32>, AllocError>
    ensures { IfOk result (λ ends. IsLeast (BitKept program.now) (length program.now.nodes) ends.items) }
{
    match least(alloc, &BitRule { program }, program.node_count(), 1, order)? {
        Some(ends) => Ok(ends),
        None => unreachable!(),
    }
}

// The end-bit rule.
#[derive(Clone, Copy)]
struct BitRule<'a> {
    program: &'a Program,
}

impl<'a> NumberRule for BitRule<'a> {
    ghost keeps = { λ rule q n. BitKept rule.program.now q n };

    fn need(&self, table: &[u32], place: u16) -> u64 {
        match self.program.step(place) {
            Some(step) if step_bit(self.program, table, step) => 1,
            _ => 0,
        }
    }
}

/// Whether a thread at such a step may end in this tick.
pub(crate) fn step_bit(program: &Program, table: &[u32], step: &Step) -> bool
    ensures { result ≡ step_bit program.now (bits (slice_index table.now)) step.now }
{
    match step {
        Step::Assign { next, .. }
        | Step::Update { next, .. }
        | Step::Join { next }
        | Step::Depth { next } => bit(table, *next),
        Step::Cond { then, other, .. } => bit(table, *then) || bit(table, *other),
        Step::Fork { children, join } => {
            entry_bits(program, table, children.as_slice()) && bit(table, *join)
        }
        Step::Surf { .. } => false,
        Step::Exit => true,
    }
}

/// Whether all these threads may end in the tick in which they are forked.
pub(crate) fn entry_bits(program: &Program, table: &[u32], children: &[ThreadId]) -> bool
    ensures { result ≡ entry_bits program.now (bits (slice_index table.now)) children.now }
{
    children
        .iter()
        .all(|child| entry_bit(program, table, *child))
}

// Whether a thread may end in the tick in which it is forked.
fn entry_bit(program: &Program, table: &[u32], thread: ThreadId) -> bool
    ensures { result ≡ entry_bit (bits (slice_index table.now)) (entry_of program.now thread) }
{
    match program.entry(thread) {
        Some(node) => bit(table, node),
        None => false,
    }
}

// Whether a node has its end bit.
fn bit(table: &[u32], node: NodeId) -> bool
    ensures { result ≡ bits (slice_index table.now) node }
{
    match table.get(node as usize) {
        Some(number) => *number > 0,
        None => false,
    }
}

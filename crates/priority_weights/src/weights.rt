//! Weights: how many steps a thread at a node, and what it forks, may still take in the tick.

ghost use Rattle.std.specs.Prelude.{◌≡◌, ◌≤◌, ◌*◌, IfOk, length, slice_index};
ghost use Rattle.least_or_cycle.specs.Least.{IsLeast, IsWithin};
ghost use Rattle.least_or_cycle.specs.Walks.{HasRanks};
ghost use Rattle.sc_graph.specs.Limits.{child_limit};
ghost use Rattle.sc_graph.specs.Program.{entry_of};
ghost use Rattle.sc_graph.specs.Size.{StepFits};
ghost use Rattle.sc_graph.specs.Valid.{IsFormed};
ghost use Rattle.priority_weights.specs.Inside.Entries.{WeightKept, bits, entry_number, entry_sum, join_weight};
ghost use Rattle.priority_weights.specs.Inside.Entries.{step_weight};
ghost use Rattle.priority_weights.specs.Inside.Next.{LeadsOn};

use crate::ends::entry_bits;
use crate::next::entry;
use least_or_cycle::{NumberRule, least};
use sc_graph::{NodeId, Program, Step, ThreadId};
use std::alloc::{AllocError, Global};
use std::marker::Model;

/// The least weights of a formed program without instant loops, by its end bits. The order is a hint. Err:
/// memory was refused.
pub(crate) fn weights(
    alloc: Global,
    program: &Program,
    ends: &[u32],
    order: &[NodeId],
) -> Result<Vec<u32>, AllocError>
    requires formed { IsFormed program.now }
    requires ranks { HasRanks (LeadsOn program.now (slice_index ends.now)) (length program.now.nodes) }
    ensures least { IfOk result (λ weights. IsLeast (WeightKept program.now (bits (slice_index ends.now)))
        (length program.now.nodes) weights.items) }
    ensures within { IfOk result (λ weights. IsWithin (length program.now.nodes) (length program.now.nodes)
        (slice_index weights.items)) }
{
    let count = program.node_count();
    let rule = WeightRule { program, ends };
    match least(alloc, &rule, count, u32::from(count), order)? {
        Some(weights) => Ok(weights),
        None => unreachable!(),
    }
}

// The step-weight rule of a formed program, by end bits. Contracts see the program and the end bits.
#[derive(Drop)]
struct WeightRule<'a> {
    program: &'a Program,
    ends: &'a [u32],
}

impl<'a> Model for WeightRule<'a> {
    ghost use Rattle.std.specs.Prelude.{ℕ, List};
    ghost use Rattle.sc_graph.specs.Program.{Program};
    ghost use Rattle.sc_graph.specs.Valid.{IsFormed};

    ghost Value = { Program × List ℕ };

    ghost view = { λ r. (r.program.now, r.ends.now) };

    ghost invariant = { λ r. IsFormed r.program.now };
}

impl<'a> NumberRule for WeightRule<'a> {
    ghost keeps = { λ r. WeightKept r.0 (bits (slice_index r.1)) };

    fn need(&self, table: &[u32], place: u16) -> u64 {
        match self.program.step(place) {
            Some(step) => step_weight(self.program, self.ends, table, step),
            None => 0,
        }
    }
}

// What the weight of a node with this step must at least be.
fn step_weight(program: &Program, ends: &[u32], table: &[u32], step: &Step) -> u64
    requires { StepFits program.now step.now }
    ensures { result ≡ step_weight program.now (bits (slice_index ends.now)) (slice_index table.now) step.now }
{
    match step {
        Step::Assign { next, .. }
        | Step::Update { next, .. }
        | Step::Join { next }
        | Step::Depth { next } => 1 + u64::from(entry(table, *next)),
        Step::Cond { then, other, .. } => {
            1 + u64::from(entry(table, *then).max(entry(table, *other)))
        }
        Step::Fork { children, join } => {
            1 + entry_sum(program, table, children.as_slice())
                + join_weight(program, ends, table, children.as_slice(), *join)
        }
        Step::Surf { .. } | Step::Exit => 1,
    }
}

// The weight of a fork's join, where its children may all end at once.
fn join_weight(
    program: &Program,
    ends: &[u32],
    table: &[u32],
    children: &[ThreadId],
    join: NodeId,
) -> u64
    ensures value { result ≡ join_weight program.now (bits (slice_index ends.now))
        (slice_index table.now) children.now join }
    ensures small { result ≤ 4294967295 }
{
    if entry_bits(program, ends, children) {
        u64::from(entry(table, join))
    } else {
        0
    }
}

// The sum of what stands in a table for the entries of these threads.
fn entry_sum(program: &Program, table: &[u32], children: &[ThreadId]) -> u64
    requires { length children.now ≤ child_limit }
    ensures value { result ≡ entry_sum program.now (slice_index table.now) children.now }
    ensures small { result ≤ 4294967295 * length children.now }
{
    let mut sum = 0;
    for child in children {
        sum += entry_number(program, table, *child);
    }
    sum
}

/// What stands in a table for the entry of a thread.
pub(crate) fn entry_number(program: &Program, table: &[u32], thread: ThreadId) -> u64
    ensures value { result ≡ entry_number (slice_index table.now) (entry_of program.now thread) }
    ensures small { result ≤ 4294967295 }
{
    match program.entry(thread) {
        Some(node) => u64::from(entry(table, node)),
        None => 0,
    }
}

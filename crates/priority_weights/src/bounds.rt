//! Bounds: how many steps a thread, and what stands below it, may take in a tick that it does not begin.

ghost use Rattle.std.specs.Prelude.{◌≡◌, ◌≤◌, ◌<◌, ◌*◌, IfOk, ℕ, length, slice_index};
ghost use Rattle.least_or_cycle.specs.Least.{IsWithin};
ghost use Rattle.sc_graph.specs.Limits.{child_limit};
ghost use Rattle.sc_graph.specs.Size.{StepFits};
ghost use Rattle.sc_graph.specs.Valid.{IsFormed};
ghost use Rattle.priority_weights.specs.Inside.Bounds.{AreLeastBounds, AreUnder, CoverBecame, bound_sum, step_cost};

use crate::next::entry;
use sc_graph::{NodeId, Program, Step, ThreadId};
use std::alloc::{AllocError, Global};

/// The least bounds of a formed program, by its weights. Err: memory was refused.
pub(crate) fn bounds(
    alloc: Global,
    program: &Program,
    weights: &[u32],
) -> Result<Vec<u32>, AllocError>
    requires formed { IsFormed program.now }
    requires within { IsWithin (length program.now.nodes) (length program.now.nodes) (slice_index weights.now) }
    ensures { IfOk result (λ bounds. AreLeastBounds program.now (slice_index weights.now) bounds.items) }
{
    let mut bounds = vec![in alloc; 0; program.thread_count() as usize]?;
    raise(program, weights, bounds.as_mut_slice());
    Ok(bounds)
}

// Raises bounds until they cover all nodes. Each pass over the nodes settles the threads of one more generation.
fn raise(program: &Program, weights: &[u32], bounds: &mut [u32])
    requires formed { IsFormed program.now }
    requires within { IsWithin (length program.now.nodes) (length program.now.nodes) (slice_index weights.now) }
    requires under { AreUnder program.now (slice_index weights.now) bounds.old }
    ensures { AreLeastBounds program.now (slice_index weights.now) bounds.new }
{
    loop {
        if !cover_all(program, weights, bounds) {
            return;
        }
    }
}

// Raises bounds so that they cover nodes. False: they cover all.
fn cover_all(program: &Program, weights: &[u32], bounds: &mut [u32]) -> bool
    requires formed { IsFormed program.now }
    requires within { IsWithin (length program.now.nodes) (length program.now.nodes) (slice_index weights.now) }
    requires under { AreUnder program.now (slice_index weights.now) bounds.old }
    ensures { CoverBecame program.now (slice_index weights.now)
        (λ n. n < length program.now.nodes) bounds.old bounds.new result }
{
    let mut raised = false;
    for node in 0..program.node_count() {
        if cover(program, weights, bounds, node) {
            raised = true;
        }
    }
    raised
}

// Raises the bound of the thread of a node so that it covers the node. False: it does.
fn cover(program: &Program, weights: &[u32], bounds: &mut [u32], node: NodeId) -> bool
    requires formed { IsFormed program.now }
    requires within { IsWithin (length program.now.nodes) (length program.now.nodes) (slice_index weights.now) }
    requires under { AreUnder program.now (slice_index weights.now) bounds.old }
    ensures { CoverBecame program.now (slice_index weights.now) (λ n. n ≡ node) bounds.old bounds.new result }
{
    match (program.owner(node), program.step(node)) {
        (Some(thread), Some(step)) => {
            let cost = step_cost(program, weights, bounds, node, step);
            if u64::from(bounds[thread as usize]) < cost {
                bounds[thread as usize] = cost as u32;
                true
            } else {
                false
            }
        }
        _ => false,
    }
}

// What the step of a node asks of the bound of its thread.
fn step_cost(program: &Program, weights: &[u32], bounds: &[u32], node: NodeId, step: &Step) -> u64
    requires { StepFits program.now step.now }
    ensures { result ≡ step_cost (slice_index weights.now) (slice_index bounds.now) node step.now }
{
    match step {
        Step::Depth { .. } => u64::from(entry(weights, node)),
        Step::Fork { children, join } => {
            u64::from(entry(weights, *join)) + bound_sum(bounds, children.as_slice())
        }
        Step::Assign { .. }
        | Step::Update { .. }
        | Step::Cond { .. }
        | Step::Join { .. }
        | Step::Surf { .. }
        | Step::Exit => 0,
    }
}

// The sum of the bounds of these threads.
fn bound_sum(bounds: &[u32], children: &[ThreadId]) -> u64
    requires { length children.now ≤ child_limit }
    ensures value { result ≡ bound_sum (slice_index bounds.now) children.now }
    ensures small { result ≤ 4294967295 * length children.now }
{
    let mut sum = 0;
    for child in children {
        sum += u64::from(entry(bounds, *child));
    }
    sum
}

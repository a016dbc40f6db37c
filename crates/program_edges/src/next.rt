//! The nodes to which a node leads, by the three sorts of edges: where the thread goes on, the join behind where it
//! ends, and where the children of a fork begin.

ghost use Rattle.std.specs.Prelude.{◌≡◌, ◌↔◌, ℕ, Contains};
ghost use Rattle.std.specs.Option.{option_copied};
ghost use Rattle.program_edges.specs.Sorts.{IsNext, IsOn, children_of};
ghost use Rattle.program_edges.specs.Inside.Behind.{fork_join, is_exit, join_behind, join_of_child};
ghost use Rattle.sc_graph.specs.Links.{Tells};
ghost use Rattle.sc_graph.specs.Protocol.{successors};
ghost use Rattle.sc_graph.specs.Valid.{IsFormed};

use sc_graph::{Links, NodeId, Program, Step, ThreadId};

/// Up to two nodes at which a thread may go on.
#[derive(Clone, Copy)]
pub struct NextNodes {
    pub first: Option<NodeId>,
    pub second: Option<NodeId>,
}

/// The nodes of its own at which a thread goes on from such a step in the same tick.
pub fn successors(step: &Step) -> NextNodes
    ensures { (n : ℕ) → IsNext result n ↔ Contains (successors step.now) n }
{
    match step {
        Step::Assign { next, .. }
        | Step::Update { next, .. }
        | Step::Join { next }
        | Step::Depth { next } => NextNodes {
            first: Some(*next),
            second: None,
        },
        Step::Cond { then, other, .. } => NextNodes {
            first: Some(*then),
            second: Some(*other),
        },
        Step::Fork { .. } | Step::Surf { .. } | Step::Exit => NextNodes {
            first: None,
            second: None,
        },
    }
}

/// Where a thread goes on from a node with this step, or the join behind, where it ends there. Of a program that is
/// not formed, or by other links, nothing is said.
pub fn next_nodes(program: &Program, links: &Links, node: NodeId, step: &Step) -> NextNodes
    ensures { IsFormed program.now → Tells program.now links.now → (n : ℕ) → IsNext result n
        ↔ IsOn program.now node step.now n }
{
    if is_exit(step) {
        NextNodes {
            first: join_behind(program, links, node),
            second: None,
        }
    } else {
        successors(step)
    }
}

/// The children of a fork, to where each of which an edge leads; none of another step.
pub fn children_of(step: &Step) -> &[ThreadId]
    ensures { result.now ≡ children_of step.now }
{
    match step {
        Step::Fork { children, .. } => children.as_slice(),
        Step::Assign { .. }
        | Step::Update { .. }
        | Step::Cond { .. }
        | Step::Join { .. }
        | Step::Surf { .. }
        | Step::Depth { .. }
        | Step::Exit => &[],
    }
}

// Whether a thread ends at such a step.
fn is_exit(step: &Step) -> bool
    ensures { result ≡ is_exit step.now }
{
    match step {
        Step::Exit => true,
        _ => false,
    }
}

// The join of the fork of the thread that owns a node.
fn join_behind(program: &Program, links: &Links, node: NodeId) -> Option<NodeId>
    ensures { result ≡ join_behind program.now links.now node }
{
    match program.owner(node) {
        Some(thread) => join_of_child(program, links, thread),
        None => None,
    }
}

// The join of the fork of which a thread is a child.
fn join_of_child(program: &Program, links: &Links, thread: ThreadId) -> Option<NodeId>
    ensures { result ≡ join_of_child program.now links.now thread }
{
    match links.fork_of(thread) {
        Some(fork) => fork_join(program.step(fork)),
        None => None,
    }
}

// The join of a fork.
fn fork_join(step: Option<&Step>) -> Option<NodeId>
    ensures { result ≡ fork_join (option_copied step.entry) }
{
    match step {
        Some(Step::Fork { join, .. }) => Some(*join),
        _ => None,
    }
}

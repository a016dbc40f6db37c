//! Whether a node may be concurrent with some other one at all.

ghost use Rattle.std.specs.Prelude.{◌<◌, ℕ, IsTrue, length};
ghost use Rattle.sc_graph.specs.Links.{Tells};
ghost use Rattle.sc_graph.specs.Threads.{AreConcurrent, ConcurrentNodes};
ghost use Rattle.sc_graph.specs.Valid.{IsFormed};
ghost use Rattle.program_edges.specs.Inside.Beside.{IsBeside};

use sc_graph::{Links, NodeId, Program, Step, ThreadId};

/// Whether a node of a formed program may be concurrent with another: where not, it is so with none. It costs a step
/// for each thread above it, so that where many pairs are asked for the first of them is asked for this before.
pub fn has_company(program: &Program, links: &Links, node: NodeId) -> bool
    requires formed { IsFormed program.now }
    requires told { Tells program.now links.now }
    ensures { (other : ℕ) → ConcurrentNodes program.now node other → IsTrue result }
{
    match program.owner(node) {
        Some(thread) => thread_has_company(program, links, thread),
        None => false,
    }
}

// Whether a thread, or one above it, is forked beside another one.
fn thread_has_company(program: &Program, links: &Links, thread: ThreadId) -> bool
    requires formed { IsFormed program.now }
    requires told { Tells program.now links.now }
    ensures { (other : ℕ) → AreConcurrent program.now thread other → IsTrue result }
{
    let mut below = thread;
    while let Some(parent) = program.parent(below) {
        if is_beside(program, links, below) {
            return true;
        }
        below = parent;
    }
    false
}

// Whether a thread is forked beside another one; or there is not one fork of it.
fn is_beside(program: &Program, links: &Links, child: ThreadId) -> bool
    requires told { Tells program.now links.now }
    requires within { child < length program.now.threads }
    ensures { IsBeside program.now child → IsTrue result }
{
    match links.fork_of(child) {
        Some(fork) => match program.step(fork) {
            Some(Step::Fork { children, join: _ }) => children.len() != 1,
            _ => true,
        },
        None => true,
    }
}

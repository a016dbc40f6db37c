//! Of many nodes that write one variable a few that conflict where any do: nodes of one thread never
//! conflict, so that what stands in a row in one thread counts once.

ghost use Rattle.std.specs.Prelude.{◌≡◌, ◌↔◌, ℕ, IfOk, IsTrue, Contains};
ghost use Rattle.sc_values.specs.Access.{Clash};
ghost use Rattle.sc_graph.specs.Accesses.{accesses};
ghost use Rattle.sc_graph.specs.Valid.{IsFormed};
ghost use Rattle.program_edges.specs.Inside.Candidates.{AreAlike, IsCovered, IsKept, SameThread};
ghost use Rattle.program_edges.specs.Inside.NoConflicts.{NoneConflict};

use crate::conflicts::nodes_clash;
use sc_graph::{NodeId, Program};
use std::alloc::{AllocError, Global};

/// Some of these nodes, of which two conflict where two of all these do. Err: memory was refused.
pub(crate) fn candidates(
    alloc: Global,
    program: &Program,
    nodes: &[NodeId],
) -> Result<Vec<NodeId>, AllocError>
    requires formed { IsFormed program.now }
    requires alike { AreAlike program.now nodes.now }
    ensures only { IfOk result (λ kept. (n : ℕ) → Contains kept.items n → Contains nodes.now n) }
    ensures suffices { IfOk result (λ kept. NoneConflict program.now kept.items → NoneConflict program.now nodes.now) }
{
    let mut kept = Vec::new(alloc);
    for node in nodes {
        keep(program, &mut kept, *node)?;
    }
    Ok(kept)
}

// Keeps a node beside others, unless they cover it.
fn keep(program: &Program, kept: &mut Vec<NodeId>, node: NodeId) -> Result<(), AllocError>
    ensures { IfOk result (λ _. IsKept program.now kept.old.items kept.new.items node) }
{
    if is_covered(program, kept.as_slice(), node) {
        return Ok(());
    }
    kept.push(node)?;
    Ok(())
}

// Whether the last of these nodes conflict with whatever a further node of their thread conflicts with:
// one that does not clash with it, or two that clash with one another.
fn is_covered(program: &Program, kept: &[NodeId], node: NodeId) -> bool
    ensures { IsTrue result → IsCovered program.now kept.now node }
{
    let count = kept.len();
    if count == 0 {
        return false;
    }
    let last = kept[count - 1];
    if !same_thread(program, last, node) {
        return false;
    }
    if !nodes_clash(program, last, node) {
        return true;
    }
    if count == 1 {
        return false;
    }
    let before = kept[count - 2];
    same_thread(program, before, node) && nodes_clash(program, before, last)
}

// Whether two nodes are of one thread.
fn same_thread(program: &Program, first: NodeId, second: NodeId) -> bool
    ensures { IsTrue result → SameThread program.now first second }
{
    program.owner(first) == program.owner(second)
}

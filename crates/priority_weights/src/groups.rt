//! The graph of instantaneous and protocol edges, for hints. Protocol edges are no arcs of it, but ways.

use crate::arcs::Arcs;
use crate::branches::Branches;
use conflict_edges::Edges;
use program_edges::{NextNodes, Users, children_of, next_nodes};
use sc_graph::{Links, NodeId, Program, VariableId};
use std::alloc::{AllocError, Global};

/// Instantaneous and protocol edges. The nodes are those of the program, and behind them those that stand for some of
/// these: a protocol edge leads over several of them. Err: memory was refused.
pub(crate) fn order_arcs(
    alloc: Global,
    program: &Program,
    edges: &Edges,
) -> Result<Arcs, AllocError> {
    let mut arcs = Arcs::none(alloc, u32::from(program.node_count()))?;
    for node in 0..program.node_count() {
        add_instants(program, edges.links(), &mut arcs, node)?;
    }
    add_variables(alloc, program, edges, &mut arcs)?;
    Ok(arcs)
}

// Adds the protocol edges.
fn add_variables(
    alloc: Global,
    program: &Program,
    edges: &Edges,
    arcs: &mut Arcs,
) -> Result<(), AllocError> {
    let links = edges.links();
    let users = edges.users();
    let mut branches = Branches::none(alloc, program)?;
    for x in 0..program.variable_count() {
        add_variable(program, links, users, arcs, &mut branches, x)?;
    }
    Ok(())
}

// Adds the instantaneous edges from a node.
fn add_instants(
    program: &Program,
    links: &Links,
    arcs: &mut Arcs,
    node: NodeId,
) -> Result<(), AllocError> {
    if let Some(step) = program.step(node) {
        add_next(arcs, node, next_nodes(program, links, node, step))?;
    }
    add_entries(program, arcs, node)
}

/// Adds arcs from a node to where the children begin that it forks.
pub(crate) fn add_entries(
    program: &Program,
    arcs: &mut Arcs,
    node: NodeId,
) -> Result<(), AllocError> {
    match program.step(node) {
        Some(step) => {
            for child in children_of(step) {
                add_to(arcs, node, program.entry(*child))?;
            }
            Ok(())
        }
        None => Ok(()),
    }
}

/// Adds arcs from a node to these.
pub(crate) fn add_next(arcs: &mut Arcs, node: NodeId, next: NextNodes) -> Result<(), AllocError> {
    add_to(arcs, node, next.first)?;
    add_to(arcs, node, next.second)
}

/// Adds an arc from a node to another, if there is one.
pub(crate) fn add_to(arcs: &mut Arcs, node: NodeId, to: Option<NodeId>) -> Result<(), AllocError> {
    match to {
        Some(next) => arcs.add(u32::from(node), u32::from(next)),
        None => Ok(()),
    }
}

// Adds the protocol edges that are about a variable.
fn add_variable(
    program: &Program,
    links: &Links,
    users: &Users,
    arcs: &mut Arcs,
    branches: &mut Branches,
    x: VariableId,
) -> Result<(), AllocError> {
    let (inits, updates) = (users.inits.of(x), users.updates.of(x));
    let reads = users.reads.of(x);
    branches.add(program, links, arcs, inits, &[updates, reads])?;
    branches.add(program, links, arcs, updates, &[reads])
}

//! The lines of protocol edges.

use crate::cells::put_right;
use crate::runs::{Runs, run_text};
use conflict_edges::Edges;
use sc_graph::{NodeId, Program, Step, Variable, VariableId};
use std::alloc::{AllocError, Global};

// How a step writes a variable.
#[derive(Clone, Copy, PartialEq, Eq)]
enum Access {
    Init,
    Update,
}

// How a step writes this variable.
fn writing(step: &Step, variable: VariableId) -> Option<Access> {
    match step {
        Step::Assign {
            variable: written,
            ..
        } if *written == variable => Some(Access::Init),
        Step::Update {
            variable: written,
            ..
        } if *written == variable => Some(Access::Update),
        _ => None,
    }
}

// How a node writes this variable.
fn writing_at(program: &Program, node: NodeId, variable: VariableId) -> Option<Access> {
    match program.step(node) {
        Some(step) => writing(step, variable),
        None => None,
    }
}

// Adds those of some nodes that are concurrent with a node.
fn add_concurrent(
    edges: &Edges<'_>,
    node: NodeId,
    others: &[NodeId],
    runs: &mut Runs,
) -> Result<(), AllocError> {
    for other in others {
        let other = *other;
        if edges.are_concurrent(node, other) {
            runs.add(other)?;
        }
    }
    Ok(())
}

// The nodes to which edges lead from a node: those that update and then those that read.
fn behind(alloc: Global, edges: &Edges<'_>, node: NodeId) -> Result<String, AllocError> {
    let followers = edges.followers(node);
    let mut runs = Runs::new(alloc);
    add_concurrent(edges, node, followers.updates, &mut runs)?;
    add_concurrent(edges, node, followers.reads, &mut runs)?;
    runs.into_text()
}

// Nodes of one thread, one behind the other, that write a variable in one way. So edges lead from each to the same
// nodes.
#[derive(Clone, Copy)]
struct Writers {
    first: NodeId,
    last: NodeId,
    writing: Access,
}

// Whether a node that writes so comes behind these and belongs to them.
fn goes_on(program: &Program, writers: Writers, node: NodeId, writing: Access) -> bool {
    writers.writing == writing
        && writers.last.checked_add(1) == Some(node)
        && program.owner(writers.last) == program.owner(node)
}

// Puts the numbers of these nodes behind a text.
fn put_numbers(alloc: Global, text: &mut String, writers: Writers) -> Result<(), AllocError> {
    let numbers = run_text(alloc, writers.first, writers.last)?;
    put_right(text, 5, numbers.as_str())
}

// Puts the line of the edges from these nodes behind a text, if there are edges.
fn put_line(
    alloc: Global,
    edges: &Edges<'_>,
    writers: Writers,
    text: &mut String,
) -> Result<(), AllocError> {
    let behind = behind(alloc, edges, writers.first)?;
    if behind.is_empty() {
        return Ok(());
    }
    text.push_str("    ")?;
    put_numbers(alloc, text, writers)?;
    text.push_str(" ->")?;
    text.push_str(behind.as_str())?;
    text.push_str("\n")
}

// The lines of the edges from nodes that write a variable.
fn of_variable(
    alloc: Global,
    program: &Program,
    edges: &Edges<'_>,
    variable: VariableId,
) -> Result<String, AllocError> {
    let mut text = String::new(alloc);
    let mut open: Option<Writers> = None;
    for node in 0..program.node_count() {
        if let Some(writing) = writing_at(program, node, variable) {
            let alone = Writers {
                first: node,
                last: node,
                writing,
            };
            open = match open {
                Some(writers) if goes_on(program, writers, node, writing) => Some(Writers {
                    first: writers.first,
                    last: node,
                    writing,
                }),
                Some(writers) => {
                    put_line(alloc, edges, writers, &mut text)?;
                    Some(alone)
                }
                None => Some(alone),
            };
        }
    }
    if let Some(writers) = open {
        put_line(alloc, edges, writers, &mut text)?;
    }
    Ok(text)
}

// Puts the name of a variable, and below it these lines, behind a text.
fn put_part(text: &mut String, variable: &Variable, lines: &str) -> Result<(), AllocError> {
    text.push_str("  ")?;
    text.push_str(variable.name.as_str())?;
    text.push_str("\n")?;
    text.push_str(lines)
}

/// The lines of protocol edges: for each variable that has some its name, and below it a line for each row of nodes of
/// one thread that write it in one way, with the nodes to which edges lead from each of them. Err: memory was refused.
pub(crate) fn edges_text(
    alloc: Global,
    program: &Program,
    edges: &Edges<'_>,
) -> Result<String, AllocError> {
    let mut text = String::new(alloc);
    let mut number: VariableId = 0;
    for variable in program.variables() {
        let lines = of_variable(alloc, program, edges, number)?;
        if !lines.is_empty() {
            put_part(&mut text, variable, lines.as_str())?;
        }
        number = number.saturating_add(1);
    }
    Ok(text)
}

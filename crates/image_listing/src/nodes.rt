//! The lines of nodes.

ghost use Rattle.std.specs.Prelude.{◌≡◌, ◌≤◌, IfOk, length, map, string_bytes};
ghost use Rattle.sc_graph.specs.Limits.{count_limit};
ghost use Rattle.image_listing.specs.Nodes.{cell_of, end_text, node_text, nodes_text, number_text};

use crate::cells::{left_cell, number_cell};
use crate::steps::step_text;
use sc_graph::{Node, NodeId, Tables, Variable};
use std::alloc::{AllocError, Global};

// Whether a thread at a node may end in this tick.
fn end_text(end_bit: bool) -> &'static str
    ensures { result.now ≡ end_text end_bit }
{
    if end_bit { "yes" } else { "no " }
}

// The cell of a node, which is empty where there are no more.
#[tactic(auto, using(crate::proofs::CellsFound::cell_found, crate::proofs::CellsFound::no_cell))]
fn cell_of(cells: &[String], number: NodeId) -> &str
    ensures { result.now ≡ cell_of (map string_bytes cells.now) number }
{
    match cells.get(number as usize) {
        Some(cell) => cell.as_str(),
        None => "",
    }
}

// What a line begins with: the number of its node, and its cell.
fn number_text(alloc: Global, number: NodeId, cell: &str) -> Result<String, AllocError>
    ensures { IfOk result (λ text. string_bytes text ≡ number_text number cell.now) }
{
    let digits = format!(in alloc; "{number}")?;
    let first = left_cell(alloc, 5, digits.as_str())?;
    format!(in alloc; "{first}  {cell}")
}

// The line of a node, with this cell.
fn node_text(
    alloc: Global,
    variables: &[Variable],
    tables: &Tables,
    number: NodeId,
    cell: &str,
    node: &Node,
) -> Result<String, AllocError>
    ensures { IfOk result (λ line. string_bytes line
        ≡ node_text variables.now tables.now number cell.now node.now) }
{
    let first = number_text(alloc, number, cell)?;
    let owner = number_cell(alloc, 6, node.owner as u32)?;
    let priority = number_cell(alloc, 8, tables.priority(number) as u32)?;
    let weight = number_cell(alloc, 6, tables.weight(number) as u32)?;
    let end = end_text(tables.end_bit(number));
    let step = step_text(alloc, variables, &node.step)?;
    format!(in alloc; "{first}{owner}  {priority}  {weight}  {end}  {step}\n")
}

/// The lines of nodes with these cells, which are no more than an image can hold. The first has the number 0.
pub(crate) fn nodes_text(
    alloc: Global,
    cells: &[String],
    variables: &[Variable],
    tables: &Tables,
    nodes: &[Node],
) -> Result<String, AllocError>
    requires { length nodes.now ≤ count_limit }
    ensures { IfOk result (λ text. string_bytes text
        ≡ nodes_text (map string_bytes cells.now) variables.now tables.now 0 nodes.now) }
{
    let mut text = String::new(alloc);
    let mut number: u32 = 0;
    for node in nodes {
        let cell = cell_of(cells, number as NodeId);
        let line = node_text(alloc, variables, tables, number as NodeId, cell, node)?;
        text.push_str(line.as_str())?;
        number += 1;
    }
    Ok(text)
}

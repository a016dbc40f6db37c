//! Why a node's number is what it is: for each node the one behind a protocol edge that asks most of it. These are
//! hints, for speed alone: who asks looks whether there is such an edge.

ghost use Rattle.std.specs.Prelude.{IsTrue, Contains};

use crate::arcs::{Arc, Arcs, Sort, number_at, put};
use sc_graph::NodeId;
use std::alloc::{AllocError, Global};

// The reason of what stands for no node.
const NOBODY: u32 = u32::MAX;

/// Of the first so many nodes of a graph, which are a program's, the node for which each has its number; one that is no
/// node where there is none. The nodes behind these stand for some of the program. Each node stands in the order behind
/// those to which arcs lead. Err: memory was refused.
pub(crate) fn reasons(
    alloc: Global,
    arcs: &Arcs,
    order: &[u32],
    count: u16,
) -> Result<Vec<NodeId>, AllocError> {
    let mut numbers = vec![in alloc; 0; arcs.nodes() as usize]?;
    let mut reasons = vec![in alloc; NOBODY; arcs.nodes() as usize]?;
    for node in order {
        give_number(arcs, &mut numbers, &mut reasons, *node, u32::from(count));
    }
    first_nodes(alloc, reasons.as_slice(), count)
}

// The first so many of these nodes.
fn first_nodes(alloc: Global, nodes: &[u32], count: u16) -> Result<Vec<NodeId>, AllocError> {
    let mut made = Vec::with_capacity(alloc, count as usize)?;
    for place in 0..count {
        let node = number_at(nodes, u32::from(place));
        made.push(node.min(u32::from(NodeId::MAX)) as NodeId)?;
    }
    Ok(made)
}

// Gives a node its number and its reason, by the nodes to which arcs lead.
fn give_number(arcs: &Arcs, numbers: &mut Vec<u32>, reasons: &mut Vec<u32>, node: u32, count: u32) {
    let mut number = arcs.first(node);
    let mut most = 0;
    for _ in 0..arcs.count() {
        match arcs.arc(number) {
            Some(arc) => {
                take_arc(arc, numbers, reasons, node, count, &mut most);
                number = arc.next;
            }
            None => return,
        }
    }
}

// Takes in what an arc from a node asks for, and whether it asks most of it so far. To what stands for no node none
// leads.
fn take_arc(
    arc: Arc,
    numbers: &mut Vec<u32>,
    reasons: &mut Vec<u32>,
    node: u32,
    count: u32,
    most: &mut u32,
) {
    let reason = reason_by(reasons.as_slice(), arc.to, count);
    if reason == NOBODY {
        return;
    }
    let asked = number_at(numbers.as_slice(), arc.to).saturating_add(weight(arc.sort));
    if asked > number_at(numbers.as_slice(), node) {
        put(numbers.as_mut_slice(), node, asked);
    }
    if (count <= node || count <= arc.to) && asked >= *most {
        *most = asked;
        put(reasons.as_mut_slice(), node, reason);
    }
}

// By how much numbers have to fall along an arc.
fn weight(sort: Sort) -> u32 {
    match sort {
        Sort::Fall => 1,
        Sort::Edge | Sort::Link => 0,
    }
}

// The node of the program for which there is an arc to a node.
fn reason_by(reasons: &[u32], to: u32, count: u32) -> u32 {
    if to < count {
        to
    } else {
        number_at(reasons, to)
    }
}

/// Whether a node is found in a list, by halves.
pub(crate) fn is_among(list: &[NodeId], node: NodeId) -> bool
    ensures { IsTrue result → Contains list.now node }
{
    let mut low = 0;
    let mut high = list.len();
    while low < high {
        let middle = low + (high - low) / 2;
        if list[middle] == node {
            return true;
        }
        if list[middle] < node {
            low = middle + 1;
        } else {
            high = middle;
        }
    }
    false
}

//! Hints for the searches, for speed alone: nothing is said of them. Each search has an order of its own, in which the
//! table that it makes is right after one pass, or a suspect and the way on which it comes back to itself.

use crate::arcs::{Arcs, put};
use crate::ends::step_bit;
use crate::falling::Hints;
use crate::going_on::GoingOn;
use crate::groups::{add_entries, add_next, order_arcs};
use crate::next::entry;
use crate::reasons::reasons;
use crate::visit::Visited;
use crate::ways::{settling_order, way_to};
use conflict_edges::Edges;
use program_edges::{children_of, successors};
use sc_graph::{NodeId, Program, Step};
use std::alloc::{AllocError, Global};

/// An order of the nodes, and nodes that are likely to lie on a cycle: one at most, and then the order is the way on
/// which it comes back to itself, the last node first. Where there is none, for priorities, the reason of each node.
#[derive(Drop)]
pub(crate) struct Search {
    order: Vec<NodeId>,
    suspects: Vec<NodeId>,
    reasons: Vec<NodeId>,
}

impl Search {
    /// For the search for an instant loop, and for weights: where threads go on within one tick, by end bits, and
    /// from each fork to where its children begin. Err: memory was refused.
    pub(crate) fn of_going_on(
        alloc: Global,
        program: &Program,
        ends: &[u32],
    ) -> Result<Search, AllocError> {
        let count = program.node_count();
        let arcs = arcs_of_going_on(alloc, program, ends)?;
        let visited = Visited::of(alloc, &arcs)?;
        match find_joined(&arcs, &visited, count, 0) {
            Some(suspect) => Search::back_to(alloc, &arcs, &visited, count, suspect),
            None => Search::along(alloc, visited.left.as_slice(), count),
        }
    }

    /// For the search for a cycle with a protocol edge, and for priorities. Err: memory was refused.
    pub(crate) fn of_order(
        alloc: Global,
        program: &Program,
        edges: &Edges,
    ) -> Result<Search, AllocError> {
        let count = program.node_count();
        let arcs = order_arcs(alloc, program, edges)?;
        let visited = Visited::of(alloc, &arcs)?;
        match find_joined(&arcs, &visited, count, u32::from(count)) {
            Some(suspect) => Search::back_to(alloc, &arcs, &visited, count, suspect),
            None => Search::settled(alloc, &arcs, &visited, count),
        }
    }

    // An order in which priorities settle, with their reasons, and no suspect.
    fn settled(
        alloc: Global,
        arcs: &Arcs,
        visited: &Visited,
        count: u16,
    ) -> Result<Search, AllocError> {
        let order = settling_order(alloc, arcs, visited)?;
        Search::with_reasons(alloc, arcs, order.as_slice(), count)
    }

    // This order, with the reasons by it.
    fn with_reasons(
        alloc: Global,
        arcs: &Arcs,
        order: &[u32],
        count: u16,
    ) -> Result<Search, AllocError> {
        let reasons = reasons(alloc, arcs, order, count)?;
        let order = of_program(alloc, order, count)?;
        Ok(Search {
            order,
            suspects: Vec::new(alloc),
            reasons,
        })
    }

    // An order, and no suspect.
    fn along(alloc: Global, order: &[u32], count: u16) -> Result<Search, AllocError> {
        Ok(Search {
            order: of_program(alloc, order, count)?,
            suspects: Vec::new(alloc),
            reasons: Vec::new(alloc),
        })
    }

    // A suspect, and the way on which it comes back to itself.
    fn back_to(
        alloc: Global,
        arcs: &Arcs,
        visited: &Visited,
        count: u16,
        suspect: Suspect,
    ) -> Result<Search, AllocError> {
        let way = way_to(alloc, arcs, visited, suspect.next, u32::from(suspect.node))?;
        Search::on_way(alloc, way.as_slice(), count, suspect.node)
    }

    // A suspect, and this way.
    fn on_way(
        alloc: Global,
        way: &[u32],
        count: u16,
        suspect: NodeId,
    ) -> Result<Search, AllocError> {
        let suspects = vec![in alloc; suspect; 1]?;
        let order = of_program(alloc, way, count)?;
        Ok(Search {
            order,
            suspects,
            reasons: Vec::new(alloc),
        })
    }

    /// The order, the suspects and the reasons.
    pub(crate) fn hints(&self) -> Hints<'_> {
        Hints {
            order: self.order.as_slice(),
            suspects: self.suspects.as_slice(),
            reasons: self.reasons.as_slice(),
        }
    }

    /// The order alone.
    pub(crate) fn order(&self) -> &[NodeId] {
        self.order.as_slice()
    }
}

/// The nodes from which a thread may end in the tick, each behind those by which it does. Err: memory was refused.
pub(crate) fn end_order(alloc: Global, program: &Program) -> Result<Vec<NodeId>, AllocError> {
    let behind = arcs_behind(alloc, program)?;
    let mut bits = vec![in alloc; 0; program.node_count() as usize]?;
    let mut order = Vec::new(alloc);
    put_ending(program, &behind, &mut bits, &mut order)?;
    Ok(order)
}

// The arcs where threads go on within one tick, by end bits, and from each fork to where its children begin.
fn arcs_of_going_on(alloc: Global, program: &Program, ends: &[u32]) -> Result<Arcs, AllocError> {
    let on = GoingOn { program, ends };
    let mut arcs = Arcs::none(alloc, u32::from(program.node_count()))?;
    for node in 0..program.node_count() {
        add_next(&mut arcs, node, on.next(node))?;
        add_entries(program, &mut arcs, node)?;
    }
    Ok(arcs)
}

// The arcs to each node from those on which its end bit depends.
fn arcs_behind(alloc: Global, program: &Program) -> Result<Arcs, AllocError> {
    let mut behind = Arcs::none(alloc, u32::from(program.node_count()))?;
    for node in 0..program.node_count() {
        add_behind(program, &mut behind, node)?;
    }
    Ok(behind)
}

// Puts the nodes that get their end bit behind an order, each behind those by which it does.
fn put_ending(
    program: &Program,
    behind: &Arcs,
    bits: &mut Vec<u32>,
    order: &mut Vec<NodeId>,
) -> Result<(), AllocError> {
    for node in 0..program.node_count() {
        give_bit(program, bits, order, node)?;
    }
    put_behind(program, behind, bits, order)
}

// Puts the nodes that get their end bit by those of an order behind it.
fn put_behind(
    program: &Program,
    behind: &Arcs,
    bits: &mut Vec<u32>,
    order: &mut Vec<NodeId>,
) -> Result<(), AllocError> {
    let mut at: usize = 0;
    for _ in 0..program.node_count() {
        match order.get(at) {
            Some(next) => {
                let node = *next;
                give_bits(program, behind, bits, order, node)?;
            }
            None => return Ok(()),
        }
        at = at.saturating_add(1);
    }
    Ok(())
}

// Gives a node its end bit, if it has none and its step says that it has one.
fn give_bit(
    program: &Program,
    bits: &mut Vec<u32>,
    order: &mut Vec<NodeId>,
    node: NodeId,
) -> Result<(), AllocError> {
    match program.step(node) {
        Some(step)
            if entry(bits.as_slice(), node) == 0 && step_bit(program, bits.as_slice(), step) => {
            put(bits.as_mut_slice(), u32::from(node), 1);
            order.push(node)?;
            Ok(())
        }
        _ => Ok(()),
    }
}

// Gives their end bits to nodes behind which a node stands.
fn give_bits(
    program: &Program,
    behind: &Arcs,
    bits: &mut Vec<u32>,
    order: &mut Vec<NodeId>,
    node: NodeId,
) -> Result<(), AllocError> {
    let mut number = behind.first(u32::from(node));
    for _ in 0..behind.count() {
        match behind.arc(number) {
            Some(arc) => {
                if arc.to < u32::from(program.node_count()) {
                    give_bit(program, bits, order, arc.to as NodeId)?;
                }
                number = arc.next;
            }
            None => return Ok(()),
        }
    }
    Ok(())
}

// Adds arcs to a node from those on which its end bit depends.
fn add_behind(program: &Program, arcs: &mut Arcs, node: NodeId) -> Result<(), AllocError> {
    match program.step(node) {
        Some(step) => {
            let next = successors(step);
            add_from(arcs, next.first, node)?;
            add_from(arcs, next.second, node)?;
            for child in children_of(step) {
                add_from(arcs, program.entry(*child), node)?;
            }
            add_from(arcs, join_of(step), node)
        }
        None => Ok(()),
    }
}

fn add_from(arcs: &mut Arcs, from: Option<NodeId>, node: NodeId) -> Result<(), AllocError> {
    match from {
        Some(other) => arcs.add(u32::from(other), u32::from(node)),
        None => Ok(()),
    }
}

fn join_of(step: &Step) -> Option<NodeId> {
    match step {
        Step::Fork { join, .. } => Some(*join),
        _ => None,
    }
}

// A node that lies on a cycle, and where the edge of weight 1 leads.
#[derive(Clone, Copy)]
struct Suspect {
    node: NodeId,
    next: u32,
}

// The first node of a program from which an arc leads within its component to a node from a number on.
fn find_joined(arcs: &Arcs, visited: &Visited, count: u16, from: u32) -> Option<Suspect> {
    for node in 0..count {
        match joined(arcs, visited, u32::from(node), from) {
            Some(next) => return Some(Suspect { node, next }),
            None => {}
        }
    }
    None
}

// A node from a number on to which an arc leads from a node within its component.
fn joined(arcs: &Arcs, visited: &Visited, node: u32, from: u32) -> Option<u32> {
    let mut number = arcs.first(node);
    for _ in 0..arcs.count() {
        match arcs.arc(number) {
            Some(arc) => {
                if from <= arc.to && visited.are_joined(node, arc.to) {
                    return Some(arc.to);
                }
                number = arc.next;
            }
            None => return None,
        }
    }
    None
}

// Those of these nodes that are of the program.
fn of_program(alloc: Global, nodes: &[u32], count: u16) -> Result<Vec<NodeId>, AllocError> {
    let mut kept = Vec::with_capacity(alloc, nodes.len())?;
    for node in nodes {
        if *node < u32::from(count) {
            kept.push(*node as NodeId)?;
        }
    }
    Ok(kept)
}

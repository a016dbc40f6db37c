//! Searches in breadth, for hints: from where a component comes back to a node.

use crate::arcs::{Arc, Arcs, Sort, number_at, put};
use crate::visit::Visited;
use std::alloc::{AllocError, Global};

/// An order in which what arcs lead to stands first: the nodes in the order in which they are left, and where the first
/// one of a component of several nodes is left, all of them once more, each behind one to which an arc leads. So a
/// number that grows against the arcs comes to all nodes of a component in one pass. Err: memory was refused.
pub(crate) fn settling_order(
    alloc: Global,
    arcs: &Arcs,
    visited: &Visited,
) -> Result<Vec<u32>, AllocError> {
    let turned = arcs.turned_within(alloc, visited.component.as_slice())?;
    let mut order = Vec::new(alloc);
    put_settling(alloc, &turned, visited, &mut order)?;
    Ok(order)
}

// Puts the nodes in such an order, by the arcs within components, each turned round.
fn put_settling(
    alloc: Global,
    turned: &Arcs,
    visited: &Visited,
    order: &mut Vec<u32>,
) -> Result<(), AllocError> {
    let mut spread = Spread::none(alloc, turned.nodes())?;
    spread.put_all(turned, visited, order)
}

/// The nodes of a shortest way from a node to another along arcs within their component, without the other: the last
/// one first. Err: memory was refused.
pub(crate) fn way_to(
    alloc: Global,
    arcs: &Arcs,
    visited: &Visited,
    from: u32,
    to: u32,
) -> Result<Vec<u32>, AllocError> {
    let before = ways_back(alloc, arcs, visited, to)?;
    let mut way = Vec::new(alloc);
    let mut at = from;
    for _ in 0..arcs.nodes() {
        if at == to {
            break;
        }
        way.push(at)?;
        at = number_at(before.as_slice(), at);
    }
    way.reverse();
    Ok(way)
}

// For each node that comes to a node within its component, to which node it goes first. Err: memory was refused.
fn ways_back(
    alloc: Global,
    arcs: &Arcs,
    visited: &Visited,
    to: u32,
) -> Result<Vec<u32>, AllocError> {
    let turned = arcs.turned_within(alloc, visited.component.as_slice())?;
    let mut spread = Spread::none(alloc, arcs.nodes())?;
    spread.begin(to)?;
    spread.run(&turned)?;
    Ok(spread.before)
}

// A node that may be come to, and from where.
#[derive(Clone, Copy)]
struct Arrival {
    node: u32,
    before: u32,
}

// A search in breadth, in which links cost nothing: which nodes it came to, from where, and these nodes in the order in
// which it did; and where it may come to next, by links and else.
#[derive(Drop)]
struct Spread {
    reached: Vec<u32>,
    before: Vec<u32>,
    found: Vec<u32>,
    by_link: Vec<Arrival>,
    queue: Vec<Arrival>,
    at: usize,
}

impl Spread {
    fn none(alloc: Global, nodes: u32) -> Result<Spread, AllocError> {
        Ok(Spread {
            reached: vec![in alloc; 0; nodes as usize]?,
            before: vec![in alloc; 0; nodes as usize]?,
            found: Vec::new(alloc),
            by_link: Vec::new(alloc),
            queue: Vec::new(alloc),
            at: 0,
        })
    }

    // Puts the nodes behind an order as they are left, and with the first one of a component of several nodes all of
    // them.
    fn put_all(
        &mut self,
        arcs: &Arcs,
        visited: &Visited,
        order: &mut Vec<u32>,
    ) -> Result<(), AllocError> {
        for node in visited.left.as_slice() {
            order.push(*node)?;
            if visited.is_first(*node) && arcs.first(*node) != 0 {
                self.put_component(arcs, *node, order)?;
            }
        }
        Ok(())
    }

    // Puts the nodes from which a node is come to behind an order.
    fn put_component(
        &mut self,
        arcs: &Arcs,
        node: u32,
        order: &mut Vec<u32>,
    ) -> Result<(), AllocError> {
        self.begin(node)?;
        self.run(arcs)?;
        self.take_all(order)
    }

    // Begins at a node.
    fn begin(&mut self, node: u32) -> Result<(), AllocError> {
        self.queue.push(Arrival { node, before: node })?;
        Ok(())
    }

    // Goes on until there is nowhere left to go.
    fn run(&mut self, arcs: &Arcs) -> Result<(), AllocError> {
        for _ in 0..u64::from(arcs.count()) + 1 {
            match self.next() {
                Some(arrival) => self.arrive(arcs, arrival)?,
                None => return Ok(()),
            }
        }
        Ok(())
    }

    // Where it comes to next.
    fn next(&mut self) -> Option<Arrival> {
        match self.by_link.pop() {
            Some(arrival) => Some(arrival),
            None => self.next_of_queue(),
        }
    }

    fn next_of_queue(&mut self) -> Option<Arrival> {
        let next = match self.queue.get(self.at) {
            Some(arrival) => *arrival,
            None => return None,
        };
        self.at = self.at.saturating_add(1);
        Some(next)
    }

    // Comes to a node, where it has not been yet.
    fn arrive(&mut self, arcs: &Arcs, arrival: Arrival) -> Result<(), AllocError> {
        if number_at(self.reached.as_slice(), arrival.node) != 0 {
            return Ok(());
        }
        put(self.reached.as_mut_slice(), arrival.node, 1);
        put(self.before.as_mut_slice(), arrival.node, arrival.before);
        self.found.push(arrival.node)?;
        self.look_on(arcs, arrival.node)
    }

    // Notes all nodes to which arcs lead from a node.
    fn look_on(&mut self, arcs: &Arcs, node: u32) -> Result<(), AllocError> {
        let mut number = arcs.first(node);
        for _ in 0..arcs.count() {
            match arcs.arc(number) {
                Some(arc) => {
                    self.note(arc, node)?;
                    number = arc.next;
                }
                None => return Ok(()),
            }
        }
        Ok(())
    }

    // Notes that it may come along an arc from a node.
    fn note(&mut self, arc: Arc, node: u32) -> Result<(), AllocError> {
        let arrival = Arrival {
            node: arc.to,
            before: node,
        };
        match arc.sort {
            Sort::Link => self.by_link.push(arrival)?,
            Sort::Edge | Sort::Fall => self.queue.push(arrival)?,
        }
        Ok(())
    }

    // Puts the nodes that it came to behind an order, and leaves them.
    fn take_all(&mut self, order: &mut Vec<u32>) -> Result<(), AllocError> {
        order.extend_from_slice(self.found.as_slice())?;
        self.found.clear();
        self.queue.clear();
        self.at = 0;
        Ok(())
    }
}

//! Graphs for hints: nodes by number, and for each a list of the nodes to which arcs lead.

use std::alloc::{AllocError, Global};

/// What an arc is: an edge of a program, or one between a node and what stands for it; a fall, which each protocol
/// edge crosses once, between two that stand for nodes; or a link between two of which one stands for the other too.
#[derive(Clone, Copy)]
pub(crate) enum Sort {
    Edge,
    Fall,
    Link,
}

/// An arc to a node, and the number of the next arc from where it begins; 0 where it is the last.
#[derive(Clone, Copy)]
pub(crate) struct Arc {
    pub(crate) to: u32,
    pub(crate) sort: Sort,
    pub(crate) next: u32,
}

/// A graph. The arcs of a node are those from its first one on; arcs are numbered from 1.
#[derive(Drop)]
pub(crate) struct Arcs {
    firsts: Vec<u32>,
    arcs: Vec<Arc>,
    nodes: u32,
    count: u32,
}

impl Arcs {
    /// So many nodes and no arc. Err: memory was refused.
    pub(crate) fn none(alloc: Global, nodes: u32) -> Result<Arcs, AllocError> {
        Ok(Arcs {
            firsts: vec![in alloc; 0; nodes as usize]?,
            arcs: Vec::new(alloc),
            nodes,
            count: 0,
        })
    }

    /// One more node; its number.
    pub(crate) fn add_node(&mut self) -> Result<u32, AllocError> {
        let node = self.nodes;
        self.firsts.push(0)?;
        self.nodes = node.saturating_add(1);
        Ok(node)
    }

    /// One more edge. It becomes the first arc of its node.
    pub(crate) fn add(&mut self, from: u32, to: u32) -> Result<(), AllocError> {
        self.add_sort(from, to, Sort::Edge)
    }

    /// One more arc of a sort.
    pub(crate) fn add_sort(&mut self, from: u32, to: u32, sort: Sort) -> Result<(), AllocError> {
        let next = self.first(from);
        self.arcs.push(Arc { to, sort, next })?;
        self.count = self.count.saturating_add(1);
        put(self.firsts.as_mut_slice(), from, self.count);
        Ok(())
    }

    /// The number of the first arc of a node; 0 where it has none.
    pub(crate) fn first(&self, node: u32) -> u32 {
        number_at(self.firsts.as_slice(), node)
    }

    /// The arc of a number. None: there is none.
    pub(crate) fn arc(&self, number: u32) -> Option<Arc> {
        if number == 0 {
            return None;
        }
        match self.arcs.get((number - 1) as usize) {
            Some(arc) => Some(*arc),
            None => None,
        }
    }

    /// How many nodes there are.
    pub(crate) fn nodes(&self) -> u32 {
        self.nodes
    }

    /// How many arcs there are.
    pub(crate) fn count(&self) -> u32 {
        self.count
    }

    /// The arcs that do not leave their component, each turned round. Err: memory was refused.
    pub(crate) fn turned_within(
        &self,
        alloc: Global,
        component: &[u32],
    ) -> Result<Arcs, AllocError> {
        let mut turned = Arcs::none(alloc, self.nodes)?;
        for node in 0..self.nodes {
            self.turn(&mut turned, component, node)?;
        }
        Ok(turned)
    }

    // Turns the arcs of a node that do not leave its component.
    fn turn(&self, turned: &mut Arcs, component: &[u32], node: u32) -> Result<(), AllocError> {
        let mut number = self.first(node);
        for _ in 0..self.count {
            match self.arc(number) {
                Some(arc) => {
                    if number_at(component, arc.to) == number_at(component, node) {
                        turned.add_sort(arc.to, node, arc.sort)?;
                    }
                    number = arc.next;
                }
                None => return Ok(()),
            }
        }
        Ok(())
    }
}

/// What stands in a list for a node; 0 past its end.
pub(crate) fn number_at(list: &[u32], node: u32) -> u32 {
    match list.get(node as usize) {
        Some(number) => *number,
        None => 0,
    }
}

/// Writes a number for a node, where there is a place for it.
pub(crate) fn put(list: &mut [u32], node: u32, number: u32) {
    let at = node as usize;
    if at < list.len() {
        list[at] = number;
    }
}

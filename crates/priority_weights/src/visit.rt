//! A visit of a graph in depth, for hints: the order in which nodes are left, and their strongly connected components.
//! It follows each arc once.

use crate::arcs::{Arcs, number_at, put};
use std::alloc::{AllocError, Global};

/// What a visit found. The first two lists have a number for each node: when it was found, and when the first node of
/// its component was. Of the nodes in the order in which they are left each stands behind those to which it leads,
/// but for those of its own component.
#[derive(Drop)]
pub(crate) struct Visited {
    pub(crate) found: Vec<u32>,
    pub(crate) component: Vec<u32>,
    pub(crate) left: Vec<u32>,
}

impl Visited {
    /// Of a graph. Err: memory was refused.
    pub(crate) fn of(alloc: Global, arcs: &Arcs) -> Result<Visited, AllocError> {
        let mut visit = Visit::none(alloc, arcs)?;
        visit.go(arcs)?;
        Ok(Visited {
            found: visit.found,
            component: visit.component,
            left: visit.left,
        })
    }

    /// Whether two nodes are of one component.
    pub(crate) fn are_joined(&self, node: u32, other: u32) -> bool {
        number_at(self.component.as_slice(), node) == number_at(self.component.as_slice(), other)
    }

    /// Whether a node was found first of its component.
    pub(crate) fn is_first(&self, node: u32) -> bool {
        number_at(self.component.as_slice(), node) == number_at(self.found.as_slice(), node)
    }
}

// A visit on its way. Each list but the last three has a number for each node, 0 where there is none yet: when it was
// found, the least such number that is known to be in its component, its component, and the arc to be followed next.
#[derive(Drop)]
struct Visit {
    found: Vec<u32>,
    low: Vec<u32>,
    component: Vec<u32>,
    cursor: Vec<u32>,
    path: Vec<u32>,
    open: Vec<u32>,
    left: Vec<u32>,
    time: u32,
}

impl Visit {
    fn none(alloc: Global, arcs: &Arcs) -> Result<Visit, AllocError> {
        let nodes = arcs.nodes() as usize;
        Ok(Visit {
            found: vec![in alloc; 0; nodes]?,
            low: vec![in alloc; 0; nodes]?,
            component: vec![in alloc; 0; nodes]?,
            cursor: vec![in alloc; 0; nodes]?,
            path: Vec::new(alloc),
            open: Vec::new(alloc),
            left: Vec::new(alloc),
            time: 0,
        })
    }

    // Visits all nodes.
    fn go(&mut self, arcs: &Arcs) -> Result<(), AllocError> {
        for node in 0..arcs.nodes() {
            if number_at(self.found.as_slice(), node) == 0 {
                self.enter(arcs, node)?;
                self.run(arcs)?;
            }
        }
        Ok(())
    }

    // Visits a node for the first time.
    fn enter(&mut self, arcs: &Arcs, node: u32) -> Result<(), AllocError> {
        self.time = self.time.saturating_add(1);
        put(self.found.as_mut_slice(), node, self.time);
        put(self.low.as_mut_slice(), node, self.time);
        put(self.cursor.as_mut_slice(), node, arcs.first(node));
        self.path.push(node)?;
        self.open.push(node)?;
        Ok(())
    }

    // Goes on until the path is left: each round follows an arc or leaves a node.
    fn run(&mut self, arcs: &Arcs) -> Result<(), AllocError> {
        for _ in 0..u64::from(arcs.nodes()) + u64::from(arcs.count()) {
            match self.path.last() {
                Some(last) => {
                    let node = *last;
                    self.follow(arcs, node)?;
                }
                None => return Ok(()),
            }
        }
        Ok(())
    }

    // Follows the next arc of a node, or leaves it.
    fn follow(&mut self, arcs: &Arcs, node: u32) -> Result<(), AllocError> {
        match arcs.arc(number_at(self.cursor.as_slice(), node)) {
            Some(arc) => {
                put(self.cursor.as_mut_slice(), node, arc.next);
                self.meet(arcs, node, arc.to)
            }
            None => self.leave(arcs, node),
        }
    }

    // Comes to a node along an arc.
    fn meet(&mut self, arcs: &Arcs, node: u32, next: u32) -> Result<(), AllocError> {
        let found = number_at(self.found.as_slice(), next);
        if found == 0 {
            return self.enter(arcs, next);
        }
        if number_at(self.component.as_slice(), next) == 0 {
            self.lower(node, found);
        }
        Ok(())
    }

    fn lower(&mut self, node: u32, low: u32) {
        let least = number_at(self.low.as_slice(), node).min(low);
        put(self.low.as_mut_slice(), node, least);
    }

    // Leaves a node all of whose arcs were followed, and closes its component, where it was found first of it.
    fn leave(&mut self, arcs: &Arcs, node: u32) -> Result<(), AllocError> {
        let _last = self.path.pop();
        self.left.push(node)?;
        let low = number_at(self.low.as_slice(), node);
        if low == number_at(self.found.as_slice(), node) {
            self.close(arcs, node, low);
            return Ok(());
        }
        match self.path.last() {
            Some(before) => {
                let before = *before;
                self.lower(before, low);
            }
            None => {}
        }
        Ok(())
    }

    // Closes the component of which a node was found first.
    fn close(&mut self, arcs: &Arcs, first: u32, number: u32) {
        for _ in 0..arcs.nodes() {
            let node = match self.open.pop() {
                Some(last) => last,
                None => return,
            };
            put(self.component.as_mut_slice(), node, number);
            if node == first {
                return;
            }
        }
    }
}

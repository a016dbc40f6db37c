//! Protocol edges of one variable as ways, for hints: what is written and what is read below the children of forks has
//! nodes that stand for it, and a way leads from each that is written to what is read below another child. So there are
//! as many arcs as there are nodes that use the variable and threads above them, and no pair of them is asked for.

use crate::arcs::{Arcs, Sort, number_at, put};
use sc_graph::{Links, NodeId, Program, ThreadId};
use std::alloc::{AllocError, Global};

/// On which side of protocol edges a node is.
#[derive(Clone, Copy)]
enum Side {
    First,
    Second,
}

/// For each thread the node that stands for the first nodes below it, and the first of three for the second ones: those
/// below it, those below the children of its fork that were met before, and those below the children that are met
/// later. For each fork the first of these three of the child that was met last. What is less than the floor was noted
/// before the nodes that are gone through now.
#[derive(Drop)]
pub(crate) struct Branches {
    firsts: Vec<u32>,
    seconds: Vec<u32>,
    last: Vec<u32>,
    floor: u32,
}

impl Branches {
    /// Nothing is noted of any thread. Err: memory was refused.
    pub(crate) fn none(alloc: Global, program: &Program) -> Result<Branches, AllocError> {
        Ok(Branches {
            firsts: vec![in alloc; 0; program.thread_count() as usize]?,
            seconds: vec![in alloc; 0; program.thread_count() as usize]?,
            last: vec![in alloc; 0; program.node_count() as usize]?,
            floor: 0,
        })
    }

    /// Adds ways from each first node to each concurrent second one. Err: memory was refused.
    pub(crate) fn add(
        &mut self,
        program: &Program,
        links: &Links,
        arcs: &mut Arcs,
        firsts: &[NodeId],
        seconds: &[&[NodeId]],
    ) -> Result<(), AllocError> {
        if firsts.is_empty() {
            return Ok(());
        }
        self.floor = arcs.nodes();
        for nodes in seconds {
            self.add_all(program, links, arcs, Side::Second, nodes)?;
        }
        self.add_all(program, links, arcs, Side::First, firsts)
    }

    // Adds the nodes of one side.
    fn add_all(
        &mut self,
        program: &Program,
        links: &Links,
        arcs: &mut Arcs,
        side: Side,
        nodes: &[NodeId],
    ) -> Result<(), AllocError> {
        for node in nodes {
            self.add_node(program, links, arcs, side, *node)?;
        }
        Ok(())
    }

    // Adds arcs between a node and what stands for it, from its thread up to where this is noted.
    fn add_node(
        &mut self,
        program: &Program,
        links: &Links,
        arcs: &mut Arcs,
        side: Side,
        node: NodeId,
    ) -> Result<(), AllocError> {
        let mut below = u32::from(node);
        let mut sort = Sort::Edge;
        let mut thread = program.owner(node);
        for _ in 0..program.thread_count() {
            let (child, fork) = match forked(links, thread) {
                Some(both) => both,
                None => return Ok(()),
            };
            let noted = self.noted(side, child);
            if noted == 0 {
                self.note(arcs, side, child, fork)?;
            }
            let here = self.noted(side, child);
            add_between(arcs, side, below, here, sort)?;
            if noted != 0 {
                return Ok(());
            }
            below = here;
            sort = Sort::Link;
            thread = program.parent(child);
        }
        Ok(())
    }

    // The node that stands for those of a side below a child; 0 where there is none yet.
    fn noted(&self, side: Side, child: ThreadId) -> u32 {
        let stands = match side {
            Side::First => number_at(self.firsts.as_slice(), u32::from(child)),
            Side::Second => number_at(self.seconds.as_slice(), u32::from(child)),
        };
        if stands < self.floor { 0 } else { stands }
    }

    // Makes what stands for the nodes of a side below a child of a fork.
    fn note(
        &mut self,
        arcs: &mut Arcs,
        side: Side,
        child: ThreadId,
        fork: NodeId,
    ) -> Result<(), AllocError> {
        match side {
            Side::First => self.note_first(arcs, child, fork),
            Side::Second => self.note_second(arcs, child, fork),
        }
    }

    // Makes what stands for the first nodes below a child, from where falls lead to the second ones below other
    // children.
    fn note_first(
        &mut self,
        arcs: &mut Arcs,
        child: ThreadId,
        fork: NodeId,
    ) -> Result<(), AllocError> {
        let stands = arcs.add_node()?;
        put(self.firsts.as_mut_slice(), u32::from(child), stands);
        let here = self.noted(Side::Second, child);
        if here != 0 {
            return add_two(
                arcs,
                stands,
                here.saturating_add(1),
                here.saturating_add(2),
                Sort::Fall,
            );
        }
        let last = self.last_of(fork);
        if last == 0 {
            return Ok(());
        }
        add_two(arcs, stands, last, last.saturating_add(1), Sort::Fall)
    }

    // Makes what stands for the second nodes below a child and beside it, behind those of the child that was met last.
    fn note_second(
        &mut self,
        arcs: &mut Arcs,
        child: ThreadId,
        fork: NodeId,
    ) -> Result<(), AllocError> {
        let stands = add_three(arcs)?;
        put(self.seconds.as_mut_slice(), u32::from(child), stands);
        let last = self.last_of(fork);
        put(self.last.as_mut_slice(), u32::from(fork), stands);
        put_behind(arcs, last, stands)
    }

    // What stands for the second nodes below the child of a fork that was met last; 0 where none was met.
    fn last_of(&self, fork: NodeId) -> u32 {
        let stands = number_at(self.last.as_slice(), u32::from(fork));
        if stands < self.floor { 0 } else { stands }
    }
}

// The thread and its fork, where it has one.
fn forked(links: &Links, thread: Option<ThreadId>) -> Option<(ThreadId, NodeId)> {
    match thread {
        Some(child) => match links.fork_of(child) {
            Some(fork) => Some((child, fork)),
            None => None,
        },
        None => None,
    }
}

// Adds the arc between what stands below and what stands for it above: from first nodes upwards, to second ones
// downwards.
fn add_between(
    arcs: &mut Arcs,
    side: Side,
    below: u32,
    above: u32,
    sort: Sort,
) -> Result<(), AllocError> {
    match side {
        Side::First => arcs.add_sort(below, above, sort),
        Side::Second => arcs.add_sort(above, below, sort),
    }
}

// Adds three nodes; the number of the first one.
fn add_three(arcs: &mut Arcs) -> Result<u32, AllocError> {
    let first = arcs.add_node()?;
    let _second = arcs.add_node()?;
    let _third = arcs.add_node()?;
    Ok(first)
}

// Adds arcs of a sort from a node to two others.
fn add_two(
    arcs: &mut Arcs,
    from: u32,
    first: u32,
    second: u32,
    sort: Sort,
) -> Result<(), AllocError> {
    arcs.add_sort(from, first, sort)?;
    arcs.add_sort(from, second, sort)
}

// Links what stands for second nodes with what stands for those that were met before, where some were.
fn put_behind(arcs: &mut Arcs, last: u32, stands: u32) -> Result<(), AllocError> {
    if last == 0 {
        return Ok(());
    }
    let (before, behind) = (stands.saturating_add(1), stands.saturating_add(2));
    add_two(arcs, before, last, last.saturating_add(1), Sort::Link)?;
    add_two(arcs, last.saturating_add(2), stands, behind, Sort::Link)
}

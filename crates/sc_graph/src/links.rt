//! The only fork of each thread and of each join, and the only pause of each depth.

ghost use Rattle.std.specs.Prelude.{◌≡◌, ℕ, IfOk, OnOk, length};
ghost use Rattle.sc_graph.specs.Links.{Tells, found_at, only_at};
ghost use Rattle.sc_graph.specs.Inside.Linking.{noted, noted_at, noted_all, after_step, IsBlank, only_link};
ghost use Rattle.sc_graph.specs.declared.links.Found.TheVariants.{Nobody};

use crate::program::{NodeId, Program, Step, ThreadId};
use sqlite_items::Items;
use std::alloc::{AllocError, Global};

/// What a node alone can be: the fork of a thread, the fork of a join, the pause of a depth.
#[derive(Clone, Copy)]
pub(crate) enum Link {
    Child(ThreadId),
    Join(NodeId),
    Depth(NodeId),
}

/// What a pass over the nodes has found for one number: no node, one alone, or several.
#[derive(Clone, Copy, PartialEq, Eq)]
pub enum Found {
    Nobody,
    Alone(NodeId),
    Several,
}

/// The links of a program, found in one pass over its nodes: for each thread the only fork of which
/// it is a child, for each join its only fork, for each depth its only pause.
#[derive(Drop)]
pub struct Links {
    forks: Items<Found>,
    joins: Items<Found>,
    pauses: Items<Found>,
}

impl Links {
    /// The links of a program. Err: memory was refused.
    pub fn of(alloc: Global, program: &Program) -> Result<Links, AllocError>
        ensures { IfOk result (Tells program.now) }
    {
        let mut links = Links::none(alloc, program.thread_count(), program.node_count())?;
        for node in 0..program.node_count() {
            match program.step(node) {
                Some(step) => links.note(node, step),
                None => {}
            }
        }
        Ok(links)
    }

    /// The only fork of which a thread is a child. None: there is no such fork, or more than one.
    pub fn fork_of(&self, child: ThreadId) -> Option<NodeId>
        ensures { result ≡ only_at self.now.forks child }
    {
        only_at(self.forks.as_slice(), child)
    }

    /// The only fork of which a node is the join. None: there is no such fork, or more than one.
    pub fn fork_to(&self, join: NodeId) -> Option<NodeId>
        ensures { result ≡ only_at self.now.joins join }
    {
        only_at(self.joins.as_slice(), join)
    }

    /// The only pause of which a node is the depth. None: there is no such pause, or more than one.
    pub fn pause_to(&self, depth: NodeId) -> Option<NodeId>
        ensures { result ≡ only_at self.now.pauses depth }
    {
        only_at(self.pauses.as_slice(), depth)
    }

    // The only node that is such a link.
    pub(crate) fn only(&self, link: Link) -> Option<NodeId>
        ensures { result ≡ only_link self.now link }
    {
        match link {
            Link::Child(child) => self.fork_of(child),
            Link::Join(join) => self.fork_to(join),
            Link::Depth(depth) => self.pause_to(depth),
        }
    }

    // No links, for so many threads and nodes.
    fn none(alloc: Global, threads: u16, nodes: u16) -> Result<Links, AllocError>
        ensures { IfOk result (IsBlank threads nodes) }
    {
        let forks = nobody(alloc, threads)?;
        let joins = nobody(alloc, nodes)?;
        let pauses = nobody(alloc, nodes)?;
        Ok(Links {
            forks,
            joins,
            pauses,
        })
    }

    // Notes what a node with this step links to.
    fn note(&mut self, node: NodeId, step: &Step)
        ensures { self.new ≡ after_step step.now node self.old }
    {
        match step {
            Step::Fork { children, join } => {
                note_all(&mut self.forks, children.as_slice(), node);
                note_at(&mut self.joins, *join, node);
            }
            Step::Surf { depth } => note_at(&mut self.pauses, *depth, node),
            _ => {}
        }
    }
}

fn nobody(alloc: Global, count: u16) -> Result<Items<Found>, AllocError>
    ensures count { IfOk result (λ slots. length slots ≡ count) }
    ensures blank { IfOk result (λ slots. (k : ℕ) → found_at slots k ≡ Nobody) }
{
    let mut slots = Items::from_vec(Vec::with_capacity(alloc, count as usize)?);
    for _ in 0..count {
        slots.push(Found::Nobody)?;
    }
    Ok(slots)
}

fn note_all(slots: &mut Items<Found>, targets: &[u16], node: NodeId)
    ensures { slots.new ≡ noted_all targets.now node slots.old }
{
    for target in targets {
        note_at(slots, *target, node);
    }
}

// Notes a node for a number, where there is a place for it.
fn note_at(slots: &mut Items<Found>, target: u16, node: NodeId)
    ensures { slots.new ≡ noted_at slots.old target node }
{
    let at = target as usize;
    if at < slots.len() {
        let found = found_at(slots.as_slice(), target);
        slots.set(at, noted(found, node));
    }
}

// What is found once a node is, too.
fn noted(found: Found, node: NodeId) -> Found
    ensures { result ≡ noted found node }
{
    match found {
        Found::Nobody => Found::Alone(node),
        Found::Alone(other) => {
            if other == node {
                Found::Alone(other)
            } else {
                Found::Several
            }
        }
        Found::Several => Found::Several,
    }
}

fn found_at(slots: &[Found], at: u16) -> Found
    ensures { result ≡ found_at slots.now at }
{
    match slots.get(at as usize) {
        Some(found) => *found,
        None => Found::Nobody,
    }
}

fn only_at(slots: &[Found], at: u16) -> Option<NodeId>
    ensures { result ≡ only_at slots.now at }
{
    match found_at(slots, at) {
        Found::Alone(node) => Some(node),
        Found::Nobody | Found::Several => None,
    }
}

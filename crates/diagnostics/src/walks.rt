//! The nodes of a fault, in its order, and why each has to come before the next.

use crate::edges::{name_of, reason};
use crate::nodes::{Shown, put_node, put_note_margin, written_name};
use crate::page::Page;
use sc_graph::{NodeId, Place, VariableId};
use sqlite_items::at;

// Adds the note of why a node has to come before another.
fn put_before(page: &mut Page, shown: &Shown<'_>, from: NodeId, to: NodeId) {
    let Some(words) = reason(shown.program, shown.links, from, to) else {
        return;
    };
    put_note_margin(page, shown, from);
    page.put("before node ");
    page.put_number(to as usize);
    page.put(": ");
    match written_name(shown.program, from) {
        Some(name) => page.put_filled(words, name.as_str()),
        None => page.put(words),
    }
    page.put("\n");
}

// The node of a walk that comes behind the one of this number; the first one behind the last.
fn next_of(walk: &[NodeId], number: usize) -> Option<NodeId> {
    match at(walk, number.saturating_add(1)) {
        Some(next) => Some(*next),
        None => match at(walk, 0) {
            Some(first) => Some(*first),
            None => None,
        },
    }
}

// Adds a node of a walk, and why it has to come before the next one.
fn put_step(page: &mut Page, shown: &Shown<'_>, walk: &[NodeId], number: usize, node: NodeId) {
    put_node(page, shown, node, number);
    if let Some(next) = next_of(walk, number) {
        put_before(page, shown, node, next);
    }
}

/// Adds the nodes of a closed walk, each of which has to come before the next, and the last before the first.
pub(crate) fn put_walk(page: &mut Page, shown: &Shown<'_>, walk: &[NodeId]) {
    for (number, node) in walk.iter().enumerate() {
        put_step(page, shown, walk, number, *node);
    }
}

/// Adds two nodes that are in conflict.
pub(crate) fn put_conflict(page: &mut Page, shown: &Shown<'_>, first: NodeId, second: NodeId) {
    put_node(page, shown, first, 0);
    put_node(page, shown, second, 0);
    put_note_margin(page, shown, second);
    if let Some(name) = written_name(shown.program, first) {
        page.put_filled("both write `@`, and ", name.as_str());
    }
    page.put("neither comes before the other\n");
}

// Adds a node, and why it has to come before another.
fn put_pair(page: &mut Page, shown: &Shown<'_>, first: NodeId, second: NodeId) {
    put_node(page, shown, first, 0);
    put_before(page, shown, first, second);
    put_node(page, shown, second, 0);
}

// Adds the name of a variable.
fn put_variable(page: &mut Page, shown: &Shown<'_>, variable: VariableId) {
    if let Some(name) = name_of(shown.program, variable) {
        page.put_filled("variable `@`\n", name.as_str());
    }
}

/// The first node of a place: of a thread that where it begins.
pub(crate) fn first_node(shown: &Shown<'_>, place: Place) -> Option<NodeId> {
    match place {
        Place::Image | Place::Variable(_) => None,
        Place::Thread(thread) => shown.program.entry(thread),
        Place::Node(node) | Place::Pair(node, _) => Some(node),
    }
}

/// Adds the nodes of a place at which a rule is broken.
pub(crate) fn put_place(page: &mut Page, shown: &Shown<'_>, place: Place) {
    match place {
        Place::Pair(first, second) => put_pair(page, shown, first, second),
        Place::Variable(variable) => put_variable(page, shown, variable),
        _ => {
            if let Some(node) = first_node(shown, place) {
                put_node(page, shown, node, 0);
            }
        }
    }
}

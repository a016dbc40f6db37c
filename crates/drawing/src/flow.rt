//! The arrows of flow and of ticks.

use crate::text::Text;
use sc_graph::{Links, NodeId, Program, Step, ThreadId};

// Puts an arrow, with what is said of it.
fn put_arrow(text: &mut Text, from: NodeId, to: NodeId, said: &str) {
    text.put("\"");
    text.put_number(from as u32);
    text.put("\" -> \"");
    text.put_number(to as u32);
    text.put("\"");
    text.put(said);
    text.put(";\n");
}

// Puts the arrows from a fork to the entries of its children.
fn put_entries(text: &mut Text, program: &Program, from: NodeId, children: &[ThreadId]) {
    for child in children {
        if let Some(entry) = program.entry(*child) {
            put_arrow(text, from, entry, "");
        }
    }
}

// The join at which the end of a thread is waited for.
fn join_of(program: &Program, links: &Links, thread: Option<ThreadId>) -> Option<NodeId> {
    match program.step(links.fork_of(thread?)?) {
        Some(Step::Fork { children: _, join }) => Some(*join),
        _ => None,
    }
}

// Puts the arrow from the end of a thread to the join at which it is waited for.
fn put_end(text: &mut Text, program: &Program, links: &Links, from: NodeId) {
    if let Some(join) = join_of(program, links, program.owner(from)) {
        put_arrow(text, from, join, "");
    }
}

/// Puts the arrows of flow from a node, or its arrow into the next tick.
pub(crate) fn put_flow(
    text: &mut Text,
    program: &Program,
    links: &Links,
    from: NodeId,
    step: &Step,
) {
    match step {
        Step::Assign { next, .. } => put_arrow(text, from, *next, ""),
        Step::Update { next, .. } => put_arrow(text, from, *next, ""),
        Step::Cond { then, other, .. } => {
            put_arrow(text, from, *then, " [label=\"true\"]");
            put_arrow(text, from, *other, " [label=\"false\"]");
        }
        Step::Fork { children, .. } => put_entries(text, program, from, children.as_slice()),
        Step::Join { next } => put_arrow(text, from, *next, ""),
        Step::Surf { depth } => put_arrow(
            text,
            from,
            *depth,
            " [style=\"dashed\", color=\"gray\", label=\"tick\"]",
        ),
        Step::Depth { next } => put_arrow(text, from, *next, ""),
        Step::Exit => put_end(text, program, links, from),
    }
}

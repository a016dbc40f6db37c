//! The arrows of protocol edges, and of a write conflict.

ghost use Rattle.sc_graph.specs.Links.{Tells};

use crate::text::Text;
use conflict_edges::{ConflictFault, Edges, conflicts};
use sc_graph::{Links, NodeId, Program};
use std::alloc::Global;

// How many arrows of protocol edges a drawing has: of more nobody sees anything.
const MOST_ARROWS: u32 = 4096;

// How many arrows were drawn, and how many were left out.
#[derive(Clone, Copy)]
struct Arrows {
    drawn: u32,
    left_out: u32,
}

// Puts a line between two nodes, which is drawn so.
fn put_line(text: &mut Text, from: NodeId, to: NodeId, drawn: &str) {
    text.put("\"");
    text.put_number(from as u32);
    text.put("\" -> \"");
    text.put_number(to as u32);
    text.put(drawn);
}

// Puts an arrow, if there are not too many.
fn put_arrow(text: &mut Text, arrows: &mut Arrows, from: NodeId, to: NodeId) {
    if arrows.drawn >= MOST_ARROWS {
        arrows.left_out = arrows.left_out.saturating_add(1);
        return;
    }
    arrows.drawn = arrows.drawn.saturating_add(1);
    let drawn = "\" [style=\"dotted\", color=\"blue\", constraint=\"false\"];\n";
    put_line(text, from, to, drawn);
}

// Puts the arrows from a node to those of these nodes that are concurrent with it.
fn put_arrows(
    text: &mut Text,
    edges: &Edges<'_>,
    arrows: &mut Arrows,
    from: NodeId,
    others: &[NodeId],
) {
    for other in others {
        if edges.are_concurrent(from, *other) {
            put_arrow(text, arrows, from, *other);
        }
    }
}

// Says how many arrows were left out, in a note.
fn put_left_out(text: &mut Text, left_out: u32) {
    if left_out > 0 {
        text.put("\"left out\" [shape=\"note\", label=\"");
        text.put_number(left_out);
        text.put(" more protocol edges are left out\"];\n");
    }
}

// Puts the arrows of protocol edges, and how many were left out.
fn put_edges(text: &mut Text, program: &Program, edges: &Edges<'_>) {
    let mut arrows = Arrows {
        drawn: 0,
        left_out: 0,
    };
    for from in 0..program.node_count() {
        let followers = edges.followers(from);
        put_arrows(text, edges, &mut arrows, from, followers.updates);
        put_arrows(text, edges, &mut arrows, from, followers.reads);
    }
    put_left_out(text, arrows.left_out);
}

/// Puts the arrows of protocol edges, or, where two nodes conflict, the line between them.
pub(crate) fn put_protocol(alloc: Global, text: &mut Text, program: &Program, links: &Links)
    requires { Tells program.now links.now }
{
    if !program.formed_with(links) {
        return;
    }
    match conflicts(alloc, program, links) {
        Ok(edges) => put_edges(text, program, &edges),
        Err(ConflictFault::Memory) => text.refuse(),
        Err(ConflictFault::WriteWrite(first, second)) => {
            let drawn =
                "\" [dir=\"none\", color=\"red\", label=\"conflict\", constraint=\"false\"];\n";
            put_line(text, first, second, drawn);
        }
    }
}

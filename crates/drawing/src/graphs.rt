//! The drawing of a program of nodes: a cluster for each thread.

ghost use Rattle.std.specs.Prelude.{IfOk, string_bytes};
ghost use Rattle.sc_graph.specs.Links.{Tells};
ghost use Rattle.drawing.specs.Drawing.{IsDrawing};

use crate::flow::put_flow;
use crate::protocol::put_protocol;
use crate::text::{Text, graph_text};
use image_listing::step_text;
use sc_graph::{Links, NodeId, Program, Step, ThreadId};
use sc_values::Name;
use std::alloc::{AllocError, Global};

// Puts the node of this number.
fn put_node(alloc: Global, text: &mut Text, program: &Program, number: NodeId, step: &Step) {
    text.put("\"");
    text.put_number(number as u32);
    text.put("\" [label=\"");
    text.put_number(number as u32);
    text.put(": ");
    text.put_made(step_text(alloc, program.variables(), step));
    text.put("\"];\n");
}

// Puts the nodes of a thread.
fn put_nodes(alloc: Global, text: &mut Text, program: &Program, thread: ThreadId) {
    for number in 0..program.node_count() {
        match program.step(number) {
            Some(step) if program.owns(thread, number) => {
                put_node(alloc, text, program, number, step);
            }
            _ => {}
        }
    }
}

// Puts the cluster of each thread.
fn put_threads(alloc: Global, text: &mut Text, program: &Program) {
    for thread in 0..program.thread_count() {
        text.put("subgraph \"cluster_");
        text.put_number(thread as u32);
        text.put("\" {\nlabel=\"thread ");
        text.put_number(thread as u32);
        text.put("\";\n");
        put_nodes(alloc, text, program, thread);
        text.put("}\n");
    }
}

// Puts the arrows of flow and of ticks.
fn put_all_flow(text: &mut Text, program: &Program, links: &Links) {
    for number in 0..program.node_count() {
        if let Some(step) = program.step(number) {
            put_flow(text, program, links, number, step);
        }
    }
}

// Puts what stands in the drawing of a program of this name: its title, its clusters and all its arrows.
fn put_body(alloc: Global, text: &mut Text, name: &Name, program: &Program, links: &Links)
    requires { Tells program.now links.now }
{
    text.put("label=\"");
    text.put(name.as_str());
    text.put("\";\nnode [shape=\"box\"];\n");
    put_threads(alloc, text, program);
    put_all_flow(text, program, links);
    put_protocol(alloc, text, program, links);
}

/// A program as Graphviz text: threads are clusters. Flow within a tick is drawn in solid arrows, the way from a pause
/// into the next tick in dashed gray ones, and what must come before what in dotted blue ones; where two nodes
/// conflict, a red line stands between them in place of these. Err: memory was refused.
pub fn graph_drawing(alloc: Global, name: &Name, program: &Program) -> Result<String, AllocError>
    ensures { IfOk result (λ text. IsDrawing name.now (string_bytes text)) }
{
    let links = Links::of(alloc, program)?;
    let mut text = Text::new(alloc);
    put_body(alloc, &mut text, name, program, &links);
    drop(links);
    graph_text(alloc, name, text)
}

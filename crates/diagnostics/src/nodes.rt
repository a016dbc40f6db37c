//! A node of a program as it is shown: its place in the source text, what it does, and the line of the text.

use crate::edges::{name_of, written};
use crate::lines::{put_margin, put_marked_line};
use crate::page::Page;
use compiler::LinkedProgram;
use node_sources::{AuthorNode, LineColumn, Origin, Positions, SourcePart, name_in};
use sc_graph::{Links, NodeId, Program, Step};
use sc_values::Name;
use sqlite_items::Items;
use std::alloc::{AllocError, Global};

/// How many nodes are shown with their lines.
pub(crate) const SHOWN: usize = 32;

/// A program with its links, its text, and the places of its nodes.
#[derive(Drop)]
pub(crate) struct Shown<'a> {
    pub(crate) text: &'a str,
    pub(crate) positions: Positions<'a>,
    pub(crate) program: &'a Program,
    pub(crate) links: &'a Links,
    nodes: Items<Option<AuthorNode>>,
}

// The nodes of a program that a text itself makes: none of them is made.
fn own_nodes(alloc: Global, origins: &[Origin]) -> Result<Items<Option<AuthorNode>>, AllocError> {
    let mut nodes = Items::new(alloc);
    for origin in origins {
        nodes.push(Some(AuthorNode::own(*origin)))?;
    }
    Ok(nodes)
}

impl<'a> Shown<'a> {
    /// The graph of a text with the origins of its nodes. Err: memory was refused.
    pub(crate) fn of(
        alloc: Global,
        text: &'a str,
        graph: &'a LinkedProgram,
        origins: &[Origin],
    ) -> Result<Shown<'a>, AllocError> {
        let nodes = own_nodes(alloc, origins)?;
        Shown::in_author(alloc, text, graph, nodes)
    }

    /// The graph of a reduced chart, and where its nodes come from in the text of the extended one. Err: memory was
    /// refused.
    pub(crate) fn in_author(
        alloc: Global,
        text: &'a str,
        graph: &'a LinkedProgram,
        nodes: Items<Option<AuthorNode>>,
    ) -> Result<Shown<'a>, AllocError> {
        match Positions::of(alloc, text) {
            Ok(positions) => Ok(Shown {
                text,
                positions,
                program: graph.program(),
                links: graph.links(),
                nodes,
            }),
            Err(error) => {
                drop(nodes);
                Err(error)
            }
        }
    }

    // Where a node comes from, and whether it is made.
    fn node(&self, node: NodeId) -> Option<AuthorNode> {
        match self.nodes.get(node as usize) {
            Some(found) => *found,
            None => None,
        }
    }

    /// The origin of a node.
    pub(crate) fn origin(&self, node: NodeId) -> Option<Origin> {
        match self.node(node) {
            Some(found) => Some(found.origin),
            None => None,
        }
    }

    /// The place of an origin.
    pub(crate) fn line_column(&self, origin: Origin) -> LineColumn {
        self.positions.line_column(origin.at)
    }
}

// What a node does, in one word or two.
fn what_it_does(step: Option<&Step>) -> &'static str {
    match step {
        Some(Step::Assign { .. }) => "sets",
        Some(Step::Update { .. }) => "updates",
        Some(Step::Cond { .. }) => "tests",
        Some(Step::Fork { .. }) => "forks",
        Some(Step::Join { .. }) => "joins",
        Some(Step::Surf { .. }) => "pauses",
        Some(Step::Depth { .. }) => "goes on after a pause",
        Some(Step::Exit) => "ends",
        None => "is none",
    }
}

/// The name of the variable that a node writes.
pub(crate) fn written_name(program: &Program, node: NodeId) -> Option<Name> {
    let (variable, _) = written(program.step(node)?)?;
    name_of(program, variable)
}

// What stands before the name of the state, or of the region, to which a node of a chart belongs.
fn part_text(part: SourcePart) -> &'static str {
    match part {
        SourcePart::Statement => "",
        SourcePart::Chart => ", of the chart as a whole",
        SourcePart::Region => ", of",
        SourcePart::State => ", of",
        SourcePart::Transition => ", in a transition of",
        SourcePart::Abort => ", for an abort of",
        SourcePart::Entry => ", for the entry of",
        SourcePart::Count => ", to count the regions that have not ended, for",
    }
}

/// Adds the state and the region of a chart to which this belongs, what part of them it is, and whether it is made, and
/// stands at the place of that for which it is; then ends the line.
pub(crate) fn put_around(page: &mut Page, source: &str, found: AuthorNode) {
    let origin = found.origin;
    page.put(part_text(origin.part));
    if let Some(region) = origin.region {
        if let Some(state) = origin.state {
            page.put_filled(" state @ in", name_in(source, state));
        }
        page.put_filled(" region @", name_in(source, region));
    }
    page.put(if found.is_made { " (made)\n" } else { "\n" });
}

// Adds what a node does.
fn put_step(page: &mut Page, program: &Program, node: NodeId) {
    page.put(what_it_does(program.step(node)));
    if let Some(name) = written_name(program, node) {
        page.put_filled(" `@`", name.as_str());
    }
}

// Adds the place of a node, what it does, and, where it is one of the first, its line with a mark.
fn put_placed(page: &mut Page, shown: &Shown<'_>, node: NodeId, found: AuthorNode, number: usize) {
    let line_column = shown.line_column(found.origin);
    page.put("at ");
    page.put_place(line_column);
    page.put(" ");
    put_step(page, shown.program, node);
    put_around(page, shown.text, found);
    if number < SHOWN {
        put_marked_line(page, shown.text, found.origin.at, line_column);
    }
}

/// Adds a node: its number and place, what it does, and, where it is one of the first, its line with a mark.
pub(crate) fn put_node(page: &mut Page, shown: &Shown<'_>, node: NodeId, number: usize) {
    page.put("node ");
    page.put_number(node as usize);
    page.put(" ");
    match shown.node(node) {
        Some(found) => put_placed(page, shown, node, found, number),
        None => {
            put_step(page, shown.program, node);
            page.put("\n");
        }
    }
}

/// Adds what stands before a note below the line of a node.
pub(crate) fn put_note_margin(page: &mut Page, shown: &Shown<'_>, node: NodeId) {
    let line = match shown.origin(node) {
        Some(origin) => shown.line_column(origin).line,
        None => 0,
    };
    put_margin(page, line);
    page.put(" = ");
}

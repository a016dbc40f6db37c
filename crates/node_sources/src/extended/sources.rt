//! The program of a reduced chart with the places of its nodes in the text of the extended one.

ghost use Rattle.std.specs.Prelude.{◌≡◌, IfOk, IfSome};
ghost use Rattle.scl_graph.specs.Answers.{IsGraph};
ghost use Rattle.node_sources.specs.Inside.Lowered.{IsLowered};
ghost use Rattle.node_sources.specs.Nodes.{author_nodes};
ghost use Rattle.node_sources.specs.ExtendedSources.{AreAuthorSources};

use crate::elements_of;
use crate::extended::lowered::{Lowered, lowered_of};
use crate::extended::node::AuthorNode;
use crate::extended::places::nodes_of;
use compiler::{LinkedProgram, graph_of_scl};
use sc_graph::Program;
use scl::Scl;
use scl_graph::GraphFault;
use sqlite_items::{Boxed, Items};
use std::alloc::{AllocError, Global};

/// The program of a reduced chart, and for each of its nodes, in order, where it comes from in the author's text.
#[derive(Drop)]
pub struct AuthorSources {
    pub graph: Boxed<LinkedProgram>,
    pub nodes: Items<Option<AuthorNode>>,
}

// The program of an SCL program. None: it has none.
fn graph_of(alloc: Global, scl: &Scl) -> Result<Option<Boxed<LinkedProgram>>, AllocError>
    ensures { IfOk result (λ found. IfSome found (IsGraph scl.now)) }
{
    match graph_of_scl(alloc, scl) {
        Ok(graph) => Ok(Some(Boxed::new(alloc, graph)?)),
        Err(GraphFault::Memory) => Err(AllocError),
        Err(_) => Ok(None),
    }
}

// The nodes of a program of what the extended chart of a text is reduced to.
fn nodes_in(
    alloc: Global,
    text: &str,
    lowered: &Lowered,
    program: &Program,
) -> Result<Items<Option<AuthorNode>>, AllocError>
    requires { IsLowered text.now lowered.now }
    ensures { IfOk result (λ nodes. nodes
        ≡ author_nodes lowered.now.placed.chart lowered.now.placed.origins lowered.now.placed.places program.now) }
{
    let placed = &lowered.placed;
    let elements = elements_of(alloc, &placed.chart, &lowered.core, &lowered.scl)?;
    nodes_of(
        alloc,
        &placed.origins,
        &placed.places,
        program,
        elements.as_slice(),
    )
}

// The program of what the extended chart of a text is reduced to, with the places of its nodes.
fn sources_with(
    alloc: Global,
    text: &str,
    lowered: &Lowered,
    graph: Boxed<LinkedProgram>,
) -> Result<AuthorSources, AllocError>
    requires lowered { IsLowered text.now lowered.now }
    requires graph { IsGraph lowered.now.scl graph }
    ensures { IfOk result (λ s. AreAuthorSources text.now s.graph s.nodes) }
{
    let nodes = nodes_in(alloc, text, lowered, graph.get().program())?;
    Ok(AuthorSources { graph, nodes })
}

// The same. None: it has no program.
fn sources_in(
    alloc: Global,
    text: &str,
    lowered: &Lowered,
) -> Result<Option<AuthorSources>, AllocError>
    requires { IsLowered text.now lowered.now }
    ensures { IfOk result (λ found. IfSome found (λ s. AreAuthorSources text.now s.graph s.nodes)) }
{
    match graph_of(alloc, &lowered.scl)? {
        Some(graph) => Ok(Some(sources_with(alloc, text, lowered, graph)?)),
        None => Ok(None),
    }
}

/// The program of the chart to which the extended chart of a text is reduced, with the places of its nodes in that
/// text. None: the text has a fault, or what it spells is reduced to no chart, or to one that makes no program. Err:
/// memory was refused.
pub fn author_sources(alloc: Global, text: &str) -> Result<Option<AuthorSources>, AllocError>
    ensures { IfOk result (λ found. IfSome found (λ s. AreAuthorSources text.now s.graph s.nodes)) }
{
    match lowered_of(alloc, text)? {
        Some(lowered) => sources_in(alloc, text, lowered.get()),
        None => Ok(None),
    }
}

//! The elements of nodes, by those of points and of core charts.

ghost use Rattle.std.specs.Prelude.{◌≡◌, IfOk, map, slice_get};
ghost use Rattle.node_elements.specs.GraphOrigins.{node_origins};
ghost use Rattle.node_elements.specs.LoweringOrigins.{point_origins};
ghost use Rattle.node_elements.specs.ExpansionOrigins.{expansion_origins};
ghost use Rattle.node_elements.specs.Origins.{composed, element_of, point_of, through};

use crate::expansion::{Origins, expansion_origins};
use crate::graph::{NodeOrigin, node_origins};
use crate::lowering::point_origins;
use core_charts::{Chart, CoreChart, Element};
use scl::Statement;
use sqlite_items::{Items, at};
use std::alloc::{AllocError, Global};

/// For each node of the program of a chart the element of the chart from which it comes, where `core` is its core chart
/// and `body` the statements to which that is lowered. Err: memory was refused.
pub fn node_elements(
    alloc: Global,
    chart: &Chart,
    core: &CoreChart,
    body: &[Statement],
) -> Result<Items<Option<Element>>, AllocError>
    ensures { IfOk result (λ elements. elements
        ≡ composed (node_origins body.now) (point_origins core.now) (expansion_origins chart.now)) }
{
    let nodes = node_origins(alloc, body)?;
    let points = point_origins(alloc, core)?;
    let expansion = expansion_origins(alloc, chart)?;
    composed(alloc, nodes.as_slice(), points.as_slice(), &expansion)
}

/// For each statement, or end of a thread, of the lowering of a chart's core chart the element of the chart from which
/// it comes, where `core` is that core chart. Err: memory was refused.
pub fn point_elements(
    alloc: Global,
    chart: &Chart,
    core: &CoreChart,
) -> Result<Items<Option<Element>>, AllocError>
    ensures { IfOk result (λ elements. elements
        ≡ map (through (expansion_origins chart.now)) (point_origins core.now)) }
{
    let points = point_origins(alloc, core)?;
    let expansion = expansion_origins(alloc, chart)?;
    let mut elements = Items::new(alloc);
    for point in points.as_slice() {
        elements.push(through(&expansion, *point))?;
    }
    Ok(elements)
}

fn composed(
    alloc: Global,
    nodes: &[NodeOrigin],
    points: &[Element],
    expansion: &Origins,
) -> Result<Items<Option<Element>>, AllocError>
    ensures { IfOk result (λ elements. elements ≡ composed nodes.now points.now expansion.now) }
{
    let mut elements = Items::new(alloc);
    for node in nodes {
        elements.push(element_of(points, expansion, *node))?;
    }
    Ok(elements)
}

// The element of the chart from which a node comes.
fn element_of(points: &[Element], expansion: &Origins, node: NodeOrigin) -> Option<Element>
    ensures { result ≡ element_of points.now expansion.now node }
{
    match element_at(points, point_of(node)) {
        Some(core) => through(expansion, core),
        None => None,
    }
}

fn point_of(node: NodeOrigin) -> u32
    ensures { result ≡ point_of node }
{
    match node {
        NodeOrigin::First(point) => point,
        NodeOrigin::Second(point) => point,
    }
}

// The element of the chart from which one of its core chart comes.
fn through(expansion: &Origins, core: Element) -> Option<Element>
    ensures { result ≡ through expansion.now core }
{
    match core {
        Element::Chart => Some(Element::Chart),
        Element::Region(number) => element_at(expansion.regions.as_slice(), number),
        Element::State(number) => element_at(expansion.states.as_slice(), number),
        Element::Transition(number) => element_at(expansion.transitions.as_slice(), number),
        Element::Effect(number) => element_at(expansion.effects.as_slice(), number),
    }
}

fn element_at(elements: &[Element], number: u32) -> Option<Element>
    ensures { result ≡ slice_get elements.now number }
{
    match at(elements, number as usize) {
        Some(element) => Some(*element),
        None => None,
    }
}

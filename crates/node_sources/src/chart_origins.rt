//! The origins of the nodes of a chart's program.

ghost use Rattle.std.specs.Prelude.{◌≡◌, ℕ, IfOk, IsSome, Option, Some, map, slice_get};
ghost use Rattle.core_charts.specs.declared.elements.element.Element.{Element};
ghost use Rattle.node_sources.specs.ChartOrigins.{element_origin, in_state_around, node_origin, origins_from, standing};

use crate::chart_places::{Places, StateAround};
use crate::origin::{Origin, SourcePart};
use crate::parts::part_of;
use core_charts::Element;
use sc_graph::Program;
use sqlite_items::{Items, at};
use std::alloc::{AllocError, Global};

// A part of a state.
fn in_state_around(part: SourcePart, place: usize, around: Option<StateAround>) -> Origin
    ensures { result ≡ in_state_around part place around }
{
    match around {
        Some(around) => Origin {
            at: place,
            part,
            region: Some(around.region),
            state: Some(around.state),
        },
        None => Origin {
            at: place,
            part,
            region: None,
            state: None,
        },
    }
}

// What stands at the place of an element.
fn standing(places: &Places, part: SourcePart, from: Element, place: usize) -> Origin
    ensures { result ≡ standing places.now part from place }
{
    match from {
        Element::Chart => in_state_around(part, place, None),
        Element::Region(_) => Origin {
            at: place,
            part,
            region: Some(place),
            state: None,
        },
        Element::State(_) => in_state_around(part, place, places.state_around(from)),
        Element::Transition(_) => in_state_around(part, place, places.state_around(from)),
        Element::Effect(_) => in_state_around(part, place, places.state_around(from)),
    }
}

/// An element of a chart as a part of its text. None: it has no place.
pub fn element_origin(places: &Places, part: SourcePart, from: Element) -> Option<Origin>
    ensures { result ≡ element_origin places.now part from }
{
    match places.place_of(from) {
        Some(place) => Some(standing(places, part, from, place)),
        None => None,
    }
}

// The origin of the node of this number of a program, which comes from an element.
fn node_origin(
    places: &Places,
    program: &Program,
    from: Option<Element>,
    number: usize,
) -> Option<Origin>
    ensures { result ≡ node_origin places.now program.now.variables from (slice_get program.now.nodes number) }
{
    match from {
        Some(from) => match at(program.nodes(), number) {
            Some(node) => {
                let part = part_of(program.variables(), &node.step, from);
                element_origin(places, part, from)
            }
            None => None,
        },
        None => None,
    }
}

/// The origins of the nodes of a program, each of which comes from an element with a place. Err: memory was refused.
pub(crate) fn origins_of(
    alloc: Global,
    places: &Places,
    program: &Program,
    elements: &[Option<Element>],
) -> Result<Items<Origin>, AllocError>
    requires { (k : ℕ) (from : Option Element) → slice_get elements.now k ≡ Some from →
        IsSome (node_origin places.now program.now.variables from (slice_get program.now.nodes k)) }
    ensures { IfOk result (λ origins. map Some origins ≡ origins_from places.now program.now 0 elements.now) }
{
    let mut origins = Items::new(alloc);
    for (number, from) in elements.iter().enumerate() {
        match node_origin(places, program, *from, number) {
            Some(origin) => origins.push(origin)?,
            None => unreachable!(),
        }
    }
    Ok(origins)
}

//! The nodes of the program of a reduced chart at the places of the author's elements.

ghost use Rattle.std.specs.Prelude.{◌≡◌, IfOk, slice_get};
ghost use Rattle.node_sources.specs.Nodes.{author_node, in_author, made_part, nodes_from, told_part};

use crate::extended::node::AuthorNode;
use crate::extended::text_places::{AuthorOrigin, AuthorOrigins};
use crate::{Places, SourcePart, element_origin, part_of};
use core_charts::Element;
use sc_graph::Program;
use sqlite_items::{Items, at};
use std::alloc::{AllocError, Global};

// What stands at the place of an element for which something is made.
fn made_part(from: Element) -> SourcePart
    ensures { result ≡ made_part from }
{
    match from {
        Element::Chart => SourcePart::Chart,
        Element::Region(_) => SourcePart::Region,
        Element::State(_) => SourcePart::State,
        Element::Transition(_) => SourcePart::Transition,
        Element::Effect(_) => SourcePart::Transition,
    }
}

// What is told of what does this: of what is made no more than for what it is.
fn told_part(does: SourcePart, origin: AuthorOrigin) -> SourcePart
    ensures { result ≡ told_part does origin }
{
    if origin.is_made {
        made_part(origin.from)
    } else {
        does
    }
}

/// What does this, and comes from an element of the reduced chart with this origin. None: that has none, or the origin
/// has no place.
pub(crate) fn in_author(
    places: &Places,
    does: SourcePart,
    origin: Option<AuthorOrigin>,
) -> Option<AuthorNode>
    ensures { result ≡ in_author places.now does origin }
{
    match origin {
        Some(origin) => {
            match element_origin(places, told_part(does, origin), origin.from) {
                Some(found) => Some(AuthorNode {
                    origin: found,
                    is_made: origin.is_made,
                }),
                None => None,
            }
        }
        None => None,
    }
}

// The node of this number of a program, which comes from an element.
fn author_node(
    origins: &AuthorOrigins,
    places: &Places,
    program: &Program,
    element: Option<Element>,
    number: usize,
) -> Option<AuthorNode>
    ensures { result
        ≡ author_node origins.now places.now program.now.variables element (slice_get program.now.nodes number) }
{
    match element {
        Some(element) => match at(program.nodes(), number) {
            Some(node) => {
                let does = part_of(program.variables(), &node.step, element);
                in_author(places, does, origins.origin_of(element))
            }
            None => None,
        },
        None => None,
    }
}

/// The nodes of a program, which come from these elements of the reduced chart. Err: memory was refused.
pub(crate) fn nodes_of(
    alloc: Global,
    origins: &AuthorOrigins,
    places: &Places,
    program: &Program,
    elements: &[Option<Element>],
) -> Result<Items<Option<AuthorNode>>, AllocError>
    ensures { IfOk result (λ nodes. nodes ≡ nodes_from origins.now places.now program.now 0 elements.now) }
{
    let mut nodes = Items::new(alloc);
    for (number, element) in elements.iter().enumerate() {
        nodes.push(author_node(origins, places, program, *element, number))?;
    }
    Ok(nodes)
}

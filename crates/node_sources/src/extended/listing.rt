//! The listing of an image with the place of each node in the text of the extended chart from which it was made.

ghost use Rattle.std.specs.Prelude.{IfOk, string_bytes};
ghost use Rattle.node_sources.specs.Listing.{ListsPlaces};

use crate::extended::node::AuthorNode;
use crate::extended::sources::author_sources;
use crate::{Origin, Positions, SourcePart, name_in};
use image_listing::{image_text_with_cells, left_cell};
use sc_graph::{Program, are_same};
use sqlite_items::Items;
use std::alloc::{AllocError, Global};
use verifier::Verified;

// How wide a place is, with what it is of and what stands behind it, where that is short.
const WIDTH: usize = 40;

// Whether the name of a state stands at the place of an origin.
fn names_state(origin: &Origin) -> bool {
    match origin.state {
        Some(place) => place == origin.at,
        None => false,
    }
}

// What stands before the name at the place of an origin. A transition and an effect have none.
fn sort_of(origin: &Origin) -> &'static str {
    match origin.part {
        SourcePart::Chart => "chart ",
        SourcePart::Region => "region ",
        _ if names_state(origin) => "state ",
        _ => "",
    }
}

// Puts the line and the column of an origin, and what stands there, behind a text.
fn put_origin(
    told: &mut String,
    text: &str,
    positions: &Positions<'_>,
    origin: &Origin,
) -> Result<(), AllocError> {
    let line_column = positions.line_column(origin.at);
    let line = line_column.line;
    let column = line_column.column;
    write!(told, "{line}:{column} ")?;
    told.push_str(sort_of(origin))?;
    told.push_str(name_in(text, origin.at))?;
    match origin.state {
        // the state in which a transition or an effect stands
        Some(place) if place != origin.at => {
            told.push_str(" of ")?;
            told.push_str(name_in(text, place))
        }
        _ => Ok(()),
    }
}

// Puts what is told of a node behind a text: in parentheses where it is made. None: it has no place.
fn put_node(
    told: &mut String,
    text: &str,
    positions: &Positions<'_>,
    node: Option<AuthorNode>,
) -> Result<(), AllocError> {
    let Some(node) = node else {
        return Ok(());
    };
    if !node.is_made {
        put_origin(told, text, positions, &node.origin)?;
        return told.push_str("  ");
    }
    told.push_str("(")?;
    put_origin(told, text, positions, &node.origin)?;
    told.push_str(")  ")
}

// Puts the cell of a node behind others.
fn put_cell(
    alloc: Global,
    text: &str,
    positions: &Positions<'_>,
    node: Option<AuthorNode>,
    cells: &mut Items<String>,
) -> Result<(), AllocError> {
    let mut told = String::new(alloc);
    put_node(&mut told, text, positions, node)?;
    cells.push(left_cell(alloc, WIDTH, told.as_str())?)
}

// Puts a cell for each of these nodes behind others.
fn put_places(
    alloc: Global,
    text: &str,
    nodes: &[Option<AuthorNode>],
    cells: &mut Items<String>,
) -> Result<(), AllocError> {
    let positions = Positions::of(alloc, text)?;
    for node in nodes {
        put_cell(alloc, text, &positions, *node, cells)?;
    }
    Ok(())
}

// Puts an empty cell for each node behind others.
fn put_empty(
    alloc: Global,
    program: &Program,
    cells: &mut Items<String>,
) -> Result<(), AllocError> {
    for _ in program.nodes() {
        cells.push(left_cell(alloc, WIDTH, "")?)?;
    }
    Ok(())
}

// Puts the cells of the nodes of a program behind others: their places, where the text is of an extended chart that
// makes it.
fn put_cells(
    alloc: Global,
    program: &Program,
    text: &str,
    cells: &mut Items<String>,
) -> Result<(), AllocError> {
    let Some(sources) = author_sources(alloc, text)? else {
        return put_empty(alloc, program, cells);
    };
    let put = if are_same(sources.graph.get().program(), program) {
        put_places(alloc, text, sources.nodes.as_slice(), cells)
    } else {
        put_empty(alloc, program, cells)
    };
    drop(sources);
    put
}

/// The listing of an image, in which each node's line has behind its number the line and the column of the text of the
/// extended chart from which it comes, and what stands there: in parentheses where the node is made, and does what no
/// element there does. The text is that of the image's program; where it is another, these places stand empty. Err:
/// memory was refused.
#[tactic(auto, using(crate::proofs::Listed::listed))]
pub fn image_text_with_author(
    alloc: Global,
    image: &Verified,
    text: &str,
) -> Result<String, AllocError>
    ensures { IfOk result (λ listing. ListsPlaces image.now (string_bytes listing)) }
{
    let mut cells = Items::new(alloc);
    put_cells(alloc, image.image().program(), text, &mut cells)?;
    let head = left_cell(alloc, WIDTH, "source")?;
    image_text_with_cells(alloc, image, head.as_str(), cells.as_slice())
}

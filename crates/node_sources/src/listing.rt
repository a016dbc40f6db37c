//! The listing of an image with the place of each node in its source text.

ghost use Rattle.std.specs.Prelude.{IfOk, string_bytes};
ghost use Rattle.node_sources.specs.Listing.{ListsPlaces};

use crate::origin::Origin;
use crate::positions::Positions;
use crate::sources::sources_of;
use image_listing::{image_text_with_cells, left_cell};
use sc_graph::{Program, are_same};
use sqlite_items::Items;
use std::alloc::{AllocError, Global};
use verifier::Verified;

// How wide a place is, with what stands behind it.
const WIDTH: usize = 13;

// Puts the cell of an origin, its line and its column, behind others.
fn put_place(
    alloc: Global,
    positions: &Positions<'_>,
    origin: &Origin,
    cells: &mut Items<String>,
) -> Result<(), AllocError> {
    let line_column = positions.line_column(origin.at);
    let line = line_column.line;
    let column = line_column.column;
    let text = format!(in alloc; "{line}:{column}")?;
    cells.push(left_cell(alloc, WIDTH, text.as_str())?)
}

// Puts a cell for each of these origins behind others.
fn put_places(
    alloc: Global,
    text: &str,
    origins: &[Origin],
    cells: &mut Items<String>,
) -> Result<(), AllocError> {
    let positions = Positions::of(alloc, text)?;
    for origin in origins {
        put_place(alloc, &positions, origin, cells)?;
    }
    Ok(())
}

// Puts an empty cell for each node behind others.
fn put_empty(
    alloc: Global,
    program: &Program,
    cells: &mut Items<String>,
) -> Result<(), AllocError> {
    for _ in program.nodes() {
        cells.push(left_cell(alloc, WIDTH, "")?)?;
    }
    Ok(())
}

// Puts the cells of the nodes of a program behind others: their places, where that is the program of the text.
fn put_cells(
    alloc: Global,
    program: &Program,
    text: &str,
    cells: &mut Items<String>,
) -> Result<(), AllocError> {
    let Some(sources) = sources_of(alloc, text)? else {
        return put_empty(alloc, program, cells);
    };
    let put = if are_same(&sources.program, program) {
        put_places(alloc, text, sources.origins.as_slice(), cells)
    } else {
        put_empty(alloc, program, cells)
    };
    drop(sources);
    put
}

/// The listing of an image, in which each node's line has behind its number the line and the column of the text from
/// which it comes. The text is that of the image's program; where it is another, these places stand empty. Err: memory
/// was refused.
#[tactic(auto, using(crate::proofs::Listed::listed))]
pub fn image_text_with(alloc: Global, image: &Verified, text: &str) -> Result<String, AllocError>
    ensures { IfOk result (λ listing. ListsPlaces image.now (string_bytes listing)) }
{
    let mut cells = Items::new(alloc);
    put_cells(alloc, image.image().program(), text, &mut cells)?;
    let head = left_cell(alloc, WIDTH, "source")?;
    image_text_with_cells(alloc, image, head.as_str(), cells.as_slice())
}

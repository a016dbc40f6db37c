//! The whole listing.

ghost use Rattle.std.specs.Prelude.{IfOk, map, string_bytes};
ghost use Rattle.image_listing.specs.Listing.{IsListing, IsListingWith};

use crate::edges::edges_text;
use crate::nodes::nodes_text;
use crate::threads::threads_text;
use crate::variables::variables_text;
use bytecode::Image;
use conflict_edges::{ConflictFault, conflicts};
use std::alloc::{AllocError, Global};
use verifier::Verified;

// What stands before the nodes, where this is the head of their cells.
fn head_text(alloc: Global, image: &Image, nodes: u16, head: &str) -> Result<String, AllocError> {
    let threads = image.program().thread_count();
    let budget = image.tables().budget;
    let declared = variables_text(alloc, image.program().variables())?;
    let tree = threads_text(alloc, image)?;
    format!(in alloc;
        "nodes={nodes} threads={threads} budget={budget}\n\nvariables\n{declared}\nthreads\n       bound  entry  thread\n{tree}\nnodes\nnode   {head}thread  priority  weight  end  step\n"
    )
}

// What stands behind the nodes.
fn tail_text(alloc: Global, image: &Verified) -> Result<String, AllocError> {
    let program = image.image().program();
    match conflicts(alloc, program, image.links()) {
        Ok(edges) => {
            let lines = edges_text(alloc, program, &edges)?;
            format!(in alloc; "\nprotocol edges\n{lines}")
        }
        Err(ConflictFault::Memory) => Err(AllocError),
        Err(ConflictFault::WriteWrite(_, _)) => Ok(String::new(alloc)),
    }
}

/// An image for people: its counts and its budget, the variables with their roles and kinds, the threads as a tree with
/// their bounds, a line for each node, which begins with its number, and the protocol edges of each variable. All other
/// lines begin with a space or a letter, or are empty. Err: memory was refused.
pub fn image_text(alloc: Global, image: &Verified) -> Result<String, AllocError>
    ensures { IfOk result (λ text. IsListing image.now (string_bytes text)) }
{
    image_text_with_cells(alloc, image, "", &[])
}

/// The same with a cell behind the number of each node, under this head. Err: memory was refused.
pub fn image_text_with_cells(
    alloc: Global,
    image: &Verified,
    head: &str,
    cells: &[String],
) -> Result<String, AllocError>
    ensures { IfOk result (λ text. IsListingWith (map string_bytes cells.now) image.now (string_bytes text)) }
{
    let program = image.image().program();
    let head = head_text(alloc, image.image(), program.node_count(), head)?;
    let lines = nodes_text(
        alloc,
        cells,
        program.variables(),
        image.image().tables(),
        program.nodes(),
    )?;
    let tail = tail_text(alloc, image)?;
    format!(in alloc; "{head}{lines}{tail}")
}

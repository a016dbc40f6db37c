//! The origins of all nodes.

ghost use Rattle.std.specs.Prelude.{◌≡◌, IfOk};
ghost use Rattle.node_elements.specs.GraphOrigins.{node_origins};

use crate::graph::below::put_below;
use crate::graph::origin::NodeOrigin;
use crate::graph::own::put_thread;
use scl::Statement;
use sqlite_items::Items;
use std::alloc::{AllocError, Global};

/// For each node of the graph of a program with these statements, in their order, the point from which it comes. Err:
/// memory was refused.
pub fn node_origins(alloc: Global, body: &[Statement]) -> Result<Items<NodeOrigin>, AllocError>
    ensures { IfOk result (λ origins. origins ≡ node_origins body.now) }
{
    let mut origins = Items::new(alloc);
    put_thread(body, 0, &mut origins)?;
    put_below(body, 0, &mut origins)?;
    Ok(origins)
}

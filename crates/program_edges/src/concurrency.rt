//! Which nodes are concurrent.

ghost use Rattle.std.specs.Prelude.{◌≡◌, ◌↔◌, IsTrue};
ghost use Rattle.sc_graph.specs.Threads.{ConcurrentNodes};
ghost use Rattle.sc_graph.specs.Links.{Tells};
ghost use Rattle.sc_graph.specs.Valid.{IsFormed};

use sc_graph::{Links, NodeId, Program};

/// Whether two nodes of a formed program are concurrent.
pub fn are_concurrent(program: &Program, links: &Links, m: NodeId, n: NodeId) -> bool
    requires formed { IsFormed program.now }
    requires told { Tells program.now links.now }
    ensures { IsTrue result ↔ ConcurrentNodes program.now m n }
{
    match (program.owner(m), program.owner(n)) {
        (Some(first), Some(second)) => links.are_concurrent(program, first, second),
        _ => false,
    }
}

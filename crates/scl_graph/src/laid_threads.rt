//! The threads of a program, and their nodes.

use sc_graph::{Node, Thread};
use sqlite_items::Items;

/// The threads that were laid of a program, and their nodes.
#[derive(Drop)]
pub(crate) struct Laid {
    pub(crate) threads: Items<Thread>,
    pub(crate) nodes: Items<Node>,
}

//! What stands together in an image: a thread or a node with its entries in the tables.

use sc_graph::{Node, Thread};

/// A thread and its bound.
#[derive(Drop)]
pub struct ThreadRow {
    pub thread: Thread,
    pub bound: u32,
}

/// A node, its priority, its weight and its end bit.
#[derive(Drop)]
pub struct NodeRow {
    pub node: Node,
    pub priority: u16,
    pub weight: u16,
    pub end_bit: bool,
}

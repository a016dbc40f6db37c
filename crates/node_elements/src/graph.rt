//! For each node of the graph of an SCL program the statement, or the end of a thread, from which it comes.

mod behind;
mod below;
mod laws;
mod origin;
mod origins;
mod own;

pub use laws::origins_tell_nodes;
pub use origin::NodeOrigin;
pub use origins::node_origins;

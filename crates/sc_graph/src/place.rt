//! Places of an image, at which a rule is kept or broken.

use crate::program::{NodeId, ThreadId, VariableId};

/// A place in an image, at which a rule is kept or broken.
#[derive(Clone, Copy, Debug, PartialEq, Eq)]
pub enum Place {
    /// The image as a whole: its counts and its budget.
    Image,
    Variable(VariableId),
    Thread(ThreadId),
    Node(NodeId),
    /// Two nodes. Where the rule is about an edge, from the first to the second; of a write
    /// conflict, the smaller first.
    Pair(NodeId, NodeId),
}

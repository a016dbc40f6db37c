//! What the origins of a graph tell.

ghost use Rattle.node_elements.specs.GraphLaws.{OriginsTellNodes};

/// The program of an SCL program has as many nodes as origins, and each node does what stands at the point of its
/// origin: an assignment comes from the statement that makes it. This function does nothing; its contract is the law.
pub fn origins_tell_nodes()
    ensures { OriginsTellNodes }
{}

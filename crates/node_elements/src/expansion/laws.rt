//! What the origins of an expansion tell.

ghost use Rattle.node_elements.specs.ExpansionLaws.{OriginsTellExpansion};

/// There are as many origins as elements of the core chart, and each comes from an element of the chart: a region and a
/// state from that of the same name, if theirs was not added, an effect from that of the same assignment. The states
/// from which those of the core chart come are those for which they stand. This function does nothing; its contract is
/// the law.
pub fn origins_tell_expansion()
    ensures { OriginsTellExpansion }
{}

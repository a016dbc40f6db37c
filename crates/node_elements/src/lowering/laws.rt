//! What the origins of a lowering tell.

ghost use Rattle.node_elements.specs.LoweringLaws.{OriginsTellPoints};

/// The lowering of a core chart has as many points as origins, and each point comes from its origin: an assignment from
/// the effect that makes it, a test from the transition with its trigger. This function does nothing; its contract is
/// the law.
pub fn origins_tell_points()
    ensures { OriginsTellPoints }
{}

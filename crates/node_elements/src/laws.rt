//! What the elements of nodes tell.

ghost use Rattle.node_elements.specs.Laws.{ElementsTellNodes};

use crate::expansion::origins_tell_expansion;
use crate::graph::origins_tell_nodes;
use crate::lowering::origins_tell_points;

/// Each node of the program of a chart comes from an element of the chart, an assignment from the effect that makes it,
/// or, where it sets a flag or a counter, from a transition or a state. This function does nothing; its contract is the
/// law.
pub fn elements_tell_nodes()
    ensures { ElementsTellNodes }
{
    origins_tell_nodes();
    origins_tell_points();
    origins_tell_expansion();
}

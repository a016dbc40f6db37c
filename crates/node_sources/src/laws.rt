//! What origins tell.

ghost use Rattle.node_sources.specs.Laws.{SourcesTellCharts};
ghost use Rattle.node_sources.specs.SclLaws.{SourcesTellScl};

use crate::chart_places::places_tell_texts;
use node_elements::{elements_tell_nodes, origins_tell_nodes};

/// Of the program of a chart there are as many origins as nodes. Each node comes from an element of the chart, an
/// assignment of the text from the effect that makes it, and at the place of its origin stands the token that begins
/// this element. This function does nothing; its contract is the law.
pub fn sources_tell_charts()
    ensures { SourcesTellCharts }
{
    elements_tell_nodes();
    places_tell_texts();
}

/// Of the program of an SCL text there are as many origins as nodes. Each node does what stands at the point that the
/// origins of the graph tell, and at the place of its origin stands the token that begins this point: the name that is
/// assigned, the word `if`, `pause` or `fork`, of a join the word `join`, of the end of a thread the word that opens
/// it. This function does nothing; its contract is the law.
pub fn sources_tell_scl()
    ensures { SourcesTellScl }
{
    origins_tell_nodes();
}

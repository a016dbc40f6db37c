//! Why a program has no image.

use abort_expansion::ExpandFault;
use conflict_edges::ConflictFault;
use priority_weights::TablesFault;
use scl_graph::GraphFault;
use verifier::Refusal;

/// Why a program has no image. It prints as the number of the fault, and what the fault names.
#[derive(Debug, Drop)]
pub enum CompileFault {
    /// E07: the expansion of the chart passes a limit; or memory was refused. Only a chart has this.
    Expansion(ExpandFault),
    /// E14: labels and gotos alone lead back to themselves; E07: the graph of the text is too large; or
    /// memory was refused. A program that is a graph already has none of these.
    Graph(GraphFault),
    /// E11: two concurrent nodes write one variable in conflict; or memory was refused.
    Conflict(ConflictFault),
    /// E13 or E12: a closed walk, because of which there are no tables; or memory was refused.
    Tables(TablesFault),
    /// E33 or E34: a code or an assignment breaks its rule, and no lower rule is broken; or memory was refused.
    /// A program of SCL and a chart break none.
    Rule(Refusal),
}

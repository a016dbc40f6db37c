//! The report of a fault of the program of a reduced chart, in the text of the extended one.

ghost use Rattle.std.specs.Prelude.{IfOk, string_bytes};
ghost use Rattle.compiler.specs.FaultText.{fault_text};
ghost use Rattle.diagnostics.specs.Reports.{Tells};

use crate::nodes::Shown;
use crate::program_report::{Report, put_label, put_shown_nodes, reported};
use compiler::CompileFault;
use node_sources::{AuthorSources, author_label, author_sources};
use scl_graph::GraphFault;
use std::alloc::{AllocError, Global};

/// A fault of the program of the chart to which the extended chart of a text is reduced, for people, as that of another
/// program. Places, lines and names are those of this text; of what a reduction makes it is said that it is made, and
/// it stands at that for which it is. Err: memory was refused.
pub fn author_fault_told(
    alloc: Global,
    name: &str,
    text: &str,
    fault: &CompileFault,
) -> Result<String, AllocError>
    ensures { IfOk result (λ report. Tells name.now (fault_text fault.now) (string_bytes report)) }
{
    let mut report = Report::nowhere(alloc);
    if put_shown(alloc, &mut report, text, fault).is_err() {
        report.refuse();
    }
    let told = reported(alloc, name, &mut report, fault);
    drop(report);
    told
}

// Shows a fault in the text.
fn put_shown(
    alloc: Global,
    report: &mut Report,
    text: &str,
    fault: &CompileFault,
) -> Result<(), AllocError> {
    match fault {
        CompileFault::Graph(GraphFault::EmptyLoop(label)) => {
            if let Some(found) = author_label(alloc, text, *label)? {
                put_label(report, text, *label, found);
            }
            Ok(())
        }
        CompileFault::Expansion(_) | CompileFault::Graph(_) => Ok(()),
        CompileFault::Conflict(_) | CompileFault::Tables(_) | CompileFault::Rule(_) => {
            match author_sources(alloc, text)? {
                Some(sources) => put_nodes(alloc, report, text, sources, fault),
                None => Ok(()),
            }
        }
    }
}

// Shows the nodes of a fault, at their places.
fn put_nodes(
    alloc: Global,
    report: &mut Report,
    text: &str,
    sources: AuthorSources,
    fault: &CompileFault,
) -> Result<(), AllocError> {
    let AuthorSources { graph, nodes } = sources;
    let shown = Shown::in_author(alloc, text, graph.get(), nodes)?;
    put_shown_nodes(report, &shown, fault);
    drop(shown);
    Ok(())
}

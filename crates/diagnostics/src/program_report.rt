//! The report of a fault of a program.

ghost use Rattle.std.specs.Prelude.{IfOk, string_bytes};
ghost use Rattle.compiler.specs.FaultText.{fault_text};
ghost use Rattle.diagnostics.specs.Reports.{Tells};
ghost use Rattle.scl_graph.specs.Answers.{IsGraph};

use crate::lines::put_marked_line;
use crate::nodes::{Shown, put_around};
use crate::page::Page;
use crate::program_words::in_words;
use crate::report::put_help;
use crate::walks::{first_node, put_conflict, put_place, put_walk};
use compiler::{CompileFault, LinkedProgram, ReadSource, graph_of_scl, read_source};
use conflict_edges::ConflictFault;
use node_sources::{AuthorNode, LineColumn, label_origin, line_column_of, origins_in};
use priority_weights::TablesFault;
use sc_graph::NodeId;
use sc_values::Name;
use scl_graph::GraphFault;
use sqlite_items::at;
use std::alloc::{AllocError, Global};
use verifier::Refusal;

/// A fault of a program for people: the name of the file, with the line and the column of what is named first, the
/// fault as it prints, and what is wrong; then each node of the fault, in its order, with its place, what it does, the
/// line of the text with a mark under the place, and why it has to come before the next; then what helps. The text is
/// that from which the program was compiled; where it is another, no place is told. Err: memory was refused.
pub fn program_fault_explained(
    alloc: Global,
    name: &str,
    text: &str,
    fault: &CompileFault,
) -> Result<String, AllocError>
    ensures { IfOk result (λ report. Tells name.now (fault_text fault.now) (string_bytes report)) }
{
    match read_source(alloc, text) {
        Ok(source) => program_fault_told(alloc, name, Some(source.get()), fault),
        Err(unread) => {
            unread.says_of_text()?;
            program_fault_told(alloc, name, None, fault)
        }
    }
}

/// The same of a text that was read already. None: it was not, and no place is told.
pub fn program_fault_told(
    alloc: Global,
    name: &str,
    source: Option<&ReadSource<'_>>,
    fault: &CompileFault,
) -> Result<String, AllocError>
    ensures { IfOk result (λ report. Tells name.now (fault_text fault.now) (string_bytes report)) }
{
    let mut report = Report::nowhere(alloc);
    if put_shown(alloc, &mut report, source, fault).is_err() {
        report.refuse();
    }
    let told = reported(alloc, name, &mut report, fault);
    drop(report);
    told
}

/// What a report says of places: that of the whole, and the lines behind its first.
#[derive(Drop)]
pub(crate) struct Report {
    place: Page,
    body: Page,
}

impl Report {
    /// A report without places.
    pub(crate) fn nowhere(alloc: Global) -> Report {
        Report {
            place: Page::new(alloc),
            body: Page::new(alloc),
        }
    }

    /// Notes that memory was refused to what it shows.
    pub(crate) fn refuse(&mut self) {
        self.body.refuse();
    }
}

/// The report of a fault, of which this is shown. Err: memory was refused.
pub(crate) fn reported(
    alloc: Global,
    name: &str,
    shown: &mut Report,
    fault: &CompileFault,
) -> Result<String, AllocError>
    ensures { IfOk result (λ report. Tells name.now (fault_text fault.now) (string_bytes report)) }
{
    let told = in_words(fault);
    let cause = told.cause;
    put_help(&mut shown.body, told.cure);
    let place = shown.place.written()?;
    let rest = shown.body.written()?;
    format!(in alloc; "{name}{place}: {fault}: {cause}\n{rest}")
}

// Shows a fault, where its text was read.
fn put_shown(
    alloc: Global,
    report: &mut Report,
    source: Option<&ReadSource<'_>>,
    fault: &CompileFault,
) -> Result<(), AllocError> {
    match source {
        Some(source) => put_fault(alloc, report, source, fault),
        None => Ok(()),
    }
}

// Shows a fault in its text.
fn put_fault(
    alloc: Global,
    report: &mut Report,
    source: &ReadSource<'_>,
    fault: &CompileFault,
) -> Result<(), AllocError> {
    match fault {
        CompileFault::Graph(GraphFault::EmptyLoop(label)) => {
            if let Some(origin) = label_origin(alloc, source, *label)? {
                put_label(report, source.text(), *label, AuthorNode::own(origin));
            }
            Ok(())
        }
        CompileFault::Expansion(_) | CompileFault::Graph(_) => Ok(()),
        CompileFault::Conflict(_) | CompileFault::Tables(_) | CompileFault::Rule(_) => {
            put_nodes(alloc, report, source, fault)
        }
    }
}

// Adds a place, with what stands before it.
fn put_first_place(page: &mut Page, line_column: LineColumn) {
    page.put(":");
    page.put_place(line_column);
}

/// Shows a label, at the place of what it comes from.
pub(crate) fn put_label(report: &mut Report, text: &str, label: Name, found: AuthorNode) {
    let at = found.origin.at;
    let line_column = line_column_of(text, at);
    put_first_place(&mut report.place, line_column);
    report.body.put("label ");
    report.body.put(label.as_str());
    put_around(&mut report.body, text, found);
    put_marked_line(&mut report.body, text, at, line_column);
}

/// Shows the nodes of a fault.
pub(crate) fn put_shown_nodes(report: &mut Report, shown: &Shown<'_>, fault: &CompileFault) {
    put_nodes_of(&mut report.body, shown, fault);
    let Some(first) = first_of(shown, fault) else {
        return;
    };
    if let Some(origin) = shown.origin(first) {
        put_first_place(&mut report.place, line_column_of(shown.text, origin.at));
    }
}

// Shows the nodes of a fault, by the graph that was made of the text.
fn put_nodes(
    alloc: Global,
    report: &mut Report,
    source: &ReadSource<'_>,
    fault: &CompileFault,
) -> Result<(), AllocError> {
    match source.graph() {
        Some(graph) => put_nodes_in(alloc, report, source, graph, fault),
        None => put_made_nodes(alloc, report, source, fault),
    }
}

// Shows the nodes of a fault of a text of which no graph was made.
fn put_made_nodes(
    alloc: Global,
    report: &mut Report,
    source: &ReadSource<'_>,
    fault: &CompileFault,
) -> Result<(), AllocError> {
    match graph_of_scl(alloc, source.scl()) {
        Ok(graph) => {
            let put = put_nodes_in(alloc, report, source, &graph, fault);
            drop(graph);
            put
        }
        Err(GraphFault::Memory) => Err(AllocError),
        Err(_) => Ok(()),
    }
}

// Shows the nodes of a fault, in the graph of its text.
fn put_nodes_in(
    alloc: Global,
    report: &mut Report,
    source: &ReadSource<'_>,
    graph: &LinkedProgram,
    fault: &CompileFault,
) -> Result<(), AllocError>
    requires { IsGraph source.now.scl graph.now }
{
    let origins = origins_in(alloc, source, graph.program())?;
    let shown = Shown::of(alloc, source.text(), graph, origins.as_slice());
    drop(origins);
    let shown = shown?;
    put_shown_nodes(report, &shown, fault);
    drop(shown);
    Ok(())
}

// Adds the lines of the nodes of a fault.
fn put_nodes_of(page: &mut Page, shown: &Shown<'_>, fault: &CompileFault) {
    match fault {
        CompileFault::Conflict(ConflictFault::WriteWrite(first, second)) => {
            put_conflict(page, shown, *first, *second)
        }
        CompileFault::Tables(TablesFault::InstantLoop(walk) | TablesFault::Cyclic(walk)) => {
            put_walk(page, shown, walk.as_slice())
        }
        CompileFault::Rule(Refusal::Broken(broken)) => put_place(page, shown, broken.place),
        _ => {}
    }
}

// The first node of a fault.
fn first_of(shown: &Shown<'_>, fault: &CompileFault) -> Option<NodeId> {
    match fault {
        CompileFault::Conflict(ConflictFault::WriteWrite(first, _)) => Some(*first),
        CompileFault::Tables(TablesFault::InstantLoop(walk) | TablesFault::Cyclic(walk)) => {
            match at(walk.as_slice(), 0) {
                Some(node) => Some(*node),
                None => None,
            }
        }
        CompileFault::Rule(Refusal::Broken(broken)) => first_node(shown, broken.place),
        _ => None,
    }
}

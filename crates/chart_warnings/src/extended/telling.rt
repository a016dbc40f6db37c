//! The warnings of the text of an extended chart, told.

ghost use Rattle.std.specs.Prelude.{IfOk, string_bytes};
ghost use Rattle.extended_reader.specs.Checked.{IsSound};
ghost use Rattle.extended_reader.specs.Resolved.{extended_of};
ghost use Rattle.chart_reduction.specs.Reduction.{IsReduction};
ghost use Rattle.chart_warnings.specs.ExtendedReports.{IsToldOfAuthor, WarnsAuthor};

use crate::extended::places::author_places;
use crate::extended::warnings::author_warnings;
use crate::{reports_of, warnings_of};
use chart_reduction::{AuthorRows, ReduceFault, reduce};
use core_charts::Chart;
use extended_reader::{ExtendedDraft, extended_of, read_checked_extended};
use sc_text::ReadFault;
use std::alloc::{AllocError, Global};

/// The warnings of a text for people: for an extended chart without a fault that is reduced to a chart, a report for
/// each warning of that chart that speaks of what is the author's and that the line of its place in his text does not
/// allow, in the order of `warnings_of`; for any other text nothing. The reports are those of `warnings_told`. Err:
/// memory was refused.
#[tactic(auto, using(crate::proofs::ToldOfAuthor::faulty))]
pub fn author_warnings_told(alloc: Global, name: &str, text: &str) -> Result<String, AllocError>
    ensures { IfOk result (λ told. IsToldOfAuthor name.now text.now (string_bytes told)) }
{
    match read_checked_extended(alloc, text) {
        Ok(draft) => told_of(alloc, name, text, &draft),
        Err(ReadFault::Text(_, _)) => Ok(String::new(alloc)),
        Err(ReadFault::Memory) => Err(AllocError),
    }
}

// What is told of the extended chart that this draft of the text is.
fn told_of(
    alloc: Global,
    name: &str,
    text: &str,
    draft: &ExtendedDraft,
) -> Result<String, AllocError>
    requires sound { IsSound text.now draft.now }
    ensures { IfOk result (λ told. IsToldOfAuthor name.now text.now (string_bytes told)) }
{
    let extended = extended_of(alloc, draft)?;
    match reduce(alloc, &extended) {
        Ok((chart, rows)) => told_over(alloc, name, text, draft, &chart, &rows),
        Err(ReduceFault::Limit) => Ok(String::new(alloc)),
        Err(ReduceFault::Memory) => Err(AllocError),
    }
}

// The reports of what is the author's in the chart to which this draft is reduced.
fn told_over(
    alloc: Global,
    name: &str,
    text: &str,
    draft: &ExtendedDraft,
    chart: &Chart,
    rows: &AuthorRows,
) -> Result<String, AllocError>
    requires sound { IsSound text.now draft.now }
    requires reduction { IsReduction (extended_of draft.now) chart.now rows.now }
    ensures { IfOk result (λ told. WarnsAuthor name.now text.now (string_bytes told)) }
{
    let warnings = warnings_of(alloc, chart)?;
    let places = author_places(alloc, draft)?;
    let own = author_warnings(alloc, rows.states.as_slice(), &places, warnings.as_slice())?;
    reports_of(
        alloc,
        name,
        text,
        chart.variables(),
        &places,
        own.as_slice(),
    )
}

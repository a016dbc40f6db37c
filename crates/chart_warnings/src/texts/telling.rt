//! The warnings of a text, told.

ghost use Rattle.std.specs.Prelude.{IfOk, OnOk, string_bytes};
ghost use Rattle.chart_reader.specs.Checked.{IsSound};
ghost use Rattle.chart_warnings.specs.Places.{place_of};
ghost use Rattle.chart_warnings.specs.Reports.{AreReports, IsTold, Warns, heads_at, heads_of};
ghost use Rattle.chart_warnings.specs.Inside.Gaining.{Gains};

use crate::texts::allowance::is_allowed;
use crate::texts::places::{ChartPlaces, places_of};
use crate::texts::report::report_of;
use crate::texts::warned_text::WarnedText;
use crate::{Warning, warnings_of};
use chart_reader::{DraftChart, chart_of, read_checked};
use sc_graph::Variable;
use sc_text::ReadFault;
use std::alloc::{AllocError, Global};

/// The warnings of a text for people: for a chart without a fault, a report for each of its warnings that the line of
/// its place does not allow, in the order of `warnings_of`; for any other text nothing. A report is the name of the
/// file with line and column, the code and what is warned of, the line of the text with a mark under the place, and
/// what helps. Err: memory was refused.
pub fn warnings_told(alloc: Global, name: &str, text: &str) -> Result<String, AllocError>
    ensures { IfOk result (λ told. IsTold name.now text.now (string_bytes told)) }
{
    match read_checked(alloc, text) {
        Ok(draft) => told_of(alloc, name, text, &draft),
        Err(ReadFault::Text(_, _)) => Ok(String::new(alloc)),
        Err(ReadFault::Memory) => Err(AllocError),
    }
}

// The reports of the chart that this draft of the text is.
#[tactic(auto, using(chart_reader::proofs::Reading::unflawed, chart_reader::proofs::Reading::shaped))]
fn told_of(alloc: Global, name: &str, text: &str, draft: &DraftChart) -> Result<String, AllocError>
    requires sound { IsSound text.now draft.now }
    ensures { IfOk result (λ told. Warns name.now text.now (string_bytes told)) }
{
    let chart = chart_of(alloc, draft)?;
    let warnings = warnings_of(alloc, &chart)?;
    let places = places_of(alloc, draft)?;
    reports_of(
        alloc,
        name,
        text,
        chart.variables(),
        &places,
        warnings.as_slice(),
    )
}

/// A report for each of these warnings of a chart with these variables that the line of its place does not allow, one
/// behind the other, where these are the places in the text. Err: memory was refused.
pub fn reports_of(
    alloc: Global,
    name: &str,
    text: &str,
    variables: &[Variable],
    places: &ChartPlaces,
    warnings: &[Warning],
) -> Result<String, AllocError>
    ensures { IfOk result (λ told.
        AreReports name.now (heads_of text.now places.now warnings.now) (string_bytes told)) }
{
    let warned = WarnedText {
        name,
        text,
        variables,
        places,
    };
    tell_all(alloc, warned, warnings)
}

// The reports of these warnings, one behind the other.
#[tactic(auto, using(crate::proofs::Joining::begins))]
fn tell_all(
    alloc: Global,
    warned: WarnedText<'_>,
    warnings: &[Warning],
) -> Result<String, AllocError>
    ensures { IfOk result (λ told. AreReports warned.entry.name.now
        (heads_of warned.entry.text.now warned.entry.places.now warnings.now) (string_bytes told)) }
{
    let mut told = String::new(alloc);
    for warning in warnings {
        tell(alloc, warned, *warning, &mut told)?;
    }
    Ok(told)
}

// Puts the report of a warning behind the others, where the line of its place does not allow it.
#[tactic(auto, using(crate::proofs::Joining::none_gained, crate::proofs::Joining::one_gained))]
fn tell(
    alloc: Global,
    warned: WarnedText<'_>,
    warning: Warning,
    told: &mut String,
) -> Result<(), AllocError>
    ensures { OnOk result (Gains warned.entry.name.now
        (heads_at warned.entry.text.now (place_of warned.entry.places.now warning) warning)
        (string_bytes told.old) (string_bytes told.new)) }
{
    let at = warned.places.place_of(warning);
    if is_allowed(warned.text, at, warning) {
        return Ok(());
    }
    let report = report_of(alloc, warned, warning, at)?;
    told.push_str(report.as_str())
}
